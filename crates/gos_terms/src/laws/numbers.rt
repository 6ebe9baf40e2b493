// What is kept of a typed term's numbers. Each theorem is the contract of a function that does nothing.
ghost use Rattle.gos_terms.specs.numbers.Kept.{CheckedIsKept};
ghost use Rattle.gos_terms.specs.numbers.Inherited.{BodyIsKept, PartIsKept, BothAreKept, BothAreParted, ThreeAreKept};
ghost use Rattle.gos_terms.specs.numbers.Unsplit.{AppliedAreNotUnsplit, CheckedIsUnsplit, OthersAreUnsplit, SidesAreNotUnsplit, TwiceIsUnsplit};
ghost use Rattle.gos_terms.specs.numbers.SmallKept.{TwiceIsKept, NoneIsNotKept};

use super::leaves::small_splits;
use gos_compile::typed_terms;

/// It is kept at first, in a checked module.
pub fn checked_is_kept()
    ensures { CheckedIsKept }
{
    typed_terms();
}

/// The parts of a node inherit it, with the numbers that they use.
pub fn parts_are_kept()
    ensures body { BodyIsKept }
    ensures one { PartIsKept }
    ensures both { BothAreKept }
    ensures parted { BothAreParted }
    ensures three { ThreeAreKept }
{}

/// No node `m || n` of a checked module has splits, and neither has one that applies. A sequence may have them.
pub fn parallels_are_unsplit()
    ensures checked { CheckedIsUnsplit }
    ensures met { TwiceIsUnsplit }
    ensures missed { SidesAreNotUnsplit }
    ensures applied_met { OthersAreUnsplit }
    ensures applied_missed { AppliedAreNotUnsplit }
{
    typed_terms();
}

/// A number that is used twice is split, where it is there; and where it isn't, that is no term whose numbers are kept.
pub fn small_kept()
    ensures met { TwiceIsKept }
    ensures missed { NoneIsNotKept }
{
    small_splits();
}
