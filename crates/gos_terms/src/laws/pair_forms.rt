// What the definitions give. Each theorem is the contract of a function that does nothing.
ghost use Rattle.gos_terms.specs.pair_forms.Cases.{BothCase, BothIsSteady};
ghost use Rattle.gos_terms.specs.pair_forms.SmallPaired.{TwiceIsKept, TwiceIsSteady, UnsplitIsNotKept};

use super::leaves::{leaves_are_regular, small_splits};
use super::stages::supplies_inside;
use gos_nodes::laws::products::{both, pairs};

/// A pair that is wired to what realises its numbers' terms realises its own, if its children do.
pub fn cases()
    ensures { BothCase }
{
    supplies_inside();
    pairs();
}

/// A pair that is wired to plans that are regular and rest has such a plan, if its children have.
pub fn steady()
    ensures { BothIsSteady }
{
    both();
}

/// The pair of a command with itself is kept with its split, and not without; so it is regular and rests.
pub fn small_pairs()
    ensures kept { TwiceIsKept }
    ensures steady { TwiceIsSteady }
    ensures unsplit { UnsplitIsNotKept }
{
    small_splits();
    leaves_are_regular();
    steady();
}
