// Leaves realise their terms. Each theorem is the contract of a function that does nothing.
ghost use Rattle.gos_terms.specs.leaves.Leaves.{LiteralIsRealised, ReadIsRealised, SkipIsRealised, UseIsRealised};
ghost use Rattle.gos_terms.specs.leaves.RegularLeaves.{LiteralIsRegular, SkipIsRegular, UseIsRegular};
ghost use Rattle.gos_terms.specs.leaves.Readings.{ReadIsRegular, ReadingIsRegular};
ghost use Rattle.gos_terms.specs.leaves.Splits.{LeavesHaveNoSplits, StandingIsSplitAtForks};
ghost use Rattle.gos_terms.specs.leaves.SmallLeaves.{LooseIsWired, LooseRealisesSkip, OtherIsNotWired};
ghost use Rattle.gos_terms.specs.leaves.SmallSplits.{OwnSideIsNoFork, OwnSideIsNotWithin, OwnSideStands, TwiceIsSplit};

/// A number that is used is its supply's plan, with the other supplies beside it.
pub fn use_is_realised()
    ensures { UseIsRealised }
{}

/// `skip` and a number are the node's own part, with all supplies beside it.
pub fn closed_is_realised()
    ensures skip { SkipIsRealised }
    ensures literal { LiteralIsRealised }
{}

/// A variable that is read is its supply's plan joined to a Deref, with the other supplies beside it.
pub fn read_is_realised()
    ensures { ReadIsRealised }
{}

/// With imports of any types a leaf is regular, and rests.
pub fn leaves_are_regular()
    ensures used { UseIsRegular }
    ensures skip { SkipIsRegular }
    ensures literal { LiteralIsRegular }
{}

/// So is a variable that is read, and the plan of any variable, joined to a Deref.
pub fn readings_are_regular()
    ensures joined { ReadingIsRegular }
    ensures read { ReadIsRegular }
{}

/// The plan of `skip` beside another Skip is a use of the one, wired to both, and realises `skip`; with the other joined it is not.
pub fn small_leaves()
    ensures met { LooseIsWired }
    ensures missed { OtherIsNotWired }
    ensures realised { LooseRealisesSkip }
{}

/// Only nodes of two parts or more have splits: where each side of a split is used in its node, and so where a typed term stands
/// for a program that has a type.
pub fn no_splits()
    ensures leaves { LeavesHaveNoSplits }
    ensures standing { StandingIsSplitAtForks }
{}

/// A split with two uses is of a node of two parts. One whose side is its own source stands for a location, which has no type.
pub fn small_splits()
    ensures twice { TwiceIsSplit }
    ensures stands { OwnSideStands }
    ensures fork { OwnSideIsNoFork }
    ensures within { OwnSideIsNotWithin }
{}
