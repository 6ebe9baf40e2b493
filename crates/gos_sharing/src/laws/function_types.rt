// What the definitions give. Each theorem is the contract of a function that does nothing.
ghost use Rattle.gos_sharing.specs.function_types.Joined.{JoinedIsSplit};
ghost use Rattle.gos_sharing.specs.function_types.Passing.{FunctionsAreWithout, PairsAreNot, PassingIsRealised};
ghost use Rattle.gos_sharing.specs.function_types.Realised.{SplitIsRealised};
ghost use Rattle.gos_sharing.specs.function_types.SmallSplit.{SameIsSplit, WholeIsNoSplit};
ghost use Rattle.gos_sharing.specs.function_types.Split.{SplitIsDone, SplitIsRegular};

/// A plan with a Share of a function's type is regular, and realises a program of a ground type, where one does that has
/// a Share of the argument's type and one of the outcome's in its place.
pub fn splits()
    ensures regular { SplitIsRegular }
    ensures done { SplitIsDone }
{}

/// It realises a term of any type that the other realises, where a region that is a regular plan is joined to its source.
pub fn realising()
    ensures { SplitIsRealised }
{}

/// So a plan of any type in which no pair stands realises behind either caller of a Share what it realises.
pub fn passing()
    ensures { PassingIsRealised }
{
    super::behind::order();
    super::ground_types::ground();
}

/// A type of functions on functions is such a type, one of functions on pairs is none.
pub fn small_types()
    ensures functions { FunctionsAreWithout }
    ensures pairs { PairsAreNot }
{}

/// What is joined to split plans is split.
pub fn joinings()
    ensures { JoinedIsSplit }
{}

/// The plan of `fun a : com . a` behind a Share is split into the one behind two, and not into itself.
pub fn small_splits()
    ensures same { SameIsSplit }
    ensures whole { WholeIsNoSplit }
{
    super::behind::small_plans();
}
