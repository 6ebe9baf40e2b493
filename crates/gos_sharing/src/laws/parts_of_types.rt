// What the definitions give. Each theorem is the contract of a function that does nothing.
ghost use Rattle.gos_sharing.specs.parts_of_types.Joined.{JoinedIsNarrow};
ghost use Rattle.gos_sharing.specs.parts_of_types.Narrow.{NarrowIsDone, NarrowIsRegular, NarrowIsThere, NarrowRests};
ghost use Rattle.gos_sharing.specs.parts_of_types.Realised.{NarrowIsRealised};
ghost use Rattle.gos_sharing.specs.parts_of_types.SmallNarrow.{NarrowIsNoNarrow, SkipIsNarrow};

/// For a right plan with a Share there is one with a Share of a wide type in its place. It is regular, rests, and realises
/// a program, where that plan does.
pub fn shares()
    ensures there { NarrowIsThere }
    ensures regular { NarrowIsRegular }
    ensures rests { NarrowRests }
    ensures done { NarrowIsDone }
{}

/// What is joined to such plans is such a plan, at the same Share.
pub fn joinings()
    ensures { JoinedIsNarrow }
{}

/// So it realises a term of any type that the other realises.
pub fn realising()
    ensures { NarrowIsRealised }
{}

/// The plan of `skip` behind a Share is one with a Share of a pair of commands in its place, joined at the second side. It
/// isn't so of itself.
pub fn small_shares()
    ensures wide { SkipIsNarrow }
    ensures same { NarrowIsNoNarrow }
{}
