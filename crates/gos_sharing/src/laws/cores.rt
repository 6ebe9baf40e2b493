// What the definitions give. Each theorem is the contract of a function that does nothing.
ghost use Rattle.gos_sharing.specs.cores.Beside.{BesideIsCore};
ghost use Rattle.gos_sharing.specs.cores.Clear.{ClearIsRegular, StillByStep};
ghost use Rattle.gos_sharing.specs.cores.Cores.{CoreIsDone, CoreIsRealised, CoreIsRegular, CoreRests};
ghost use Rattle.gos_sharing.specs.cores.Joined.{ApplyingIsStill, JoinedIsCore, ReadingIsStill, SidesAreStill, WritingIsStill};
ghost use Rattle.gos_sharing.specs.cores.SmallCores.{BareIsCore, OtherIsNoCore, ReachedIsNotStill, SkipIsCore};

/// A plan is regular where its core is, rests where that rests, and realises what its core realises.
pub fn cores()
    ensures regular { CoreIsRegular }
    ensures rests { CoreRests }
    ensures done { CoreIsDone }
    ensures realised { CoreIsRealised }
{}

/// A plan is still if no element puts a token on a dead joint after a list along which there was none; so far it is regular as its core is.
pub fn stillness()
    ensures regular { ClearIsRegular }
    ensures step { StillByStep }
{}

/// What is joined to the core of a plan is the core of what is joined to the plan, and what is left out there stays without tokens.
pub fn joinings()
    ensures core { JoinedIsCore }
    ensures applying { ApplyingIsStill }
    ensures sides { SidesAreStill }
    ensures reading { ReadingIsStill }
    ensures writing { WritingIsStill }
{}

/// A plan with loose parts beside it is the core of the whole, which is still.
pub fn beside()
    ensures { BesideIsCore }
{}

/// The plan of `skip` is the core of that with parts that nobody asks, which is still; without its joint it is a core of itself, which is not
/// still, since a request comes there; it is none of a plan whose result is joined to another Skip.
pub fn small_cores()
    ensures met { SkipIsCore }
    ensures reached { BareIsCore }
    ensures missed { ReachedIsNotStill }
    ensures other { OtherIsNoCore }
{}
