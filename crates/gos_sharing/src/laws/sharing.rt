// What the definitions give. Each theorem is the contract of a function that does nothing.
ghost use Rattle.gos_sharing.specs.sharing.Sharing.{IdleIsSeen, RunsAreSeen, QuietIsSeen};
ghost use Rattle.gos_sharing.specs.sharing.SmallSharing.{FirstIsSeen, SecondIsNot};

/// Where a list uses a Share for one caller alone, plain joints in its place have the list too. Where the plan with the
/// Share is quiet then, so is the other. An idle state is seen as an idle one.
pub fn lists_are_seen()
    ensures idle { IdleIsSeen }
    ensures runs { RunsAreSeen }
    ensures quiet { QuietIsSeen }
{}

/// A call by way of the first caller of a Share is seen as a plain call, and not for the second caller.
pub fn small_sharing()
    ensures first { FirstIsSeen }
    ensures second { SecondIsNot }
{}
