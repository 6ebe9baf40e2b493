// What the definitions give. Each theorem is the contract of a function that does nothing.
ghost use Rattle.gos_realises.specs.quiet.Quiet.{SlimGrowsQuiet};
ghost use Rattle.gos_realises.specs.quiet.Ranks.{RightRanksHold};

/// A plan that only fires, and in which no firing takes an answer and puts a request, has nothing left to fire
/// within the bound of its weight. The reason is the ranks of its handshakes, of which there are no more than
/// joints.
pub fn grows_quiet()
    ensures quiet { SlimGrowsQuiet }
    ensures ranks { RightRanksHold }
{}
