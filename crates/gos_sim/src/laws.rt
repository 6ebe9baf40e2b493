// What cycles say together, how many levels they visit, and when they repeat. Each theorem is the contract of a function that does nothing.
ghost use Rattle.std.specs.Prelude.{List};
ghost use Rattle.gos_netlist.specs.Nets.{Cell};
ghost use Rattle.gos_sim.specs.Runs.{BeginsRun, GoesOnRunning};
ghost use Rattle.gos_sim.specs.Visits.{HaveOneCount, LatchVisits};
ghost use Rattle.gos_sim.specs.Repeats.{LatchRepeats, StaysAsItIs};

/// The cycles of a simulator since it was made or reset are a run of its netlist from reset.
pub fn runs()
    ensures begins { BeginsRun }
    ensures goes_on { GoesOnRunning }
{}

/// There is one count of visited levels where cells can be evaluated in an order; and a latch has its counts.
pub fn visits_counted()
    ensures one { (cells : List Cell) → HaveOneCount cells }
    ensures latch { LatchVisits }
{}

/// A simulator that repeats is the same after another cycle with the same inputs; and a latch at rest repeats.
pub fn repeats()
    ensures same { StaysAsItIs }
    ensures latch { LatchRepeats }
{}
