// What the definitions give for all files. Each theorem is the contract of a function that does nothing.

ghost use Rattle.gos_tool.specs.simulate.Complete.{EndedMayRun, PulsesAreNotRejected, SimIsNotRejected, EmptyIsNoNet};
ghost use Rattle.gos_tool.specs.simulate.Repeated.{SimMakesOne, TraceIsOne};

/// A pulse file that an accepted netlist may run under is not rejected, and one is such where the netlist runs to its end.
pub fn right_pulses()
    ensures rejected { PulsesAreNotRejected }
    ensures ended { EndedMayRun }
{
    gos_pulse::one_answer();
}

/// Files that are right for `sim` are not rejected. An empty netlist file is not right.
pub fn right_runs()
    ensures rejected { SimIsNotRejected }
    ensures empty { EmptyIsNoNet }
{
    right_pulses();
    gos_netlist::one_answer();
    gos_netcheck::one_answer();
}

/// An accepted netlist has one trace under a pulse file. Where `sim` is done twice with the same netlist and pulse file, it writes
/// the same and tells the same.
pub fn one_trace()
    ensures trace { TraceIsOne }
    ensures sim { SimMakesOne }
{
    gos_pulse::one_answer();
    gos_netlist::one_answer();
}
