// What the definitions say, in small. Each theorem is the contract of a function that does nothing.
ghost use Rattle.std.specs.Prelude.{List, ℕ};
ghost use Rattle.gos_netlist.specs.NetFaults.{HasOneFault, IsOneNetlist, PrintedIsRead, ReadHasNoFault};
ghost use Rattle.gos_netlist.specs.Laws.{AcyclicSettles, AcyclicSettlesOnce};
ghost use Rattle.gos_netlist.specs.SmallNets.{LatchRuns, LatchText, LoopedGates};

/// A latch runs and has its text, and two gates in a ring are a combinational cycle.
pub fn small_nets()
    ensures latch { LatchRuns }
    ensures text { LatchText }
    ensures ring { LoopedGates }
{}

/// Cells without a combinational cycle have exactly one settling for given registers and inputs.
pub fn settlings()
    ensures some { AcyclicSettles }
    ensures one { AcyclicSettlesOnce }
{}

/// A text is that of one netlist at most, so that `read_net` and `print_net` are inverse to one another. It has one
/// answer at most: it is read, or it has one fault.
pub fn one_answer()
    ensures netlist { (text : List ℕ) → IsOneNetlist text }
    ensures read { (text : List ℕ) → ReadHasNoFault text }
    ensures fault { (text : List ℕ) → HasOneFault text }
{}

/// The text of a netlist within the limits of the format is within those of its reader: with `one_answer`, reading what
/// was printed gives the netlist back, unless memory runs out.
pub fn reads_back()
    ensures { PrintedIsRead }
{}
