// What the definitions say. Each theorem is the contract of a function that does nothing.
ghost use Rattle.std.specs.Prelude.{List};
ghost use Rattle.gos_netlist.specs.Nets.{Cell, Netlist};
ghost use Rattle.gos_netcheck.specs.Levels.{GatesRise, HaveOneLevels, LatchHasLevels, RingHasNoLevels};
ghost use Rattle.gos_netcheck.specs.Accepted.{AcceptedHasNoFault, HasOneFault};

/// A netlist that is accepted has no fault but want of memory, and a refused one has one fault.
///
/// Only combinational cycles may be several: each of them is one. Every other fault is one alone, as it names the first
/// wrong cell or port.
pub fn one_answer()
    ensures accepted { (net : Netlist) → AcceptedHasNoFault net }
    ensures refused { (net : Netlist) → HasOneFault net }
{}

/// Cells that can be evaluated in an order have their levels, and no others; a combinational cycle has none.
pub fn cell_levels()
    ensures one { (cells : List Cell) → HaveOneLevels cells }
    ensures latch { LatchHasLevels }
    ensures rise { GatesRise }
    ensures ring { RingHasNoLevels }
{}
