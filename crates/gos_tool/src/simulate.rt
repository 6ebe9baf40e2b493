// Simulation: a netlist is run under a pulse file, and its trace is written.
//
// `simulate` runs a netlist that was accepted. `sim` is the command `sim NET PULSES TRACE`, which reads and accepts it
// first. What they leave, when they reject a file and which calls they make is said in specs/simulate/Simulation and
// specs/simulate/Sim.

pub use laws::{one_trace, right_pulses, right_runs};
pub use sim_command::sim;
pub use simulation::simulate;

mod laws;
mod sim_command;
mod simulation;
