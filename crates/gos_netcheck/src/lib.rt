// The acceptance test of netlists.
//
// A netlist is accepted where each pin names a net, widths fit, the ports are right, and no nets feed each other in a
// ring. `accept` says so exactly, and hands a refused netlist back with the first fault. Every crate that simulates
// or prints a circuit takes a `Checked` netlist, which also has an order in which its nets can be evaluated, and the
// levels at which its cells stand.
//
// Read `checked.rt` first (the test), then `cells.rt`, `ports.rt` and `schedule.rt` (the rules, in the order in which
// they are tested), and `levels.rt`. The definitions stand in `specs`, in the order of `specs/Lib.antt`.
#![tactic(auto)]

mod cells;
mod checked;
mod cycle;
mod fault;
mod law;
mod levels;
mod ports;
mod schedule;

pub use checked::{Checked, accept};
pub use fault::{NetFault, Refused};
pub use law::{cell_levels, one_answer};
