// Netlists: cells and ports, what they show in a cycle, and their text.
//
// A netlist is the circuit as a list. `nets.rt` has its types; what the words mean stands in `specs`, in the order of
// `specs/Lib.antt`: `Nets` (what a netlist is), `Events` (the events of its ports), `Settling` (what its nets show in a
// cycle), `Cycles` (combinational cycles), `NetText` (its text), `Writable` (which netlists have a text of the format)
// and `NetFaults` (why a text is none).
//
// `printing.rt` and `reading.rt` lead from a netlist to its text and back. The reader stands on `sections.rt` (a count
// and its lines), `cell_line.rt` and `port_line.rt` (one line), `word.rt`, `table.rt` and `items.rt` (what lines are
// made of). `laws.rt` has the small theorems that show what the definitions say. `passes.rt` is a plain, slow program
// over small netlists, which the faster ones of other crates are compared with.
//
// The cells of a netlist that is being made are those of a pool, gos_pool.
#![tactic(auto)]

mod cell_line;
mod event;
mod fault;
mod items;
mod laws;
mod nets;
mod passes;
mod port_line;
mod printing;
mod reading;
mod sections;
mod word;

pub use event::{Event, events};
pub use fault::NetTextFault;
pub use laws::{one_answer, reads_back, settlings, small_nets};
pub use nets::{Cell, Gate, Ground, NetId, Netlist, Pins, Port, Side};
pub use passes::{SettleFault, settle};
pub use printing::print_net;
pub use reading::read_net;
