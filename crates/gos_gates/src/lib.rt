// Circuits of two-input gates and latches: netlists are lowered to them, and they have texts in ASCII AIGER 1.0.
//
// `aig.rt` has the circuit as a value; what it shows in a cycle, and which values are circuits, stands in specs/Gates.
//
// `lowering.rt` makes the circuit of an accepted netlist, as specs/Lowered says. It stands on `order.rt` (cells by level),
// `sources.rt` (the nets of inputs, outputs and registers), `laying.rt` (cells, one after another), `kinds.rt` (what a bit of
// a cell is laid as) and `draft.rt` (gates, and the literals of nets).
//
// `printing.rt` and `reading.rt` lead from a circuit to its text and back; the text stands in specs/AagText, and why
// another text is refused in specs/AagFaults. The reader stands on `header.rt` (the first line), `sections.rt` (the
// lines behind it) and `item.rt` (the numbers of a line). `laws.rt` and `text_laws.rt` have laws of both.
#![tactic(auto)]

mod aig;
mod draft;
mod fault;
mod header;
mod item;
mod kinds;
mod laws;
mod laying;
mod lowering;
mod order;
mod printing;
mod reading;
mod sections;
mod sources;
mod text_laws;

pub use aig::Aig;
pub use fault::{AagFault, GateFault};
pub use laws::small_lowered;
pub use lowering::lower;
pub use printing::print_aag;
pub use reading::read_aag;
pub use text_laws::{one_answer, reads_back, small_circuits};
