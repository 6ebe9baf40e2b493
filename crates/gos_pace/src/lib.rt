// What it means that a netlist keeps pace with a program, and that its cycles are lists of a plan.
//
// Nearly all of this crate stands in `specs`: read it in the order of `specs/Lib.antt`. `Flattening` has the pulses of a run
// as labels, `RunProtocol` the inputs that a run may have (`Silence` those of a pulse file), and `Pace` the sentence that the headline speaks: each flattening
// is a trace of the program, which moves at least once in so many cycles unless it can only wait. `Cycles` says the like of
// a plan: each cycle is outputs, inputs and firings of its parts.
//
// `laws.rt` has the small theorems that show what the definitions say.
#![tactic(auto)]

mod laws;

pub use laws::{any_order, keeping_pace, latch_pulses, small_cycles, small_inputs};
