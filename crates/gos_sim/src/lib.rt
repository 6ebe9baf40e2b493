// The simulator of accepted netlists.
//
// `Sim` in `sim.rt` runs a netlist cycle by cycle. What a cycle is stands in `specs/Cycle`: outputs and next registers
// are those of the settling. `laws.rt` says what cycles are together: a run from reset.
//
// Inside, a simulator is in words of 32 bits where no net has more, and else of 64 (`sim.rt`). What runs is written once, for
// words of either size (`word.rt`, `words.rt`, `word_sim.rt`). `machine.rt` has the netlist as it runs, in flat lists: its
// events (`event_nets.rt`), and its steps and latches (`program.rt`). The steps stand in an order in which those of one kind
// come one behind another (`order.rt`), and the values of nets lie in the order of these steps (`places.rt`). `evaluation.rt`
// keeps the steps in runs and goes through them, by the operations of `operations.rt`; `spots.rt` finds one of them.
// `running.rt` has the other parts of a cycle. Where little changes, `active.rt` evaluates no more than hangs on it:
// `readers.rt` has what reads a net, `marks.rt` what is to be evaluated, and `log.rt` what changed. Taking a cycle needs no
// memory and can't be refused. `visits.rt` counts the levels in which the last cycle changed something, by chains (`levels.rt`,
// `chains.rt`).
#![tactic(auto)]

mod active;
mod chains;
mod course;
mod evaluation;
mod event_nets;
mod laws;
mod levels;
mod log;
mod machine;
mod marks;
mod operations;
mod order;
mod past;
mod places;
mod program;
mod pulse;
mod readers;
mod running;
mod sim;
mod spots;
mod visits;
mod wake;
mod word;
mod word_sim;
mod words;

pub use event_nets::EventNets;
pub use laws::{repeats, runs, visits_counted};
pub use pulse::Pulse;
pub use sim::Sim;
