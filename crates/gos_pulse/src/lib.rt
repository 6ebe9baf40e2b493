// Pulse files, the protocol of inputs, and traces.
//
// A pulse file says which inputs a circuit is given and when: `read_pulses`. `drive` runs a simulator under it. A
// trace says which pulses the run had: `print_trace`. `Guard` tells of each input whether the protocol allows it now.
//
// Read `entries.rt` first. What a pulse file says stands in specs/PulseFile.antt, what a run under it is in
// specs/Driving.antt, and what its trace is in specs/Traced.antt. That each of these has one answer at most is a law of
// `laws.rt`, and so is that each run goes on, in specs/Silence.antt.
//
// Inside, the driver keeps a `Board` (`board.rt`): the guard, and the pulses of a cycle. `agenda.rt` has the `at`
// entries by their cycles, `queue.rt` the `next` entries that wait, and `lines.rt` the lines that a cycle adds
// to a trace.
#![tactic(auto)]

pub use driver::drive;
pub use entries::{Entry, Pulses};
pub use event_names::name_of_number;
pub use fault::PulseFault;
pub use guard::Guard;
pub use laws::{one_answer, runs_go_on};
pub use reading::read_pulses;
pub use trace::{Trace, TraceLine, print_trace};

mod agenda;
mod board;
mod driver;
mod entries;
mod entry_line;
mod event_names;
mod event_table;
mod fault;
mod guard;
mod laws;
mod lines;
mod queue;
mod reading;
mod slots;
mod trace;
