// Traces that lists of moves explain.
//
// `sources_in` reads the modules of a build, and `linked_in` links them by their terms alone; `labels_in` and `lines_in` read the trace
// file and the moves. `explain_moves` is the command `explain BUILD MOVES`: `find_moves` finds moves for the trace and writes them.
// `verify_moves` is the command `verify BUILD MOVES`: `explain_files` makes the moves again. No plan of a module and no circuit is made.
// What is found and verified, when a file is rejected and which calls are made is said in specs/explained.

pub use explain_command::explain_moves;
pub use laws::{
    built_trace, one_verification, right_moves, small_modules, small_runs, verified_headline,
};
pub use verify_command::verify_moves;

mod explain_command;
mod explaining;
mod finding;
mod laws;
mod linking;
mod sources;
mod taken;
mod texts;
mod verify_command;
