// What the commands of the tool share: files, ends and lines.
//
// `read_file` and `write_file` are the calls of the store. A command that can't go on ends with a `Stop`; `reject` makes one
// for a file with a fault, with the line that says so. `finish` prints the one line of a command and answers its `Status`.
// The words of the lines stand in specs/Lines, the ends in specs/Ends.
#![tactic(auto)]

pub use ending::{finish, say};
pub use files::{read_file, read_start, write_file};
pub use report::{Counts, GateCounts, Report};
pub use status::{Cause, Fault, Status};
pub use stop::{Rejection, Stop, reject};

mod check_text;
mod ending;
mod fault_text;
mod files;
mod link_text;
mod report;
mod status;
mod stop;
