// Build files, and the linking of plans.
//
// A build file names the instances of a build, which of them serves which import of which other, the root and the files.
// `read_build` reads one. Read `build.rt` first (what a build file says), then specs/BuildFile.antt, then `reading.rt`.
#![tactic(auto)]

mod build;
mod fault;
mod file_name;
mod instances;
mod joining;
mod judging;
mod laws;
mod lines;
mod linking;
mod noting;
mod opens;
mod reading;
mod said;
mod served;
mod services;
mod size;
mod ties;
mod whole;

pub use build::{Bind, Build, Instance};
pub use fault::LinkFault;
pub use file_name::FileName;
pub use judging::{Links, judge_links};
pub use laws::{few_joints, one_answer, one_build, one_face, small_links, small_orders};
pub use linking::link;
pub use reading::read_build;
pub use services::Service;
