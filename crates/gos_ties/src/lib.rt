// Plans whose joints are made by ties.
//
// Points are ends of a plan, or lie inside; ties say which points meet. `tied_plan` gives a plan with a joint for each two ends
// that a path of ties connects: its contract cites `Connects`, in `specs/Ties`. From ties to joints lead numbers.rt (numbers of
// points), joining.rt (chains and their far ends), contacts.rt (the handshakes at ends) and joints.rt.
#![tactic(auto)]

mod contacts;
mod joining;
mod joints;
mod numbers;
mod plans;
mod points;

pub use plans::tied_plan;
pub use points::{Place, Point, Tie};
