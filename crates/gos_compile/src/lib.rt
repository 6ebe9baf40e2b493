// From checked modules to plans.
//
// `compile` gives the plan of a checked module: its contract cites `IsPlanOf`, in `specs/Wiring`, which is to be read
// first. Then read points.rt (rows of points, and ties between them), types.rt (the types of numbers), wires.rt, forms.rt
// and walk.rt (the walk over a term), and modules.rt (the parts and the ties of a module). From ties to joints leads
// gos_ties. plans.rt has the call. shells.rt has what a build asks of a module before its weight.
#![tactic(auto)]

mod forms;
mod laws;
mod modules;
mod plans;
mod points;
mod shells;
mod types;
mod walk;
mod wires;

pub use laws::{one_plan, one_shell, small_plans, typed_terms};
pub use plans::compile;
pub use shells::shell;
