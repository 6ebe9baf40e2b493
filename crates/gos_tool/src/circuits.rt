// From object files to circuits: the command `link BUILD`.
//
// `link_build` reads the build file and the object files, links their plans, and writes the netlist of a circuit of the whole
// and its Verilog text. `circuit` gives the circuit of a plan, in one of the ways of `Layout`; `build_in` reads the build file,
// `plans_in` reads object files, and `link_plans` is what `link` does with the plans, however they came. What they promise is
// said in specs/circuits/Circuit, specs/circuits/Objects and specs/circuits/Linked, and with which programs a circuit keeps
// pace in specs/circuits/Paced.

pub use build_file::build_in;
pub use laws::{
    every_choice, one_link, paced_circuits, right_links, small_circuits, small_layouts,
};
pub use laying::circuit;
pub use layout::Layout;
pub use linking::link_build;
pub use objects::plans_in;
pub use plans::{Linked, link_plans};

mod build_file;
mod laws;
mod laying;
mod layout;
mod linking;
mod objects;
mod plans;
