// The command `build BUILD`: from sources to a circuit and its trace.
//
// `build_as` reads the build file; it compiles the source of each instance and writes its object; it links the plans, writes
// the netlist of a circuit of the whole and its Verilog text, and runs the circuit under the pulse file. What it leaves,
// rejects and calls is said in specs/build/Built; read specs/build/Objects (the sources, and the objects written so far)
// first. With which program the circuit keeps pace is said in specs/build/Programs, and of a module alone in
// specs/build/Paced.

pub use building::{build, build_as};
pub use laws::{headlines, one_circuit, paced_modules, right_builds, small_programs};

mod building;
mod compiling;
mod laws;
