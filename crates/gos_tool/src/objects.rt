// Source files: they are checked, and compiled to object files.
//
// `check_source` is the command `check SRC`. `compile_source` is the command `compile SRC OBJ`, which checks in the same way
// and then writes the plan of the module. What they tell, leave and reject is said in specs/objects/Checked and
// specs/objects/Compiled. Both begin with `module_in` (checking.rt), and the second ends with `write_plan` (compiling.rt);
// other commands that compile sources do so too. What these two know of a module is said in specs/objects/Typed.

pub use checking::{SOURCE_LIMIT, check_source, module_in, module_of};
pub use compiling::{compile_source, write_plan};
pub use laws::{accepted_sources, one_object};

mod checking;
mod compiling;
mod laws;
