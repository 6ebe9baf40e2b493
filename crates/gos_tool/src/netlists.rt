// Netlists that are read: they are made tidy, or lowered to gates.
//
// `checked_net` reads a netlist file and accepts its netlist, for `sim` too. `tidy_net` is the command `tidy NET OUT`, `gates_of` the
// command `gates NET OUT`. What they leave, when they reject a file and which calls they make is said in specs/netlists.

pub use gates_command::gates_of;
pub use laws::right_netlists;
pub use reading::checked_net;
pub use tidy_command::tidy_net;

mod gates_command;
mod laws;
mod reading;
mod tidy_command;
