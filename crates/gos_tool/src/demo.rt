// The command `demo N`: a chain of N modules is written as files, and then built and run.
//
// `demo` writes the files of the demo and then does what `build demo.txt` does. What these files hold is said in
// specs/demo/DemoFiles, what the command leaves, rejects and calls in specs/demo/Demo.

pub use command::demo;
pub use levels::levels_of;

mod command;
mod files;
mod levels;
mod texts;
