// The programs' ties to the system: the files that they read and write, standard output, and the words that they are called with.
//
// `FileStore` is the store of a program, and `OutSink` its sink. `words` gives the words of its command.
#![tactic(auto)]

mod file_store;
mod out_sink;

pub use file_store::FileStore;
pub use out_sink::OutSink;
use std::alloc::{AllocError, Global};
use std::env;
use std::io::ErrorKind;
use std::rt::Env;

/// The words after the program's name; none where the system's are not all text.
pub fn words<R: Env + AllocGlobal>(rt: &R, alloc: Global) -> Result<Vec<String>, AllocError> {
    let mut words = Vec::new(alloc);
    match env::args(rt) {
        Ok(args) => {
            for word in args.skip(1) {
                words.push(word)?;
            }
        }
        Err(error) if error.kind() == ErrorKind::OutOfMemory => return Err(AllocError),
        Err(_) => {}
    }
    Ok(words)
}
