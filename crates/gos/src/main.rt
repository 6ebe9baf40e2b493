// The program `gos`.
#![tactic(auto)]

use gos_system::words;
pub use gos_system::{FileStore, OutSink};
use gos_tool::{Status, run};
use std::alloc::AllocError;
use std::process::ExitCode;

/// Does what its words say, in the folder that it is called in, and ends with the status's code.
fn main(rt: HostRuntime) -> ExitCode {
    match words(&rt, rt.alloc()) {
        Ok(words) => {
            let mut store = FileStore::new(&rt);
            let mut out = OutSink::new(&rt);
            let status = run(rt.alloc(), words.as_slice(), &mut store, &mut out);
            ExitCode::from(status.code())
        }
        Err(AllocError) => ExitCode::from(Status::NoMemory.code()),
    }
}
