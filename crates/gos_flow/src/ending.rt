// The end of a command: its one line, and its status.

ghost use Rattle.std.specs.Prelude.{◌≡◌, ◌≢◌};
ghost use Rattle.gos_outside.specs.Faults.{CountsFaults};
ghost use Rattle.gos_flow.specs.Ends.{IsRealCause};
ghost use Rattle.gos_flow.specs.Finish.{Says, Finishes, IsOneWrite};
ghost use Rattle.gos_flow.specs.Lines.{done_line, fault_line};

use crate::fault_text::{done_text, fault_text};
use crate::status::{Cause, Status};
use crate::stop::Stop;
use gos_outside::{Sink, SinkFault};
use gos_types::NoMemory;
use std::alloc::Global;

/// Prints the line of a command that read this file and ended so, and answers its status.
pub fn finish<O: Sink>(alloc: Global, file: &[u8], ended: Result<u64, Stop>, out: &mut O) -> Status
    ensures finishes { Finishes file.now ended result (O.written out.old) (O.written out.new) }
    ensures once { IsOneWrite result (O.writes out.old) (O.writes out.new) }
    ensures counts { CountsFaults (result ≡ Status.SinkFailed) (O.faults out.old) (O.faults out.new) }
{
    match ended {
        Ok(cells) => tell_done(alloc, cells, out),
        Err(Stop::Rejected(cause)) => tell_fault(alloc, file, cause, out),
        Err(Stop::StoreFailed) => Status::StoreFailed,
        Err(Stop::NoMemory) => Status::NoMemory,
    }
}

// Prints the line of a command that is done.
fn tell_done<O: Sink>(alloc: Global, cells: u64, out: &mut O) -> Status
    ensures said { Says (done_line cells) Status.Done result (O.written out.old) (O.written out.new) }
    ensures once { IsOneWrite result (O.writes out.old) (O.writes out.new) }
    ensures counts { CountsFaults (result ≡ Status.SinkFailed) (O.faults out.old) (O.faults out.new) }
{
    match done_text(alloc, cells) {
        Ok(line) => say(alloc, line.as_slice(), Status::Done, out),
        Err(NoMemory) => Status::NoMemory,
    }
}

// Prints the line of a file that is rejected.
fn tell_fault<O: Sink>(alloc: Global, file: &[u8], cause: Cause, out: &mut O) -> Status
    ensures said { Says (fault_line file.now cause) (Status.Rejected cause) result (O.written out.old) (O.written out.new) }
    ensures once { IsOneWrite result (O.writes out.old) (O.writes out.new) }
    ensures counts { CountsFaults (result ≡ Status.SinkFailed) (O.faults out.old) (O.faults out.new) }
{
    match fault_text(alloc, file, &cause) {
        Ok(line) => say(alloc, line.as_slice(), Status::Rejected(cause), out),
        Err(NoMemory) => Status::NoMemory,
    }
}

/// Prints a line, and answers the status where it was printed.
pub fn say<O: Sink>(alloc: Global, line: &[u8], status: Status, out: &mut O) -> Status
    requires sink { status ≢ Status.SinkFailed }
    requires memory { status ≢ Status.NoMemory }
    requires store { status ≢ Status.StoreFailed }
    ensures said { Says line.now status result (O.written out.old) (O.written out.new) }
    ensures once { IsOneWrite result (O.writes out.old) (O.writes out.new) }
    ensures counts { CountsFaults (result ≡ Status.SinkFailed) (O.faults out.old) (O.faults out.new) }
{
    match out.write(alloc, line) {
        Ok(()) => status,
        Err(SinkFault::Failed) => Status::SinkFailed,
        Err(SinkFault::NoMemory) => Status::NoMemory,
    }
}
