// The end of a command: its one line, and its status.

ghost use Rattle.std.specs.Prelude.{◌≡◌, ◌≢◌};
ghost use Rattle.gos_outside.specs.Faults.{CountsFaults};
ghost use Rattle.gos_command.specs.Finish.{Says, Finishes, IsOneWrite};
ghost use Rattle.gos_command.specs.Lines.{report_line};

use crate::report::{Report, report_text};
use crate::status::Status;
use crate::stop::{Rejection, Stop};
use gos_outside::{Sink, SinkFault};
use gos_types::NoMemory;
use std::alloc::Global;

/// Prints the line of a command that ended so, and answers its status.
pub fn finish<O: Sink>(alloc: Global, ended: Result<Report, Stop>, out: &mut O) -> Status
    ensures finishes { Finishes ended result (O.written out.old) (O.written out.new) }
    ensures once { IsOneWrite result (O.writes out.old) (O.writes out.new) }
    ensures counts { CountsFaults (result ≡ Status.SinkFailed) (O.faults out.old) (O.faults out.new) }
{
    match ended {
        Ok(report) => report_done(alloc, report, out),
        Err(Stop::Rejected(Rejection { fault, line })) => {
            say(alloc, line.as_slice(), Status::Rejected(fault), out)
        }
        Err(Stop::StoreFailed) => Status::StoreFailed,
        Err(Stop::NoMemory) => Status::NoMemory,
    }
}

// Prints the line of a command that is done.
fn report_done<O: Sink>(alloc: Global, report: Report, out: &mut O) -> Status
    ensures said { Says (report_line report) Status.Done result (O.written out.old) (O.written out.new) }
    ensures once { IsOneWrite result (O.writes out.old) (O.writes out.new) }
    ensures counts { CountsFaults (result ≡ Status.SinkFailed) (O.faults out.old) (O.faults out.new) }
{
    match report_text(alloc, report) {
        Ok(line) => say(alloc, line.as_slice(), Status::Done, out),
        Err(NoMemory) => Status::NoMemory,
    }
}

/// Prints a line, and answers the status where it was printed.
pub fn say<O: Sink>(alloc: Global, line: &[u8], status: Status, out: &mut O) -> Status
    requires sink { status ≢ Status.SinkFailed }
    requires memory { status ≢ Status.NoMemory }
    requires store { status ≢ Status.StoreFailed }
    ensures said { Says line.now status result (O.written out.old) (O.written out.new) }
    ensures once { IsOneWrite result (O.writes out.old) (O.writes out.new) }
    ensures counts { CountsFaults (result ≡ Status.SinkFailed) (O.faults out.old) (O.faults out.new) }
{
    match out.write(alloc, line) {
        Ok(()) => status,
        Err(SinkFault::Failed) => Status::SinkFailed,
        Err(SinkFault::NoMemory) => Status::NoMemory,
    }
}
