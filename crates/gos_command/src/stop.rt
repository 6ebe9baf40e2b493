// How a command ends before its time.

ghost use Rattle.std.specs.Prelude.{◌≡◌, ◌≢◌, IfOk};
ghost use Rattle.std.specs.Option.{option_copied};
ghost use Rattle.gos_outside.specs.FileName.{IsFileName};
ghost use Rattle.gos_command.specs.Ends.{IfStopped, IsRealCause, IsTold};
ghost use Rattle.gos_command.specs.Lines.{fault_line};

use crate::fault_text::fault_text;
use crate::status::{Cause, Fault};
use gos_link::FileName;
use gos_netlist::Netlist;
use gos_types::NoMemory;
use std::alloc::{AllocError, Global};

/// A file with a fault, and the line that says so.
#[derive(Debug, Drop)]
pub struct Rejection {
    /// The fault.
    pub fault: Fault,
    /// Its line, with a line feed.
    pub line: Vec<u8>,
}

/// How a command ends before its time.
#[derive(Debug, Drop)]
pub enum Stop {
    /// A file is rejected.
    Rejected(Rejection),
    /// A call of the store failed.
    StoreFailed,
    /// Memory ran out.
    NoMemory,
}

impl From<AllocError> for Stop {
    ghost use Rattle.std.specs.Prelude.{◌≡◌};
    ghost use Rattle.gos_command.specs.declared.stop.Stop.TheVariants.{NoMemory as OutOfMemory};

    ghost from_gives = { λ _ e. e ≡ OutOfMemory };

    fn from(_e: AllocError) -> Stop {
        Stop::NoMemory
    }
}

impl From<NoMemory> for Stop {
    ghost use Rattle.std.specs.Prelude.{◌≡◌};
    ghost use Rattle.gos_command.specs.declared.stop.Stop.TheVariants.{NoMemory as OutOfMemory};

    ghost from_gives = { λ _ e. e ≡ OutOfMemory };

    fn from(_e: NoMemory) -> Stop {
        Stop::NoMemory
    }
}

/// Ends a command at a file with a fault, or for want of memory where this is the cause or none is left for the line. An
/// event in the line is one of the netlist, where one is given.
pub fn reject(alloc: Global, file: &[u8], cause: Cause, net: Option<&Netlist>) -> Stop
    requires { IsFileName file.now }
    ensures stopped { IfStopped result (λ fault line. (fault ≡ record { file = file.now; cause = cause }) × IsRealCause cause
        × (line ≡ fault_line (option_copied net.entry) fault)) }
    ensures told { IfStopped result IsTold }
    ensures no_store { result ≢ Stop.StoreFailed }
{
    match with_line(alloc, file, cause, net) {
        Ok(rejection) => Stop::Rejected(rejection),
        Err(NoMemory) => Stop::NoMemory,
    }
}

fn with_line(
    alloc: Global,
    file: &[u8],
    cause: Cause,
    net: Option<&Netlist>,
) -> Result<Rejection, NoMemory>
    requires { IsFileName file.now }
    ensures fault { IfOk result (λ rejection. rejection.fault ≡ record { file = file.now; cause = cause }) }
    ensures cause { IfOk result (λ rejection. IsRealCause cause) }
    ensures line { IfOk result (λ rejection. rejection.line.items ≡ fault_line (option_copied net.entry) (record { file = file.now; cause = cause })) }
{
    let line = fault_text(alloc, file, &cause, net)?;
    let file = FileName::new(alloc, file)?;
    Ok(Rejection {
        fault: Fault { file, cause },
        line,
    })
}
