// How a command ends before its time.

ghost use Rattle.std.specs.Prelude.{◌≡◌, ◌≢◌, false};
ghost use Rattle.gos_flow.specs.Ends.{IfStopped, IsRealCause};

use crate::status::Cause;
use gos_netcheck::NetFault;
use gos_netlist::NetTextFault;
use gos_types::NoMemory;
use gos_verilog::VFault;

/// How a command ends before its time.
#[derive(Debug, Drop)]
pub enum Stop {
    /// The file that is read is rejected.
    Rejected(Cause),
    /// A call of the store failed.
    StoreFailed,
    /// Memory ran out.
    NoMemory,
}

impl From<NoMemory> for Stop {
    ghost use Rattle.std.specs.Prelude.{◌≡◌};
    ghost use Rattle.gos_flow.specs.declared.stop.Stop.TheVariants.{NoMemory as OutOfMemory};

    ghost from_gives = { λ _ e. e ≡ OutOfMemory };

    fn from(_e: NoMemory) -> Stop {
        Stop::NoMemory
    }
}

/// Ends a command at its file for this cause, or for want of memory where this is the cause.
pub fn reject(cause: Cause) -> Stop
    ensures stopped { IfStopped result (λ why. (why ≡ cause) × IsRealCause cause) }
    ensures no_store { result ≢ Stop.StoreFailed }
{
    if is_memory(&cause) {
        Stop::NoMemory
    } else {
        Stop::Rejected(cause)
    }
}

// Whether the cause is want of memory.
fn is_memory(cause: &Cause) -> bool
    ensures { result ≡ false → IsRealCause cause.now }
{
    match cause {
        Cause::Net(fault) => matches!(fault, NetTextFault::NoMemory),
        Cause::Verilog(fault) => matches!(fault, VFault::NoMemory),
        Cause::Refused(fault) => matches!(fault, NetFault::NoMemory),
    }
}
