// Why a pulse file is refused.

use gos_types::NoMemory;
use std::alloc::{AllocError, AllocFailed};
use thiserror::Error;

/// Why a pulse file is not read or not run. Lines count from 1, and all lines count.
#[derive(Debug, Drop, Error)]
pub enum PulseFault {
    /// The line has no such form or stands out of place, or a number in it is above 2^64 - 1. Where no line says
    /// anything it is the number of lines plus one.
    #[error("line {line} is not of its form")]
    Form { line: u64 },
    /// The netlist has no input event of the line's name.
    #[error("line {line} names no input event")]
    NoPort { line: u64 },
    /// The line has a value where its event has none, or none, or one that leaves its event's bits.
    #[error("line {line} has no value of its event")]
    Value { line: u64 },
    /// The line's number of cycles, cycle or distance is out of its range, or it is the 100,001st entry. The line
    /// is 0 where the file has more than 16,777,216 bytes.
    #[error("line {line} is beyond a limit")]
    Limit { line: u64 },
    /// In this cycle an `at` entry gives this event although the protocol of inputs doesn't allow it.
    #[error("event {event} breaks the protocol in cycle {cycle}")]
    Broken { cycle: u64, event: usize },
    /// There was no memory left.
    #[error("out of memory")]
    NoMemory,
}

impl From<NoMemory> for PulseFault {
    ghost use Rattle.std.specs.Prelude.{◌≡◌};
    ghost use Rattle.gos_pulse.specs.declared.fault.PulseFault.TheVariants.{NoMemory as OutOfMemory};

    ghost from_gives = { λ _ e. e ≡ OutOfMemory };

    fn from(_e: NoMemory) -> PulseFault {
        PulseFault::NoMemory
    }
}

impl From<AllocError> for PulseFault {
    ghost use Rattle.std.specs.Prelude.{◌≡◌};
    ghost use Rattle.gos_pulse.specs.declared.fault.PulseFault.TheVariants.{NoMemory as OutOfMemory};

    ghost from_gives = { λ _ e. e ≡ OutOfMemory };

    fn from(_e: AllocError) -> PulseFault {
        PulseFault::NoMemory
    }
}

impl<T: Drop> From<AllocFailed<T>> for PulseFault {
    ghost use Rattle.std.specs.Prelude.{◌≡◌};
    ghost use Rattle.gos_pulse.specs.declared.fault.PulseFault.TheVariants.{NoMemory as OutOfMemory};

    ghost from_gives = { λ _ e. e ≡ OutOfMemory };

    fn from(_e: AllocFailed<T>) -> PulseFault {
        PulseFault::NoMemory
    }
}
