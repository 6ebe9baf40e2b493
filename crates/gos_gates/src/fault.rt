// Why a netlist is not lowered, and why a text is none of gates.
use gos_types::NoMemory;
use std::alloc::{AllocError, AllocFailed};
use thiserror::Error;

/// Why a netlist is not lowered to gates.
#[derive(Debug, Drop, Error)]
pub enum GateFault {
    /// Its cells and their pins have so many bits together: more than 2,000,000.
    #[error("the netlist has {bits} bits")]
    TooLarge { bits: u64 },
    /// There was no memory left.
    #[error("out of memory")]
    NoMemory,
}

/// Why a text is refused as a circuit of gates. Places count bytes from 0.
#[derive(Debug, Drop, Error)]
pub enum AagFault {
    /// At `at` stands the first byte that can't go on as the text of a circuit, or the text ends there too early.
    #[error("the gates are not of their form at {at}")]
    Form { at: usize },
    /// There was no memory left.
    #[error("out of memory")]
    NoMemory,
}

impl From<NoMemory> for GateFault {
    ghost use Rattle.std.specs.Prelude.{◌≡◌};
    ghost use Rattle.gos_gates.specs.declared.fault.GateFault.TheVariants.{NoMemory as OutOfMemory};

    ghost from_gives = { λ _ e. e ≡ OutOfMemory };

    fn from(_e: NoMemory) -> GateFault {
        GateFault::NoMemory
    }
}

impl From<AllocError> for GateFault {
    ghost use Rattle.std.specs.Prelude.{◌≡◌};
    ghost use Rattle.gos_gates.specs.declared.fault.GateFault.TheVariants.{NoMemory as OutOfMemory};

    ghost from_gives = { λ _ e. e ≡ OutOfMemory };

    fn from(_e: AllocError) -> GateFault {
        GateFault::NoMemory
    }
}

impl<T: Drop> From<AllocFailed<T>> for GateFault {
    ghost use Rattle.std.specs.Prelude.{◌≡◌};
    ghost use Rattle.gos_gates.specs.declared.fault.GateFault.TheVariants.{NoMemory as OutOfMemory};

    ghost from_gives = { λ _ e. e ≡ OutOfMemory };

    fn from(_e: AllocFailed<T>) -> GateFault {
        GateFault::NoMemory
    }
}

impl From<AllocError> for AagFault {
    ghost use Rattle.std.specs.Prelude.{◌≡◌};
    ghost use Rattle.gos_gates.specs.declared.fault.AagFault.TheVariants.{NoMemory as OutOfMemory};

    ghost from_gives = { λ _ e. e ≡ OutOfMemory };

    fn from(_e: AllocError) -> AagFault {
        AagFault::NoMemory
    }
}

impl<T: Drop> From<AllocFailed<T>> for AagFault {
    ghost use Rattle.std.specs.Prelude.{◌≡◌};
    ghost use Rattle.gos_gates.specs.declared.fault.AagFault.TheVariants.{NoMemory as OutOfMemory};

    ghost from_gives = { λ _ e. e ≡ OutOfMemory };

    fn from(_e: AllocFailed<T>) -> AagFault {
        AagFault::NoMemory
    }
}
