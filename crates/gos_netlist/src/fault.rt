// Why a text is no netlist.
use gos_types::NoMemory;
use std::alloc::{AllocError, AllocFailed};
use thiserror::Error;

/// Why a text is refused as a netlist. Places count bytes from 0.
#[derive(Debug, Drop, Error)]
pub enum NetTextFault {
    /// At `at` stands the first byte that can't go on as a netlist's text, or the text ends there too early.
    #[error("the netlist is not of its form at {at}")]
    Form { at: usize },
    /// The text is longer than 268,435,456 bytes, which is then `at`; or at `at` begins a count that is above its limit.
    #[error("the netlist is beyond its limit at {at}")]
    Limit { at: usize },
    /// There was no memory left.
    #[error("out of memory")]
    NoMemory,
}

impl From<NoMemory> for NetTextFault {
    ghost use Rattle.std.specs.Prelude.{◌≡◌};
    ghost use Rattle.gos_netlist.specs.declared.fault.NetTextFault.TheVariants.{NoMemory as OutOfMemory};

    ghost from_gives = { λ _ e. e ≡ OutOfMemory };

    fn from(_e: NoMemory) -> NetTextFault {
        NetTextFault::NoMemory
    }
}

impl From<AllocError> for NetTextFault {
    ghost use Rattle.std.specs.Prelude.{◌≡◌};
    ghost use Rattle.gos_netlist.specs.declared.fault.NetTextFault.TheVariants.{NoMemory as OutOfMemory};

    ghost from_gives = { λ _ e. e ≡ OutOfMemory };

    fn from(_e: AllocError) -> NetTextFault {
        NetTextFault::NoMemory
    }
}

impl<T: Drop> From<AllocFailed<T>> for NetTextFault {
    ghost use Rattle.std.specs.Prelude.{◌≡◌};
    ghost use Rattle.gos_netlist.specs.declared.fault.NetTextFault.TheVariants.{NoMemory as OutOfMemory};

    ghost from_gives = { λ _ e. e ≡ OutOfMemory };

    fn from(_e: AllocFailed<T>) -> NetTextFault {
        NetTextFault::NoMemory
    }
}
