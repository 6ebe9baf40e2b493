// Why a text is no Verilog text of a netlist.
use gos_types::NoMemory;
use std::alloc::{AllocError, AllocFailed};
use thiserror::Error;

/// Why a text is refused as the Verilog text of a netlist. Places count bytes from 0.
#[derive(Debug, Drop, Error)]
pub enum VFault {
    /// The text is that of no netlist. At `at` stands the first byte that can't go on as one, or the text ends there.
    #[error("the Verilog is not of its form at {at}")]
    Form { at: usize },
    /// There was no memory left.
    #[error("out of memory")]
    NoMemory,
}

impl From<NoMemory> for VFault {
    ghost use Rattle.std.specs.Prelude.{◌≡◌};
    ghost use Rattle.gos_verilog.specs.declared.fault.VFault.TheVariants.{NoMemory as OutOfMemory};

    ghost from_gives = { λ _ e. e ≡ OutOfMemory };

    fn from(_e: NoMemory) -> VFault {
        VFault::NoMemory
    }
}

impl From<AllocError> for VFault {
    ghost use Rattle.std.specs.Prelude.{◌≡◌};
    ghost use Rattle.gos_verilog.specs.declared.fault.VFault.TheVariants.{NoMemory as OutOfMemory};

    ghost from_gives = { λ _ e. e ≡ OutOfMemory };

    fn from(_e: AllocError) -> VFault {
        VFault::NoMemory
    }
}

impl<T: Drop> From<AllocFailed<T>> for VFault {
    ghost use Rattle.std.specs.Prelude.{◌≡◌};
    ghost use Rattle.gos_verilog.specs.declared.fault.VFault.TheVariants.{NoMemory as OutOfMemory};

    ghost from_gives = { λ _ e. e ≡ OutOfMemory };

    fn from(_e: AllocFailed<T>) -> VFault {
        VFault::NoMemory
    }
}
