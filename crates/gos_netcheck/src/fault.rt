// Why a netlist is refused.
use gos_netlist::{NetId, Netlist};
use gos_types::NoMemory;
use std::alloc::{AllocError, AllocFailed};
use thiserror::Error;

/// Why a netlist is refused. The faults are looked for in the order `NoSuchNet`, `Width`, `Port`, `Cycle`.
#[derive(Debug, Drop, Error)]
pub enum NetFault {
    /// These nets, none of them a register, feed each other in a ring: each is a pin of the next one's cell, and the
    /// last is a pin of the first one's. The least net stands first.
    #[error("there is a combinational cycle")]
    Cycle { nets: Vec<NetId> },
    /// The cell is the first one whose width is not 1 to 64, whose constant has more bits, or whose pins have wrong widths.
    #[error("cell {cell} has a wrong width")]
    Width { cell: u32 },
    /// The cell is the first one that names a net that isn't there.
    #[error("cell {cell} names a net that is not there")]
    NoSuchNet { cell: u32 },
    /// The port is the first wrong one. It is the number of ports where there is none, or where some input cell stands
    /// in none.
    #[error("port {index} is wrong")]
    Port { index: usize },
    /// There was no memory left.
    #[error("out of memory")]
    NoMemory,
}

/// A netlist that was refused, unchanged, and why.
#[derive(Debug, Drop)]
pub struct Refused {
    /// Why it was refused.
    pub fault: NetFault,
    /// The netlist that was given.
    pub net: Netlist,
}

impl From<NoMemory> for NetFault {
    ghost use Rattle.std.specs.Prelude.{◌≡◌};
    ghost use Rattle.gos_netcheck.specs.declared.fault.NetFault.TheVariants.{NoMemory as OutOfMemory};

    ghost from_gives = { λ _ e. e ≡ OutOfMemory };

    fn from(_e: NoMemory) -> NetFault {
        NetFault::NoMemory
    }
}

impl From<AllocError> for NetFault {
    ghost use Rattle.std.specs.Prelude.{◌≡◌};
    ghost use Rattle.gos_netcheck.specs.declared.fault.NetFault.TheVariants.{NoMemory as OutOfMemory};

    ghost from_gives = { λ _ e. e ≡ OutOfMemory };

    fn from(_e: AllocError) -> NetFault {
        NetFault::NoMemory
    }
}

impl<T: Drop> From<AllocFailed<T>> for NetFault {
    ghost use Rattle.std.specs.Prelude.{◌≡◌};
    ghost use Rattle.gos_netcheck.specs.declared.fault.NetFault.TheVariants.{NoMemory as OutOfMemory};

    ghost from_gives = { λ _ e. e ≡ OutOfMemory };

    fn from(_e: AllocFailed<T>) -> NetFault {
        NetFault::NoMemory
    }
}
