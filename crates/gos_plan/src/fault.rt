// Why something is no plan, or no text of one.

use gos_types::NoMemory as OutOfMemory;
use std::alloc::{AllocError, AllocFailed};
use thiserror::Error;

/// Why a plan was refused.
#[derive(Debug, Drop, Error, PartialEq, Eq)]
pub enum ObjectFault {
    /// With the byte at `at`, or at the end, the text is that of no plan.
    #[error("no object text at {at}")]
    Form { at: usize },
    /// The joint of this number is the first that is not right.
    #[error("joint {index} is not right")]
    Joint { index: usize },
    /// A number at `at` is above its limit.
    #[error("above a limit at {at}")]
    Limit { at: usize },
    /// Memory was refused. This says nothing of the plan.
    #[error("out of memory")]
    NoMemory,
}

impl From<OutOfMemory> for ObjectFault {
    ghost use Rattle.std.specs.Prelude.{◌≡◌};
    ghost use Rattle.gos_plan.specs.declared.fault.ObjectFault.TheVariants.{NoMemory};

    ghost from_gives = { λ _ e. e ≡ NoMemory };

    fn from(_error: OutOfMemory) -> ObjectFault {
        ObjectFault::NoMemory
    }
}

impl From<AllocError> for ObjectFault {
    ghost use Rattle.std.specs.Prelude.{◌≡◌};
    ghost use Rattle.gos_plan.specs.declared.fault.ObjectFault.TheVariants.{NoMemory};

    ghost from_gives = { λ _ e. e ≡ NoMemory };

    fn from(_error: AllocError) -> ObjectFault {
        ObjectFault::NoMemory
    }
}

impl<T: Drop> From<AllocFailed<T>> for ObjectFault {
    ghost use Rattle.std.specs.Prelude.{◌≡◌};
    ghost use Rattle.gos_plan.specs.declared.fault.ObjectFault.TheVariants.{NoMemory};

    ghost from_gives = { λ _ e. e ≡ NoMemory };

    fn from(_error: AllocFailed<T>) -> ObjectFault {
        ObjectFault::NoMemory
    }
}
