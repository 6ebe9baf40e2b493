// Why a text has no tokens.

use std::alloc::{AllocError, AllocFailed};
use thiserror::Error;

/// Why `scan` refuses a text. Places count bytes from 0.
#[derive(Debug, Drop, Error, PartialEq, Eq)]
pub enum LexFault {
    /// The text has `len` bytes, more than 65,536. This comes before all others.
    #[error("the text has {len} bytes")]
    TooLong { len: usize },
    /// At `at` stands a byte, outside comments, with which no token begins.
    #[error("no token begins at {at}")]
    Byte { at: usize },
    /// At `at` begins a numeral whose value is above 18,446,744,073,709,551,615.
    #[error("the number at {at} is too great")]
    Number { at: usize },
    /// At `at` begins a name of more than 255 bytes.
    #[error("the name at {at} is too long")]
    Name { at: usize },
    /// Memory was refused. This says nothing of the text.
    #[error("out of memory")]
    NoMemory,
}

impl From<AllocError> for LexFault {
    ghost use Rattle.std.specs.Prelude.{◌≡◌};
    ghost use Rattle.gos_lex.specs.declared.fault.LexFault.TheVariants.{NoMemory};

    ghost from_gives = { λ _ e. e ≡ NoMemory };

    fn from(_error: AllocError) -> LexFault {
        LexFault::NoMemory
    }
}

impl<T: Drop> From<AllocFailed<T>> for LexFault {
    ghost use Rattle.std.specs.Prelude.{◌≡◌};
    ghost use Rattle.gos_lex.specs.declared.fault.LexFault.TheVariants.{NoMemory};

    ghost from_gives = { λ _ e. e ≡ NoMemory };

    fn from(_error: AllocFailed<T>) -> LexFault {
        LexFault::NoMemory
    }
}
