// Why tokens are no module.

use gos_lex::LexFault;
use std::alloc::{AllocError, AllocFailed};
use thiserror::Error;

/// Why `parse` refuses tokens. A place is the start of a token, or the length of the text at the end.
#[derive(Debug, Drop, Error, PartialEq, Eq)]
pub enum SyntaxFault {
    /// The tokens before `at` begin a module, and with the token at `at`, or with the end, they don't.
    #[error("unexpected at {at}")]
    Unexpected { at: usize },
    /// The token at `at` is the first with more than 1,024 open tokens before it.
    #[error("nested too deeply at {at}")]
    Depth { at: usize },
    /// The token at `at` is the 65th `import`.
    #[error("too many imports at {at}")]
    TooManyImports { at: usize },
    /// Memory was refused. This says nothing of the tokens.
    #[error("out of memory")]
    NoMemory,
}

impl From<AllocError> for SyntaxFault {
    ghost use Rattle.std.specs.Prelude.{◌≡◌};
    ghost use Rattle.gos_syntax.specs.declared.fault.SyntaxFault.TheVariants.{NoMemory};

    ghost from_gives = { λ _ e. e ≡ NoMemory };

    fn from(_error: AllocError) -> SyntaxFault {
        SyntaxFault::NoMemory
    }
}

impl<T: Drop> From<AllocFailed<T>> for SyntaxFault {
    ghost use Rattle.std.specs.Prelude.{◌≡◌};
    ghost use Rattle.gos_syntax.specs.declared.fault.SyntaxFault.TheVariants.{NoMemory};

    ghost from_gives = { λ _ e. e ≡ NoMemory };

    fn from(_error: AllocFailed<T>) -> SyntaxFault {
        SyntaxFault::NoMemory
    }
}

// Why no phrase was read.
#[derive(Debug, Drop)]
pub(crate) enum Stop {
    // The token of this number, or the end, can't stand where it does.
    At(usize),
    // Memory was refused.
    NoMemory,
}

impl From<AllocError> for Stop {
    ghost use Rattle.std.specs.Prelude.{◌≡◌};
    ghost use Rattle.gos_syntax.specs.declared.fault.Stop.TheVariants.{NoMemory};

    ghost from_gives = { λ _ e. e ≡ NoMemory };

    fn from(_error: AllocError) -> Stop {
        Stop::NoMemory
    }
}

impl<T: Drop> From<AllocFailed<T>> for Stop {
    ghost use Rattle.std.specs.Prelude.{◌≡◌};
    ghost use Rattle.gos_syntax.specs.declared.fault.Stop.TheVariants.{NoMemory};

    ghost from_gives = { λ _ e. e ≡ NoMemory };

    fn from(_error: AllocFailed<T>) -> Stop {
        Stop::NoMemory
    }
}

impl From<LexFault> for Stop {
    ghost use Rattle.std.specs.Prelude.{◌≡◌};
    ghost use Rattle.gos_syntax.specs.declared.fault.Stop.TheVariants.{NoMemory};

    ghost from_gives = { λ _ e. e ≡ NoMemory };

    // `Name::new` answers no other fault than want of memory.
    fn from(_fault: LexFault) -> Stop {
        Stop::NoMemory
    }
}
