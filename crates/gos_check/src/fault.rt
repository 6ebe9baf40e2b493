// Why a module is refused.

use gos_lex::{LexFault, Name, Span};
use gos_types::{NoMemory, Ty};
use std::alloc::{AllocError, AllocFailed};
use thiserror::Error;

/// What a place demands of the type of a term.
#[derive(Debug, Drop)]
pub enum Want {
    /// This type.
    Just(Ty),
    /// An expression, of any width.
    AnyExp,
    /// A variable, of any width.
    AnyVar,
    /// A command, or an expression of any width.
    ComOrExp,
}

/// Why a module is refused: its first fault, in the order in which `check` looks.
#[derive(Debug, Drop, Error)]
pub enum CheckFault {
    /// A name with no binder around it, which is no import either; the place is that of its use.
    #[error("unbound name at {span:?}")]
    Unbound {
        name: Name,
        span: Span,
    },
    /// The term at `span` has the type `got`, and its place demands another.
    #[error("another type is wanted at {span:?}")]
    Differs {
        span: Span,
        want: Want,
        got: Ty,
    },
    /// The term at `span` is applied, and its type `got` is no function.
    #[error("no function at {span:?}")]
    NotFunction {
        span: Span,
        got: Ty,
    },
    /// A side is taken of the term at `span`, and its type `got` is no product.
    #[error("no pair at {span:?}")]
    NotPair {
        span: Span,
        got: Ty,
    },
    /// A name is free in both parts of an application or of `||`; its first places in the two.
    #[error("shared name at {first:?} and {second:?}")]
    Shared {
        name: Name,
        first: Span,
        second: Span,
    },
    /// A number that is no width, with value 0; or a literal whose value doesn't fit into its width.
    #[error("width {width} and value {value} at {span:?}")]
    Width {
        span: Span,
        width: u32,
        value: u64,
    },
    /// The written type, or the type of the term, at `span` has more than 64 handshakes: so many.
    #[error("{handshakes} handshakes at {span:?}")]
    TypeTooLarge {
        span: Span,
        handshakes: u64,
    },
    /// Two imports have one name; the places of the earliest one and of this one.
    #[error("repeated import at {first:?} and {second:?}")]
    Repeated {
        name: Name,
        first: Span,
        second: Span,
    },
    /// The module weighs more than 8,192: so much.
    #[error("weight {weight}")]
    TooHeavy {
        weight: u64,
    },
    /// An array of so many numbers, where arrays have 2, 4, 8 or 16.
    #[error("length {length} at {span:?}")]
    Length {
        span: Span,
        length: u32,
    },
    /// Memory was refused. This says nothing of the module.
    #[error("out of memory")]
    NoMemory,
}

impl From<AllocError> for CheckFault {
    ghost use Rattle.std.specs.Prelude.{◌≡◌};
    ghost use Rattle.gos_check.specs.declared.fault.CheckFault.TheVariants.{NoMemory};

    ghost from_gives = { λ _ e. e ≡ NoMemory };

    fn from(_error: AllocError) -> CheckFault {
        CheckFault::NoMemory
    }
}

impl<T: Drop> From<AllocFailed<T>> for CheckFault {
    ghost use Rattle.std.specs.Prelude.{◌≡◌};
    ghost use Rattle.gos_check.specs.declared.fault.CheckFault.TheVariants.{NoMemory};

    ghost from_gives = { λ _ e. e ≡ NoMemory };

    fn from(_error: AllocFailed<T>) -> CheckFault {
        CheckFault::NoMemory
    }
}

impl From<NoMemory> for CheckFault {
    ghost use Rattle.std.specs.Prelude.{◌≡◌};
    ghost use Rattle.gos_check.specs.declared.fault.CheckFault.TheVariants.{NoMemory};

    ghost from_gives = { λ _ e. e ≡ NoMemory };

    fn from(_error: NoMemory) -> CheckFault {
        CheckFault::NoMemory
    }
}

impl From<LexFault> for CheckFault {
    ghost use Rattle.std.specs.Prelude.{◌≡◌};
    ghost use Rattle.gos_check.specs.declared.fault.CheckFault.TheVariants.{NoMemory};

    ghost from_gives = { λ _ e. e ≡ NoMemory };

    // `Name::new` answers no other fault than want of memory.
    fn from(_fault: LexFault) -> CheckFault {
        CheckFault::NoMemory
    }
}
