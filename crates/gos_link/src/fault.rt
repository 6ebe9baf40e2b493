// Why a build file is refused, and why its instances are not linked.

use gos_lex::Name;
use gos_types::{NoMemory, Ty};
use std::alloc::{AllocError, AllocFailed};
use thiserror::Error;

/// Why a build file is refused, or why its instances are not linked. Lines count from 1, and all lines count.
#[derive(Debug, Drop, Error)]
pub enum LinkFault {
    /// The line is the first that is wrong in its place. It is 0 where the file has more than 65,536 bytes, and the number
    /// of lines plus one where lines are missing.
    #[error("line {line} is not of its form")]
    Form {
        line: u64,
    },
    /// The line names an instance that there isn't.
    #[error("line {line} names no instance")]
    NoInstance {
        line: u64,
        name: Name,
    },
    /// The line's user has no such import.
    #[error("line {line} names no import")]
    NoImport {
        line: u64,
        name: Name,
    },
    /// The line's import has type `want`, and its giver's result has type `got`.
    #[error("line {line} binds different types")]
    TypeDiffers {
        line: u64,
        want: Ty,
        got: Ty,
    },
    /// Both lines bind the same import of the same user.
    #[error("lines {first} and {second} bind one import")]
    BoundTwice {
        first: u64,
        second: u64,
    },
    /// Both lines have the same giver.
    #[error("lines {first} and {second} use one instance")]
    UsedTwice {
        first: u64,
        second: u64,
    },
    /// The lines up to this one hold a ring of instances, each the giver of the next.
    #[error("line {line} closes a ring")]
    Loop {
        line: u64,
    },
    /// The instance isn't the root, and serves no import.
    #[error("an instance is not used")]
    Unplaced {
        name: Name,
    },
    /// Two open imports have one name, `first` and `second` are their instances; or an open import of `second` has the name
    /// of the root, which is `first`.
    #[error("two ports have one name")]
    OpenTwice {
        name: Name,
        first: Name,
        second: Name,
    },
    /// The result of the root is neither a command nor an expression, or the open import of this name isn't ground.
    #[error("a port has no ground type")]
    NotGround {
        name: Name,
    },
    /// The plans weigh this much together, which is more than 32,768.
    #[error("the whole weighs {weight}")]
    TooHeavy {
        weight: u64,
    },
    /// The plan would have this size and so many ports, and the one is more than 5,000,000 or the other more than 65,536.
    #[error("the whole has size {size} and {ports} ports")]
    TooLarge {
        size: u64,
        ports: u64,
    },
    /// There was no memory left.
    #[error("out of memory")]
    NoMemory,
}

impl From<NoMemory> for LinkFault {
    ghost use Rattle.std.specs.Prelude.{◌≡◌};
    ghost use Rattle.gos_link.specs.declared.fault.LinkFault.TheVariants.{NoMemory as OutOfMemory};

    ghost from_gives = { λ _ e. e ≡ OutOfMemory };

    fn from(_e: NoMemory) -> LinkFault {
        LinkFault::NoMemory
    }
}

impl From<AllocError> for LinkFault {
    ghost use Rattle.std.specs.Prelude.{◌≡◌};
    ghost use Rattle.gos_link.specs.declared.fault.LinkFault.TheVariants.{NoMemory as OutOfMemory};

    ghost from_gives = { λ _ e. e ≡ OutOfMemory };

    fn from(_e: AllocError) -> LinkFault {
        LinkFault::NoMemory
    }
}

impl<T: Drop> From<AllocFailed<T>> for LinkFault {
    ghost use Rattle.std.specs.Prelude.{◌≡◌};
    ghost use Rattle.gos_link.specs.declared.fault.LinkFault.TheVariants.{NoMemory as OutOfMemory};

    ghost from_gives = { λ _ e. e ≡ OutOfMemory };

    fn from(_e: AllocFailed<T>) -> LinkFault {
        LinkFault::NoMemory
    }
}
