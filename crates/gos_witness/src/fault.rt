// Why a trace is not explained.
use gos_types::NoMemory;
use std::alloc::{AllocError, AllocFailed};
use thiserror::Error;

/// Why a trace is not explained, or a text is none of a trace or of moves. Places count bytes from 0, lines and labels from 0.
#[derive(Debug, Drop, Error)]
pub enum ExplainFault {
    /// At `at` stands the first byte that can't go on as a text of its form, or the text ends there too early.
    #[error("the text is not of its form at {at}")]
    Form { at: usize },
    /// Line number `line` can't be made, or it is the last one and unfolds.
    #[error("line {line} is no move")]
    Wrong { line: u64 },
    /// All lines can be made, and only the first `matched` labels are used.
    #[error("{matched} labels are explained")]
    Labels { matched: u64 },
    /// A term has so many nodes: more than 1,000,000.
    #[error("a term has {nodes} nodes")]
    Nodes { nodes: u64 },
    /// No list of moves has the labels up to number `label`, and one has those before it.
    #[error("label {label} can't come")]
    NotTrace { label: u64 },
    /// Label number `label` takes as many computation steps as its budget, or more.
    #[error("label {label} takes too many steps")]
    Spent { label: u64 },
    /// The file for the moves is one that the build file names.
    #[error("the file for the moves is taken")]
    Taken,
    /// There was no memory left.
    #[error("out of memory")]
    NoMemory,
}

impl From<NoMemory> for ExplainFault {
    ghost use Rattle.std.specs.Prelude.{◌≡◌};
    ghost use Rattle.gos_witness.specs.declared.fault.ExplainFault.TheVariants.{NoMemory as OutOfMemory};

    ghost from_gives = { λ _ e. e ≡ OutOfMemory };

    fn from(_e: NoMemory) -> ExplainFault {
        ExplainFault::NoMemory
    }
}

impl From<AllocError> for ExplainFault {
    ghost use Rattle.std.specs.Prelude.{◌≡◌};
    ghost use Rattle.gos_witness.specs.declared.fault.ExplainFault.TheVariants.{NoMemory as OutOfMemory};

    ghost from_gives = { λ _ e. e ≡ OutOfMemory };

    fn from(_e: AllocError) -> ExplainFault {
        ExplainFault::NoMemory
    }
}

impl<T: Drop> From<AllocFailed<T>> for ExplainFault {
    ghost use Rattle.std.specs.Prelude.{◌≡◌};
    ghost use Rattle.gos_witness.specs.declared.fault.ExplainFault.TheVariants.{NoMemory as OutOfMemory};

    ghost from_gives = { λ _ e. e ≡ OutOfMemory };

    fn from(_e: AllocFailed<T>) -> ExplainFault {
        ExplainFault::NoMemory
    }
}
