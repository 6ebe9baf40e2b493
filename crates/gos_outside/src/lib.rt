// The outside of the compiler: where its files lie, and where its printed lines go.
//
// The layers above are generic over `Store` and `Sink`, and know of them what these two traits
// promise: read the traits first. `SureStore` and `SureSink` keep all in memory and never fail.
// `MemoryStore` and `MemorySink` do too, but fail at the calls whose numbers they are given.
// `FaultLog` is for a store of your own: the count of its faults, and the last of them.
//
// The words of the clauses: specs/FileName, Files, Faults, Written. What several writes leave as it
// was: specs/OtherFiles and proofs/OtherFilesLemmas.
#![tactic(auto)]

ghost use Rattle.std.specs.Prelude.{◌≡◌, ℕ, ◌≤◌, List, [], ◌∷◌, take, length, Option};
ghost use Rattle.std.specs.Prelude.{IfOk, IfSome, OnOk, IsErrOf};
ghost use Rattle.gos_outside.specs.FileName.{IsFileName};
ghost use Rattle.gos_outside.specs.Files.{Files, bytes_at, with_file, SameBut};
ghost use Rattle.gos_outside.specs.Faults.{LastFault, ReadFault, WriteFault, CountsFaults};
ghost use Rattle.gos_outside.specs.Calls.{Calls, Read, Write, ending, AreMade};
ghost use Rattle.gos_outside.specs.Written.{appended, AppendsPrefix, one_more, AtMostOneMore};

use std::alloc::{AllocError, AllocFailed, Global};
use thiserror::Error;

mod fault_log;
mod file_name;
mod held_files;
mod laws;
mod memory_sink;
mod memory_store;
mod planned_faults;
mod sure_sink;
mod sure_store;

pub use fault_log::{Call, FaultLog};
pub use file_name::is_file_name;
pub use laws::small_calls;
pub use memory_sink::MemorySink;
pub use memory_store::MemoryStore;
pub use sure_sink::SureSink;
pub use sure_store::SureStore;

/// Why a call of a store gave up.
#[derive(Debug, Drop, Error)]
pub enum StoreFault {
    /// The store could not do it, and has counted that.
    #[error("the store failed")]
    Failed,
    /// No memory was found for it.
    #[error("out of memory")]
    NoMemory,
}

/// Why a call of a sink gave up.
#[derive(Debug, Drop, Error)]
pub enum SinkFault {
    /// The sink could not do it, and has counted that.
    #[error("the sink failed")]
    Failed,
    /// No memory was found for it.
    #[error("out of memory")]
    NoMemory,
}

/// Files by their names. `faults` is how many calls have failed, up to the largest `u64`;
/// `last_fault` is the last call that did; `contents` are the files, and `calls` the calls that were
/// made, in their order, where the store tells them.
pub trait Store {
    ghost faults: { Self → ℕ };

    ghost last_fault: { Self → LastFault };

    ghost contents: { Self → Option Files };

    ghost calls: { Self → Calls };

    /// The first `n` bytes of the file `name`, or all of it where it is shorter.
    fn read_up_to(&mut self, alloc: Global, name: &[u8], n: usize) -> Result<Vec<u8>, StoreFault>
        requires { IsFileName name.now }
        ensures bytes { IfOk result (λ bytes. IfSome (contents self.old) (λ files.
            bytes.items ≡ take n (bytes_at files name.now))) }
        ensures limit { IfOk result (λ bytes. length bytes.items ≤ n) }
        ensures calls { AreMade (ending result) (Read name.now n ∷ []) (calls self.old) (calls self.new) }

        // A failed call is counted, and is the last fault from then on. Any other changes neither.
        ensures counts { CountsFaults (IsErrOf result StoreFault.Failed) (faults self.old) (faults self.new) }
        ensures failed_call { IsErrOf result StoreFault.Failed →
            last_fault self.new ≡ ReadFault name.now }
        ensures same_fault { (¬ (IsErrOf result StoreFault.Failed)) →
            last_fault self.new ≡ last_fault self.old }

        ensures same_files { contents self.new ≡ contents self.old };

    /// Makes the file `name` hold `bytes`. Where it fails, that one file may hold anything.
    fn write(&mut self, alloc: Global, name: &[u8], bytes: &[u8]) -> Result<(), StoreFault>
        requires { IsFileName name.now }
        ensures written { OnOk result
            (contents self.new ≡ with_file name.now bytes.now (contents self.old)) }
        ensures calls { AreMade (ending result) (Write name.now ∷ []) (calls self.old) (calls self.new) }

        // A failed call is counted, and is the last fault from then on. Any other changes neither.
        ensures counts { CountsFaults (IsErrOf result StoreFault.Failed) (faults self.old) (faults self.new) }
        ensures failed_call { IsErrOf result StoreFault.Failed →
            last_fault self.new ≡ WriteFault name.now }
        ensures same_fault { (¬ (IsErrOf result StoreFault.Failed)) →
            last_fault self.new ≡ last_fault self.old }

        // Whatever the answer, no other file is touched.
        ensures others { SameBut name.now (contents self.old) (contents self.new) }
        ensures no_memory { IsErrOf result StoreFault.NoMemory →
            contents self.new ≡ contents self.old };
}

/// Where bytes go, one after another. `faults` is how many calls have failed, up to the largest
/// `u64`; `written` are the bytes so far, and `writes` is how many calls were made, where the sink
/// tells them.
pub trait Sink {
    ghost faults: { Self → ℕ };

    ghost written: { Self → Option (List ℕ) };

    ghost writes: { Self → Option ℕ };

    /// Appends `bytes`. Where it fails, a first part of them may have been appended.
    fn write(&mut self, alloc: Global, bytes: &[u8]) -> Result<(), SinkFault>
        ensures appended { OnOk result (written self.new ≡ appended bytes.now (written self.old)) }
        ensures no_more { IsErrOf result SinkFault.Failed →
            AppendsPrefix bytes.now (written self.old) (written self.new) }
        ensures no_memory { IsErrOf result SinkFault.NoMemory →
            written self.new ≡ written self.old }
        ensures one_write { (¬ (IsErrOf result SinkFault.NoMemory)) → writes self.new ≡ one_more (writes self.old) }
        ensures few_writes { AtMostOneMore (writes self.old) (writes self.new) }

        // A failed call is counted, and no other is.
        ensures counts { CountsFaults (IsErrOf result SinkFault.Failed) (faults self.old) (faults self.new) };
}

impl From<AllocError> for StoreFault {
    ghost use Rattle.std.specs.Prelude.{◌≡◌};
    ghost use Rattle.gos_outside.specs.declared.StoreFault.TheVariants.{NoMemory};

    ghost from_gives = { λ _ e. e ≡ NoMemory };

    fn from(_e: AllocError) -> StoreFault {
        StoreFault::NoMemory
    }
}

impl<T: Drop> From<AllocFailed<T>> for StoreFault {
    ghost use Rattle.std.specs.Prelude.{◌≡◌};
    ghost use Rattle.gos_outside.specs.declared.StoreFault.TheVariants.{NoMemory};

    ghost from_gives = { λ _ e. e ≡ NoMemory };

    fn from(_e: AllocFailed<T>) -> StoreFault {
        StoreFault::NoMemory
    }
}

impl From<AllocError> for SinkFault {
    ghost use Rattle.std.specs.Prelude.{◌≡◌};
    ghost use Rattle.gos_outside.specs.declared.SinkFault.TheVariants.{NoMemory};

    ghost from_gives = { λ _ e. e ≡ NoMemory };

    fn from(_e: AllocError) -> SinkFault {
        SinkFault::NoMemory
    }
}

impl<T: Drop> From<AllocFailed<T>> for SinkFault {
    ghost use Rattle.std.specs.Prelude.{◌≡◌};
    ghost use Rattle.gos_outside.specs.declared.SinkFault.TheVariants.{NoMemory};

    ghost from_gives = { λ _ e. e ≡ NoMemory };

    fn from(_e: AllocFailed<T>) -> SinkFault {
        SinkFault::NoMemory
    }
}
