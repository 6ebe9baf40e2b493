// The files of a command, and how they are read and written.

ghost use Rattle.std.specs.Prelude.{◌≡◌, ◌∷◌, [], take, IfOk, IfErr, IfSome, OnOk, IsErrOf};
ghost use Rattle.gos_outside.specs.FileName.{IsFileName};
ghost use Rattle.gos_outside.specs.Files.{bytes_at, with_file, SameBut};
ghost use Rattle.gos_outside.specs.Faults.{ReadFault, WriteFault, CountsFaults};
ghost use Rattle.gos_outside.specs.Calls.{Read, Write, AreMade};
ghost use Rattle.gos_flow.specs.Ends.{IfStopped, ending};

use crate::stop::Stop;
use gos_outside::{Store, StoreFault};
use std::alloc::Global;

/// Reads the first bytes of a file, so many at most.
pub fn read_start<S: Store>(
    alloc: Global,
    store: &mut S,
    name: &[u8],
    count: usize,
) -> Result<Vec<u8>, Stop>
    requires { IsFileName name.now }
    ensures read { IfOk result (λ bytes. IfSome (S.contents store.old) (λ files. bytes.items ≡ take count (bytes_at files name.now))) }
    ensures calls { AreMade (ending result) (Read name.now count ∷ []) (S.calls store.old) (S.calls store.new) }
    ensures rejects_nothing { IfErr result (λ stop. IfStopped stop (λ cause. ⊥)) }
    ensures counts { CountsFaults (IsErrOf result Stop.StoreFailed) (S.faults store.old) (S.faults store.new) }
    ensures failed_call { IsErrOf result Stop.StoreFailed → S.last_fault store.new ≡ ReadFault name.now }
    ensures same_files { S.contents store.new ≡ S.contents store.old }
{
    match store.read_up_to(alloc, name, count) {
        Ok(bytes) => Ok(bytes),
        Err(StoreFault::Failed) => Err(Stop::StoreFailed),
        Err(StoreFault::NoMemory) => Err(Stop::NoMemory),
    }
}

/// Writes a file.
pub fn write_file<S: Store>(
    alloc: Global,
    store: &mut S,
    name: &[u8],
    bytes: &[u8],
) -> Result<(), Stop>
    requires { IsFileName name.now }
    ensures written { OnOk result (S.contents store.new ≡ with_file name.now bytes.now (S.contents store.old)) }
    ensures calls { AreMade (ending result) (Write name.now ∷ []) (S.calls store.old) (S.calls store.new) }
    ensures rejects_nothing { IfErr result (λ stop. IfStopped stop (λ cause. ⊥)) }
    ensures counts { CountsFaults (IsErrOf result Stop.StoreFailed) (S.faults store.old) (S.faults store.new) }
    ensures failed_call { IsErrOf result Stop.StoreFailed → S.last_fault store.new ≡ WriteFault name.now }
    ensures others { SameBut name.now (S.contents store.old) (S.contents store.new) }
    ensures no_memory { IsErrOf result Stop.NoMemory → S.contents store.new ≡ S.contents store.old }
{
    match store.write(alloc, name, bytes) {
        Ok(()) => Ok(()),
        Err(StoreFault::Failed) => Err(Stop::StoreFailed),
        Err(StoreFault::NoMemory) => Err(Stop::NoMemory),
    }
}
