// A store in memory some of whose calls are to fail.
//
// It shows what a caller does where a read or a write fails. Beyond what the trait promises, the
// clauses of its calls say which of them fail, and what each leaves.
ghost use Rattle.std.specs.Prelude.{◌≡◌, ◌↔◌, ◌⊎◌, take, Some, None, IfOk, OnOk, IsErrOf};
ghost use Rattle.std.specs.Option.{option_copied};
ghost use Rattle.std.specs.FinMap.{get};
ghost use Rattle.gos_outside.specs.FileName.{IsFileName};
ghost use Rattle.gos_outside.specs.Files.{bytes_at, SameBut};
ghost use Rattle.gos_outside.specs.Faults.{CountsFaults, NoFault, ReadFault};
ghost use Rattle.gos_outside.specs.FaultLog.{last_fault_of};
ghost use Rattle.gos_outside.specs.HeldFiles.{files_of};
ghost use Rattle.gos_outside.specs.PlannedFaults.{NextFails};
ghost use Rattle.gos_outside.specs.MemoryStore.{called, failed_by, written_to, half_written_to};

use crate::fault_log::{Call, FaultLog};
use crate::held_files::{HeldFiles, first_bytes};
use crate::planned_faults::PlannedFaults;
use crate::{Store, StoreFault};
use std::alloc::Global;
use std::marker::Model;

/// Files in memory. A call fails where its number is among those that are to fail, and so does a
/// read of a file that isn't held. A write that is to fail leaves the first half of the bytes in its
/// file, rounded down; where no memory is found for these, it leaves all files as they were.
#[derive(Drop)]
pub struct MemoryStore {
    files: HeldFiles,
    planned: PlannedFaults,
    log: FaultLog,
}

impl Model for MemoryStore {
    ghost use Rattle.std.specs.Coded.{codes};
    ghost use Rattle.gos_outside.specs.Files.{files_code};
    ghost use Rattle.gos_outside.specs.MemoryStore.{StoreState};

    ghost Value = { StoreState };

    ghost coded = { Prim.hlevel (codes, files_code) };

    ghost view = { λ store. record {
      files = store.files;
      calls = store.planned.calls;
      fail = store.planned.fail;
      faults = store.log.0;
      last_fault = store.log.1;
    } };
}

impl MemoryStore {
    /// A store of these files, names and then bytes, of which no call was made. Of two files with
    /// one name the first counts. `fail` are the numbers of the calls that are to fail: calls are
    /// counted from 1, reads and writes together, up to the largest `u64`.
    pub fn new(files: Vec<(Vec<u8>, Vec<u8>)>, fail: Vec<u64>) -> Self
        ensures files { result.files ≡ files_of files.items }
        ensures fail { result.fail ≡ fail.items }
        ensures calls { result.calls ≡ 0 }
        ensures faults { result.faults ≡ 0 }
        ensures last_fault { result.last_fault ≡ NoFault }
    {
        MemoryStore {
            files: HeldFiles::new(files),
            planned: PlannedFaults::new(fail),
            log: FaultLog::new(),
        }
    }

    /// The bytes of the file `name`, if it is held.
    pub fn get(&self, name: &[u8]) -> Option<&[u8]>
        ensures { option_copied result ≡ get self.now.files name.now }
    {
        self.files.get(name)
    }

    /// How many calls have failed.
    pub fn faults(&self) -> u64
        ensures { result ≡ self.now.faults }
    {
        self.log.count()
    }

    /// The last call that failed, and the name of its file.
    pub fn last_fault(&self) -> Option<(Call, &[u8])>
        ensures { last_fault_of result ≡ self.now.last_fault }
    {
        self.log.last()
    }
}

impl Store for MemoryStore {
    ghost use Rattle.std.specs.Prelude.{None, Some};

    ghost faults = { λ store. store.faults };

    ghost last_fault = { λ store. store.last_fault };

    ghost contents = { λ store. Some store.files };

    ghost calls = { λ _. None };

    fn read_up_to(&mut self, alloc: Global, name: &[u8], n: usize) -> Result<Vec<u8>, StoreFault>
        requires { IsFileName name.now }
        ensures bytes { IfOk result (λ bytes.
            bytes.items ≡ take n (bytes_at self.old.files name.now)) }
        ensures fails { IsErrOf result StoreFault.Failed ↔
            (NextFails self.old.calls self.old.fail ⊎ (get self.old.files name.now ≡ None)) }
        ensures failed { IsErrOf result StoreFault.Failed →
            self.new ≡ failed_by (ReadFault name.now) self.old }
        ensures not_failed { (¬ (IsErrOf result StoreFault.Failed)) → self.new ≡ called self.old }

        // As the trait has it.
        ensures counts { CountsFaults (IsErrOf result StoreFault.Failed) self.old.faults self.new.faults }
    {
        let planned = self.planned.next_fails();
        match self.files.get(name) {
            Some(bytes) if !planned => Ok(first_bytes(bytes, n).to_vec(alloc)?),
            _ => {
                self.log.read_failed(name);
                Err(StoreFault::Failed)
            }
        }
    }

    fn write(&mut self, alloc: Global, name: &[u8], bytes: &[u8]) -> Result<(), StoreFault>
        requires { IsFileName name.now }
        ensures written { OnOk result (self.new ≡ written_to name.now bytes.now self.old) }
        ensures spared { OnOk result (¬ (NextFails self.old.calls self.old.fail)) }
        ensures fails { IsErrOf result StoreFault.Failed → NextFails self.old.calls self.old.fail }
        ensures failed { IsErrOf result StoreFault.Failed →
            self.new ≡ half_written_to name.now bytes.now self.old }
        ensures no_memory { IsErrOf result StoreFault.NoMemory → self.new ≡ called self.old }

        // As the trait has it.
        ensures counts { CountsFaults (IsErrOf result StoreFault.Failed) self.old.faults self.new.faults }
        ensures others { SameBut name.now (Some self.old.files) (Some self.new.files) }
    {
        if self.planned.next_fails() {
            self.files.put(alloc, name, &bytes[..bytes.len() / 2])?;
            self.log.write_failed(name);
            return Err(StoreFault::Failed);
        }
        self.files.put(alloc, name, bytes)?;
        Ok(())
    }
}

#[cfg(test)]
mod tests {
    use super::*;
    use crate::is_file_name;
    use std::test::Fail;

    #[test]
    fn the_listed_calls_fail_and_so_does_a_file_that_is_not_held(
        rt: HostRuntime,
    ) -> Result<(), Fail> {
        let alloc = rt.alloc();
        let mut fail = Vec::new(alloc);
        fail.push(2)?;
        let mut store = MemoryStore::new(Vec::new(alloc), fail);
        let name = b"out.net".as_slice();
        assert!(rt; is_file_name(name));
        store.write(alloc, name, b"netlist")?;
        assert!(rt; store.write(alloc, name, b"later").is_err());
        assert_eq!(rt; store.get(name).ok_or("held")?, b"la".as_slice());
        assert!(rt; store.last_fault() == Some((Call::Write, name)));
        store.write(alloc, name, b"netlist")?;
        let text = store.read_up_to(alloc, name, 3)?;
        assert_eq!(rt; text.as_slice(), b"net".as_slice());
        assert_eq!(rt; store.faults(), 1);
        let other = b"none.gos".as_slice();
        assert!(rt; is_file_name(other));
        assert!(rt; store.read_up_to(alloc, other, 9).is_err());
        assert!(rt; store.last_fault() == Some((Call::Read, other)));
        assert_eq!(rt; store.faults(), 2);
        Ok(())
    }
}
