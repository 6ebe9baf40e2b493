// A store in memory that never fails.
ghost use Rattle.std.specs.Prelude.{◌≡◌};
ghost use Rattle.std.specs.Option.{option_copied};
ghost use Rattle.std.specs.FinMap.{get};
ghost use Rattle.gos_outside.specs.HeldFiles.{files_of};

use crate::held_files::{HeldFiles, first_bytes};
use crate::{Store, StoreFault};
use std::alloc::Global;
use std::marker::Model;

/// Files in memory. No call fails but for want of memory, and a file that isn't held reads as
/// empty.
#[derive(Drop)]
pub struct SureStore {
    files: HeldFiles,
}

impl Model for SureStore {
    ghost use Rattle.gos_outside.specs.Files.{Files, files_code};

    ghost Value = { Files };

    ghost coded = { files_code };

    ghost view = { λ store. store.files };
}

impl SureStore {
    /// A store of these files, names and then bytes. Of two with one name the first counts.
    pub fn new(files: Vec<(Vec<u8>, Vec<u8>)>) -> Self
        ensures { result ≡ files_of files.items }
    {
        SureStore {
            files: HeldFiles::new(files),
        }
    }

    /// The bytes of the file `name`, if it is held.
    pub fn get(&self, name: &[u8]) -> Option<&[u8]>
        ensures { option_copied result ≡ get self.now name.now }
    {
        self.files.get(name)
    }
}

impl Store for SureStore {
    ghost use Rattle.std.specs.Prelude.{None, Some};
    ghost use Rattle.gos_outside.specs.Faults.{NoFault};

    ghost faults = { λ _. 0 };

    ghost last_fault = { λ _. NoFault };

    ghost contents = { λ store. Some store };

    ghost calls = { λ _. None };

    fn read_up_to(&mut self, alloc: Global, name: &[u8], n: usize) -> Result<Vec<u8>, StoreFault> {
        match self.files.get(name) {
            Some(bytes) => Ok(first_bytes(bytes, n).to_vec(alloc)?),
            None => Ok(Vec::new(alloc)),
        }
    }

    fn write(&mut self, alloc: Global, name: &[u8], bytes: &[u8]) -> Result<(), StoreFault> {
        self.files.put(alloc, name, bytes)?;
        Ok(())
    }
}

#[cfg(test)]
mod tests {
    use super::*;
    use crate::is_file_name;
    use std::test::Fail;

    #[test]
    fn of_two_files_with_one_name_the_first_counts(rt: HostRuntime) -> Result<(), Fail> {
        let alloc = rt.alloc();
        let mut files = Vec::new(alloc);
        files.push((b"a.txt".to_vec(alloc)?, b"first".to_vec(alloc)?))?;
        files.push((b"a.txt".to_vec(alloc)?, b"second".to_vec(alloc)?))?;
        let mut store = SureStore::new(files);
        let name = b"a.txt".as_slice();
        assert!(rt; is_file_name(name));
        let whole = store.read_up_to(alloc, name, 100)?;
        assert_eq!(rt; whole.as_slice(), b"first".as_slice());
        let start = store.read_up_to(alloc, name, 3)?;
        assert_eq!(rt; start.as_slice(), b"fir".as_slice());
        Ok(())
    }

    #[test]
    fn a_file_that_is_not_held_reads_as_empty_until_it_is_written(
        rt: HostRuntime,
    ) -> Result<(), Fail> {
        let alloc = rt.alloc();
        let mut store = SureStore::new(Vec::new(alloc));
        let name = b"out/a-1.net".as_slice();
        assert!(rt; is_file_name(name));
        assert!(rt; store.get(name).is_none());
        let before = store.read_up_to(alloc, name, 9)?;
        assert_eq!(rt; before.len(), 0);
        store.write(alloc, name, b"old")?;
        store.write(alloc, name, b"new")?;
        assert_eq!(rt; store.get(name).ok_or("held")?, b"new".as_slice());
        Ok(())
    }
}
