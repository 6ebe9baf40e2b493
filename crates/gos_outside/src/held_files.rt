// The files that a store in memory holds.
//
// A list of names and bytes. The newest file stands first, and of two with one name the first
// counts.
ghost use Rattle.std.specs.Prelude.{◌≡◌, take, OnOk, OnErr, Some};
ghost use Rattle.std.specs.Option.{option_copied};
ghost use Rattle.std.specs.FinMap.{get, insert};
ghost use Rattle.gos_outside.specs.Files.{SameBut};
ghost use Rattle.gos_outside.specs.HeldFiles.{files_of};

use std::alloc::{AllocError, Global};
use std::marker::Model;

/// Files in memory. A file that is written again stays in the list behind its newest form.
#[derive(Drop)]
pub(crate) struct HeldFiles {
    files: Vec<(Vec<u8>, Vec<u8>)>,
}

impl Model for HeldFiles {
    ghost use Rattle.gos_outside.specs.Files.{Files, files_code};
    ghost use Rattle.gos_outside.specs.HeldFiles.{files_of};

    ghost Value = { Files };

    ghost coded = { files_code };

    ghost view = { λ held. files_of held.files.items };
}

impl HeldFiles {
    /// These files, of two with one name the first.
    pub(crate) fn new(files: Vec<(Vec<u8>, Vec<u8>)>) -> Self
        ensures { result ≡ files_of files.items }
    {
        HeldFiles { files }
    }

    /// The bytes of the file `name`, if it is held.
    #[tactic(auto, using(crate::proofs::HeldFilesLemmas::get_files_of))]
    pub(crate) fn get(&self, name: &[u8]) -> Option<&[u8]>
        ensures { option_copied result ≡ get self.now name.now }
    {
        for (held, bytes) in &self.files {
            if held.as_slice() == name {
                return Some(bytes.as_slice());
            }
        }
        None
    }

    /// Makes the file `name` hold `bytes`.
    #[tactic(auto, using(crate::proofs::FilesLemmas::others_keep))]
    pub(crate) fn put(&mut self, alloc: Global, name: &[u8], bytes: &[u8]) -> Result<(), AllocError>
        ensures ok { OnOk result (self.new ≡ insert self.old name.now bytes.now) }
        ensures err { OnErr result (self.new ≡ self.old) }
        ensures others { SameBut name.now (Some self.old) (Some self.new) }
    {
        let name = name.to_vec(alloc)?;
        let bytes = bytes.to_vec(alloc)?;
        self.files.insert(0, (name, bytes))?;
        Ok(())
    }
}

/// The first `n` bytes, or all where there are fewer.
pub(crate) fn first_bytes(bytes: &[u8], n: usize) -> &[u8]
    ensures { result.now ≡ take n bytes.now }
{
    if n < bytes.len() { &bytes[..n] } else { bytes }
}
