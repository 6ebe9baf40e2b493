// The store of the program: the files of the system.
//
// It tells no contents. What a file of the system holds, and what another process does to it, is not ours to say.
ghost use Rattle.std.specs.Prelude.{◌≡◌, ◌≤◌, length, take, IfOk, IfSome, OnOk};
ghost use Rattle.std.specs.Io.KnownBytes.{Appends, Consumes};
ghost use Rattle.gos_outside.specs.FileName.{IsFileName};
ghost use Rattle.gos_outside.specs.Faults.{NoFault};

use gos_outside::{FaultLog, Store, StoreFault};
use std::alloc::{AllocError, Global};
use std::io::{ErrorKind, Read, Write};
use std::marker::Model;
use std::rt::Files;
use std::{fs, io, str};

/// How many bytes one read of a file asks for.
const CHUNK: usize = 8192;

/// The files of the system, by their paths. A read of a file that is missing fails.
pub struct FileStore<'a, R: Files> {
    rt: &'a R,
    log: FaultLog,
}

impl<'a, R: Files> Model for FileStore<'a, R> {
    ghost use Rattle.std.specs.Prelude.{ℕ};
    ghost use Rattle.gos_outside.specs.Faults.{LastFault};

    ghost Value = { ℕ × LastFault };

    ghost view = { λ store. store.log };
}

impl<'a, R: Files> Drop for FileStore<'a, R> {
    fn drop(self) {
        let FileStore { rt: _, log: _ } = self;
    }
}

impl<'a, R: Files> FileStore<'a, R> {
    /// The files that `rt` reaches; no call has failed.
    pub fn new(rt: &'a R) -> Self
        ensures faults { result.0 ≡ 0 }
        ensures last_fault { result.1 ≡ NoFault }
    {
        FileStore {
            rt,
            log: FaultLog::new(),
        }
    }

    /// How many calls have failed.
    pub fn faults(&self) -> u64
        ensures { result ≡ self.now.0 }
    {
        self.log.count()
    }
}

impl<'a, R: Files> Store for FileStore<'a, R> {
    ghost use Rattle.std.specs.Prelude.{None};

    ghost faults = { λ store. store.0 };

    ghost last_fault = { λ store. store.1 };

    ghost contents = { λ _. None };

    ghost calls = { λ _. None };

    fn read_up_to(&mut self, alloc: Global, name: &[u8], n: usize) -> Result<Vec<u8>, StoreFault> {
        match read_file(self.rt, alloc, name, n) {
            Ok(bytes) => Ok(bytes),
            Err(Trouble::System) => {
                self.log.read_failed(name);
                Err(StoreFault::Failed)
            }
            Err(Trouble::NoMemory) => Err(StoreFault::NoMemory),
        }
    }

    fn write(&mut self, _alloc: Global, name: &[u8], bytes: &[u8]) -> Result<(), StoreFault> {
        match write_file(self.rt, name, bytes) {
            Ok(()) => Ok(()),
            Err(Trouble::System) => {
                self.log.write_failed(name);
                Err(StoreFault::Failed)
            }
            Err(Trouble::NoMemory) => Err(StoreFault::NoMemory),
        }
    }
}

/// Why a file could not be read or written.
#[derive(Drop)]
enum Trouble {
    System,
    NoMemory,
}

// What the system wants memory for is want of memory, and all else a failure.
impl From<io::Error> for Trouble {
    ghost use Rattle.std.specs.Prelude.{◌≡◌, ◌↔◌};
    ghost use Rattle.std.specs.IoError.{error_kind};
    ghost use Rattle.std.specs.declared.io.ErrorKind.TheVariants.{OutOfMemory};
    ghost use Rattle.gos_system.specs.declared.file_store.Trouble.TheVariants.{NoMemory};

    ghost from_gives = { λ error trouble. (trouble ≡ NoMemory) ↔ (error_kind error ≡ OutOfMemory) };

    fn from(e: io::Error) -> Trouble {
        if e.kind() == ErrorKind::OutOfMemory {
            Trouble::NoMemory
        } else {
            Trouble::System
        }
    }
}

impl From<AllocError> for Trouble {
    ghost use Rattle.std.specs.Prelude.{◌≡◌};
    ghost use Rattle.gos_system.specs.declared.file_store.Trouble.TheVariants.{NoMemory};

    ghost from_gives = { λ _ trouble. trouble ≡ NoMemory };

    fn from(_e: AllocError) -> Trouble {
        Trouble::NoMemory
    }
}

/// The first `n` bytes of a file, or all of it where it is shorter.
fn read_file<R: Files>(rt: &R, alloc: Global, name: &[u8], n: usize) -> Result<Vec<u8>, Trouble>
    requires { IsFileName name.now }
    ensures { IfOk result (λ bytes. length bytes.items ≤ n) }
{
    let mut file = fs::open(rt, path_of(name))?;
    read_first(&mut file, alloc, n)
}

/// The first `n` bytes that a reader gives, in however many pieces, or all where they are fewer. It takes no others.
fn read_first<F: Read>(file: &mut F, alloc: Global, n: usize) -> Result<Vec<u8>, Trouble>
    ensures limit { IfOk result (λ bytes. length bytes.items ≤ n) }
    // Of a reader whose bytes are known.
    ensures bytes { IfOk result (λ bytes. IfSome (F.remaining file.old) (λ all. bytes.items ≡ take n all)) }
    ensures no_others { IfOk result (λ bytes. Consumes (F.remaining file.old) (F.remaining file.new) bytes.items) }
{
    let mut bytes = Vec::new(alloc);
    let mut chunk = [0; CHUNK];
    let mut room = n;
    // Where no room is left, the read is of nothing, and ends the loop.
    for _ in 0..u64::MAX {
        let want = room.min(CHUNK);
        let part = &mut chunk[..want];
        match file.read(part) {
            Ok(0) => return Ok(bytes),
            Ok(got) => {
                bytes.extend_from_slice(&part[..got])?;
                room -= got;
            }
            Err(e) if e.kind() == ErrorKind::Interrupted => {}
            Err(e) => return Err(e.into()),
        }
    }
    Err(Trouble::System)
}

/// Makes a file hold these bytes. Once it is opened, whatever goes wrong is a failure of the system: the file may hold anything then,
/// and want of memory would have left it as it was.
fn write_file<R: Files>(rt: &R, name: &[u8], bytes: &[u8]) -> Result<(), Trouble>
    requires { IsFileName name.now }
{
    let mut file = fs::create(rt, path_of(name))?;
    match write_whole(&mut file, bytes) {
        Ok(()) => Ok(()),
        Err(_) => Err(Trouble::System),
    }
}

/// Writes all of these bytes to a writer, in however many pieces, and no others.
fn write_whole<F: Write>(file: &mut F, bytes: &[u8]) -> io::Result<()>
    // To a writer whose bytes are known.
    ensures { OnOk result (Appends (F.contents file.old) (F.contents file.new) bytes.now) }
{
    file.write_all(bytes)
}

/// A file's name as a path: its bytes are always text.
#[tactic(auto, using(crate::proofs::PathLemmas::file_name_is_text))]
fn path_of(name: &[u8]) -> &str
    requires { IsFileName name.now }
    ensures { result.now ≡ name.now }
{
    str::from_utf8(name).unwrap()
}

#[cfg(test)]
mod tests {
    use super::*;
    use gos_outside::is_file_name;
    use std::test::Fail;

    #[test]
    fn a_file_is_written_and_read_back(rt: HostRuntime) -> Result<(), Fail> {
        let alloc = rt.alloc();
        let mut store = FileStore::new(&rt);
        let name = b"file_store_test.txt".as_slice();
        assert!(rt; is_file_name(name));
        store.write(alloc, name, b"ok weight 17\n")?;
        let whole = store.read_up_to(alloc, name, 100)?;
        assert_eq!(rt; whole.as_slice(), b"ok weight 17\n".as_slice());
        let start = store.read_up_to(alloc, name, 9)?;
        assert_eq!(rt; start.as_slice(), b"ok weight".as_slice());
        assert_eq!(rt; store.faults(), 0);
        fs::remove_file(&rt, "file_store_test.txt")?;
        assert!(rt; matches!(store.read_up_to(alloc, name, 100), Err(StoreFault::Failed)));
        assert_eq!(rt; store.faults(), 1);
        Ok(())
    }

    #[test]
    fn a_million_bytes_are_written_and_read_back(rt: HostRuntime) -> Result<(), Fail> {
        let alloc = rt.alloc();
        let mut store = FileStore::new(&rt);
        let name = b"file_store_long.txt".as_slice();
        assert!(rt; is_file_name(name));
        let mut text = Vec::new(alloc);
        for number in 0..1_000_000u32 {
            text.push((number % 251) as u8)?;
        }
        store.write(alloc, name, text.as_slice())?;
        let whole = store.read_up_to(alloc, name, 1_000_001)?;
        assert!(rt; whole.as_slice() == text.as_slice());
        fs::remove_file(&rt, "file_store_long.txt")?;
        Ok(())
    }

    /// A reader that is refused, with an error of this kind.
    #[derive(Drop)]
    struct Refused(ErrorKind);

    impl Read for Refused {
        fn read(&mut self, _part: &mut [u8]) -> io::Result<usize> {
            Err(io::Error::from(self.0))
        }
    }

    #[test]
    fn what_wants_memory_has_not_failed(rt: HostRuntime) -> Result<(), Fail> {
        let alloc = rt.alloc();
        let mut wanting = Refused(ErrorKind::OutOfMemory);
        assert!(rt; matches!(read_first(&mut wanting, alloc, 100), Err(Trouble::NoMemory)));
        let mut denied = Refused(ErrorKind::PermissionDenied);
        assert!(rt; matches!(read_first(&mut denied, alloc, 100), Err(Trouble::System)));
        Ok(())
    }

    #[test]
    fn what_the_system_refuses_has_failed(rt: HostRuntime) -> Result<(), Fail> {
        let alloc = rt.alloc();
        let mut store = FileStore::new(&rt);
        let folder = b".".as_slice();
        let full = b"/dev/full".as_slice();
        assert!(rt; is_file_name(folder));
        assert!(rt; is_file_name(full));
        assert!(rt;
            matches!(
                store.read_up_to(alloc, folder, 100),
                Err(StoreFault::Failed)
            )
        );
        assert_eq!(rt; store.faults(), 1);
        assert!(rt; matches!(store.write(alloc, folder, b"lost"), Err(StoreFault::Failed)));
        assert_eq!(rt; store.faults(), 2);
        assert!(rt; matches!(store.write(alloc, full, b"lost"), Err(StoreFault::Failed)));
        assert_eq!(rt; store.faults(), 3);
        Ok(())
    }
}
