// A store that records its calls, and a sink that counts its writes: what `run` asks of each is told by its contract.
ghost use Rattle.std.specs.Prelude.{◌≡◌, [], length};
ghost use Rattle.gos_tool_tests.specs.inner.Recorded.{made_calls};

use crate::running::{held, words_of};
use gos_outside::{Sink, SinkFault, Store, StoreFault, SureStore};
use gos_tool::run;
use std::alloc::{AllocError, Global};
use std::marker::Model;
use std::test::Fail;

/// Files in memory, and the calls so far: the name of a file, and how many bytes were asked for where it was read.
#[derive(Drop)]
struct RecordingStore {
    files: SureStore,
    calls: Vec<(Vec<u8>, Option<usize>)>,
}

impl Model for RecordingStore {
    ghost use Rattle.std.specs.Prelude.{List};
    ghost use Rattle.gos_outside.specs.Calls.{MadeCall};
    ghost use Rattle.gos_tool_tests.specs.inner.Recorded.{made_calls};

    ghost Value = { List MadeCall };

    ghost view = { λ store. made_calls store.calls.items };
}

impl Store for RecordingStore {
    ghost use Rattle.std.specs.Prelude.{None, Some};
    ghost use Rattle.gos_outside.specs.Faults.{NoFault};

    ghost faults = { λ _. 0 };

    ghost last_fault = { λ _. NoFault };

    ghost contents = { λ _. None };

    ghost calls = { λ store. Some store };

    fn read_up_to(&mut self, alloc: Global, name: &[u8], n: usize) -> Result<Vec<u8>, StoreFault> {
        self.calls.push((name.to_vec(alloc)?, Some(n)))?;
        match self.files.read_up_to(alloc, name, n) {
            Ok(bytes) => Ok(bytes),
            Err(_) => Err(StoreFault::NoMemory),
        }
    }

    fn write(&mut self, alloc: Global, name: &[u8], bytes: &[u8]) -> Result<(), StoreFault> {
        self.calls.push((name.to_vec(alloc)?, None))?;
        match self.files.write(alloc, name, bytes) {
            Ok(()) => Ok(()),
            Err(_) => Err(StoreFault::NoMemory),
        }
    }
}

/// The lines that were written, one a write.
#[derive(Drop)]
struct CountingSink {
    lines: Vec<Vec<u8>>,
}

impl Model for CountingSink {
    ghost use Rattle.std.specs.Prelude.{ℕ, length};

    ghost Value = { ℕ };

    ghost view = { λ sink. length sink.lines.items };
}

impl Sink for CountingSink {
    ghost use Rattle.std.specs.Prelude.{None, Some};

    ghost faults = { λ _. 0 };

    ghost written = { λ _. None };

    ghost writes = { λ sink. Some sink };

    fn write(&mut self, alloc: Global, bytes: &[u8]) -> Result<(), SinkFault> {
        self.lines.push(bytes.to_vec(alloc)?)?;
        Ok(())
    }
}

// The calls of a command, a line each: `r NAME COUNT` for a read, `w NAME` for a write.
fn calls_of(alloc: Global, store: &RecordingStore) -> Result<Vec<u8>, AllocError> {
    let mut lines = Vec::new(alloc);
    for (name, most) in &store.calls {
        match most {
            Some(count) => {
                lines.extend_from_slice(b"r ")?;
                lines.extend_from_slice(name.as_slice())?;
                lines.push(b' ')?;
                lines.extend_from_slice(count.to_string(alloc)?.as_bytes())?;
            }
            None => {
                lines.extend_from_slice(b"w ")?;
                lines.extend_from_slice(name.as_slice())?;
            }
        }
        lines.push(b'\n')?;
    }
    Ok(lines)
}

// Whether a command over these files ends with this status, by these calls and one write.
fn is_asked(
    alloc: Global,
    words: &[&str],
    files: &[(&[u8], &[u8])],
    code: u8,
    calls: &str,
) -> Result<bool, AllocError> {
    let words = words_of(alloc, words)?;
    let files = SureStore::new(held(alloc, files)?);
    let mut store = RecordingStore {
        files,
        calls: Vec::new(alloc),
    };
    let mut out = CountingSink {
        lines: Vec::new(alloc),
    };
    let ended = run(alloc, words.as_slice(), &mut store, &mut out).code();
    let asked = calls_of(alloc, &store)?;
    Ok(ended == code && out.lines.len() == 1 && asked.as_slice() == calls.as_bytes())
}

const SOURCE: (&[u8], &[u8]) = (b"a.gos", b"import c : com export c ; c : com\n");

const BUILD: (&[u8], &[u8]) = (
    b"b.txt",
    b"gosbuild 1\ninst a a.gos a.obj\nroot a\nnet a.net\nverilog a.v\npulses in.pls\ntrace out.trc\n",
);

const PULSES: (&[u8], &[u8]) = (b"in.pls", b"cycles 9\n");

#[test]
fn each_file_is_read_by_one_call_of_its_limit_and_one_byte_more(
    rt: HostRuntime,
) -> Result<(), Fail> {
    let alloc = rt.alloc();
    let source = "r a.gos 65537\n";
    assert!(rt; is_asked(alloc, &["check", "a.gos"], &[SOURCE], 0, source)?);
    let built =
        "r b.txt 65537\nr a.gos 65537\nw a.obj\nw a.net\nw a.v\nr in.pls 16777217\nw out.trc\n";
    assert!(rt;
        is_asked(
            alloc,
            &["build", "b.txt"],
            &[SOURCE, BUILD, PULSES],
            0,
            built
        )?
    );
    let linked = "r b.txt 65537\nr a.obj 4194305\n";
    assert!(rt; is_asked(alloc, &["link", "b.txt"], &[BUILD], 2, linked)?);
    let simulated = "r a.net 268435457\n";
    assert!(rt;
        is_asked(
            alloc,
            &["sim", "a.net", "in.pls", "out.trc"],
            &[PULSES],
            2,
            simulated
        )?
    );
    Ok(())
}
