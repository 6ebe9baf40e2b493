// Commands over a store of which one call fails, and over a sink that fails: what each of them leaves.
use crate::running::{Left, held, ran, words_of};
use crate::texts::{ONE, SKIP_OBJECT};
use crate::worked::CALLED;
use gos_outside::{Call, MemorySink, MemoryStore, SureSink};
use gos_tool::run;
use std::alloc::{AllocError, Global};
use std::test::Fail;

// A command: its words, the files that it is given, and the calls that it makes of the store, in their order.
struct Command {
    words: &'static [&'static str],
    files: &'static [(&'static [u8], &'static [u8])],
    calls: &'static [(Call, &'static [u8])],
}

const COMMANDS: [Command; 9] = [
    Command {
        words: &["build", "b.txt"],
        files: &[
            (b"b.txt", ONE),
            (b"main.gos", b"export skip : com"),
            (b"in.pls", b"cycles 1000\nnext 0 main.run\n"),
        ],
        calls: &[
            (Call::Read, b"b.txt"),
            (Call::Read, b"main.gos"),
            (Call::Write, b"main.obj"),
            (Call::Write, b"out.net"),
            (Call::Write, b"out.v"),
            (Call::Read, b"in.pls"),
            (Call::Write, b"out.trc"),
        ],
    },
    Command {
        words: &["build", "b.txt"],
        files: CALLED,
        calls: &[
            (Call::Read, b"b.txt"),
            (Call::Read, b"main.gos"),
            (Call::Write, b"main.obj"),
            (Call::Read, b"lib.gos"),
            (Call::Write, b"lib.obj"),
            (Call::Write, b"out.net"),
            (Call::Write, b"out.v"),
            (Call::Read, b"in.pls"),
            (Call::Write, b"out.trc"),
        ],
    },
    Command {
        words: &["compile", "a.gos", "a.obj"],
        files: &[(b"a.gos", b"export skip : com")],
        calls: &[(Call::Read, b"a.gos"), (Call::Write, b"a.obj")],
    },
    Command {
        words: &["link", "b.txt"],
        files: &[(b"b.txt", ONE), (b"main.obj", SKIP_OBJECT)],
        calls: &[
            (Call::Read, b"b.txt"),
            (Call::Read, b"main.obj"),
            (Call::Write, b"out.net"),
            (Call::Write, b"out.v"),
        ],
    },
    Command {
        words: &["sim", "a.net", "in.pls", "out.trc"],
        files: &[
            (
                b"a.net",
                b"gosnet 1\ncells 2\ninput 1\nreg 1 0\nports 1\ngive main com 0 1\nend\n",
            ),
            (b"in.pls", b"cycles 3\nnext 0 main.run\n"),
        ],
        calls: &[
            (Call::Read, b"a.net"),
            (Call::Read, b"in.pls"),
            (Call::Write, b"out.trc"),
        ],
    },
    Command {
        words: &["tidy", "a.net", "b.net"],
        files: &[(
            b"a.net",
            b"gosnet 1\ncells 2\ninput 1\nreg 1 0\nports 1\ngive main com 0 1\nend\n",
        )],
        calls: &[(Call::Read, b"a.net"), (Call::Write, b"b.net")],
    },
    Command {
        words: &["explain", "b.txt", "m.txt"],
        files: &[
            (b"b.txt", ONE),
            (b"main.gos", b"export skip : com"),
            (b"out.trc", b"0 main.run\n1 main.done\ncycles 2\n"),
        ],
        calls: &[
            (Call::Read, b"b.txt"),
            (Call::Read, b"main.gos"),
            (Call::Read, b"out.trc"),
            (Call::Write, b"m.txt"),
        ],
    },
    Command {
        words: &["verify", "b.txt", "m.txt"],
        files: &[
            (b"b.txt", ONE),
            (b"main.gos", b"export skip : com"),
            (b"out.trc", b"0 main.run\n1 main.done\ncycles 2\n"),
            (b"m.txt", b"gosmoves 1\nlines 2\nr\nr\nend\n"),
        ],
        calls: &[
            (Call::Read, b"b.txt"),
            (Call::Read, b"main.gos"),
            (Call::Read, b"out.trc"),
            (Call::Read, b"m.txt"),
        ],
    },
    Command {
        words: &["demo", "1"],
        files: &[],
        calls: &[
            (Call::Write, b"demo_main.gos"),
            (Call::Write, b"demo_twice.gos"),
            (Call::Write, b"demo_pass.gos"),
            (Call::Write, b"demo_pair.gos"),
            (Call::Write, b"demo_id.gos"),
            (Call::Write, b"demo.pls"),
            (Call::Write, b"demo.txt"),
            (Call::Read, b"demo.txt"),
            (Call::Read, b"demo_main.gos"),
            (Call::Write, b"demo_main.obj"),
            (Call::Read, b"demo_twice.gos"),
            (Call::Write, b"demo_l1.obj"),
            (Call::Read, b"demo_id.gos"),
            (Call::Write, b"demo_leaf.obj"),
            (Call::Write, b"demo.net"),
            (Call::Write, b"demo.v"),
            (Call::Read, b"demo.pls"),
            (Call::Write, b"demo.trc"),
        ],
    },
];

// What is in a file that is written by the call at this place, where another call fails: all that belongs there, the
// first half of it where it is the call itself that fails, and no file after that.
fn left(whole: Option<&[u8]>, place: usize, failing: usize) -> Option<&[u8]> {
    let bytes = whole?;
    if place < failing {
        return whole;
    }
    if place == failing {
        return bytes.get(..bytes.len() / 2);
    }
    None
}

// Whether a store has what is left where the call at this place fails, and the files that the command was given.
fn has_left(store: &MemoryStore, command: &Command, whole: &Left, failing: usize) -> bool {
    let mut right = true;
    for (name, bytes) in command.files {
        right = right && store.get(name) == Some(*bytes);
    }
    for (place, (call, name)) in command.calls.iter().enumerate() {
        if *call == Call::Write {
            right = right && store.get(name) == left(whole.file(name), place, failing);
        }
    }
    right
}

// Whether a command, of whose calls of the store the one at this place alone fails, ends and leaves what it should. There
// may be fewer calls, and then none fails.
fn ends_at(
    alloc: Global,
    command: &Command,
    whole: &Left,
    failing: usize,
) -> Result<bool, AllocError> {
    let number = (failing as u64).saturating_add(1);
    let mut store = MemoryStore::new(held(alloc, command.files)?, vec![in alloc; number]?);
    let mut out = SureSink::new(alloc);
    let words = words_of(alloc, command.words)?;
    let code = run(alloc, words.as_slice(), &mut store, &mut out).code();
    let told = match command.calls.get(failing) {
        Some((call, name)) => {
            code == 3 && out.bytes().is_empty() && store.last_fault() == Some((*call, *name))
        }
        None => code == 0 && whole.ended(0, out.bytes()),
    };
    Ok(told && has_left(&store, command, whole, failing))
}

#[test]
fn each_failing_call_is_told(rt: HostRuntime) -> Result<(), Fail> {
    for command in COMMANDS.iter() {
        let whole = ran(rt.alloc(), command.words, command.files)?;
        for failing in 0..command.calls.len() {
            assert!(rt; ends_at(rt.alloc(), command, &whole, failing)?);
        }
        assert!(rt; ends_at(rt.alloc(), command, &whole, command.calls.len())?);
    }
    Ok(())
}

// Whether a command whose line can't be printed leaves all its files.
fn ends_unsaid(alloc: Global, command: &Command) -> Result<bool, AllocError> {
    let whole = ran(alloc, command.words, command.files)?;
    let mut store = MemoryStore::new(held(alloc, command.files)?, Vec::new(alloc));
    let mut broken = MemorySink::new(alloc, vec![in alloc; 1]?);
    let words = words_of(alloc, command.words)?;
    let code = run(alloc, words.as_slice(), &mut store, &mut broken).code();
    Ok(code == 4 && has_left(&store, command, &whole, command.calls.len()))
}

#[test]
fn failing_line_is_told(rt: HostRuntime) -> Result<(), Fail> {
    for command in COMMANDS.iter() {
        assert!(rt; ends_unsaid(rt.alloc(), command)?);
    }
    Ok(())
}

#[test]
fn missing_source_is_told(rt: HostRuntime) -> Result<(), Fail> {
    let alloc = rt.alloc();
    let mut store = MemoryStore::new(Vec::new(alloc), Vec::new(alloc));
    let mut out = SureSink::new(alloc);
    let words = words_of(alloc, &["check", "none.gos"])?;
    let code = run(alloc, words.as_slice(), &mut store, &mut out).code();
    let name: &[u8] = b"none.gos";
    assert!(rt; code == 3 && out.bytes().is_empty());
    assert!(rt; store.last_fault() == Some((Call::Read, name)));
    Ok(())
}
