// Worked builds, and files that are refused.
use crate::rows::REJECTED;
use crate::running::{Left, cycles_of, ran};
use crate::texts::{ONE, SKIP_OBJECT, TWO, USAGE};
use crate::worked::{ENDLESS, ENTRIES, SEQUENCE, WORKED, Worked};
use std::alloc::{AllocError, Global};
use std::test::Fail;

/// A build of two instances with one source.
const TWICE: &[u8] =
    b"gosbuild 1\ninst main main.gos main.obj\ninst p k.gos p.obj\ninst q k.gos q.obj\nbind main a p\nbind main b q\nroot main\nnet out.net\nverilog out.v\npulses in.pls\ntrace out.trc\n";

const SOURCE: &[u8] = b"import c : com import d : com export c ; d : com";

const RUN: &[u8] = b"cycles 2000\nnext 0 main.run\n";

const BUILD: [&str; 2] = ["build", "b.txt"];

/// The files of the build `TWO`: those that it reads, and then those that it writes.
const FILES: [&[u8]; 9] = [
    b"b.txt",
    b"main.gos",
    b"k.gos",
    b"in.pls",
    b"main.obj",
    b"k.obj",
    b"out.net",
    b"out.v",
    b"out.trc",
];

// Runs `build b.txt` for a build of one instance.
fn built_alone<'a>(alloc: Global, source: &'a [u8], pulses: &'a [u8]) -> Result<Left, AllocError> {
    let files: [(&[u8], &[u8]); 3] = [(b"b.txt", ONE), (b"main.gos", source), (b"in.pls", pulses)];
    ran(alloc, &BUILD, &files)
}

// Runs it for a build of the sources `main` and `k`.
fn built_of_two(
    alloc: Global,
    build: &[u8],
    main: &[u8],
    k: &[u8],
    pulses: &[u8],
) -> Result<Left, AllocError> {
    let files: [(&[u8], &[u8]); 4] = [
        (b"b.txt", build),
        (b"main.gos", main),
        (b"k.gos", k),
        (b"in.pls", pulses),
    ];
    ran(alloc, &BUILD, &files)
}

// Runs it again over the files that it left.
fn built_again(alloc: Global, left: &Left) -> Result<Left, AllocError> {
    let mut files = Vec::new(alloc);
    for name in FILES.iter() {
        if let Some(bytes) = left.file(name) {
            files.push((*name, bytes))?;
        }
    }
    ran(alloc, &BUILD, files.as_slice())
}

// Whether there is a file of this name, and both hold the same.
fn is_same(name: &[u8], one: &Left, other: &Left) -> bool {
    match one.file(name) {
        Some(bytes) => other.holds(name, bytes),
        None => false,
    }
}

// Whether a build leaves its line, its trace from cycle 0 on and all its files.
fn is_built(alloc: Global, worked: &Worked) -> Result<bool, AllocError> {
    let left = ran(alloc, &BUILD, worked.files)?;
    let trace = left.file(b"out.trc").unwrap_or(b"");
    let traced = left.is_traced(alloc, worked.order.as_bytes())? && trace.starts_with(b"0 main.");
    let written = left.has(b"main.obj") && left.has(b"out.net") && left.has(b"out.v");
    Ok(left.ended(0, worked.line.as_bytes()) && traced && written)
}

#[test]
fn worked_builds_are_traced(rt: HostRuntime) -> Result<(), Fail> {
    for worked in WORKED.iter() {
        let line = worked.line;
        assert!(rt; is_built(rt.alloc(), worked)?, "not {line}");
    }
    Ok(())
}

// The cycles of an event in the trace of a build, a line each.
fn cycles(alloc: Global, left: &Left, event: &[u8]) -> Result<Vec<u8>, AllocError> {
    cycles_of(alloc, left.file(b"out.trc").unwrap_or(b""), event)
}

#[test]
fn answers_come_in_the_cycles_of_their_requests(rt: HostRuntime) -> Result<(), Fail> {
    let alloc = rt.alloc();
    let left = ran(alloc, &BUILD, SEQUENCE)?;
    let first = cycles(alloc, &left, b" c.run")?;
    assert!(rt; !first.is_empty());
    assert!(rt; cycles(alloc, &left, b" c.done")?.as_slice() == first.as_slice());
    let second = cycles(alloc, &left, b" d.run")?;
    assert!(rt; !second.is_empty());
    assert!(rt; cycles(alloc, &left, b" d.done")?.as_slice() == second.as_slice());
    Ok(())
}

// The first run begins in cycle 0, and each other one in the cycle in which the one before it ends.
#[test]
fn runs_follow_each_other_at_once(rt: HostRuntime) -> Result<(), Fail> {
    let alloc = rt.alloc();
    let left = ran(alloc, &BUILD, ENTRIES)?;
    let mut wanted = b"0\n".to_vec(alloc)?;
    wanted.extend_from_slice(cycles(alloc, &left, b" main.done")?.as_slice())?;
    let begun = cycles(alloc, &left, b" main.run")?;
    assert!(rt; begun.len() > 4 && wanted.starts_with(begun.as_slice()));
    Ok(())
}

// A netlist that never answers is accepted, and run again.
#[test]
fn netlist_of_an_endless_loop_is_run(rt: HostRuntime) -> Result<(), Fail> {
    let alloc = rt.alloc();
    let mut left = ran(alloc, &BUILD, ENDLESS)?;
    assert!(rt; left.holds(b"out.trc", b"0 main.run\ncycles 10000\n"));
    left.goes_on(alloc, &["sim", "out.net", "in.pls", "again.trc"])?;
    assert!(rt; left.ended(0, b"ok cycles 10000 pulses 1 unused 0\n"));
    assert!(rt; left.holds(b"again.trc", b"0 main.run\ncycles 10000\n"));
    Ok(())
}

// Nothing is written of a source that is refused.
#[test]
fn rejected_sources_are_not_built(rt: HostRuntime) -> Result<(), Fail> {
    for (source, line) in REJECTED.iter() {
        let left = built_alone(rt.alloc(), source.as_bytes(), RUN)?;
        assert!(rt; left.ended(2, line.as_bytes()) && !left.has(b"main.obj"));
    }
    Ok(())
}

#[test]
fn instances_are_compiled_and_linked(rt: HostRuntime) -> Result<(), Fail> {
    let main = b"import e : com export e : com";
    let two = built_of_two(rt.alloc(), TWO, main, b"export skip : com", RUN)?;
    assert!(rt; two.ended(0, b"ok weight 11 cycles 2000 pulses 2 unused 0\n"));
    assert!(rt; two.holds(b"k.obj", SKIP_OBJECT));
    Ok(())
}

#[test]
fn second_build_in_one_folder_writes_the_same(rt: HostRuntime) -> Result<(), Fail> {
    let main = b"import e : com export e : com";
    let first = built_of_two(rt.alloc(), TWO, main, b"export skip : com", RUN)?;
    let second = built_again(rt.alloc(), &first)?;
    assert!(rt; first.has_code(0));
    assert!(rt; second.ended(0, b"ok weight 11 cycles 2000 pulses 2 unused 0\n"));
    for name in FILES.iter() {
        assert!(rt; is_same(name, &first, &second));
    }
    Ok(())
}

#[test]
fn instances_of_one_source_are_compiled_and_linked(rt: HostRuntime) -> Result<(), Fail> {
    let main = b"import a : com import b : com export a ; b : com";
    let twice = built_of_two(rt.alloc(), TWICE, main, b"export skip : com", RUN)?;
    assert!(rt; twice.ended(0, b"ok weight 27 cycles 2000 pulses 2 unused 0\n"));
    assert!(rt; twice.holds(b"p.obj", SKIP_OBJECT) && twice.holds(b"q.obj", SKIP_OBJECT));
    Ok(())
}

// Sources of `main` and `k`, the line that each build prints, and whether both objects are written.
const LATER: [(&str, &str, &str, bool); 4] = [
    (
        "import e : com export e : com",
        "",
        "k.gos: S1 at 0\n",
        false,
    ),
    (
        "import e : com export e : com",
        "export fun a : com . a : com -> com",
        "b.txt: B4 line 4 want com got com -> com\n",
        true,
    ),
    (
        "import e : exp 4 export e : exp 4",
        "export 3:8 : exp 8",
        "b.txt: B4 line 4 want exp 4 got exp 8\n",
        true,
    ),
    (
        "import a : com export a : com",
        "export skip : com",
        "b.txt: B3 line 4 e\n",
        true,
    ),
];

// Whether the build of these sources is rejected with this line, after one or all of its objects.
fn is_rejected(
    alloc: Global,
    main: &str,
    k: &str,
    line: &str,
    all: bool,
) -> Result<bool, AllocError> {
    let left = built_of_two(alloc, TWO, main.as_bytes(), k.as_bytes(), RUN)?;
    let objects = left.has(b"main.obj") && left.has(b"k.obj") == all;
    Ok(left.ended(2, line.as_bytes()) && objects && !left.has(b"out.net"))
}

// The first fault is told, and what is written before it stays.
#[test]
fn later_files_are_rejected(rt: HostRuntime) -> Result<(), Fail> {
    for (main, k, line, all) in LATER.iter() {
        assert!(rt; is_rejected(rt.alloc(), main, k, line, *all)?);
    }
    Ok(())
}

// A build whose objects are written and can't be linked: the lines of its instances and bindings, the source of `main` and the one of
// the others, the objects, and the line that it prints.
struct Unlinked {
    lines: &'static str,
    main: &'static [u8],
    other: &'static [u8],
    objects: &'static [&'static [u8]],
    line: &'static str,
}

const PAIR: &[u8] = b"import a : com import b : com export a ; b : com";

const UNLINKED: [Unlinked; 8] = [
    Unlinked {
        lines: "inst k k.gos k.obj\nbind other a k\n",
        main: PAIR,
        other: b"export skip : com",
        objects: &[b"main.obj", b"k.obj"],
        line: "b.txt: B2 line 4 other\n",
    },
    Unlinked {
        lines: "inst k k.gos k.obj\nbind main z k\n",
        main: PAIR,
        other: b"export skip : com",
        objects: &[b"main.obj", b"k.obj"],
        line: "b.txt: B3 line 4 z\n",
    },
    Unlinked {
        lines: "inst k k.gos k.obj\nbind main a k\nbind main a k\n",
        main: PAIR,
        other: b"export skip : com",
        objects: &[b"main.obj", b"k.obj"],
        line: "b.txt: B5 lines 4 and 5\n",
    },
    Unlinked {
        lines: "inst k k.gos k.obj\nbind main a k\nbind main b k\n",
        main: PAIR,
        other: b"export skip : com",
        objects: &[b"main.obj", b"k.obj"],
        line: "b.txt: B6 lines 4 and 5\n",
    },
    Unlinked {
        lines: "inst p k.gos p.obj\ninst q k.gos q.obj\nbind p g q\nbind q g p\n",
        main: b"import f : com -> com export f skip : com",
        other: b"import g : com -> com export g : com -> com",
        objects: &[b"main.obj", b"p.obj", b"q.obj"],
        line: "b.txt: B7 line 6\n",
    },
    Unlinked {
        lines: "inst k k.gos k.obj\n",
        main: PAIR,
        other: b"export skip : com",
        objects: &[b"main.obj", b"k.obj"],
        line: "b.txt: B8 k\n",
    },
    Unlinked {
        lines: "inst k k.gos k.obj\nbind main b k\n",
        main: PAIR,
        other: b"import a : com export a : com",
        objects: &[b"main.obj", b"k.obj"],
        line: "b.txt: B9 a in main and k\n",
    },
    Unlinked {
        lines: "",
        main: b"import f : com -> com import v : var 8 export f (v := 1:8) ; f (v := 2:8) : com",
        other: b"",
        objects: &[b"main.obj"],
        line: "b.txt: B10 f\n",
    },
];

// Whether this is the end of such a build: its objects are written, and no netlist.
fn is_unlinked(alloc: Global, unlinked: &Unlinked) -> Result<bool, AllocError> {
    let lines = unlinked.lines;
    let build = format!(in alloc;
        "gosbuild 1\ninst main main.gos main.obj\n{lines}root main\nnet out.net\nverilog out.v\npulses in.pls\ntrace out.trc\n"
    )?;
    let left = built_of_two(alloc, build.as_bytes(), unlinked.main, unlinked.other, RUN)?;
    let mut written = true;
    for object in unlinked.objects {
        written = written && left.has(object);
    }
    Ok(left.ended(2, unlinked.line.as_bytes()) && written && !left.has(b"out.net"))
}

#[test]
fn objects_that_cannot_be_linked_are_written(rt: HostRuntime) -> Result<(), Fail> {
    for unlinked in UNLINKED.iter() {
        let line = unlinked.line;
        assert!(rt; is_unlinked(rt.alloc(), unlinked)?, "not {line}");
    }
    Ok(())
}

// Pulse files, and the line that each is told.
const PULSE_FILES: [(&str, &str); 2] = [
    (
        "cycles 100\nat 0 c.done\n",
        "in.pls: P5 c.done at cycle 0\n",
    ),
    ("cycles 9\n\nnext 0 e.done\n", "in.pls: P2 line 3\n"),
];

// Whether a build under these pulses prints this line and leaves all its files but the trace.
fn is_told(alloc: Global, pulses: &str, line: &str) -> Result<bool, AllocError> {
    let left = built_alone(alloc, SOURCE, pulses.as_bytes())?;
    let written = left.has(b"main.obj") && left.has(b"out.net") && left.has(b"out.v");
    Ok(left.ended(2, line.as_bytes()) && written && !left.has(b"out.trc"))
}

#[test]
fn pulse_files_are_told(rt: HostRuntime) -> Result<(), Fail> {
    for (pulses, line) in PULSE_FILES.iter() {
        assert!(rt; is_told(rt.alloc(), pulses, line)?);
    }
    Ok(())
}

#[test]
fn build_file_is_told_by_its_line(rt: HostRuntime) -> Result<(), Fail> {
    let files: [(&[u8], &[u8]); 2] = [(b"b.txt", b""), (b"in.pls", RUN)];
    let empty = ran(rt.alloc(), &BUILD, &files)?;
    assert!(rt; empty.ended(2, b"b.txt: B1 line 1\n"));
    Ok(())
}

#[test]
fn no_words_are_answered_with_the_usage(rt: HostRuntime) -> Result<(), Fail> {
    let left = ran(rt.alloc(), &[], &[])?;
    assert!(rt; left.ended(1, USAGE));
    Ok(())
}
