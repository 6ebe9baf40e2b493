// Worked rows of the commands `check`, `compile` and `sim`: files, and what is printed.
use crate::running::{Left, ran};
use crate::texts::{ONE, SKIP_OBJECT, USAGE};
use std::alloc::{AllocError, Global};
use std::test::Fail;

/// An accepted netlist: `done` follows `run`, and stays.
const NET: &[u8] =
    b"gosnet 1\ncells 4\ninput 1\nor 1 0 2\nreg 1 1\nreg 1 1\nports 1\ngive main com 0 3\nend\n";

/// Three cycles, of which the first runs `main`.
const RUN: &[u8] = b"cycles 3\nnext 0 main.run\n";

/// The trace of the netlist under these.
const TRACE: &[u8] = b"0 main.run\n1 main.done\n2 main.done\ncycles 3\n";

/// The trace under a second run in the second cycle.
const TRACE_OF_TWO: &[u8] = b"0 main.run\n1 main.done\n1 main.run\n2 main.done\ncycles 3\n";

// Runs `check` over this source.
fn checked(alloc: Global, source: &[u8]) -> Result<Left, AllocError> {
    let files: [(&[u8], &[u8]); 1] = [(b"main.gos", source)];
    ran(alloc, &["check", "main.gos"], &files)
}

// Runs `sim` over this netlist and this pulse file.
fn simulated(alloc: Global, net: &[u8], pulses: &[u8]) -> Result<Left, AllocError> {
    let files: [(&[u8], &[u8]); 2] = [(b"a.net", net), (b"in.pls", pulses)];
    ran(alloc, &["sim", "a.net", "in.pls", "out.trc"], &files)
}

// Sources, and the line that each is told.
const WEIGHTS: [(&str, &str); 9] = [
    (
        "import c : com import d : com export c ; d : com\n",
        "ok weight 17\n",
    ),
    (
        "import c : com import d : com export c ; d ; c : com",
        "ok weight 27\n",
    ),
    (
        "import f : com -> com import v : var 8 export f (v := 1:8) ; f (v := 2:8) : com",
        "ok weight 63\n",
    ),
    ("export fun a : com . a ; a : com -> com", "ok weight 21\n"),
    (
        "import e : exp 8 export (fun x : exp 8 . x + x) e : exp 8",
        "ok weight 32\n",
    ),
    (
        "import c : com export new x : 1 in while !x = 0:1 do (x := 1:1 ; c) : com",
        "ok weight 58\n",
    ),
    (
        "import v : var 8 export v := !v + 1:8 : com",
        "ok weight 34\n",
    ),
    (
        "import rep : exp 8 -> com -> com import tick : com import phase_a : com import phase_b : com import size : exp 8 export rep size (phase_a ; phase_b ; tick) : com",
        "ok weight 55\n",
    ),
    (
        "export fun n : exp 8 . fun b : com . new i : 8 in (i := n ; while not (!i = 0:8) do (b ; i := !i - 1:8)) : exp 8 -> com -> com",
        "ok weight 112\n",
    ),
];

#[test]
fn sources_have_these_weights(rt: HostRuntime) -> Result<(), Fail> {
    for (source, line) in WEIGHTS.iter() {
        let left = checked(rt.alloc(), source.as_bytes())?;
        assert!(rt; left.ended(0, line.as_bytes()));
    }
    Ok(())
}

/// Sources that are rejected, and the line that each is told.
pub const REJECTED: [(&str, &str); 10] = [
    (
        "import c : com export c || c : com",
        "main.gos: C5 c at 22..23 and 27..28\n",
    ),
    (
        "import f : com -> com export f (f skip) : com",
        "main.gos: C5 f at 29..30 and 32..33\n",
    ),
    (
        "export 32:5 : exp 5",
        "main.gos: C6 at 7..11 width 5 value 32\n",
    ),
    (
        "export 1:65 : exp 1",
        "main.gos: C6 at 7..11 width 65 value 0\n",
    ),
    (
        "export skip : exp 5",
        "main.gos: C2 at 7..11 want exp 5 got com\n",
    ),
    (
        "export new a[3] : 8 in skip : com",
        "main.gos: C10 at 13..14 length 3\n",
    ),
    ("?", "main.gos: L2 byte at 0\n"),
    (
        "export 18446744073709551616:64 : exp 64",
        "main.gos: L3 number at 7\n",
    ),
    ("", "main.gos: S1 at 0\n"),
    ("import f : com ->", "main.gos: S1 at 17\n"),
];

#[test]
fn sources_are_rejected(rt: HostRuntime) -> Result<(), Fail> {
    for (source, line) in REJECTED.iter() {
        let left = checked(rt.alloc(), source.as_bytes())?;
        assert!(rt; left.ended(2, line.as_bytes()));
    }
    Ok(())
}

// `export`, and behind it more opening brackets than the parser takes.
fn nested(alloc: Global) -> Result<Vec<u8>, AllocError> {
    let mut source = b"export ".to_vec(alloc)?;
    source.resize(1107, b'(')?;
    Ok(source)
}

#[test]
fn source_that_is_too_deep_is_rejected(rt: HostRuntime) -> Result<(), Fail> {
    let deep = checked(rt.alloc(), &nested(rt.alloc())?)?;
    assert!(rt; deep.ended(2, b"main.gos: S2 depth at 1031\n"));
    Ok(())
}

// Runs `compile` over this source.
fn compiled(alloc: Global, source: &[u8]) -> Result<Left, AllocError> {
    let files: [(&[u8], &[u8]); 1] = [(b"main.gos", source)];
    ran(alloc, &["compile", "main.gos", "main.obj"], &files)
}

#[test]
fn source_is_compiled(rt: HostRuntime) -> Result<(), Fail> {
    let skip = compiled(rt.alloc(), b"export skip : com")?;
    assert!(rt; skip.ended(0, b"ok weight 5\n") && skip.holds(b"main.obj", SKIP_OBJECT));
    Ok(())
}

#[test]
fn rejected_source_is_not_compiled(rt: HostRuntime) -> Result<(), Fail> {
    let shared = compiled(rt.alloc(), b"import c : com export c || c : com")?;
    assert!(rt; shared.ended(2, b"main.gos: C5 c at 22..23 and 27..28\n"));
    assert!(rt; !shared.has(b"main.obj"));
    Ok(())
}

// `export skip : com` with spaces up to this length.
fn spaced(alloc: Global, length: usize) -> Result<Vec<u8>, AllocError> {
    let mut source = b"export skip : com".to_vec(alloc)?;
    source.resize(length, b' ')?;
    Ok(source)
}

#[test]
fn sources_keep_their_limits(rt: HostRuntime) -> Result<(), Fail> {
    let longest = checked(rt.alloc(), &spaced(rt.alloc(), 65_536)?)?;
    assert!(rt; longest.printed(b"ok weight 5\n"));
    let longer = checked(rt.alloc(), &spaced(rt.alloc(), 65_537)?)?;
    assert!(rt; longer.printed(b"main.gos: L1 length 65537\n"));
    Ok(())
}

// Pulse files, the line that each is told, and the trace.
const RUNS: [(&str, &str, &[u8]); 3] = [
    (
        "cycles 3\nnext 0 main.run\n",
        "ok cycles 3 pulses 3 unused 0\n",
        TRACE,
    ),
    (
        "cycles 3\nnext 0 main.run\nnext 3 main.run\n",
        "ok cycles 3 pulses 3 unused 1\n",
        TRACE,
    ),
    (
        "cycles 3\nat 0 main.run\nat 1 main.run\n",
        "ok cycles 3 pulses 4 unused 0\n",
        TRACE_OF_TWO,
    ),
];

#[test]
fn netlists_are_run(rt: HostRuntime) -> Result<(), Fail> {
    for (pulses, line, trace) in RUNS.iter() {
        let left = simulated(rt.alloc(), NET, pulses.as_bytes())?;
        assert!(rt; left.ended(0, line.as_bytes()) && left.holds(b"out.trc", trace));
    }
    Ok(())
}

// Netlists that are rejected, and the line that each is told.
const NETLISTS: [(&str, &str); 13] = [
    (
        "gosnet 1\ncells 4\ninput 1\nor 1 0 2\nand 1 1 0\nreg 1 1\nports 1\ngive main com 0 3\nend\n",
        "a.net: K1 cycle 1 2\n",
    ),
    (
        "gosnet 1\ncells 5000001\ninput 1\nor 1 0 2\nreg 1 1\nreg 1 1\nports 1\ngive main com 0 3\nend\n",
        "a.net: N2 limit at 15\n",
    ),
    (
        "gosnet 1\ncells 4\ninput 1\nor 1 0 2\nreg 1 1\nreg 1 1\nports 65537\ngive main com 0 3\nend\n",
        "a.net: N2 limit at 56\n",
    ),
    (
        "gosnet 1\ncells 4\ninput 1\nconst 1 2\nreg 1 1\nreg 1 1\nports 1\ngive main com 0 3\nend\n",
        "a.net: N1 at 33\n",
    ),
    (
        "gosnet 1\ncells 4\ninput 65\nor 1 0 2\nreg 1 1\nreg 1 1\nports 1\ngive main com 0 3\nend\n",
        "a.net: N1 at 24\n",
    ),
    (
        "gosnet 1\ncells 4\ninput 1\nor 1 0 4\nreg 1 1\nreg 1 1\nports 1\ngive main com 0 3\nend\n",
        "a.net: K3 cell 1\n",
    ),
    (
        "gosnet 1\ncells 4\ninput 1\nor 2 0 2\nreg 1 1\nreg 1 1\nports 1\ngive main com 0 3\nend\n",
        "a.net: K2 cell 1\n",
    ),
    (
        "gosnet 1\ncells 4\ninput 1\nor 1 0 1\nreg 1 1\nreg 1 1\nports 1\ngive main com 0 3\nend\n",
        "a.net: K1 cycle 1\n",
    ),
    (
        "gosnet 1\ncells 4\ninput 1\nmux 1 0 2 0\ngate 1 1 0\nreg 1 1\nports 1\ngive main com 0 3\nend\n",
        "a.net: K1 cycle 1 2\n",
    ),
    (
        "gosnet 1\ncells 4\ninput 1\nor 1 0 2\ninput 1\nreg 1 1\nports 1\ngive main com 0 3\nend\n",
        "a.net: K4 port 1\n",
    ),
    (
        "gosnet 1\ncells 4\ninput 1\nor 1 0 2\nreg 1 1\nreg 1 1\nports 1\ngive main com 0 1\nend\n",
        "a.net: K4 port 0\n",
    ),
    (
        "gosnet 1\ncells 4\ninput 1\nor 1 0 2\nreg 1 1\nreg 1 1\nports 1\ngive main com 3 3\nend\n",
        "a.net: K4 port 0\n",
    ),
    (
        "gosnet 1\ncells 4\ninput 1\nor 1 0 2\nreg 1 1\nreg 1 1\nports 0\nend\n",
        "a.net: K4 port 0\n",
    ),
];

#[test]
fn netlists_are_rejected(rt: HostRuntime) -> Result<(), Fail> {
    for (net, line) in NETLISTS.iter() {
        let left = simulated(rt.alloc(), net.as_bytes(), RUN)?;
        assert!(rt; left.ended(2, line.as_bytes()) && !left.has(b"out.trc"));
    }
    Ok(())
}

// Whether the netlist that breaks off here is rejected at its end.
fn is_cut(alloc: Global, end: usize) -> Result<bool, AllocError> {
    let left = simulated(alloc, NET.get(..end).unwrap_or(NET), RUN)?;
    let line = format!(in alloc; "a.net: N1 at {end}\n")?;
    Ok(left.ended(2, line.as_bytes()))
}

// A text that breaks off is rejected at its end.
#[test]
fn netlist_that_is_cut_is_rejected(rt: HostRuntime) -> Result<(), Fail> {
    for end in 0..NET.len() {
        assert!(rt; is_cut(rt.alloc(), end)?);
    }
    Ok(())
}

// Pulse files that are rejected, and the line that each is told.
const PULSE_FILES: [(&str, &str); 9] = [
    ("cycles 3\nnext 0 main.ask\n", "in.pls: P2 line 2\n"),
    ("cycles 3\nnext 0 main.run 1\n", "in.pls: P3 line 2\n"),
    ("cycles 0\n", "in.pls: P4 line 1\n"),
    ("", "in.pls: P1 line 1\n"),
    (
        "cycles 3\nat 0 main.run\nat 0 main.run\n",
        "in.pls: P5 main.run at cycle 0\n",
    ),
    ("cycles 3\nat 3 main.run\n", "in.pls: P4 line 2\n"),
    ("cycles 3\nnext 0 main.done\n", "in.pls: P2 line 2\n"),
    (
        "cycles 3\nnext 18446744073709551616 main.run\n",
        "in.pls: P1 line 2\n",
    ),
    ("cycles 1000001\n", "in.pls: P4 line 1\n"),
];

#[test]
fn pulse_files_are_rejected(rt: HostRuntime) -> Result<(), Fail> {
    for (pulses, line) in PULSE_FILES.iter() {
        let left = simulated(rt.alloc(), NET, pulses.as_bytes())?;
        assert!(rt; left.ended(2, line.as_bytes()) && !left.has(b"out.trc"));
    }
    Ok(())
}

// Whether these words are no command.
fn is_usage(alloc: Global, words: &[&str]) -> Result<bool, AllocError> {
    Ok(ran(alloc, words, &[])?.ended(1, USAGE))
}

#[test]
fn words_that_are_no_command(rt: HostRuntime) -> Result<(), Fail> {
    assert!(rt; is_usage(rt.alloc(), &["check"])?);
    assert!(rt; is_usage(rt.alloc(), &["sim", "a", "b", "a"])?);
    assert!(rt; is_usage(rt.alloc(), &["check", "a", "b"])?);
    assert!(rt; is_usage(rt.alloc(), &["compile", "a"])?);
    assert!(rt; is_usage(rt.alloc(), &["compile", "a", "a"])?);
    Ok(())
}

// A source with an array, whose two accesses share it, is compiled and linked, and its netlist answers what was written.
#[test]
fn an_array_is_compiled_linked_and_run(rt: HostRuntime) -> Result<(), Fail> {
    let alloc = rt.alloc();
    let source = b"export new a[2] : 8 in (a 1:1 := 7:8 ; !(a 1:1)) : exp 8";
    let object = compiled(alloc, source)?;
    let read = object.file(b"main.obj").unwrap_or(b"");
    let files: [(&[u8], &[u8]); 2] = [(b"b.txt", ONE), (b"main.obj", read)];
    let linked = ran(alloc, &["link", "b.txt"], &files)?;
    assert!(rt; linked.ended(0, b"ok weight 63\n"));
    let net = linked.file(b"out.net").unwrap_or(b"");
    let left = simulated(alloc, net, b"cycles 100\nnext 0 main.ask\n")?;
    assert!(rt; left.is_traced(alloc, b"main.ask\nmain.ans 7\ncycles 100\n")?);
    Ok(())
}
