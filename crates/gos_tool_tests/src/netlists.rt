// Worked rows of the commands `tidy` and `gates`: netlists, and what is written and printed.
use crate::running::{Left, ran};
use crate::worked::CONTROLLER;
use std::alloc::{AllocError, Global};
use std::test::Fail;

/// Two registers of one gate.
const LATCH: &str =
    "gosnet 1\ncells 4\ninput 1\nor 1 0 2\nreg 1 1\nreg 1 1\nports 1\ngive main com 0 3\nend\n";

const LATCH_TIDY: &str =
    "gosnet 1\ncells 3\ninput 1\nor 1 0 2\nreg 1 1\nports 1\ngive main com 0 2\nend\n";

/// A selector that is a constant.
const FOLDED: &str =
    "gosnet 1\ncells 6\ninput 1\nconst 1 1\nand 1 1 1\ngate 1 2 0\nreg 1 3\nreg 1 0\nports 1\ngive main com 0 4\nend\n";

const FOLDED_TIDY: &str = "gosnet 1\ncells 2\ninput 1\nreg 1 0\nports 1\ngive main com 0 1\nend\n";

/// No netlist, and one with a combinational cycle.
const NONE: &str = "gosnet 1\ncells 4\ninput 1\n";

const RING: &str =
    "gosnet 1\ncells 4\ninput 1\nor 1 0 2\nand 1 1 0\nreg 1 1\nports 1\ngive main com 0 3\nend\n";

// Runs a command from this netlist to another file.
fn rewritten(alloc: Global, verb: &str, net: &[u8]) -> Result<Left, AllocError> {
    let files: [(&[u8], &[u8]); 1] = [(b"a.net", net)];
    ran(alloc, &[verb, "a.net", "out"], &files)
}

// Commands and netlists, and the status, the line and the file that is written.
const DONE: [(&str, &str, &str, &str); 5] = [
    ("tidy", LATCH, "ok cells 4 to 3\n", LATCH_TIDY),
    ("tidy", LATCH_TIDY, "ok cells 3 to 3\n", LATCH_TIDY),
    ("tidy", FOLDED, "ok cells 6 to 2\n", FOLDED_TIDY),
    (
        "gates",
        FOLDED_TIDY,
        "ok inputs 1 latches 1 outputs 1 ands 0\n",
        "aag 2 1 1 1 0\n2\n4 2\n4\n",
    ),
    (
        "gates",
        LATCH,
        "ok inputs 1 latches 2 outputs 1 ands 1\n",
        "aag 4 1 2 1 1\n2\n4 9\n6 9\n6\n8 5 3\n",
    ),
];

#[test]
fn netlists_are_rewritten(rt: HostRuntime) -> Result<(), Fail> {
    for (verb, net, line, made) in DONE.iter() {
        let left = rewritten(rt.alloc(), verb, net.as_bytes())?;
        assert!(rt; left.ended(0, line.as_bytes()) && left.holds(b"out", made.as_bytes()));
    }
    Ok(())
}

#[test]
fn wrong_netlists_are_not_rewritten(rt: HostRuntime) -> Result<(), Fail> {
    for verb in ["tidy", "gates"] {
        let none = rewritten(rt.alloc(), verb, NONE.as_bytes())?;
        assert!(rt; none.ended(2, b"a.net: N1 at 25\n") && !none.has(b"out"));
        let ring = rewritten(rt.alloc(), verb, RING.as_bytes())?;
        assert!(rt; ring.ended(2, b"a.net: K1 cycle 1 2\n") && !ring.has(b"out"));
        let same = ran(rt.alloc(), &[verb, "a.net", "a.net"], &[])?;
        assert!(rt; same.has_code(1));
    }
    Ok(())
}

// A netlist of 2,000,099 bits: this many cells of 32 bits with two pins each.
fn large(alloc: Global) -> Result<Vec<u8>, AllocError> {
    let mut text = b"gosnet 1\ncells 20837\ninput 1\nconst 32 1\n".to_vec(alloc)?;
    for _ in 0..20834 {
        text.extend_from_slice(b"or 32 1 1\n")?;
    }
    text.extend_from_slice(b"reg 1 0\nports 1\ngive main com 0 20836\nend\n")?;
    Ok(text)
}

#[test]
fn netlist_that_is_too_large_is_not_lowered(rt: HostRuntime) -> Result<(), Fail> {
    let left = rewritten(rt.alloc(), "gates", large(rt.alloc())?.as_slice())?;
    assert!(rt; left.ended(2, b"a.net: G1 bits 2000099\n") && !left.has(b"out"));
    Ok(())
}

#[test]
fn netlist_has_one_trace_before_and_after_it_is_tidy(rt: HostRuntime) -> Result<(), Fail> {
    let alloc = rt.alloc();
    let line = b"ok cycles 500000 pulses 20 unused 0\n";
    let mut left = ran(alloc, &["build", "b.txt"], CONTROLLER)?;
    left.goes_on(alloc, &["sim", "out.net", "in.pls", "before.trc"])?;
    assert!(rt; left.ended(0, line));
    left.goes_on(alloc, &["tidy", "out.net", "tidy.net"])?;
    assert!(rt; left.has_code(0));
    left.goes_on(alloc, &["sim", "tidy.net", "in.pls", "after.trc"])?;
    assert!(rt; left.ended(0, line));
    let built = left.file(b"out.trc").unwrap_or(b"");
    assert!(rt; left.holds(b"before.trc", built) && left.holds(b"after.trc", built));
    Ok(())
}

/// What stands before each number of the line that tells how a netlist is lowered.
const COUNTS: [&[u8]; 4] = [b"ok inputs ", b" latches ", b" outputs ", b" ands "];

// A text up to its first line feed.
fn first_line(text: &[u8]) -> &[u8] {
    match text.iter().position(|byte| *byte == b'\n') {
        Some(end) => text.get(..end).unwrap_or(text),
        None => text,
    }
}

// The line that tells of a text of gates: the numbers of its first line but for the first of them.
fn counted(alloc: Global, gates: &[u8]) -> Result<Vec<u8>, AllocError> {
    let mut line = Vec::new(alloc);
    let numbers = first_line(gates).split(|byte| *byte == b' ').skip(2);
    for (count, number) in COUNTS.iter().zip(numbers) {
        line.extend_from_slice(count)?;
        line.extend_from_slice(number)?;
    }
    line.push(b'\n')?;
    Ok(line)
}

#[test]
fn netlist_of_the_demo_is_lowered(rt: HostRuntime) -> Result<(), Fail> {
    let alloc = rt.alloc();
    let mut left = ran(alloc, &["demo", "4"], &[])?;
    left.goes_on(alloc, &["gates", "demo.net", "demo.aag"])?;
    let gates = left.file(b"demo.aag").unwrap_or(b"");
    assert!(rt; gates.starts_with(b"aag "));
    assert!(rt; left.ended(0, counted(alloc, gates)?.as_slice()));
    Ok(())
}
