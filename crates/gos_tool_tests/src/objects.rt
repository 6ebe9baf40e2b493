// Worked rows of the command `link`: objects that are rejected, and one that is linked and then run.
use crate::running::{Left, ran};
use crate::texts::{ONE, SKIP_OBJECT};
use std::alloc::{AllocError, Global};
use std::test::Fail;

// Runs `link` over a build file of one instance with this object.
fn linked(alloc: Global, object: &[u8]) -> Result<Left, AllocError> {
    let files: [(&[u8], &[u8]); 2] = [(b"b.txt", ONE), (b"main.obj", object)];
    ran(alloc, &["link", "b.txt"], &files)
}

// An object as a text of this format.
fn in_format(alloc: Global, object: &[u8], format: u8) -> Result<Vec<u8>, AllocError> {
    let mut text = Vec::new(alloc);
    for (place, byte) in object.iter().enumerate() {
        text.push(if place == 7 { format } else { *byte })?;
    }
    Ok(text)
}

// Whether `link` tells this line of the object in either format, and writes no netlist.
fn is_rejected(alloc: Global, object: &[u8], line: &[u8]) -> Result<bool, AllocError> {
    let mut right = true;
    for format in [b'1', b'2'] {
        let left = linked(alloc, &in_format(alloc, object, format)?)?;
        right = right && left.ended(2, line) && !left.has(b"out.net");
    }
    Ok(right)
}

/// An object of the first format.
const FIRST: &[u8] =
    b"gosobj 1\nweight 5\nimports 0\nresult com\nparts 1\nskip\njoints 1\nr.0 p0.0\nend\n";

#[test]
fn object_is_linked(rt: HostRuntime) -> Result<(), Fail> {
    for object in [FIRST, SKIP_OBJECT] {
        let skip = linked(rt.alloc(), object)?;
        assert!(rt; skip.ended(0, b"ok weight 5\n"));
        assert!(rt; skip.has(b"out.net") && skip.has(b"out.v") && !skip.has(b"out.trc"));
    }
    Ok(())
}

// Neither direction of the joint keeps a register, so that of `done` is the only one.
#[test]
fn netlist_has_few_registers(rt: HostRuntime) -> Result<(), Fail> {
    let skip = linked(rt.alloc(), FIRST)?;
    let net = skip.file(b"out.net").unwrap_or(b"");
    let registers = net
        .split(|byte| *byte == b'\n')
        .filter(|line| line.starts_with(b"reg "))
        .count();
    assert!(rt; registers == 1);
    Ok(())
}

// Objects that are rejected, and the line that each is told.
const OBJECTS: [(&str, &str); 11] = [
    (
        "gosobj 2\nweight 5\nimports 0\nresult com\nparts 1\nskip\njoints 1\np0.0 r.0\nend\n",
        "main.obj: O2 joint 0\n",
    ),
    (
        "gosobj 2\nweight 5\nimports 0\nresult com\nparts 1\nskip\njoints 1\nr.0 p0.0\nend\n\n",
        "main.obj: O1 at 74\n",
    ),
    (
        "gosobj 2\nweight 0\nimports 0\nresult com\nparts 1\nskip\njoints 1\nr.0 p0.0\nend\n",
        "main.obj: O1 at 16\n",
    ),
    (
        "gosobj 2\nweight 8193\nimports 0\nresult com\nparts 1\nskip\njoints 1\nr.0 p0.0\nend\n",
        "main.obj: O1 at 19\n",
    ),
    (
        "gosobj 2\nweight 5\nimports 65\nresult com\nparts 1\nskip\njoints 1\nr.0 p0.0\nend\n",
        "main.obj: O3 limit at 26\n",
    ),
    (
        "gosobj 2\nweight 5\nimports 4294967296\nresult com\nparts 1\nskip\njoints 1\nr.0 p0.0\nend\n",
        "main.obj: O3 limit at 26\n",
    ),
    (
        "gosobj 2\nweight 5\nimports 0\nresult com\nparts 16385\nskip\njoints 1\nr.0 p0.0\nend\n",
        "main.obj: O3 limit at 45\n",
    ),
    (
        "gosobj 2\nweight 5\nimports 0\nresult com\nparts 1\nskip\njoints 65537\nr.0 p0.0\nend\n",
        "main.obj: O3 limit at 59\n",
    ),
    (
        "gosobj 2\nweight 5\nimports 0\nresult com\nparts 1\nskip\njoints 1\nr.0 p1.0\nend\n",
        "main.obj: O2 joint 0\n",
    ),
    (
        "gosobj 2\nweight 5\nimports 0\nresult exp 8\nparts 1\nskip\njoints 1\nr.0 p0.0\nend\n",
        "main.obj: O2 joint 0\n",
    ),
    (
        "gosobj 2\nweight 5\nimports 0\nresult com\nparts 1\nskip\njoints 2\nr.0 p0.0\nr.0 p0.0\nend\n",
        "main.obj: O2 joint 1\n",
    ),
];

#[test]
fn objects_are_rejected(rt: HostRuntime) -> Result<(), Fail> {
    for (object, line) in OBJECTS.iter() {
        assert!(rt; is_rejected(rt.alloc(), object.as_bytes(), line.as_bytes())?);
    }
    Ok(())
}

// Whether the object that breaks off here is rejected at its end.
fn is_cut(alloc: Global, end: usize) -> Result<bool, AllocError> {
    let line = format!(in alloc; "main.obj: O1 at {end}\n")?;
    let object = SKIP_OBJECT.get(..end).unwrap_or(SKIP_OBJECT);
    is_rejected(alloc, object, line.as_bytes())
}

#[test]
fn object_that_is_cut_is_rejected(rt: HostRuntime) -> Result<(), Fail> {
    for end in 0..SKIP_OBJECT.len() {
        assert!(rt; is_cut(rt.alloc(), end)?);
    }
    Ok(())
}

// An object whose result is a function of so many commands.
fn with_commands(alloc: Global, commands: u64) -> Result<Vec<u8>, AllocError> {
    let mut object = b"gosobj 2\nweight 5\nimports 0\nresult ".to_vec(alloc)?;
    for _ in 0..commands {
        object.extend_from_slice(b"fun com ")?;
    }
    object.extend_from_slice(b"com\nparts 1\nskip\njoints 1\nr.0 p0.0\nend\n")?;
    Ok(object)
}

// The last `fun` is refused where it begins: the type would have 65 handshakes.
#[test]
fn result_of_too_many_handshakes_is_rejected(rt: HostRuntime) -> Result<(), Fail> {
    let most = with_commands(rt.alloc(), 63)?;
    assert!(rt; is_rejected(rt.alloc(), most.as_slice(), b"main.obj: O2 joint 0\n")?);
    let more = with_commands(rt.alloc(), 64)?;
    assert!(rt; is_rejected(rt.alloc(), more.as_slice(), b"main.obj: O3 limit at 539\n")?);
    Ok(())
}

// An object of so many parts that share a function of 63 commands.
fn with_shares(alloc: Global, parts: u64) -> Result<Vec<u8>, AllocError> {
    let mut share = b"share ".to_vec(alloc)?;
    for _ in 0..63 {
        share.extend_from_slice(b"fun com ")?;
    }
    share.extend_from_slice(b"com\n")?;
    let head = format!(in alloc; "gosobj 1\nweight 1\nimports 0\nresult com\nparts {parts}\n")?;
    let mut object = head.as_bytes().to_vec(alloc)?;
    for _ in 0..parts {
        object.extend_from_slice(share.as_slice())?;
    }
    object.extend_from_slice(b"joints 0\nend\n")?;
    Ok(object)
}

#[test]
fn object_that_is_too_large_is_rejected(rt: HostRuntime) -> Result<(), Fail> {
    let large = with_shares(rt.alloc(), 997)?;
    let left = linked(rt.alloc(), large.as_slice())?;
    assert!(rt; left.ended(2, b"b.txt: B12 size 5002958 ports 1\n") && !left.has(b"out.net"));
    Ok(())
}

/// A sequence that is its own first command, and that nobody runs.
const SELF_ASKING: &[u8] =
    b"gosobj 2\nweight 5\nimports 0\nresult com\nparts 1\nseq\njoints 1\np0.0 p0.2\nend\n";

// A plan that no module has is laid out all the same, and its circuit never answers.
#[test]
fn part_that_asks_itself_is_linked_and_run(rt: HostRuntime) -> Result<(), Fail> {
    let left = linked(rt.alloc(), SELF_ASKING)?;
    assert!(rt; left.ended(0, b"ok weight 5\n"));
    let files: [(&[u8], &[u8]); 2] = [
        (b"out.net", left.file(b"out.net").unwrap_or(b"")),
        (b"in.pls", b"cycles 100\nnext 0 main.run\n"),
    ];
    let run = ran(rt.alloc(), &["sim", "out.net", "in.pls", "out.trc"], &files)?;
    assert!(rt; run.ended(0, b"ok cycles 100 pulses 1 unused 0\n"));
    assert!(rt; run.holds(b"out.trc", b"0 main.run\ncycles 100\n"));
    Ok(())
}
