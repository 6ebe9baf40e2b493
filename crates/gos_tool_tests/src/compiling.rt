// Sources that are compiled, and some that are refused.
use crate::running::{Left, ran};
use std::alloc::{AllocError, Global};
use std::test::Fail;

const SEQUENCE: &[u8] = b"import c : com import d : com export c ; d : com";

const SEQUENCE_OBJECT: &[u8] =
    b"gosobj 2\nweight 17\nimports 2\nimport c com\nimport d com\nresult com\nparts 1\nseq\njoints 3\nr.0 p0.2\np0.0 i0.0\np0.1 i1.0\nend\n";

// Runs `compile` over a source.
fn compiled(alloc: Global, source: &[u8]) -> Result<Left, AllocError> {
    ran(alloc, &["compile", "a.gos", "a.obj"], &[(b"a.gos", source)])
}

#[test]
fn sequence_is_compiled(rt: HostRuntime) -> Result<(), Fail> {
    let left = compiled(rt.alloc(), SEQUENCE)?;
    assert!(rt; left.ended(0, b"ok weight 17\n") && left.holds(b"a.obj", SEQUENCE_OBJECT));
    Ok(())
}

// Sources, and the lines that tell the weights of their plans.
const WEIGHTS: [(&str, &str); 4] = [
    ("export fun a : com . a ; a : com -> com", "ok weight 21\n"),
    (
        "import f : com -> com import v : var 8 export f (v := 1:8) ; f (v := 2:8) : com",
        "ok weight 63\n",
    ),
    (
        "import c : com export new x : 1 in while !x = 0:1 do (x := 1:1 ; c) : com",
        "ok weight 58\n",
    ),
    (
        "export fun n : exp 8 . fun b : com . new i : 8 in (i := n ; while not (!i = 0:8) do (b ; i := !i - 1:8)) : exp 8 -> com -> com",
        "ok weight 112\n",
    ),
];

// Functions, variables and loops have plans too.
#[test]
fn every_form_is_compiled(rt: HostRuntime) -> Result<(), Fail> {
    for (source, line) in WEIGHTS.iter() {
        let left = compiled(rt.alloc(), source.as_bytes())?;
        assert!(rt; left.ended(0, line.as_bytes()) && left.has(b"a.obj"));
    }
    Ok(())
}

// Sources that are refused, and the line that each is told.
const FAULTS: [(&str, &str); 5] = [
    (
        "import c : com export c || c : com",
        "a.gos: C5 c at 22..23 and 27..28\n",
    ),
    (
        "import f : com -> com export f (f skip) : com",
        "a.gos: C5 f at 29..30 and 32..33\n",
    ),
    (
        "export 32:5 : exp 5",
        "a.gos: C6 at 7..11 width 5 value 32\n",
    ),
    ("", "a.gos: S1 at 0\n"),
    ("?", "a.gos: L2 byte at 0\n"),
];

#[test]
fn faults_are_told_and_nothing_is_written(rt: HostRuntime) -> Result<(), Fail> {
    for (source, line) in FAULTS.iter() {
        let left = compiled(rt.alloc(), source.as_bytes())?;
        assert!(rt; left.ended(2, line.as_bytes()) && !left.has(b"a.obj"));
    }
    Ok(())
}
