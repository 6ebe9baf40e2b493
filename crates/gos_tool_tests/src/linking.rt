// Builds that are linked, and some that are refused.
use crate::running::ran;
use crate::texts::{ONE, SKIP_OBJECT, TWO};
use std::test::Fail;

const USE: &[u8] =
    b"gosobj 2\nweight 6\nimports 1\nimport e com\nresult com\nparts 0\njoints 1\nr.0 i0.0\nend\n";

#[test]
fn objects_are_linked(rt: HostRuntime) -> Result<(), Fail> {
    let files: [(&[u8], &[u8]); 2] = [(b"b.txt", ONE), (b"main.obj", SKIP_OBJECT)];
    let one = ran(rt.alloc(), &["link", "b.txt"], &files)?;
    assert!(rt; one.ended(0, b"ok weight 5\n") && one.has(b"out.net") && one.has(b"out.v"));
    let files: [(&[u8], &[u8]); 3] = [(b"b.txt", TWO), (b"main.obj", USE), (b"k.obj", SKIP_OBJECT)];
    let two = ran(rt.alloc(), &["link", "b.txt"], &files)?;
    assert!(rt; two.ended(0, b"ok weight 11\n"));
    assert!(rt; two.holds(b"out.net", one.file(b"out.net").unwrap_or(b"-")));
    Ok(())
}

// Build files and objects that are refused, and the line that each is told.
const FAULTS: [(&[u8], &[u8], &[u8]); 5] = [
    (b"gosbuild 2\n", SKIP_OBJECT, b"b.txt: B1 line 1\n"),
    (ONE, b"", b"main.obj: O1 at 0\n"),
    (
        ONE,
        b"gosobj 2\nweight 5\nimports 0\nresult com\nparts 1\nskip\njoints 1\np0.0 r.0\nend\n",
        b"main.obj: O2 joint 0\n",
    ),
    (
        ONE,
        b"gosobj 2\nweight 5\nimports 65\n",
        b"main.obj: O3 limit at 26\n",
    ),
    (
        ONE,
        b"gosobj 2\nweight 11\nimports 0\nresult fun com com\nparts 0\njoints 1\nr.1 r.0\nend\n",
        b"b.txt: B10 main\n",
    ),
];

#[test]
fn faults_are_told_in_their_order(rt: HostRuntime) -> Result<(), Fail> {
    for (build, object, line) in FAULTS.iter() {
        let files: [(&[u8], &[u8]); 2] = [(b"b.txt", *build), (b"main.obj", *object)];
        let left = ran(rt.alloc(), &["link", "b.txt"], &files)?;
        assert!(rt; left.ended(2, line) && !left.has(b"out.net"));
    }
    Ok(())
}
