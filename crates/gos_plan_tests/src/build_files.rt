// Build files, right and wrong.
use gos_link::{Build, LinkFault, read_build};
use std::alloc::Global;

const WHOLE: &[u8] =
    b"# A build.\ngosbuild 1\n\ninst main main.gos main.obj\r\n inst k\tk.gos  k.obj\ninst l k.gos l.obj\nbind main a k\nbind k b l\nroot main\nnet out.net\nverilog out.v\npulses in.pls\ntrace out.trc";

// Whether the third instance of a build of three stands in line 6, with this source.
fn has_third(build: &Build, source: &[u8]) -> bool {
    match build.instances.get(2) {
        Some(third) => {
            build.instances.len() == 3 && third.line == 6 && third.source.bytes() == source
        }
        None => false,
    }
}

// Whether the second of two binds stands in line 8, with this giver.
fn has_second(build: &Build, giver: &[u8]) -> bool {
    match build.binds.get(1) {
        Some(second) => {
            build.binds.len() == 2 && second.line == 8 && second.giver.bytes() == giver
        }
        None => false,
    }
}

#[test]
fn reads_a_build(rt: HostRuntime) {
    match read_build(rt.alloc(), WHOLE, b"b.txt") {
        Ok(build) => {
            assert!(rt; has_third(&build, b"k.gos") && has_second(&build, b"l"));
            assert!(rt; build.root_line == 9 && build.trace.bytes() == b"out.trc".as_slice());
        }
        Err(_) => assert!(rt; false, "it was no build"),
    }
}

// Texts, and the first line of each that is wrong.
const WRONG: [(&[u8], u64); 16] = [
    (b"", 1),
    (b"gosbuild 2", 1),
    (b"gosbuild 1\n", 2),
    (b"gosbuild 1\n# nothing\nroot m", 3),
    (b"gosbuild 1\ninst m m.gos m.obj\ninst m k.gos k.obj", 3),
    (b"gosbuild 1\ninst m m.gos m.gos", 2),
    (b"gosbuild 1\ninst m b.txt m.obj", 2),
    (b"gosbuild 1\ninst skip m.gos m.obj", 2),
    (b"gosbuild 1\ninst m m.gos m.obj x", 2),
    (b"gosbuild 1\ninst m m.gos m.obj\ninst k m.obj k.obj", 3),
    (b"gosbuild 1\ninst m m.gos m.obj\ninst k k.gos m.gos", 3),
    (b"gosbuild 1\ninst m m.gos m.obj\nroot m\nbind m a m", 4),
    (
        b"gosbuild 1\ninst m m.gos m.obj\nbind m a m\ninst k k.gos k.obj",
        4,
    ),
    (b"gosbuild 1\ninst m m.gos m.obj\nroot m\nnet m.gos", 4),
    (
        b"gosbuild 1\ninst m m.gos m.obj\nroot m\nnet n\nverilog v\npulses p\ntrace n",
        7,
    ),
    (
        b"gosbuild 1\ninst m m.gos m.obj\nroot m\nnet n\nverilog v\npulses p\ntrace t\ntrace u",
        8,
    ),
];

// Whether this line of a text is the first that is wrong.
fn is_wrong_in(alloc: Global, text: &[u8], line: u64) -> bool {
    match read_build(alloc, text, b"b.txt") {
        Err(LinkFault::Form { line: found }) => found == line,
        _ => false,
    }
}

#[test]
fn names_the_first_wrong_line(rt: HostRuntime) {
    for (text, line) in WRONG.iter() {
        assert!(rt; is_wrong_in(rt.alloc(), text, *line));
    }
}
