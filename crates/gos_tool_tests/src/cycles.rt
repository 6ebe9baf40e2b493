// Whole traces, with their cycles, of operators, choices and repeated commands: none of these takes a cycle, but for the later
// tests of a repeated command.
use crate::running::{Left, ran};
use crate::texts::ONE;
use std::alloc::{AllocError, Global};
use std::test::Fail;

// Sources, pulse files, and the trace. Each output is a register, so it comes a cycle behind what it answers.
const TRACED: [(&str, &str, &str); 7] = [
    (
        "export 5:8 + 3:8 : exp 8",
        "cycles 20\nnext 0 main.ask\n",
        "0 main.ask\n1 main.ans 8\ncycles 20\n",
    ),
    (
        "export (1:8 + 2:8) + (3:8 + 4:8) : exp 8",
        "cycles 20\nnext 0 main.ask\n",
        "0 main.ask\n1 main.ans 10\ncycles 20\n",
    ),
    (
        "export if 1:1 then skip else skip : com",
        "cycles 20\nnext 0 main.run\n",
        "0 main.run\n1 main.done\ncycles 20\n",
    ),
    (
        "export if 0:1 then 5:8 else 3:8 : exp 8",
        "cycles 20\nnext 0 main.ask\n",
        "0 main.ask\n1 main.ans 3\ncycles 20\n",
    ),
    (
        "export while 0:1 do skip : com",
        "cycles 20\nnext 0 main.run\n",
        "0 main.run\n1 main.done\ncycles 20\n",
    ),
    (
        "import e : exp 1 import c : com import d : com export if e then c else d : com",
        "cycles 20\nnext 0 main.run\nnext 0 e.ans 1\nnext 0 c.done\nnext 0 main.run\nnext 0 e.ans 0\nnext 0 d.done\n",
        "0 main.run\n1 e.ask\n1 e.ans 1\n2 c.run\n2 c.done\n3 main.done\n3 main.run\n4 e.ask\n4 e.ans 0\n5 d.run\n5 d.done\n6 main.done\ncycles 20\n",
    ),
    (
        "import e : exp 1 import c : com export while e do c : com",
        "cycles 20\nnext 0 main.run\nnext 0 e.ans 1\nnext 0 c.done\nnext 0 e.ans 0\n",
        "0 main.run\n1 e.ask\n1 e.ans 1\n2 c.run\n2 c.done\n4 e.ask\n4 e.ans 0\n5 main.done\ncycles 20\n",
    ),
];

// Runs `build` over a build of this source, under these pulses.
fn built<'a>(alloc: Global, source: &'a [u8], pulses: &'a [u8]) -> Result<Left, AllocError> {
    let files: [(&[u8], &[u8]); 3] = [(b"b.txt", ONE), (b"main.gos", source), (b"in.pls", pulses)];
    ran(alloc, &["build", "b.txt"], &files)
}

#[test]
fn requests_go_on_in_their_cycle(rt: HostRuntime) -> Result<(), Fail> {
    for (source, pulses, trace) in TRACED.iter() {
        let left = built(rt.alloc(), source.as_bytes(), pulses.as_bytes())?;
        assert!(rt;
            left.has_code(0) && left.holds(b"out.trc", trace.as_bytes()),
            "not {source}"
        );
    }
    Ok(())
}
