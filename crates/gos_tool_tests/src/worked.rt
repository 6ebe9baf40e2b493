// Worked builds: their files, the line that each prints, and the pulses of its run in their order.
use crate::texts::ONE;

/// Files with their names.
pub type Files = &'static [(&'static [u8], &'static [u8])];

/// A build: its files, the line that it prints, and the pulses of its run in their order.
pub struct Worked {
    pub files: Files,
    pub line: &'static str,
    pub order: &'static str,
}

/// Two commands of the environment, one after the other, each answered in the cycle of its request.
pub const SEQUENCE: Files = &[
    (b"b.txt", ONE),
    (
        b"main.gos",
        b"import c : com import d : com export c ; d : com",
    ),
    (
        b"in.pls",
        b"cycles 20000\nnext 0 main.run\nnext 0 c.done\nnext 0 d.done\n",
    ),
];

/// A local variable, entered three times, the second and third time as soon as the run before ends.
pub const ENTRIES: Files = &[
    (b"b.txt", ONE),
    (
        b"main.gos",
        b"import c : com export new x : 1 in while !x = 0:1 do (x := 1:1 ; c) : com",
    ),
    (
        b"in.pls",
        b"cycles 200000\nnext 0 main.run\nnext 0 c.done\nnext 0 main.run\nnext 0 c.done\nnext 0 main.run\nnext 0 c.done\n",
    ),
];

/// A loop without an end.
pub const ENDLESS: Files = &[
    (b"b.txt", ONE),
    (b"main.gos", b"export while 1:1 do skip : com"),
    (b"in.pls", b"cycles 10000\nnext 0 main.run\n"),
];

/// A function of another module that is called twice with the write of a variable, and runs it twice each time.
pub const CALLED: Files = &[
    (
        b"b.txt",
        b"gosbuild 1\ninst main main.gos main.obj\ninst lib lib.gos lib.obj\nbind main f lib\nroot main\nnet out.net\nverilog out.v\npulses in.pls\ntrace out.trc\n",
    ),
    (
        b"main.gos",
        b"import f : com -> com import v : var 8 export f (v := 1:8) ; f (v := 2:8) : com",
    ),
    (b"lib.gos", b"export fun a : com . a ; a : com -> com"),
    (
        b"in.pls",
        b"cycles 300000\nnext 0 main.run\nnext 0 v.done\nnext 0 v.done\nnext 0 v.done\nnext 0 v.done\n",
    ),
];

/// A controller of two phases with a loop that counts and with a counter. Its bind lines don't stand in the order of the imports.
pub const CONTROLLER: Files = &[
    (
        b"b.txt",
        b"gosbuild 1\ninst main main.gos main.obj\ninst rep rep.gos rep.obj\ninst cnt cnt.gos cnt.obj\nbind main tick cnt\nbind main rep rep\nroot main\nnet out.net\nverilog out.v\npulses in.pls\ntrace out.trc\n",
    ),
    (
        b"main.gos",
        b"import rep : exp 8 -> com -> com import tick : com import phase_a : com import phase_b : com import size : exp 8 export rep size (phase_a ; phase_b ; tick) : com",
    ),
    (
        b"rep.gos",
        b"export fun n : exp 8 . fun b : com . new i : 8 in (i := n ; while not (!i = 0:8) do (b ; i := !i - 1:8)) : exp 8 -> com -> com",
    ),
    (b"cnt.gos", b"import v : var 8 export v := !v + 1:8 : com"),
    (
        b"in.pls",
        b"cycles 500000\nnext 0 main.run\nnext 0 size.ans 2\nnext 0 phase_a.done\nnext 0 phase_b.done\nnext 0 v.ans 10\nnext 0 v.done\nnext 0 phase_a.done\nnext 0 phase_b.done\nnext 0 v.ans 11\nnext 0 v.done\n",
    ),
];

/// The pulses of the two rounds that the controller makes, in their order.
const ROUNDS: &str =
    "main.run\nsize.ask\nsize.ans 2\nphase_a.run\nphase_a.done\nphase_b.run\nphase_b.done\nv.read\nv.ans 10\nv.write 11\nv.done\nphase_a.run\nphase_a.done\nphase_b.run\nphase_b.done\nv.read\nv.ans 11\nv.write 12\nv.done\nmain.done\ncycles 500000\n";

/// The builds. A local variable is 0 at each entry; a branch runs beside one that never ends, and beside one that waits; an argument is
/// called by name: asked twice, it is summed twice; of a pair of handlers one is used; of an array one number is written.
pub const WORKED: [Worked; 15] = [
    Worked {
        files: &[
            (b"b.txt", ONE),
            (b"main.gos", b"export skip : com"),
            (b"in.pls", b"cycles 1000\nnext 0 main.run\n"),
        ],
        line: "ok weight 5 cycles 1000 pulses 2 unused 0\n",
        order: "main.run\nmain.done\ncycles 1000\n",
    },
    Worked {
        files: SEQUENCE,
        line: "ok weight 17 cycles 20000 pulses 6 unused 0\n",
        order: "main.run\nc.run\nc.done\nd.run\nd.done\nmain.done\ncycles 20000\n",
    },
    Worked {
        files: &[
            (b"b.txt", ONE),
            (
                b"main.gos",
                b"import c : com import d : com export c ; d ; c : com",
            ),
            (
                b"in.pls",
                b"cycles 20000\nnext 0 main.run\nnext 0 c.done\nnext 0 d.done\nnext 0 c.done\n",
            ),
        ],
        line: "ok weight 27 cycles 20000 pulses 8 unused 0\n",
        order: "main.run\nc.run\nc.done\nd.run\nd.done\nc.run\nc.done\nmain.done\ncycles 20000\n",
    },
    Worked {
        files: &[
            (b"b.txt", ONE),
            (
                b"main.gos",
                b"import c : com import d : com export c || d : com",
            ),
            (b"in.pls", b"cycles 20000\nnext 0 main.run\nnext 0 d.done\n"),
        ],
        line: "ok weight 17 cycles 20000 pulses 4 unused 0\n",
        order: "main.run\nc.run\nd.run\nd.done\ncycles 20000\n",
    },
    Worked {
        files: CALLED,
        line: "ok weight 84 cycles 300000 pulses 10 unused 0\n",
        order: "main.run\nv.write 1\nv.done\nv.write 1\nv.done\nv.write 2\nv.done\nv.write 2\nv.done\nmain.done\ncycles 300000\n",
    },
    Worked {
        files: &[
            (b"b.txt", ONE),
            (
                b"main.gos",
                b"import e : exp 8 export (fun x : exp 8 . x + x) e : exp 8",
            ),
            (
                b"in.pls",
                b"cycles 20000\nnext 0 main.ask\nnext 0 e.ans 3\nnext 0 e.ans 4\n",
            ),
        ],
        line: "ok weight 32 cycles 20000 pulses 6 unused 0\n",
        order: "main.ask\ne.ask\ne.ans 3\ne.ask\ne.ans 4\nmain.ans 7\ncycles 20000\n",
    },
    Worked {
        files: &[
            (b"b.txt", ONE),
            (
                b"main.gos",
                b"import c : com export new x : 1 in while !x = 0:1 do (x := 1:1 ; c) : com",
            ),
            (
                b"in.pls",
                b"cycles 100000\nnext 0 main.run\nnext 0 c.done\n",
            ),
        ],
        line: "ok weight 58 cycles 100000 pulses 4 unused 0\n",
        order: "main.run\nc.run\nc.done\nmain.done\ncycles 100000\n",
    },
    Worked {
        files: ENTRIES,
        line: "ok weight 58 cycles 200000 pulses 12 unused 0\n",
        order: "main.run\nc.run\nc.done\nmain.done\nmain.run\nc.run\nc.done\nmain.done\nmain.run\nc.run\nc.done\nmain.done\ncycles 200000\n",
    },
    Worked {
        files: &[
            (b"b.txt", ONE),
            (b"main.gos", b"export 255:8 + 1:8 : exp 8"),
            (b"in.pls", b"cycles 10000\nnext 0 main.ask\n"),
        ],
        line: "ok weight 15 cycles 10000 pulses 2 unused 0\n",
        order: "main.ask\nmain.ans 0\ncycles 10000\n",
    },
    Worked {
        files: ENDLESS,
        line: "ok weight 15 cycles 10000 pulses 1 unused 0\n",
        order: "main.run\ncycles 10000\n",
    },
    Worked {
        files: &[
            (b"b.txt", ONE),
            (
                b"main.gos",
                b"import d : com export (while 1:1 do skip) || d : com",
            ),
            (b"in.pls", b"cycles 10000\nnext 0 main.run\nnext 0 d.done\n"),
        ],
        line: "ok weight 26 cycles 10000 pulses 3 unused 0\n",
        order: "main.run\nd.run\nd.done\ncycles 10000\n",
    },
    Worked {
        files: CONTROLLER,
        line: "ok weight 201 cycles 500000 pulses 20 unused 0\n",
        order: ROUNDS,
    },
    Worked {
        files: &[
            (b"b.txt", ONE),
            (
                b"main.gos",
                b"import c : com import d : com export (fun p : com * com . fst p) (c, d) : com",
            ),
            (b"in.pls", b"cycles 20000\nnext 0 main.run\nnext 0 c.done\n"),
        ],
        line: "ok weight 41 cycles 20000 pulses 4 unused 0\n",
        order: "main.run\nc.run\nc.done\nmain.done\ncycles 20000\n",
    },
    Worked {
        files: &[
            (b"b.txt", ONE),
            (
                b"main.gos",
                b"export new a[4] : 8 in (a 1:2 := 7:8 ; !(a 1:2) + !(a 0:2)) : exp 8",
            ),
            (b"in.pls", b"cycles 40000\nnext 0 main.ask\n"),
        ],
        line: "ok weight 93 cycles 40000 pulses 2 unused 0\n",
        order: "main.ask\nmain.ans 7\ncycles 40000\n",
    },
    Worked {
        files: &[
            (b"b.txt", ONE),
            (
                b"main.gos",
                b"export 18446744073709551615:64 + 2:64 : exp 64",
            ),
            (b"in.pls", b"cycles 10000\nnext 0 main.ask\n"),
        ],
        line: "ok weight 15 cycles 10000 pulses 2 unused 0\n",
        order: "main.ask\nmain.ans 1\ncycles 10000\n",
    },
];
