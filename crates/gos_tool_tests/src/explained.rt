// Worked rows of the commands `explain` and `verify`: build files, sources, traces and moves, and what is printed.
use crate::running::{Left, ran};
use crate::texts::{ONE, TWO};
use crate::worked::{WORKED, Worked};
use std::alloc::{AllocError, Global};
use std::test::Fail;

const SKIP: &str = "export skip : com";

const RUN: &str = "0 main.run\n1 main.done\ncycles 2\n";

const MOVES: &str = "gosmoves 1\nlines 2\nr\nr\nend\n";

// Runs `verify` over a build of one module.
fn verified<'x>(
    alloc: Global,
    source: &'x str,
    trace: &'x str,
    moves: &'x str,
) -> Result<Left, AllocError> {
    let files: [(&[u8], &[u8]); 4] = [
        (b"b.txt", ONE),
        (b"main.gos", source.as_bytes()),
        (b"out.trc", trace.as_bytes()),
        (b"m.txt", moves.as_bytes()),
    ];
    ran(alloc, &["verify", "b.txt", "m.txt"], &files)
}

// Sources, traces and moves, and the line that each is told.
const EXPLAINED: [(&str, &str, &str, &str); 6] = [
    (SKIP, RUN, MOVES, "ok lines 2 labels 2\n"),
    (
        "import c : com import d : com export c ; d : com",
        "0 main.run\n1 c.run\n2 c.done\n3 d.run\n4 d.done\n5 main.done\ncycles 20000\n",
        "gosmoves 1\nlines 7\nr\nl 0\nl 0\ns .\nl .\nl .\nr\nend\n",
        "ok lines 7 labels 6\n",
    ),
    (
        "import c : com import d : com export c || d : com",
        "0 main.run\n1 c.run\n2 d.run\n3 d.done\ncycles 20000\n",
        "gosmoves 1\nlines 4\nr\nl 0\nl 1\nl 1\nend\n",
        "ok lines 4 labels 4\n",
    ),
    (
        "export new x : 8 in (x := 3:8 ; !x + 4:8) : exp 8",
        "0 main.ask\n1 main.ans 7\ncycles 2\n",
        "gosmoves 1\nlines 10\nr\ns .\ns 0.0\ns 0.0\ns 0\ns 0.0\ns 0\ns 0\ns .\nr\nend\n",
        "ok lines 10 labels 2\n",
    ),
    (
        "import e : exp 8 export (fun x : exp 8 . x + x) e : exp 8",
        "0 main.ask\n0 e.ask\n1 e.ans 3\n1 e.ask\n2 e.ans 4\n2 main.ans 7\ncycles 3\n",
        "gosmoves 1\nlines 9\nr\nu .\nl 0\nl 0\ns .\nl 0\nl 0\ns .\nr\nend\n",
        "ok lines 9 labels 6\n",
    ),
    (
        "import c : com export new x : 1 in while !x = 0:1 do (x := 1:1 ; c) : com",
        "0 main.run\n1 c.run\n2 c.done\n3 main.done\n4 main.run\n5 c.run\n6 c.done\n7 main.done\n8 main.run\n9 c.run\n10 c.done\n11 main.done\ncycles 200000\n",
        "gosmoves 1\nlines 60\nr\ns .\ns 0\ns 0.0.0\ns 0.0\ns 0.0\ns 0\ns 0.0.0\ns 0.0.0\ns 0.0\nl 0.0\nl 0.0\ns 0\ns 0\ns 0.0.0\ns 0.0\ns 0.0\ns 0\ns .\nr\nr\ns .\ns 0\ns 0.0.0\ns 0.0\ns 0.0\ns 0\ns 0.0.0\ns 0.0.0\ns 0.0\nl 0.0\nl 0.0\ns 0\ns 0\ns 0.0.0\ns 0.0\ns 0.0\ns 0\ns .\nr\nr\ns .\ns 0\ns 0.0.0\ns 0.0\ns 0.0\ns 0\ns 0.0.0\ns 0.0.0\ns 0.0\nl 0.0\nl 0.0\ns 0\ns 0\ns 0.0.0\ns 0.0\ns 0.0\ns 0\ns .\nr\nend\n",
        "ok lines 60 labels 12\n",
    ),
];

#[test]
fn moves_explain_traces(rt: HostRuntime) -> Result<(), Fail> {
    for (source, trace, moves, line) in EXPLAINED.iter() {
        let left = verified(rt.alloc(), source, trace, moves)?;
        assert!(rt;
            left.ended(0, line.as_bytes()) && !left.has(b"main.obj") && !left.has(b"out.net")
        );
    }
    Ok(())
}

// The same where something is wrong. An unfolding at the end is no move.
const REFUSED: [(&str, &str, &str, &str); 9] = [
    (
        SKIP,
        RUN,
        "gosmoves 1\nlines 1\nr\nend\n",
        "m.txt: M3 labels 1\n",
    ),
    (
        SKIP,
        RUN,
        "gosmoves 1\nlines 2\nr\ns .\nend\n",
        "m.txt: M2 line 1\n",
    ),
    (SKIP, RUN, "", "m.txt: M1 at 0\n"),
    (
        SKIP,
        "0 main.done\ncycles 1000\n",
        "gosmoves 1\nlines 1\nr\nend\n",
        "m.txt: M2 line 0\n",
    ),
    (
        "import e : exp 8 export (fun x : exp 8 . x + x) e : exp 8",
        "0 main.ask\ncycles 1\n",
        "gosmoves 1\nlines 2\nr\nu .\nend\n",
        "m.txt: M2 line 1\n",
    ),
    (SKIP, "", "", "out.trc: M1 at 0\n"),
    (SKIP, "0 c.run\ncycles 2\n", "", "out.trc: M1 at 2\n"),
    ("export c : com", "", "", "main.gos: C1 c at 7..8\n"),
    (
        "import f : com -> com export f skip : com",
        "",
        "",
        "b.txt: B10 f\n",
    ),
];

#[test]
fn first_fault_is_told(rt: HostRuntime) -> Result<(), Fail> {
    for (source, trace, moves, line) in REFUSED.iter() {
        let left = verified(rt.alloc(), source, trace, moves)?;
        assert!(rt; left.ended(2, line.as_bytes()));
    }
    let own: [(&[u8], &[u8]); 3] = [
        (b"b.txt", ONE),
        (b"main.gos", SKIP.as_bytes()),
        (b"out.trc", RUN.as_bytes()),
    ];
    let same = ran(rt.alloc(), &["verify", "b.txt", "b.txt"], &own)?;
    assert!(rt; same.ended(2, b"b.txt: M1 at 3\n"));
    let none = ran(rt.alloc(), &["verify", "b.txt", "m.txt"], &[])?;
    assert!(rt; none.ended(2, b"b.txt: B1 line 1\n"));
    Ok(())
}

// Files of a build, the file for the moves, and the line that `explain` tells, with its status. The moves that it finds for `skip` are
// the only ones, and it refuses to write over the netlist of the build, also where there is no trace.
const FOUND: [(&str, &str, &str, u8, &str); 4] = [
    (SKIP, RUN, "m.txt", 0, "ok lines 2 labels 2\n"),
    (
        SKIP,
        "0 main.done\ncycles 1000\n",
        "m.txt",
        2,
        "out.trc: M5 label 0\n",
    ),
    (SKIP, "", "m.txt", 2, "out.trc: M1 at 0\n"),
    (SKIP, "", "out.net", 2, "b.txt: M7\n"),
];

#[test]
fn moves_are_found(rt: HostRuntime) -> Result<(), Fail> {
    for (source, trace, moves, status, line) in FOUND.iter() {
        let files: [(&[u8], &[u8]); 3] = [
            (b"b.txt", ONE),
            (b"main.gos", source.as_bytes()),
            (b"out.trc", trace.as_bytes()),
        ];
        let left = ran(rt.alloc(), &["explain", "b.txt", moves], &files)?;
        assert!(rt; left.ended(*status, line.as_bytes()));
        assert!(rt; *status != 0 || left.holds(b"m.txt", MOVES.as_bytes()));
        assert!(rt; *status == 0 || !left.has(moves.as_bytes()));
    }
    Ok(())
}

// A loop without an end is never done, and the second label may cost two million steps. (Under `rt try`, which checks each step, this
// takes longer than a test may.)
#[test]
fn steps_for_a_label_are_spent(rt: HostRuntime) -> Result<(), Fail> {
    let files: [(&[u8], &[u8]); 3] = [
        (b"b.txt", ONE),
        (b"main.gos", b"export while 1:1 do skip : com"),
        (b"out.trc", b"0 main.run\n5 main.done\ncycles 10000\n"),
    ];
    let left = ran(rt.alloc(), &["explain", "b.txt", "m.txt"], &files)?;
    assert!(rt; left.ended(2, b"out.trc: M6 label 1\n") && !left.has(b"m.txt"));
    Ok(())
}

// Whether moves are found for the trace that a build leaves, and are verified: both commands print one line, which counts as many labels
// as the trace has pulses.
fn is_explained(alloc: Global, worked: &Worked) -> Result<bool, AllocError> {
    let mut left = ran(alloc, &["build", "b.txt"], worked.files)?;
    left.goes_on(alloc, &["explain", "b.txt", "m.txt"])?;
    let lines = lines_of(left.file(b"m.txt").unwrap_or(b""));
    let labels = lines_of(worked.order.as_bytes()).saturating_sub(1);
    let lines = lines.saturating_sub(3);
    let line = format!(in alloc; "ok lines {lines} labels {labels}\n")?;
    let found = left.ended(0, line.as_bytes());
    left.goes_on(alloc, &["verify", "b.txt", "m.txt"])?;
    Ok(found && left.ended(0, line.as_bytes()))
}

// How many lines a text has.
fn lines_of(text: &[u8]) -> usize {
    text.iter().filter(|byte| **byte == b'\n').count()
}

#[test]
fn traces_of_builds_are_explained_and_verified(rt: HostRuntime) -> Result<(), Fail> {
    for worked in WORKED.iter() {
        let line = worked.line;
        assert!(rt; is_explained(rt.alloc(), worked)?, "not {line}");
    }
    Ok(())
}

// A build of so many modules of one source, each of which serves the import of the one before it, and of one more behind them.
fn chain(alloc: Global, levels: u64) -> Result<Vec<u8>, AllocError> {
    let mut build = b"gosbuild 1\ninst main main.gos main.obj\n".to_vec(alloc)?;
    for level in 0..levels {
        let line = format!(in alloc; "inst l{level} twice.gos l{level}.obj\n")?;
        build.extend_from_slice(line.as_bytes())?;
    }
    let last = format!(in alloc; "inst l{levels} id.gos l{levels}.obj\nbind main f l0\n")?;
    build.extend_from_slice(last.as_bytes())?;
    for level in 0..levels {
        let next = level.saturating_add(1);
        let line = format!(in alloc; "bind l{level} f l{next}\n")?;
        build.extend_from_slice(line.as_bytes())?;
    }
    build.extend_from_slice(
        b"root main\nnet out.net\nverilog out.v\npulses in.pls\ntrace out.trc\n",
    )?;
    Ok(build)
}

// Numbers of modules that use a function twice, the source of `main`, commands, and the line that each is told. The program has too many
// nodes, or it has so many that it gets too many where its second half is put in.
const LARGE: [(u64, &str, &str, &str); 4] = [
    (
        20,
        "import f : com -> com export f skip : com",
        "explain",
        "b.txt: M4 nodes 1000001\n",
    ),
    (
        20,
        "import f : com -> com export f skip : com",
        "verify",
        "b.txt: M4 nodes 1000001\n",
    ),
    (
        16,
        "import f : com -> com export (fun a : com . a ; a) (f skip) : com",
        "explain",
        "out.trc: M4 nodes 1048569\n",
    ),
    (
        16,
        "import f : com -> com export (fun a : com . a ; a) (f skip) : com",
        "verify",
        "m.txt: M4 nodes 1048569\n",
    ),
];

#[test]
fn more_than_a_million_nodes_are_told(rt: HostRuntime) -> Result<(), Fail> {
    for (levels, main, verb, line) in LARGE.iter() {
        let build = chain(rt.alloc(), *levels)?;
        let files: [(&[u8], &[u8]); 6] = [
            (b"b.txt", build.as_slice()),
            (b"main.gos", main.as_bytes()),
            (
                b"twice.gos",
                b"import f : com -> com export fun a : com . f a ; f a : com -> com",
            ),
            (b"id.gos", b"export fun a : com . a : com -> com"),
            (b"out.trc", RUN.as_bytes()),
            (b"m.txt", b"gosmoves 1\nlines 3\nr\nu .\nr\nend\n"),
        ];
        let left = ran(rt.alloc(), &[verb, "b.txt", "m.txt"], &files)?;
        assert!(rt; left.ended(2, line.as_bytes()), "not {line}");
    }
    Ok(())
}

// A build of instances that serve `main`, each of the name of its import.
const FUNCTION: &[u8] =
    b"gosbuild 1\ninst main main.gos main.obj\ninst f f.gos f.obj\nbind main f f\nroot main\nnet out.net\nverilog out.v\npulses in.pls\ntrace out.trc\n";

const LOOP: &[u8] =
    b"gosbuild 1\ninst main main.gos main.obj\ninst rep rep.gos rep.obj\ninst tick tick.gos tick.obj\nbind main rep rep\nbind main tick tick\nroot main\nnet out.net\nverilog out.v\npulses in.pls\ntrace out.trc\n";

#[test]
fn served_import_is_put_in(rt: HostRuntime) -> Result<(), Fail> {
    let files: [(&[u8], &[u8]); 5] = [
        (b"b.txt", TWO),
        (b"main.gos", b"import e : exp 8 export e + 1:8 : exp 8"),
        (b"k.gos", b"export 2:8 : exp 8"),
        (b"out.trc", b"0 main.ask\n1 main.ans 3\ncycles 2\n"),
        (b"m.txt", b"gosmoves 1\nlines 4\nr\ns .\ns .\nr\nend\n"),
    ];
    let left = ran(rt.alloc(), &["verify", "b.txt", "m.txt"], &files)?;
    assert!(rt; left.ended(0, b"ok lines 4 labels 2\n"));
    Ok(())
}

#[test]
fn function_of_another_module_is_used_twice(rt: HostRuntime) -> Result<(), Fail> {
    let files: [(&[u8], &[u8]); 5] = [
        (b"b.txt", FUNCTION),
        (
            b"main.gos",
            b"import f : com -> com import v : var 8 export f (v := 1:8) ; f (v := 2:8) : com",
        ),
        (b"f.gos", b"export fun a : com . a ; a : com -> com"),
        (
            b"out.trc",
            b"0 main.run\n1 v.write 1\n2 v.done\n3 v.write 1\n4 v.done\n5 v.write 2\n6 v.done\n7 v.write 2\n8 v.done\n9 main.done\ncycles 300000\n",
        ),
        (
            b"m.txt",
            b"gosmoves 1\nlines 19\nr\nu 0\ns 0.0\nl 0.0\nl 0.0\ns 0\ns 0\nl 0\nl 0\ns .\nu .\ns 0\nl 0\nl 0\ns .\ns .\nl .\nl .\nr\nend\n",
        ),
    ];
    let left = ran(rt.alloc(), &["verify", "b.txt", "m.txt"], &files)?;
    assert!(rt; left.ended(0, b"ok lines 19 labels 10\n"));
    Ok(())
}

// A controller of two rounds is linked with a loop that counts and with a counter.
#[test]
fn controller_runs_two_rounds(rt: HostRuntime) -> Result<(), Fail> {
    let files: [(&[u8], &[u8]); 6] = [
        (b"b.txt", LOOP),
        (
            b"main.gos",
            b"import rep : exp 8 -> com -> com import tick : com import phase_a : com import phase_b : com import size : exp 8 export rep size (phase_a ; phase_b ; tick) : com",
        ),
        (
            b"rep.gos",
            b"export fun n : exp 8 . fun b : com . new i : 8 in (i := n ; while not (!i = 0:8) do (b ; i := !i - 1:8)) : exp 8 -> com -> com",
        ),
        (b"tick.gos", b"import v : var 8 export v := !v + 1:8 : com"),
        (
            b"out.trc",
            b"0 main.run\n1 size.ask\n2 size.ans 2\n3 phase_a.run\n4 phase_a.done\n5 phase_b.run\n6 phase_b.done\n7 v.read\n8 v.ans 10\n9 v.write 11\n10 v.done\n11 phase_a.run\n12 phase_a.done\n13 phase_b.run\n14 phase_b.done\n15 v.read\n16 v.ans 11\n17 v.write 12\n18 v.done\n19 main.done\ncycles 500000\n",
        ),
        (
            b"m.txt",
            b"gosmoves 1\nlines 69\nr\nu 0\nu .\ns .\nl 0.0.1\nl 0.0.1\ns 0.0\ns 0.0\ns 0\ns 0\ns 0.0.0.0\ns 0.0.0\ns 0.0.0\ns 0.0\ns 0\nl 0.0.0.0\nl 0.0.0.0\ns 0.0.0\nl 0.0.0.0\nl 0.0.0.0\ns 0.0.0\nl 0.0.0.1.0\nl 0.0.0.1.0\ns 0.0.0.1\ns 0.0.0.1\ns 0.0.0\nl 0.0.0\nl 0.0.0\ns 0.0\ns 0.0.1.0\ns 0.0.1\ns 0.0.1\ns 0.0\ns 0.0\ns 0\ns 0\ns 0.0.0.0\ns 0.0.0\ns 0.0.0\ns 0.0\ns 0\nl 0.0.0.0\nl 0.0.0.0\ns 0.0.0\nl 0.0.0.0\nl 0.0.0.0\ns 0.0.0\nl 0.0.0.1.0\nl 0.0.0.1.0\ns 0.0.0.1\ns 0.0.0.1\ns 0.0.0\nl 0.0.0\nl 0.0.0\ns 0.0\ns 0.0.1.0\ns 0.0.1\ns 0.0.1\ns 0.0\ns 0.0\ns 0\ns 0\ns 0.0.0.0\ns 0.0.0\ns 0.0.0\ns 0.0\ns 0\ns .\nr\nend\n",
        ),
    ];
    let left = ran(rt.alloc(), &["verify", "b.txt", "m.txt"], &files)?;
    assert!(rt; left.ended(0, b"ok lines 69 labels 20\n"));
    Ok(())
}
