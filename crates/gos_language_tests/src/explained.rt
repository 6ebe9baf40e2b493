// Texts of moves and of traces: what each says, and where others break off. All were written by hand.
ghost use Rattle.std.specs.Prelude.{IfOk};
ghost use Rattle.gos_witness.specs.Ports.{ArePorts};

use gos_lex::Name;
use gos_netlist::{Ground, Side};
use gos_witness::{
    ExplainFault, Label, Line, ProgramPort, explained_is_trace, one_answer, one_answer_of_lines,
    print_moves, read_labels, read_moves, reads_back, small_lines, small_steps, small_texts,
};
use std::alloc::Global;
use std::test::Fail;

// A line of each kind.
const MOVES: &str = "gosmoves 1\nlines 5\nr\nu .\ns 0\nl 1.0.2\nr\nend\n";

// Whether a line is of this kind and has this path.
fn is_line(line: &Line, kind: u8, steps: &[u8]) -> bool {
    match line {
        Line::Unfold(path) => kind == b'u' && path.steps() == steps,
        Line::Step(path) => kind == b's' && path.steps() == steps,
        Line::Label(path) => kind == b'l' && path.steps() == steps,
        Line::Root => kind == b'r' && steps.is_empty(),
    }
}

#[test]
fn reads_each_kind_of_line(rt: HostRuntime) -> Result<(), Fail> {
    let lines = read_moves(rt.alloc(), MOVES.as_bytes())?;
    assert!(rt; lines.len() == 5);
    assert!(rt; is_line(&lines[0], b'r', b"".as_slice()));
    assert!(rt; is_line(&lines[1], b'u', b"".as_slice()));
    assert!(rt; is_line(&lines[2], b's', [0].as_slice()));
    assert!(rt; is_line(&lines[3], b'l', [1, 0, 2].as_slice()));
    assert!(rt; is_line(&lines[4], b'r', b"".as_slice()));
    Ok(())
}

// Moves of small programs: `skip`; the same without its end, and with a step that it can't make; `c ; d` and `c || d`, for
// commands `c` and `d` of the outside; and `f (v := 1:8) ; f (v := 2:8)`, where `f` is `fun a : com . a ; a`.
const WORKED: [(&str, usize); 7] = [
    (MOVES, 5),
    ("gosmoves 1\nlines 2\nr\nr\nend\n", 2),
    ("gosmoves 1\nlines 1\nr\nend\n", 1),
    ("gosmoves 1\nlines 2\nr\ns .\nend\n", 2),
    (
        "gosmoves 1\nlines 7\nr\nl 0\nl 0\ns .\nl .\nl .\nr\nend\n",
        7,
    ),
    ("gosmoves 1\nlines 4\nr\nl 0\nl 1\nl 1\nend\n", 4),
    (
        "gosmoves 1\nlines 19\nr\nu 0\ns 0.0\nl 0.0\nl 0.0\ns 0\ns 0\nl 0\nl 0\ns .\nu .\ns 0\nl 0\nl 0\ns .\ns .\nl .\nl .\nr\nend\n",
        19,
    ),
];

#[test]
fn prints_what_was_read(rt: HostRuntime) -> Result<(), Fail> {
    let alloc = rt.alloc();
    for (text, count) in WORKED {
        let lines = read_moves(alloc, text.as_bytes())?;
        assert!(rt; lines.len() == count);
        let printed = print_moves(alloc, &lines)?;
        assert!(rt; printed.as_slice() == text.as_bytes());
    }
    Ok(())
}

// Whether a text of moves breaks off at this place.
fn moves_break_off(alloc: Global, text: &str, place: usize) -> bool {
    match read_moves(alloc, text.as_bytes()) {
        Err(ExplainFault::Form { at }) => at == place,
        Err(_) | Ok(_) => false,
    }
}

// Texts that are of no list of moves, and where each breaks off.
const REFUSED_MOVES: [(&str, usize); 19] = [
    ("", 0),
    ("gosmoves 2\n", 9),
    ("gosmoves 1\r\n", 10),
    ("gosmoves 1\nlines 02\n", 18),
    ("gosmoves 1\nlines 18446744073709551616\n", 36),
    ("gosmoves 1\nlines 1\nend\n", 19),
    ("gosmoves 1\nlines 1\nr \nend\n", 20),
    ("gosmoves 1\nlines 1\ns\nend\n", 20),
    ("gosmoves 1\nlines 1\ns 3\nend\n", 21),
    ("gosmoves 1\nlines 1\ns 00\nend\n", 22),
    ("gosmoves 1\nlines 1\ns .0\nend\n", 22),
    ("gosmoves 1\nlines 1\nu 0.\nend\n", 23),
    ("gosmoves 1\nlines 1\nl 0.3\nend\n", 23),
    ("gosmoves 1\nlines 1\nr\nr\nend\n", 21),
    ("gosmoves 1\nlines 2\nr\nend\n", 21),
    ("gosmoves 1\nlines 0\nend", 22),
    ("gosmoves 1\nlines 0\nend\n\n", 23),
    (
        "gosmoves 1\nlines 7\nr\nl 0\nl 0\ns 3\nl .\nl .\nr\nend\n",
        31,
    ),
    (
        "gosmoves 1\nlines 6\nr\nl 0\nl 0\ns .\nl .\nl .\nr\nend\n",
        41,
    ),
];

#[test]
fn refuses_moves_where_they_break_off(rt: HostRuntime) {
    for (text, place) in REFUSED_MOVES {
        assert!(rt; moves_break_off(rt.alloc(), text, place), "at {place}");
    }
}

// The ports of a program that is run and asks `x` for a number of three bits.
fn two_ports(alloc: Global) -> Result<Vec<ProgramPort>, Fail>
    ensures { IfOk result (λ ports. ArePorts ports.items) }
{
    small_texts();
    let main = ProgramPort {
        name: Name::new(alloc, b"main".as_slice())?,
        side: Side::Give,
        ground: Ground::Com,
    };
    let asked = ProgramPort {
        name: Name::new(alloc, b"x".as_slice())?,
        side: Side::Take,
        ground: Ground::Exp(3),
    };
    Ok(vec![in alloc; main, asked]?)
}

fn label(port: u32, place: u32, value: u64) -> Label {
    Label { port, place, value }
}

#[test]
fn reads_the_labels_of_a_trace(rt: HostRuntime) -> Result<(), Fail> {
    let alloc = rt.alloc();
    let ports = two_ports(alloc)?;
    let text = "0 main.run\n0 x.ask\n12 x.ans 7\n13 main.done\ncycles 20\n";
    let labels = read_labels(alloc, text.as_bytes(), ports.as_slice())?;
    let wanted = [
        label(0, 0, 0),
        label(1, 0, 0),
        label(1, 1, 7),
        label(0, 1, 0),
    ];
    assert!(rt; labels.as_slice() == wanted.as_slice());
    Ok(())
}

// Texts that are of no trace of these ports, and where each breaks off. A number goes on as far as more digits could make it right.
const REFUSED_TRACES: [(&str, usize); 16] = [
    ("", 0),
    ("cycles 0\n", 7),
    ("cycles 1000001\n", 13),
    ("cycles 20", 9),
    ("cycles 20\n\n", 10),
    ("0 main.runs\n", 10),
    ("0 main.ask\n", 7),
    ("0 mai.run\n", 5),
    ("0 x.ans\n", 7),
    ("0 x.ans 8\n", 8),
    ("0 x.ans 07\n", 9),
    ("0 x.ask 1\n", 7),
    ("5 main.run\n4 main.done\ncycles 20\n", 12),
    ("999999 main.run\n8 main.done\ncycles 20\n", 16),
    ("5 main.run\ncycles 5\n", 19),
    ("1000000 main.run\n", 6),
];

#[test]
fn refuses_traces_where_they_break_off(rt: HostRuntime) -> Result<(), Fail> {
    let alloc = rt.alloc();
    let ports = two_ports(alloc)?;
    for (text, place) in REFUSED_TRACES {
        let broken = match read_labels(alloc, text.as_bytes(), ports.as_slice()) {
            Err(ExplainFault::Form { at }) => at == place,
            Err(_) | Ok(_) => false,
        };
        assert!(rt; broken, "at {place}");
    }
    Ok(())
}

#[test]
fn keeps_its_laws() {
    small_texts();
    one_answer();
    reads_back();
    small_lines();
    small_steps();
    explained_is_trace();
    one_answer_of_lines();
}
