// Pulse files for a circuit with three ports: their faults by line, what a right one says, and the text of a trace.
ghost use Rattle.std.specs.Prelude.{◌≡◌, true, false, length, IfOk};
ghost use Rattle.gos_netlist.specs.Events.{events_of};
ghost use Rattle.gos_pulse.specs.Guarding.{halves_of};

use gos_lex::{LexFault, Name};
use gos_netlist::{Ground, Netlist, Port, Side, events};
use gos_pulse::{Entry, Guard, PulseFault, Pulses, Trace, TraceLine, print_trace, read_pulses};
use std::alloc::Global;
use std::test::Fail;

// main.run, main.done, c.run, c.done, x.ask, x.ans of 4 bits: three come in, and three go out.
fn circuit(alloc: Global) -> Result<Netlist, LexFault>
    ensures inputs { IfOk result (λ net. length (halves_of true (events_of net)) ≡ 3) }
    ensures outputs { IfOk result (λ net. length (halves_of false (events_of net)) ≡ 3) }
{
    let main = Port {
        name: Name::new(alloc, b"main")?,
        side: Side::Give,
        ground: Ground::Com,
        nets: Vec::new(alloc),
    };
    let c = Port {
        name: Name::new(alloc, b"c")?,
        side: Side::Take,
        ground: Ground::Com,
        nets: Vec::new(alloc),
    };
    let x = Port {
        name: Name::new(alloc, b"x")?,
        side: Side::Take,
        ground: Ground::Exp(4),
        nets: Vec::new(alloc),
    };
    Ok(Netlist {
        cells: Vec::new(alloc),
        ports: vec![in alloc; main, c, x]?,
    })
}

// How a text is answered: 0 where it is read, else the fault's number and its line.
fn answer(read: Result<Pulses, PulseFault>) -> (u8, u64) {
    match read {
        Ok(_) => (0, 0),
        Err(PulseFault::Form { line }) => (1, line),
        Err(PulseFault::NoPort { line }) => (2, line),
        Err(PulseFault::Value { line }) => (3, line),
        Err(PulseFault::Limit { line }) => (4, line),
        Err(_) => (5, 0),
    }
}

// Pulse files, and how each is answered.
const FILES: [(&str, (u8, u64)); 15] = [
    ("", (1, 1)),
    ("# a\n\n", (1, 3)),
    ("at 0 main.run", (1, 1)),
    ("cycles 0", (4, 1)),
    ("cycles 1000001", (4, 1)),
    ("cycles 18446744073709551616", (1, 1)),
    ("cycles 1\n\n# b\nat 1 main.run", (4, 4)),
    ("cycles 1\nat 1 no.run", (4, 2)),
    ("cycles 1\nat 0 main.done", (2, 2)),
    ("cycles 1\nat 0 main", (1, 2)),
    ("cycles 1\nat 0 x.ans", (3, 2)),
    ("cycles 1\nat 0 x.ans 16", (3, 2)),
    ("cycles 1\nat 0 main.run 0", (3, 2)),
    ("cycles 1\nnext 1000001 main.run", (4, 2)),
    (
        "cycles 1\r\n next 01\tx.ans 015 \r\nat 0 main.run\n",
        (0, 0),
    ),
];

// Whether a text is answered so.
fn is_answered(alloc: Global, net: &Netlist, text: &str, number: u8, line: u64) -> bool {
    let (found, place) = answer(read_pulses(alloc, text.as_bytes(), net));
    found == number && place == line
}

#[test]
fn names_the_first_wrong_line(rt: HostRuntime) -> Result<(), Fail> {
    let net = circuit(rt.alloc())?;
    for (text, (number, line)) in FILES.iter() {
        assert!(rt; is_answered(rt.alloc(), &net, text, *number, *line));
    }
    Ok(())
}

// Whether there are two entries: in turn an answer of 7 from cycle 3 on, and a request in cycle 8.
fn has_two_entries(pulses: &Pulses) -> bool {
    match pulses.entries() {
        [first, second] => { is_entry(first, false, 3, 5, 7) && is_entry(second, true, 8, 0, 0) }
        _ => false,
    }
}

// Whether an entry says this.
fn is_entry(entry: &Entry, at: bool, number: u64, event: usize, value: u64) -> bool {
    entry.at == at && entry.number == number && entry.event == event && entry.value == value
}

#[test]
fn reads_entries(rt: HostRuntime) -> Result<(), Fail> {
    let net = circuit(rt.alloc())?;
    match read_pulses(
        rt.alloc(),
        b"cycles 9\nnext 3 x.ans 7\nat 8 main.run\n",
        &net,
    ) {
        Ok(pulses) => assert!(rt; pulses.cycles() == 9 && has_two_entries(&pulses)),
        Err(_) => assert!(rt; false, "a right file"),
    }
    Ok(())
}

#[test]
fn prints_pulses(rt: HostRuntime) -> Result<(), Fail> {
    let alloc = rt.alloc();
    let net = circuit(alloc)?;
    let count = events(alloc, &net)?.len();
    assert!(rt; count == 6);
    let run = TraceLine {
        cycle: 0,
        event: 0,
        value: 0,
    };
    let ans = TraceLine {
        cycle: 12,
        event: 5,
        value: 7,
    };
    let trace = Trace {
        cycles: 20,
        lines: vec![in alloc; run, ans]?,
        unused: 0,
    };
    let text = print_trace(alloc, &trace, &net)?;
    assert!(rt; text.as_slice() == b"0 main.run\n12 x.ans 7\ncycles 20\n".as_slice());
    Ok(())
}

// Inputs: main.run, c.done, x.ans. Outputs: main.done, c.run, x.ask.
#[test]
fn guards_each_handshake(rt: HostRuntime) -> Result<(), Fail> {
    let alloc = rt.alloc();
    let net = circuit(alloc)?;
    let mut guard = Guard::new(alloc, &net)?;
    assert!(rt; guard.allows(0) && !guard.allows(1) && !guard.allows(2));
    guard.saw_input(0);
    assert!(rt; !guard.allows(0));
    guard.next_cycle();
    guard.saw_output(1);
    assert!(rt; guard.allows(1) && !guard.allows(2));
    guard.saw_input(1);
    assert!(rt; !guard.allows(1));
    guard.next_cycle();
    guard.saw_output(0);
    assert!(rt; guard.allows(0));
    Ok(())
}
