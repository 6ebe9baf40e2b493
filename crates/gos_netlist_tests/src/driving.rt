// Pulse files from their text to the text of the trace, for three small circuits.

ghost use Rattle.std.specs.Prelude.{◌≡◌, ◌<◌, ◌^◌, IfOk, length};
ghost use Rattle.gos_sim.specs.Cycle.{at_reset};

use crate::samples::{bit, latch, main_port, port};
use gos_lex::LexFault;
use gos_netcheck::accept;
use gos_netlist::{Cell, Gate, Ground, NetId, Netlist, Side};
use gos_pulse::{PulseFault, drive, print_trace, read_pulses};
use gos_sim::Sim;
use std::alloc::{AllocError, Global};
use std::test::Fail;

// How a pulse file ends.
#[derive(Drop)]
enum Outcome {
    Traced { text: Vec<u8>, unused: u64 },
    Broken { cycle: u64, event: usize },
    Failed,
}

// How a pulse file for a simulator at reset ends.
fn run_on(alloc: Global, mut sim: Sim, text: &[u8]) -> Outcome
    requires { sim ≡ at_reset sim.net }
{
    let Ok(pulses) = read_pulses(alloc, text, sim.netlist()) else {
        return Outcome::Failed;
    };
    match drive(alloc, &mut sim, &pulses) {
        Ok(trace) => match print_trace(alloc, &trace, sim.netlist()) {
            Ok(text) => Outcome::Traced {
                text,
                unused: trace.unused,
            },
            Err(_) => Outcome::Failed,
        },
        Err(PulseFault::Broken { cycle, event }) => Outcome::Broken { cycle, event },
        Err(_) => Outcome::Failed,
    }
}

fn run_file(alloc: Global, net: Netlist, text: &[u8]) -> Outcome
    requires { length net.cells < 2 ^ 32 }
{
    let Ok(net) = accept(alloc, net) else {
        return Outcome::Failed;
    };
    match Sim::new(alloc, net) {
        Ok(sim) => run_on(alloc, sim, text),
        Err(_) => Outcome::Failed,
    }
}

// Whether the file has this trace and leaves so many entries.
fn is_traced(outcome: &Outcome, want: &[u8], left: u64) -> bool {
    match outcome {
        Outcome::Traced { text, unused } => text.as_slice() == want && *unused == left,
        _ => false,
    }
}

// Whether this event breaks the run in this cycle.
fn is_broken(outcome: &Outcome, at: u64, by: usize) -> bool {
    match outcome {
        Outcome::Broken { cycle, event } => *cycle == at && *event == by,
        _ => false,
    }
}

// Runs c, and is done after it. Its events are main.run, main.done, c.run and c.done.
fn relay(alloc: Global) -> Result<Netlist, LexFault>
    ensures { IfOk result (λ net. length net.cells ≡ 4) }
{
    let nets = [NetId(2), NetId(1)];
    let c = port(alloc, b"c", Side::Take, Ground::Com, &nets)?;
    let ports = vec![in alloc; main_port(alloc, 0, 3)?, c]?;
    let cells = vec![in alloc;
        bit(Gate::Input),
        bit(Gate::Input),
        bit(Gate::Reg(NetId(0))),
        bit(Gate::Reg(NetId(1))),
    ]?;
    Ok(Netlist { cells, ports })
}

// Asks x for a number of 64 bits, and is done after the answer.
fn question(alloc: Global) -> Result<Netlist, LexFault>
    ensures { IfOk result (λ net. length net.cells ≡ 5) }
{
    let nets = [NetId(1), NetId(2), NetId(3)];
    let x = port(alloc, b"x", Side::Take, Ground::Exp(64), &nets)?;
    let ports = vec![in alloc; main_port(alloc, 0, 4)?, x]?;
    let number = Cell {
        width: 64,
        gate: Gate::Input,
    };
    let cells = vec![in alloc;
        bit(Gate::Input),
        bit(Gate::Reg(NetId(0))),
        bit(Gate::Input),
        number,
        bit(Gate::Reg(NetId(2))),
    ]?;
    Ok(Netlist { cells, ports })
}

// Whether a pulse file for the latch has this trace and leaves so many entries.
fn traces_latch(alloc: Global, file: &[u8], trace: &[u8], left: u64) -> Result<bool, LexFault> {
    let outcome = run_file(alloc, latch(alloc)?, file);
    Ok(is_traced(&outcome, trace, left))
}

#[test]
fn gives_next_entries_in_turn(rt: HostRuntime) -> Result<(), Fail> {
    let trace = b"0 main.run\n1 main.done\n2 main.done\ncycles 3\n";
    let one = b"cycles 3\nnext 0 main.run\n";
    assert!(rt; traces_latch(rt.alloc(), one, trace, 0)?);
    let two = b"cycles 3\nnext 0 main.run\nnext 3 main.run\n";
    assert!(rt; traces_latch(rt.alloc(), two, trace, 1)?);
    Ok(())
}

#[test]
fn takes_at_entries_in_their_cycles(rt: HostRuntime) -> Result<(), Fail> {
    let trace = b"0 main.run\n1 main.done\n1 main.run\n2 main.done\ncycles 3\n";
    let twice = b"cycles 3\nat 1 main.run\nat 0 main.run\n";
    assert!(rt; traces_latch(rt.alloc(), twice, trace, 0)?);
    Ok(())
}

#[test]
fn takes_one_entry_in_a_cycle(rt: HostRuntime) -> Result<(), Fail> {
    let file = b"cycles 3\nat 0 main.run\nat 0 main.run\n";
    let at_once = run_file(rt.alloc(), latch(rt.alloc())?, file);
    assert!(rt; is_broken(&at_once, 0, 0));
    Ok(())
}

#[test]
fn answers_only_what_is_asked(rt: HostRuntime) -> Result<(), Fail> {
    let unasked = run_file(rt.alloc(), relay(rt.alloc())?, b"cycles 100\nat 0 c.done\n");
    assert!(rt; is_broken(&unasked, 0, 3));
    Ok(())
}

#[test]
fn answers_in_the_cycle_of_the_question(rt: HostRuntime) -> Result<(), Fail> {
    let file = b"cycles 5\nnext 0 main.run\nnext 0 c.done\n";
    let outcome = run_file(rt.alloc(), relay(rt.alloc())?, file);
    let trace = b"0 main.run\n1 c.run\n1 c.done\n2 main.done\ncycles 5\n";
    assert!(rt; is_traced(&outcome, trace, 0));
    Ok(())
}

#[test]
fn gives_numbers(rt: HostRuntime) -> Result<(), Fail> {
    let file = b"cycles 5\nnext 0 main.run\nnext 3 x.ans 18446744073709551615\n";
    let answered = run_file(rt.alloc(), question(rt.alloc())?, file);
    let trace = b"0 main.run\n1 x.ask\n3 x.ans 18446744073709551615\n4 main.done\ncycles 5\n";
    assert!(rt; is_traced(&answered, trace, 0));
    Ok(())
}

// The answer may not be given before the question, however long it waits. It is given with the question, which an `at` entry
// brings after a long time without pulses; the next one is never given.
#[test]
fn holds_an_answer_until_it_is_asked(rt: HostRuntime) -> Result<(), Fail> {
    let file = b"cycles 1000\nnext 0 c.done\nat 500 main.run\nnext 0 c.done\n";
    let outcome = run_file(rt.alloc(), relay(rt.alloc())?, file);
    let trace = b"500 main.run\n501 c.run\n501 c.done\n502 main.done\ncycles 1000\n";
    assert!(rt; is_traced(&outcome, trace, 1));
    Ok(())
}

#[test]
fn waits_for_distances_and_cycles(rt: HostRuntime) -> Result<(), Fail> {
    let file = b"cycles 1000\nnext 300 main.run\nnext 200 c.done\nnext 7 c.done\nat 800 main.run\n";
    let outcome = run_file(rt.alloc(), relay(rt.alloc())?, file);
    let first = b"300 main.run\n301 c.run\n500 c.done\n501 main.done\n";
    let second = b"800 main.run\n801 c.run\n801 c.done\n802 main.done\ncycles 1000\n";
    let mut trace = Vec::new(rt.alloc());
    trace.extend_from_slice(first)?;
    trace.extend_from_slice(second)?;
    assert!(rt; is_traced(&outcome, trace.as_slice(), 0));
    Ok(())
}

#[test]
fn breaks_after_a_long_time_without_pulses(rt: HostRuntime) -> Result<(), Fail> {
    let file = b"cycles 1000\nnext 999 main.run\nat 998 c.done\n";
    let outcome = run_file(rt.alloc(), relay(rt.alloc())?, file);
    assert!(rt; is_broken(&outcome, 998, 3));
    Ok(())
}
