// The driver: a run of a simulator under a pulse file.

ghost use Rattle.std.specs.Prelude.{◌≡◌, ◌≢◌, ◌≤◌, ◌<◌, suc, List, All, MatchResult, length, IfOk, IfErr, IsTrue};
ghost use Rattle.std.specs.List.{list_all};
ghost use Rattle.gos_netlist.specs.Events.{events_of};
ghost use Rattle.gos_model.specs.Labels.{Label};
ghost use Rattle.gos_sim.specs.Cycle.{at_reset};
ghost use Rattle.gos_sim.specs.Repeats.{Repeats};
ghost use Rattle.gos_pulse.specs.Driving.{GivesInput, BreaksAs};
ghost use Rattle.gos_pulse.specs.Traced.{IsTraced};
ghost use Rattle.gos_pulse.specs.inner.Agenda.{HaveNone, IsAgenda};
ghost use Rattle.gos_pulse.specs.inner.Board.{Rests};
ghost use Rattle.gos_pulse.specs.inner.Lines.{is_off};
ghost use Rattle.gos_pulse.specs.inner.Queue.{StaysHeld};
ghost use Rattle.gos_pulse.specs.inner.Running.{BreaksCycle, CanRun, RunsCycle};

use crate::agenda::Agenda;
use crate::board::Board;
use crate::entries::{Entry, Pulses};
use crate::fault::PulseFault;
use crate::lines::{add_cycle, are_off};
use crate::queue::{Queue, give_all, held_until, is_early, next_entries};
use crate::trace::Trace;
use gos_sim::Sim;
use std::alloc::Global;

/// Runs a simulator from reset under a pulse file, and hands back the pulses of the run.
///
/// The error is `Broken`, at the first cycle in which an `at` entry breaks the protocol of inputs and there at the
/// first such entry in the file's order, or `NoMemory`. After an error the simulator stands after some cycles
/// and must be reset.
pub fn drive(alloc: Global, sim: &mut Sim, pulses: &Pulses) -> Result<Trace, PulseFault>
    requires reset { sim.old ≡ at_reset sim.old.net }
    requires entries { All (GivesInput sim.old.net) pulses.now.1 }
    ensures traced { IfOk result (IsTraced sim.old.net pulses.now.0 pulses.now.1) }
    ensures known { IfOk result (λ trace. All (λ pulse. pulse.event < length (events_of sim.old.net)) trace.lines.items) }
    ensures broken { IfErr result (λ fault. fault ≢ PulseFault.NoMemory → BreaksAs sim.old.net pulses.now.0 pulses.now.1 fault) }
    ensures net { sim.new.net ≡ sim.old.net }
{
    let cycles = pulses.cycles();
    let entries = pulses.entries();
    let mut board = Board::new(alloc, sim.netlist())?;
    let agenda = Agenda::new(alloc, cycles as usize, entries)?;
    let waiting = next_entries(alloc, entries)?;
    let mut queue = Queue {
        entries: waiting.as_slice(),
        since: 0,
    };
    let mut lines = Vec::new(alloc);
    let mut t = 0;
    while t < cycles {
        match run_cycle(sim, t, &agenda, entries, queue, &mut board) {
            Ok(rest) => queue = rest,
            Err(event) => return Err(PulseFault::Broken { cycle: t, event }),
        }
        add_cycle(&mut lines, t, &board)?;
        t = if is_quiet(sim, &board) {
            next_due(t, cycles, &agenda, entries, queue)
        } else {
            t + 1
        };
    }
    let unused = queue.entries.len() as u64;
    Ok(Trace {
        cycles,
        lines,
        unused,
    })
}

// Runs cycle `t`. The result is the queue after it, or the event of the first `at` entry that the protocol
// doesn't allow. Where no entry is due, what comes out is looked at once, behind the cycle.
fn run_cycle<'a>(
    sim: &mut Sim,
    t: u64,
    agenda: &Agenda,
    entries: &[Entry],
    queue: Queue<'a>,
    board: &mut Board,
) -> Result<Queue<'a>, usize>
    requires { CanRun sim.old t agenda.now entries.now queue.since queue.entries.now board.old }
    ensures cycle { (past : List Label) → Rests sim.old.net past board.old
        → MatchResult result (λ rest. RunsCycle sim.old entries.now past t queue.entry.since queue.entry.entries.now rest.since
        rest.entries.now sim.new board.new) (BreaksCycle sim.old entries.now past t) }
    ensures since { IfOk result (λ rest. rest.since ≤ t) }
    ensures net { sim.new.net ≡ sim.old.net }
{
    if agenda.has_none(t as usize, entries) && is_early(t, queue) {
        board.pass(sim);
        return Ok(queue);
    }
    board.begin(sim);
    match agenda.take_all(t as usize, entries, board) {
        Some(event) => Err(event),
        None => {
            let rest = give_all(t, queue, board);
            sim.cycle(&board.inputs, &mut board.outputs);
            Ok(rest)
        }
    }
}

// Whether the cycles from now on are as the last one was, as long as nothing is given: it had no pulses, and left the
// simulator as it was.
fn is_quiet(sim: &Sim, board: &Board) -> bool
    ensures repeats { IsTrue result → Repeats sim.now }
    ensures inputs { IsTrue result → IsTrue (list_all is_off board.now.inputs.items) }
    ensures outputs { IsTrue result → IsTrue (list_all is_off board.now.outputs.items) }
{
    sim.repeats() && are_off(&board.inputs) && are_off(&board.outputs)
}

// The first cycle behind `t` in which an entry may be due, where nothing happens before.
fn next_due(t: u64, cycles: u64, agenda: &Agenda, entries: &[Entry], queue: Queue) -> u64
    requires cycles { t < cycles }
    requires agenda { IsAgenda cycles entries.now agenda.now }
    requires since { queue.since ≤ t }
    ensures within { (t < result) × (result ≤ cycles) }
    ensures none { HaveNone entries.now (suc t) result }
    ensures held { StaysHeld t queue.entry.since queue.entry.entries.now result }
{
    agenda.next_from(t + 1, held_until(t, queue, cycles), entries)
}
