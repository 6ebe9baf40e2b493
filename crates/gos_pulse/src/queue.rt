// The `next` entries that are not given yet.

ghost use Rattle.std.specs.Prelude.{◌≡◌, ◌≤◌, ◌<◌, ◌++◌, ◌∷◌, [], List, All, IsTrue, IfOk, IfSome, OnOk, MatchOption, length};
ghost use Rattle.gos_netlist.specs.Nets.{Netlist as Circuit};
ghost use Rattle.gos_model.specs.Labels.{Label};
ghost use Rattle.gos_pulse.specs.Guarding.{HasPorts};
ghost use Rattle.gos_pulse.specs.Driving.{GivesInput, IsHeld, next_entries};
ghost use Rattle.gos_pulse.specs.inner.Board.{Stands};
ghost use Rattle.gos_pulse.specs.inner.Queue.{AreGiven, CanGiveAll, IsFirstGiven, IsFirstHeld, StaysHeld};

use crate::board::Board;
use crate::entries::Entry;
use gos_types::NoMemory;
use std::alloc::Global;
use std::cmp::min;

/// The `next` entries that are not given yet, and the cycle in which the one before them was given, at first 0.
#[derive(Clone, Copy)]
pub(crate) struct Queue<'a> {
    pub entries: &'a [Entry],
    pub since: u64,
}

/// The `next` entries among these.
#[tactic(auto, using(crate::proofs::QueueLemmas::next_more))]
pub(crate) fn next_entries(alloc: Global, entries: &[Entry]) -> Result<Vec<Entry>, NoMemory>
    ensures { IfOk result (λ next. next.items ≡ next_entries entries.now) }
{
    let mut next = Vec::new(alloc);
    for entry in entries {
        add_next(&mut next, *entry)?;
    }
    Ok(next)
}

// Adds an entry where it is a `next` entry.
fn add_next(next: &mut Vec<Entry>, entry: Entry) -> Result<(), NoMemory>
    ensures { OnOk result (next.new.items ≡ next.old.items ++ next_entries (entry ∷ [])) }
{
    if !entry.at {
        next.push(entry)?;
    }
    Ok(())
}

/// Whether no entry is due in cycle `t`: the first one's distance has not passed, or there is none.
pub(crate) fn is_early(t: u64, queue: Queue) -> bool
    requires { queue.since ≤ t }
    ensures { IsTrue result → (net : Circuit) (past : List Label) → IsHeld net past t queue.entry.since queue.entry.entries.now }
{
    match queue.entries.first() {
        Some(entry) => t - queue.since < entry.number,
        None => true,
    }
}

/// Up to which cycle the queue stays as cycle `t` left it, where nothing happens before: the one in which the first
/// entry's distance has passed, if it had not in cycle `t`, or else `end`.
pub(crate) fn held_until(t: u64, queue: Queue, end: u64) -> u64
    requires since { queue.since ≤ t }
    requires end { t < end }
    ensures within { (t < result) × (result ≤ end) }
    ensures held { StaysHeld t queue.entry.since queue.entry.entries.now result }
{
    match queue.entries.first() {
        Some(entry) if t - queue.since < entry.number => {
            min(queue.since.saturating_add(entry.number), end)
        }
        _ => end,
    }
}

/// Gives what may be given in cycle `t`, in the order of the queue. The result is the rest of it.
pub(crate) fn give_all<'a>(t: u64, first: Queue<'a>, board: &mut Board) -> Queue<'a>
    requires since { first.since ≤ t }
    requires board { CanGiveAll first.entries.now board.old }
    ensures given { (net : Circuit) (past given : List Label) → HasPorts net → Stands net past given board.old
        → All (GivesInput net) first.entry.entries.now → AreGiven net past given t first.entry.since first.entry.entries.now
        result.since result.entries.now board.new }
    ensures since { result.since ≤ t }
{
    let mut queue = first;
    loop {
        match give_first(t, queue, board) {
            None => return queue,
            Some(rest) => queue = rest,
        }
    }
}

// Gives the first entry, where its distance has passed and the protocol allows it; then the result is the
// queue behind it.
fn give_first<'a>(t: u64, queue: Queue<'a>, board: &mut Board) -> Option<Queue<'a>>
    requires since { queue.since ≤ t }
    requires board { CanGiveAll queue.entries.now board.old }
    ensures given { (net : Circuit) (past given : List Label) → HasPorts net → Stands net past given board.old
        → All (GivesInput net) queue.entry.entries.now → MatchOption result
        (IsFirstHeld net past given t queue.entry.since queue.entry.entries.now board.new) (λ rest.
        IsFirstGiven net past given t queue.entry.since queue.entry.entries.now rest.entries.now board.new) }
    ensures since { IfSome result (λ rest. rest.since ≡ t) }
    ensures shorter { IfSome result (λ rest. length rest.entries.now < length queue.entry.entries.now) }
{
    let (entry, others) = queue.entries.split_first()?;
    if t - queue.since < entry.number {
        return None;
    }
    if !board.give(*entry) {
        return None;
    }
    Some(Queue {
        entries: others,
        since: t,
    })
}
