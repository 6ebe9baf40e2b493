// Which `at` entries each cycle has.

ghost use Rattle.std.specs.Prelude.{◌≡◌, ◌<◌, ◌≤◌, [], IsTrue, suc, ℕ, List, All, MatchOption, IfOk, length};
ghost use Rattle.gos_netlist.specs.Nets.{Netlist as Circuit};
ghost use Rattle.gos_model.specs.Labels.{Label};
ghost use Rattle.gos_pulse.specs.Guarding.{HasPorts};
ghost use Rattle.gos_pulse.specs.Driving.{GivesInput, BreaksAt, at_entries};
ghost use Rattle.gos_pulse.specs.inner.Board.{Stands};
ghost use Rattle.gos_pulse.specs.inner.Agenda.{AreTaken, CanTakeAll, HaveNone, IsAgenda, IsAgendaFrom};

use crate::board::Board;
use crate::entries::Entry;
use gos_types::NoMemory;
use std::alloc::Global;

/// For each cycle the place of its first `at` entry, and for each such entry the place of the next one of its cycle;
/// the number of entries where there is none.
#[derive(Drop)]
pub(crate) struct Agenda {
    pub first: Vec<usize>,
    pub next: Vec<usize>,
}

impl Agenda {
    /// The agenda of so many cycles.
    pub fn new(alloc: Global, cycles: usize, entries: &[Entry]) -> Result<Agenda, NoMemory>
        ensures { IfOk result (IsAgenda cycles entries.now) }
    {
        let count = entries.len();
        let mut agenda = Agenda {
            first: vec![in alloc; count; cycles]?,
            next: vec![in alloc; count; count]?,
        };
        let mut place = count;
        while place > 0 {
            place -= 1;
            agenda.put(place, entries);
        }
        Ok(agenda)
    }

    // Puts the entry at a place before those behind it, where it is an `at` entry of one of the cycles.
    fn put(&mut self, place: usize, entries: &[Entry])
        requires place { place < length entries.now }
        requires behind { (cycles : ℕ) × IsAgendaFrom cycles entries.now (suc place) self.old }
        ensures { (cycles : ℕ) → IsAgendaFrom cycles entries.now (suc place) self.old → IsAgendaFrom cycles entries.now place self.new }
    {
        let entry = entries[place];
        if !entry.at {
            return;
        }
        let cycle = entry.number as usize;
        if cycle >= self.first.len() {
            return;
        }
        self.next[place] = self.first[cycle];
        self.first[cycle] = place;
    }

    /// Whether a cycle has no `at` entry.
    pub fn has_none(&self, cycle: usize, entries: &[Entry]) -> bool
        requires { cycle < length self.now.first.items }
        ensures { IsTrue result → (cycles : ℕ) → IsAgenda cycles entries.now self.now → at_entries cycle entries.now ≡ [] }
    {
        self.first[cycle] >= entries.len()
    }

    /// The first cycle from one on that has an `at` entry, or `end` where none before it has.
    pub fn next_from(&self, from: u64, end: u64, entries: &[Entry]) -> u64
        requires order { from ≤ end }
        requires end { end ≤ length self.now.first.items }
        ensures within { (from ≤ result) × (result ≤ end) }
        ensures none { (cycles : ℕ) → IsAgenda cycles entries.now self.now → HaveNone entries.now from result }
    {
        for cycle in from..end {
            if !self.has_none(cycle as usize, entries) {
                return cycle;
            }
        }
        end
    }

    /// Takes all `at` entries of a cycle, in the file's order. The result is the event of the first of them that the
    /// protocol doesn't allow.
    pub fn take_all(&self, cycle: usize, entries: &[Entry], board: &mut Board) -> Option<usize>
        requires { CanTakeAll self.now cycle entries.now board.old }
        ensures { (net : Circuit) (past : List Label) → HasPorts net → Stands net past [] board.old
            → All (GivesInput net) entries.now → MatchOption result (AreTaken net past (at_entries cycle entries.now) board.new)
            (BreaksAt net past (at_entries cycle entries.now)) }
    {
        let mut place = self.first[cycle];
        while place < entries.len() {
            let entry = entries[place];
            if !board.give(entry) {
                return Some(entry.event);
            }
            place = self.next[place];
        }
        None
    }
}
