// What a pulse file says, as values.

ghost use Rattle.std.specs.Prelude.{◌≡◌};

use std::marker::Model;

/// An entry of a pulse file: an input, and when it is given.
#[derive(Debug, Clone, Copy, PartialEq, Eq)]
pub struct Entry {
    /// Whether `number` is the cycle of the pulse. Else it is a distance to the entry given before.
    pub at: bool,
    /// The cycle or the distance.
    pub number: u64,
    /// The number of the input event, in event order.
    pub event: usize,
    /// The value of the pulse; 0 where its event has none.
    pub value: u64,
}

/// What a pulse file says.
#[derive(Debug, Drop)]
pub struct Pulses {
    cycles: u64,
    entries: Vec<Entry>,
}

impl Model for Pulses {
    ghost use Rattle.std.specs.Prelude.{List, ℕ};
    ghost use Rattle.gos_pulse.specs.declared.entries.Entry.{Entry};

    ghost Value = { ℕ × List Entry };

    ghost view = { λ pulses. (pulses.cycles, pulses.entries.items) };
}

impl Pulses {
    // The cycles of the run, and the entries in the file's order.
    pub(crate) fn new(cycles: u64, entries: Vec<Entry>) -> Pulses
        ensures { result ≡ (cycles, entries.items) }
    {
        Pulses { cycles, entries }
    }

    /// How many cycles the run has.
    pub fn cycles(&self) -> u64
        ensures { result ≡ self.now.0 }
    {
        self.cycles
    }

    /// The entries, in the file's order.
    pub fn entries(&self) -> &[Entry]
        ensures { result.now ≡ self.now.1 }
    {
        self.entries.as_slice()
    }
}
