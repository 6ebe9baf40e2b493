// The readers of places: the steps, by number, and behind them the latches. They are the items that a changed value marks.
ghost use Rattle.std.specs.Prelude.{◌≡◌, ℕ, ◌+◌, ◌<◌, ◌/◌, ◌^◌, All, IfOk, OnOk, length};
ghost use Rattle.gos_netlist.specs.Nets.{pins};
ghost use Rattle.gos_netlist.specs.Seen.{function_of};
ghost use Rattle.gos_sim.specs.inner.Program.{IsLatchWithin, IsStepWithin};
ghost use Rattle.gos_sim.specs.inner.Marks.{IsUnmarked, KeepsMarks};
ghost use Rattle.gos_sim.specs.inner.Readers.{AreLatchesReading, AreLinked, AreStepsReading, KeepsReaders, ReadAll, Reads};

use crate::evaluation::Program;
use crate::marks::Marks;
use crate::program::Latch;
use gos_netlist::{Gate, NetId};
use gos_types::NoMemory;
use std::alloc::Global;

/// An item that reads a place, and a link to the one before it: one more than where that stands, or 0.
#[derive(Clone, Copy)]
pub struct Reader {
    /// The item.
    pub item: u32,
    /// The link to the reader before it. There may be more readers than 32 bits can number.
    pub next: usize,
}

/// The readers of each place.
#[derive(Drop)]
pub struct Readers {
    /// For each place the link to the last one of its readers.
    pub heads: Vec<usize>,
    /// All readers.
    pub all: Vec<Reader>,
}

impl Readers {
    // Marks all that reads a place.
    pub fn mark(&self, place: u32, marks: &mut Marks)
        requires place { place < length self.now.heads.items }
        requires linked { AreLinked (length marks.old.words.items) self.now }
        ensures each { length marks.new.words.items ≡ length marks.old.words.items }
        ensures kept { KeepsMarks marks.old.words.items marks.new.words.items }
        ensures marked { (item : ℕ) → Reads self.now place item → IsUnmarked marks.new.words.items item → ⊥ }
    {
        let mut link = self.heads[place as usize];
        while link > 0 {
            let Reader { item, next } = self.all[link - 1];
            marks.mark(item as usize);
            link = next;
        }
    }

    // Adds an item as a reader of a place.
    fn add(&mut self, place: u32, item: u32) -> Result<(), NoMemory>
        requires place { place < length self.old.heads.items }
        ensures each { OnOk result (length self.new.heads.items ≡ length self.old.heads.items) }
        ensures linked { OnOk result ((words : ℕ) → item / 64 < words → AreLinked words self.old → AreLinked words self.new) }
        ensures kept { OnOk result (KeepsReaders self.old self.new) }
        ensures reads { OnOk result (Reads self.new place item) }
    {
        let next = self.heads[place as usize];
        let count = self.all.len();
        self.all.push(Reader { item, next })?;
        self.heads[place as usize] = count + 1;
        Ok(())
    }

    // Adds an item as a reader of the pins of a gate.
    fn add_pins(&mut self, gate: Gate, item: u32) -> Result<(), NoMemory>
        requires pins { All (λ a. a < length self.old.heads.items) (pins (function_of gate)) }
        ensures each { OnOk result (length self.new.heads.items ≡ length self.old.heads.items) }
        ensures linked { OnOk result ((words : ℕ) → item / 64 < words → AreLinked words self.old → AreLinked words self.new) }
        ensures kept { OnOk result (KeepsReaders self.old self.new) }
        ensures reads { OnOk result (All (λ p. Reads self.new p item) (pins (function_of gate))) }
    {
        match gate {
            Gate::Input | Gate::Const(_) => Ok(()),
            Gate::Not(a) | Gate::Reg(a) => self.add(a.0, item),
            Gate::And(a, b)
            | Gate::Or(a, b)
            | Gate::Xor(a, b)
            | Gate::Add(a, b)
            | Gate::Sub(a, b)
            | Gate::Eq(a, b)
            | Gate::Less(a, b)
            | Gate::Gate(a, b) => self.add_two(a, b, item),
            Gate::Mux(s, a, b) => {
                self.add(s.0, item)?;
                self.add_two(a, b, item)?;
                Ok(())
            }
        }
    }

    // Adds an item as a reader of two places.
    fn add_two(&mut self, a: NetId, b: NetId, item: u32) -> Result<(), NoMemory>
        requires first { a.0 < length self.old.heads.items }
        requires second { b.0 < length self.old.heads.items }
        ensures each { OnOk result (length self.new.heads.items ≡ length self.old.heads.items) }
        ensures linked { OnOk result ((words : ℕ) → item / 64 < words → AreLinked words self.old → AreLinked words self.new) }
        ensures kept { OnOk result (KeepsReaders self.old self.new) }
        ensures first { OnOk result (Reads self.new a.0 item) }
        ensures second { OnOk result (Reads self.new b.0 item) }
    {
        self.add(a.0, item)?;
        self.add(b.0, item)?;
        Ok(())
    }

    // Adds the steps as readers of their pins.
    fn add_steps(&mut self, steps: &Program) -> Result<(), NoMemory>
        requires steps { All (IsStepWithin (length self.old.heads.items)) steps.now }
        requires few { length steps.now < 2 ^ 32 }
        ensures each { OnOk result (length self.new.heads.items ≡ length self.old.heads.items) }
        ensures linked { OnOk result ((words : ℕ) → length steps.now / 64 < words → AreLinked words self.old → AreLinked words self.new) }
        ensures reads { OnOk result (AreStepsReading steps.now self.new) }
    {
        for step in 0..steps.len() {
            self.add_pins(steps.gate(step), step as u32)?;
        }
        Ok(())
    }

    // Adds the latches as readers of their pins, behind so many steps.
    fn add_latches(&mut self, first: usize, latches: &[Latch]) -> Result<(), NoMemory>
        requires latches { All (IsLatchWithin (length self.old.heads.items)) latches.now }
        requires few { first + length latches.now < 2 ^ 32 }
        ensures each { OnOk result (length self.new.heads.items ≡ length self.old.heads.items) }
        ensures linked { OnOk result ((words : ℕ) → (first + length latches.now) / 64 < words → AreLinked words self.old → AreLinked words self.new) }
        ensures kept { OnOk result (KeepsReaders self.old self.new) }
        ensures reads { OnOk result (AreLatchesReading first latches.now self.new) }
    {
        for (place, latch) in latches.iter().enumerate() {
            self.add(latch.pin, (first + place) as u32)?;
        }
        Ok(())
    }
}

// The readers of so many places.
pub fn readers_of(
    alloc: Global,
    count: usize,
    steps: &Program,
    latches: &[Latch],
) -> Result<Readers, NoMemory>
    requires steps { All (IsStepWithin count) steps.now }
    requires latches { All (IsLatchWithin count) latches.now }
    requires few { length steps.now + length latches.now < 2 ^ 32 }
    ensures each { IfOk result (λ readers. length readers.heads.items ≡ count) }
    ensures linked { IfOk result (λ readers. (words : ℕ) → (length steps.now + length latches.now) / 64 < words → AreLinked words readers) }
    ensures reading { IfOk result (λ readers. ReadAll steps.now latches.now readers) }
{
    let heads = vec![in alloc; 0; count]?;
    let all = Vec::new(alloc);
    let mut readers = Readers { heads, all };
    readers.add_steps(steps)?;
    readers.add_latches(steps.len(), latches)?;
    Ok(readers)
}
