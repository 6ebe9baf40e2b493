// What a changed value brings with it: its place is noted, and what reads it is marked.
ghost use Rattle.std.specs.Prelude.{◌≡◌, ◌≢◌, ℕ, ◌<◌, ◌^◌, All, length, set};
ghost use Rattle.gos_netlist.specs.Settling.{Numbers, at};
ghost use Rattle.gos_sim.specs.EventNets.{OnNets};
ghost use Rattle.gos_sim.specs.Cycle.{Gives, GivesAll};
ghost use Rattle.gos_sim.specs.inner.Program.{HasLatch, IsLatchWithin};
ghost use Rattle.gos_sim.specs.inner.Running.{AreLoaded, KeepsOtherNets, KeepsOthers};
ghost use Rattle.gos_sim.specs.inner.Ready.{AreApart, AreTwo};
ghost use Rattle.gos_sim.specs.inner.Readers.{AreLinked};
ghost use Rattle.gos_sim.specs.inner.Spots.{KeepsOthersThan};
ghost use Rattle.gos_sim.specs.inner.Active.{AreLoadedButNoted, Follows, IsWake, KeepsOtherEvents};

use crate::event_nets::EventNets;
use crate::log::Log;
use crate::marks::Marks;
use crate::program::Latch;
use crate::pulse::Pulse;
use crate::readers::Readers;
use crate::word::Word;
use crate::words::Words;

/// The readers of all places, which of them are marked, and the places whose values have changed.
#[derive(Drop)]
pub struct Wake {
    /// The readers.
    pub readers: Readers,
    /// Which of them have to be evaluated.
    pub marks: Marks,
    /// Where values have changed in this cycle.
    pub touched: Log,
}

impl Wake {
    // Gives a place a value.
    pub fn put<W: Word>(&mut self, place: u32, value: W, values: &mut Words<W>)
        requires place { place < length values.old }
        requires wake { IsWake (length values.old) self.old }
        ensures values { values.new ≡ set values.old place (W.number value) }
        ensures follows { Follows self.old self.new values.old values.new }
        ensures wake { IsWake (length values.old) self.new }
        ensures long { length values.new ≡ length values.old }
    {
        if values.get(place as usize).is(value) {
            return;
        }
        values.set(place as usize, value);
        self.note(place);
    }

    // Notes a place whose value has changed, and marks what reads it.
    pub fn note(&mut self, place: u32)
        requires place { place < length self.old.readers.heads.items }
        requires linked { AreLinked (length self.old.marks.words.items) self.old.readers }
        ensures follows { (v w : Numbers) → KeepsOthersThan place v w → Follows self.old self.new v w }
        ensures wake { (count : ℕ) → place < count → IsWake count self.old → IsWake count self.new }
    {
        self.touched.note(place);
        self.readers.mark(place, &mut self.marks);
    }

    // Gives the nets of the input events what the pulses say.
    pub fn give<W: Word>(&mut self, events: &[EventNets], pulses: &[Pulse], values: &mut Words<W>)
        requires each { length pulses.now ≡ length events.now }
        requires nets { All (OnNets (λ a. a < length values.old)) events.now }
        requires apart { AreApart events.now }
        requires pulses { All (λ p. p.value < 2 ^ W.bits) pulses.now }
        requires wake { IsWake (length values.old) self.old }
        ensures given { GivesAll events.now pulses.now values.new }
        ensures others { KeepsOtherEvents events.now values.old values.new }
        ensures follows { Follows self.old self.new values.old values.new }
        ensures wake { IsWake (length values.old) self.new }
        ensures long { length values.new ≡ length values.old }
    {
        for (place, event) in events.iter().enumerate() {
            self.give_pulse(event, pulses[place], values);
        }
    }

    // Gives the nets of an event what its pulse says.
    fn give_pulse<W: Word>(&mut self, event: &EventNets, pulse: Pulse, values: &mut Words<W>)
        requires nets { OnNets (λ a. a < length values.old) event.now }
        requires apart { AreTwo event.now }
        requires word { pulse.value < 2 ^ W.bits }
        requires wake { IsWake (length values.old) self.old }
        ensures given { Gives values.new event.now pulse }
        ensures others { KeepsOtherNets event.now values.old values.new }
        ensures follows { Follows self.old self.new values.old values.new }
        ensures wake { IsWake (length values.old) self.new }
        ensures long { length values.new ≡ length values.old }
    {
        self.put(event.pulse, W::of_bit(pulse.on), values);
        if let Some(number) = event.number {
            self.put(number, W::of(pulse.value), values);
        }
    }

    // Gives the nets of the registers what these hold. Those that aren't noted have it.
    pub fn load<W: Word>(
        &mut self,
        changed: &Log,
        latches: &[Latch],
        registers: &Words<W>,
        values: &mut Words<W>,
    )
        requires latches { All (IsLatchWithin (length values.old)) latches.now }
        requires same { length registers.now ≡ length values.old }
        requires loaded { AreLoadedButNoted latches.now changed.now registers.now values.old }
        requires listed { All (HasLatch latches.now) changed.now.places.items }
        requires wake { IsWake (length values.old) self.old }
        ensures loaded { AreLoaded latches.now registers.now values.new }
        ensures others { KeepsOthers latches.now values.old values.new }
        ensures follows { Follows self.old self.new values.old values.new }
        ensures wake { IsWake (length values.old) self.new }
        ensures long { length values.new ≡ length values.old }
    {
        if changed.full {
            self.load_all(latches, registers, values);
        } else {
            self.load_noted(&changed.places, registers, values);
        }
    }

    // Gives the nets of all registers what these hold.
    fn load_all<W: Word>(&mut self, latches: &[Latch], registers: &Words<W>, values: &mut Words<W>)
        requires latches { All (IsLatchWithin (length values.old)) latches.now }
        requires same { length registers.now ≡ length values.old }
        requires wake { IsWake (length values.old) self.old }
        ensures loaded { AreLoaded latches.now registers.now values.new }
        ensures others { KeepsOthers latches.now values.old values.new }
        ensures follows { Follows self.old self.new values.old values.new }
        ensures wake { IsWake (length values.old) self.new }
        ensures long { length values.new ≡ length values.old }
    {
        for latch in latches {
            self.put(latch.net, registers.get(latch.net as usize), values);
        }
    }

    // Gives some places what the registers there hold.
    fn load_noted<W: Word>(&mut self, places: &[u32], registers: &Words<W>, values: &mut Words<W>)
        requires places { All (λ p. p < length values.old) places.now }
        requires same { length registers.now ≡ length values.old }
        requires wake { IsWake (length values.old) self.old }
        ensures loaded { (p : ℕ) → (All (λ q. q ≢ p) places.now → at values.old p ≡ at registers.now p) → at values.new p ≡ at registers.now p }
        ensures others { (p : ℕ) → All (λ q. q ≢ p) places.now → at values.new p ≡ at values.old p }
        ensures follows { Follows self.old self.new values.old values.new }
        ensures wake { IsWake (length values.old) self.new }
        ensures long { length values.new ≡ length values.old }
    {
        for place in places {
            self.put(*place, registers.get(*place as usize), values);
        }
    }
}
