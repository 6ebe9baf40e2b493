// The parts of a cycle: what the values of the nets are, and what the registers are after it.
ghost use Rattle.std.specs.Prelude.{◌≡◌, ◌-◌, ◌<◌, ◌^◌, All, IsTrue, length, map, set};
ghost use Rattle.gos_netlist.specs.Settling.{at};
ghost use Rattle.gos_sim.specs.Cycle.{Gives, GivesAll, pulse_shown};
ghost use Rattle.gos_sim.specs.inner.Program.{IsLatchWithin};
ghost use Rattle.gos_sim.specs.inner.Running.{AreLoaded, AreTaken, HaveOnePin, KeepsOtherNets, KeepsOthers};
ghost use Rattle.gos_sim.specs.EventNets.{OnNets};
ghost use Rattle.gos_sim.specs.inner.Ready.{AreApart, AreTwo};

use crate::event_nets::EventNets;
use crate::program::{Latch, Step};
use crate::pulse::Pulse;
use crate::word::Word;
use crate::words::Words;
use gos_netlist::{Gate, NetId};

// Gives the nets of the input events what the pulses say.
pub fn give<W: Word>(events: &[EventNets], pulses: &[Pulse], values: &mut Words<W>)
    requires each { length pulses.now ≡ length events.now }
    requires nets { All (OnNets (λ a. a < length values.old)) events.now }
    requires apart { AreApart events.now }
    requires pulses { All (λ p. p.value < 2 ^ W.bits) pulses.now }
    ensures given { GivesAll events.now pulses.now values.new }
    ensures long { length values.new ≡ length values.old }
{
    for (place, event) in events.iter().enumerate() {
        give_pulse(event, pulses[place], values);
    }
}

// Gives the nets of an event what its pulse says.
fn give_pulse<W: Word>(event: &EventNets, pulse: Pulse, values: &mut Words<W>)
    requires nets { OnNets (λ a. a < length values.old) event.now }
    requires apart { AreTwo event.now }
    requires word { pulse.value < 2 ^ W.bits }
    ensures given { Gives values.new event.now pulse }
    ensures others { KeepsOtherNets event.now values.old values.new }
    ensures long { length values.new ≡ length values.old }
{
    values.set(event.pulse as usize, W::of_bit(pulse.on));
    if let Some(number) = event.number {
        values.set(number as usize, W::of(pulse.value));
    }
}

// Whether the nets of the input events have what the pulses say.
pub fn is_given<W: Word>(events: &[EventNets], pulses: &[Pulse], values: &Words<W>) -> bool
    requires each { length pulses.now ≡ length events.now }
    requires nets { All (OnNets (λ a. a < length values.now)) events.now }
    ensures { IsTrue result → GivesAll events.now pulses.now values.now }
{
    for (place, event) in events.iter().enumerate() {
        if !has_pulse(event, pulses[place], values) {
            return false;
        }
    }
    true
}

// Whether the nets of an event have what its pulse says.
fn has_pulse<W: Word>(event: &EventNets, pulse: Pulse, values: &Words<W>) -> bool
    requires { OnNets (λ a. a < length values.now) event.now }
    ensures { IsTrue result → Gives values.now event.now pulse }
{
    let same = values.get(event.pulse as usize).is(W::of_bit(pulse.on));
    match event.number {
        Some(number) => same && values.get(number as usize).number() == pulse.value,
        None => same,
    }
}

// Gives the nets of the registers what the registers hold.
pub fn load<W: Word>(latches: &[Latch], registers: &Words<W>, values: &mut Words<W>)
    requires registers { All (IsLatchWithin (length registers.now)) latches.now }
    requires nets { All (IsLatchWithin (length values.old)) latches.now }
    ensures loaded { AreLoaded latches.now registers.now values.new }
    ensures others { KeepsOthers latches.now values.old values.new }
    ensures long { length values.new ≡ length values.old }
{
    load_each(latches, &registers.items, &mut values.items);
}

// Gives each of these nets what its register holds.
fn load_each<W: Word>(latches: &[Latch], registers: &[W], values: &mut [W])
    requires registers { All (IsLatchWithin (length registers.now)) latches.now }
    requires nets { All (IsLatchWithin (length values.old)) latches.now }
    ensures loaded { AreLoaded latches.now (map W.number registers.now) (map W.number values.new) }
    ensures others { KeepsOthers latches.now (map W.number values.old) (map W.number values.new) }
{
    for latch in latches {
        let net = latch.net as usize;
        values[net] = registers[net];
    }
}

// Shows the pulses of the output events.
pub fn show<W: Word>(events: &[EventNets], values: &Words<W>, pulses: &mut [Pulse])
    requires each { length pulses.old ≡ length events.now }
    requires nets { All (OnNets (λ a. a < length values.now)) events.now }
    ensures { pulses.new ≡ map (pulse_shown values.now) events.now }
{
    for (place, event) in events.iter().enumerate() {
        pulses[place] = pulse_of(event, values);
    }
}

// What an event shows.
fn pulse_of<W: Word>(event: &EventNets, values: &Words<W>) -> Pulse
    requires { OnNets (λ a. a < length values.now) event.now }
    ensures { result ≡ pulse_shown values.now event.now }
{
    let on = values.get(event.pulse as usize).is(W::of_bit(true));
    let value = match event.number {
        Some(number) => values.get(number as usize).number(),
        None => 0,
    };
    Pulse { on, value }
}

// Takes the values of the pins over into the registers. Answers whether all of them had these values before.
pub fn latch<W: Word>(latches: &[Latch], values: &Words<W>, registers: &mut Words<W>) -> bool
    requires pins { All (IsLatchWithin (length values.now)) latches.now }
    requires nets { All (IsLatchWithin (length registers.old)) latches.now }
    requires one { HaveOnePin latches.now }
    ensures taken { AreTaken latches.now values.now registers.new }
    ensures others { KeepsOthers latches.now registers.old registers.new }
    ensures same { IsTrue result → registers.new ≡ registers.old }
    ensures held { length registers.new ≡ length registers.old }
{
    latch_each(latches, &values.items, &mut registers.items)
}

// Takes the value of each of these pins over. Answers whether all registers had these values before.
fn latch_each<W: Word>(latches: &[Latch], values: &[W], registers: &mut [W]) -> bool
    requires pins { All (IsLatchWithin (length values.now)) latches.now }
    requires nets { All (IsLatchWithin (length registers.old)) latches.now }
    requires one { HaveOnePin latches.now }
    ensures taken { AreTaken latches.now (map W.number values.now) (map W.number registers.new) }
    ensures others { KeepsOthers latches.now (map W.number registers.old) (map W.number registers.new) }
    ensures same { IsTrue result → map W.number registers.new ≡ map W.number registers.old }
{
    let mut same = true;
    for latch in latches {
        let kept = take_over(latch, values, registers);
        same = same & kept;
    }
    same
}

// Takes the value of a register's pin over. Answers whether it had that value before.
fn take_over<W: Word>(latch: &Latch, values: &[W], registers: &mut [W]) -> bool
    requires pin { latch.now.pin < length values.now }
    requires net { latch.now.net < length registers.old }
    ensures taken { map W.number registers.new ≡ set (map W.number registers.old) latch.now.net (at (map W.number values.now) latch.now.pin) }
    ensures same { IsTrue result → map W.number registers.new ≡ map W.number registers.old }
{
    let net = latch.net as usize;
    let value = values[latch.pin as usize];
    let same = registers[net].is(value);
    registers[net] = value;
    same
}
