// The places of nets: a simulator keeps their values in the order in which it writes them.
ghost use Rattle.std.specs.Prelude.{◌≡◌, ◌≢◌, ℕ, ◌<◌, ◌≤◌, All, Contains, IfOk, length, map};
ghost use Rattle.gos_netlist.specs.Renamed.{renamed};
ghost use Rattle.gos_netlist.specs.Seen.{function_of, number_of};
ghost use Rattle.gos_netlist.specs.Settling.{at};
ghost use Rattle.gos_sim.specs.EventNets.{OnNets};
ghost use Rattle.gos_sim.specs.inner.Program.{IsLatchWithin, IsStepWithin};
ghost use Rattle.gos_sim.specs.inner.Places.{IsNumbering, IsPartly, event_moved, latch_moved, none};

use crate::event_nets::EventNets;
use crate::program::{Latch, Step};
use gos_netlist::NetId;
use gos_types::NoMemory;
use std::alloc::Global;

/// Where a net has no place yet.
const NONE: u32 = u32::MAX;

/// The places of nets, and how many there are.
#[derive(Drop)]
pub struct Places {
    /// The place of each net.
    pub of: Vec<u32>,
    /// How many places are taken.
    pub count: u32,
}

impl Places {
    // Gives a net the next place, if it has none.
    fn add(&mut self, net: u32)
        requires net { net < length self.old.of.items }
        requires partly { IsPartly self.old.of.items self.old.count }
        ensures partly { IsPartly self.new.of.items self.new.count }
        ensures each { length self.new.of.items ≡ length self.old.of.items }
        ensures placed { at self.new.of.items net ≢ none }
        ensures kept { (n : ℕ) → at self.old.of.items n ≢ none → at self.new.of.items n ≢ none }
    {
        if self.of[net as usize] == NONE {
            self.of[net as usize] = self.count;
            self.count += 1;
        }
    }

    // Gives places to the nets of registers.
    fn add_latches(&mut self, latches: &[Latch])
        requires latches { All (IsLatchWithin (length self.old.of.items)) latches.now }
        requires partly { IsPartly self.old.of.items self.old.count }
        ensures partly { IsPartly self.new.of.items self.new.count }
        ensures each { length self.new.of.items ≡ length self.old.of.items }
    {
        for latch in latches {
            self.add(latch.net);
        }
    }

    // Gives places to nets in their order.
    fn add_nets(&mut self, nets: &[NetId])
        requires nets { All (λ n. n.0 < length self.old.of.items) nets.now }
        requires partly { IsPartly self.old.of.items self.old.count }
        ensures partly { IsPartly self.new.of.items self.new.count }
        ensures each { length self.new.of.items ≡ length self.old.of.items }
        ensures placed { All (λ n. at self.new.of.items n.0 ≢ none) nets.now }
    {
        for net in nets {
            self.add(net.0);
        }
    }
}

// The places of so many nets: first the registers, then all others in their order.
#[tactic(auto, using(crate::proofs::NumberLemmas::numbering_of, crate::proofs::NumberLemmas::partly_none))]
pub fn numbered(
    alloc: Global,
    count: usize,
    latches: &[Latch],
    nets: &[NetId],
) -> Result<Places, NoMemory>
    requires latches { All (IsLatchWithin count) latches.now }
    requires nets { All (λ n. n.0 < count) nets.now }
    requires all { (n : ℕ) → n < count → Contains (map number_of nets.now) n }
    requires few { count ≤ none }
    ensures each { IfOk result (λ places. length places.of.items ≡ count) }
    ensures numbering { IfOk result (λ places. IsNumbering places.of.items places.count) }
    ensures few { IfOk result (λ places. places.count ≤ none) }
{
    let of = vec![in alloc; NONE; count]?;
    let mut places = Places { of, count: 0 };
    places.add_latches(latches);
    places.add_nets(nets);
    Ok(places)
}

// Events at the places of their nets.
pub fn events_moved(
    alloc: Global,
    events: &[EventNets],
    places: &[u32],
) -> Result<Vec<EventNets>, NoMemory>
    requires { All (OnNets (λ a. a < length places.now)) events.now }
    ensures { IfOk result (λ there. there.items ≡ map (event_moved (at places.now)) events.now) }
{
    let mut there = Vec::new(alloc);
    for event in events {
        there.push(event_moved(event, places))?;
    }
    Ok(there)
}

// An event at the places of its nets.
fn event_moved(event: &EventNets, places: &[u32]) -> EventNets
    requires { OnNets (λ a. a < length places.now) event.now }
    ensures { result ≡ event_moved (at places.now) event.now }
{
    let number = match event.number {
        Some(number) => Some(places[number as usize]),
        None => None,
    };
    EventNets {
        input: event.input,
        pulse: places[event.pulse as usize],
        number,
    }
}

// Registers at the places of their nets.
pub fn latches_moved(
    alloc: Global,
    latches: &[Latch],
    places: &[u32],
) -> Result<Vec<Latch>, NoMemory>
    requires { All (IsLatchWithin (length places.now)) latches.now }
    ensures { IfOk result (λ there. there.items ≡ map (latch_moved (at places.now)) latches.now) }
{
    let mut there = Vec::new(alloc);
    for latch in latches {
        there.push(latch_moved(latch, places))?;
    }
    Ok(there)
}

// A register at the places of its nets.
fn latch_moved(latch: &Latch, places: &[u32]) -> Latch
    requires { IsLatchWithin (length places.now) latch.now }
    ensures { result ≡ latch_moved (at places.now) latch.now }
{
    Latch {
        net: places[latch.net as usize],
        pin: places[latch.pin as usize],
    }
}

// A step at the places of its nets.
pub fn step_moved(step: &Step, places: &[u32]) -> Step
    requires { IsStepWithin (length places.now) step.now }
    ensures net { result.net ≡ at places.now step.now.net }
    ensures width { result.width ≡ step.now.width }
    ensures gate { function_of result.gate ≡ renamed (at places.now) (function_of step.now.gate) }
{
    Step {
        net: places[step.net as usize],
        width: step.width,
        gate: step.gate.renamed(|pin| pin_moved(pin, places)),
    }
}

// The place of a pin's net.
fn pin_moved(pin: NetId, places: &[u32]) -> NetId
    requires { pin.0 < length places.now }
    ensures { result.0 ≡ at places.now pin.0 }
{
    NetId(places[pin.0 as usize])
}
