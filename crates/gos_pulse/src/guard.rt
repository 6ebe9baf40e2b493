// The protocol of inputs, told while a circuit runs.

ghost use Rattle.std.specs.Prelude.{◌≡◌, ◌<◌, ◌∷◌, ◌↔◌, [], List, not, false, length, get_or, set, replicate, if◌then◌else◌, IfOk, IsTrue};
ghost use Rattle.gos_netlist.specs.Nets.{Netlist as Circuit};
ghost use Rattle.gos_model.specs.Labels.{Label, is_answer};
ghost use Rattle.gos_model.specs.Protocol.{Allowed};
ghost use Rattle.gos_pace.specs.RunProtocol.{taken_by};
ghost use Rattle.gos_pulse.specs.Guarding.{inputs_of, outputs_of, IsLabel, IsValueOf, HasPorts, Guards, half_of, halves_of, goes, is_second};

use gos_netlist::{Event, Netlist, events};
use gos_types::NoMemory;
use std::alloc::Global;

// An event as half of a handshake.
#[derive(Debug, Clone, Copy)]
pub(crate) struct Half {
    pub port: usize,
    pub second: bool,
    pub request: bool,
}

// Whether the first handshake of each port is open, and whether the second is.
#[derive(Debug, Drop)]
pub(crate) struct Flags {
    pub first: Vec<bool>,
    pub second: Vec<bool>,
}

/// Which inputs the protocol allows, for the pulses seen so far: a request at the given port where its handshake is
/// closed, an answer at a taken port where its handshake is open. Within a cycle outputs are seen before inputs.
#[derive(Debug, Drop)]
pub struct Guard {
    pub(crate) inputs: Vec<Half>,
    pub(crate) outputs: Vec<Half>,
    flags: Flags,
}

impl Guard {
    /// The guard of a netlist before any pulse. `Err` is want of memory alone.
    pub fn new(alloc: Global, net: &Netlist) -> Result<Guard, NoMemory>
        ensures { IfOk result (Guards net.now []) }
    {
        let events = events(alloc, net)?;
        let inputs = halves(alloc, events.as_slice(), true)?;
        let outputs = halves(alloc, events.as_slice(), false)?;
        let flags = closed(alloc, net.ports.len())?;
        Ok(Guard {
            inputs,
            outputs,
            flags,
        })
    }

    /// Whether this input may come now. It takes no memory.
    pub fn allows(&self, input: usize) -> bool
        requires { input < length self.now.inputs.items }
        ensures { (net : Circuit) (past : List Label) (l : Label) → HasPorts net → Guards net past self.now
            → IsLabel net (inputs_of net) input l → IsValueOf (inputs_of net) input l.value
            → IsTrue result ↔ Allowed (taken_by net.ports) past l.port l.event l.value }
    {
        let half = self.inputs[input];
        may_come(self.flags.get(half), half.request)
    }

    /// Takes note of an output. It takes no memory.
    pub fn saw_output(&mut self, output: usize)
        requires { output < length self.old.outputs.items }
        ensures guards { (net : Circuit) (past : List Label) (l : Label) → HasPorts net → Guards net past self.old
            → IsLabel net (outputs_of net) output l → Guards net (l ∷ past) self.new }
        ensures events { (self.new.inputs ≡ self.old.inputs) × (self.new.outputs ≡ self.old.outputs) }
    {
        let half = self.outputs[output];
        self.flags.set(half);
    }

    /// Takes note of an input. It takes no memory.
    pub fn saw_input(&mut self, input: usize)
        requires { input < length self.old.inputs.items }
        ensures guards { (net : Circuit) (past : List Label) (l : Label) → HasPorts net → Guards net past self.old
            → IsLabel net (inputs_of net) input l → Guards net (l ∷ past) self.new }
        ensures events { (self.new.inputs ≡ self.old.inputs) × (self.new.outputs ≡ self.old.outputs) }
    {
        let half = self.inputs[input];
        self.flags.set(half);
    }

    /// Goes on to the next cycle. The protocol doesn't look at cycles, so nothing changes: after an input of a
    /// handshake none of it is allowed before an output of it.
    pub fn next_cycle(&mut self)
        ensures { self.new ≡ self.old }
    {}
}

impl Flags {
    // Whether the handshake of this half is open.
    fn get(&self, half: Half) -> bool
        ensures { result ≡ (if half.second then get_or self.now.second.items half.port false else get_or self.now.first.items half.port false) }
    {
        if half.second {
            flag_at(self.second.as_slice(), half.port)
        } else {
            flag_at(self.first.as_slice(), half.port)
        }
    }

    // Opens the handshake of this half, where it is the request, or closes it.
    fn set(&mut self, half: Half)
        ensures first { self.new.first.items ≡ (if half.second then self.old.first.items else set self.old.first.items half.port half.request) }
        ensures second { self.new.second.items ≡ (if half.second then set self.old.second.items half.port half.request else self.old.second.items) }
    {
        if half.second {
            put_flag(&mut self.second, half.port, half.request);
        } else {
            put_flag(&mut self.first, half.port, half.request);
        }
    }
}

// The flag of a port; false where there is none.
fn flag_at(flags: &[bool], port: usize) -> bool
    ensures { result ≡ get_or flags.now port false }
{
    match flags.get(port) {
        Some(flag) => *flag,
        None => false,
    }
}

// Changes the flag of a port, where there is one.
fn put_flag(flags: &mut Vec<bool>, port: usize, flag: bool)
    ensures { flags.new.items ≡ set flags.old.items port flag }
{
    if port < flags.len() {
        flags[port] = flag;
    }
}

// Whether an input may come: a request where its handshake is closed, an answer where it is open.
fn may_come(is_open: bool, request: bool) -> bool
    ensures { result ≡ (if request then not is_open else is_open) }
{
    if request { !is_open } else { is_open }
}

// No handshake of so many ports is open.
fn closed(alloc: Global, ports: usize) -> Result<Flags, NoMemory>
    ensures first { IfOk result (λ flags. flags.first.items ≡ replicate ports false) }
    ensures second { IfOk result (λ flags. flags.second.items ≡ replicate ports false) }
{
    Ok(Flags {
        first: vec![in alloc; false; ports]?,
        second: vec![in alloc; false; ports]?,
    })
}

// The inputs among the events, or the outputs.
fn halves(alloc: Global, events: &[Event], inputs: bool) -> Result<Vec<Half>, NoMemory>
    ensures { IfOk result (λ halves. halves.items ≡ halves_of inputs events.now) }
{
    let mut halves = Vec::new(alloc);
    for event in events {
        if goes(inputs, *event) {
            halves.push(as_half(*event))?;
        }
    }
    Ok(halves)
}

// Whether an event comes in, where that is asked, or goes out.
fn goes(inputs: bool, event: Event) -> bool
    ensures { result ≡ goes inputs event }
{
    if inputs { event.input } else { !event.input }
}

// An event as half of a handshake.
fn as_half(event: Event) -> Half
    ensures { result ≡ half_of event }
{
    Half {
        port: event.port,
        second: is_second(event.place),
        request: !is_answer(event.place),
    }
}

// Whether an event belongs to the second handshake of its port.
fn is_second(place: usize) -> bool
    ensures { result ≡ is_second place }
{
    match place {
        0 | 1 => false,
        _ => true,
    }
}

// Whether an event is an answer.
fn is_answer(place: usize) -> bool
    ensures { result ≡ is_answer place }
{
    match place {
        0 => false,
        1 => true,
        _ => is_answer(place - 2),
    }
}
