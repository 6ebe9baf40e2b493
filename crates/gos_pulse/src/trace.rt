// The trace of a run, and its text.

ghost use Rattle.std.specs.Prelude.{◌≡◌, ◌<◌, ◌++◌, All, Some, codes, length, IfOk, OnOk};
ghost use Rattle.std.specs.Fmt.{decimal};
ghost use Rattle.gos_netlist.specs.Events.{events_of};
ghost use Rattle.gos_netlist.specs.NetText.{line, spaced_number};
ghost use Rattle.gos_pulse.specs.TraceText.{value_text, pulse_text, trace_text};

use crate::event_names::add_name;
use gos_netlist::{Event, Netlist, Port, events};
use gos_types::NoMemory;
use std::alloc::Global;

/// A pulse of a run.
#[derive(Debug, Clone, Copy, PartialEq, Eq)]
pub struct TraceLine {
    /// Its cycle, from 0.
    pub cycle: u64,
    /// The number of its event, in event order.
    pub event: usize,
    /// Its value; 0 where the event has none.
    pub value: u64,
}

/// The pulses of a run.
#[derive(Debug, Drop)]
pub struct Trace {
    /// How many cycles the run has.
    pub cycles: u64,
    /// The pulses, by cycle; within a cycle outputs before inputs, each in event order.
    pub lines: Vec<TraceLine>,
    /// How many `next` entries of the pulse file were never given.
    pub unused: u64,
}

/// The text of a trace: a line for each pulse, and at last the number of cycles. `Err` is want of memory alone.
pub fn print_trace(alloc: Global, trace: &Trace, net: &Netlist) -> Result<Vec<u8>, NoMemory>
    requires known { All (λ pulse. pulse.event < length (events_of net.now)) trace.now.lines.items }
    ensures text { IfOk result (λ text. text.items ≡ trace_text net.now trace.now.lines.items trace.now.cycles) }
{
    let events = events(alloc, net)?;
    let mut text = Vec::new(alloc);
    for pulse in &trace.lines {
        add_pulse(alloc, &mut text, &net.ports, events[pulse.event], *pulse)?;
    }
    add_end(alloc, &mut text, trace.cycles)?;
    Ok(text)
}

// Adds the line of a pulse of this event.
fn add_pulse(
    alloc: Global,
    text: &mut Vec<u8>,
    ports: &[Port],
    event: Event,
    pulse: TraceLine,
) -> Result<(), NoMemory>
    requires { event.port < length ports.now }
    ensures { OnOk result (text.new.items ≡ text.old.items ++ line (decimal pulse.cycle ++ codes " " ++ pulse_text ports.now (Some event) pulse.value)) }
{
    let digits = pulse.cycle.to_string(alloc)?;
    text.extend_from_slice(digits.as_bytes())?;
    text.push(b' ')?;
    add_name(text, ports, event)?;
    add_value(alloc, text, event.bits, pulse.value)?;
    text.push(b'\n')?;
    Ok(())
}

// Adds a value behind a space, where its event has so many bits.
fn add_value(alloc: Global, text: &mut Vec<u8>, bits: u32, value: u64) -> Result<(), NoMemory>
    ensures { OnOk result (text.new.items ≡ text.old.items ++ value_text bits value) }
{
    if bits != 0 {
        let digits = value.to_string(alloc)?;
        text.push(b' ')?;
        text.extend_from_slice(digits.as_bytes())?;
    }
    Ok(())
}

// Adds the last line.
fn add_end(alloc: Global, text: &mut Vec<u8>, cycles: u64) -> Result<(), NoMemory>
    ensures { OnOk result (text.new.items ≡ text.old.items ++ line (codes "cycles" ++ spaced_number cycles)) }
{
    let digits = cycles.to_string(alloc)?;
    text.extend_from_slice(b"cycles ")?;
    text.extend_from_slice(digits.as_bytes())?;
    text.push(b'\n')?;
    Ok(())
}
