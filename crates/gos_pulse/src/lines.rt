// The lines of a trace, cycle by cycle.

ghost use Rattle.std.specs.Prelude.{◌≡◌, ◌<◌, ◌++◌, true, false, Some, OnOk, length, slice_get};
ghost use Rattle.gos_netlist.specs.Nets.{Netlist as Circuit};
ghost use Rattle.gos_pulse.specs.Guarding.{events_way, inputs_of, outputs_of};
ghost use Rattle.gos_netlist.specs.Events.{events_of};
ghost use Rattle.gos_pulse.specs.inner.Slots.{labels_of};
ghost use Rattle.std.specs.List.{list_all};
ghost use Rattle.gos_pulse.specs.inner.Lines.{AddsLines, HavePulses, is_off, line_if};

use crate::board::Board;
use crate::slots::Slot;
use crate::trace::TraceLine;
use gos_sim::Pulse;
use gos_types::NoMemory;

/// Adds the pulses of a cycle: outputs before inputs, each in event order.
pub(crate) fn add_cycle(
    lines: &mut Vec<TraceLine>,
    cycle: u64,
    board: &Board,
) -> Result<(), NoMemory>
    requires { (net : Circuit) × HavePulses net true board.now.slots.items board.now.inputs.items
        × HavePulses net false board.now.slots.items board.now.outputs.items }
    ensures { (net : Circuit) → HavePulses net true board.now.slots.items board.now.inputs.items
        → HavePulses net false board.now.slots.items board.now.outputs.items
        → OnOk result (AddsLines net cycle (labels_of net.ports (outputs_of net) board.now.outputs.items
        ++ labels_of net.ports (inputs_of net) board.now.inputs.items) lines.old.items lines.new.items) }
{
    add_lines(lines, cycle, false, &board.slots, &board.outputs)?;
    add_lines(lines, cycle, true, &board.slots, &board.inputs)?;
    Ok(())
}

// Adds the pulses that go one way. Most cycles have none, and then the events are not gone through.
fn add_lines(
    lines: &mut Vec<TraceLine>,
    cycle: u64,
    input: bool,
    slots: &[Slot],
    pulses: &[Pulse],
) -> Result<(), NoMemory>
    requires { (net : Circuit) × HavePulses net input slots.now pulses.now }
    ensures { (net : Circuit) → HavePulses net input slots.now pulses.now
        → OnOk result (AddsLines net cycle (labels_of net.ports (events_way input (events_of net)) pulses.now)
        lines.old.items lines.new.items) }
{
    if are_off(pulses) {
        return Ok(());
    }
    for (event, slot) in slots.iter().enumerate() {
        if slot.input == input {
            add_line(lines, cycle, event, pulse_at(pulses, slot.place))?;
        }
    }
    Ok(())
}

/// Whether no pulse happens.
pub(crate) fn are_off(pulses: &[Pulse]) -> bool
    ensures { result ≡ list_all is_off pulses.now }
{
    pulses.iter().all(|pulse| !pulse.on)
}

// Adds the pulse of an event, if it happens.
fn add_line(
    lines: &mut Vec<TraceLine>,
    cycle: u64,
    event: usize,
    pulse: Pulse,
) -> Result<(), NoMemory>
    ensures { OnOk result (lines.new.items ≡ lines.old.items ++ line_if cycle event pulse) }
{
    if pulse.on {
        let value = pulse.value;
        lines.push(TraceLine {
            cycle,
            event,
            value,
        })?;
    }
    Ok(())
}

// The pulse at a place.
fn pulse_at(pulses: &[Pulse], place: usize) -> Pulse
    requires { place < length pulses.now }
    ensures { slice_get pulses.now place ≡ Some result }
{
    pulses[place]
}
