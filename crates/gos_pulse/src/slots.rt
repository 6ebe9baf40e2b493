// Where the events of a netlist stand among those of their way.

ghost use Rattle.std.specs.Prelude.{◌≡◌, ◌≤◌, ◌-◌, if◌then◌else◌, IfOk};
ghost use Rattle.gos_pulse.specs.inner.Slots.{AreSlots};

use gos_netlist::Event;
use gos_types::NoMemory;
use std::alloc::Global;

/// An event: whether the surroundings give it, and its number among the events of its way.
#[derive(Debug, Clone, Copy)]
pub(crate) struct Slot {
    pub input: bool,
    pub place: usize,
}

/// The slots of these events.
pub(crate) fn slots(alloc: Global, events: &[Event]) -> Result<Vec<Slot>, NoMemory>
    ensures { IfOk result (λ slots. AreSlots events.now slots.items) }
{
    let mut slots = Vec::new(alloc);
    let mut inputs = 0;
    for event in events {
        slots.push(slot_after(slots.len(), inputs, event.input))?;
        inputs += usize::from(event.input);
    }
    Ok(slots)
}

// The slot of an event behind so many, of which so many are inputs.
fn slot_after(events: usize, inputs: usize, input: bool) -> Slot
    requires { inputs ≤ events }
    ensures input { result.input ≡ input }
    ensures place { result.place ≡ (if input then inputs else events - inputs) }
{
    let place = if input { inputs } else { events - inputs };
    Slot { input, place }
}
