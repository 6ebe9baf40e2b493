// A netlist's input events, by name.

ghost use Rattle.std.specs.Prelude.{◌≡◌, ◌<◌, ℕ, length, IfOk, MatchOption};
ghost use Rattle.gos_netlist.specs.declared.event.Event as seen;
ghost use Rattle.gos_pulse.specs.EventNames.{IsInput};
ghost use Rattle.gos_pulse.specs.inner.EventTable.{IsTable, IsTableOf, HasPorts};

use crate::event_names::event_name;
use gos_lex::NameTable;
use gos_netlist::{Event, Netlist, Port, events};
use gos_types::NoMemory;
use std::alloc::Global;

/// The events of a netlist, and the numbers of its input events by name.
#[derive(Drop)]
pub(crate) struct EventTable {
    pub events: Vec<Event>,
    pub numbers: NameTable,
}

impl EventTable {
    /// The table of a netlist's events.
    pub fn new(alloc: Global, net: &Netlist) -> Result<EventTable, NoMemory>
        ensures { IfOk result (IsTable net.now) }
    {
        let events = events(alloc, net)?;
        let numbers = number_inputs(alloc, &net.ports, events.as_slice())?;
        Ok(EventTable { events, numbers })
    }

    /// The number of the input event with this name, and the bits of its value, 0 where it has none.
    pub fn find(&self, net: &Netlist, name: &[u8]) -> Option<(usize, u32)>
        requires { IsTable net.now self.now }
        ensures { MatchOption result ((i : ℕ) (event : seen.Event) → IsInput net.now i event name.now → ⊥) (λ found.
            (event : seen.Event) × IsInput net.now found.0 event name.now × (found.1 ≡ event.bits)) }
    {
        match self.numbers.get(name) {
            None => None,
            Some(number) => Some((number, self.events[number].bits)),
        }
    }
}

// The numbers of the input events among these.
fn number_inputs(alloc: Global, ports: &[Port], events: &[Event]) -> Result<NameTable, NoMemory>
    requires { HasPorts (length ports.now) events.now }
    ensures { IfOk result (IsTableOf ports.now events.now (length events.now)) }
{
    let mut numbers = NameTable::new(alloc);
    for (number, event) in events.iter().enumerate() {
        if event.input {
            let name = event_name(alloc, ports, *event)?;
            numbers.add(name, number)?;
        }
    }
    Ok(numbers)
}
