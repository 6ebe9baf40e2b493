// The events of a netlist's ports.
ghost use Rattle.std.specs.Prelude.{◌≡◌, ◌++◌, IfOk, OnOk};
ghost use Rattle.gos_netlist.specs.Seen.{ground_type, side_of};
ghost use Rattle.gos_netlist.specs.Events.{is_input, port_events, events_of};
ghost use Rattle.gos_types.specs.Events.{Request, Answer};
ghost use Rattle.gos_types.specs.Events as table;

use crate::nets::{Ground, Netlist, Side};
use gos_types::NoMemory;
use std::alloc::Global;

/// An event of a port: a pulse that begins a handshake or ends it, with its number where it has one.
#[derive(Debug, Clone, Copy, PartialEq, Eq)]
pub struct Event {
    /// The place of its port among the ports.
    pub port: usize,
    /// The place of the event among those of its port.
    pub place: usize,
    /// Whether the surroundings give it.
    pub input: bool,
    /// The bits of its number; 0 where it has none.
    pub bits: u32,
}

/// The events of a netlist, by port and then by place. `Err` is want of memory alone.
pub fn events(alloc: Global, net: &Netlist) -> Result<Vec<Event>, NoMemory>
    ensures { IfOk result (λ all. all.items ≡ events_of net.now) }
{
    let mut all = Vec::new(alloc);
    for (place, port) in net.ports.iter().enumerate() {
        add_events(&mut all, place, port.side, port.ground)?;
    }
    Ok(all)
}

// Adds the events of a port.
fn add_events(all: &mut Vec<Event>, port: usize, side: Side, ty: Ground) -> Result<(), NoMemory>
    ensures { OnOk result (all.new.items ≡ all.old.items ++ port_events port (side_of side) 0 (table.events (ground_type ty))) }
{
    match ty {
        Ground::Com => {
            all.push(request(port, side, 0, 0))?;
            all.push(answer(port, side, 1, 0))?;
        }
        Ground::Exp(w) => {
            all.push(request(port, side, 0, 0))?;
            all.push(answer(port, side, 1, w))?;
        }
        Ground::Var(w) => {
            all.push(request(port, side, 0, 0))?;
            all.push(answer(port, side, 1, w))?;
            all.push(request(port, side, 2, w))?;
            all.push(answer(port, side, 3, 0))?;
        }
    }
    Ok(())
}

// A request of a port.
fn request(port: usize, side: Side, place: usize, bits: u32) -> Event
    ensures { result ≡ record { port = port; place = place; input = is_input (side_of side) Request; bits = bits } }
{
    let input = matches!(side, Side::Give);
    Event {
        port,
        place,
        input,
        bits,
    }
}

// An answer of a port.
fn answer(port: usize, side: Side, place: usize, bits: u32) -> Event
    ensures { result ≡ record { port = port; place = place; input = is_input (side_of side) Answer; bits = bits } }
{
    let input = matches!(side, Side::Take);
    Event {
        port,
        place,
        input,
        bits,
    }
}
