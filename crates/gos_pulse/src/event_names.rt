// The names of a netlist's events: PORT.EVENT.

ghost use Rattle.std.specs.Prelude.{◌≡◌, ◌<◌, ◌++◌, length, IfOk, OnOk};
ghost use Rattle.gos_netlist.specs.Seen.{ground_type};
ghost use Rattle.gos_pulse.specs.EventNames.{event_word, name_of, name_of_number, dotted};

use gos_netlist::{Event, Ground, Netlist, Port, events};
use gos_types::NoMemory;
use std::alloc::Global;

/// The name of the event of this number, PORT.EVENT; empty where there is none.
pub fn name_of_number(alloc: Global, net: &Netlist, number: usize) -> Result<Vec<u8>, NoMemory>
    ensures { IfOk result (λ name. name.items ≡ name_of_number net.now number) }
{
    let events = events(alloc, net)?;
    if number >= events.len() {
        return Ok(Vec::new(alloc));
    }
    event_name(alloc, &net.ports, events[number])
}

/// The name of an event of these ports.
pub(crate) fn event_name(alloc: Global, ports: &[Port], event: Event) -> Result<Vec<u8>, NoMemory>
    requires { event.port < length ports.now }
    ensures { IfOk result (λ name. name.items ≡ name_of ports.now event) }
{
    let mut name = Vec::new(alloc);
    add_name(&mut name, ports, event)?;
    Ok(name)
}

/// Adds the name of an event of these ports to a text.
pub(crate) fn add_name(text: &mut Vec<u8>, ports: &[Port], event: Event) -> Result<(), NoMemory>
    requires { event.port < length ports.now }
    ensures { OnOk result (text.new.items ≡ text.old.items ++ name_of ports.now event) }
{
    add_dotted(text, &ports[event.port], event.place)
}

// Adds the name of the event at a place of a port.
fn add_dotted(text: &mut Vec<u8>, port: &Port, place: usize) -> Result<(), NoMemory>
    ensures { OnOk result (text.new.items ≡ text.old.items ++ dotted port.now.name (event_word port.now.ty place)) }
{
    text.extend_from_slice(port.name.bytes())?;
    text.push(b'.')?;
    text.extend_from_slice(event_word(port.ground, place))?;
    Ok(())
}

// The name of the event at a place of a port of this type.
fn event_word(ground: Ground, place: usize) -> &'static [u8]
    ensures { result.now ≡ event_word (ground_type ground) place }
{
    match ground {
        Ground::Com => match place {
            0 => b"run",
            1 => b"done",
            _ => b"",
        },
        Ground::Exp(_) => match place {
            0 => b"ask",
            1 => b"ans",
            _ => b"",
        },
        Ground::Var(_) => match place {
            0 => b"read",
            1 => b"ans",
            2 => b"write",
            3 => b"done",
            _ => b"",
        },
    }
}
