// The nets at which the events of a netlist come in and go out.
ghost use Rattle.std.specs.Prelude.{◌≡◌, ◌<◌, ◌≤◌, ◌++◌, ◌∷◌, [], All, IfOk, OnOk, filter, length, map};
ghost use Rattle.std.specs.List.{flat_map};
ghost use Rattle.gos_netlist.specs.Seen.{ground_type, number_of, side_of};
ghost use Rattle.gos_netlist.specs.Events.{net_count};
ghost use Rattle.gos_types.specs.Events.{Request, Answer};
ghost use Rattle.gos_sim.specs.EventNets as table;

use gos_netlist::{Ground, NetId, Netlist, Port, Side};
use gos_types::NoMemory;
use std::alloc::Global;

/// The nets of an event, by number.
#[derive(Debug, Clone, Copy)]
pub struct EventNets {
    /// Whether the surroundings give it.
    pub input: bool,
    /// The net of its pulse.
    pub pulse: u32,
    /// The net of its number, where it has one.
    pub number: Option<u32>,
}

// The events of a netlist that come in, or those that go out.
pub fn events_of(alloc: Global, net: &Netlist, input: bool) -> Result<Vec<EventNets>, NoMemory>
    requires { All (λ p. net_count p.ty ≤ length p.nets) net.now.ports }
    ensures { IfOk result (λ events. events.items ≡ filter (table.comes_in input) (table.all_events net.now)) }
{
    let all = all_events(alloc, &net.ports)?;
    chosen(alloc, &all, input)
}

// Those of events that come in, or those that go out.
#[tactic(auto, using(std::proofs::lemmas::List::Elements::filter_more))]
fn chosen(alloc: Global, events: &[EventNets], input: bool) -> Result<Vec<EventNets>, NoMemory>
    ensures { IfOk result (λ chosen. chosen.items ≡ filter (table.comes_in input) events.now) }
{
    let mut chosen = Vec::new(alloc);
    for event in events {
        add_chosen(&mut chosen, *event, input)?;
    }
    Ok(chosen)
}

// Adds an event where it is one of those that are asked for.
fn add_chosen(events: &mut Vec<EventNets>, event: EventNets, input: bool) -> Result<(), NoMemory>
    ensures { OnOk result (events.new.items ≡ events.old.items ++ filter (table.comes_in input) (event ∷ [])) }
{
    if event.input == input {
        events.push(event)?;
    }
    Ok(())
}

// All events of ports, by port and then by number.
fn all_events(alloc: Global, ports: &[Port]) -> Result<Vec<EventNets>, NoMemory>
    requires { All (λ p. net_count p.ty ≤ length p.nets) ports.now }
    ensures { IfOk result (λ events. events.items ≡ flat_map table.port_events ports.now) }
{
    let mut events = Vec::new(alloc);
    for port in ports {
        add_events(&mut events, port.side, port.ground, &port.nets)?;
    }
    Ok(events)
}

// Adds the events of a port.
fn add_events(
    events: &mut Vec<EventNets>,
    side: Side,
    ground: Ground,
    nets: &[NetId],
) -> Result<(), NoMemory>
    requires { net_count (ground_type ground) ≤ length nets.now }
    ensures { OnOk result (events.new.items ≡ events.old.items ++ table.events_at (side_of side) (ground_type ground) (map number_of nets.now)) }
{
    match ground {
        Ground::Com => {
            let asked = request(side, net_at(nets, 0), None);
            add_two(events, asked, answer(side, net_at(nets, 1), None))
        }
        Ground::Exp(_) => {
            let asked = request(side, net_at(nets, 0), None);
            add_two(
                events,
                asked,
                answer(side, net_at(nets, 1), Some(net_at(nets, 2))),
            )
        }
        Ground::Var(_) => {
            let asked = request(side, net_at(nets, 0), None);
            add_two(
                events,
                asked,
                answer(side, net_at(nets, 1), Some(net_at(nets, 2))),
            )?;
            let asked = request(side, net_at(nets, 3), Some(net_at(nets, 4)));
            add_two(events, asked, answer(side, net_at(nets, 5), None))
        }
    }
}

// Adds two events.
fn add_two(events: &mut Vec<EventNets>, first: EventNets, second: EventNets) -> Result<(), NoMemory>
    ensures { OnOk result (events.new.items ≡ events.old.items ++ first ∷ second ∷ []) }
{
    events.push(first)?;
    events.push(second)?;
    Ok(())
}

// The net at a place among those of a port.
fn net_at(nets: &[NetId], place: usize) -> u32
    requires { place < length nets.now }
    ensures { result ≡ table.net_at (map number_of nets.now) place }
{
    nets[place].0
}

// A request of a port.
fn request(side: Side, pulse: u32, number: Option<u32>) -> EventNets
    ensures { result ≡ table.nets_of_event (side_of side) Request pulse number }
{
    let input = matches!(side, Side::Give);
    EventNets {
        input,
        pulse,
        number,
    }
}

// An answer of a port.
fn answer(side: Side, pulse: u32, number: Option<u32>) -> EventNets
    ensures { result ≡ table.nets_of_event (side_of side) Answer pulse number }
{
    let input = matches!(side, Side::Take);
    EventNets {
        input,
        pulse,
        number,
    }
}
