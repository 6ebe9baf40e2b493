// The nets of what goes out of each part of a plan.
ghost use Rattle.std.specs.Prelude.{◌≡◌, ◌≤◌, ◌+◌, map, option_map, length, slice_get, IfOk};
ghost use Rattle.std.specs.Option.{option_copied};
ghost use Rattle.gos_plan.specs.Ranges.{IsInRange};
ghost use Rattle.gos_plan.specs.Contacts.{contact_held};
ghost use Rattle.gos_plan.specs.Seen.{part_of};
ghost use Rattle.gos_macro.specs.Gates.{bits_out};
ghost use Rattle.gos_expand.specs.Gates.{part_size};
ghost use Rattle.gos_expand.specs.inner.Orders.{making_of, IsOrderOf};
ghost use Rattle.gos_expand.specs.inner.Tokens.{held_nets};
ghost use Rattle.gos_expand.specs.inner.Departures.{nets_of_wire, nets_of_wires, part_departures, nets_in};

use crate::gates::gates_of;
use crate::places::shakes;
use crate::tokens::Nets;
use gos_macro::{Macro, Wire};
use gos_netlist::NetId;
use gos_plan::{Contact, Kind, part_contacts};
use gos_types::{NoMemory, Role};
use std::alloc::Global;

// The nets of what goes out at each handshake of the parts of a plan, by part.
#[derive(Drop)]
pub(crate) struct Departures {
    pub parts: Vec<Vec<Nets>>,
}

impl Departures {
    // The nets at a handshake of a part, if there is such a one.
    pub(crate) fn get(&self, part: u32, shake: u32) -> Option<Nets>
        ensures { option_map held_nets result ≡ nets_in (slice_get (map (λ s. map held_nets s.items) self.now.parts.items) part) shake }
    {
        self.parts.get(part as usize)?.get(shake as usize).copied()
    }
}

// The nets of what goes out of a part whose first cell is `base`, by handshake.
pub(crate) fn part_departures(
    alloc: Global,
    kind: &Kind,
    order: Option<&[u32]>,
    base: u32,
) -> Result<Vec<Nets>, NoMemory>
    requires in_range { IsInRange kind.now }
    requires order { IsOrderOf (making_of (option_copied order)) (part_of kind.now) }
    requires numbered { base + part_size (making_of (option_copied order)) (part_of kind.now) ≤ 4294967295 }
    ensures { IfOk result (λ nets. map held_nets nets.items ≡ part_departures (making_of (option_copied order.entry)) (part_of kind.now) base) }
{
    let contacts = part_contacts(alloc, kind)?;
    let mut wires = no_wires();
    let wires = &mut wires[..shakes(kind) as usize];
    gates_of(kind, order).outs(NetId(base), wires);
    let nets = nets_of_wires(alloc, &contacts, wires)?;
    Ok(nets)
}

// The nets of what goes out by these wires, one for each handshake.
fn nets_of_wires(alloc: Global, contacts: &[Contact], wires: &[Wire]) -> Result<Vec<Nets>, NoMemory>
    requires { length contacts.now ≤ length wires.now }
    ensures { IfOk result (λ nets. map held_nets nets.items ≡ nets_of_wires contacts.now wires.now) }
{
    let mut nets = Vec::new(alloc);
    for shake in 0..contacts.len() {
        nets.push(nets_of_wire(contacts[shake], wires[shake]))?;
    }
    Ok(nets)
}

// The nets of what goes out by a wire at a handshake.
fn nets_of_wire(contact: Contact, wire: Wire) -> Nets
    ensures { held_nets result ≡ nets_of_wire contact wire }
{
    let number = if bits_out(contact) == 0 {
        NetId(0)
    } else {
        wire.out_value
    };
    Nets {
        pulse: wire.out_pulse,
        number,
    }
}

// How many bits what goes into the circuit at a handshake has.
fn bits_out(contact: Contact) -> u32
    ensures { result ≡ bits_out contact.role (contact_held contact) }
{
    match contact.role {
        Role::Serve => contact.answer_bits,
        Role::Ask => contact.ask_bits,
    }
}

// Wires whose nets aren't known yet, enough for each part.
pub(crate) fn no_wires() -> [Wire; 192] {
    let unknown = Wire {
        in_pulse: NetId(0),
        in_value: NetId(0),
        out_pulse: NetId(0),
        out_value: NetId(0),
    };
    [unknown; 192]
}
