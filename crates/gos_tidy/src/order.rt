// An order in which cells can be evaluated. Nothing here is trusted: it only says which cells are looked at first.
use crate::users::{Users, pins};
use gos_netlist::{Cell, Gate, NetId};
use gos_types::NoMemory;
use std::alloc::Global;

// The nets of these cells, each behind its pins; but inputs, constants and registers stand first.
pub(crate) fn ordered(alloc: Global, cells: &[Cell]) -> Result<Vec<NetId>, NoMemory> {
    let users = Users::new(alloc, cells)?;
    let mut missing = missing_pins(alloc, cells)?;
    let mut order = first_nets(alloc, &missing)?;
    for next in 0..cells.len() {
        let Some(net) = order.get(next).copied() else {
            break;
        };
        add_ready(&mut order, &mut missing, users.of(net.0))?;
    }
    Ok(order)
}

// How many pins each cell waits for.
fn missing_pins(alloc: Global, cells: &[Cell]) -> Result<Vec<u32>, NoMemory> {
    let mut missing = Vec::with_capacity(alloc, cells.len())?;
    for cell in cells {
        missing.push(pin_count(cell.gate))?;
    }
    Ok(missing)
}

// How many pins a cell waits for: a register for none.
fn pin_count(gate: Gate) -> u32 {
    if matches!(gate, Gate::Reg(_)) {
        return 0;
    }
    let [a, b, c] = pins(gate);
    u32::from(a.is_some()) + u32::from(b.is_some()) + u32::from(c.is_some())
}

// The nets whose cells wait for no pin.
fn first_nets(alloc: Global, missing: &[u32]) -> Result<Vec<NetId>, NoMemory> {
    let mut order = Vec::with_capacity(alloc, missing.len())?;
    let mut net = 0u32;
    for count in missing {
        if *count == 0 {
            order.push(NetId(net))?;
        }
        net = net.wrapping_add(1);
    }
    Ok(order)
}

// Adds the nets that wait for no pin once these cells have one more.
fn add_ready(order: &mut Vec<NetId>, missing: &mut [u32], users: &[u32]) -> Result<(), NoMemory> {
    for user in users {
        let place = *user as usize;
        if place < missing.len() && missing[place] > 0 {
            missing[place] -= 1;
            if missing[place] == 0 {
                order.push(NetId(*user))?;
            }
        }
    }
    Ok(())
}
