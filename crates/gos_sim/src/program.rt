// The program that a simulator runs in each cycle, as it is made of the cells.
ghost use Rattle.std.specs.Prelude.{◌≡◌, ◌+◌, ◌≤◌, ◌++◌, All, IfOk, OnOk, length, map};
ghost use Rattle.gos_netlist.specs.Seen.{cell_of, function_of, number_of};
ghost use Rattle.gos_sim.specs.inner.Program.{AreLatches, IsLatchWithin, latches_at, steps_named};
ghost use Rattle.gos_sim.specs.inner.Ready.{AreCellsReady};
ghost use Rattle.gos_sim.specs.inner.Order.{IsOrder};

use gos_netlist::{Cell, Gate, NetId};
use gos_types::NoMemory;
use std::alloc::Global;

/// A cell to evaluate, which is neither an input nor a register.
#[derive(Clone, Copy)]
pub struct Step {
    /// Its net.
    pub net: u32,
    /// Its bits.
    pub width: u32,
    /// What it shows there.
    pub gate: Gate,
}

/// A register.
#[derive(Clone, Copy)]
pub struct Latch {
    /// Its net.
    pub net: u32,
    /// The net whose value it takes over at the end of a cycle.
    pub pin: u32,
}

// The registers, in an order of all cells.
pub fn latches(alloc: Global, cells: &[Cell], order: &[NetId]) -> Result<Vec<Latch>, NoMemory>
    requires cells { AreCellsReady (map cell_of cells.now) }
    requires order { IsOrder (map cell_of cells.now) (map number_of order.now) }
    ensures latches { IfOk result (λ latches. AreLatches (map cell_of cells.now) latches.items) }
    ensures within { IfOk result (λ latches. All (IsLatchWithin (length cells.now)) latches.items) }
    ensures few { IfOk result (λ latches. length (steps_named cells.now (map number_of order.now)) + length latches.items ≤ length order.now) }
{
    let mut latches = Vec::new(alloc);
    for net in order {
        add_latch(&mut latches, net.0, cells[net.0 as usize])?;
    }
    Ok(latches)
}

// Adds a cell as a register, if it is one.
fn add_latch(latches: &mut Vec<Latch>, net: u32, cell: Cell) -> Result<(), NoMemory>
    ensures { OnOk result (latches.new.items ≡ latches.old.items ++ latches_at net (function_of cell.gate)) }
{
    if let Gate::Reg(pin) = cell.gate {
        latches.push(Latch { net, pin: pin.0 })?;
    }
    Ok(())
}
