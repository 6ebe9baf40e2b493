// Making constants of cells that show one number for ever.
//
// Which cells those are is a guess, which is tested cell by cell (`fixed.rt`): at first all registers are held to be 0, but those at
// ports, and then those that could be another number become registers again, with all that this changes.
ghost use Rattle.std.specs.Prelude.{◌≡◌, ◌<◌, ◌^◌, IsTrue, IfOk, IfSome, map, length, slice_get};
ghost use Rattle.gos_netlist.specs.Seen.{cell_of, number_of};
ghost use Rattle.gos_netcheck.specs.Rules.{Kept};
ghost use Rattle.gos_tidy.specs.Steady.{IsSteadied};
ghost use Rattle.gos_tidy.specs.inner.Fixed.{AreSteadied, IsHeld};

use crate::drop::copied;
use crate::fixed::{fixed, is_held};
use crate::order::ordered;
use crate::quotient::is_kept;
use crate::renaming::cell_at;
use crate::shape::same_cell;
use crate::users::Users;
use gos_netlist::{Cell, Gate, NetId, Netlist, Port};
use gos_types::NoMemory;
use std::alloc::Global;

// The netlist with the cells that show one number for ever as constants; None where there are none, or the guess is wrong.
pub(crate) fn steadied(alloc: Global, net: &Netlist) -> Result<Option<Netlist>, NoMemory>
    requires { length net.now.cells < 2 ^ 32 }
    ensures { IfOk result (λ found. IfSome found (IsSteadied net.now)) }
{
    let cells = with_constants(alloc, &net.cells, &net.ports)?;
    if all_same(&net.cells, &cells) {
        return Ok(None);
    }
    if !are_steadied(&net.cells, &cells, &net.ports) {
        return Ok(None);
    }
    let ports = copies(alloc, &net.ports)?;
    Ok(Some(Netlist { cells, ports }))
}

// The cells with constants in the place of some, right or not.
fn with_constants(alloc: Global, cells: &[Cell], ports: &[Port]) -> Result<Vec<Cell>, NoMemory> {
    let order = ordered(alloc, cells)?;
    let users = Users::new(alloc, cells)?;
    let ends = ends(alloc, cells.len(), ports)?;
    let mut others = without_registers(alloc, cells, &ends)?;
    for net in order.iter() {
        fix(&mut others, *net);
    }
    let mut todo = first_registers(alloc, cells, &others)?;
    for _ in 0..u64::MAX {
        let Some(net) = todo.pop() else {
            break;
        };
        if is_wrong(cells, &others, net) {
            restore(cells, &mut others, net);
            todo.extend_from_slice(users.of(net))?;
        }
    }
    Ok(others)
}

// Which nets stand at ports.
fn ends(alloc: Global, count: usize, ports: &[Port]) -> Result<Vec<bool>, NoMemory> {
    let mut ends = vec![in alloc; false; count]?;
    for port in ports {
        mark(&mut ends, &port.nets);
    }
    Ok(ends)
}

// Marks nets.
fn mark(marks: &mut [bool], nets: &[NetId]) {
    for net in nets {
        let place = net.0 as usize;
        if place < marks.len() {
            marks[place] = true;
        }
    }
}

// The cells with 0 in the place of each register but those at ports.
fn without_registers(alloc: Global, cells: &[Cell], ends: &[bool]) -> Result<Vec<Cell>, NoMemory> {
    let mut others = Vec::with_capacity(alloc, cells.len())?;
    for (cell, end) in cells.iter().zip(ends.iter()) {
        others.push(zeroed(*cell, *end))?;
    }
    Ok(others)
}

// The cell, or 0 where it is a register that stands at no port.
fn zeroed(cell: Cell, at_port: bool) -> Cell {
    let gate = match cell.gate {
        Gate::Reg(_) if !at_port => Gate::Const(0),
        gate => gate,
    };
    Cell {
        width: cell.width,
        gate,
    }
}

// Puts the constant that a gate shows in its place; registers stay.
fn fix(cells: &mut [Cell], net: NetId) {
    let place = net.0 as usize;
    if place >= cells.len() {
        return;
    }
    let cell = cells[place];
    if !matches!(cell.gate, Gate::Reg(_)) {
        if let Some(k) = fixed(cells, &cell) {
            cells[place].gate = Gate::Const(k);
        }
    }
}

// The registers that are constants among the others.
fn first_registers(alloc: Global, cells: &[Cell], others: &[Cell]) -> Result<Vec<u32>, NoMemory> {
    let mut todo = Vec::new(alloc);
    let mut net = 0u32;
    for (cell, other) in cells.iter().zip(others.iter()) {
        if matches!(cell.gate, Gate::Reg(_)) && !same_cell(cell, other) {
            todo.push(net)?;
        }
        net = net.wrapping_add(1);
    }
    Ok(todo)
}

// Whether a net is a constant among the others, and its cell doesn't show that for ever by them.
fn is_wrong(cells: &[Cell], others: &[Cell], net: u32) -> bool {
    match cell_at(cells, net) {
        Some(cell) => !is_held(others, net, cell),
        None => false,
    }
}

// Puts the cell of a net back to its place among the others.
fn restore(cells: &[Cell], others: &mut [Cell], net: u32) {
    let place = net as usize;
    if place < cells.len() && place < others.len() {
        others[place] = cells[place];
    }
}

// Whether all cells are the same.
fn all_same(cells: &[Cell], others: &[Cell]) -> bool {
    for (cell, other) in cells.iter().zip(others.iter()) {
        if !same_cell(cell, other) {
            return false;
        }
    }
    true
}

// Whether the others are these cells, with some as the constants that they show for ever, but none at a port.
fn are_steadied(cells: &[Cell], others: &[Cell], ports: &[Port]) -> bool
    requires { length cells.now < 2 ^ 32 }
    ensures { IsTrue result → AreSteadied (map cell_of cells.now) (map cell_of others.now) ports.now }
{
    all_held(cells, others) && ends_stay(cells, others, ports)
}

// Whether at each net the cell is the same, or the constant that it shows for ever, and there are no more.
fn all_held(cells: &[Cell], others: &[Cell]) -> bool
    requires { length cells.now < 2 ^ 32 }
    ensures each { IsTrue result → length (map cell_of others.now) ≡ length (map cell_of cells.now) }
    ensures held { IsTrue result → Kept (IsHeld (map cell_of others.now)) (map cell_of cells.now) }
{
    if others.len() != cells.len() {
        return false;
    }
    for (n, cell) in cells.iter().enumerate() {
        if !is_held(others, n as u32, cell) {
            return false;
        }
    }
    true
}

// Whether the cells at the nets of ports are the same.
fn ends_stay(cells: &[Cell], others: &[Cell], ports: &[Port]) -> bool
    ensures { IsTrue result → Kept (λ _ p. Kept (λ _ n. slice_get (map cell_of others.now) n ≡ slice_get (map cell_of cells.now) n) p.nets) ports.now }
{
    for port in ports {
        if !port_stays(cells, others, port) {
            return false;
        }
    }
    true
}

// Whether the cells at the nets of a port are the same.
fn port_stays(cells: &[Cell], others: &[Cell], port: &Port) -> bool
    ensures { IsTrue result → Kept (λ _ n. slice_get (map cell_of others.now) n ≡ slice_get (map cell_of cells.now) n) port.now.nets }
{
    nets_stay(cells, others, &port.nets)
}

// Whether the cells of nets are the same.
fn nets_stay(cells: &[Cell], others: &[Cell], nets: &[NetId]) -> bool
    ensures { IsTrue result → Kept (λ _ n. slice_get (map cell_of others.now) n ≡ slice_get (map cell_of cells.now) n) (map number_of nets.now) }
{
    for net in nets {
        if !stays(cells, others, net.0) {
            return false;
        }
    }
    true
}

// Whether the cell of a net is the same.
fn stays(cells: &[Cell], others: &[Cell], net: u32) -> bool
    ensures { IsTrue result → slice_get (map cell_of others.now) net ≡ slice_get (map cell_of cells.now) net }
{
    match cell_at(cells, net) {
        Some(cell) => is_kept(others, net, cell),
        None => false,
    }
}

// The ports once more.
fn copies(alloc: Global, ports: &[Port]) -> Result<Vec<Port>, NoMemory>
    ensures { IfOk result (λ copies. copies.items ≡ ports.now) }
{
    let mut copies = Vec::new(alloc);
    for port in ports {
        copies.push(copy(alloc, port)?)?;
    }
    Ok(copies)
}

// A port once more.
fn copy(alloc: Global, port: &Port) -> Result<Port, NoMemory>
    ensures { IfOk result (λ copy. copy ≡ port.now) }
{
    Ok(Port {
        name: copied(alloc, &port.name)?,
        side: port.side,
        ground: port.ground,
        nets: port.nets.to_vec(alloc)?,
    })
}
