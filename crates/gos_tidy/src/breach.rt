// The first cell that may be changed.
ghost use Rattle.std.specs.Prelude.{◌≡◌, ◌≢◌, ◌⊎◌, ◌+◌, ◌<◌, ◌≤◌, ◌^◌, ℕ, IsNone, IfOk, IfSome, MatchOption, map, length, slice_get};
ghost use Rattle.gos_netlist.specs.Nets.{Not, Xor, Mux, Gate as Through};
ghost use Rattle.gos_netlist.specs.Seen.{cell_of, function_of};
ghost use Rattle.gos_netcheck.specs.CellRules.{WidthsFit, OperandsFit, width_at, widths_of};
ghost use Rattle.gos_tidy.specs.Mapped.{IsXorOf};
ghost use Rattle.gos_tidy.specs.Tidy.{IsSpare};
ghost use Rattle.gos_tidy.specs.inner.Breaches.{Allows, IsBreach, MayBe, IsFirm, IsFirmAt, AllFirm, IsNew, IsAgain, HasCells};

use crate::constants::{folded, number};
use crate::quotient::is_input;
use crate::renaming::cell_at;
use crate::shape::{Shape, shape_of};
use gos_netlist::{Cell, Gate, NetId};
use gos_types::NoMemory;
use indexmap::IndexMap;
use std::alloc::Global;

// A single change of a cell.
#[derive(Debug, Clone, Copy)]
pub(crate) enum Change {
    // It becomes this constant.
    Number(u64),
    // Its net goes to this one.
    Net(u32),
}

// A cell that may be changed.
#[derive(Debug, Clone, Copy)]
pub(crate) struct Breach {
    pub(crate) net: u32,
    pub(crate) change: Change,
}

// The first cell that may be changed; None where none may.
pub(crate) fn first_breach(alloc: Global, cells: &[Cell]) -> Result<Option<Breach>, NoMemory>
    requires few { length cells.now < 2 ^ 32 }
    requires fit { WidthsFit (map cell_of cells.now) }
    ensures breach { IfOk result (λ found. IfSome found (IsBreach (map cell_of cells.now))) }
    ensures firm { IfOk result (λ found. IsNone found → AllFirm (map cell_of cells.now)) }
{
    let mut table = IndexMap::with_capacity(alloc, cells.len())?;
    for net in 0..cells.len() {
        if let Some(change) = change_at(&mut table, cells, net as u32)? {
            return Ok(Some(Breach {
                net: net as u32,
                change,
            }));
        }
    }
    Ok(None)
}

// The change of the cell of a net, where the table has the cells before it. Where there is none, the table has this one too.
fn change_at(
    table: &mut IndexMap<Shape, u32>,
    cells: &[Cell],
    net: u32,
) -> Result<Option<Change>, NoMemory>
    requires there { net < length cells.now }
    requires fit { WidthsFit (map cell_of cells.now) }
    requires table { HasCells (map cell_of cells.now) net table.old }
    ensures may { IfOk result (λ found. IfSome found (λ change. MayBe (map cell_of cells.now) net change)) }
    ensures firm { IfOk result (λ found. IsNone found → IsFirmAt (map cell_of cells.now) net) }
    ensures table { IfOk result (λ found. IsNone found → HasCells (map cell_of cells.now) (net + 1) table.new) }
{
    match own_change(cells, &cells[net as usize]) {
        Some(change) => Ok(Some(change)),
        None => match seen(table, cells, net)? {
            Some(first) => Ok(Some(Change::Net(first))),
            None => Ok(None),
        },
    }
}

// An earlier net with the cell of this one. Where there is none, the cell is put into the table. Inputs are not looked up.
fn seen(table: &mut IndexMap<Shape, u32>, cells: &[Cell], net: u32) -> Result<Option<u32>, NoMemory>
    requires there { net < length cells.now }
    requires table { HasCells (map cell_of cells.now) net table.old }
    ensures again { IfOk result (λ found. IfSome found (λ first. IsAgain (map cell_of cells.now) first net)) }
    ensures new { IfOk result (λ found. IsNone found → IsNew (map cell_of cells.now) net) }
    ensures table { IfOk result (λ found. IsNone found → HasCells (map cell_of cells.now) (net + 1) table.new) }
{
    let cell = &cells[net as usize];
    if is_input(cell.gate) {
        return Ok(None);
    }
    Ok(table.insert(shape_of(cell), net)?)
}

// The change that the pins of a cell allow.
fn own_change(cells: &[Cell], cell: &Cell) -> Option<Change>
    requires narrow { cell.now.width ≤ 64 }
    requires fit { OperandsFit (widths_of (map cell_of cells.now)) cell.now.width (function_of cell.now.gate) }
    ensures allows { IfSome result (Allows (map cell_of cells.now) cell.now.width (function_of cell.now.gate)) }
    ensures firm { IsNone result → IsFirm (map cell_of cells.now) (function_of cell.now.gate) }
{
    match folded(cells, cell.width, cell.gate) {
        Some(k) => Some(Change::Number(k)),
        None => short_change(cells, cell.width, cell.gate),
    }
}

// The change that the pins of a gate allow, where they aren't all constants.
fn short_change(cells: &[Cell], width: u32, gate: Gate) -> Option<Change>
    requires { OperandsFit (widths_of (map cell_of cells.now)) width (function_of gate) }
    ensures allows { IfSome result (Allows (map cell_of cells.now) width (function_of gate)) }
    ensures none { IsNone result → IsSpare (map cell_of cells.now) (function_of gate) → ⊥ }
{
    match gate {
        Gate::Not(a) => turned_change(cells, width, a),
        Gate::And(a, b) | Gate::Or(a, b) => same_change(a, b),
        Gate::Xor(a, b) => mixed_change(cells, width, a, b),
        Gate::Mux(s, a, b) => chosen_change(cells, s, a, b),
        Gate::Gate(s, a) => through_change(cells, s, a),
        _ => None,
    }
}

// Of a complement: the net whose complement its pin is.
fn turned_change(cells: &[Cell], width: u32, a: NetId) -> Option<Change>
    requires { width_at (widths_of (map cell_of cells.now)) a.0 ≡ width }
    ensures allows { IfSome result (Allows (map cell_of cells.now) width (Not a.0)) }
    ensures none { IsNone result → IsSpare (map cell_of cells.now) (Not a.0) → ⊥ }
{
    match cell_at(cells, a.0) {
        Some(cell) => inner_change(cell.gate),
        None => None,
    }
}

// The net whose complement a gate is.
fn inner_change(gate: Gate) -> Option<Change>
    ensures { MatchOption result ((b : ℕ) → function_of gate ≡ Not b → ⊥) (λ change. (b : ℕ) × (change ≡ Change.Net b) × (function_of gate ≡ Not b)) }
{
    match gate {
        Gate::Not(b) => Some(Change::Net(b.0)),
        _ => None,
    }
}

// Of a Xor of which a pin is a Xor of the other one: the net that is left.
fn mixed_change(cells: &[Cell], width: u32, a: NetId, b: NetId) -> Option<Change>
    requires first { width_at (widths_of (map cell_of cells.now)) a.0 ≡ width }
    requires second { width_at (widths_of (map cell_of cells.now)) b.0 ≡ width }
    ensures allows { IfSome result (Allows (map cell_of cells.now) width (Xor a.0 b.0)) }
    ensures none { IsNone result → IsSpare (map cell_of cells.now) (Xor a.0 b.0) → ⊥ }
{
    match rest_at(cells, width, b, a) {
        Some(rest) => Some(Change::Net(rest.0)),
        None => match rest_at(cells, width, a, b) {
            Some(rest) => Some(Change::Net(rest.0)),
            None => None,
        },
    }
}

// The net whose Xor with another one a net of so many bits is.
fn rest_at(cells: &[Cell], width: u32, net: NetId, a: NetId) -> Option<NetId>
    requires { width_at (widths_of (map cell_of cells.now)) net.0 ≡ width }
    ensures some { IfSome result (λ rest. IsXorOf (map cell_of cells.now) width net.0 a.0 rest.0) }
    ensures none { IsNone result → (w t : ℕ) → IsXorOf (map cell_of cells.now) w net.0 a.0 t → ⊥ }
{
    match cell_at(cells, net.0) {
        Some(cell) => rest_of(cell.gate, a),
        None => None,
    }
}

// The net whose Xor with another one a gate is.
fn rest_of(gate: Gate, a: NetId) -> Option<NetId>
    ensures { MatchOption result
        ((t : ℕ) → (function_of gate ≡ Xor a.0 t) ⊎ (function_of gate ≡ Xor t a.0) → ⊥)
        (λ rest. (function_of gate ≡ Xor a.0 rest.0) ⊎ (function_of gate ≡ Xor rest.0 a.0)) }
{
    match gate {
        Gate::Xor(first, second) => {
            if first.0 == a.0 {
                Some(second)
            } else if second.0 == a.0 {
                Some(first)
            } else {
                None
            }
        }
        _ => None,
    }
}

// Of equal pins: either.
fn same_change(a: NetId, b: NetId) -> Option<Change>
    ensures { MatchOption result (a.0 ≢ b.0) (λ change. (change ≡ Change.Net a.0) × (a.0 ≡ b.0)) }
{
    if a.0 == b.0 {
        Some(Change::Net(a.0))
    } else {
        None
    }
}

// Of a constant selector: the net that it chooses.
fn chosen_change(cells: &[Cell], s: NetId, a: NetId, b: NetId) -> Option<Change>
    ensures allows { IfSome result (λ change. (width : ℕ) → Allows (map cell_of cells.now) width (Mux s.0 a.0 b.0) change) }
    ensures none { IsNone result → IsSpare (map cell_of cells.now) (Mux s.0 a.0 b.0) → ⊥ }
{
    match number(cells, s) {
        Some(k) => {
            if k == 1 {
                Some(Change::Net(a.0))
            } else {
                Some(Change::Net(b.0))
            }
        }
        None => None,
    }
}

// Of a constant selector: the net that it lets through, or 0.
fn through_change(cells: &[Cell], s: NetId, a: NetId) -> Option<Change>
    ensures allows { IfSome result (λ change. (width : ℕ) → Allows (map cell_of cells.now) width (Through s.0 a.0) change) }
    ensures none { IsNone result → IsSpare (map cell_of cells.now) (Through s.0 a.0) → ⊥ }
{
    match number(cells, s) {
        Some(k) => {
            if k == 1 {
                Some(Change::Net(a.0))
            } else {
                Some(Change::Number(0))
            }
        }
        None => None,
    }
}
