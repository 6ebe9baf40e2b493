// The numbers that cells show for ever, where some cells are constants.
ghost use Rattle.std.specs.Prelude.{◌≡◌, ◌≢◌, ◌⊎◌, ℕ, ◌^◌, ◌<◌, ◌≤◌, IsTrue, IfSome, Some, map, slice_get};
ghost use Rattle.gos_netlist.specs.Nets.{Mux, Const};
ghost use Rattle.gos_netlist.specs.Seen.{cell_of, function_of};
ghost use Rattle.gos_tidy.specs.Mapped.{IsConst};
ghost use Rattle.gos_tidy.specs.inner.Fixed.{IsDecided, IsFixed, IsHeld};
ghost use Rattle.gos_tidy.specs.Steady.{StaysZero};

use crate::constants::{folded, number};
use crate::quotient::{is_constant, is_kept, is_other, is_zero};
use gos_netlist::{Cell, Gate, NetId};
use gos_types::fits;

// The number that a cell shows for ever by these cells.
pub(crate) fn fixed(cells: &[Cell], cell: &Cell) -> Option<u64>
    ensures narrow { IfSome result (λ k. k < 2 ^ cell.now.width) }
    ensures fixed { IfSome result (IsFixed (map cell_of cells.now) cell.now.width (function_of cell.now.gate)) }
{
    if cell.width > 64 {
        return None;
    }
    match fixed_gate(cells, cell.width, cell.gate) {
        Some(k) => { if fits(k, cell.width) { Some(k) } else { None } }
        None => None,
    }
}

// The number that a cell of so many bits shows for ever.
fn fixed_gate(cells: &[Cell], width: u32, gate: Gate) -> Option<u64>
    requires { width ≤ 64 }
    ensures { IfSome result (IsFixed (map cell_of cells.now) width (function_of gate)) }
{
    if let Some(k) = folded(cells, width, gate) {
        return Some(k);
    }
    if let Some(k) = held(cells, gate) {
        return Some(k);
    }
    match decided(cells, gate) {
        Some(k) => Some(k),
        None => None,
    }
}

// What a register shows for ever that reads 0.
fn held(cells: &[Cell], gate: Gate) -> Option<u64>
    ensures { IfSome result (StaysZero (map cell_of cells.now) (function_of gate)) }
{
    match gate {
        Gate::Reg(a) if is_zero(cells, a.0) => Some(0),
        _ => None,
    }
}

// What a gate shows for ever though its nets aren't all constants.
fn decided(cells: &[Cell], gate: Gate) -> Option<u64>
    ensures { IfSome result (IsDecided (map cell_of cells.now) (function_of gate)) }
{
    match gate {
        Gate::And(a, b) => both(cells, a, b),
        Gate::Mux(s, a, b) => chosen(cells, s, a, b),
        Gate::Less(_, b) => none_less(cells, b),
        Gate::Gate(s, a) => let_through(cells, s, a),
        _ => None,
    }
}

// What a Less shows for ever whose second net is 0.
fn none_less(cells: &[Cell], b: NetId) -> Option<u64>
    ensures { IfSome result (λ k. (k ≡ 0) × IsConst (map cell_of cells.now) b.0 0) }
{
    if is_zero(cells, b.0) { Some(0) } else { None }
}

// What an And shows for ever of which a net is 0.
fn both(cells: &[Cell], a: NetId, b: NetId) -> Option<u64>
    ensures { IfSome result (λ k. (k ≡ 0) × (IsConst (map cell_of cells.now) a.0 0 ⊎ IsConst (map cell_of cells.now) b.0 0)) }
{
    if is_zero(cells, a.0) || is_zero(cells, b.0) {
        Some(0)
    } else {
        None
    }
}

// What a gate shows for ever that is closed, or lets 0 through.
fn let_through(cells: &[Cell], s: NetId, a: NetId) -> Option<u64>
    ensures { IfSome result (λ k. (k ≡ 0) × (((j : ℕ) × (j ≢ 1) × IsConst (map cell_of cells.now) s.0 j) ⊎ IsConst (map cell_of cells.now) a.0 0)) }
{
    if is_other(cells, s) || is_zero(cells, a.0) {
        Some(0)
    } else {
        None
    }
}

// What a Mux shows for ever whose selector is a constant, and so is the side that it chooses; or whose sides are one constant.
fn chosen(cells: &[Cell], s: NetId, a: NetId, b: NetId) -> Option<u64>
    ensures { IfSome result (IsDecided (map cell_of cells.now) (Mux s.0 a.0 b.0)) }
{
    match number(cells, s) {
        Some(k) => {
            if k == 1 {
                number(cells, a)
            } else {
                number(cells, b)
            }
        }
        None => one_number(cells, a, b),
    }
}

// The number of two nets that are one constant.
fn one_number(cells: &[Cell], a: NetId, b: NetId) -> Option<u64>
    ensures { IfSome result (λ k. IsConst (map cell_of cells.now) a.0 k × IsConst (map cell_of cells.now) b.0 k) }
{
    match number(cells, a) {
        Some(k) => if is_constant(cells, b.0, k) {
            Some(k)
        } else {
            None
        },
        None => None,
    }
}

// Whether this cell stands at its net, or the constant that it shows for ever by these cells.
pub(crate) fn is_held(cells: &[Cell], net: u32, cell: &Cell) -> bool
    ensures { IsTrue result → IsHeld (map cell_of cells.now) net (cell_of cell.now) }
{
    if is_kept(cells, net, cell) {
        return true;
    }
    match fixed(cells, cell) {
        Some(k) => is_there(cells, net, cell.width, k),
        None => false,
    }
}

// Whether a net's cell is this constant of so many bits.
fn is_there(cells: &[Cell], net: u32, width: u32, number: u64) -> bool
    ensures { IsTrue result → slice_get (map cell_of cells.now) net ≡ Some (record { width = width; gate = Const number }) }
{
    let gate = Gate::Const(number);
    is_kept(cells, net, &Cell { width, gate })
}
