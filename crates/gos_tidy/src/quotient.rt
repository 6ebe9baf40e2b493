// Cells that stand for the cells of a netlist, and the test of them.
ghost use Rattle.std.specs.Prelude.{◌≡◌, ◌≢◌, ℕ, ◌<◌, ◌^◌, ◌↔◌, IsTrue, Some, map, length, slice_get};
ghost use Rattle.gos_netlist.specs.Nets.{Input, Not, Mux, Gate as Through};
ghost use Rattle.gos_netlist.specs.Seen.{cell_of, function_of};
ghost use Rattle.gos_netlist.specs.Settling.{at};
ghost use Rattle.gos_netcheck.specs.Rules.{Kept};
ghost use Rattle.gos_tidy.specs.Mapped.{IsConst, IsXorOf};
ghost use Rattle.gos_tidy.specs.Reduced.{HasWidth, IsQuotient};
ghost use Rattle.gos_tidy.specs.inner.Reading.{FoldsTo, IsClosedOf, IsShortOf};
ghost use Rattle.gos_tidy.specs.inner.Roots.{IsPlaced, IsRoot, StaysAs, AreRoots};

use crate::constants::{folded, number};
use crate::renaming::{cell_at, entry, renamed_cell};
use crate::shape::same_cell;
use gos_netlist::{Cell, Gate, NetId};

// Cells to which others are merged.
#[derive(Debug, Drop)]
pub(crate) struct Quotient {
    // They, in their order.
    pub(crate) cells: Vec<Cell>,
    // The net that each of the merged nets goes to.
    pub(crate) map: Vec<u32>,
    // The net that each of them was.
    pub(crate) roots: Vec<u32>,
}

// Whether a cell of so many bits, read by nets of these cells, shows what this net of theirs shows.
pub(crate) fn is_short(cells: &[Cell], net: u32, width: u32, gate: Gate) -> bool
    ensures { IsTrue result → IsShortOf (map cell_of cells.now) net width (function_of gate) }
{
    match gate {
        Gate::Not(a) => is_complement(cells, a, net, width),
        Gate::And(a, b) | Gate::Or(a, b) => a.0 == b.0 && net == a.0,
        Gate::Xor(a, b) => is_xor(cells, b, width, a, net) || is_xor(cells, a, width, b, net),
        Gate::Mux(s, a, b) => is_chosen(cells, net, s, a, b),
        Gate::Gate(s, a) => is_let_through(cells, net, s, a),
        _ => false,
    }
}

// Whether a net is the one that a constant selector chooses.
fn is_chosen(cells: &[Cell], net: u32, selector: NetId, a: NetId, b: NetId) -> bool
    ensures { IsTrue result → IsShortOf (map cell_of cells.now) net 0 (Mux selector.0 a.0 b.0) }
{
    match number(cells, selector) {
        Some(k) => if k == 1 { net == a.0 } else { net == b.0 },
        None => false,
    }
}

// Whether a net shows what a constant selector lets through.
fn is_let_through(cells: &[Cell], net: u32, selector: NetId, a: NetId) -> bool
    ensures { IsTrue result → IsShortOf (map cell_of cells.now) net 0 (Through selector.0 a.0) }
{
    match number(cells, selector) {
        Some(k) => if k == 1 {
            net == a.0
        } else {
            is_zero(cells, net)
        },
        None => false,
    }
}

// Whether a net's cell is the complement of another net, of so many bits.
fn is_complement(cells: &[Cell], net: NetId, of: u32, width: u32) -> bool
    ensures { IsTrue result → slice_get (map cell_of cells.now) net.0 ≡ Some (record { width = width; gate = Not of }) }
{
    let gate = Gate::Not(NetId(of));
    is_kept(cells, net.0, &Cell { width, gate })
}

// Whether a net's cell is the Xor of these two nets, in either order, of so many bits.
fn is_xor(cells: &[Cell], net: NetId, width: u32, a: NetId, of: u32) -> bool
    ensures { IsTrue result → IsXorOf (map cell_of cells.now) width net.0 a.0 of }
{
    let one = Gate::Xor(a, NetId(of));
    let other = Gate::Xor(NetId(of), a);
    is_kept(cells, net.0, &Cell { width, gate: one })
        || is_kept(cells, net.0, &Cell { width, gate: other })
}

// Whether a net's cell is the constant 0.
pub(crate) fn is_zero(cells: &[Cell], net: u32) -> bool
    ensures { IsTrue result → IsConst (map cell_of cells.now) net 0 }
{
    match number(cells, NetId(net)) {
        Some(k) => k == 0,
        None => false,
    }
}

// Whether a cell, read by nets of these cells, is the one of this net.
pub(crate) fn is_kept(cells: &[Cell], net: u32, cell: &Cell) -> bool
    ensures { IsTrue result → slice_get (map cell_of cells.now) net ≡ Some (cell_of cell.now) }
{
    match cell_at(cells, net) {
        Some(other) => same_cell(other, cell),
        None => false,
    }
}

// Whether a cell, read by nets of these cells, is a gate of constants that shows what this net shows.
fn is_folded(cells: &[Cell], net: u32, cell: &Cell) -> bool
    ensures { IsTrue result → (k : ℕ) × FoldsTo (map cell_of cells.now) cell.now.width (function_of cell.now.gate) k × IsConst (map cell_of cells.now) net k }
{
    if cell.width > 64 {
        return false;
    }
    match folded(cells, cell.width, cell.gate) {
        Some(shown) => is_constant(cells, net, shown),
        None => false,
    }
}

// Whether a gate, read by nets of these cells, lets nothing through, and this net is the constant 0.
fn is_closed(cells: &[Cell], net: u32, gate: Gate) -> bool
    ensures { IsTrue result → IsClosedOf (map cell_of cells.now) net (function_of gate) }
{
    match gate {
        Gate::Gate(s, _) => is_other(cells, s) && is_zero(cells, net),
        _ => false,
    }
}

// Whether a net is a constant other than 1.
pub(crate) fn is_other(cells: &[Cell], net: NetId) -> bool
    ensures { IsTrue result → (k : ℕ) × (k ≢ 1) × IsConst (map cell_of cells.now) net.0 k }
{
    match number(cells, net) {
        Some(k) => k != 1,
        None => false,
    }
}

// Whether a net's cell is this constant.
pub(crate) fn is_constant(cells: &[Cell], net: u32, k: u64) -> bool
    ensures { IsTrue result → IsConst (map cell_of cells.now) net k }
{
    match number(cells, NetId(net)) {
        Some(shown) => shown == k,
        None => false,
    }
}

fn has_width(cells: &[Cell], net: u32, width: u32) -> bool
    ensures { IsTrue result → HasWidth (map cell_of cells.now) net width }
{
    match cell_at(cells, net) {
        Some(cell) => cell.width == width,
        None => false,
    }
}

// Whether a gate is an input.
pub(crate) fn is_input(gate: Gate) -> bool
    ensures { IsTrue result ↔ (function_of gate ≡ Input) }
{
    matches!(gate, Gate::Input)
}

// Whether a net's cell stands for the cell that it goes to, and this one's root is not behind it, but where it is short.
fn stands(others: &[Cell], targets: &[u32], roots: &[u32], net: u32, cell: &Cell) -> bool
    ensures { IsTrue result → IsPlaced (map cell_of others.now) (at targets.now) roots.now net (cell_of cell.now) }
{
    let target = entry(targets, net);
    let read = renamed_cell(targets, cell);
    if !has_width(others, target, cell.width) {
        return false;
    }
    if is_input(cell.gate) {
        return entry(roots, target) == net && is_kept(others, target, &read);
    }
    if is_short(others, target, read.width, read.gate) {
        return true;
    }
    entry(roots, target) <= net && stays(others, target, &read)
}

// Whether a cell, read by nets of these cells, is the one of this net, perhaps as a constant.
fn stays(others: &[Cell], net: u32, read: &Cell) -> bool
    ensures { IsTrue result → StaysAs (map cell_of others.now) net (cell_of read.now) }
{
    is_kept(others, net, read) || is_folded(others, net, read) || is_closed(others, net, read.gate)
}

// Whether each cell stands for the one that it goes to.
fn all_stand(cells: &[Cell], others: &[Cell], targets: &[u32], roots: &[u32]) -> bool
    requires { length cells.now < 2 ^ 32 }
    ensures { IsTrue result → Kept (IsPlaced (map cell_of others.now) (at targets.now) roots.now) (map cell_of cells.now) }
{
    for (n, cell) in cells.iter().enumerate() {
        if !stands(others, targets, roots, n as u32, cell) {
            return false;
        }
    }
    true
}

// Whether the root of a cell goes to it, and stays.
fn is_root(cells: &[Cell], others: &[Cell], targets: &[u32], place: usize, root: u32) -> bool
    ensures { IsTrue result → IsRoot (map cell_of cells.now) (map cell_of others.now) (at targets.now) place root }
{
    match cell_at(cells, root) {
        Some(cell) => {
            let target = entry(targets, root);
            let read = renamed_cell(targets, cell);
            target as usize == place && stays(others, target, &read)
        }
        None => false,
    }
}

// Whether all roots are right, and rise.
fn are_roots(cells: &[Cell], others: &[Cell], targets: &[u32], roots: &[u32]) -> bool
    ensures { IsTrue result → AreRoots (map cell_of cells.now) (map cell_of others.now) (at targets.now) roots.now }
{
    let mut least = 0usize;
    for (place, root) in roots.iter().enumerate() {
        let net = *root as usize;
        if net < least || !is_root(cells, others, targets, place, *root) {
            return false;
        }
        least = net + 1;
    }
    true
}

impl Quotient {
    // Whether all is right.
    pub(crate) fn is_right(&self, cells: &[Cell]) -> bool
        requires { length cells.now < 2 ^ 32 }
        ensures { IsTrue result → IsQuotient (map cell_of cells.now) (map cell_of self.now.cells.items) (at self.now.map.items) self.now.roots.items }
    {
        let others = self.cells.as_slice();
        let targets = self.map.as_slice();
        let roots = self.roots.as_slice();
        if roots.len() != others.len() || !all_stand(cells, others, targets, roots) {
            return false;
        }
        are_roots(cells, others, targets, roots)
    }
}
