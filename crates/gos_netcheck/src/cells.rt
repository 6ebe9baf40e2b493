// The rules for each cell: the nets that it names are there, and widths fit.
ghost use Rattle.std.specs.Prelude.{◌≡◌, ◌↔◌, ◌<◌, ◌≤◌, ◌^◌, IsTrue, IsNone, IfSome, MatchOption, map, length};
ghost use Rattle.gos_netlist.specs.Seen.{cell_of, function_of};
ghost use Rattle.gos_netcheck.specs.CellRules.{
  PinsExist,
  HasRightWidths,
  OperandsFit,
  NetsExist,
  WidthsFit,
  IsFirstWithoutNet,
  IsFirstOfWrongWidth,
  width_at,
  widths_of,
};
ghost use Rattle.gos_netcheck.specs.inner.CellFaults.{IsCellFault};

use crate::fault::NetFault;
use gos_netlist::{Cell, Gate, NetId};
use gos_types::{fits, is_width};

// The first fault of a cell. Only where there is one it is looked which.
pub(crate) fn first_wrong_cell(cells: &[Cell]) -> Option<NetFault>
    requires { length cells.now < 2 ^ 32 }
    ensures nets { IsNone result → NetsExist (map cell_of cells.now) }
    ensures widths { IsNone result → WidthsFit (map cell_of cells.now) }
    ensures fault { IfSome result (IsCellFault (map cell_of cells.now)) }
{
    if all_right(cells) {
        return None;
    }
    if let Some(cell) = first_without_net(cells) {
        return Some(NetFault::NoSuchNet { cell: cell as u32 });
    }
    if let Some(cell) = first_of_wrong_width(cells) {
        return Some(NetFault::Width { cell: cell as u32 });
    }
    None
}

// Whether all cells keep both rules.
fn all_right(cells: &[Cell]) -> bool
    ensures nets { IsTrue result → NetsExist (map cell_of cells.now) }
    ensures widths { IsTrue result → WidthsFit (map cell_of cells.now) }
{
    for cell in cells {
        if !is_right(cells, cell) {
            return false;
        }
    }
    true
}

// Whether the cell keeps both rules, looked at together.
fn is_right(cells: &[Cell], cell: &Cell) -> bool
    ensures nets { IsTrue result → PinsExist (length cells.now) (cell_of cell.now) }
    ensures widths { IsTrue result → HasRightWidths (widths_of (map cell_of cells.now)) (cell_of cell.now) }
{
    let width = cell.width;
    if !is_width(width) {
        return false;
    }
    match cell.gate {
        Gate::Input => true,
        Gate::Const(k) => fits(k, width),
        Gate::Not(a) | Gate::Reg(a) => has_width(cells, a, width),
        Gate::And(a, b) | Gate::Or(a, b) | Gate::Xor(a, b) | Gate::Add(a, b) | Gate::Sub(a, b) => {
            has_width(cells, a, width) && has_width(cells, b, width)
        }
        Gate::Mux(s, a, b) => {
            has_width(cells, s, 1) && has_width(cells, a, width) && has_width(cells, b, width)
        }
        Gate::Eq(a, b) | Gate::Less(a, b) => {
            width == 1
                && has_width(cells, b, width_of(cells, a))
                && has_width(cells, a, width_of(cells, b))
        }
        Gate::Gate(s, a) => has_width(cells, s, 1) && has_width(cells, a, width),
    }
}

// Whether the net is there and has so many bits.
fn has_width(cells: &[Cell], net: NetId, width: u32) -> bool
    ensures there { IsTrue result → net.0 < length cells.now }
    ensures width { IsTrue result → width_at (widths_of (map cell_of cells.now)) net.0 ≡ width }
{
    match cells.get(net.0 as usize) {
        Some(cell) => cell.width == width,
        None => false,
    }
}

// The first cell that names a net that isn't there.
fn first_without_net(cells: &[Cell]) -> Option<usize>
    ensures { MatchOption result (NetsExist (map cell_of cells.now)) (IsFirstWithoutNet (map cell_of cells.now)) }
{
    for (n, cell) in cells.iter().enumerate() {
        if !pins_exist(cells.len(), cell) {
            return Some(n);
        }
    }
    None
}

// Whether each net that the cell names is one of so many.
fn pins_exist(count: usize, cell: &Cell) -> bool
    ensures { IsTrue result ↔ PinsExist count (cell_of cell.now) }
{
    match cell.gate {
        Gate::Input | Gate::Const(_) => true,
        Gate::Not(a) | Gate::Reg(a) => exists(count, a),
        Gate::And(a, b)
        | Gate::Or(a, b)
        | Gate::Xor(a, b)
        | Gate::Add(a, b)
        | Gate::Sub(a, b)
        | Gate::Eq(a, b)
        | Gate::Less(a, b)
        | Gate::Gate(a, b) => exists(count, a) && exists(count, b),
        Gate::Mux(s, a, b) => exists(count, s) && exists(count, a) && exists(count, b),
    }
}

// Whether the net is one of so many.
fn exists(count: usize, net: NetId) -> bool
    ensures { IsTrue result ↔ (net.0 < count) }
{
    (net.0 as usize) < count
}

// The first cell with a wrong width.
fn first_of_wrong_width(cells: &[Cell]) -> Option<usize>
    ensures { MatchOption result (WidthsFit (map cell_of cells.now)) (IsFirstOfWrongWidth (map cell_of cells.now)) }
{
    for (n, cell) in cells.iter().enumerate() {
        if !has_right_widths(cells, cell) {
            return Some(n);
        }
    }
    None
}

// Whether the cell has a width, and its operands fit.
fn has_right_widths(cells: &[Cell], cell: &Cell) -> bool
    ensures { IsTrue result ↔ HasRightWidths (widths_of (map cell_of cells.now)) (cell_of cell.now) }
{
    is_width(cell.width) && operands_fit(cells, cell.width, cell.gate)
}

// Whether the operands fit a cell of so many bits.
fn operands_fit(cells: &[Cell], width: u32, gate: Gate) -> bool
    ensures { IsTrue result ↔ OperandsFit (widths_of (map cell_of cells.now)) width (function_of gate) }
{
    match gate {
        Gate::Input => true,
        Gate::Const(k) => fits(k, width),
        Gate::Not(a) | Gate::Reg(a) => width_of(cells, a) == width,
        Gate::And(a, b) | Gate::Or(a, b) | Gate::Xor(a, b) | Gate::Add(a, b) | Gate::Sub(a, b) => {
            width_of(cells, a) == width && width_of(cells, b) == width
        }
        Gate::Mux(s, a, b) => {
            width_of(cells, s) == 1 && width_of(cells, a) == width && width_of(cells, b) == width
        }
        Gate::Eq(a, b) | Gate::Less(a, b) => {
            width_of(cells, a) == width_of(cells, b) && width == 1
        }
        Gate::Gate(s, a) => width_of(cells, s) == 1 && width_of(cells, a) == width,
    }
}

// The bits of a net; 0 where there is no such net.
fn width_of(cells: &[Cell], net: NetId) -> u32
    ensures { result ≡ width_at (widths_of (map cell_of cells.now)) net.0 }
{
    match cells.get(net.0 as usize) {
        Some(cell) => cell.width,
        None => 0,
    }
}
