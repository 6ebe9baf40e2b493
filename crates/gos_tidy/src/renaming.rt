// Cells with other nets in the place of their own.
ghost use Rattle.std.specs.Prelude.{◌≡◌, IsNone, IfSome, Some, map, slice_get};
ghost use Rattle.gos_netlist.specs.Nets.{Cell as Whole};
ghost use Rattle.gos_netlist.specs.Seen.{cell_of};
ghost use Rattle.gos_netlist.specs.Renamed.{with_renamed};
ghost use Rattle.gos_netlist.specs.Settling.{at};

use gos_netlist::{Cell, NetId};

// The number at a place of a table; 0 past its end.
pub(crate) fn entry(table: &[u32], place: u32) -> u32
    ensures { result ≡ at table.now place }
{
    table.get(place as usize).copied().unwrap_or(0)
}

// The cell of a net.
pub(crate) fn cell_at(cells: &[Cell], net: u32) -> Option<&Cell>
    ensures none { IsNone result → (c : Whole) → slice_get (map cell_of cells.now) net ≡ Some c → ⊥ }
    ensures some { IfSome result (λ cell. slice_get (map cell_of cells.now) net ≡ Some (cell_of cell.now)) }
{
    cells.get(net as usize)
}

// The net that a net is mapped to.
fn mapped(map: &[u32], net: NetId) -> NetId
    ensures { result.0 ≡ at map.now net.0 }
{
    NetId(entry(map, net.0))
}

// The cell with the nets in the place of its own that they are mapped to.
pub(crate) fn renamed_cell(map: &[u32], cell: &Cell) -> Cell
    ensures { cell_of result ≡ with_renamed (at map.now) (cell_of cell.now) }
{
    Cell {
        width: cell.width,
        gate: cell.gate.renamed(|net| mapped(map, net)),
    }
}
