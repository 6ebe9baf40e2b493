// Small words for those who lay parts out: cells of one bit and of several, buffers, and the nets of a part's own cells.
ghost use Rattle.std.specs.Prelude.{◌≡◌, ◌+◌, ◌≤◌};
ghost use Rattle.gos_netlist.specs.Seen.{cell_of, function_of};
ghost use Rattle.gos_macro.specs.Cells as cells;

use gos_netlist::{Cell, Gate, NetId};

/// A cell of one bit.
pub fn bit(gate: Gate) -> Cell
    ensures { cell_of result ≡ cells.bit (function_of gate) }
{
    Cell { width: 1, gate }
}

/// A cell of so many bits.
pub fn wide(width: u32, gate: Gate) -> Cell
    ensures { cell_of result ≡ cells.wide width (function_of gate) }
{
    Cell { width, gate }
}

/// A cell that shows what a net of one bit shows.
pub fn buffer(net: NetId) -> Cell
    ensures { cell_of result ≡ cells.buffer net.0 }
{
    bit(Gate::Or(net, net))
}

/// The net of the cell at this place of a part whose first cell is `base`.
pub fn own(base: u32, place: u32) -> NetId
    requires { base + place ≤ 4294967295 }
    ensures { result.0 ≡ base + place }
{
    NetId(base + place)
}
