// How much there is of cells that a single change may take away.
ghost use Rattle.std.specs.Prelude.{◌≡◌, ◌<◌, ◌^◌, map, length};
ghost use Rattle.gos_netlist.specs.Seen.{cell_of, function_of};
ghost use Rattle.gos_tidy.specs.inner.Changes.{size, weight};

use gos_netlist::{Cell, Gate, Netlist};

// Of the cells of a netlist.
pub(crate) fn netlist_size(net: &Netlist) -> u64
    requires { length net.now.cells < 2 ^ 32 }
    ensures { result ≡ size net.now.cells }
{
    size_of(&net.cells)
}

// It grows with the cells, and a constant counts for less than another cell.
fn size_of(cells: &[Cell]) -> u64
    requires { length cells.now < 2 ^ 32 }
    ensures { result ≡ size (map cell_of cells.now) }
{
    let mut size = 0u64;
    for cell in cells {
        size += weight_of(cell.gate);
    }
    size
}

// How much a cell counts.
fn weight_of(gate: Gate) -> u64
    ensures { result ≡ weight (function_of gate) }
{
    match gate {
        Gate::Const(_) => 1,
        _ => 2,
    }
}
