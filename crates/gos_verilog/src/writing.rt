// Writing the text of a netlist.
ghost use Rattle.std.specs.Prelude.{◌≡◌, ◌<◌, ℕ, true, false, IfOk, length, map, get_or};
ghost use Rattle.gos_netlist.specs.Seen.{cell_of};
ghost use Rattle.gos_verilog.specs.PortNets.{port_nets as nets_of};
ghost use Rattle.gos_verilog.specs.inner.Inputs.{AreFed};
ghost use Rattle.gos_verilog.specs.VerilogText.{IsVerilogOf, first_name};
ghost use Rattle.gos_verilog.specs.inner.Drivers.{LeadsToFeeds, module_lines};

use crate::port_net::{PortNet, port_nets};
use crate::printing::{add_cells, add_clock, add_drivers, add_head, add_outputs, add_ports};
use gos_netcheck::Checked;
use gos_netlist::{Cell, Port};
use gos_types::NoMemory;
use std::alloc::Global;

/// The Verilog text of an accepted netlist: one module, named `gos_` and the name of the first port. `Err` is want of
/// memory alone.
pub fn write_verilog(alloc: Global, net: &Checked) -> Result<Vec<u8>, NoMemory>
    ensures { IfOk result (λ text. IsVerilogOf net.now text.items) }
{
    let net = net.netlist();
    module_text(alloc, &net.cells, &net.ports)
}

/// The text of the netlist of these cells and ports, each Input cell of which is an input.
pub(crate) fn module_text(
    alloc: Global,
    cells: &[Cell],
    ports: &[Port],
) -> Result<Vec<u8>, NoMemory>
    requires { AreFed (nets_of ports.now) (map cell_of cells.now) }
    ensures { IfOk result (λ text. IsVerilogOf (record { cells = map cell_of cells.now; ports = ports.now }) text.items) }
{
    let nets = port_nets(alloc, ports)?;
    let table = table(alloc, &nets, cells.len())?;
    lines(alloc, first_name(ports), &nets, &table, cells)
}

// The lines of the module of this name, with these nets of ports.
fn lines(
    alloc: Global,
    name: &[u8],
    nets: &[PortNet],
    table: &[usize],
    cells: &[Cell],
) -> Result<Vec<u8>, NoMemory>
    requires { length table.now ≡ length cells.now }
    ensures { IfOk result (λ text. text.items ≡ module_lines name.now nets.now table.now (map cell_of cells.now)) }
{
    let mut text = Vec::new(alloc);
    add_head(&mut text, name, nets)?;
    add_clock(&mut text)?;
    add_ports(alloc, &mut text, nets)?;
    add_cells(alloc, &mut text, cells)?;
    add_drivers(alloc, &mut text, nets, table, cells)?;
    add_outputs(alloc, &mut text, nets)?;
    Ok(text)
}

// The name of the first port.
fn first_name(ports: &[Port]) -> &[u8]
    ensures { result.now ≡ first_name ports.now }
{
    match ports {
        [first, ..] => first.name.bytes(),
        [] => b"",
    }
}

// A table from the number of each Input cell to the place of a net of a port that it is.
fn table(alloc: Global, nets: &[PortNet], cells: usize) -> Result<Vec<usize>, NoMemory>
    ensures length { IfOk result (λ table. length table.items ≡ cells) }
    ensures leads { IfOk result (λ table. LeadsToFeeds nets.now (length nets.now) table.items) }
{
    let mut table = vec![in alloc; 0; cells]?;
    for (k, net) in nets.iter().enumerate() {
        note(&mut table, k, net);
    }
    Ok(table)
}

// Notes the place `k` at the number of the cell that the net there is, where the net is an input.
fn note(table: &mut Vec<usize>, k: usize, net: &PortNet)
    ensures length { length table.new.items ≡ length table.old.items }
    ensures noted { net.now.input ≡ true → net.now.cell < length table.old.items → get_or table.new.items net.now.cell 0 ≡ k }
    ensures others { (i : ℕ) → (i ≡ net.now.cell → ⊥) → get_or table.new.items i 0 ≡ get_or table.old.items i 0 }
    ensures output { net.now.input ≡ false → table.new.items ≡ table.old.items }
{
    let cell = net.cell.0 as usize;
    if net.input && cell < table.len() {
        table[cell] = k;
    }
}
