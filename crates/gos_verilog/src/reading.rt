// Reading a netlist from its Verilog text.
ghost use Rattle.std.specs.Prelude.{◌≡◌, ◌≤◌, ◌++◌, ℕ, List, IfOk, IfErr, IsTrue, MatchResult, drop, length, map};
ghost use Rattle.std.specs.List.{AllByRecursion};
ghost use Rattle.gos_netlist.specs.Seen.{cell_of};
ghost use Rattle.gos_netlist.specs.Writable.{IsWritableCell, IsWritablePort};
ghost use Rattle.gos_types.specs.Widths.{IsWidth};
ghost use Rattle.gos_netlist.specs.Nets.{NetPort, Netlist as Net};
ghost use Rattle.gos_verilog.specs.Readable.{IsRead, IsReadable, IsRefused};
ghost use Rattle.gos_verilog.specs.Place.{ArePorts, HasPlace, IsFormedText};
ghost use Rattle.gos_verilog.specs.VerilogText.{IsVerilogOf};
ghost use Rattle.gos_verilog.specs.PortNets.{port_nets as nets_of};
ghost use Rattle.gos_verilog.specs.inner.Stages.{IsWant, declared_net, shape_of};
ghost use Rattle.gos_verilog.specs.inner.Breaks.{FaultFrom};
ghost use Rattle.gos_verilog.specs.inner.Left.{HaveNetNames, LeadsOnOf, LeftDrivers};
ghost use Rattle.gos_verilog.specs.inner.Parts.{Parts, front_of};

use crate::declared::{Shape, cell_declarations, further, port_declarations};
use crate::driven::drivers;
use crate::fault::VFault;
use crate::head::{head, word};
use crate::inputs::Inputs;
use crate::judged::judge;
use crate::outputs::outputs;
use crate::port_net::{PortNet, port_nets};
use crate::ports_of::ports_of;
use crate::readable::is_readable;
use crate::writing::module_text;
use gos_lex::Cursor;
use gos_netlist::{Cell, Netlist, Port};
use gos_types::NoMemory;
use std::alloc::Global;

/// The netlist whose Verilog text this is. `Err` is that it's the text of none, or want of memory. `write_verilog` is the
/// way back.
pub fn read_verilog(alloc: Global, text: &[u8]) -> Result<Netlist, VFault>
    ensures read { IfOk result (IsRead text.now) }
    ensures refused { IfErr result (IsRefused text.now) }
    ensures place { IfErr result (HasPlace text.now) }
{
    let net = parsed(alloc, text)?;
    if is_text_of(alloc, text, &net.cells, &net.ports)? {
        Ok(net)
    } else {
        Err(VFault::Form { at: text.len() })
    }
}

// Whether the text is that of the netlist of these cells and ports, and ports and inputs are as the format asks.
fn is_text_of(alloc: Global, text: &[u8], cells: &[Cell], ports: &[Port]) -> Result<bool, NoMemory>
    requires cells { AllByRecursion IsWritableCell (map cell_of cells.now) }
    requires ports { AllByRecursion IsWritablePort ports.now }
    ensures readable { IfOk result (λ is. IsTrue is → IsReadable (record { cells = map cell_of cells.now; ports = ports.now })) }
    ensures text { IfOk result (λ is. IsTrue is → IsVerilogOf (record { cells = map cell_of cells.now; ports = ports.now }) text.now) }
    ensures whole { IfOk result (λ is. IsRead text.now (record { cells = map cell_of cells.now; ports = ports.now }) → IsTrue is) }
{
    let nets = port_nets(alloc, ports)?;
    if !is_readable(alloc, cells, ports, &nets)? {
        return Ok(false);
    }
    let written = module_text(alloc, cells, ports)?;
    Ok(written.as_slice() == text)
}

// The netlist that the text is that of, if it is one of any that is read.
fn parsed(alloc: Global, text: &[u8]) -> Result<Netlist, VFault>
    ensures cells { IfOk result (λ net. AllByRecursion IsWritableCell net.cells) }
    ensures ports { IfOk result (λ net. AllByRecursion IsWritablePort net.ports) }
    ensures stands { (net : Net) → IsRead text.now net → MatchResult result (λ found. found ≡ net) IsWant }
    ensures formed { IfOk result (λ _. IsFormedText text.now) }
    ensures place { IfErr result (HasPlace text.now) }
{
    let (declared, at) = front(alloc, text)?;
    let (shapes, end, stopped) = cell_declarations(alloc, text, at)?;
    let (cells, nets) = match body(alloc, text, end, &shapes, &declared) {
        Ok(both) => both,
        Err(VFault::Form { at: place }) => return Err(VFault::Form {
            at: further(stopped, place),
        }),
        Err(VFault::NoMemory) => return Err(VFault::NoMemory),
    };
    match ports_of(alloc, &nets)? {
        Some(ports) => Ok(Netlist { cells, ports }),
        None => Err(VFault::Form { at: text.len() }),
    }
}

// Judges the head of a module, reads it and the declarations of its ports' nets, and gives these nets and the place behind.
fn front(alloc: Global, text: &[u8]) -> Result<(Vec<PortNet>, usize), VFault>
    ensures within { IfOk result (λ both. both.1 ≤ length text.now) }
    ensures head { MatchResult result (λ both. LeadsOnOf text.now both.1 both.0.items) (FaultFrom IsFormedText (record { text = text.now; at = 0 })) }
    ensures found { (ports : List NetPort) (more : List ℕ) → ArePorts ports → text.now ≡ front_of ports ++ more
        → IfOk result (λ both. (both.0.items ≡ map declared_net (nets_of ports)) × (drop both.1 text.now ≡ more)) }
{
    judge(alloc, text)?;
    let mut cursor = Cursor::new(text);
    let names = head(alloc, text, &mut cursor)?;
    word(&mut cursor, b"  input clk;\n  input rst;\n")?;
    port_declarations(alloc, text, cursor.at(), &names)
}

// Reads the lines behind the declarations, from `at` on, and gives the cells, and the nets of ports with the cells that
// they are.
fn body(
    alloc: Global,
    text: &[u8],
    at: usize,
    shapes: &[Shape],
    declared: &[PortNet],
) -> Result<(Vec<Cell>, Vec<PortNet>), VFault>
    requires within { at ≤ length text.now }
    requires few { length shapes.now ≤ 4294967295 }
    requires widths { AllByRecursion (λ shape. IsWidth shape.width) shapes.now }
    ensures cells { IfOk result (λ both. AllByRecursion IsWritableCell (map cell_of both.0.items)) }
    ensures left { HaveNetNames declared.now → IfOk result (λ _. LeftDrivers declared.now 0 shapes.now (drop at text.now)) }
    ensures wrong { HaveNetNames declared.now → IfErr result (FaultFrom (LeftDrivers declared.now 0 shapes.now) (record { text = text.now; at = at })) }
    ensures stands { (net : Net) (parts : Parts net) → declared.now ≡ map declared_net parts.nets → shapes.now ≡ map shape_of parts.cells
        → drop at text.now ≡ parts.drivers ++ parts.back
        → MatchResult result (λ both. (map cell_of both.0.items ≡ parts.cells) × (both.1.items ≡ parts.nets)) IsWant }
{
    let mut inputs = Inputs::new(alloc, declared)?;
    let (cells, end) = drivers(alloc, text, at, shapes, declared, &mut inputs)?;
    match outputs(alloc, &text[end..], declared, &inputs) {
        Ok(nets) => Ok((cells, nets)),
        Err(VFault::Form { at: place }) => Err(VFault::Form { at: end + place }),
        Err(VFault::NoMemory) => Err(VFault::NoMemory),
    }
}
