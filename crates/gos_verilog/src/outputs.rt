// The assignments of the outputs of a module.
ghost use Rattle.std.specs.Prelude.{◌≡◌, ◌++◌, ℕ, List, ◌≤◌, IfOk, IfErr, MatchResult, length, map, codes};
ghost use Rattle.std.specs.List.{AllByRecursion, flat_map};
ghost use Rattle.gos_netlist.specs.Writable.{IsNumber};
ghost use Rattle.gos_verilog.specs.PortNets.{PortNet as Net};
ghost use Rattle.gos_verilog.specs.Lines.{output_assignment, assignment, cell_net};
ghost use Rattle.gos_lex.specs.ItemTexts.{Passed, IsTextOf};
ghost use Rattle.gos_verilog.specs.inner.Stages.{Rest, BreaksAt, IsWant, declared_net};
ghost use Rattle.gos_verilog.specs.inner.Breaks.{FaultFrom};
ghost use Rattle.gos_verilog.specs.inner.Left.{LeftOutputs};
ghost use Rattle.gos_verilog.specs.inner.Noted.{AreAllNoted};

use crate::fault::VFault;
use crate::head::word;
use crate::inputs::Inputs;
use crate::port_net::PortNet;
use crate::slots::{LAST_NET, Slot, framed, line};
use gos_lex::Cursor;
use gos_netlist::NetId;
use std::alloc::Global;

/// Reads the assignments of the outputs among these nets of ports and the module's end, up to the text's end. It gives the
/// nets with the cells that they are; those that are inputs are the cells that were noted to read them.
pub fn outputs(
    alloc: Global,
    rest: &[u8],
    nets: &[PortNet],
    inputs: &Inputs,
) -> Result<Vec<PortNet>, VFault>
    ensures left { IfOk result (λ _. LeftOutputs nets.now rest.now) }
    ensures wrong { IfErr result (FaultFrom (LeftOutputs nets.now) (record { text = rest.now; at = 0 })) }
    ensures stands { (known : List Net) → nets.now ≡ map declared_net known
        → AllByRecursion (λ n. IsNumber n.cell) known → AreAllNoted known inputs.now.cells.items
        → rest.now ≡ flat_map output_assignment known ++ codes "endmodule\n" → MatchResult result (λ found. found.items ≡ known) IsWant }
{
    let mut cursor = Cursor::new(rest);
    let mut known = Vec::new(alloc);
    for (k, net) in nets.iter().enumerate() {
        let cell = if net.input {
            inputs.cell(k)
        } else {
            output(alloc, &mut cursor, &net.name)?
        };
        known.push(with_cell(alloc, net, cell)?)?;
    }
    word(&mut cursor, b"endmodule\n")?;
    if cursor.finished() {
        Ok(known)
    } else {
        Err(VFault::Form { at: cursor.at() })
    }
}

// The net of a port, as this cell.
fn with_cell(alloc: Global, net: &PortNet, cell: NetId) -> Result<PortNet, VFault>
    ensures { MatchResult result (λ known. known ≡ record net.now { cell = cell.0 }) IsWant }
{
    Ok(PortNet {
        name: net.name.to_vec(alloc)?,
        input: net.input,
        width: net.width,
        cell,
    })
}

// Passes the assignment of the output of this name, and gives the cell that it is.
fn output(alloc: Global, cursor: &mut Cursor, name: &[u8]) -> Result<NetId, VFault>
    requires within { cursor.now.at ≤ length cursor.now.text }
    ensures number { IfOk result (λ found. IsNumber found.0) }
    ensures passed { IfOk result (λ found. Passed cursor.old cursor.new (assignment name.now (cell_net found.0))) }
    ensures wrong { IfErr result (BreaksAt (IsTextOf ℕ IsNumber (λ n. assignment name.now (cell_net n))) cursor.old) }
    ensures stands { (n : ℕ) (x : List ℕ) → IsNumber n → Rest cursor.old (assignment name.now (cell_net n) ++ x)
        → MatchResult result (λ found. (found.0 ≡ n) × Rest cursor.new x) IsWant }
{
    let before = framed(alloc, b"  assign ", name, b" = n")?;
    let slots = [Slot {
        before: &before,
        low: 0,
        high: LAST_NET,
        end: b';',
    }];
    match line(alloc, cursor, &slots, b"\n") {
        Ok(numbers) => Ok(NetId(numbers[0] as u32)),
        Err(at) => Err(VFault::Form { at }),
    }
}
