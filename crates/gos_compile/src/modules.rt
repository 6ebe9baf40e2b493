// The parts and the ties of a module.
//
// Read walk.rt first. The imports are tied to their numbers, and then the term is walked over; its handshakes lead to
// the result's ends.

ghost use Rattle.std.specs.Prelude.{◌≡◌, ◌≤◌, ◌+◌, ◌++◌, All, IsTrue, length, map, IfOk, OnOk};
ghost use Rattle.std.specs.List.{list_all};
ghost use Rattle.gos_model.specs.Sources.{import_of};
ghost use Rattle.gos_check.specs.Nodes.{node_seen};
ghost use Rattle.gos_plan.specs.Seen.{part_of};
ghost use Rattle.gos_compile.specs.inner.Walked.{is_plain};
ghost use Rattle.gos_realises.specs.realises.Regular.{count};
ghost use Rattle.gos_compile.specs.Wiring.{type_of_node, import_ties, all_parts, all_ties, all_types};
ghost use Rattle.gos_compile.specs.inner.Loads.{load, most, HasFewShakes};

use crate::points::{lead_row, row, shakes};
use crate::types::{import_list, set_types};
use crate::walk::wire;
use crate::wires::Wires;
use gos_check::Node;
use gos_syntax::Import;
use gos_ties::{Place, Tie};
use gos_types::NoMemory;
use std::alloc::Global;

// Ties the imports' ends to their numbers.
fn tie_imports(alloc: Global, imports: &[Import], ties: &mut Vec<Tie>) -> Result<(), NoMemory>
    requires few { length imports.now ≤ most }
    requires small { All HasFewShakes imports.now }
    ensures { OnOk result (ties.new.items ≡ ties.old.items ++ import_ties 0 (map import_of imports.now)) }
{
    let mut number = 0;
    for import in imports {
        let n = shakes(&import.ty);
        lead_row(
            alloc,
            ties,
            Place::Import(number),
            n,
            Place::Number(number),
            0,
        )?;
        number += 1;
    }
    Ok(())
}

// The parts and the ties of a module with these imports and this term.
pub(crate) fn wires_of(alloc: Global, imports: &[Import], node: &Node) -> Result<Wires, NoMemory>
    requires few { length imports.now ≤ most }
    requires small { All HasFewShakes imports.now }
    requires room { count (type_of_node (node_seen node.now)) + load (all_types (map import_of imports.now) (node_seen node.now)) (node_seen node.now) ≤ most }
    ensures parts { IfOk result (λ wires. map part_of wires.parts.items ≡ all_parts (map import_of imports.now) (node_seen node.now)) }
    ensures plain { IfOk result (λ wires. IsTrue (list_all is_plain wires.parts.items)) }
    ensures ties { IfOk result (λ wires. wires.ties.items ≡ all_ties (map import_of imports.now) (node_seen node.now)) }
{
    let mut types = import_list(alloc, imports)?;
    set_types(alloc, node, &mut types)?;
    let mut ties = Vec::new(alloc);
    tie_imports(alloc, imports, &mut ties)?;
    let mut wires = Wires {
        parts: Vec::new(alloc),
        ties,
        nodes: 0,
    };
    let n = shakes(&node.ty);
    let out = row(alloc, Place::Result, n)?;
    wire(alloc, &types, node, &out, &mut wires)?;
    Ok(wires)
}
