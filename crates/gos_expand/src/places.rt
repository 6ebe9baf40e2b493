// The ends of a plan, in the order in which their blocks stand.
ghost use Rattle.std.specs.Prelude.{◌≡◌, ◌++◌, ◌≤◌, map, length, IfOk, OnOk};
ghost use Rattle.gos_netlist.specs.Seen.{side_of};
ghost use Rattle.gos_plan.specs.Kinds.{part_contacts};
ghost use Rattle.gos_plan.specs.Seen.{plan_of, part_of, end_of};
ghost use Rattle.gos_plan.specs.Ranges.{IsInRange};
ghost use Rattle.gos_expand.specs.Starts.{ports_of, taken_ports, port_ends, part_ends};
ghost use Rattle.gos_plan.specs.Size.{plan_size};
ghost use Rattle.gos_expand.specs.Acceptance.{HasGroundPorts};
ghost use Rattle.gos_expand.specs.inner.Numbering.{end_at, ends_from};
ghost use Rattle.gos_expand.specs.inner.Outers.{side_at};

use gos_netlist::Side;
use gos_plan::{End, Kind, Plan};
use gos_types::{NoMemory, count};
use std::alloc::Global;

// Where ends stand: at a part or an import, by its number, or at the result.
#[derive(Debug, Clone, Copy)]
pub(crate) enum Place {
    OfPart(u32),
    OfImport(u32),
    OfResult,
}

impl Place {
    // The end of a handshake there.
    pub(crate) fn end(self, shake: u32) -> End
        ensures { end_of result ≡ end_at self shake }
    {
        match self {
            Place::OfPart(part) => End::Part { part, shake },
            Place::OfImport(import) => End::Import { import, shake },
            Place::OfResult => End::Result { shake },
        }
    }

    // The side of a port there.
    pub(crate) fn side(self) -> Side
        ensures { side_of result ≡ side_at self }
    {
        match self {
            Place::OfResult => Side::Give,
            _ => Side::Take,
        }
    }
}

// How many handshakes a part has.
pub(crate) fn shakes(kind: &Kind) -> u32
    requires { IsInRange kind.now }
    ensures is { result ≡ length (part_contacts (part_of kind.now)) }
    ensures few { result ≤ 192 }
{
    match kind {
        Kind::Skip | Kind::Lit { .. } => 1,
        Kind::Not { .. } | Kind::Deref { .. } => 2,
        Kind::Seq
        | Kind::SeqExp { .. }
        | Kind::Par
        | Kind::While
        | Kind::Op { .. }
        | Kind::Assign { .. } => 3,
        Kind::If | Kind::IfExp { .. } | Kind::Local { .. } => 4,
        Kind::Array { .. } => 5,
        Kind::Share(ty) => 3 * count(ty) as u32,
    }
}

// Adds the ends of so many handshakes.
fn add_ends(ends: &mut Vec<End>, place: Place, count: u32) -> Result<(), NoMemory>
    ensures { OnOk result (map end_of ends.new.items ≡ map end_of ends.old.items ++ ends_from (end_at place) 0 count) }
{
    for shake in 0..count {
        ends.push(place.end(shake))?;
    }
    Ok(())
}

// All ends of a plan: of the result, of the imports, and of the parts.
pub(crate) fn all_ends(alloc: Global, plan: &Plan) -> Result<Vec<End>, NoMemory>
    requires ports { HasGroundPorts plan.now }
    requires size { plan_size (plan_of plan.now) ≤ 5000000 }
    ensures { IfOk result (λ ends. map end_of ends.items ≡ port_ends (ports_of (plan_of plan.now)) ++ part_ends 0 (plan_of plan.now).parts) }
{
    let mut ends = Vec::new(alloc);
    add_ends(&mut ends, Place::OfResult, count(plan.result()) as u32)?;
    add_imports(&mut ends, plan)?;
    add_parts(&mut ends, plan)?;
    Ok(ends)
}

// Adds the ends of the imports.
fn add_imports(ends: &mut Vec<End>, plan: &Plan) -> Result<(), NoMemory>
    requires ports { HasGroundPorts plan.now }
    requires size { plan_size (plan_of plan.now) ≤ 5000000 }
    ensures { OnOk result (map end_of ends.new.items ≡ map end_of ends.old.items ++ port_ends (taken_ports 0 (plan_of plan.now).imports)) }
{
    let imports = plan.imports();
    for index in 0..imports.len() {
        add_ends(
            ends,
            Place::OfImport(index as u32),
            count(&imports[index].ty) as u32,
        )?;
    }
    Ok(())
}

// Adds the ends of the parts.
fn add_parts(ends: &mut Vec<End>, plan: &Plan) -> Result<(), NoMemory>
    requires ports { HasGroundPorts plan.now }
    requires size { plan_size (plan_of plan.now) ≤ 5000000 }
    ensures { OnOk result (map end_of ends.new.items ≡ map end_of ends.old.items ++ part_ends 0 (plan_of plan.now).parts) }
{
    let parts = plan.parts();
    for index in 0..parts.len() {
        add_ends(ends, Place::OfPart(index as u32), shakes(&parts[index]))?;
    }
    Ok(())
}
