// The plan of a checked module.

ghost use Rattle.std.specs.Prelude.{◌≡◌, ◌≤◌, length, map, IfOk};
ghost use Rattle.gos_lex.specs.Names.{IsNameOrWord};
ghost use Rattle.gos_types.specs.Types.{type_of};
ghost use Rattle.gos_model.specs.Sources as sources;
ghost use Rattle.gos_check.specs.Checked.{program_in};
ghost use Rattle.gos_check.specs.Nodes.{node_seen};
ghost use Rattle.gos_plan.specs.ObjectFaults.{IsRead};
ghost use Rattle.gos_plan.specs.ObjectText.{text_of};
ghost use Rattle.gos_plan.specs.Seen as plans;
ghost use Rattle.gos_plan.specs.Seen.{plan_of};
ghost use Rattle.gos_realises.specs.realises.Slim.{IsSlim};
ghost use Rattle.gos_compile.specs.Wiring.{IsPlanOf};
ghost use Rattle.gos_compile.specs.inner.Named.{HaveNames};

use crate::modules::wires_of;
use gos_check::Linear;
use gos_lex::Name;
use gos_model::types_of_terms;
use gos_plan::{Plan, PlanImport};
use gos_syntax::Import;
use gos_ties::tied_plan;
use gos_types::{NoMemory, copy};
use std::alloc::Global;

/// The plan of a checked module: its parts, and a joint for each two ends that its wiring connects, in the order of the
/// wiring's ties. A module has one. It is slim: it has at most two joints for each unit of its weight, and its parts and
/// their handshakes are at most four. The text of a plan with at most 64 imports is one that `read_object` reads. `Err` is
/// want of memory alone.
///
/// That the plan realises its module is the law `gos_terms::laws::theorem::modules`, which a caller calls who needs it.
pub fn compile(alloc: Global, program: &Linear) -> Result<Plan, NoMemory>
    ensures plan { IfOk result (λ plan. IsPlanOf (program_in program.now).imports (type_of program.now.result) program.now.weight
        (node_seen program.now.term) (plan_of plan)) }
    ensures slim { IfOk result (λ plan. IsSlim (plan_of plan)) }
    ensures few_parts { IfOk result (λ plan. length (plan_of plan).parts ≤ 16384) }
    ensures few_joints { IfOk result (λ plan. length (plan_of plan).joints ≤ 16384) }
    ensures read_back { IfOk result (λ plan. length program.now.imports ≤ 64 → IsRead (text_of (plan_of plan)) (plan_of plan)) }
{
    types_of_terms();
    let wires = wires_of(alloc, program.imports(), program.term())?;
    let imports = plan_imports(alloc, program.imports())?;
    let outcome = copy(alloc, program.result())?;
    let plan = tied_plan(
        alloc,
        program.weight(),
        imports,
        outcome,
        wires.parts,
        &wires.ties,
    )?;
    Ok(plan)
}

/// The imports of a plan.
pub(crate) fn plan_imports(alloc: Global, imports: &[Import]) -> Result<Vec<PlanImport>, NoMemory>
    ensures imports { IfOk result (λ found. map plans.import_of found.items ≡ map sources.import_of imports.now) }
    ensures names { IfOk result (λ found. HaveNames found.items) }
{
    let mut found = Vec::new(alloc);
    for import in imports {
        found.push(plan_import(alloc, import)?)?;
    }
    Ok(found)
}

// An import of a plan.
fn plan_import(alloc: Global, import: &Import) -> Result<PlanImport, NoMemory>
    ensures import { IfOk result (λ found. plans.import_of found ≡ sources.import_of import.now) }
    ensures name { IfOk result (λ found. IsNameOrWord found.name) }
{
    let ty = copy(alloc, &import.ty)?;
    match Name::new(alloc, import.name.bytes()) {
        Ok(name) => Ok(PlanImport { name, ty }),
        Err(_) => Err(NoMemory),
    }
}
