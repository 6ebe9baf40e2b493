// The joining of plans along services.

ghost use Rattle.std.specs.Prelude.{◌≡◌, ◌<◌, ◌^◌, ◌++◌, All, map, IfOk, OnOk};
ghost use Rattle.gos_plan.specs.Seen.{part_of, import_of, plan_of};
ghost use Rattle.gos_plan.specs.Ranges.{IsInRange, IsSmall};
ghost use Rattle.gos_plan.specs.Joining.{IsJoining, all_parts, all_weight};
ghost use Rattle.gos_link.specs.Linked.{whole_of};
ghost use Rattle.gos_link.specs.Order.{AreInOrder};
ghost use Rattle.gos_link.specs.inner.Opens.{open_seen};
ghost use Rattle.gos_link.specs.inner.Counts.{AreCounted, IsCountable};
ghost use Rattle.gos_link.specs.inner.Wired.{AreJoinable};

use crate::opens::{Open, opens_of};
use crate::served::Services;
use crate::services::copy_name;
use crate::ties::ties_of;
use gos_plan::{Kind, Plan, PlanImport};
use gos_ties::tied_plan;
use gos_types::{NoMemory, Ty, copy};
use std::alloc::Global;

// A copy of a kind. `Err` is want of memory alone.
fn copy_kind(alloc: Global, kind: &Kind) -> Result<Kind, NoMemory>
    ensures same { IfOk result (λ copy. part_of copy ≡ part_of kind.now) }
    ensures in_range { IfOk result (λ copy. IsInRange kind.now → IsInRange copy) }
{
    Ok(match kind {
        Kind::Skip => Kind::Skip,
        Kind::Lit { w, k } => Kind::Lit { w: *w, k: *k },
        Kind::Seq => Kind::Seq,
        Kind::SeqExp { w } => Kind::SeqExp { w: *w },
        Kind::Par => Kind::Par,
        Kind::If => Kind::If,
        Kind::IfExp { w } => Kind::IfExp { w: *w },
        Kind::While => Kind::While,
        Kind::Op { op, w } => Kind::Op { op: *op, w: *w },
        Kind::Not { w } => Kind::Not { w: *w },
        Kind::Assign { w } => Kind::Assign { w: *w },
        Kind::Deref { w } => Kind::Deref { w: *w },
        Kind::Local { w, v } => Kind::Local { w: *w, v: *v },
        Kind::Array { w, n, v } => Kind::Array {
            w: *w,
            n: *n,
            v: *v,
        },
        Kind::Share(ty) => Kind::Share(copy(alloc, ty)?),
    })
}

// Adds copies of parts.
fn add_parts(alloc: Global, parts: &mut Vec<Kind>, more: &[Kind]) -> Result<(), NoMemory>
    ensures same { OnOk result (map part_of parts.new.items ≡ map part_of parts.old.items ++ map part_of more.now) }
    ensures in_range { OnOk result (All IsInRange parts.old.items → All IsInRange more.now → All IsInRange parts.new.items) }
{
    for kind in more {
        parts.push(copy_kind(alloc, kind)?)?;
    }
    Ok(())
}

// Copies of the parts of all plans.
fn parts_of(alloc: Global, plans: &[Plan]) -> Result<Vec<Kind>, NoMemory>
    ensures same { IfOk result (λ parts. map part_of parts.items ≡ all_parts (map plan_of plans.now)) }
    ensures in_range { IfOk result (λ parts. All IsInRange parts.items) }
{
    let mut parts = Vec::new(alloc);
    for plan in plans {
        add_parts(alloc, &mut parts, plan.parts())?;
    }
    Ok(parts)
}

// A copy of an import. `Err` is want of memory alone.
fn copy_import(alloc: Global, import: &PlanImport) -> Result<PlanImport, NoMemory>
    ensures same { IfOk result (λ copy. import_of copy ≡ import_of import.now) }
    ensures small { IfOk result (λ copy. IsSmall import.now.ty → IsSmall copy.ty) }
{
    let name = copy_name(alloc, &import.name)?;
    let ty = copy(alloc, &import.ty)?;
    Ok(PlanImport { name, ty })
}

// Copies of the imports that stay.
fn imports_of(alloc: Global, opens: &[Open]) -> Result<Vec<PlanImport>, NoMemory>
    requires { All (λ o. IsSmall o.import.now.ty) opens.now }
    ensures same { IfOk result (λ imports. map import_of imports.items ≡ map (λ l. l.import) (map open_seen opens.now)) }
    ensures small { IfOk result (λ imports. All (λ i. IsSmall i.ty) imports.items) }
{
    let mut imports = Vec::new(alloc);
    for open in opens {
        imports.push(copy_import(alloc, open.import)?)?;
    }
    Ok(imports)
}

// What all plans weigh.
pub(crate) fn weight_of(plans: &[Plan]) -> u64
    requires { all_weight (map plan_of plans.now) < 2 ^ 32 }
    ensures { result ≡ all_weight (map plan_of plans.now) }
{
    let mut weight: u64 = 0;
    for plan in plans {
        weight += plan.weight();
    }
    weight
}

// The type of a plan's result, which is in range as its parts are.
fn outcome_of(plan: &Plan) -> &Ty
    ensures value { result.now ≡ plan.now.outcome }
    ensures small { IsSmall plan.now.outcome }
{
    let _in_range = plan.parts();
    plan.result()
}

/// The joining of plans along services, its joints in the order of these plans. `Err` is want of memory alone.
pub(crate) fn join(
    alloc: Global,
    plans: &[Plan],
    services: &Services,
    root: usize,
) -> Result<Plan, NoMemory>
    requires joinable { AreJoinable (map plan_of plans.now) services.now root }
    requires counted { AreCounted (map plan_of plans.now) services.now }
    ensures joining { IfOk result (λ plan. IsJoining (whole_of plans.now services.now root) (plan_of plan)) }
    ensures order { IfOk result (λ plan. AreInOrder (whole_of plans.now services.now root) (plan_of plan).joints) }
    ensures countable { IfOk result (λ plan. IsCountable (plan_of plan)) }
{
    let opens = opens_of(alloc, plans, services)?;
    let imports = imports_of(alloc, &opens)?;
    let outcome = copy(alloc, outcome_of(&plans[root]))?;
    let parts = parts_of(alloc, plans)?;
    let ties = ties_of(alloc, plans, services, root)?;
    let weight = weight_of(plans);
    let plan = tied_plan(alloc, weight, imports, outcome, parts, &ties)?;
    Ok(plan)
}
