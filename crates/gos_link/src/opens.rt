// The imports that no other instance serves.

ghost use Rattle.std.specs.Prelude.{◌≡◌, ◌++◌, [], All, map, IfOk, OnOk};
ghost use Rattle.gos_plan.specs.Ranges.{IsSmall};
ghost use Rattle.gos_plan.specs.Seen.{import_of, plan_of};
ghost use Rattle.gos_link.specs.inner.Opens.{if_open, open_seen, opens_in, opens_among};

use crate::served::Services;
use gos_plan::{Plan, PlanImport};
use gos_types::NoMemory;
use std::alloc::Global;

// An import that stays: the number of its instance and its own, and itself.
#[derive(Clone, Copy)]
pub(crate) struct Open<'a> {
    pub plan: usize,
    pub number: usize,
    pub import: &'a PlanImport,
}

// Adds an import, unless a service has this number for it.
fn add_open<'a>(
    opens: &mut Vec<Open<'a>>,
    bound: Option<usize>,
    left: Open<'a>,
) -> Result<(), NoMemory>
    ensures seen { OnOk result (map open_seen opens.new.items ≡ map open_seen opens.old.items ++ if_open bound (open_seen left.entry) []) }
    ensures small { OnOk result (IsSmall left.entry.import.now.ty → All (λ o. IsSmall o.import.now.ty) opens.old.items
        → All (λ o. IsSmall o.import.now.ty) opens.new.items) }
{
    match bound {
        Some(_) => {}
        None => opens.push(left)?,
    }
    Ok(())
}

// Adds the imports of a plan that stay.
fn add_opens<'a>(
    opens: &mut Vec<Open<'a>>,
    services: &Services,
    plan: usize,
    imports: &'a [PlanImport],
) -> Result<(), NoMemory>
    ensures seen { OnOk result (map open_seen opens.new.items ≡ map open_seen opens.old.items ++ opens_in services.now plan 0 (map import_of imports.now)) }
    ensures small { OnOk result (All (λ i. IsSmall i.ty) imports.now → All (λ o. IsSmall o.import.now.ty) opens.old.items
        → All (λ o. IsSmall o.import.now.ty) opens.new.items) }
{
    for (number, import) in imports.iter().enumerate() {
        let bound = services.number_bound(plan, number);
        let open = Open {
            plan,
            number,
            import,
        };
        add_open(opens, bound, open)?;
    }
    Ok(())
}

// The imports of a plan, whose types are in range as its parts are.
fn imports_of(plan: &Plan) -> &[PlanImport]
    ensures value { result.now ≡ plan.now.imports }
    ensures small { All (λ i. IsSmall i.ty) plan.now.imports }
{
    let _in_range = plan.parts();
    plan.imports()
}

/// The imports that stay, in the order of the instances.
pub(crate) fn opens_of<'a>(
    alloc: Global,
    plans: &'a [Plan],
    services: &Services,
) -> Result<Vec<Open<'a>>, NoMemory>
    ensures seen { IfOk result (λ opens. map open_seen opens.items ≡ opens_among services.now 0 (map plan_of plans.now)) }
    ensures small { IfOk result (λ opens. All (λ o. IsSmall o.import.now.ty) opens.items) }
{
    let mut opens = Vec::new(alloc);
    for (number, plan) in plans.iter().enumerate() {
        add_opens(&mut opens, services, number, imports_of(plan))?;
    }
    Ok(opens)
}
