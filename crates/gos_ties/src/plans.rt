// Plans whose joints are made by ties.

ghost use Rattle.std.specs.Prelude.{◌≡◌, ◌↔◌, IfOk};
ghost use Rattle.gos_plan.specs.declared.fault.ObjectFault.TheVariants as ObjectFault;
ghost use Rattle.gos_plan.specs.Plans.{End as AnEnd, IsRight};
ghost use Rattle.gos_plan.specs.Ranges.{AreInRange};
ghost use Rattle.gos_plan.specs.Seen.{plan_of};
ghost use Rattle.gos_ties.specs.Ties.{joint, Has, Connects};
ghost use Rattle.gos_ties.specs.Counted.{IsThin};
ghost use Rattle.gos_ties.specs.Order.{AreInOrder};

use crate::joints::tied_joints;
use crate::points::Tie;
use gos_plan::{Kind, ObjectFault, Plan, PlanImport, make};
use gos_types::{NoMemory, Ty};
use std::alloc::Global;

/// The plan of these values whose joints the ties make: one for each two ends that a path of ties connects, of which the one
/// asks and the other serves, in the order in which the ends that ask stand in the ties. `Err` is want of memory alone: a plan is
/// refused for a joint that is wrong, and all are right.
pub fn tied_plan(
    alloc: Global,
    weight: u64,
    imports: Vec<PlanImport>,
    outcome: Ty,
    parts: Vec<Kind>,
    ties: &[Tie],
) -> Result<Plan, NoMemory>
    requires thin { IsThin ties.now }
    requires in_range { AreInRange imports.items outcome parts.items }
    ensures weight { IfOk result (λ plan. plan.weight ≡ weight) }
    ensures imports { IfOk result (λ plan. plan.imports ≡ imports.items) }
    ensures outcome { IfOk result (λ plan. plan.outcome ≡ outcome) }
    ensures parts { IfOk result (λ plan. plan.parts ≡ parts.items) }
    ensures right { IfOk result (λ plan. IsRight (plan_of plan)) }
    ensures joints { IfOk result (λ plan. (a b : AnEnd) → Has (plan_of plan).joints (joint a b) ↔ Connects ties.now (plan_of plan) a b) }
    ensures order { IfOk result (λ plan. AreInOrder ties.now (plan_of plan).joints) }
{
    let joints = tied_joints(alloc, &imports, &outcome, &parts, ties)?;
    match make(alloc, weight, imports, outcome, parts, joints) {
        Ok(plan) => Ok(plan),
        Err(fault) => Err(only_memory(fault)),
    }
}

// A plan whose joints are right is refused for want of memory alone.
fn only_memory(fault: ObjectFault) -> NoMemory
    requires { fault ≡ ObjectFault.NoMemory }
{
    match fault {
        ObjectFault::NoMemory => NoMemory,
        _ => unreachable!(),
    }
}
