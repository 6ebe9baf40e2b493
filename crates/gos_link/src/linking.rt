// Linking: the plans of a build's instances become one.

ghost use Rattle.std.specs.Prelude.{◌≢◌, map, IfOk, IfErr};
ghost use Rattle.gos_plan.specs.Seen.{plan_of};
ghost use Rattle.gos_link.specs.Linked.{AreLinks, IsLinkable, IsLinked, IsUnlinked, IsWrongWhole};
ghost use Rattle.gos_link.specs.inner.Counts.{AreCounted};
ghost use Rattle.gos_link.specs.inner.Wired.{AreJoinable};

use crate::build::Build;
use crate::fault::LinkFault;
use crate::joining::{join, weight_of};
use crate::judging::{Links, judge_links};
use crate::size::check_size;
use crate::whole::check_weight;
use gos_plan::Plan;
use std::alloc::Global;

// Joins plans along the links of a build, if they are not too heavy and the joining is not too large.
fn joined(alloc: Global, plans: &[Plan], links: &Links) -> Result<Plan, LinkFault>
    requires joinable { AreJoinable (map plan_of plans.now) links.now.services links.now.root }
    requires counted { AreCounted (map plan_of plans.now) links.now.services }
    ensures linked { IfOk result (λ plan. (b : Build) → AreLinks b plans.now links.now → IsLinked b plans.now (plan_of plan)) }
    ensures fault { IfErr result (λ fault. fault ≢ LinkFault.NoMemory
        → (b : Build) → AreLinks b plans.now links.now → IsWrongWhole b plans.now links.now.services fault) }
{
    check_weight(weight_of(plans))?;
    let plan = join(alloc, plans, links.served(), links.root())?;
    check_size(alloc, &plan)?;
    Ok(plan)
}

/// Links the plans of a build's instances, which are given in their order. They are within the limits of object files, and the
/// build has no more lines than a build file. The error `NoMemory` is want of memory alone.
///
/// The error is the first of these: for each bind line in order `NoInstance`, `NoImport`, `TypeDiffers`, `BoundTwice`,
/// `UsedTwice`, `Loop`; then `NoInstance` of the root's line, `Unplaced`, `OpenTwice`, `NotGround`, `TooHeavy`, `TooLarge`. It is
/// never `Form`.
///
/// That the linked plan of modules realises the program put together is the law `gos_linked::laws::linked::linked_modules`,
/// which a caller calls who needs it.
pub fn link(alloc: Global, build: &Build, plans: &[Plan]) -> Result<Plan, LinkFault>
    requires { IsLinkable build.now plans.now }
    ensures linked { IfOk result (λ plan. IsLinked build.now plans.now (plan_of plan)) }
    ensures fault { IfErr result (λ fault. fault ≢ LinkFault.NoMemory → IsUnlinked build.now plans.now fault) }
{
    let links = judge_links(alloc, build, plans)?;
    joined(alloc, plans, &links)
}
