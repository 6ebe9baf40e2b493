// From a plan to its netlist.
ghost use Rattle.std.specs.Prelude.{◌≡◌, ◌∷◌, ◌≤◌, ◌+◌, ◌*◌, true, map, length, All, IfOk, replicate};
ghost use Rattle.gos_types.specs.Types.{type_of, IsGround, IsDone};
ghost use Rattle.gos_netcheck.specs.Accepted.{IsAccepted};
ghost use Rattle.gos_plan.specs.Seen.{plan_of};
ghost use Rattle.gos_plan.specs.Size.{plan_size};
ghost use Rattle.gos_netlist.specs.Cycles.{HasCycle};
ghost use Rattle.gos_expand.specs.Starts.{chosen};
ghost use Rattle.gos_expand.specs.Laid.{laid, circuit};
ghost use Rattle.gos_expand.specs.Acceptance.{AreDifferent, CanBeLaid};
ghost use Rattle.gos_expand.specs.Choices.{IsLaidBy};
ghost use Rattle.gos_expand.specs.Fast.{IsFastOf};
ghost use Rattle.gos_expand.specs.Gates.{ForEach};
ghost use Rattle.gos_expand.specs.inner.Choosing.{IsChoiceOf, KeepsFewRings};
ghost use Rattle.gos_expand.specs.inner.Numbering.{laying};
ghost use Rattle.gos_expand.specs.inner.Orders.{making_in, AreOrdersOf};

use crate::choosing::few;
use crate::numbering::number;
use crate::orders::Orders;
use crate::outside::ports;
use crate::placing::{place_joints, place_loose, place_parts, place_ports};
use crate::ranks::orders_by_rank;
use gos_lex::Name;
use gos_netlist::Netlist;
use gos_plan::Plan;
use gos_pool::NetPool;
use gos_types::NoMemory;
use std::alloc::Global;

/// Which registers the joints of a plan get.
#[derive(Debug, Clone, Copy)]
pub enum Policy {
    /// One in each direction of each joint.
    All,
    /// Few: the directions of joints are taken in turn, of each joint the request and then the answer, and one has no
    /// registers unless the netlist without them, without those already left out and with all later ones has a
    /// combinational cycle.
    Few,
}

/// The netlist of a plan, with a port for its result, which has the name of the root, and one for each import. The
/// directions of joints for which `keep` has `true` keep their registers: of each joint in turn that of the request and
/// that of the answer. It is accepted where it has no combinational cycle, and has no more cells than the plan's size.
///
/// The result has to be a command or an expression, and imports ground types. No two of these ports may have one
/// name. The plan's size may be 5,000,000 at most, and there may be 65,536 ports at most. `Err` is want of memory
/// alone: all of it is taken before the first cell is placed.
///
/// That its cycles are lists of the plan is the law `cycles_are_lists`. That it keeps pace with what the plan realises is the law
/// `gos_tool::circuits::every_choice`, which a caller calls who needs it.
pub fn expand_with(
    alloc: Global,
    plan: &Plan,
    root: &Name,
    keep: &[bool],
) -> Result<Netlist, NoMemory>
    requires result { IsDone (type_of plan.now.outcome) }
    requires ground { All (λ i. IsGround (type_of i.ty)) plan.now.imports }
    requires names { AreDifferent (root.now ∷ map (λ i. i.name) plan.now.imports) }
    requires size { plan_size (plan_of plan.now) ≤ 5000000 }
    requires ports { length plan.now.imports + 1 ≤ 65536 }
    requires each { length keep.now ≡ 2 * length plan.now.joints }
    ensures laid { IfOk result (λ net. net ≡ laid (chosen keep.now) (plan_of plan.now) root.now) }
    ensures accepted { IfOk result (λ net. (HasCycle net.cells → ⊥) → IsAccepted net) }
    ensures few { IfOk result (λ net. length net.cells ≤ plan_size (plan_of plan.now)) }
{
    lay_out_plain(alloc, plan, root, keep)
}

/// The netlist of `expand_with` for the directions of joints that the policy chooses. It is accepted.
///
/// What is asked is the same. `Err` is want of memory alone. The laws of `expand_with` are said of it, too.
pub fn expand(alloc: Global, plan: &Plan, root: &Name, policy: Policy) -> Result<Netlist, NoMemory>
    requires result { IsDone (type_of plan.now.outcome) }
    requires ground { All (λ i. IsGround (type_of i.ty)) plan.now.imports }
    requires names { AreDifferent (root.now ∷ map (λ i. i.name) plan.now.imports) }
    requires size { plan_size (plan_of plan.now) ≤ 5000000 }
    requires ports { length plan.now.imports + 1 ≤ 65536 }
    ensures laid { IfOk result (IsLaidBy policy (plan_of plan.now) root.now) }
    ensures accepted { IfOk result IsAccepted }
    ensures few { IfOk result (λ net. length net.cells ≤ plan_size (plan_of plan.now)) }
{
    let keep = choice(alloc, plan, policy)?;
    lay_out_plain(alloc, plan, root, &keep)
}

/// The fast circuit of a plan: no Share holds a request, and each is made for the order of the depths of its ends. Few
/// directions of joints keep their registers, as of `Policy::Few`, by gates in which each Share takes its handshakes by
/// number.
///
/// What is asked is the same. `Err` is want of memory alone.
pub fn expand_fast(alloc: Global, plan: &Plan, root: &Name) -> Result<Netlist, NoMemory>
    requires result { IsDone (type_of plan.now.outcome) }
    requires ground { All (λ i. IsGround (type_of i.ty)) plan.now.imports }
    requires names { AreDifferent (root.now ∷ map (λ i. i.name) plan.now.imports) }
    requires size { plan_size (plan_of plan.now) ≤ 5000000 }
    requires ports { length plan.now.imports + 1 ≤ 65536 }
    ensures fast { IfOk result (IsFastOf (plan_of plan.now) root.now) }
    ensures accepted { IfOk result IsAccepted }
    ensures few { IfOk result (λ net. length net.cells ≤ plan_size (plan_of plan.now)) }
{
    let numbers = Orders::by_number(alloc, plan)?;
    let (keep, graph) = few(alloc, plan, &numbers)?;
    let depths = graph.depths(alloc)?;
    let orders = orders_by_rank(alloc, plan, &depths)?;
    lay_out(alloc, plan, root, &keep, &orders)
}

// The directions of joints that a policy chooses.
fn choice(alloc: Global, plan: &Plan, policy: Policy) -> Result<Vec<bool>, NoMemory>
    requires size { plan_size (plan_of plan.now) ≤ 5000000 }
    ensures { IfOk result (λ keep. IsChoiceOf policy (plan_of plan.now) keep.items) }
{
    match policy {
        Policy::All => all_kept(alloc, 2 * plan.joints().len()),
        Policy::Few => few_plain(alloc, plan),
    }
}

// The directions of joints that keep their registers where few are wanted and gates are made for no order.
fn few_plain(alloc: Global, plan: &Plan) -> Result<Vec<bool>, NoMemory>
    requires size { plan_size (plan_of plan.now) ≤ 5000000 }
    ensures { IfOk result (λ keeps. KeepsFewRings (λ i. ForEach) (plan_of plan.now) keeps.items) }
{
    let orders = Orders::none(alloc);
    let (keeps, _) = few(alloc, plan, &orders)?;
    Ok(keeps)
}

// The choice in which so many directions of joints keep their registers.
fn all_kept(alloc: Global, count: usize) -> Result<Vec<bool>, NoMemory>
    ensures { IfOk result (λ keep. keep.items ≡ replicate count true) }
{
    let keep = vec![in alloc; true; count]?;
    Ok(keep)
}

// The netlist of a plan whose gates are made for no order.
fn lay_out_plain(
    alloc: Global,
    plan: &Plan,
    root: &Name,
    keep: &[bool],
) -> Result<Netlist, NoMemory>
    requires result { IsDone (type_of plan.now.outcome) }
    requires ground { All (λ i. IsGround (type_of i.ty)) plan.now.imports }
    requires names { AreDifferent (root.now ∷ map (λ i. i.name) plan.now.imports) }
    requires size { plan_size (plan_of plan.now) ≤ 5000000 }
    ensures laid { IfOk result (λ net. net ≡ laid (chosen keep.now) (plan_of plan.now) root.now) }
    ensures can { IfOk result (λ _. CanBeLaid plan.now root.now) }
{
    let orders = Orders::none(alloc);
    lay_out(alloc, plan, root, keep, &orders)
}

// The netlist of a plan, as the laws have it. The plan is one of which they speak.
fn lay_out(
    alloc: Global,
    plan: &Plan,
    root: &Name,
    keep: &[bool],
    orders: &Orders,
) -> Result<Netlist, NoMemory>
    requires result { IsDone (type_of plan.now.outcome) }
    requires ground { All (λ i. IsGround (type_of i.ty)) plan.now.imports }
    requires names { AreDifferent (root.now ∷ map (λ i. i.name) plan.now.imports) }
    requires size { plan_size (plan_of plan.now) ≤ 5000000 }
    requires orders { AreOrdersOf (making_in orders.now) (plan_of plan.now).parts }
    ensures laid { IfOk result (λ net. net ≡ circuit (laying (chosen keep.now) (making_in orders.now)) (plan_of plan.now) root.now) }
    ensures can { IfOk result (λ _. CanBeLaid plan.now root.now) }
{
    let numbering = number(alloc, plan, keep, orders)?;
    let ports = ports(alloc, plan, root, &numbering)?;
    let mut pool = NetPool::new(alloc);
    pool.reserve(numbering.size as usize + plan.parts().len() + 3)?;
    place_ports(&mut pool, plan, &numbering);
    place_joints(&mut pool, plan, &numbering);
    place_loose(&mut pool, plan, &numbering);
    place_parts(&mut pool, plan, &numbering);
    Ok(Netlist {
        cells: pool.into_cells(),
        ports,
    })
}
