// Which directions of a plan's joints keep their registers where few are wanted.
ghost use Rattle.std.specs.Prelude.{◌≡◌, ◌+◌, ◌<◌, ◌≤◌, length, option_map, Bool, IfOk, OnOk};
ghost use Rattle.std.specs.Option.{option_copied};
ghost use Rattle.gos_plan.specs.Kinds.{part_contacts};
ghost use Rattle.gos_plan.specs.Plans.{PartEnd, IsRight};
ghost use Rattle.gos_plan.specs.Seen.{plan_of, part_of};
ghost use Rattle.gos_plan.specs.Ranges.{IsInRange};
ghost use Rattle.gos_plan.specs.Size.{plan_size};
ghost use Rattle.gos_expand.specs.Gates.{Making, passing_of};
ghost use Rattle.gos_expand.specs.inner.Orders.{making_of, making_in, IsOrderOf, AreOrdersOf};
ghost use Rattle.gos_expand.specs.inner.Arrivals.{AreAt};
ghost use Rattle.gos_expand.specs.inner.Choosing.{joint_at, number_in, ways_at, ways_seen, HasSmallJoints, AreWithin, GoAcross, Adds, IsPassage, PassesTo, PassesFrom, PassesAt, PassesAcross, AllPassAcross, linked, AreFew, KeepsFewRings};
ghost use Rattle.gos_expand.specs.Starts.{chosen};
ghost use Rattle.gos_expand.specs.inner.Directions.{IsGraphOf};
ghost use Rattle.gos_expand.specs.inner.Numbering.{laying};

use crate::arrivals::{Arrivals, Origin};
use crate::gates::gates_of;
use crate::orders::Orders;
use crate::places::shakes;
use gos_macro::Macro;
use gos_order::Order;
use gos_plan::{End, Kind, Plan};
use gos_types::{NoMemory, Role};
use std::alloc::Global;

// The directions of a joint at one of its ends: that by which something arrives there, and that by which something leaves.
#[derive(Clone, Copy)]
pub(crate) struct Directions {
    pub arriving: u32,
    pub leaving: u32,
}

// Tells for each direction of the joints whether it keeps its registers: for each joint in turn its request and its answer.
// The passages are those of gates that are made for these orders. Gives the graph of directions as well.
pub(crate) fn few(
    alloc: Global,
    plan: &Plan,
    orders: &Orders,
) -> Result<(Vec<bool>, Order), NoMemory>
    requires size { plan_size (plan_of plan.now) ≤ 5000000 }
    requires orders { AreOrdersOf (making_in orders.now) (plan_of plan.now).parts }
    requires passing { AllPassAcross (making_in orders.now) (plan_of plan.now).parts }
    ensures few { IfOk result (λ r. KeepsFewRings (making_in orders.now) (plan_of plan.now) r.0.items) }
    ensures graph { IfOk result (λ r. IsGraphOf (laying (chosen r.0.items) (making_in orders.now)) (plan_of plan.now) r.1) }
    ensures right { IfOk result (λ _. IsRight (plan_of plan.now)) }
{
    let table = joint_table(alloc, plan)?;
    let directions = 2 * plan.joints().len() as u32;
    let mut graph = Order::new(alloc, directions + directions)?;
    add_parts(&mut graph, &table, directions, plan, orders)?;
    let keeps = choose(alloc, &mut graph, directions)?;
    Ok((keeps, graph))
}

// The joint at each end of a plan.
pub(crate) fn joint_table(alloc: Global, plan: &Plan) -> Result<Arrivals, NoMemory>
    requires size { plan_size (plan_of plan.now) ≤ 5000000 }
    ensures { IfOk result (AreAt (plan_of plan.now) (joint_at (plan_of plan.now))) }
{
    let mut table = Arrivals::new(alloc, plan)?;
    let joints = plan.joints();
    for index in 0..joints.len() {
        let joint = Origin::Cells(index as u32);
        table.fill(joints[index].asks, joint);
        table.fill(joints[index].serves, joint);
    }
    Ok(table)
}

// The number that an entry holds.
fn number(origin: Option<Origin>) -> Option<u32>
    ensures { result ≡ number_in origin }
{
    match origin {
        Some(Origin::Cells(number)) => Some(number),
        _ => None,
    }
}

// The directions at an end of a part.
pub(crate) fn directions_at(table: &Arrivals, part: u32, shake: u32) -> Option<Directions>
    requires small { HasSmallJoints table.now }
    ensures { option_map ways_seen result ≡ ways_at table.now (PartEnd part shake) }
{
    let entry = table.get(End::Part { part, shake })?;
    let joint = number(entry.origin)?;
    Some(match entry.contact.role {
        Role::Serve => Directions {
            arriving: joint + joint,
            leaving: joint + joint + 1,
        },
        Role::Ask => Directions {
            arriving: joint + joint + 1,
            leaving: joint + joint,
        },
    })
}

// Whether what comes in at a handshake of a part goes on to another in the same cycle. The part has `count` of them.
fn passes(kind: &Kind, order: Option<&[u32]>, count: u32, from: u32, to: u32) -> bool
    requires in_range { IsInRange kind.now }
    requires order { IsOrderOf (making_of (option_copied order)) (part_of kind.now) }
    requires passing { PassesAcross (making_of (option_copied order)) (part_of kind.now) }
    requires count { count ≡ length (part_contacts (part_of kind.now)) }
    requires few { count ≤ 192 }
    requires from { from < length (part_contacts (part_of kind.now)) }
    requires to { to < length (part_contacts (part_of kind.now)) }
    ensures { result ≡ passing_of (making_of (option_copied order.entry)) (part_of kind.now) from to }
{
    may_pass(kind, count, from, to) && gates_of(kind, order).passes(from, to)
}

// Whether it may, as far as is told at once. A Share has the source's handshakes and as many of each caller, and passes
// on from one side to the same handshake of another; so its type is looked through for few pairs.
fn may_pass(kind: &Kind, count: u32, from: u32, to: u32) -> bool
    requires count { count ≡ length (part_contacts (part_of kind.now)) }
    requires few { count ≤ 192 }
    requires from { from < count }
    requires to { to < count }
    ensures { (m : Making) → PassesAcross m (part_of kind.now) → passing_of m (part_of kind.now) from to ≡ Bool.true → result ≡ Bool.true }
{
    match kind {
        Kind::Share(_) => {
            let apart = 3 * from.abs_diff(to);
            apart == count || apart == 2 * count
        }
        _ => true,
    }
}

// Adds the edge from what arrives at a handshake of a part to what leaves at another, if both stand in joints.
fn add_passage(
    graph: &mut Order,
    table: &Arrivals,
    directions: u32,
    part: u32,
    from: u32,
    to: u32,
) -> Result<(), NoMemory>
    requires nodes { graph.old.nodes ≡ directions + directions }
    requires few { directions ≤ 2000000000 }
    requires small { HasSmallJoints table.now }
    requires within { AreWithin directions table.now }
    requires across { GoAcross directions graph.old.edges }
    ensures added { OnOk result (Adds (IsPassage directions table.now part from to) graph.old.edges graph.new.edges) }
    ensures nodes { graph.new.nodes ≡ graph.old.nodes }
    ensures across { GoAcross directions graph.new.edges }
{
    let Some(first) = directions_at(table, part, from) else {
        return Ok(());
    };
    let Some(second) = directions_at(table, part, to) else {
        return Ok(());
    };
    graph.add(first.arriving, directions + second.leaving)?;
    Ok(())
}

// Adds those from what arrives at a handshake.
fn add_passages(
    graph: &mut Order,
    table: &Arrivals,
    directions: u32,
    part: u32,
    kind: &Kind,
    order: Option<&[u32]>,
    from: u32,
) -> Result<(), NoMemory>
    requires nodes { graph.old.nodes ≡ directions + directions }
    requires few { directions ≤ 2000000000 }
    requires small { HasSmallJoints table.now }
    requires within { AreWithin directions table.now }
    requires across { GoAcross directions graph.old.edges }
    requires in_range { IsInRange kind.now }
    requires order { IsOrderOf (making_of (option_copied order)) (part_of kind.now) }
    requires passing { PassesAcross (making_of (option_copied order)) (part_of kind.now) }
    requires from { from < length (part_contacts (part_of kind.now)) }
    ensures added { OnOk result
        (Adds (PassesTo directions table.now (making_of (option_copied order.entry)) (part_of kind.now) part from (length (part_contacts (part_of kind.now))))
        graph.old.edges graph.new.edges) }
    ensures nodes { graph.new.nodes ≡ graph.old.nodes }
    ensures across { GoAcross directions graph.new.edges }
{
    let count = shakes(kind);
    for to in 0..count {
        if passes(kind, order, count, from, to) {
            add_passage(graph, table, directions, part, from, to)?;
        }
    }
    Ok(())
}

// Adds those of a part.
fn add_part(
    graph: &mut Order,
    table: &Arrivals,
    directions: u32,
    part: u32,
    kind: &Kind,
    order: Option<&[u32]>,
) -> Result<(), NoMemory>
    requires nodes { graph.old.nodes ≡ directions + directions }
    requires few { directions ≤ 2000000000 }
    requires small { HasSmallJoints table.now }
    requires within { AreWithin directions table.now }
    requires across { GoAcross directions graph.old.edges }
    requires in_range { IsInRange kind.now }
    requires order { IsOrderOf (making_of (option_copied order)) (part_of kind.now) }
    requires passing { PassesAcross (making_of (option_copied order)) (part_of kind.now) }
    ensures added { OnOk result
        (Adds (PassesFrom directions table.now (making_of (option_copied order.entry)) (part_of kind.now) part (length (part_contacts (part_of kind.now))))
        graph.old.edges graph.new.edges) }
    ensures nodes { graph.new.nodes ≡ graph.old.nodes }
    ensures across { GoAcross directions graph.new.edges }
{
    for from in 0..shakes(kind) {
        add_passages(graph, table, directions, part, kind, order, from)?;
    }
    Ok(())
}

// Adds those of all parts.
fn add_parts(
    graph: &mut Order,
    table: &Arrivals,
    directions: u32,
    plan: &Plan,
    orders: &Orders,
) -> Result<(), NoMemory>
    requires nodes { graph.old.nodes ≡ directions + directions }
    requires few { directions ≤ 2000000000 }
    requires small { HasSmallJoints table.now }
    requires within { AreWithin directions table.now }
    requires across { GoAcross directions graph.old.edges }
    requires size { plan_size (plan_of plan.now) ≤ 5000000 }
    requires orders { AreOrdersOf (making_in orders.now) (plan_of plan.now).parts }
    requires passing { AllPassAcross (making_in orders.now) (plan_of plan.now).parts }
    ensures added { OnOk result
        (Adds (PassesAt directions table.now (making_in orders.now) (plan_of plan.now).parts (length plan.now.parts))
        graph.old.edges graph.new.edges) }
    ensures nodes { graph.new.nodes ≡ graph.old.nodes }
    ensures across { GoAcross directions graph.new.edges }
{
    let parts = plan.parts();
    for index in 0..parts.len() {
        let order = orders.get(index);
        add_part(graph, table, directions, index as u32, &parts[index], order)?;
    }
    Ok(())
}

// Leaves out each direction, in turn, that closes no ring with those left out before it. Tells which are kept.
fn choose(alloc: Global, graph: &mut Order, directions: u32) -> Result<Vec<bool>, NoMemory>
    requires nodes { graph.old.nodes ≡ directions + directions }
    requires few { directions ≤ 2000000000 }
    requires across { GoAcross directions graph.old.edges }
    ensures few { IfOk result (λ keeps. AreFew directions graph.old.edges keeps.items) }
    ensures all { IfOk result (λ keeps. length keeps.items ≡ directions) }
    ensures edges { IfOk result (λ keeps. graph.new.edges ≡ linked directions graph.old.edges 0 keeps.items) }
    ensures nodes { IfOk result (λ _. graph.new.nodes ≡ graph.old.nodes) }
{
    let mut keeps = Vec::new(alloc);
    for direction in 0..directions {
        let left_out = graph.add(directions + direction, direction)?;
        keeps.push(!left_out)?;
    }
    Ok(keeps)
}
