// The joints of a plan, from its ties.
//
// Read numbers.rt and joining.rt first. At each point of the ties that is an end its far point is looked up; where
// the one asks and the other serves there is a joint. `specs/inner/Found` says so, and that these joints are those that
// the ties connect says `joints_found`, in proofs/JointLemmas.

ghost use Rattle.std.specs.Prelude.{◌≡◌, ◌↔◌, ◌++◌, ℕ, map, IfOk, OnOk};
ghost use Rattle.gos_plan.specs.Plans.{End as AnEnd, IsRight};
ghost use Rattle.gos_ties.specs.Ties.{joint, Has, Connects};
ghost use Rattle.gos_plan.specs.Seen.{joint_of, plan_of};
ghost use Rattle.gos_ties.specs.inner.Contacts.{asked};
ghost use Rattle.gos_ties.specs.Counted.{IsThin};
ghost use Rattle.gos_ties.specs.Order.{AreInOrder};
ghost use Rattle.gos_ties.specs.inner.Found.{bare, AreTables, do_fit, far_by, found, all_found, joints_seen};

use crate::contacts::contact_at;
use crate::joining::far_ends;
use crate::numbers::{Numbers, bonds_of, count, end_at, far_point, numbers_of};
use crate::points::{Point, Tie};
use gos_plan::{Contact, Joint, Kind, PlanImport};
use gos_types::{NoMemory, Role, Ty};
use std::alloc::Global;

// The numbers of points, and the far number of each.
#[derive(Drop)]
pub(crate) struct Tables {
    pub numbers: Numbers,
    pub far: Vec<usize>,
}

// The tables of ties.
fn tables_of(alloc: Global, ties: &[Tie]) -> Result<Tables, NoMemory>
    requires { IsThin ties.now }
    ensures { IfOk result (AreTables ties.now) }
{
    let numbers = numbers_of(alloc, ties)?;
    let bonds = bonds_of(alloc, &numbers, ties)?;
    let far = far_ends(alloc, count(&numbers), &bonds)?;
    Ok(Tables { numbers, far })
}

// Whether the one handshake asks, the other serves, and their bits are equal.
fn do_fit(one: Option<Contact>, other: Option<Contact>) -> bool
    ensures { result ≡ do_fit (asked one) (asked other) }
{
    match (one, other) {
        (Some(one), Some(other)) => {
            one.role == Role::Ask
                && other.role == Role::Serve
                && one.ask_bits == other.ask_bits
                && one.answer_bits == other.answer_bits
        }
        _ => false,
    }
}

// The joint of the end at a point and its far one, if there is one.
fn found(
    alloc: Global,
    imports: &[PlanImport],
    outcome: &Ty,
    parts: &[Kind],
    tables: &Tables,
    point: Point,
) -> Result<Option<Joint>, NoMemory>
    ensures { IfOk result (λ joint. joints_seen joint ≡ found (bare imports.now outcome.now parts.now) (far_by tables.now) point) }
{
    let far = far_point(&tables.far, &tables.numbers, point);
    match (end_at(point), end_at(far)) {
        (Some(asks), Some(serves)) => {
            let one = contact_at(alloc, imports, outcome, parts, asks)?;
            let other = contact_at(alloc, imports, outcome, parts, serves)?;
            if do_fit(one, other) {
                Ok(Some(Joint { asks, serves }))
            } else {
                Ok(None)
            }
        }
        _ => Ok(None),
    }
}

// Adds the joint that is found at a point, if there is one.
fn add_found(
    alloc: Global,
    imports: &[PlanImport],
    outcome: &Ty,
    parts: &[Kind],
    tables: &Tables,
    point: Point,
    joints: &mut Vec<Joint>,
) -> Result<(), NoMemory>
    ensures { OnOk result (map joint_of joints.new.items
        ≡ map joint_of joints.old.items ++ found (bare imports.now outcome.now parts.now) (far_by tables.now) point) }
{
    if let Some(joint) = found(alloc, imports, outcome, parts, tables, point)? {
        joints.push(joint)?;
    }
    Ok(())
}

// The joints that are found at the points of ties.
fn joints_of(
    alloc: Global,
    imports: &[PlanImport],
    outcome: &Ty,
    parts: &[Kind],
    tables: &Tables,
    ties: &[Tie],
) -> Result<Vec<Joint>, NoMemory>
    ensures { IfOk result (λ joints. map joint_of joints.items ≡ all_found (bare imports.now outcome.now parts.now) (far_by tables.now) ties.now) }
{
    let mut joints = Vec::new(alloc);
    for tie in ties {
        add_found(alloc, imports, outcome, parts, tables, tie.one, &mut joints)?;
        add_found(
            alloc,
            imports,
            outcome,
            parts,
            tables,
            tie.other,
            &mut joints,
        )?;
    }
    Ok(joints)
}

/// The joints that ties make in a plan of these imports, this result and these parts: one for each two ends that a path of
/// ties connects, of which the one asks and the other serves. They are right, and stand in the order of their asking ends in the
/// ties. `Err` is want of memory alone.
pub(crate) fn tied_joints(
    alloc: Global,
    imports: &[PlanImport],
    outcome: &Ty,
    parts: &[Kind],
    ties: &[Tie],
) -> Result<Vec<Joint>, NoMemory>
    requires { IsThin ties.now }
    ensures joints { IfOk result (λ joints. (a b : AnEnd)
        → Has (map joint_of joints.items) (joint a b) ↔ Connects ties.now (bare imports.now outcome.now parts.now) a b) }
    ensures right { IfOk result (λ joints. (weight : ℕ)
        → IsRight (plan_of (record { weight = weight; imports = imports.now; outcome = outcome.now; parts = parts.now; joints = joints.items }))) }
    ensures order { IfOk result (λ joints. AreInOrder ties.now (map joint_of joints.items)) }
{
    let tables = tables_of(alloc, ties)?;
    let joints = joints_of(alloc, imports, outcome, parts, &tables, ties)?;
    Ok(joints)
}
