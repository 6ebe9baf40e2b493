// Where the blocks of a plan's netlist begin: of ports, of joints, of ends in no joint, and of parts, in this order.
ghost use Rattle.std.specs.Prelude.{◌≡◌, ◌≤◌, ◌<◌, ◌+◌, ◌*◌, ℕ, Option, None, is_none, map, filter, length, IfOk, IsSome};
ghost use Rattle.std.specs.Option.{option_copied};
ghost use Rattle.gos_types.specs.Types.{type_of, IsGround};
ghost use Rattle.gos_types.specs.Events.{Request, Answer};
ghost use Rattle.gos_plan.specs.Kinds.{contacts_of, part_contacts};
ghost use Rattle.gos_plan.specs.Plans.{End as AnEnd, Plan as APlan, contact_at, is_free, IsRight};
ghost use Rattle.gos_plan.specs.Seen.{plan_of, part_of, end_of, joint_of};
ghost use Rattle.gos_plan.specs.Size.{plan_size, shakes_of};
ghost use Rattle.gos_plan.specs.Ranges.{IsInRange};
ghost use Rattle.gos_expand.specs.Blocks.{total};
ghost use Rattle.gos_expand.specs.Gates.{Making, part_size};
ghost use Rattle.gos_expand.specs.inner.Orders.{making_of, making_in, IsOrderOf, AreOrdersOf};
ghost use Rattle.gos_expand.specs.Starts.{
  Laying,
  chosen,
  kept_size,
  shake_size,
  port_size,
  ports_of,
  joints_start,
  joint_size,
  loose_ends,
  loose_ends_start,
  loose_size,
  parts_start,
  bits_if,
  bits_taken,
};
ghost use Rattle.gos_expand.specs.declared.arrivals.Origin.{Origin as AnOrigin};
ghost use Rattle.gos_expand.specs.inner.Arrivals.{AreAt, Exist, or_else, by_way, start_by, start_by_ends, joined_start};
ghost use Rattle.gos_expand.specs.Acceptance.{HasGroundPorts};
ghost use Rattle.gos_expand.specs.inner.Tokens.{held_nets};
ghost use Rattle.gos_expand.specs.inner.Departures.{departures_from};
ghost use Rattle.gos_expand.specs.inner.Numbering.{IsNumbered, laying, starts};

use crate::arrivals::{Arrivals, Origin};
use crate::departures::{Departures, part_departures};
use crate::gates::gates_of;
use crate::orders::Orders;
use crate::places::all_ends;
use crate::tokens::token_size;
use gos_macro::Macro;
use gos_plan::{End, Joint, Kind, Plan};
use gos_types::{NoMemory, Ty};
use std::alloc::Global;

// Where the blocks of a plan's netlist begin.
#[derive(Drop)]
pub(crate) struct Numbering<'a> {
    // Which directions of joints keep their registers: of each joint the request and then the answer.
    pub keep: &'a [bool],
    // For which orders of their handshakes the gates of parts are made.
    pub orders: &'a Orders,
    // Where what comes in at each end begins.
    pub arrivals: Arrivals,
    // The ends in no joint.
    pub loose: Vec<End>,
    // Where the result and each import begin.
    pub ports: Vec<u32>,
    // The nets of what goes out of each part.
    pub departures: Departures,
    // Where the parts begin.
    pub parts_start: u32,
    // How many cells there are.
    pub size: u32,
}

// Numbers the blocks of a plan, in which these directions of joints keep their registers and gates are made for these orders.
pub(crate) fn number<'a>(
    alloc: Global,
    plan: &Plan,
    keep: &'a [bool],
    orders: &'a Orders,
) -> Result<Numbering<'a>, NoMemory>
    requires ports { HasGroundPorts plan.now }
    requires size { plan_size (plan_of plan.now) ≤ 5000000 }
    requires orders { AreOrdersOf (making_in orders.now) (plan_of plan.now).parts }
    ensures numbered { IfOk result (IsNumbered (plan_of plan.now)) }
    ensures keep { IfOk result (λ n. n.keep.now ≡ keep.now) }
    ensures orders { IfOk result (λ n. n.orders.now ≡ orders.now) }
    ensures right { IfOk result (λ _. IsRight (plan_of plan.now)) }
{
    let mut arrivals = Arrivals::new(alloc, plan)?;
    let (ports, joints_start) = port_starts(alloc, plan)?;
    let loose_start = number_joints(&mut arrivals, plan, keep, joints_start);
    let loose = loose_ends(alloc, plan, &arrivals)?;
    let parts_start = number_loose(&mut arrivals, &loose, loose_start);
    let (departures, size) = number_parts(alloc, plan, orders, parts_start)?;
    Ok(Numbering {
        keep,
        orders,
        arrivals,
        loose,
        ports,
        departures,
        parts_start,
        size,
    })
}

// How many cells a port of a type has.
pub(crate) fn port_cells(ty: &Ty) -> u32
    requires { IsGround (type_of ty.now) }
    ensures is { result ≡ total shake_size 0 (contacts_of (type_of ty.now)) }
    ensures few { result ≤ 6 }
{
    match ty {
        Ty::Com => 2,
        Ty::Exp(w) => 1 + token_size(*w),
        Ty::Var(w) => 2 + 2 * token_size(*w),
        _ => unreachable!(),
    }
}

// Where the ports begin, and what comes behind them.
fn port_starts(alloc: Global, plan: &Plan) -> Result<(Vec<u32>, u32), NoMemory>
    requires ports { HasGroundPorts plan.now }
    requires size { plan_size (plan_of plan.now) ≤ 5000000 }
    ensures starts { IfOk result (λ r. r.0.items ≡ starts port_size 0 0 (ports_of (plan_of plan.now))) }
    ensures next { IfOk result (λ r. r.1 ≡ joints_start (plan_of plan.now)) }
    ensures few { IfOk result (λ r. r.1 ≤ 6 * (length plan.now.imports + 1)) }
{
    let mut starts = Vec::new(alloc);
    starts.push(0)?;
    let mut next = port_cells(plan.result());
    for import in plan.imports() {
        starts.push(next)?;
        next += port_cells(&import.ty);
    }
    Ok((starts, next))
}

// Whether the request and the answer of a joint keep their registers.
pub(crate) fn kept(keep: &[bool], joint: usize) -> (bool, bool)
    requires { joint < 4294967295 }
    ensures request { result.0 ≡ chosen keep.now joint Request }
    ensures answer { result.1 ≡ chosen keep.now joint Answer }
{
    let place = joint + joint;
    let request = keep.get(place).copied().unwrap_or(true);
    let answer = keep.get(place + 1).copied().unwrap_or(true);
    (request, answer)
}

// Numbers the registers of joints. Gives what comes behind them.
fn number_joints(arrivals: &mut Arrivals, plan: &Plan, keep: &[bool], from: u32) -> u32
    requires table { AreAt (plan_of plan.now) (λ e. None) arrivals.old }
    requires from { from ≡ joints_start (plan_of plan.now) }
    requires room { from + 4 * length plan.now.joints ≤ 4294967295 }
    ensures table { (making : ℕ → Making) → AreAt (plan_of plan.now) (joined_start (laying (chosen keep.now) making) (plan_of plan.now)) arrivals.new }
    ensures next { (making : ℕ → Making) → result ≡ loose_ends_start (laying (chosen keep.now) making) (plan_of plan.now) }
    ensures few { result ≤ from + 4 * length plan.now.joints }
    ensures right { IsRight (plan_of plan.now) }
{
    let joints = plan.joints();
    let mut next = from;
    for index in 0..joints.len() {
        next = number_joint(arrivals, joints[index], kept(keep, index), next);
    }
    next
}

// Where what comes in by a direction of a joint begins, whose registers would begin at this net.
fn origin(kept: bool, start: u32, other: End) -> Origin
    ensures { result ≡ by_way kept start (end_of other) }
{
    if kept {
        Origin::Cells(start)
    } else {
        Origin::Other(other)
    }
}

// Numbers the registers of a joint that are kept: first those of the request. Gives what comes behind them.
fn number_joint(arrivals: &mut Arrivals, joint: Joint, kept: (bool, bool), from: u32) -> u32
    requires { from + 4 ≤ 4294967295 }
    ensures table { (lay : Laying) (p : APlan) (x : ℕ) (f : AnEnd → Option AnOrigin)
        → lay.keep x Request ≡ kept.0 → lay.keep x Answer ≡ kept.1 → AreAt p f arrivals.old
        → AreAt p (λ e. or_else (f e) (start_by lay p x from (joint_of joint) e)) arrivals.new }
    ensures next { (lay : Laying) (p : APlan) (x : ℕ) (f : AnEnd → Option AnOrigin)
        → lay.keep x Request ≡ kept.0 → lay.keep x Answer ≡ kept.1 → AreAt p f arrivals.old → result ≡ from + joint_size lay p x (joint_of joint) }
    ensures few { result ≤ from + 4 }
{
    let (request, answer) = joint_sizes(arrivals, joint, kept);
    arrivals.fill(joint.asks, origin(kept.1, from + request, joint.serves));
    arrivals.fill(joint.serves, origin(kept.0, from, joint.asks));
    from + request + answer
}

// How many registers the request and the answer of a joint have.
fn joint_sizes(arrivals: &Arrivals, joint: Joint, kept: (bool, bool)) -> (u32, u32)
    ensures request { (p : APlan) (f : AnEnd → Option AnOrigin) → AreAt p f arrivals.now
        → result.0 ≡ kept_size kept.0 (bits_if (contact_at p (joint_of joint).asking) Request) }
    ensures answer { (p : APlan) (f : AnEnd → Option AnOrigin) → AreAt p f arrivals.now
        → result.1 ≡ kept_size kept.1 (bits_if (contact_at p (joint_of joint).asking) Answer) }
    ensures few { (result.0 ≤ 2) × (result.1 ≤ 2) }
{
    match arrivals.get(joint.asks) {
        Some(entry) => (
            kept_size(kept.0, entry.contact.ask_bits),
            kept_size(kept.1, entry.contact.answer_bits),
        ),
        None => (kept_size(kept.0, 0), kept_size(kept.1, 0)),
    }
}

// How many registers a token of so many bits has, if they are kept.
fn kept_size(kept: bool, bits: u32) -> u32
    ensures is { result ≡ kept_size kept bits }
    ensures few { result ≤ 2 }
{
    if kept { token_size(bits) } else { 0 }
}

// The ends at which nothing comes in by a joint.
fn loose_ends(alloc: Global, plan: &Plan, arrivals: &Arrivals) -> Result<Vec<End>, NoMemory>
    requires ports { HasGroundPorts plan.now }
    requires size { plan_size (plan_of plan.now) ≤ 5000000 }
    requires table { (lay : Laying) × AreAt (plan_of plan.now) (joined_start lay (plan_of plan.now)) arrivals.now }
    ensures ends { IfOk result (λ ends. map end_of ends.items ≡ loose_ends (plan_of plan.now)) }
    ensures few { IfOk result (λ ends. length ends.items ≤ 2 * (length plan.now.imports + 1) + shakes_of (plan_of plan.now).parts) }
{
    let ends = all_ends(alloc, plan)?;
    let loose = free_ends(alloc, &ends, arrivals)?;
    Ok(loose)
}

// Those of these ends at which nothing comes in by a joint.
fn free_ends(alloc: Global, ends: &[End], arrivals: &Arrivals) -> Result<Vec<End>, NoMemory>
    ensures free { IfOk result (λ free. (lay : Laying) (p : APlan) → AreAt p (joined_start lay p) arrivals.now → Exist p (map end_of ends.now)
        → map end_of free.items ≡ filter (λ e. is_free e p.joints) (map end_of ends.now)) }
    ensures few { IfOk result (λ free. length free.items ≤ length ends.now) }
{
    let mut free = Vec::new(alloc);
    for end in ends {
        if is_loose(arrivals, *end) {
            free.push(*end)?;
        }
    }
    Ok(free)
}

// Whether nothing comes in at an end so far.
fn is_loose(arrivals: &Arrivals, end: End) -> bool
    ensures { (p : APlan) (f : AnEnd → Option AnOrigin) → AreAt p f arrivals.now → IsSome (contact_at p (end_of end)) → result ≡ is_none (f (end_of end)) }
{
    match arrivals.get(end) {
        Some(entry) => entry.origin.is_none(),
        None => false,
    }
}

// Numbers the constants of ends in no joint. Gives what comes behind them.
fn number_loose(arrivals: &mut Arrivals, loose: &[End], from: u32) -> u32
    requires { from + 2 * length loose.now ≤ 4294967295 }
    ensures table { (p : APlan) (f : AnEnd → Option AnOrigin) → AreAt p f arrivals.old
        → AreAt p (λ e. or_else (f e) (start_by_ends p from (map end_of loose.now) e)) arrivals.new }
    ensures next { (p : APlan) (f : AnEnd → Option AnOrigin) → AreAt p f arrivals.old → result ≡ from + total (loose_size p) 0 (map end_of loose.now) }
    ensures few { result ≤ from + 2 * length loose.now }
{
    let mut next = from;
    for end in loose {
        let size = token_size(bits_at(arrivals, *end));
        arrivals.fill(*end, Origin::Cells(next));
        next += size;
    }
    next
}

// How many bits what comes in at an end has.
pub(crate) fn bits_at(arrivals: &Arrivals, end: End) -> u32
    ensures { (p : APlan) (f : AnEnd → Option AnOrigin) → AreAt p f arrivals.now → result ≡ bits_taken (contact_at p (end_of end)) }
{
    match arrivals.get(end) {
        Some(entry) => entry.bits(),
        None => 0,
    }
}

// The nets of what goes out of the parts, the first of which begins at this net, and what comes behind them.
fn number_parts(
    alloc: Global,
    plan: &Plan,
    orders: &Orders,
    from: u32,
) -> Result<(Departures, u32), NoMemory>
    requires ports { HasGroundPorts plan.now }
    requires size { plan_size (plan_of plan.now) ≤ 5000000 }
    requires orders { AreOrdersOf (making_in orders.now) (plan_of plan.now).parts }
    requires room { from ≤ 1000000000 }
    ensures departures { IfOk result (λ r.
        map (λ s. map held_nets s.items) r.0.parts.items ≡ departures_from (making_in orders.now) 0 from (plan_of plan.now).parts) }
    ensures next { IfOk result (λ r. r.1 ≡ from + total (λ i k. part_size (making_in orders.now i) k) 0 (plan_of plan.now).parts) }
    ensures few { IfOk result (λ r. r.1 ≤ from + 24 * (length plan.now.parts + shakes_of (plan_of plan.now).parts)) }
{
    let mut parts = Vec::new(alloc);
    let mut next = from;
    let kinds = plan.parts();
    for index in 0..kinds.len() {
        let kind = &kinds[index];
        let order = orders.get(index);
        let size = part_cells(kind, order);
        parts.push(part_departures(alloc, kind, order, next)?)?;
        next += size;
    }
    Ok((Departures { parts }, next))
}

// How many cells a part has.
fn part_cells(kind: &Kind, order: Option<&[u32]>) -> u32
    requires in_range { IsInRange kind.now }
    requires order { IsOrderOf (making_of (option_copied order)) (part_of kind.now) }
    ensures is { result ≡ part_size (making_of (option_copied order.entry)) (part_of kind.now) }
    ensures few { result ≤ 24 * (length (part_contacts (part_of kind.now)) + 1) }
{
    gates_of(kind, order).size()
}
