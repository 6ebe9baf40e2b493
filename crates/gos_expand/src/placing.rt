// The cells of a plan, in four groups: of the ports, of the joints, of the ends in no joint, and of the parts.
ghost use Rattle.std.specs.Prelude.{◌≡◌, ◌≤◌, ◌<◌, ◌+◌, None, Some, length, slice_get, IsSome};
ghost use Rattle.gos_netlist.specs.Seen.{side_of};
ghost use Rattle.gos_plan.specs.Kinds.{Part, part_contacts};
ghost use Rattle.gos_plan.specs.Contacts.{contact_held};
ghost use Rattle.gos_plan.specs.Plans.{contact_at, IsRight};
ghost use Rattle.gos_plan.specs.Seen.{plan_of, joint_of, end_of};
ghost use Rattle.gos_macro.specs.Wires.{incoming_of};
ghost use Rattle.gos_expand.specs.Blocks.{blocks};
ghost use Rattle.gos_expand.specs.Gates.{part_size};
ghost use Rattle.gos_expand.specs.Starts.{kept_size, shake_size, joint_size, ports_of, taken_ports, loose_ends, part_start, parts_start};
ghost use Rattle.gos_expand.specs.Laid.{registers_if, leaves, side_cells, port_cells, joint_cells, loose_cells, part_cells, incoming};
ghost use Rattle.gos_expand.specs.inner.Tokens.{held_nets, Places};
ghost use Rattle.gos_plan.specs.Size.{plan_size};
ghost use Rattle.gos_expand.specs.Acceptance.{HasGroundPorts};
ghost use Rattle.gos_expand.specs.inner.Numbering.{IsNumbered, laying_in};
ghost use Rattle.gos_expand.specs.inner.Outers.{outer_at};

use crate::departures::no_wires;
use crate::gates::gates_of;
use crate::leaves::{arrives, leaves};
use crate::numbering::{Numbering, bits_at, kept};
use crate::places::{Place, shakes};
use crate::tokens::{Nets, place_inputs, place_nothing, place_registers};
use gos_macro::{Macro, Wire};
use gos_netlist::{NetId, Side};
use gos_plan::{Contact, End, Joint, Plan};
use gos_pool::{NetPool, Region};
use gos_types::count;

// Places the cells of the ports.
pub(crate) fn place_ports(pool: &mut NetPool, plan: &Plan, numbering: &Numbering<'_>)
    requires ports { HasGroundPorts plan.now }
    requires size { plan_size (plan_of plan.now) ≤ 5000000 }
    requires right { IsRight (plan_of plan.now) }
    requires numbered { IsNumbered (plan_of plan.now) numbering.now }
    requires begun { pool.old.begun ≡ None }
    requires spare { length (blocks (port_cells (laying_in numbering.now) (plan_of plan.now)) 0 (ports_of (plan_of plan.now))) + 1 ≤ pool.old.spare }
    ensures { Places pool.old pool.new (blocks (port_cells (laying_in numbering.now) (plan_of plan.now)) 0 (ports_of (plan_of plan.now))) 1 }
{
    let mut region = pool.begin();
    place_port(
        pool,
        &mut region,
        plan,
        numbering,
        Place::OfResult,
        count(plan.result()) as u32,
    );
    place_imports(pool, &mut region, plan, numbering);
    pool.finish(region);
}

// Places the cells of the imports' ports.
fn place_imports(pool: &mut NetPool, region: &mut Region, plan: &Plan, numbering: &Numbering<'_>)
    requires ports { HasGroundPorts plan.now }
    requires size { plan_size (plan_of plan.now) ≤ 5000000 }
    requires right { IsRight (plan_of plan.now) }
    requires numbered { IsNumbered (plan_of plan.now) numbering.now }
    requires begun { pool.old.begun ≡ Some region.old }
    requires spare { length (blocks (port_cells (laying_in numbering.now) (plan_of plan.now)) 0 (taken_ports 0 (plan_of plan.now).imports)) ≤ pool.old.spare }
    ensures placed { Places pool.old pool.new
        (blocks (port_cells (laying_in numbering.now) (plan_of plan.now)) 0 (taken_ports 0 (plan_of plan.now).imports)) 0 }
    ensures region { region.new ≡ region.old }
{
    let imports = plan.imports();
    for index in 0..imports.len() {
        let place = Place::OfImport(index as u32);
        let shakes = count(&imports[index].ty) as u32;
        place_port(pool, region, plan, numbering, place, shakes);
    }
}

// Places the cells of a port.
fn place_port(
    pool: &mut NetPool,
    region: &mut Region,
    plan: &Plan,
    numbering: &Numbering<'_>,
    place: Place,
    count: u32,
)
    requires ports { HasGroundPorts plan.now }
    requires size { plan_size (plan_of plan.now) ≤ 5000000 }
    requires right { IsRight (plan_of plan.now) }
    requires numbered { IsNumbered (plan_of plan.now) numbering.now }
    requires all { count ≡ length (outer_at (plan_of plan.now) place).contacts }
    requires begun { pool.old.begun ≡ Some region.old }
    requires spare { length (port_cells (laying_in numbering.now) (plan_of plan.now) 0 (outer_at (plan_of plan.now) place)) ≤ pool.old.spare }
    ensures placed { Places pool.old pool.new (port_cells (laying_in numbering.now) (plan_of plan.now) 0 (outer_at (plan_of plan.now) place)) 0 }
    ensures region { region.new ≡ region.old }
{
    for shake in 0..count {
        let end = place.end(shake);
        let nets = arrives(plan, numbering, end);
        let Some(entry) = numbering.arrivals.get(end) else {
            unreachable!()
        };
        place_shake(pool, region, place.side(), entry.contact, nets);
    }
}

// Places the cells of a handshake of a port, where these nets come in.
fn place_shake(pool: &mut NetPool, region: &mut Region, side: Side, contact: Contact, nets: Nets)
    requires begun { pool.old.begun ≡ Some region.old }
    requires spare { shake_size 0 (contact_held contact) ≤ pool.old.spare }
    ensures placed { Places pool.old pool.new (side_cells (side_of side) (contact_held contact) (held_nets nets)) 0 }
    ensures region { region.new ≡ region.old }
{
    match side {
        Side::Give => {
            place_inputs(pool, region, contact.ask_bits);
            place_registers(pool, region, contact.answer_bits, nets);
        }
        Side::Take => {
            place_registers(pool, region, contact.ask_bits, nets);
            place_inputs(pool, region, contact.answer_bits);
        }
    }
}

// Places the registers of the joints.
pub(crate) fn place_joints(pool: &mut NetPool, plan: &Plan, numbering: &Numbering<'_>)
    requires ports { HasGroundPorts plan.now }
    requires size { plan_size (plan_of plan.now) ≤ 5000000 }
    requires numbered { IsNumbered (plan_of plan.now) numbering.now }
    requires begun { pool.old.begun ≡ None }
    requires spare { length (blocks (joint_cells (laying_in numbering.now) (plan_of plan.now)) 0 (plan_of plan.now).joints) + 1 ≤ pool.old.spare }
    ensures { Places pool.old pool.new (blocks (joint_cells (laying_in numbering.now) (plan_of plan.now)) 0 (plan_of plan.now).joints) 1 }
{
    let mut region = pool.begin();
    let joints = plan.joints();
    for index in 0..joints.len() {
        place_joint(pool, &mut region, plan, numbering, index, joints[index]);
    }
    pool.finish(region);
}

// Places the registers of a joint that are kept: first those of the request.
fn place_joint(
    pool: &mut NetPool,
    region: &mut Region,
    plan: &Plan,
    numbering: &Numbering<'_>,
    index: usize,
    joint: Joint,
)
    requires ports { HasGroundPorts plan.now }
    requires size { plan_size (plan_of plan.now) ≤ 5000000 }
    requires numbered { IsNumbered (plan_of plan.now) numbering.now }
    requires index { index < 4294967295 }
    requires asks { IsSome (contact_at (plan_of plan.now) (joint_of joint).asking) }
    requires serves { IsSome (contact_at (plan_of plan.now) (joint_of joint).serving) }
    requires begun { pool.old.begun ≡ Some region.old }
    requires spare { joint_size (laying_in numbering.now) (plan_of plan.now) index (joint_of joint) ≤ pool.old.spare }
    ensures placed { Places pool.old pool.new (joint_cells (laying_in numbering.now) (plan_of plan.now) index (joint_of joint)) 0 }
    ensures region { region.new ≡ region.old }
{
    let Some(entry) = numbering.arrivals.get(joint.asks) else {
        unreachable!()
    };
    let contact = entry.contact;
    let (request, answer) = kept(numbering.keep, index);
    place_way(
        pool,
        region,
        plan,
        numbering,
        request,
        contact.ask_bits,
        joint.asks,
    );
    place_way(
        pool,
        region,
        plan,
        numbering,
        answer,
        contact.answer_bits,
        joint.serves,
    );
}

// Places the registers of a direction of a joint: of what goes in at this end.
fn place_way(
    pool: &mut NetPool,
    region: &mut Region,
    plan: &Plan,
    numbering: &Numbering<'_>,
    kept: bool,
    bits: u32,
    from: End,
)
    requires ports { HasGroundPorts plan.now }
    requires size { plan_size (plan_of plan.now) ≤ 5000000 }
    requires numbered { IsNumbered (plan_of plan.now) numbering.now }
    requires there { IsSome (contact_at (plan_of plan.now) (end_of from)) }
    requires begun { pool.old.begun ≡ Some region.old }
    requires spare { kept_size kept bits ≤ pool.old.spare }
    ensures placed { Places pool.old pool.new (registers_if kept bits (leaves (laying_in numbering.now) (plan_of plan.now) (end_of from))) 0 }
    ensures region { region.new ≡ region.old }
{
    if kept {
        let nets = leaves(plan, numbering, from);
        place_registers(pool, region, bits, nets);
    }
}

// Places the constants of the ends in no joint.
pub(crate) fn place_loose(pool: &mut NetPool, plan: &Plan, numbering: &Numbering<'_>)
    requires numbered { IsNumbered (plan_of plan.now) numbering.now }
    requires begun { pool.old.begun ≡ None }
    requires spare { length (blocks (loose_cells (plan_of plan.now)) 0 (loose_ends (plan_of plan.now))) + 1 ≤ pool.old.spare }
    ensures { Places pool.old pool.new (blocks (loose_cells (plan_of plan.now)) 0 (loose_ends (plan_of plan.now))) 1 }
{
    let mut region = pool.begin();
    let loose = numbering.loose.as_slice();
    for index in 0..loose.len() {
        let bits = bits_at(&numbering.arrivals, loose[index]);
        place_nothing(pool, &mut region, bits);
    }
    pool.finish(region);
}

// Places the cells of the parts.
pub(crate) fn place_parts(pool: &mut NetPool, plan: &Plan, numbering: &Numbering<'_>)
    requires ports { HasGroundPorts plan.now }
    requires size { plan_size (plan_of plan.now) ≤ 5000000 }
    requires right { IsRight (plan_of plan.now) }
    requires numbered { IsNumbered (plan_of plan.now) numbering.now }
    requires begun { pool.old.begun ≡ None }
    requires start { length pool.old.cells ≡ parts_start (laying_in numbering.now) (plan_of plan.now) }
    requires spare { length (blocks (part_cells (laying_in numbering.now) (plan_of plan.now)) 0 (plan_of plan.now).parts)
        + length plan.now.parts ≤ pool.old.spare }
    ensures { Places pool.old pool.new
        (blocks (part_cells (laying_in numbering.now) (plan_of plan.now)) 0 (plan_of plan.now).parts) (length plan.now.parts) }
{
    for index in 0..plan.parts().len() {
        place_part(pool, plan, numbering, index);
    }
}

// Places the cells of a part, in a region of its own.
fn place_part(pool: &mut NetPool, plan: &Plan, numbering: &Numbering<'_>, index: usize)
    requires ports { HasGroundPorts plan.now }
    requires size { plan_size (plan_of plan.now) ≤ 5000000 }
    requires right { IsRight (plan_of plan.now) }
    requires numbered { IsNumbered (plan_of plan.now) numbering.now }
    requires there { index < length plan.now.parts }
    requires begun { pool.old.begun ≡ None }
    requires start { length pool.old.cells ≡ part_start (laying_in numbering.now) (plan_of plan.now) index }
    requires spare { (k : Part) → slice_get (plan_of plan.now).parts index ≡ Some k
        → part_size ((laying_in numbering.now).making index) k + 1 ≤ pool.old.spare }
    ensures { (k : Part) → slice_get (plan_of plan.now).parts index ≡ Some k
        → Places pool.old pool.new (part_cells (laying_in numbering.now) (plan_of plan.now) index k) 1 }
{
    let kind = &plan.parts()[index];
    let gates = gates_of(kind, numbering.orders.get(index));
    let mut wires = no_wires();
    let wires = &mut wires[..shakes(kind) as usize];
    wire_part(plan, numbering, index as u32, wires);
    let mut region = pool.begin();
    gates.outs(NetId(region.start()), wires);
    gates.place(pool, &mut region, wires);
    pool.finish(region);
}

// Fills in the nets that come in at a part.
fn wire_part(plan: &Plan, numbering: &Numbering<'_>, part: u32, wires: &mut [Wire])
    requires ports { HasGroundPorts plan.now }
    requires size { plan_size (plan_of plan.now) ≤ 5000000 }
    requires right { IsRight (plan_of plan.now) }
    requires numbered { IsNumbered (plan_of plan.now) numbering.now }
    requires there { (k : Part) → slice_get (plan_of plan.now).parts part ≡ Some k → length wires.old ≡ length (part_contacts k) }
    requires part { part < length plan.now.parts }
    requires few { length wires.old ≤ 192 }
    ensures nets { incoming_of wires.new ≡ incoming (laying_in numbering.now) (plan_of plan.now) part }
    ensures length { length wires.new ≡ length wires.old }
{
    for shake in 0..wires.len() {
        let end = End::Part {
            part,
            shake: shake as u32,
        };
        let nets = arrives(plan, numbering, end);
        wires[shake].in_pulse = nets.pulse;
        wires[shake].in_value = nets.number;
    }
}
