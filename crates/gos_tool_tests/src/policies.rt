// One build under both policies for the registers of joints.
ghost use Rattle.std.specs.Prelude.{List, IfOk, IfSome};
ghost use Rattle.gos_plan.specs.Ranges.{AreInRange};
ghost use Rattle.gos_plan.specs.Seen.{SeenPlan, plan_of};
ghost use Rattle.gos_link.specs.Linked.{AllKeepLimits, IsLinked, plans_of};

use crate::running::{Left, events, ran};
use crate::worked::CONTROLLER;
use gos_expand::{Policy, expand};
use gos_link::{Build, link, read_build};
use gos_netlist::print_net;
use gos_plan::{Plan, read_object};
use gos_types::NoMemory;
use std::alloc::{AllocError, Global};
use std::test::Fail;

// The plans of objects, if they are some.
fn plans_in(alloc: Global, objects: &[&[u8]]) -> Result<Option<Vec<Plan>>, AllocError>
    ensures { IfOk result (λ found. IfSome found (λ plans. AllKeepLimits (plans_of plans.items))) }
{
    let mut plans = Vec::new(alloc);
    for object in objects {
        match read_object(alloc, object) {
            Ok(plan) => plans.push(plan)?,
            Err(_) => return Ok(None),
        }
    }
    Ok(Some(plans))
}

// The numbers of a plan are in range, as of each plan.
fn is_in_range(plan: &Plan)
    ensures { AreInRange plan.now.imports plan.now.outcome plan.now.parts }
{
    let _parts = plan.parts();
}

// The netlist of a linked plan under a policy, as a text.
fn laid(alloc: Global, build: &Build, plan: &Plan, policy: Policy) -> Result<Vec<u8>, NoMemory>
    requires { (plans : List SeenPlan) × IsLinked build.now plans (plan_of plan.now) }
{
    is_in_range(plan);
    let net = expand(alloc, plan, &build.root, policy)?;
    print_net(alloc, &net)
}

// The netlist of a build that was built, under a policy.
fn netlist_of(alloc: Global, left: &Left, policy: Policy) -> Result<Vec<u8>, Fail> {
    let build = read_build(alloc, left.file(b"b.txt").unwrap_or(b""), b"b.txt")?;
    let objects = [
        left.file(b"main.obj").unwrap_or(b""),
        left.file(b"rep.obj").unwrap_or(b""),
        left.file(b"cnt.obj").unwrap_or(b""),
    ];
    let Some(plans) = plans_in(alloc, &objects)? else {
        return Err("no objects".into());
    };
    if plans.len() != build.instances.len() {
        return Err("other objects".into());
    }
    let plan = link(alloc, &build, &plans)?;
    Ok(laid(alloc, &build, &plan, policy)?)
}

// The pulses in the run of a netlist, in their order.
fn order(alloc: Global, net: &[u8], pulses: &[u8]) -> Result<Vec<u8>, AllocError> {
    let files: [(&[u8], &[u8]); 2] = [(b"a.net", net), (b"in.pls", pulses)];
    let left = ran(alloc, &["sim", "a.net", "in.pls", "out.trc"], &files)?;
    events(alloc, left.file(b"out.trc").unwrap_or(b""))
}

#[test]
fn both_policies_have_one_order_of_pulses(rt: HostRuntime) -> Result<(), Fail> {
    let alloc = rt.alloc();
    let left = ran(alloc, &["build", "b.txt"], CONTROLLER)?;
    let pulses = left.file(b"in.pls").unwrap_or(b"");
    let wanted = events(alloc, left.file(b"out.trc").unwrap_or(b""))?;
    assert!(rt; left.has_code(0) && !wanted.is_empty());
    let all = netlist_of(alloc, &left, Policy::All)?;
    let few = netlist_of(alloc, &left, Policy::Few)?;
    assert!(rt; left.holds(b"out.net", few.as_slice()) && all.len() > few.len());
    assert!(rt; order(alloc, all.as_slice(), pulses)?.as_slice() == wanted.as_slice());
    assert!(rt; order(alloc, few.as_slice(), pulses)?.as_slice() == wanted.as_slice());
    Ok(())
}
