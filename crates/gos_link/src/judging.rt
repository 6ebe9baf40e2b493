// What is asked of a build before its weight: its bind lines, its root, its ports.
//
// Of a plan this reads the imports and the result alone, so that a plan of no part and no joint says enough: specs/Faces.

ghost use Rattle.std.specs.Prelude.{◌≡◌, ◌≢◌, [], None, length, IfOk, IfErr};
ghost use Rattle.gos_link.specs.Services.{BindsOn};
ghost use Rattle.gos_link.specs.Linked.{AreLinks, IsGrounded, IsLinkable, IsOfLinks, IsUnlinked, IsWrongWhole};
ghost use Rattle.gos_link.specs.inner.Judged.{IsJudged};

use crate::build::Build;
use crate::fault::LinkFault;
use crate::instances::Instances;
use crate::opens::opens_of;
use crate::served::Services;
use crate::services::{Service, services_of};
use crate::whole::{check_imports, check_names, check_result, root_of};
use gos_plan::Plan;
use std::alloc::Global;
use std::marker::Model;

/// What the bind lines of a build mean, and which instance is its root.
#[derive(Drop)]
pub struct Links {
    services: Services,
    root: usize,
}

impl Model for Links {
    ghost use Rattle.gos_link.specs.Linked.{SeenLinks};
    ghost use Rattle.std.specs.Coded.{codes};
    ghost use Rattle.gos_link.specs.contracts.services.Service as a_service;

    ghost Value = { SeenLinks };

    ghost coded = { Prim.hlevel (codes, a_service.the_row.coded) };

    ghost view = { λ links. record { services = links.services; root = links.root } };
}

impl Links {
    /// The services, in the order of their lines.
    pub fn services(&self) -> &[Service]
        ensures { result.now ≡ self.now.services }
    {
        self.services.all()
    }

    /// The services, with the tables of what they serve.
    pub(crate) fn served(&self) -> &Services
        ensures { result.now ≡ self.now.services }
    {
        &self.services
    }

    /// The number of the root among the instances.
    pub fn root(&self) -> usize
        ensures { result ≡ self.now.root }
    {
        self.root
    }
}

// Judges the ports of a build whose bind lines are right, whose root is this one and whose instances have their places.
fn check_ports(
    alloc: Global,
    build: &Build,
    plans: &[Plan],
    services: &Services,
    root: usize,
) -> Result<(), LinkFault>
    requires { IsJudged build.now plans.now services.now root }
    ensures grounded { IfOk result (λ _. IsGrounded build.now plans.now services.now root) }
    ensures fault { IfErr result (λ fault. fault ≢ LinkFault.NoMemory → IsWrongWhole build.now plans.now services.now fault) }
    ensures light { IfErr result IsOfLinks }
{
    let opens = opens_of(alloc, plans, services)?;
    check_names(alloc, &build.instances, &build.root, &opens)?;
    check_result(alloc, &build.root, plans[root].result())?;
    check_imports(alloc, &opens)
}

// The root of a build whose bind lines are right and mean these services, if the rest is right too.
fn root_on(
    alloc: Global,
    build: &Build,
    plans: &[Plan],
    instances: &Instances,
    services: &Services,
) -> Result<usize, LinkFault>
    requires instances { instances.now ≡ build.now.instances.items }
    requires each { length plans.now ≡ length build.now.instances.items }
    requires binds { BindsOn build.now.instances.items plans.now [] build.now.binds.items services.now None }
    ensures grounded { IfOk result (IsGrounded build.now plans.now services.now) }
    ensures fault { IfErr result (λ fault. fault ≢ LinkFault.NoMemory → IsWrongWhole build.now plans.now services.now fault) }
    ensures light { IfErr result IsOfLinks }
{
    let root = root_of(alloc, build, instances, services)?;
    check_ports(alloc, build, plans, services, root)?;
    Ok(root)
}

// The links of a build of these instances.
fn links_on(
    alloc: Global,
    build: &Build,
    plans: &[Plan],
    instances: &Instances,
) -> Result<Links, LinkFault>
    requires instances { instances.now ≡ build.now.instances.items }
    requires each { length plans.now ≡ length build.now.instances.items }
    ensures links { IfOk result (AreLinks build.now plans.now) }
    ensures fault { IfErr result (λ fault. fault ≢ LinkFault.NoMemory → IsUnlinked build.now plans.now fault) }
    ensures light { IfErr result IsOfLinks }
{
    let services = services_of(alloc, instances, plans, &build.binds)?;
    let root = root_on(alloc, build, plans, instances, &services)?;
    Ok(Links { services, root })
}

/// Judges a build before its weight, over plans for its instances, which are given in their order and within the limits of
/// object files. What it answers hangs on their imports and results alone (`one_face`).
///
/// The error is the first of these: for each bind line in order `NoInstance`, `NoImport`, `TypeDiffers`, `BoundTwice`,
/// `UsedTwice`, `Loop`; then `NoInstance` of the root's line, `Unplaced`, `OpenTwice`, `NotGround`. The error `NoMemory` is want
/// of memory alone.
pub fn judge_links(alloc: Global, build: &Build, plans: &[Plan]) -> Result<Links, LinkFault>
    requires { IsLinkable build.now plans.now }
    ensures links { IfOk result (AreLinks build.now plans.now) }
    ensures fault { IfErr result (λ fault. fault ≢ LinkFault.NoMemory → IsUnlinked build.now plans.now fault) }
    ensures light { IfErr result IsOfLinks }
{
    let instances = Instances::new(alloc, &build.instances)?;
    links_on(alloc, build, plans, &instances)
}
