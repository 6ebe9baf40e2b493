// What the bind lines of a build mean: which instance serves which import of which other one.

ghost use Rattle.std.specs.Prelude.{◌≡◌, ◌≢◌, ◌<◌, [], ℕ, List, Some, None, length, map, IfOk, IfErr};
ghost use Rattle.gos_types.specs.Types.{type_of};
ghost use Rattle.gos_link.specs.Services.{import_named, Means, IsRightBind, IsWrongBind, BindsOn};
ghost use Rattle.gos_link.specs.Linked.{IsOfLinks};
ghost use Rattle.gos_link.specs.inner.Served.{AreAbove};
ghost use Rattle.gos_link.specs.inner.Tops.{AreTops, top_at};

use crate::build::Bind;
use crate::fault::LinkFault;
use crate::instances::Instances;
use crate::served::Services;
use gos_lex::Name;
use gos_plan::{Plan, PlanImport};
use gos_types::{NoMemory, Ty, copy, same};
use std::alloc::Global;

/// That instance `giver` serves import `import` of instance `user`, by a line.
#[derive(Clone, Copy)]
pub struct Service {
    pub line: u64,
    pub user: usize,
    pub import: usize,
    pub giver: usize,
}

// The number of the first import of this name.
fn import_named(imports: &[PlanImport], name: &[u8]) -> Option<usize>
    ensures { result ≡ import_named imports.now name.now }
{
    imports
        .iter()
        .position(|import| import.name.bytes() == name)
}

// A copy of a name. `Err` is want of memory alone.
pub(crate) fn copy_name(alloc: Global, name: &Name) -> Result<Name, NoMemory>
    ensures { IfOk result (λ copy. copy ≡ name.now) }
{
    match Name::new(alloc, name.bytes()) {
        Ok(copy) => Ok(copy),
        Err(_) => Err(NoMemory),
    }
}

// That a line names no instance.
pub(crate) fn no_instance(alloc: Global, line: u64, name: &Name) -> LinkFault
    ensures names { result ≢ LinkFault.NoMemory → result ≡ LinkFault.NoInstance line name.now }
    ensures light { IsOfLinks result }
{
    match copy_name(alloc, name) {
        Ok(name) => LinkFault::NoInstance { line, name },
        Err(_) => LinkFault::NoMemory,
    }
}

// That a line names no import.
fn no_import(alloc: Global, line: u64, name: &Name) -> LinkFault
    ensures names { result ≢ LinkFault.NoMemory → result ≡ LinkFault.NoImport line name.now }
    ensures light { IsOfLinks result }
{
    match copy_name(alloc, name) {
        Ok(name) => LinkFault::NoImport { line, name },
        Err(_) => LinkFault::NoMemory,
    }
}

// That a line binds different types.
fn type_differs(alloc: Global, line: u64, want: &Ty, got: &Ty) -> Result<LinkFault, NoMemory>
    ensures types { IfOk result (λ fault. (w : Ty) × (g : Ty) × (fault ≡ LinkFault.TypeDiffers line w g) × (type_of w ≡ type_of want.now)
        × (type_of g ≡ type_of got.now)) }
    ensures light { IfOk result IsOfLinks }
{
    let want = copy(alloc, want)?;
    let got = copy(alloc, got)?;
    Ok(LinkFault::TypeDiffers { line, want, got })
}

// What a line means.
fn meaning(
    alloc: Global,
    instances: &Instances,
    plans: &[Plan],
    bind: &Bind,
) -> Result<Service, LinkFault>
    requires { length plans.now ≡ length instances.now }
    ensures means { IfOk result (Means instances.now plans.now bind.now) }
    ensures fault { IfErr result (λ fault. fault ≢ LinkFault.NoMemory → (before : List Service) → IsWrongBind instances.now plans.now before bind.now fault) }
    ensures light { IfErr result IsOfLinks }
{
    let Some(user) = instances.number(&bind.user) else {
        return Err(no_instance(alloc, bind.line, &bind.user));
    };
    let Some(giver) = instances.number(&bind.giver) else {
        return Err(no_instance(alloc, bind.line, &bind.giver));
    };
    let imports = plans[user].imports();
    let Some(import) = import_named(imports, bind.import.bytes()) else {
        return Err(no_import(alloc, bind.line, &bind.import));
    };
    let want = &imports[import].ty;
    let got = plans[giver].result();
    if !same(want, got) {
        return Err(type_differs(alloc, bind.line, want, got)?);
    }
    Ok(Service {
        line: bind.line,
        user,
        import,
        giver,
    })
}

// What a line means, if it is right after these services.
fn service_of(
    alloc: Global,
    instances: &Instances,
    plans: &[Plan],
    bind: &Bind,
    before: &Services,
    above: &[usize],
) -> Result<Service, LinkFault>
    requires plans { length plans.now ≡ length instances.now }
    requires tops { (tops : List ℕ) × AreTops (length instances.now) before.now tops × AreAbove before.now tops above.now }
    ensures right { IfOk result (IsRightBind instances.now plans.now before.now bind.now) }
    ensures fault { IfErr result (λ fault. fault ≢ LinkFault.NoMemory → IsWrongBind instances.now plans.now before.now bind.now fault) }
    ensures light { IfErr result IsOfLinks }
{
    let service = meaning(alloc, instances, plans, bind)?;
    let second = service.line;
    if let Some(first) = before.first_bound(service.user, service.import) {
        return Err(LinkFault::BoundTwice { first, second });
    }
    if let Some(first) = before.first_used(service.giver) {
        return Err(LinkFault::UsedTwice { first, second });
    }
    if top_of(before, above, service.user) == service.giver {
        return Err(LinkFault::Loop { line: second });
    }
    Ok(service)
}

// The instance that is above the giver of a service.
fn above_at(above: &[usize], number: usize) -> usize
    ensures { result ≡ top_at above.now number }
{
    match above.get(number) {
        Some(instance) => *instance,
        None => number,
    }
}

// The top of an instance: of those above it the one that serves none.
fn top_of(services: &Services, above: &[usize], instance: usize) -> usize
    requires { (tops : List ℕ) × AreAbove services.now tops above.now }
    ensures { (n : ℕ) (tops : List ℕ) → AreTops n services.now tops → AreAbove services.now tops above.now → result ≡ top_at tops instance }
{
    let mut at = instance;
    loop {
        match services.number_used(at) {
            Some(number) => at = above_at(above, number),
            None => return at,
        }
    }
}

/// What the lines of a build mean, if all are right, and else why the first that isn't is wrong.
pub(crate) fn services_of(
    alloc: Global,
    instances: &Instances,
    plans: &[Plan],
    binds: &[Bind],
) -> Result<Services, LinkFault>
    requires { length plans.now ≡ length instances.now }
    ensures right { IfOk result (λ services. BindsOn instances.now plans.now [] binds.now services None) }
    ensures fault { IfErr result (λ fault. fault ≢ LinkFault.NoMemory
        → (services : List Service) × BindsOn instances.now plans.now [] binds.now services (Some fault)) }
    ensures light { IfErr result IsOfLinks }
{
    let mut services = Services::new(alloc);
    let mut above = Vec::new(alloc);
    for bind in binds {
        match service_of(alloc, instances, plans, bind, &services, &above) {
            Ok(service) => {
                above.push(top_of(&services, &above, service.user))?;
                services = services.with(service)?;
            }
            Err(fault) => return Err(fault),
        }
    }
    Ok(services)
}
