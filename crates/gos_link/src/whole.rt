// What is asked of a build behind its bind lines: the root, places, names, types and weight.

ghost use Rattle.std.specs.Prelude.{◌≡◌, ◌≢◌, ◌<◌, ◌≤◌, ◌∷◌, ℕ, List, Some, None, length, map, slice_get, IfOk, IfErr, IsTrue, MatchOption, ◌↔◌};
ghost use Rattle.gos_types.specs.Types.{type_of, IsDone};
ghost use Rattle.gos_plan.specs.Seen.{SeenPlan};
ghost use Rattle.gos_plan.specs.Joining.{LeftImport};
ghost use Rattle.gos_link.specs.Linked.{AreDifferent, AreGround, IsFirstHigher, IsOfLinks, IsPlaced, IsSecond, IsWrongWhole, first_unplaced, is_placed, port_of};
ghost use Rattle.gos_link.specs.inner.Opens.{open_seen};
ghost use Rattle.gos_link.specs.inner.Ports.{port_seen, AllDiffer, IsOpenTwice};

use crate::build::{Build, Instance};
use crate::fault::LinkFault;
use crate::instances::Instances;
use crate::opens::Open;
use crate::served::Services;
use crate::services::{copy_name, no_instance};
use gos_lex::{Name, NameTable};
use gos_plan::PlanImport;
use gos_types::{NoMemory, Ty, is_ground};
use std::alloc::Global;

/// The greatest weight of a linked plan.
const MAX_WEIGHT: u64 = 32_768;

// Whether an instance is the root or serves an import.
fn is_placed(root: usize, services: &Services, number: usize) -> bool
    ensures { result ≡ is_placed root services.now number }
{
    number == root || services.first_used(number).is_some()
}

// The name of the first instance that isn't the root and serves no import.
fn first_unplaced<'a>(
    instances: &'a [Instance],
    services: &Services,
    root: usize,
) -> Option<&'a Name>
    ensures { MatchOption result (first_unplaced root services.now 0 instances.now ≡ None)
        (λ name. first_unplaced root services.now 0 instances.now ≡ Some name.now) }
{
    for (number, instance) in instances.iter().enumerate() {
        if !is_placed(root, services, number) {
            return Some(&instance.name);
        }
    }
    None
}

/// The number of the root, if it and all instances have their places.
pub(crate) fn root_of(
    alloc: Global,
    build: &Build,
    instances: &Instances,
    services: &Services,
) -> Result<usize, LinkFault>
    requires { instances.now ≡ build.now.instances.items }
    ensures placed { IfOk result (IsPlaced build.now services.now) }
    ensures fault { IfErr result (λ fault. fault ≢ LinkFault.NoMemory → (ps : List SeenPlan) → IsWrongWhole build.now ps services.now fault) }
    ensures light { IfErr result IsOfLinks }
{
    let Some(root) = instances.number(&build.root) else {
        return Err(no_instance(alloc, build.root_line, &build.root));
    };
    match first_unplaced(&build.instances, services, root) {
        Some(unplaced) => {
            let name = copy_name(alloc, unplaced)?;
            Err(LinkFault::Unplaced { name })
        }
        None => Ok(root),
    }
}

// A port: its name, and that of its instance.
#[derive(Clone, Copy)]
struct Port<'a> {
    name: &'a Name,
    instance: &'a Name,
}

// The ports of the whole: that of the root, and the imports that stay.
fn ports_of<'a>(
    alloc: Global,
    instances: &'a [Instance],
    root: &'a Name,
    opens: &[Open<'a>],
) -> Result<Vec<Port<'a>>, NoMemory>
    requires { (k : ℕ) (l : LeftImport) → slice_get (map open_seen opens.now) k ≡ Some l → l.plan < length instances.now }
    ensures { IfOk result (λ ports. map port_seen ports.items
        ≡ (record { name = root.now; instance = root.now }) ∷ map (port_of instances.now) (map open_seen opens.now)) }
{
    let mut ports = Vec::new(alloc);
    ports.push(Port {
        name: root,
        instance: root,
    })?;
    for open in opens {
        ports.push(Port {
            name: &open.import.name,
            instance: &instances[open.plan].name,
        })?;
    }
    Ok(ports)
}

// A port whose name one before it has, and that one.
#[derive(Clone, Copy)]
struct Clash<'a> {
    one: Port<'a>,
    other: Port<'a>,
}

// The first two ports of one name.
fn clash_of<'a>(alloc: Global, ports: &[Port<'a>]) -> Result<Option<Clash<'a>>, NoMemory>
    ensures { IfOk result (λ clash. MatchOption clash (AreDifferent (length ports.now) (map port_seen ports.now))
        (λ c. IsSecond (map port_seen ports.now) (port_seen c.one) (port_seen c.other))) }
{
    let mut numbers = NameTable::new(alloc);
    for (number, port) in ports.iter().enumerate() {
        let bytes = port.name.bytes();
        if let Some(first) = numbers.get(bytes) {
            return Ok(Some(Clash {
                one: ports[first],
                other: *port,
            }));
        }
        let name = bytes.to_vec(alloc)?;
        numbers.add(name, number)?;
    }
    Ok(None)
}

// That two ports have one name.
fn open_twice(alloc: Global, clash: Clash) -> Result<LinkFault, NoMemory>
    ensures { IfOk result (λ fault. fault ≡ LinkFault.OpenTwice clash.entry.other.name.now clash.entry.one.instance.now clash.entry.other.instance.now) }
{
    let name = copy_name(alloc, clash.other.name)?;
    let first = copy_name(alloc, clash.one.instance)?;
    let second = copy_name(alloc, clash.other.instance)?;
    Ok(LinkFault::OpenTwice {
        name,
        first,
        second,
    })
}

/// Finds that no two ports have one name.
pub(crate) fn check_names(
    alloc: Global,
    instances: &[Instance],
    root: &Name,
    opens: &[Open],
) -> Result<(), LinkFault>
    requires { (k : ℕ) (l : LeftImport) → slice_get (map open_seen opens.now) k ≡ Some l → l.plan < length instances.now }
    ensures different { IfOk result (λ _. AllDiffer ((record { name = root.now; instance = root.now })
        ∷ map (port_of instances.now) (map open_seen opens.now))) }
    ensures fault { IfErr result (λ fault. fault ≢ LinkFault.NoMemory
        → IsOpenTwice ((record { name = root.now; instance = root.now }) ∷ map (port_of instances.now) (map open_seen opens.now)) fault) }
    ensures light { IfErr result IsOfLinks }
{
    let ports = ports_of(alloc, instances, root, opens)?;
    match clash_of(alloc, &ports)? {
        Some(clash) => Err(open_twice(alloc, clash)?),
        None => Ok(()),
    }
}

// Whether the outside may use a result of this type.
fn is_done(ty: &Ty) -> bool
    ensures { IsTrue result ↔ IsDone (type_of ty.now) }
{
    matches!(ty, Ty::Com | Ty::Exp(_))
}

/// Finds that the outside may use the result.
pub(crate) fn check_result(alloc: Global, root: &Name, outcome: &Ty) -> Result<(), LinkFault>
    ensures done { IfOk result (λ _. IsDone (type_of outcome.now)) }
    ensures fault { IfErr result (λ fault. fault ≢ LinkFault.NoMemory → (IsDone (type_of outcome.now) → ⊥) × (fault ≡ LinkFault.NotGround root.now)) }
    ensures light { IfErr result IsOfLinks }
{
    if is_done(outcome) {
        return Ok(());
    }
    let name = copy_name(alloc, root)?;
    Err(LinkFault::NotGround { name })
}

// The first import whose type isn't ground.
fn first_higher<'a>(opens: &[Open<'a>]) -> Option<&'a PlanImport>
    ensures { MatchOption result (AreGround (length opens.now) (map open_seen opens.now))
        (λ import. (l : LeftImport) × IsFirstHigher (map open_seen opens.now) l × (l.import.name ≡ import.now.name)) }
{
    for open in opens {
        let import = open.import;
        if !is_ground(&import.ty) {
            return Some(import);
        }
    }
    None
}

/// Finds that the outside may serve all imports that stay.
pub(crate) fn check_imports(alloc: Global, opens: &[Open]) -> Result<(), LinkFault>
    ensures ground { IfOk result (λ _. AreGround (length opens.now) (map open_seen opens.now)) }
    ensures fault { IfErr result (λ fault. fault ≢ LinkFault.NoMemory
        → (l : LeftImport) × IsFirstHigher (map open_seen opens.now) l × (fault ≡ LinkFault.NotGround l.import.name)) }
    ensures light { IfErr result IsOfLinks }
{
    match first_higher(opens) {
        Some(import) => {
            let name = copy_name(alloc, &import.name)?;
            Err(LinkFault::NotGround { name })
        }
        None => Ok(()),
    }
}

/// Finds that the plans aren't too heavy.
pub(crate) fn check_weight(weight: u64) -> Result<(), LinkFault>
    ensures light { IfOk result (λ _. weight ≤ 32768) }
    ensures fault { IfErr result (λ fault. (fault ≡ LinkFault.TooHeavy weight) × (32768 < weight)) }
{
    if weight > MAX_WEIGHT {
        Err(LinkFault::TooHeavy { weight })
    } else {
        Ok(())
    }
}
