// The ports of the program of linked modules: the root's, and those of the imports that nothing serves.
ghost use Rattle.std.specs.Prelude.{◌≡◌, ◌<◌, ◌++◌, ◌∷◌, IfOk, length, map};
ghost use Rattle.std.specs.Str.{bytes_eq};
ghost use Rattle.std.specs.List.{AllByRecursion};
ghost use Rattle.gos_types.specs.Types.{type_of};
ghost use Rattle.gos_netlist.specs.Seen.{ground_type};
ghost use Rattle.gos_netlist.specs.Writable.{IsPortType};
ghost use Rattle.gos_witness.specs.Ports.{imported};
ghost use Rattle.gos_witness.specs.Substituted.{AreLinkable, AreOnSides, MayBePorts, import_name, linked_program, root_port};
ghost use Rattle.gos_witness.specs.inner.Built.{AllImports, AreImports, giver_in, is_made, open_in, opens_from};
ghost use Rattle.gos_witness.specs.inner.TraceParts.{IsNamed};

use crate::binding::{Bound, by_user, own};
use crate::nodes::copy_of;
use crate::program::ProgramPort;
use gos_lex::Name;
use gos_netlist::{Ground, Side};
use gos_syntax::{Import, Module};
use gos_types::{NoMemory, Ty};
use std::alloc::Global;

// What a port of this type carries.
fn ground_of(ty: &Ty) -> Ground
    requires { IsPortType (type_of ty.now) }
    ensures { ground_type result ≡ type_of ty.now }
{
    match ty {
        Ty::Com => Ground::Com,
        Ty::Exp(width) => Ground::Exp(*width),
        Ty::Var(width) => Ground::Var(*width),
        _ => unreachable!(),
    }
}

// A port of this name and type.
fn port(alloc: Global, name: &Name, side: Side, ty: &Ty) -> Result<ProgramPort, NoMemory>
    requires { IsPortType (type_of ty.now) }
    ensures face { IfOk result (λ port. imported port ≡ record { name = name.now; ty = type_of ty.now }) }
    ensures named { IfOk result IsNamed }
    ensures side { IfOk result (λ port. port.side ≡ side) }
{
    Ok(ProgramPort {
        name: copy_of(alloc, name)?,
        side,
        ground: ground_of(ty),
    })
}

// Whether the import of this number has this name.
fn is_named(imports: &[Import], number: usize, name: &Name) -> bool
    requires { number < length imports.now }
    ensures { result ≡ bytes_eq (import_name imports.now number) name.now }
{
    let import = &imports[number];
    import.name == *name
}

// Whether an import of this name is served.
fn is_bound(imports: &[Import], binds: &[Bound], name: &Name) -> bool
    requires { AreImports (length imports.now) binds.now }
    ensures { result ≡ is_made (giver_in imports.now binds.now name.now) }
{
    for bind in binds {
        if is_named(imports, bind.import, name) {
            return true;
        }
    }
    false
}

// Adds the ports of a module's imports that nothing serves.
#[tactic(auto, using(crate::proofs::OpenLemmas::one_more_named, crate::proofs::OpenLemmas::one_more_taken))]
fn push_open(
    alloc: Global,
    ports: &mut Vec<ProgramPort>,
    imports: &[Import],
    binds: &[Bound],
) -> Result<(), NoMemory>
    requires imports { AreImports (length imports.now) binds.now }
    requires types { AllByRecursion (λ x. IsPortType x.ty) (open_in imports.now binds.now imports.now) }
    requires named { AllByRecursion IsNamed ports.old.items }
    requires sides { AreOnSides ports.old.items }
    ensures named { IfOk result (λ _. AllByRecursion IsNamed ports.new.items) }
    ensures sides { IfOk result (λ _. AreOnSides ports.new.items) }
    ensures faces { IfOk result (λ _. map imported ports.new.items ≡ map imported ports.old.items ++ open_in imports.now binds.now imports.now) }
{
    for import in imports {
        if !is_bound(imports, binds, &import.name) {
            ports.push(port(alloc, &import.name, Side::Take, &import.ty)?)?;
        }
    }
    Ok(())
}

// Adds the ports of all imports that nothing serves, in the order of the modules.
pub(crate) fn push_all_open(
    alloc: Global,
    ports: &mut Vec<ProgramPort>,
    modules: &[Module],
    lists: &[Vec<Bound>],
) -> Result<(), NoMemory>
    requires each { length lists.now ≡ length modules.now }
    requires imports { AllImports modules.now lists.now }
    requires types { AllByRecursion (λ x. IsPortType x.ty) (opens_from lists.now 0 modules.now) }
    requires named { AllByRecursion IsNamed ports.old.items }
    requires sides { AreOnSides ports.old.items }
    ensures named { IfOk result (λ _. AllByRecursion IsNamed ports.new.items) }
    ensures sides { IfOk result (λ _. AreOnSides ports.new.items) }
    ensures faces { IfOk result (λ _. map imported ports.new.items ≡ map imported ports.old.items ++ opens_from lists.now 0 modules.now) }
{
    for number in 0..modules.len() {
        let source = &modules[number];
        push_open(alloc, ports, source.imports.as_slice(), own(lists, number))?;
    }
    Ok(())
}

// The ports of linked modules: the root's, which has this name, and those of the imports that nothing serves.
pub(crate) fn ports_of(
    alloc: Global,
    name: &Name,
    modules: &[Module],
    binds: &[Bound],
    root: usize,
) -> Result<Vec<ProgramPort>, NoMemory>
    requires linkable { AreLinkable modules.now binds.now root }
    requires ports { MayBePorts modules.now binds.now root name.now }
    ensures faces { IfOk result (λ ports. map imported ports.items
        ≡ root_port modules.now root name.now ∷ (linked_program modules.now binds.now root).imports) }
    ensures named { IfOk result (λ ports. AllByRecursion IsNamed ports.items) }
    ensures sides { IfOk result (λ ports. AreOnSides ports.items) }
{
    let by_user = by_user(alloc, modules.len(), binds)?;
    let source = &modules[root];
    let port = port(alloc, name, Side::Give, &source.result)?;
    let mut ports = vec![in alloc; port]?;
    push_all_open(alloc, &mut ports, modules, by_user.as_slice())?;
    Ok(ports)
}
