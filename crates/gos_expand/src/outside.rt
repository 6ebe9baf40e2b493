// The ports of a netlist.
ghost use Rattle.std.specs.Prelude.{◌≡◌, ◌∷◌, ◌+◌, ◌≤◌, IfOk};
ghost use Rattle.gos_types.specs.Types.{type_of, IsGround};
ghost use Rattle.gos_netlist.specs.Nets.{Give};
ghost use Rattle.gos_netlist.specs.Seen.{side_of, ground_type};
ghost use Rattle.gos_plan.specs.Kinds.{contacts_of};
ghost use Rattle.gos_plan.specs.Seen.{plan_of};
ghost use Rattle.gos_expand.specs.Blocks.{nets_on, total};
ghost use Rattle.gos_expand.specs.Starts.{shake_size};
ghost use Rattle.gos_expand.specs.Laid.{laid_port, taken};
ghost use Rattle.gos_plan.specs.Size.{plan_size};
ghost use Rattle.gos_expand.specs.Acceptance.{HasGroundPorts};
ghost use Rattle.gos_expand.specs.inner.Numbering.{IsNumbered};

use crate::numbering::{Numbering, port_cells};
use gos_lex::{LexFault, Name};
use gos_netlist::{Ground, NetId, Port, Side};
use gos_plan::Plan;
use gos_types::{NoMemory, Ty};
use std::alloc::Global;

// The ports of a plan whose root has this name: of the result, and of the imports.
pub(crate) fn ports(
    alloc: Global,
    plan: &Plan,
    root: &Name,
    numbering: &Numbering<'_>,
) -> Result<Vec<Port>, NoMemory>
    requires ports { HasGroundPorts plan.now }
    requires size { plan_size (plan_of plan.now) ≤ 5000000 }
    requires numbered { IsNumbered (plan_of plan.now) numbering.now }
    ensures { IfOk result (λ ports. ports.items ≡ laid_port (plan_of plan.now) 0 root.now Give (type_of plan.now.outcome) ∷ taken
        (plan_of plan.now) 1 (plan_of plan.now).imports) }
{
    let mut ports = Vec::new(alloc);
    ports.push(port(alloc, root, Side::Give, plan.result(), numbering.ports[0])?)?;
    let imports = plan.imports();
    let starts = numbering.ports.as_slice();
    for index in 0..imports.len() {
        let import = &imports[index];
        let start = starts[index + 1];
        ports.push(port(alloc, &import.name, Side::Take, &import.ty, start)?)?;
    }
    Ok(ports)
}

// A port whose first cell is this.
fn port(alloc: Global, name: &Name, side: Side, ty: &Ty, start: u32) -> Result<Port, NoMemory>
    requires ground { IsGround (type_of ty.now) }
    requires room { start + 6 ≤ 4294967295 }
    ensures { IfOk result (λ port. port
        ≡ record { name = name.now; side = side_of side; ty = type_of ty.now; nets = nets_on start (total shake_size 0 (contacts_of (type_of ty.now))) }) }
{
    let mut nets = Vec::new(alloc);
    for place in 0..port_cells(ty) {
        nets.push(NetId(start + place))?;
    }
    Ok(Port {
        name: copied(alloc, name)?,
        side,
        ground: ground_of(ty),
        nets,
    })
}

// A name once more.
fn copied(alloc: Global, name: &Name) -> Result<Name, NoMemory>
    ensures { IfOk result (λ copy. copy ≡ name.now) }
{
    match Name::new(alloc, name.bytes()) {
        Ok(copy) => Ok(copy),
        Err(_) => Err(NoMemory),
    }
}

// The type of a port.
fn ground_of(ty: &Ty) -> Ground
    requires { IsGround (type_of ty.now) }
    ensures { ground_type result ≡ type_of ty.now }
{
    match ty {
        Ty::Com => Ground::Com,
        Ty::Exp(w) => Ground::Exp(*w),
        Ty::Var(w) => Ground::Var(*w),
        _ => unreachable!(),
    }
}
