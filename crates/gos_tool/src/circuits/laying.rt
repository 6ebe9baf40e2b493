// The circuit of a plan.

ghost use Rattle.std.specs.Prelude.{◌≡◌, ◌∷◌, ◌≤◌, ◌+◌, map, length, All, IfOk};
ghost use Rattle.gos_types.specs.Types.{type_of, IsGround, IsDone};
ghost use Rattle.gos_netcheck.specs.Accepted.{IsAccepted};
ghost use Rattle.gos_plan.specs.Seen.{plan_of};
ghost use Rattle.gos_plan.specs.Size.{plan_size};
ghost use Rattle.gos_expand.specs.Acceptance.{AreDifferent, CanBeLaid};
ghost use Rattle.gos_expand.specs.Fast.{IsFastOf};
ghost use Rattle.gos_tidy.specs.Alike.{IsTidied};
ghost use Rattle.gos_tool.specs.circuits.Circuit.{IsCircuitOf};
ghost use Rattle.gos_tool.specs.declared.circuits.layout.Layout.TheVariants.{Few, Fast};

use crate::circuits::layout::Layout;
use gos_expand::{Policy, cycles_are_lists, expand, expand_fast, fast_circuits};
use gos_lex::Name;
use gos_linked::laws::keeping::keeps_pace;
use gos_netcheck::{Checked, NetFault, accept};
use gos_netlist::Netlist;
use gos_plan::Plan;
use gos_tidy::tidy;
use gos_types::NoMemory;
use std::alloc::Global;

/// The circuit of a plan that can be laid out, in one of the ways. `Err` is want of memory alone.
///
/// The result has to be a command or an expression, and imports ground types; no two ports may have one name; and the
/// plan's size may be 5,000,000 at most, and its ports 65,536.
pub fn circuit(alloc: Global, plan: &Plan, root: &Name, layout: Layout) -> Result<Checked, NoMemory>
    requires can { CanBeLaid plan.now root.now }
    requires size { plan_size (plan_of plan.now) ≤ 5000000 }
    requires ports { length plan.now.imports + 1 ≤ 65536 }
    ensures { IfOk result (IsCircuitOf layout root.now (plan_of plan.now)) }
{
    match layout {
        Layout::Few => few_circuit(alloc, plan, root),
        Layout::Fast => fast_circuit(alloc, plan, root),
    }
}

// The circuit with few registers.
#[tactic(auto, using(crate::proofs::lemmas::circuits::CircuitLemmas::is_circuit))]
fn few_circuit(alloc: Global, plan: &Plan, root: &Name) -> Result<Checked, NoMemory>
    requires can { CanBeLaid plan.now root.now }
    requires size { plan_size (plan_of plan.now) ≤ 5000000 }
    requires ports { length plan.now.imports + 1 ≤ 65536 }
    ensures { IfOk result (IsCircuitOf Few root.now (plan_of plan.now)) }
{
    cycles_are_lists();
    keeps_pace();
    let net = expand(alloc, plan, root, Policy::Few)?;
    accepted(alloc, net)
}

// The fast circuit, made tidy.
fn fast_circuit(alloc: Global, plan: &Plan, root: &Name) -> Result<Checked, NoMemory>
    requires can { CanBeLaid plan.now root.now }
    requires size { plan_size (plan_of plan.now) ≤ 5000000 }
    requires ports { length plan.now.imports + 1 ≤ 65536 }
    ensures { IfOk result (IsCircuitOf Fast root.now (plan_of plan.now)) }
{
    fast_circuits();
    keeps_pace();
    let base = expand_fast(alloc, plan, root)?;
    let checked = accepted(alloc, base)?;
    tidied(alloc, checked)
}

// A netlist, made tidy.
fn tidied(alloc: Global, net: Checked) -> Result<Checked, NoMemory>
    ensures { IfOk result (IsTidied net) }
{
    match tidy(alloc, net) {
        Ok(tidied) => Ok(tidied),
        Err(_) => Err(NoMemory),
    }
}

// A netlist that has no fault, as one that was accepted. It is refused for want of memory alone.
fn accepted(alloc: Global, net: Netlist) -> Result<Checked, NoMemory>
    requires few { length net.cells ≤ 5000000 }
    requires accepted { IsAccepted net }
    ensures { IfOk result (λ checked. checked ≡ net) }
{
    match accept(alloc, net) {
        Ok(checked) => Ok(checked),
        Err(refused) => {
            prove!(matches!(&refused.fault, NetFault::NoMemory));
            Err(NoMemory)
        }
    }
}
