// The plans of a build are linked, and the circuit of the whole is written.

ghost use Rattle.std.specs.Prelude.{◌≡◌, ◌∷◌, [], List, IfOk, IfErr, IsErrOf};
ghost use Rattle.gos_outside.specs.FileName.{IsFileName};
ghost use Rattle.gos_outside.specs.OtherFiles.{OthersSame};
ghost use Rattle.gos_outside.specs.Faults.{CountsFaults};
ghost use Rattle.gos_outside.specs.Calls.{AreMade};
ghost use Rattle.gos_plan.specs.Ranges.{AreInRange};
ghost use Rattle.gos_plan.specs.Seen.{SeenPlan, plan_of};
ghost use Rattle.gos_link.specs.Linked.{IsLinkable, IsLinked};
ghost use Rattle.gos_command.specs.Ends.{IfStopped, IsTold, ending};
ghost use Rattle.gos_tool.specs.Causes.{IsFileFault, OfBuild, OfWeight, OfSize, StopsFor};
ghost use Rattle.gos_tool.specs.Calls.{circuit_calls};
ghost use Rattle.gos_tool.specs.circuits.Plans.{IsWritten, IsPlansDone, IsPlansCause, IsWriteCall, IsPlansCall, IsWriteCutShort, IsPlansCutShort};

use crate::circuits::laying::circuit;
use crate::circuits::layout::Layout;
use gos_command::{Cause, Stop, reject, write_file};
use gos_link::{Build, link};
use gos_netcheck::Checked;
use gos_netlist::print_net;
use gos_outside::Store;
use gos_plan::Plan;
use gos_verilog::write_verilog;
use std::alloc::Global;

/// The circuit of linked plans.
#[derive(Debug, Drop)]
pub struct Linked {
    /// The weight of the linked plan.
    pub weight: u64,
    /// The netlist of its circuit.
    pub net: Checked,
}

/// Links the plans of a build's instances, and writes the netlist of a circuit of the whole, laid out in this way, and its Verilog
/// text.
///
/// The build file `own` is rejected with the first reason for which they can't be linked.
pub fn link_plans<S: Store>(
    alloc: Global,
    own: &[u8],
    build: &Build,
    plans: &[Plan],
    layout: Layout,
    store: &mut S,
) -> Result<Linked, Stop>
    requires own { IsFileName own.now }
    requires plans { IsLinkable build.now plans.now }
    ensures done { IfOk result (λ linked. IsPlansDone layout (S.contents store.old) (S.contents store.new) build.now plans.now linked.weight linked.net) }
    ensures rejected { IfErr result (λ stop. IfStopped stop (IsFileFault own.now (IsPlansCause build.now plans.now))) }
    ensures told { IfErr result (λ stop. IfStopped stop IsTold) }
    ensures rejected_files { IfErr result (λ stop. IfStopped stop (λ fault line. S.contents store.new ≡ S.contents store.old)) }
    ensures kind { IfErr result (StopsFor (OfBuild ∷ OfWeight ∷ OfSize ∷ [])) }
    ensures calls { AreMade (ending result) (circuit_calls build.now) (S.calls store.old) (S.calls store.new) }
    ensures counts { CountsFaults (IsErrOf result Stop.StoreFailed) (S.faults store.old) (S.faults store.new) }
    ensures failed_call { IsErrOf result Stop.StoreFailed →
        IsPlansCall layout (S.contents store.old) (S.contents store.new) build.now plans.now (S.last_fault store.new) }
    ensures memory_files { IsErrOf result Stop.NoMemory →
        IsPlansCutShort layout (S.contents store.old) (S.contents store.new) build.now plans.now }
    ensures others { OthersSame (build.now.net ∷ build.now.verilog ∷ []) (S.contents store.old) (S.contents store.new) }
{
    match link(alloc, build, plans) {
        Ok(whole) => write_circuit(alloc, build, &whole, layout, store),
        Err(fault) => Err(reject(alloc, own, Cause::Link(fault), None)),
    }
}

// Writes the netlist of a circuit of the whole, and then the Verilog text of this very netlist.
fn write_circuit<S: Store>(
    alloc: Global,
    build: &Build,
    whole: &Plan,
    layout: Layout,
    store: &mut S,
) -> Result<Linked, Stop>
    requires { (plans : List SeenPlan) × IsLinked build.now plans (plan_of whole.now) }
    ensures written { IfOk result (λ linked. IsWritten layout (S.contents store.old) (S.contents store.new) build.now (plan_of whole.now) linked.net) }
    ensures weighs { IfOk result (λ linked. linked.weight ≡ whole.now.weight) }
    ensures rejects_nothing { IfErr result (λ stop. IfStopped stop (λ fault line. ⊥)) }
    ensures calls { AreMade (ending result) (circuit_calls build.now) (S.calls store.old) (S.calls store.new) }
    ensures counts { CountsFaults (IsErrOf result Stop.StoreFailed) (S.faults store.old) (S.faults store.new) }
    ensures failed_call { IsErrOf result Stop.StoreFailed →
        IsWriteCall layout (S.contents store.old) (S.contents store.new) build.now (plan_of whole.now) (S.last_fault store.new) }
    ensures memory_files { IsErrOf result Stop.NoMemory →
        IsWriteCutShort layout (S.contents store.old) (S.contents store.new) build.now (plan_of whole.now) }
    ensures others { OthersSame (build.now.net ∷ build.now.verilog ∷ []) (S.contents store.old) (S.contents store.new) }
{
    is_in_range(whole);
    let net = circuit(alloc, whole, &build.root, layout)?;
    let text = print_net(alloc, net.netlist())?;
    write_file(alloc, store, build.net.bytes(), text.as_slice())?;
    let verilog = write_verilog(alloc, &net)?;
    write_file(alloc, store, build.verilog.bytes(), verilog.as_slice())?;
    Ok(Linked {
        weight: whole.weight(),
        net,
    })
}

// The numbers of a plan are in range, as of each plan.
fn is_in_range(plan: &Plan)
    ensures { AreInRange plan.now.imports plan.now.outcome plan.now.parts }
{
    let _parts = plan.parts();
}
