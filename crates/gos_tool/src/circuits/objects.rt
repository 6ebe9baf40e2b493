// The object files of instances are read.

ghost use Rattle.std.specs.Prelude.{◌≡◌, ◌∷◌, [], length, IfOk, IfErr, IfSome, IsErrOf};
ghost use Rattle.gos_outside.specs.FileName.{IsFileName};
ghost use Rattle.gos_outside.specs.Files.{bytes_at};
ghost use Rattle.gos_outside.specs.Faults.{CountsFaults, ReadFault};
ghost use Rattle.gos_outside.specs.Calls.{AreMade};
ghost use Rattle.gos_plan.specs.Seen.{plan_of};
ghost use Rattle.gos_plan.specs.ObjectFaults.{IsRead};
ghost use Rattle.gos_link.specs.Linked.{AllKeepLimits, KeepsLimits, plans_of};
ghost use Rattle.gos_command.specs.Ends.{IfStopped, IsTold, ending};
ghost use Rattle.gos_tool.specs.Causes.{OfObject, StopsFor};
ghost use Rattle.gos_tool.specs.Calls.{read_object as read_call, object_calls};
ghost use Rattle.gos_tool.specs.circuits.Objects.{HoldPlans, IsObjectFault, RejectsObject, IsObjectCall};

use gos_command::{Cause, Stop, read_file, reject};
use gos_link::Instance;
use gos_outside::Store;
use gos_plan::{Plan, read_object};
use std::alloc::Global;

/// The longest object file, in bytes.
const OBJECT_LIMIT: usize = 4_194_304;

/// Reads the object files of the instances, in their order. The first that is no object is rejected.
pub fn plans_in<S: Store>(
    alloc: Global,
    instances: &[Instance],
    store: &mut S,
) -> Result<Vec<Plan>, Stop>
    ensures held { IfOk result (λ plans. IfSome (S.contents store.old) (λ files. HoldPlans files instances.now plans.items)) }
    ensures each { IfOk result (λ plans. length plans.items ≡ length instances.now) }
    ensures limits { IfOk result (λ plans. AllKeepLimits (plans_of plans.items)) }
    ensures rejected { IfErr result (λ stop. IfStopped stop (λ fault line.
        IfSome (S.contents store.old) (λ files. RejectsObject files instances.now fault line))) }
    ensures told { IfErr result (λ stop. IfStopped stop IsTold) }
    ensures kind { IfErr result (StopsFor (OfObject ∷ [])) }
    ensures calls { AreMade (ending result) (object_calls instances.now) (S.calls store.old) (S.calls store.new) }
    ensures counts { CountsFaults (IsErrOf result Stop.StoreFailed) (S.faults store.old) (S.faults store.new) }
    ensures failed_call { IsErrOf result Stop.StoreFailed → IsObjectCall (S.contents store.old) instances.now (S.last_fault store.new) }
    ensures same_files { S.contents store.new ≡ S.contents store.old }
{
    let mut plans = Vec::new(alloc);
    for instance in instances {
        let plan = plan_in(alloc, instance.object.bytes(), store)?;
        let Ok(()) = plans.push(plan) else {
            return Err(Stop::NoMemory);
        };
    }
    Ok(plans)
}

// Reads an object file. Its text is let go here, so that no two texts stand in memory.
fn plan_in<S: Store>(alloc: Global, object: &[u8], store: &mut S) -> Result<Plan, Stop>
    requires { IsFileName object.now }
    ensures read { IfOk result (λ plan. IfSome (S.contents store.old) (λ files. IsRead (bytes_at files object.now) (plan_of plan))) }
    ensures limits { IfOk result (λ plan. KeepsLimits (plan_of plan)) }
    ensures rejected { IfErr result (λ stop. IfStopped stop (λ fault line.
        IfSome (S.contents store.old) (λ files. IsObjectFault files object.now fault line))) }
    ensures told { IfErr result (λ stop. IfStopped stop IsTold) }
    ensures kind { IfErr result (StopsFor (OfObject ∷ [])) }
    ensures calls { AreMade (ending result) (read_call object.now ∷ []) (S.calls store.old) (S.calls store.new) }
    ensures counts { CountsFaults (IsErrOf result Stop.StoreFailed) (S.faults store.old) (S.faults store.new) }
    ensures failed_call { IsErrOf result Stop.StoreFailed → S.last_fault store.new ≡ ReadFault object.now }
    ensures same_files { S.contents store.new ≡ S.contents store.old }
{
    let text = read_file(alloc, store, object, OBJECT_LIMIT)?;
    match read_object(alloc, text.as_slice()) {
        Ok(plan) => Ok(plan),
        Err(fault) => Err(reject(alloc, object, Cause::Object(fault), None)),
    }
}
