// The sources of a build's instances are compiled, and their objects are written.

ghost use Rattle.std.specs.Prelude.{◌≡◌, ◌∷◌, [], length, IfOk, IfErr, IfSome, IsErrOf};
ghost use Rattle.gos_outside.specs.Files.{SameBut, bytes_at, with_file};
ghost use Rattle.gos_outside.specs.OtherFiles.{OthersSame};
ghost use Rattle.gos_outside.specs.Faults.{CountsFaults};
ghost use Rattle.gos_outside.specs.Calls.{AreMade};
ghost use Rattle.gos_syntax.specs.Modules.{SeenModule};
ghost use Rattle.gos_plan.specs.Seen.{plan_of};
ghost use Rattle.gos_plan.specs.ObjectText.{text_of};
ghost use Rattle.gos_link.specs.Linked.{AllKeepLimits, KeepsLimits, plans_of};
ghost use Rattle.gos_command.specs.Ends.{IfStopped, IsTold, ending};
ghost use Rattle.gos_tool.specs.Causes.{OfSource, StopsFor};
ghost use Rattle.gos_tool.specs.Calls.{compile_calls, module_calls};
ghost use Rattle.gos_tool.specs.objects.Checked.{IsSourceFault, SaysModule};
ghost use Rattle.gos_tool.specs.build.Objects.{objects_of, AllWritten, SomeWritten, RejectsModule, IsInstanceCall, IsModuleCall};
ghost use Rattle.gos_tool.specs.build.inner.Compiling.{AreApart, AreFit, IsCompiledAs, IsFit};

use crate::objects::{module_in, write_plan};
use gos_command::Stop;
use gos_link::Instance;
use gos_outside::Store;
use gos_plan::Plan;
use std::alloc::Global;

/// Compiles the sources of the instances in their order, and writes the object of each before the next source is read. The
/// first that says no module that is accepted is rejected.
pub fn compile_all<S: Store>(
    alloc: Global,
    instances: &[Instance],
    store: &mut S,
) -> Result<Vec<Plan>, Stop>
    // No object may be one of the sources.
    requires { AreApart instances.now }

    ensures written { IfOk result (λ plans. IfSome (S.contents store.old) (λ files. AllWritten files (S.contents store.new) instances.now plans.items)) }
    ensures each { IfOk result (λ plans. length plans.items ≡ length instances.now) }
    ensures limits { IfOk result (λ plans. AllKeepLimits (plans_of plans.items)) }
    ensures fit { IfOk result (λ plans. AreFit plans.items) }
    ensures rejected { IfErr result (λ stop. IfStopped stop (λ fault line.
        IfSome (S.contents store.old) (λ files. RejectsModule files (S.contents store.new) instances.now fault line))) }
    ensures told { IfErr result (λ stop. IfStopped stop IsTold) }
    ensures kind { IfErr result (StopsFor (OfSource ∷ [])) }
    ensures calls { AreMade (ending result) (module_calls instances.now) (S.calls store.old) (S.calls store.new) }
    ensures counts { CountsFaults (IsErrOf result Stop.StoreFailed) (S.faults store.old) (S.faults store.new) }
    ensures failed_call { IsErrOf result Stop.StoreFailed →
        IsModuleCall (S.contents store.old) (S.contents store.new) instances.now (S.last_fault store.new) }
    ensures memory_files { IsErrOf result Stop.NoMemory → IfSome (S.contents store.old) (λ files.
        SomeWritten files (S.contents store.new) instances.now) }
    ensures others { OthersSame (objects_of instances.now) (S.contents store.old) (S.contents store.new) }
{
    let mut plans = Vec::new(alloc);
    for instance in instances {
        let plan = compile_one(alloc, instance, store)?;
        let Ok(()) = plans.push(plan) else {
            return Err(Stop::NoMemory);
        };
    }
    Ok(plans)
}

// Compiles the source of an instance, and writes its object.
fn compile_one<S: Store>(alloc: Global, instance: &Instance, store: &mut S) -> Result<Plan, Stop>
    ensures made { IfOk result (λ plan. IfSome (S.contents store.old) (λ files.
        IsCompiledAs (bytes_at files instance.now.source) (plan_of plan))) }
    ensures wrote { IfOk result (λ plan. S.contents store.new ≡ with_file instance.now.object (text_of (plan_of plan)) (S.contents store.old)) }
    ensures limits { IfOk result (λ plan. KeepsLimits (plan_of plan)) }
    ensures fit { IfOk result (λ plan. IsFit (plan_of plan)) }
    ensures rejected { IfErr result (λ stop. IfStopped stop (λ fault line.
        IfSome (S.contents store.old) (λ files. IsSourceFault files instance.now.source fault line))) }
    ensures told { IfErr result (λ stop. IfStopped stop IsTold) }
    ensures rejected_files { IfErr result (λ stop. IfStopped stop (λ fault line. S.contents store.new ≡ S.contents store.old)) }
    ensures kind { IfErr result (StopsFor (OfSource ∷ [])) }
    ensures calls { AreMade (ending result) (compile_calls instance.now.source instance.now.object) (S.calls store.old) (S.calls store.new) }
    ensures counts { CountsFaults (IsErrOf result Stop.StoreFailed) (S.faults store.old) (S.faults store.new) }
    ensures failed_call { IsErrOf result Stop.StoreFailed → IsInstanceCall (S.contents store.old) (S.contents store.new) instance.now
        (IfSome (S.contents store.old) (λ files. (m : SeenModule) × SaysModule (bytes_at files instance.now.source) m)) (S.last_fault store.new) }
    ensures memory_files { IsErrOf result Stop.NoMemory → S.contents store.new ≡ S.contents store.old }
    ensures others { SameBut instance.now.object (S.contents store.old) (S.contents store.new) }
{
    let linear = module_in(alloc, instance.source.bytes(), store)?;
    write_plan(alloc, &linear, instance.object.bytes(), store)
}
