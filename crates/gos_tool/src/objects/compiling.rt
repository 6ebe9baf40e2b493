// The command `compile`: a source file is checked, and the plan of its module is written as an object file.

ghost use Rattle.std.specs.Prelude.{◌≡◌, ◌∷◌, [], IfOk, IfErr, IfSome, IsErrOf};
ghost use Rattle.gos_outside.specs.FileName.{IsFileName};
ghost use Rattle.gos_outside.specs.Files.{SameBut, with_file};
ghost use Rattle.gos_outside.specs.Faults.{CountsFaults, WriteFault};
ghost use Rattle.gos_outside.specs.Calls.{Write, AreMade};
ghost use Rattle.gos_plan.specs.ObjectText.{text_of};
ghost use Rattle.gos_plan.specs.Seen.{plan_of};
ghost use Rattle.gos_command.specs.Ends.{IfStopped, IsTold, ending};
ghost use Rattle.gos_tool.specs.Causes.{OfSource, StopsFor, TellsWeight};
ghost use Rattle.gos_tool.specs.Calls.{compile_calls};
ghost use Rattle.gos_tool.specs.objects.Checked.{IsSourceFault};
ghost use Rattle.gos_tool.specs.objects.Compiled.{IsCompiled, IsCompileCall};
ghost use Rattle.gos_tool.specs.objects.Typed.{IsPlanFor};

use crate::objects::checking::module_in;
use gos_check::Linear;
use gos_command::{Report, Stop, write_file};
use gos_compile::compile;
use gos_outside::Store;
use gos_plan::{Plan, print_object};
use gos_terms::laws::theorem::modules;
use gos_types::NoMemory;
use std::alloc::Global;

/// Reads a source file, checks its module, and writes the object file: the text of the module's plan.
///
/// The source is rejected as `check_source` rejects it, and then nothing is written.
pub fn compile_source<S: Store>(
    alloc: Global,
    source: &[u8],
    object: &[u8],
    store: &mut S,
) -> Result<Report, Stop>
    requires source { IsFileName source.now }
    requires object { IsFileName object.now }
    ensures done { IfOk result (λ report.
        IfSome (S.contents store.old) (λ files. IsCompiled files (S.contents store.new) source.now object.now report)) }
    ensures rejected { IfErr result (λ stop. IfStopped stop (λ fault line.
        IfSome (S.contents store.old) (λ files. IsSourceFault files source.now fault line))) }
    ensures told { IfErr result (λ stop. IfStopped stop IsTold) }
    ensures file { IfErr result (λ stop. IfStopped stop (λ fault line. fault.file ≡ source.now)) }
    ensures rejected_files { IfErr result (λ stop. IfStopped stop (λ fault line. S.contents store.new ≡ S.contents store.old)) }
    ensures tells { IfOk result TellsWeight }
    ensures kind { IfErr result (StopsFor (OfSource ∷ [])) }
    ensures calls { AreMade (ending result) (compile_calls source.now object.now) (S.calls store.old) (S.calls store.new) }

    // The store is blamed only for a call that failed, and that the command makes then.
    ensures counts { CountsFaults (IsErrOf result Stop.StoreFailed) (S.faults store.old) (S.faults store.new) }
    ensures failed_call { IsErrOf result Stop.StoreFailed →
        IsCompileCall (S.contents store.old) (S.contents store.new) source.now object.now (S.last_fault store.new) }
    ensures memory_files { IsErrOf result Stop.NoMemory → S.contents store.new ≡ S.contents store.old }
    ensures others { SameBut object.now (S.contents store.old) (S.contents store.new) }
{
    let linear = module_in(alloc, source, store)?;
    let _plan = write_plan(alloc, &linear, object, store)?;
    Ok(Report::Weight(linear.weight()))
}

/// Compiles a checked module, and writes the text of its plan as the object file.
pub fn write_plan<S: Store>(
    alloc: Global,
    linear: &Linear,
    object: &[u8],
    store: &mut S,
) -> Result<Plan, Stop>
    requires { IsFileName object.now }
    ensures made { IfOk result (λ plan. IsPlanFor linear.now (plan_of plan)) }
    ensures wrote { IfOk result (λ plan. S.contents store.new ≡ with_file object.now (text_of (plan_of plan)) (S.contents store.old)) }
    ensures rejects_nothing { IfErr result (λ stop. IfStopped stop (λ fault line. ⊥)) }
    ensures calls { AreMade (ending result) (Write object.now ∷ []) (S.calls store.old) (S.calls store.new) }
    ensures counts { CountsFaults (IsErrOf result Stop.StoreFailed) (S.faults store.old) (S.faults store.new) }
    ensures failed_call { IsErrOf result Stop.StoreFailed → S.last_fault store.new ≡ WriteFault object.now }
    ensures memory_files { IsErrOf result Stop.NoMemory → S.contents store.new ≡ S.contents store.old }
    ensures others { SameBut object.now (S.contents store.old) (S.contents store.new) }
{
    let plan = plan_for(alloc, linear)?;
    let text = print_object(alloc, &plan)?;
    write_file(alloc, store, object, text.as_slice())?;
    Ok(plan)
}

// The plan of a checked module, and what it realises.
fn plan_for(alloc: Global, linear: &Linear) -> Result<Plan, NoMemory>
    ensures { IfOk result (λ plan. IsPlanFor linear.now (plan_of plan)) }
{
    modules();
    // A module is known to be checked where its term is seen.
    let _term = linear.term();
    compile(alloc, linear)
}
