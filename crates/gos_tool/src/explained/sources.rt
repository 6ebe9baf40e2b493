// The sources of a build's instances are read and checked, and the modules are kept.

ghost use Rattle.std.specs.Prelude.{◌≡◌, ◌++◌, ◌∷◌, [], length, IfOk, IfErr, IfSome, IsErrOf, OnOk};
ghost use Rattle.std.specs.List.{AllByRecursion};
ghost use Rattle.gos_outside.specs.FileName.{IsFileName};
ghost use Rattle.gos_outside.specs.Files.{bytes_at};
ghost use Rattle.gos_outside.specs.Faults.{CountsFaults, ReadFault};
ghost use Rattle.gos_outside.specs.Calls.{AreMade};
ghost use Rattle.gos_check.specs.Accepted.{IsAccepted};
ghost use Rattle.gos_plan.specs.Seen.{plan_of};
ghost use Rattle.gos_link.specs.Linked.{AllKeepLimits, KeepsLimits, plans_of};
ghost use Rattle.gos_link.specs.Faces.{face_of};
ghost use Rattle.gos_command.specs.Ends.{IfStopped, IsRealCause, IsTold, ending};
ghost use Rattle.gos_tool.specs.Causes.{OfSource, kind_of, StopsFor};
ghost use Rattle.gos_tool.specs.Calls.{read_source, source_calls};
ghost use Rattle.gos_tool.specs.objects.Checked.{IsSourceCause, IsSourceFault, SaysModule};
ghost use Rattle.gos_tool.specs.build.Headline.{SayModules};
ghost use Rattle.gos_tool.specs.explained.Sources.{RejectsSource, IsSourceCall};
ghost use Rattle.gos_tool.specs.explained.LinkedModules.{StandFor, module_face};

use crate::objects::{SOURCE_LIMIT, module_of};
use gos_check::{CheckFault, check};
use gos_command::{Cause, Stop, read_start, reject};
use gos_compile::shell;
use gos_link::Instance;
use gos_outside::Store;
use gos_plan::Plan;
use gos_syntax::Module;
use gos_types::NoMemory;
use std::alloc::Global;

/// Modules that are accepted, and for each a plan that has its imports and its result, by which its links are judged.
#[derive(Drop)]
pub struct Sources {
    pub modules: Vec<Module>,
    pub shells: Vec<Plan>,
}

// A module that is accepted, and such a plan.
#[derive(Drop)]
struct Source {
    made: Module,
    shell: Plan,
}

/// Reads the sources of the instances, in their order. The first that says no module that is accepted is rejected.
pub fn sources_in<S: Store>(
    alloc: Global,
    instances: &[Instance],
    store: &mut S,
) -> Result<Sources, Stop>
    ensures say { IfOk result (λ sources. IfSome (S.contents store.old) (λ files. SayModules files instances.now sources.modules.items)) }
    ensures accepted { IfOk result (λ sources. AllByRecursion IsAccepted sources.modules.items) }
    ensures stand { IfOk result (λ sources. StandFor sources.modules.items sources.shells.items) }
    ensures each { IfOk result (λ sources. length sources.shells.items ≡ length instances.now) }
    ensures limits { IfOk result (λ sources. AllKeepLimits (plans_of sources.shells.items)) }
    ensures rejected { IfErr result (λ stop. IfStopped stop (λ fault line.
        IfSome (S.contents store.old) (λ files. RejectsSource files instances.now fault line))) }
    ensures told { IfErr result (λ stop. IfStopped stop IsTold) }
    ensures kind { IfErr result (StopsFor (OfSource ∷ [])) }
    ensures calls { AreMade (ending result) (source_calls instances.now) (S.calls store.old) (S.calls store.new) }
    ensures counts { CountsFaults (IsErrOf result Stop.StoreFailed) (S.faults store.old) (S.faults store.new) }
    ensures failed_call { IsErrOf result Stop.StoreFailed → IsSourceCall (S.contents store.old) instances.now (S.last_fault store.new) }
    ensures same_files { S.contents store.new ≡ S.contents store.old }
{
    let mut sources = Sources {
        modules: Vec::new(alloc),
        shells: Vec::new(alloc),
    };
    for instance in instances {
        let read = source_in(alloc, instance.source.bytes(), store)?;
        add(&mut sources, read)?;
    }
    Ok(sources)
}

// Adds a module and its plan. `Err` is want of memory alone.
fn add(sources: &mut Sources, read: Source) -> Result<(), Stop>
    ensures modules { OnOk result (sources.new.modules.items ≡ sources.old.modules.items ++ read.made ∷ []) }
    ensures shells { OnOk result (sources.new.shells.items ≡ sources.old.shells.items ++ read.shell ∷ []) }
    ensures memory { IfErr result (λ stop. stop ≡ Stop.NoMemory) }
{
    let Source { made, shell } = read;
    let Ok(()) = sources.modules.push(made) else {
        return Err(Stop::NoMemory);
    };
    let Ok(()) = sources.shells.push(shell) else {
        return Err(Stop::NoMemory);
    };
    Ok(())
}

// Reads a source file and checks its module.
fn source_in<S: Store>(alloc: Global, source: &[u8], store: &mut S) -> Result<Source, Stop>
    requires { IsFileName source.now }
    ensures says { IfOk result (λ read. IfSome (S.contents store.old) (λ files. SaysModule (bytes_at files source.now) read.made)) }
    ensures accepted { IfOk result (λ read. IsAccepted read.made) }
    ensures face { IfOk result (λ read. face_of read.shell ≡ module_face read.made) }
    ensures limits { IfOk result (λ read. KeepsLimits (plan_of read.shell)) }
    ensures rejected { IfErr result (λ stop. IfStopped stop (λ fault line.
        IfSome (S.contents store.old) (λ files. IsSourceFault files source.now fault line))) }
    ensures told { IfErr result (λ stop. IfStopped stop IsTold) }
    ensures kind { IfErr result (StopsFor (OfSource ∷ [])) }
    ensures calls { AreMade (ending result) (read_source source.now ∷ []) (S.calls store.old) (S.calls store.new) }
    ensures counts { CountsFaults (IsErrOf result Stop.StoreFailed) (S.faults store.old) (S.faults store.new) }
    ensures failed_call { IsErrOf result Stop.StoreFailed → S.last_fault store.new ≡ ReadFault source.now }
    ensures same_files { S.contents store.new ≡ S.contents store.old }
{
    let text = read_start(alloc, store, source, SOURCE_LIMIT + 1)?;
    match source_of(alloc, text.as_slice()) {
        Ok(read) => Ok(read),
        Err(cause) => Err(reject(alloc, source, cause, None)),
    }
}

// The accepted module of a text, or why it has none.
fn source_of(alloc: Global, text: &[u8]) -> Result<Source, Cause>
    ensures says { IfOk result (λ read. SaysModule text.now read.made) }
    ensures face { IfOk result (λ read. face_of read.shell ≡ module_face read.made) }
    ensures limits { IfOk result (λ read. KeepsLimits (plan_of read.shell)) }
    ensures kind { IfErr result (λ cause. kind_of cause ≡ OfSource) }
    ensures refused { IfErr result (λ cause. IsRealCause cause → IsSourceCause text.now cause) }
{
    let made = match module_of(alloc, text) {
        Ok(made) => made,
        Err(cause) => return Err(cause),
    };
    let linear = match check(alloc, &made) {
        Ok(linear) => linear,
        Err(fault) => return Err(Cause::Check(fault)),
    };
    match shell(alloc, &linear) {
        Ok(shell) => Ok(Source { made, shell }),
        Err(NoMemory) => Err(Cause::Check(CheckFault::NoMemory)),
    }
}
