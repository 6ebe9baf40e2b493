// The modules of a build are read and linked as its bind lines say: the program of the whole, by substitution.

ghost use Rattle.std.specs.Prelude.{◌≡◌, ◌≢◌, ◌≤◌, ◌∷◌, [], false, length, map, IfOk, IfErr, IfSome, IsErrOf};
ghost use Rattle.std.specs.List.{AllByRecursion};
ghost use Rattle.std.specs.Option.{option_copied};
ghost use Rattle.gos_outside.specs.FileName.{IsFileName};
ghost use Rattle.gos_outside.specs.Faults.{CountsFaults};
ghost use Rattle.gos_outside.specs.Calls.{AreMade};
ghost use Rattle.gos_check.specs.Accepted.{IsAccepted};
ghost use Rattle.gos_link.specs.Linked.{AreLinks, IsLinkable, SeenLinks};
ghost use Rattle.gos_witness.specs.Substituted.{IsTooLargeFault};
ghost use Rattle.gos_command.specs.Ends.{IfStopped, IsTold, ending};
ghost use Rattle.gos_command.specs.declared.stop.Stop.TheVariants as stops;
ghost use Rattle.gos_tool.specs.Causes.{IsFileFault, OfSource, OfBuild, OfMoves, StopsFor};
ghost use Rattle.gos_tool.specs.Calls.{source_calls};
ghost use Rattle.gos_tool.specs.explained.Sources.{IsSourceCall};
ghost use Rattle.gos_tool.specs.explained.Taken.{is_taken};
ghost use Rattle.gos_tool.specs.explained.LinkedModules.{IsLinkedAs, IsModulesCause, IsProgramCause, IsSizeCause, StandFor, binds_along, bound_of};
ghost use Rattle.gos_tool.specs.explained.LinkedModules.{IsTypedProgram, program_along};
ghost use Rattle.gos_tool.specs.explained.Verified.{SayProgram, RejectsSources};

use crate::explained::sources::{Sources, sources_in};
use crate::explained::taken::is_taken;
use gos_command::{Cause, Stop, reject};
use gos_link::{Build, Links, Service, judge_links};
use gos_linked::laws::linked::substituted_is_typed;
use gos_outside::Store;
use gos_types::NoMemory;
use gos_witness::{Bound, ExplainFault, Program, substitute, typed_is_narrow};
use std::alloc::Global;

/// Reads the sources of a build and links their modules. Where a file is to be written, the build may not name it.
///
/// The first source that is wrong is rejected; then the build file `own`, with the first reason for which the modules can't be linked;
/// then where it names the file to be written; and then where the program has more than 1,000,000 nodes.
pub fn linked_in<S: Store>(
    alloc: Global,
    own: &[u8],
    build: &Build,
    written: Option<&[u8]>,
    store: &mut S,
) -> Result<Program, Stop>
    requires own { IsFileName own.now }
    requires few_instances { length build.now.instances.items ≤ 65536 }
    requires few_binds { length build.now.binds.items ≤ 65536 }
    ensures say { IfOk result (λ program. IfSome (S.contents store.old) (λ files. SayProgram files build.now program)) }
    ensures typed { IfOk result IsTypedProgram }
    ensures free { IfOk result (λ _. is_taken build.now (option_copied written.entry) ≡ false) }
    ensures rejected { IfErr result (λ stop. IfStopped stop (λ fault line.
        IfSome (S.contents store.old) (λ files. RejectsSources files own.now build.now (option_copied written.entry) fault line))) }
    ensures told { IfErr result (λ stop. IfStopped stop IsTold) }
    ensures kind { IfErr result (StopsFor (OfSource ∷ OfBuild ∷ OfMoves ∷ [])) }
    ensures calls { AreMade (ending result) (source_calls build.now.instances.items) (S.calls store.old) (S.calls store.new) }
    ensures counts { CountsFaults (IsErrOf result Stop.StoreFailed) (S.faults store.old) (S.faults store.new) }
    ensures failed_call { IsErrOf result Stop.StoreFailed →
        IsSourceCall (S.contents store.old) build.now.instances.items (S.last_fault store.new) }
    ensures same_files { S.contents store.new ≡ S.contents store.old }
{
    let sources = sources_in(alloc, build.instances.as_slice(), store)?;
    program_in(alloc, own, build, written, &sources)
}

// The program of the linked modules of a build, whose build file may be rejected as that of `linked_in`.
fn program_in(
    alloc: Global,
    own: &[u8],
    build: &Build,
    written: Option<&[u8]>,
    sources: &Sources,
) -> Result<Program, Stop>
    requires own { IsFileName own.now }
    requires linkable { IsLinkable build.now sources.now.shells.items }
    requires stand { StandFor sources.now.modules.items sources.now.shells.items }
    requires accepted { AllByRecursion IsAccepted sources.now.modules.items }
    ensures linked { IfOk result (λ program. (links : SeenLinks) × IsLinkedAs build.now sources.now.modules.items links program) }
    ensures typed { IfOk result IsTypedProgram }
    ensures free { IfOk result (λ _. is_taken build.now (option_copied written.entry) ≡ false) }
    ensures rejected { IfErr result (λ stop. IfStopped stop (IsFileFault own.now
        (IsModulesCause build.now (option_copied written.entry) sources.now.modules.items))) }
    ensures told { IfErr result (λ stop. IfStopped stop IsTold) }
    ensures kind { IfErr result (StopsFor (OfBuild ∷ OfMoves ∷ [])) }
    ensures no_store { IfErr result (λ stop. stop ≡ stops.StoreFailed → ⊥) }
{
    match judge_links(alloc, build, sources.shells.as_slice()) {
        Ok(links) => unless_taken(alloc, own, build, written, sources, &links),
        Err(fault) => Err(reject(alloc, own, Cause::Link(fault), None)),
    }
}

// The program of modules along these links, unless the build names the file that is to be written.
fn unless_taken(
    alloc: Global,
    own: &[u8],
    build: &Build,
    written: Option<&[u8]>,
    sources: &Sources,
    links: &Links,
) -> Result<Program, Stop>
    requires own { IsFileName own.now }
    requires linkable { IsLinkable build.now sources.now.shells.items }
    requires stand { StandFor sources.now.modules.items sources.now.shells.items }
    requires accepted { AllByRecursion IsAccepted sources.now.modules.items }
    requires links { AreLinks build.now sources.now.shells.items links.now }
    ensures linked { IfOk result (IsLinkedAs build.now sources.now.modules.items links.now) }
    ensures typed { IfOk result IsTypedProgram }
    ensures free { IfOk result (λ _. is_taken build.now (option_copied written.entry) ≡ false) }
    ensures rejected { IfErr result (λ stop. IfStopped stop (IsFileFault own.now
        (IsProgramCause build.now (option_copied written.entry) sources.now.modules.items))) }
    ensures told { IfErr result (λ stop. IfStopped stop IsTold) }
    ensures kind { IfErr result (StopsFor (OfMoves ∷ [])) }
    ensures no_store { IfErr result (λ stop. stop ≡ stops.StoreFailed → ⊥) }
{
    if is_taken(build, written) {
        let taken = Cause::Explain(ExplainFault::Taken);
        Err(reject(alloc, own, taken, None))
    } else {
        substituted(alloc, own, build, sources, links)
    }
}

// The program of modules along these links, by substitution. The build file is rejected where it is too large.
fn substituted(
    alloc: Global,
    own: &[u8],
    build: &Build,
    sources: &Sources,
    links: &Links,
) -> Result<Program, Stop>
    requires own { IsFileName own.now }
    requires linkable { IsLinkable build.now sources.now.shells.items }
    requires stand { StandFor sources.now.modules.items sources.now.shells.items }
    requires accepted { AllByRecursion IsAccepted sources.now.modules.items }
    requires links { AreLinks build.now sources.now.shells.items links.now }
    ensures linked { IfOk result (IsLinkedAs build.now sources.now.modules.items links.now) }
    ensures typed { IfOk result IsTypedProgram }
    ensures rejected { IfErr result (λ stop. IfStopped stop (IsFileFault own.now (IsSizeCause build.now sources.now.modules.items))) }
    ensures told { IfErr result (λ stop. IfStopped stop IsTold) }
    ensures kind { IfErr result (StopsFor (OfMoves ∷ [])) }
    ensures no_store { IfErr result (λ stop. stop ≡ stops.StoreFailed → ⊥) }
{
    let binds = binds_of(alloc, links.services())?;
    match substituted_along(alloc, build, sources, links, binds.as_slice()) {
        Ok(program) => Ok(program),
        Err(fault) => Err(reject(alloc, own, Cause::Explain(fault), None)),
    }
}

// The program of modules along links with these binds, or how large it is.
fn substituted_along(
    alloc: Global,
    build: &Build,
    sources: &Sources,
    links: &Links,
    binds: &[Bound],
) -> Result<Program, ExplainFault>
    requires linkable { IsLinkable build.now sources.now.shells.items }
    requires stand { StandFor sources.now.modules.items sources.now.shells.items }
    requires accepted { AllByRecursion IsAccepted sources.now.modules.items }
    requires links { AreLinks build.now sources.now.shells.items links.now }
    requires binds { binds.now ≡ binds_along links.now }
    ensures linked { IfOk result (IsLinkedAs build.now sources.now.modules.items links.now) }
    ensures typed { IfOk result IsTypedProgram }
    ensures fault { IfErr result (λ fault. fault ≢ ExplainFault.NoMemory → IsTooLargeFault (program_along sources.now.modules.items links.now) fault) }
{
    typed_is_narrow();
    substituted_is_typed();
    substitute(
        alloc,
        links.root(),
        &build.root,
        sources.modules.as_slice(),
        binds,
    )
}

// The services by their numbers.
fn binds_of(alloc: Global, services: &[Service]) -> Result<Vec<Bound>, NoMemory>
    ensures { IfOk result (λ binds. binds.items ≡ map bound_of services.now) }
{
    let mut binds = Vec::new(alloc);
    for service in services {
        binds.push(Bound {
            user: service.user,
            import: service.import,
            giver: service.giver,
        })?;
    }
    Ok(binds)
}
