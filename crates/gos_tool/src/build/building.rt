// The command `build BUILD`: the files are read and judged in their order, and objects, netlist, Verilog text and trace are
// written.

ghost use Rattle.std.specs.Prelude.{◌∷◌, [], IfOk, IfErr, IfSome, IsErrOf};
ghost use Rattle.gos_outside.specs.FileName.{IsFileName};
ghost use Rattle.gos_outside.specs.Faults.{CountsFaults};
ghost use Rattle.gos_command.specs.Ends.{IfStopped, IsTold, ending};
ghost use Rattle.gos_tool.specs.Causes.{OfSource, OfBuild, OfWeight, OfPulses, StopsFor, TellsBoth};
ghost use Rattle.gos_tool.specs.Calls.{build_calls, GoesByBuild};
ghost use Rattle.gos_tool.specs.build.Built.{IsBuilt, IsBuiltAs, RejectsBuild, RejectsBuildAs, IsBuildCall, IsBuildCallAs, IsBuildCutShort, IsBuildCutShortAs, KeepsUnnamed};

use crate::build::compiling::compile_all;
use crate::build::laws::paced_modules;
use crate::circuits::{Layout, build_in, link_plans};
use crate::simulate::simulate;
use gos_command::{Report, Stop};
use gos_linked::laws::fits::slim_plans_fit;
use gos_outside::Store;
use std::alloc::Global;

/// Builds what the build file `own` says: compiles the source of each instance and writes its object, links the plans, writes
/// the netlist of a circuit of the whole and its Verilog text, and runs it under the pulse file and writes the trace.
///
/// The first file that is wrong is rejected: the build file for its form, then the sources in their order, then the build file
/// for what it binds, then the pulse file. What is written before that stays. A source is read after the objects of those
/// before it are written, and no object is read.
pub fn build<S: Store>(alloc: Global, own: &[u8], store: &mut S) -> Result<Report, Stop>
    requires { IsFileName own.now }
    ensures done { IfOk result (λ report. IfSome (S.contents store.old) (λ files. IsBuilt files (S.contents store.new) own.now report)) }
    ensures rejected { IfErr result (λ stop. IfStopped stop (λ fault line.
        IfSome (S.contents store.old) (λ files. RejectsBuild files (S.contents store.new) own.now fault line))) }
    ensures told { IfErr result (λ stop. IfStopped stop IsTold) }
    ensures tells { IfOk result TellsBoth }
    ensures kind { IfErr result (StopsFor (OfSource ∷ OfBuild ∷ OfWeight ∷ OfPulses ∷ [])) }
    ensures calls { GoesByBuild (ending result) [] (S.contents store.old) own.now build_calls (S.calls store.old) (S.calls store.new) }

    // The store is blamed only for a call that failed, and that the command makes then.
    ensures counts { CountsFaults (IsErrOf result Stop.StoreFailed) (S.faults store.old) (S.faults store.new) }
    ensures failed_call { IsErrOf result Stop.StoreFailed →
        IsBuildCall (S.contents store.old) (S.contents store.new) own.now (S.last_fault store.new) }
    ensures memory_files { IsErrOf result Stop.NoMemory → IfSome (S.contents store.old) (λ files.
        IsBuildCutShort files (S.contents store.new) own.now) }
    ensures others { KeepsUnnamed own.now (S.contents store.old) (S.contents store.new) }
{
    build_as(alloc, own, Layout::Few, store)
}

/// Builds what the build file `own` says as `build` does, with the circuit that the linked plan is laid out as in this way.
pub fn build_as<S: Store>(
    alloc: Global,
    own: &[u8],
    layout: Layout,
    store: &mut S,
) -> Result<Report, Stop>
    requires { IsFileName own.now }
    ensures done { IfOk result (λ report. IfSome (S.contents store.old) (λ files. IsBuiltAs layout files (S.contents store.new) own.now report)) }
    ensures rejected { IfErr result (λ stop. IfStopped stop (λ fault line.
        IfSome (S.contents store.old) (λ files. RejectsBuildAs layout files (S.contents store.new) own.now fault line))) }
    ensures told { IfErr result (λ stop. IfStopped stop IsTold) }
    ensures tells { IfOk result TellsBoth }
    ensures kind { IfErr result (StopsFor (OfSource ∷ OfBuild ∷ OfWeight ∷ OfPulses ∷ [])) }
    ensures calls { GoesByBuild (ending result) [] (S.contents store.old) own.now build_calls (S.calls store.old) (S.calls store.new) }

    // The store is blamed only for a call that failed, and that the command makes then.
    ensures counts { CountsFaults (IsErrOf result Stop.StoreFailed) (S.faults store.old) (S.faults store.new) }
    ensures failed_call { IsErrOf result Stop.StoreFailed →
        IsBuildCallAs layout (S.contents store.old) (S.contents store.new) own.now (S.last_fault store.new) }
    ensures memory_files { IsErrOf result Stop.NoMemory → IfSome (S.contents store.old) (λ files.
        IsBuildCutShortAs layout files (S.contents store.new) own.now) }
    ensures others { KeepsUnnamed own.now (S.contents store.old) (S.contents store.new) }
{
    paced_modules();
    slim_plans_fit();
    let build = build_in(alloc, own, store)?;
    let plans = compile_all(alloc, build.instances.as_slice(), store)?;
    let linked = link_plans(alloc, own, &build, plans.as_slice(), layout, store)?;
    let counts = simulate(
        alloc,
        linked.net,
        build.pulses.bytes(),
        build.trace.bytes(),
        store,
    )?;
    Ok(Report::Build {
        weight: linked.weight,
        run: counts,
    })
}
