// The command `link BUILD`: the build file and the objects are read, and the circuit of the whole is written.

ghost use Rattle.std.specs.Prelude.{◌≡◌, ◌∷◌, [], IfOk, IfErr, IfSome, IsErrOf};
ghost use Rattle.gos_outside.specs.FileName.{IsFileName};
ghost use Rattle.gos_outside.specs.Faults.{CountsFaults};
ghost use Rattle.gos_command.specs.Ends.{IfStopped, IsTold, ending};
ghost use Rattle.gos_tool.specs.Causes.{OfObject, OfBuild, OfWeight, OfSize, StopsFor, TellsWeight};
ghost use Rattle.gos_tool.specs.Calls.{link_calls, GoesByBuild};
ghost use Rattle.gos_tool.specs.circuits.Linked.{IsLinkDone, RejectsLink, IsLinkCall, IsLinkCutShort, KeepsUnnamed};

use crate::circuits::build_file::build_in;
use crate::circuits::laws::paced_circuits;
use crate::circuits::layout::Layout;
use crate::circuits::objects::plans_in;
use crate::circuits::plans::link_plans;
use gos_command::{Report, Stop};
use gos_outside::Store;
use std::alloc::Global;

/// Reads the build file `own` and the object files of its instances, links their plans, and writes the netlist of a circuit
/// of the whole and its Verilog text.
///
/// The build file is rejected with its first wrong line, or else the first object file that is none, or else the build file
/// with the first reason for which these can't be linked.
pub fn link_build<S: Store>(alloc: Global, own: &[u8], store: &mut S) -> Result<Report, Stop>
    requires { IsFileName own.now }
    ensures done { IfOk result (IsLinkDone (S.contents store.old) (S.contents store.new) own.now) }
    ensures rejected { IfErr result (λ stop. IfStopped stop (λ fault line.
        IfSome (S.contents store.old) (λ files. RejectsLink files own.now fault line))) }
    ensures told { IfErr result (λ stop. IfStopped stop IsTold) }
    ensures rejected_files { IfErr result (λ stop. IfStopped stop (λ fault line. S.contents store.new ≡ S.contents store.old)) }
    ensures tells { IfOk result TellsWeight }
    ensures kind { IfErr result (StopsFor (OfObject ∷ OfBuild ∷ OfWeight ∷ OfSize ∷ [])) }
    ensures calls { GoesByBuild (ending result) [] (S.contents store.old) own.now link_calls (S.calls store.old) (S.calls store.new) }

    // The store is blamed only for a call that failed, and that the command makes then.
    ensures counts { CountsFaults (IsErrOf result Stop.StoreFailed) (S.faults store.old) (S.faults store.new) }
    ensures failed_call { IsErrOf result Stop.StoreFailed →
        IsLinkCall (S.contents store.old) (S.contents store.new) own.now (S.last_fault store.new) }
    ensures memory_files { IsErrOf result Stop.NoMemory → IsLinkCutShort (S.contents store.old) (S.contents store.new) own.now }
    ensures others { KeepsUnnamed own.now (S.contents store.old) (S.contents store.new) }
{
    paced_circuits();
    let build = build_in(alloc, own, store)?;
    let plans = plans_in(alloc, build.instances.as_slice(), store)?;
    let linked = link_plans(alloc, own, &build, plans.as_slice(), Layout::Few, store)?;
    Ok(Report::Weight(linked.weight))
}
