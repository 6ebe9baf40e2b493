// The command `gates NET OUT`.

ghost use Rattle.std.specs.Prelude.{◌≡◌, ◌≢◌, ◌∷◌, [], length, IfOk, IfErr, IfSome, IsErrOf};
ghost use Rattle.gos_outside.specs.FileName.{IsFileName};
ghost use Rattle.gos_outside.specs.Files.{SameBut, with_file};
ghost use Rattle.gos_outside.specs.Faults.{CountsFaults, WriteFault};
ghost use Rattle.gos_outside.specs.Calls.{Write, AreMade};
ghost use Rattle.gos_gates.specs.AagText.{aag_text};
ghost use Rattle.gos_gates.specs.Gates.{AreGates};
ghost use Rattle.gos_command.specs.Ends.{IfStopped, IsTold, ending};
ghost use Rattle.gos_command.specs.declared.report.Report.TheVariants as reports;
ghost use Rattle.gos_tool.specs.Causes.{OfNetlist, StopsFor, TellsGates};
ghost use Rattle.gos_tool.specs.Calls.{rewrite_calls};
ghost use Rattle.gos_tool.specs.netlists.Gates.{AreGatesDone, IsGatesFault, IsGatesCall};

use crate::netlists::reading::checked_net;
use gos_command::{Cause, GateCounts, Report, Stop, reject, write_file};
use gos_gates::{Aig, lower, print_aag};
use gos_outside::Store;
use std::alloc::Global;

/// Reads the netlist and accepts it, lowers it to two-input gates and latches and writes their text.
pub fn gates_of<S: Store>(
    alloc: Global,
    net: &[u8],
    out: &[u8],
    store: &mut S,
) -> Result<Report, Stop>
    requires net { IsFileName net.now }
    requires out { IsFileName out.now }
    ensures done { IfOk result (AreGatesDone (S.contents store.old) (S.contents store.new) net.now out.now) }
    ensures rejected { IfErr result (λ stop. IfStopped stop (λ fault line. IfSome (S.contents store.old) (λ files. IsGatesFault files net.now fault line))) }
    ensures told { IfErr result (λ stop. IfStopped stop IsTold) }
    ensures file { IfErr result (λ stop. IfStopped stop (λ fault line. fault.file ≡ net.now)) }
    ensures rejected_files { IfErr result (λ stop. IfStopped stop (λ fault line. S.contents store.new ≡ S.contents store.old)) }
    ensures tells { IfOk result TellsGates }
    ensures kind { IfErr result (StopsFor (OfNetlist ∷ [])) }
    ensures calls { AreMade (ending result) (rewrite_calls net.now out.now) (S.calls store.old) (S.calls store.new) }
    ensures counts { CountsFaults (IsErrOf result Stop.StoreFailed) (S.faults store.old) (S.faults store.new) }
    ensures failed_call { IsErrOf result Stop.StoreFailed →
        IsGatesCall (S.contents store.old) (S.contents store.new) net.now out.now (S.last_fault store.new) }
    ensures memory_files { IsErrOf result Stop.NoMemory → S.contents store.new ≡ S.contents store.old }
    ensures others { SameBut out.now (S.contents store.old) (S.contents store.new) }
{
    let given = checked_net(alloc, net, store)?;
    match lower(alloc, &given) {
        Ok(gates) => write_gates(alloc, &gates, out, store),
        Err(fault) => Err(reject(alloc, net, Cause::Gates(fault), None)),
    }
}

// Writes the text of gates, and tells the numbers of its header.
fn write_gates<S: Store>(
    alloc: Global,
    gates: &Aig,
    out: &[u8],
    store: &mut S,
) -> Result<Report, Stop>
    requires out { IsFileName out.now }
    requires gates { AreGates gates.now }
    ensures wrote { IfOk result (λ _. S.contents store.new ≡ with_file out.now (aag_text gates.now) (S.contents store.old)) }
    ensures tells { IfOk result (λ report. report ≡ reports.Gates (record {
      inputs = gates.now.inputs;
      latches = length gates.now.latches;
      outputs = length gates.now.outputs;
      ands = length gates.now.gates;
    })) }
    ensures rejects_nothing { IfErr result (λ stop. IfStopped stop (λ fault line. ⊥)) }
    ensures calls { AreMade (ending result) (Write out.now ∷ []) (S.calls store.old) (S.calls store.new) }
    ensures counts { CountsFaults (IsErrOf result Stop.StoreFailed) (S.faults store.old) (S.faults store.new) }
    ensures failed_call { IsErrOf result Stop.StoreFailed → S.last_fault store.new ≡ WriteFault out.now }
    ensures memory_files { IsErrOf result Stop.NoMemory → S.contents store.new ≡ S.contents store.old }
    ensures others { SameBut out.now (S.contents store.old) (S.contents store.new) }
{
    let text = print_aag(alloc, gates)?;
    write_file(alloc, store, out, text.as_slice())?;
    Ok(Report::Gates(GateCounts {
        inputs: u64::from(gates.inputs),
        latches: gates.latches.len() as u64,
        outputs: gates.outputs.len() as u64,
        ands: gates.gates.len() as u64,
    }))
}
