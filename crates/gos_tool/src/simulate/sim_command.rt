// The command `sim NET PULSES TRACE`.

ghost use Rattle.std.specs.Prelude.{◌≡◌, ◌⊎◌, ◌∷◌, [], IfOk, IfErr, IfSome, IsErrOf};
ghost use Rattle.gos_outside.specs.FileName.{IsFileName};
ghost use Rattle.gos_outside.specs.Files.{SameBut};
ghost use Rattle.gos_outside.specs.Faults.{CountsFaults};
ghost use Rattle.gos_outside.specs.Calls.{AreMade};
ghost use Rattle.gos_command.specs.Ends.{IfStopped, IsTold, ending};
ghost use Rattle.gos_tool.specs.Causes.{OfNetlist, OfPulses, StopsFor, TellsRun};
ghost use Rattle.gos_tool.specs.Calls.{sim_calls};
ghost use Rattle.gos_tool.specs.simulate.Sim.{IsSimDone, IsSimFault, IsSimCall};

use crate::netlists::checked_net;
use crate::simulate::simulation::simulate;
use gos_command::{Report, Stop};
use gos_outside::Store;
use std::alloc::Global;

/// Reads the netlist and accepts it, reads the pulse file, runs the netlist under it and writes the trace.
pub fn sim<S: Store>(
    alloc: Global,
    net: &[u8],
    pulses: &[u8],
    trace: &[u8],
    store: &mut S,
) -> Result<Report, Stop>
    requires net { IsFileName net.now }
    requires pulses { IsFileName pulses.now }
    requires trace { IsFileName trace.now }
    ensures done { IfOk result (IsSimDone (S.contents store.old) (S.contents store.new) net.now pulses.now trace.now) }
    ensures rejected { IfErr result (λ stop. IfStopped stop (λ fault line.
        IfSome (S.contents store.old) (λ files. IsSimFault files net.now pulses.now fault line))) }
    ensures told { IfErr result (λ stop. IfStopped stop IsTold) }
    ensures file { IfErr result (λ stop. IfStopped stop (λ fault line. (fault.file ≡ net.now) ⊎ (fault.file ≡ pulses.now))) }
    ensures rejected_files { IfErr result (λ stop. IfStopped stop (λ fault line. S.contents store.new ≡ S.contents store.old)) }
    ensures tells { IfOk result TellsRun }
    ensures kind { IfErr result (StopsFor (OfNetlist ∷ OfPulses ∷ [])) }
    ensures calls { AreMade (ending result) (sim_calls net.now pulses.now trace.now) (S.calls store.old) (S.calls store.new) }
    ensures counts { CountsFaults (IsErrOf result Stop.StoreFailed) (S.faults store.old) (S.faults store.new) }
    ensures failed_call { IsErrOf result Stop.StoreFailed →
        IsSimCall (S.contents store.old) (S.contents store.new) net.now pulses.now trace.now (S.last_fault store.new) }
    ensures memory_files { IsErrOf result Stop.NoMemory → S.contents store.new ≡ S.contents store.old }
    ensures others { SameBut trace.now (S.contents store.old) (S.contents store.new) }
{
    let checked = checked_net(alloc, net, store)?;
    let counts = simulate(alloc, checked, pulses, trace, store)?;
    Ok(Report::Run(counts))
}
