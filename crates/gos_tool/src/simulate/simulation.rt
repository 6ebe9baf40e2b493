// An accepted netlist is run under a pulse file, and its trace is written.

ghost use Rattle.std.specs.Prelude.{◌≡◌, ◌<◌, ◌∷◌, [], All, length, Some, IfOk, IfErr, IfSome, IsErrOf};
ghost use Rattle.gos_outside.specs.FileName.{IsFileName};
ghost use Rattle.gos_outside.specs.Files.{SameBut, bytes_at, with_file};
ghost use Rattle.gos_outside.specs.Faults.{CountsFaults, WriteFault};
ghost use Rattle.gos_outside.specs.Calls.{Write, AreMade};
ghost use Rattle.gos_netlist.specs.Events.{events_of};
ghost use Rattle.gos_pulse.specs.Driving.{GivesInput};
ghost use Rattle.gos_pulse.specs.PulseFile.{IsPulseFile};
ghost use Rattle.gos_pulse.specs.TraceText.{trace_text};
ghost use Rattle.gos_command.specs.Ends.{IfStopped, IsTold, ending};
ghost use Rattle.gos_tool.specs.Causes.{OfPulses, StopsFor};
ghost use Rattle.gos_tool.specs.Calls.{simulation_calls};
ghost use Rattle.gos_tool.specs.simulate.Simulation.{LeavesTrace, RunsUnder, IsPulseFault, IsSimulationCall};

use gos_command::{Cause, Counts, Stop, read_file, reject, write_file};
use gos_netcheck::Checked;
use gos_netlist::Netlist;
use gos_outside::Store;
use gos_pulse::{Pulses, Trace, drive, print_trace, read_pulses};
use gos_sim::Sim;
use std::alloc::Global;

/// The longest pulse file, in bytes.
const PULSES_LIMIT: usize = 16_777_216;

/// Reads the pulse file, runs the netlist from reset under it, and writes the trace.
///
/// The pulse file is rejected with its first wrong line, or with the first entry that breaks the protocol.
pub fn simulate<S: Store>(
    alloc: Global,
    net: Checked,
    pulses: &[u8],
    trace: &[u8],
    store: &mut S,
) -> Result<Counts, Stop>
    requires pulses { IsFileName pulses.now }
    requires trace { IsFileName trace.now }
    ensures done { IfOk result (LeavesTrace (S.contents store.old) (S.contents store.new) net pulses.now trace.now) }
    ensures rejected { IfErr result (λ stop. IfStopped stop (λ fault line.
        IfSome (S.contents store.old) (λ files. IsPulseFault files net pulses.now fault line))) }
    ensures told { IfErr result (λ stop. IfStopped stop IsTold) }
    ensures file { IfErr result (λ stop. IfStopped stop (λ fault line. fault.file ≡ pulses.now)) }
    ensures rejected_files { IfErr result (λ stop. IfStopped stop (λ fault line. S.contents store.new ≡ S.contents store.old)) }
    ensures kind { IfErr result (StopsFor (OfPulses ∷ [])) }
    ensures calls { AreMade (ending result) (simulation_calls pulses.now trace.now) (S.calls store.old) (S.calls store.new) }
    ensures counts { CountsFaults (IsErrOf result Stop.StoreFailed) (S.faults store.old) (S.faults store.new) }
    ensures failed_call { IsErrOf result Stop.StoreFailed →
        IsSimulationCall (S.contents store.old) (S.contents store.new) net pulses.now trace.now (S.last_fault store.new) }
    ensures memory_files { IsErrOf result Stop.NoMemory → S.contents store.new ≡ S.contents store.old }
    ensures others { SameBut trace.now (S.contents store.old) (S.contents store.new) }
{
    let text = read_file(alloc, store, pulses, PULSES_LIMIT)?;
    match read_pulses(alloc, text.as_slice(), net.netlist()) {
        Ok(read) => run(alloc, net, &read, pulses, trace, store),
        Err(fault) => Err(reject(alloc, pulses, Cause::Pulse(fault), Some(net.netlist()))),
    }
}

// Runs the netlist under what the pulse file says, and writes the trace.
fn run<S: Store>(
    alloc: Global,
    net: Checked,
    read: &Pulses,
    pulses: &[u8],
    trace: &[u8],
    store: &mut S,
) -> Result<Counts, Stop>
    requires pulses { IsFileName pulses.now }
    requires trace { IsFileName trace.now }
    requires entries { All (GivesInput net) read.now.1 }
    ensures done { IfOk result (λ counts. IfSome (S.contents store.old) (λ files.
        IsPulseFile net (bytes_at files pulses.now) read.now.0 read.now.1)
        → LeavesTrace (S.contents store.old) (S.contents store.new) net pulses.now trace.now counts) }
    ensures rejected { IfErr result (λ stop. IfStopped stop (λ fault line.
        IfSome (S.contents store.old) (λ files. IsPulseFile net (bytes_at files pulses.now) read.now.0 read.now.1
        → IsPulseFault files net pulses.now fault line))) }
    ensures told { IfErr result (λ stop. IfStopped stop IsTold) }
    ensures file { IfErr result (λ stop. IfStopped stop (λ fault line. fault.file ≡ pulses.now)) }
    ensures rejected_files { IfErr result (λ stop. IfStopped stop (λ fault line. S.contents store.new ≡ S.contents store.old)) }
    ensures kind { IfErr result (StopsFor (OfPulses ∷ [])) }
    ensures calls { AreMade (ending result) (Write trace.now ∷ []) (S.calls store.old) (S.calls store.new) }
    ensures counts { CountsFaults (IsErrOf result Stop.StoreFailed) (S.faults store.old) (S.faults store.new) }
    ensures failed_call { IsErrOf result Stop.StoreFailed → S.last_fault store.new ≡ WriteFault trace.now }
    ensures failed_after { IsErrOf result Stop.StoreFailed → IfSome (S.contents store.old) (λ files.
        IsPulseFile net (bytes_at files pulses.now) read.now.0 read.now.1 → RunsUnder net (bytes_at files pulses.now)) }
    ensures memory_files { IsErrOf result Stop.NoMemory → S.contents store.new ≡ S.contents store.old }
    ensures others { SameBut trace.now (S.contents store.old) (S.contents store.new) }
{
    let Ok(mut sim) = Sim::new(alloc, net) else {
        return Err(Stop::NoMemory);
    };
    match drive(alloc, &mut sim, read) {
        Ok(traced) => write_trace(alloc, &traced, sim.netlist(), trace, store),
        Err(fault) => Err(reject(alloc, pulses, Cause::Pulse(fault), Some(sim.netlist()))),
    }
}

// Writes the trace of a run, and tells its numbers.
fn write_trace<S: Store>(
    alloc: Global,
    traced: &Trace,
    net: &Netlist,
    trace: &[u8],
    store: &mut S,
) -> Result<Counts, Stop>
    requires trace { IsFileName trace.now }
    requires known { All (λ pulse. pulse.event < length (events_of net.now)) traced.now.lines.items }
    ensures wrote { IfOk result (λ counts. S.contents store.new ≡ with_file trace.now
        (trace_text net.now traced.now.lines.items traced.now.cycles) (S.contents store.old)) }
    ensures numbers { IfOk result (λ counts.
        counts ≡ record { cycles = traced.now.cycles; pulses = length traced.now.lines.items; unused = traced.now.unused }) }
    ensures rejects_nothing { IfErr result (λ stop. IfStopped stop (λ fault line. ⊥)) }
    ensures calls { AreMade (ending result) (Write trace.now ∷ []) (S.calls store.old) (S.calls store.new) }
    ensures counts { CountsFaults (IsErrOf result Stop.StoreFailed) (S.faults store.old) (S.faults store.new) }
    ensures failed_call { IsErrOf result Stop.StoreFailed → S.last_fault store.new ≡ WriteFault trace.now }
    ensures memory_files { IsErrOf result Stop.NoMemory → S.contents store.new ≡ S.contents store.old }
    ensures others { SameBut trace.now (S.contents store.old) (S.contents store.new) }
{
    let text = print_trace(alloc, traced, net)?;
    write_file(alloc, store, trace, text.as_slice())?;
    Ok(Counts {
        cycles: traced.cycles,
        pulses: traced.lines.len() as u64,
        unused: traced.unused,
    })
}
