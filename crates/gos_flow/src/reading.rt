// A file is read, and the netlist that it says is accepted.

ghost use Rattle.std.specs.Prelude.{◌≡◌, ◌<◌, ◌^◌, ◌∷◌, [], length, IfOk, IfErr, IfSome, IsErrOf};
ghost use Rattle.gos_outside.specs.FileName.{IsFileName};
ghost use Rattle.gos_outside.specs.Files.{bytes_at};
ghost use Rattle.gos_outside.specs.Faults.{CountsFaults, ReadFault};
ghost use Rattle.gos_outside.specs.Calls.{Read, AreMade};
ghost use Rattle.gos_netlist.specs.NetFaults.{IsRead as IsNet};
ghost use Rattle.gos_netcheck.specs.Accepted.{IsAccepted};
ghost use Rattle.gos_verilog.specs.Readable.{IsRead as IsVerilog};
ghost use Rattle.gos_flow.specs.Ends.{IfStopped, IsRealCause, ending};
ghost use Rattle.gos_flow.specs.Texts.{SaysNet, SaysVerilog, IsOfNet, IsOfVerilog, IsNetCause, IsVerilogCause, IsRefusal};

use crate::files::read_start;
use crate::status::Cause;
use crate::stop::{Stop, reject};
use gos_netcheck::{Checked, accept};
use gos_netlist::{Netlist, read_net};
use gos_outside::Store;
use gos_verilog::read_verilog;
use std::alloc::Global;

/// The longest netlist file, in bytes.
const NET_LIMIT: usize = 268_435_456;

/// Reads a netlist file, and accepts its netlist. The file is rejected where it is no netlist, or none that is accepted.
pub fn checked_net<S: Store>(alloc: Global, net: &[u8], store: &mut S) -> Result<Checked, Stop>
    requires { IsFileName net.now }
    ensures says { IfOk result (λ checked. IfSome (S.contents store.old) (λ files. SaysNet (bytes_at files net.now) checked)) }
    ensures accepted { IfOk result IsAccepted }
    ensures rejected { IfErr result (λ stop. IfStopped stop (λ cause. IfSome (S.contents store.old) (λ files. IsNetCause (bytes_at files net.now) cause))) }
    ensures kind { IfErr result (λ stop. IfStopped stop IsOfNet) }
    ensures calls { AreMade (ending result) (Read net.now 268435457 ∷ []) (S.calls store.old) (S.calls store.new) }
    ensures counts { CountsFaults (IsErrOf result Stop.StoreFailed) (S.faults store.old) (S.faults store.new) }
    ensures failed_call { IsErrOf result Stop.StoreFailed → S.last_fault store.new ≡ ReadFault net.now }
    ensures same_files { S.contents store.new ≡ S.contents store.old }
{
    let circuit = net_in(alloc, net, store)?;
    accepted(alloc, circuit)
}

// The netlist whose text the file holds. That text is let go here, so that no two copies stand in memory.
fn net_in<S: Store>(alloc: Global, net: &[u8], store: &mut S) -> Result<Netlist, Stop>
    requires { IsFileName net.now }
    ensures read { IfOk result (λ circuit. IfSome (S.contents store.old) (λ files. IsNet (bytes_at files net.now) circuit)) }
    ensures few { IfOk result (λ circuit. length circuit.cells < 2 ^ 32) }
    ensures rejected { IfErr result (λ stop. IfStopped stop (λ cause. IfSome (S.contents store.old) (λ files. IsNetCause (bytes_at files net.now) cause))) }
    ensures kind { IfErr result (λ stop. IfStopped stop IsOfNet) }
    ensures calls { AreMade (ending result) (Read net.now 268435457 ∷ []) (S.calls store.old) (S.calls store.new) }
    ensures counts { CountsFaults (IsErrOf result Stop.StoreFailed) (S.faults store.old) (S.faults store.new) }
    ensures failed_call { IsErrOf result Stop.StoreFailed → S.last_fault store.new ≡ ReadFault net.now }
    ensures same_files { S.contents store.new ≡ S.contents store.old }
{
    let text = read_start(alloc, store, net, NET_LIMIT + 1)?;
    match read_net(alloc, text.as_slice()) {
        Ok(circuit) => Ok(circuit),
        Err(fault) => Err(reject(Cause::Net(fault))),
    }
}

/// Reads a Verilog file, and accepts its netlist. The file is rejected where it is the text of no netlist, or of none that is accepted.
pub fn checked_verilog<S: Store>(alloc: Global, ver: &[u8], store: &mut S) -> Result<Checked, Stop>
    requires { IsFileName ver.now }
    ensures says { IfOk result (λ checked. IfSome (S.contents store.old) (λ files. SaysVerilog (bytes_at files ver.now) checked)) }
    ensures accepted { IfOk result IsAccepted }
    ensures rejected { IfErr result (λ stop. IfStopped stop (λ cause. IfSome (S.contents store.old) (λ files. IsVerilogCause (bytes_at files ver.now) cause))) }
    ensures kind { IfErr result (λ stop. IfStopped stop IsOfVerilog) }
    ensures calls { AreMade (ending result) (Read ver.now 18446744073709551615 ∷ []) (S.calls store.old) (S.calls store.new) }
    ensures counts { CountsFaults (IsErrOf result Stop.StoreFailed) (S.faults store.old) (S.faults store.new) }
    ensures failed_call { IsErrOf result Stop.StoreFailed → S.last_fault store.new ≡ ReadFault ver.now }
    ensures same_files { S.contents store.new ≡ S.contents store.old }
{
    let circuit = verilog_in(alloc, ver, store)?;
    accepted(alloc, circuit)
}

/// The netlist whose Verilog text the file holds. It need not be accepted.
pub fn verilog_in<S: Store>(alloc: Global, ver: &[u8], store: &mut S) -> Result<Netlist, Stop>
    requires { IsFileName ver.now }
    ensures read { IfOk result (λ circuit. IfSome (S.contents store.old) (λ files. IsVerilog (bytes_at files ver.now) circuit)) }
    ensures few { IfOk result (λ circuit. length circuit.cells < 2 ^ 32) }
    ensures rejected { IfErr result (λ stop. IfStopped stop (λ cause. IfSome (S.contents store.old) (λ files. IsVerilogCause (bytes_at files ver.now) cause))) }
    ensures kind { IfErr result (λ stop. IfStopped stop IsOfVerilog) }
    ensures calls { AreMade (ending result) (Read ver.now 18446744073709551615 ∷ []) (S.calls store.old) (S.calls store.new) }
    ensures counts { CountsFaults (IsErrOf result Stop.StoreFailed) (S.faults store.old) (S.faults store.new) }
    ensures failed_call { IsErrOf result Stop.StoreFailed → S.last_fault store.new ≡ ReadFault ver.now }
    ensures same_files { S.contents store.new ≡ S.contents store.old }
{
    let text = read_start(alloc, store, ver, usize::MAX)?;
    match read_verilog(alloc, text.as_slice()) {
        Ok(circuit) => Ok(circuit),
        Err(fault) => Err(reject(Cause::Verilog(fault))),
    }
}

// Accepts a netlist that was read.
fn accepted(alloc: Global, circuit: Netlist) -> Result<Checked, Stop>
    requires { length circuit.cells < 2 ^ 32 }
    ensures same { IfOk result (λ checked. checked ≡ circuit) }
    ensures accepted { IfOk result IsAccepted }
    ensures refused { IfErr result (λ stop. IfStopped stop (IsRefusal circuit)) }
    ensures no_store { ¬ (IsErrOf result Stop.StoreFailed) }
{
    match accept(alloc, circuit) {
        Ok(checked) => Ok(checked),
        Err(refused) => Err(reject(Cause::Refused(refused.fault))),
    }
}
