// A netlist file is read, and its netlist accepted.

ghost use Rattle.std.specs.Prelude.{◌≡◌, ◌≤◌, ◌∷◌, [], length, IfOk, IfErr, IfSome, IsErrOf};
ghost use Rattle.gos_outside.specs.FileName.{IsFileName};
ghost use Rattle.gos_outside.specs.Files.{bytes_at};
ghost use Rattle.gos_outside.specs.Faults.{CountsFaults, ReadFault};
ghost use Rattle.gos_outside.specs.Calls.{AreMade};
ghost use Rattle.gos_netlist.specs.NetFaults.{IsRead};
ghost use Rattle.gos_command.specs.Ends.{IfStopped, IsTold, ending};
ghost use Rattle.gos_tool.specs.Causes.{OfNetlist, StopsFor};
ghost use Rattle.gos_tool.specs.Calls.{read_netlist};
ghost use Rattle.gos_tool.specs.netlists.Netlist.{SaysNet, IsNetFault};

use gos_command::{Cause, Stop, read_file, reject};
use gos_netcheck::{Checked, accept};
use gos_netlist::{Netlist, read_net};
use gos_outside::Store;
use std::alloc::Global;

/// The longest netlist file, in bytes.
const NET_LIMIT: usize = 268_435_456;

/// Reads the netlist and accepts it. The file is rejected where it is no netlist, or none that is accepted.
pub fn checked_net<S: Store>(alloc: Global, net: &[u8], store: &mut S) -> Result<Checked, Stop>
    requires net { IsFileName net.now }
    ensures says { IfOk result (λ checked. IfSome (S.contents store.old) (λ files. SaysNet (bytes_at files net.now) checked)) }
    ensures rejected { IfErr result (λ stop. IfStopped stop (λ fault line. IfSome (S.contents store.old) (λ files. IsNetFault files net.now fault line))) }
    ensures told { IfErr result (λ stop. IfStopped stop IsTold) }
    ensures file { IfErr result (λ stop. IfStopped stop (λ fault line. fault.file ≡ net.now)) }
    ensures kind { IfErr result (StopsFor (OfNetlist ∷ [])) }
    ensures calls { AreMade (ending result) (read_netlist net.now ∷ []) (S.calls store.old) (S.calls store.new) }
    ensures counts { CountsFaults (IsErrOf result Stop.StoreFailed) (S.faults store.old) (S.faults store.new) }
    ensures failed_call { IsErrOf result Stop.StoreFailed → S.last_fault store.new ≡ ReadFault net.now }
    ensures same_files { S.contents store.new ≡ S.contents store.old }
{
    let circuit = circuit_in(alloc, net, store)?;
    match accept(alloc, circuit) {
        Ok(checked) => Ok(checked),
        Err(refused) => Err(reject(alloc, net, Cause::Refused(refused.fault), None)),
    }
}

// Reads the netlist. Its text is let go here, so that no two copies stand in memory.
fn circuit_in<S: Store>(alloc: Global, net: &[u8], store: &mut S) -> Result<Netlist, Stop>
    requires net { IsFileName net.now }
    ensures read { IfOk result (λ circuit. IfSome (S.contents store.old) (λ files. IsRead (bytes_at files net.now) circuit)) }
    ensures few { IfOk result (λ circuit. length circuit.cells ≤ 5000000) }
    ensures rejected { IfErr result (λ stop. IfStopped stop (λ fault line. IfSome (S.contents store.old) (λ files. IsNetFault files net.now fault line))) }
    ensures told { IfErr result (λ stop. IfStopped stop IsTold) }
    ensures file { IfErr result (λ stop. IfStopped stop (λ fault line. fault.file ≡ net.now)) }
    ensures kind { IfErr result (StopsFor (OfNetlist ∷ [])) }
    ensures calls { AreMade (ending result) (read_netlist net.now ∷ []) (S.calls store.old) (S.calls store.new) }
    ensures counts { CountsFaults (IsErrOf result Stop.StoreFailed) (S.faults store.old) (S.faults store.new) }
    ensures failed_call { IsErrOf result Stop.StoreFailed → S.last_fault store.new ≡ ReadFault net.now }
    ensures same_files { S.contents store.new ≡ S.contents store.old }
{
    let text = read_file(alloc, store, net, NET_LIMIT)?;
    match read_net(alloc, text.as_slice()) {
        Ok(circuit) => Ok(circuit),
        Err(fault) => Err(reject(alloc, net, Cause::Net(fault), None)),
    }
}
