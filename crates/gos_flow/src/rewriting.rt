// The commands `verilog NET OUT` and `netlist VER OUT`: the netlist that a file says is written in the other form.

ghost use Rattle.std.specs.Prelude.{◌≡◌, IfOk, IfErr, IfSome, IsErrOf};
ghost use Rattle.gos_outside.specs.FileName.{IsFileName};
ghost use Rattle.gos_outside.specs.Files.{SameBut, bytes_at};
ghost use Rattle.gos_outside.specs.Faults.{CountsFaults};
ghost use Rattle.gos_outside.specs.Calls.{AreMade};
ghost use Rattle.gos_flow.specs.Ends.{IfStopped, ending};
ghost use Rattle.gos_flow.specs.Texts.{IsOfNet, IsOfVerilog, IsNetCause, IsVerilogCause};
ghost use Rattle.gos_flow.specs.Command.{ToVerilog, ToNetlist, calls_of};
ghost use Rattle.gos_flow.specs.Run.{IsDone, IsCall};

use crate::files::write_file;
use crate::reading::{checked_net, checked_verilog};
use crate::stop::Stop;
use gos_netlist::print_net;
use gos_outside::Store;
use gos_verilog::write_verilog;
use std::alloc::Global;

/// Reads a netlist and accepts it, and writes its Verilog text. Gives how many cells it has.
pub fn to_verilog<S: Store>(
    alloc: Global,
    net: &[u8],
    out: &[u8],
    store: &mut S,
) -> Result<u64, Stop>
    requires net { IsFileName net.now }
    requires out { IsFileName out.now }
    ensures done { IfOk result (IsDone (ToVerilog net.now out.now) (S.contents store.old) (S.contents store.new)) }
    ensures rejected { IfErr result (λ stop. IfStopped stop (λ cause. IfSome (S.contents store.old) (λ files. IsNetCause (bytes_at files net.now) cause))) }
    ensures kind { IfErr result (λ stop. IfStopped stop IsOfNet) }
    ensures rejected_files { IfErr result (λ stop. IfStopped stop (λ cause. S.contents store.new ≡ S.contents store.old)) }
    ensures calls { AreMade (ending result) (calls_of (ToVerilog net.now out.now)) (S.calls store.old) (S.calls store.new) }
    ensures counts { CountsFaults (IsErrOf result Stop.StoreFailed) (S.faults store.old) (S.faults store.new) }
    ensures failed_call { IsErrOf result Stop.StoreFailed →
        IsCall (ToVerilog net.now out.now) (S.contents store.old) (S.contents store.new) (S.last_fault store.new) }
    ensures memory_files { IsErrOf result Stop.NoMemory → S.contents store.new ≡ S.contents store.old }
    ensures others { SameBut out.now (S.contents store.old) (S.contents store.new) }
{
    let given = checked_net(alloc, net, store)?;
    let verilog = write_verilog(alloc, &given)?;
    write_file(alloc, store, out, verilog.as_slice())?;
    Ok(given.netlist().cells.len() as u64)
}

/// Reads a Verilog text and accepts its netlist, and writes the text of that. Gives how many cells it has.
pub fn to_netlist<S: Store>(
    alloc: Global,
    ver: &[u8],
    out: &[u8],
    store: &mut S,
) -> Result<u64, Stop>
    requires ver { IsFileName ver.now }
    requires out { IsFileName out.now }
    ensures done { IfOk result (IsDone (ToNetlist ver.now out.now) (S.contents store.old) (S.contents store.new)) }
    ensures rejected { IfErr result (λ stop. IfStopped stop (λ cause. IfSome (S.contents store.old) (λ files. IsVerilogCause (bytes_at files ver.now) cause))) }
    ensures kind { IfErr result (λ stop. IfStopped stop IsOfVerilog) }
    ensures rejected_files { IfErr result (λ stop. IfStopped stop (λ cause. S.contents store.new ≡ S.contents store.old)) }
    ensures calls { AreMade (ending result) (calls_of (ToNetlist ver.now out.now)) (S.calls store.old) (S.calls store.new) }
    ensures counts { CountsFaults (IsErrOf result Stop.StoreFailed) (S.faults store.old) (S.faults store.new) }
    ensures failed_call { IsErrOf result Stop.StoreFailed →
        IsCall (ToNetlist ver.now out.now) (S.contents store.old) (S.contents store.new) (S.last_fault store.new) }
    ensures memory_files { IsErrOf result Stop.NoMemory → S.contents store.new ≡ S.contents store.old }
    ensures others { SameBut out.now (S.contents store.old) (S.contents store.new) }
{
    let given = checked_verilog(alloc, ver, store)?;
    let circuit = given.netlist();
    let text = print_net(alloc, circuit)?;
    write_file(alloc, store, out, text.as_slice())?;
    Ok(circuit.cells.len() as u64)
}
