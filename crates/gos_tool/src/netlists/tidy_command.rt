// The command `tidy NET OUT`.

ghost use Rattle.std.specs.Prelude.{◌≡◌, ◌∷◌, [], IfOk, IfErr, IfSome, IsErrOf};
ghost use Rattle.gos_outside.specs.FileName.{IsFileName};
ghost use Rattle.gos_outside.specs.Files.{SameBut, with_file};
ghost use Rattle.gos_outside.specs.Faults.{CountsFaults, WriteFault};
ghost use Rattle.gos_outside.specs.Calls.{Write, AreMade};
ghost use Rattle.gos_netlist.specs.NetText.{text_of};
ghost use Rattle.gos_command.specs.Ends.{IfStopped, IsTold, ending};
ghost use Rattle.gos_tool.specs.Causes.{OfNetlist, StopsFor, TellsCells};
ghost use Rattle.gos_tool.specs.Calls.{rewrite_calls};
ghost use Rattle.gos_tool.specs.netlists.Netlist.{IsNetFault};
ghost use Rattle.gos_tool.specs.netlists.Tidy.{IsTidyDone, IsTidyCall};

use crate::netlists::reading::checked_net;
use gos_command::{Report, Stop, write_file};
use gos_netlist::{Netlist, print_net};
use gos_outside::Store;
use gos_tidy::tidy;
use std::alloc::Global;

/// Reads the netlist and accepts it, makes it tidy and writes the text of what is left.
pub fn tidy_net<S: Store>(
    alloc: Global,
    net: &[u8],
    out: &[u8],
    store: &mut S,
) -> Result<Report, Stop>
    requires net { IsFileName net.now }
    requires out { IsFileName out.now }
    ensures done { IfOk result (IsTidyDone (S.contents store.old) (S.contents store.new) net.now out.now) }
    ensures rejected { IfErr result (λ stop. IfStopped stop (λ fault line. IfSome (S.contents store.old) (λ files. IsNetFault files net.now fault line))) }
    ensures told { IfErr result (λ stop. IfStopped stop IsTold) }
    ensures file { IfErr result (λ stop. IfStopped stop (λ fault line. fault.file ≡ net.now)) }
    ensures rejected_files { IfErr result (λ stop. IfStopped stop (λ fault line. S.contents store.new ≡ S.contents store.old)) }
    ensures tells { IfOk result TellsCells }
    ensures kind { IfErr result (StopsFor (OfNetlist ∷ [])) }
    ensures calls { AreMade (ending result) (rewrite_calls net.now out.now) (S.calls store.old) (S.calls store.new) }
    ensures counts { CountsFaults (IsErrOf result Stop.StoreFailed) (S.faults store.old) (S.faults store.new) }
    ensures failed_call { IsErrOf result Stop.StoreFailed →
        IsTidyCall (S.contents store.old) (S.contents store.new) net.now out.now (S.last_fault store.new) }
    ensures memory_files { IsErrOf result Stop.NoMemory → S.contents store.new ≡ S.contents store.old }
    ensures others { SameBut out.now (S.contents store.old) (S.contents store.new) }
{
    let given = checked_net(alloc, net, store)?;
    let before = given.netlist().cells.len() as u64;
    let Ok(tidied) = tidy(alloc, given) else {
        return Err(Stop::NoMemory);
    };
    write_net(alloc, tidied.netlist(), out, store)?;
    Ok(Report::Cells {
        before,
        after: tidied.netlist().cells.len() as u64,
    })
}

// Writes the text of a netlist.
fn write_net<S: Store>(alloc: Global, net: &Netlist, out: &[u8], store: &mut S) -> Result<(), Stop>
    requires out { IsFileName out.now }
    ensures wrote { IfOk result (λ _. S.contents store.new ≡ with_file out.now (text_of net.now) (S.contents store.old)) }
    ensures rejects_nothing { IfErr result (λ stop. IfStopped stop (λ fault line. ⊥)) }
    ensures calls { AreMade (ending result) (Write out.now ∷ []) (S.calls store.old) (S.calls store.new) }
    ensures counts { CountsFaults (IsErrOf result Stop.StoreFailed) (S.faults store.old) (S.faults store.new) }
    ensures failed_call { IsErrOf result Stop.StoreFailed → S.last_fault store.new ≡ WriteFault out.now }
    ensures memory_files { IsErrOf result Stop.NoMemory → S.contents store.new ≡ S.contents store.old }
    ensures others { SameBut out.now (S.contents store.old) (S.contents store.new) }
{
    let text = print_net(alloc, net)?;
    write_file(alloc, store, out, text.as_slice())
}
