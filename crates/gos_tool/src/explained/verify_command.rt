// The command `verify BUILD MOVES`.

ghost use Rattle.std.specs.Prelude.{◌≡◌, ◌∷◌, [], IfOk, IfErr, IfSome, IsErrOf};
ghost use Rattle.gos_outside.specs.FileName.{IsFileName};
ghost use Rattle.gos_outside.specs.Faults.{CountsFaults};
ghost use Rattle.gos_command.specs.Ends.{IfStopped, IsTold, ending};
ghost use Rattle.gos_tool.specs.Causes.{OfSource, OfBuild, OfMoves, StopsFor, TellsExplained};
ghost use Rattle.gos_tool.specs.Calls.{verify_calls, GoesByBuild};
ghost use Rattle.gos_tool.specs.explained.Verified.{IsVerified, RejectsVerify, IsVerifyCall};

use crate::circuits::build_in;
use crate::explained::explaining::explain_files;
use crate::explained::linking::linked_in;
use gos_command::{Report, Stop};
use gos_outside::Store;
use std::alloc::Global;

/// Reads the build file `own`, the sources of its instances, its trace file and the file of moves, and makes the moves again by the terms
/// of the linked modules: so the labels of the trace file are a trace of their program.
///
/// The first file that is wrong is rejected: the build file for its form, then the sources in their order, then the build file for what it
/// links and for the size of its program, then the trace file and the moves for their texts, then the moves for what they say.
pub fn verify_moves<S: Store>(
    alloc: Global,
    own: &[u8],
    moves: &[u8],
    store: &mut S,
) -> Result<Report, Stop>
    requires own { IsFileName own.now }
    requires moves { IsFileName moves.now }
    ensures done { IfOk result (λ report. IfSome (S.contents store.old) (λ files. IsVerified files own.now moves.now report)) }
    ensures rejected { IfErr result (λ stop. IfStopped stop (λ fault line.
        IfSome (S.contents store.old) (λ files. RejectsVerify files own.now moves.now fault line))) }
    ensures told { IfErr result (λ stop. IfStopped stop IsTold) }
    ensures tells { IfOk result TellsExplained }
    ensures kind { IfErr result (StopsFor (OfSource ∷ OfBuild ∷ OfMoves ∷ [])) }
    ensures calls { GoesByBuild (ending result) [] (S.contents store.old) own.now (verify_calls moves.now) (S.calls store.old) (S.calls store.new) }

    // The store is blamed only for a call that failed, and that the command makes then. Nothing is written.
    ensures counts { CountsFaults (IsErrOf result Stop.StoreFailed) (S.faults store.old) (S.faults store.new) }
    ensures failed_call { IsErrOf result Stop.StoreFailed →
        IsVerifyCall (S.contents store.old) own.now moves.now (S.last_fault store.new) }
    ensures same_files { S.contents store.new ≡ S.contents store.old }
{
    let build = build_in(alloc, own, store)?;
    let program = linked_in(alloc, own, &build, None, store)?;
    explain_files(alloc, build.trace.bytes(), moves, &program, store)
}
