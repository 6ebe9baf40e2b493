// The command `explain BUILD MOVES`.

ghost use Rattle.std.specs.Prelude.{◌≡◌, ◌∷◌, [], IfOk, IfErr, IfSome, IsErrOf};
ghost use Rattle.gos_outside.specs.FileName.{IsFileName};
ghost use Rattle.gos_outside.specs.Files.{SameBut};
ghost use Rattle.gos_outside.specs.Faults.{CountsFaults};
ghost use Rattle.gos_command.specs.Ends.{IfStopped, IsTold, ending};
ghost use Rattle.gos_tool.specs.Causes.{OfSource, OfBuild, OfMoves, StopsFor, TellsExplained};
ghost use Rattle.gos_tool.specs.Calls.{explain_calls, GoesByBuild};
ghost use Rattle.gos_tool.specs.explained.Found.{IsExplained, RejectsExplain, IsExplainCall};

use crate::circuits::build_in;
use crate::explained::finding::find_moves;
use crate::explained::linking::linked_in;
use gos_command::{Report, Stop};
use gos_outside::Store;
use std::alloc::Global;

/// Reads the build file `own`, the sources of its instances and its trace file, finds lines of moves that explain the labels of the trace
/// by the terms of the linked modules, and writes their text into the file `moves`.
///
/// The first file that is wrong is rejected: the build file for its form, then the sources in their order, then the build file for what it
/// links, where it names the file `moves`, and for the size of its program, then the trace file for its text and for its labels.
pub fn explain_moves<S: Store>(
    alloc: Global,
    own: &[u8],
    moves: &[u8],
    store: &mut S,
) -> Result<Report, Stop>
    requires own { IsFileName own.now }
    requires moves { IsFileName moves.now }
    ensures done { IfOk result (λ report. IfSome (S.contents store.old) (λ files.
        IsExplained files (S.contents store.new) own.now moves.now report)) }
    ensures rejected { IfErr result (λ stop. IfStopped stop (λ fault line.
        IfSome (S.contents store.old) (λ files. RejectsExplain files own.now moves.now fault line))) }
    ensures rejected_files { IfErr result (λ stop. IfStopped stop (λ fault line. S.contents store.new ≡ S.contents store.old)) }
    ensures told { IfErr result (λ stop. IfStopped stop IsTold) }
    ensures tells { IfOk result TellsExplained }
    ensures kind { IfErr result (StopsFor (OfSource ∷ OfBuild ∷ OfMoves ∷ [])) }
    ensures calls { GoesByBuild (ending result) [] (S.contents store.old) own.now (explain_calls moves.now) (S.calls store.old) (S.calls store.new) }

    // The store is blamed only for a call that failed, and that the command makes then.
    ensures counts { CountsFaults (IsErrOf result Stop.StoreFailed) (S.faults store.old) (S.faults store.new) }
    ensures failed_call { IsErrOf result Stop.StoreFailed →
        IsExplainCall (S.contents store.old) (S.contents store.new) own.now moves.now (S.last_fault store.new) }
    ensures memory_files { IsErrOf result Stop.NoMemory → S.contents store.new ≡ S.contents store.old }
    ensures others { SameBut moves.now (S.contents store.old) (S.contents store.new) }
{
    let build = build_in(alloc, own, store)?;
    let program = linked_in(alloc, own, &build, Some(moves), store)?;
    find_moves(alloc, build.trace.bytes(), moves, &program, store)
}
