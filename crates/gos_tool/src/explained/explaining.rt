// The trace file and the moves of a program are read, and the moves are made again.

ghost use Rattle.std.specs.Prelude.{◌≡◌, ◌∷◌, [], length, IfOk, IfErr, IfSome, IsErrOf};
ghost use Rattle.gos_outside.specs.FileName.{IsFileName};
ghost use Rattle.gos_outside.specs.Faults.{CountsFaults};
ghost use Rattle.gos_outside.specs.Calls.{AreMade};
ghost use Rattle.gos_model.specs.Moves.{Trace};
ghost use Rattle.gos_witness.specs.Lines.{Explains};
ghost use Rattle.gos_witness.specs.Ports.{AreOfPorts, labels_of};
ghost use Rattle.gos_witness.specs.Programs.{program_of};
ghost use Rattle.gos_command.specs.Ends.{IfStopped, IsTold, ending};
ghost use Rattle.gos_command.specs.declared.report.Report.TheVariants as reports;
ghost use Rattle.gos_command.specs.declared.stop.Stop.TheVariants as stops;
ghost use Rattle.gos_tool.specs.Causes.{IsFileFault, OfMoves, StopsFor, TellsExplained};
ghost use Rattle.gos_tool.specs.Calls.{explained_calls};
ghost use Rattle.gos_tool.specs.explained.Explained.{AreExplained, IsLinesCause, RejectsTexts, HasTraceLabels, IsTextsCall};

use crate::explained::texts::{labels_in, lines_in};
use gos_command::{Cause, Report, Stop, reject};
use gos_outside::Store;
use gos_witness::{Label, Line, Program, explained_is_trace, verify};
use std::alloc::Global;

/// Reads a trace file and a file of moves, and makes the moves again by the program. The first file that is wrong is rejected: the trace
/// file for its text, then the moves for theirs, and then for what they say.
pub fn explain_files<S: Store>(
    alloc: Global,
    trace: &[u8],
    moves: &[u8],
    program: &Program,
    store: &mut S,
) -> Result<Report, Stop>
    requires trace { IsFileName trace.now }
    requires moves { IsFileName moves.now }
    ensures done { IfOk result (λ report. IfSome (S.contents store.old) (λ files.
        AreExplained files program.now.ports (program_of program.now) trace.now moves.now report)) }
    ensures rejected { IfErr result (λ stop. IfStopped stop (λ fault line. IfSome (S.contents store.old) (λ files.
        RejectsTexts files program.now.ports (program_of program.now) trace.now moves.now fault line))) }
    ensures told { IfErr result (λ stop. IfStopped stop IsTold) }
    ensures tells { IfOk result TellsExplained }
    ensures kind { IfErr result (StopsFor (OfMoves ∷ [])) }
    ensures calls { AreMade (ending result) (explained_calls trace.now moves.now) (S.calls store.old) (S.calls store.new) }
    ensures counts { CountsFaults (IsErrOf result Stop.StoreFailed) (S.faults store.old) (S.faults store.new) }
    ensures failed_call { IsErrOf result Stop.StoreFailed → IsTextsCall trace.now moves.now
        (IfSome (S.contents store.old) (λ files. HasTraceLabels files program.now.ports trace.now)) (S.last_fault store.new) }
    ensures same_files { S.contents store.new ≡ S.contents store.old }
{
    let labels = labels_in(alloc, trace, program.ports(), store)?;
    let lines = lines_in(alloc, moves, store)?;
    explain(alloc, moves, program, labels.as_slice(), lines.as_slice())
}

// Makes the lines of the file `moves` again, which is rejected where they don't explain the labels.
fn explain(
    alloc: Global,
    moves: &[u8],
    program: &Program,
    labels: &[Label],
    lines: &[Line],
) -> Result<Report, Stop>
    requires moves { IsFileName moves.now }
    requires labels { AreOfPorts program.now.ports labels.now }
    ensures explained { IfOk result (λ _. Explains (program_of program.now) (labels_of program.now.ports labels.now) lines.now) }
    ensures is_trace { IfOk result (λ _. Trace (program_of program.now) (labels_of program.now.ports labels.now)) }
    ensures tells { IfOk result (λ report. report ≡ reports.Explained (length lines.now) (length labels.now)) }
    ensures rejected { IfErr result (λ stop. IfStopped stop (IsFileFault moves.now
        (IsLinesCause (program_of program.now) (labels_of program.now.ports labels.now) lines.now))) }
    ensures told { IfErr result (λ stop. IfStopped stop IsTold) }
    ensures kind { IfErr result (StopsFor (OfMoves ∷ [])) }
    ensures no_store { IfErr result (λ stop. stop ≡ stops.StoreFailed → ⊥) }
{
    explained_is_trace();
    match verify(alloc, program, labels, lines) {
        Ok(()) => Ok(Report::Explained {
            lines: lines.len() as u64,
            labels: labels.len() as u64,
        }),
        Err(fault) => Err(reject(alloc, moves, Cause::Explain(fault), None)),
    }
}
