// The trace file of a program is read, and lines that explain its labels are found and written.

ghost use Rattle.std.specs.Prelude.{◌≡◌, ◌∷◌, [], length, IfOk, IfErr, IfSome, IsErrOf};
ghost use Rattle.gos_outside.specs.FileName.{IsFileName};
ghost use Rattle.gos_outside.specs.Files.{SameBut, with_file};
ghost use Rattle.gos_outside.specs.Faults.{CountsFaults, WriteFault};
ghost use Rattle.gos_outside.specs.Calls.{Write, AreMade};
ghost use Rattle.gos_model.specs.Moves.{Trace};
ghost use Rattle.gos_witness.specs.Lines.{Explains};
ghost use Rattle.gos_witness.specs.MovesText.{AreLines, moves_text};
ghost use Rattle.gos_witness.specs.Ports.{AreOfPorts, labels_of};
ghost use Rattle.gos_witness.specs.Programs.{program_of};
ghost use Rattle.gos_command.specs.Ends.{IfStopped, IsTold, ending};
ghost use Rattle.gos_command.specs.declared.report.Report.TheVariants as reports;
ghost use Rattle.gos_command.specs.declared.stop.Stop.TheVariants as stops;
ghost use Rattle.gos_tool.specs.Causes.{IsFileFault, OfMoves, StopsFor, TellsExplained};
ghost use Rattle.gos_tool.specs.Calls.{found_calls};
ghost use Rattle.gos_tool.specs.explained.LinkedModules.{IsTypedProgram};
ghost use Rattle.gos_tool.specs.explained.Found.{AreFound, IsFindCause, RejectsTrace, HasLines, IsTraceCall};

use crate::explained::texts::labels_in;
use gos_command::{Cause, Report, Stop, reject, write_file};
use gos_outside::Store;
use gos_witness::{Label, Line, Program, explained_is_trace, find, print_moves};
use std::alloc::Global;

/// Reads a trace file, finds lines that explain its labels by the program, and writes their text into the file `moves`. The trace file is
/// rejected for its text, or where no lines are found.
pub fn find_moves<S: Store>(
    alloc: Global,
    trace: &[u8],
    moves: &[u8],
    program: &Program,
    store: &mut S,
) -> Result<Report, Stop>
    requires trace { IsFileName trace.now }
    requires moves { IsFileName moves.now }
    requires typed { IsTypedProgram program.now }
    ensures done { IfOk result (λ report. IfSome (S.contents store.old) (λ files.
        AreFound files (S.contents store.new) program.now.ports (program_of program.now) trace.now moves.now report)) }
    ensures rejected { IfErr result (λ stop. IfStopped stop (λ fault line. IfSome (S.contents store.old) (λ files.
        RejectsTrace files program.now.ports (program_of program.now) trace.now fault line))) }
    ensures rejected_files { IfErr result (λ stop. IfStopped stop (λ fault line. S.contents store.new ≡ S.contents store.old)) }
    ensures told { IfErr result (λ stop. IfStopped stop IsTold) }
    ensures tells { IfOk result TellsExplained }
    ensures kind { IfErr result (StopsFor (OfMoves ∷ [])) }
    ensures calls { AreMade (ending result) (found_calls trace.now moves.now) (S.calls store.old) (S.calls store.new) }
    ensures counts { CountsFaults (IsErrOf result Stop.StoreFailed) (S.faults store.old) (S.faults store.new) }
    ensures failed_call { IsErrOf result Stop.StoreFailed → IsTraceCall (S.contents store.old) (S.contents store.new) trace.now moves.now
        (IfSome (S.contents store.old) (λ files. HasLines files program.now.ports (program_of program.now) trace.now)) (S.last_fault store.new) }
    ensures memory_files { IsErrOf result Stop.NoMemory → S.contents store.new ≡ S.contents store.old }
    ensures others { SameBut moves.now (S.contents store.old) (S.contents store.new) }
{
    let read = labels_in(alloc, trace, program.ports(), store)?;
    let labels = read.as_slice();
    let lines = lines_for(alloc, trace, program, labels)?;
    write_moves(alloc, moves, lines.as_slice(), labels, store)
}

// Finds lines that explain the labels of the file `trace`, which is rejected where none are found.
fn lines_for(
    alloc: Global,
    trace: &[u8],
    program: &Program,
    labels: &[Label],
) -> Result<Vec<Line>, Stop>
    requires trace { IsFileName trace.now }
    requires labels { AreOfPorts program.now.ports labels.now }
    requires typed { IsTypedProgram program.now }
    ensures explained { IfOk result (λ lines. Explains (program_of program.now) (labels_of program.now.ports labels.now) lines.items) }
    ensures is_trace { IfOk result (λ _. Trace (program_of program.now) (labels_of program.now.ports labels.now)) }
    ensures rejected { IfErr result (λ stop. IfStopped stop (IsFileFault trace.now
        (IsFindCause (program_of program.now) (labels_of program.now.ports labels.now)))) }
    ensures told { IfErr result (λ stop. IfStopped stop IsTold) }
    ensures kind { IfErr result (StopsFor (OfMoves ∷ [])) }
    ensures no_store { IfErr result (λ stop. stop ≡ stops.StoreFailed → ⊥) }
{
    explained_is_trace();
    match find(alloc, program, labels) {
        Ok(lines) => Ok(lines),
        Err(fault) => Err(reject(alloc, trace, Cause::Explain(fault), None)),
    }
}

// Writes the text of lines into the file `moves`, and tells how many lines and labels there are.
fn write_moves<S: Store>(
    alloc: Global,
    moves: &[u8],
    lines: &[Line],
    labels: &[Label],
    store: &mut S,
) -> Result<Report, Stop>
    requires moves { IsFileName moves.now }
    ensures are { IfOk result (λ _. AreLines lines.now) }
    ensures wrote { IfOk result (λ _. S.contents store.new ≡ with_file moves.now (moves_text lines.now) (S.contents store.old)) }
    ensures tells { IfOk result (λ report. report ≡ reports.Explained (length lines.now) (length labels.now)) }
    ensures rejects_nothing { IfErr result (λ stop. IfStopped stop (λ fault line. ⊥)) }
    ensures calls { AreMade (ending result) (Write moves.now ∷ []) (S.calls store.old) (S.calls store.new) }
    ensures counts { CountsFaults (IsErrOf result Stop.StoreFailed) (S.faults store.old) (S.faults store.new) }
    ensures failed_call { IsErrOf result Stop.StoreFailed → S.last_fault store.new ≡ WriteFault moves.now }
    ensures memory_files { IsErrOf result Stop.NoMemory → S.contents store.new ≡ S.contents store.old }
    ensures others { SameBut moves.now (S.contents store.old) (S.contents store.new) }
{
    let text = print_moves(alloc, lines)?;
    write_file(alloc, store, moves, text.as_slice())?;
    Ok(Report::Explained {
        lines: lines.len() as u64,
        labels: labels.len() as u64,
    })
}
