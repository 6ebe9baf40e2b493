// The trace file and the moves are read.

ghost use Rattle.std.specs.Prelude.{◌≡◌, ◌≢◌, ◌≤◌, ◌∷◌, [], None, length, IfOk, IfErr, IfSome, IsErrOf};
ghost use Rattle.gos_outside.specs.FileName.{IsFileName};
ghost use Rattle.gos_outside.specs.Files.{bytes_at};
ghost use Rattle.gos_outside.specs.Faults.{CountsFaults, ReadFault};
ghost use Rattle.gos_outside.specs.Calls.{AreMade};
ghost use Rattle.gos_witness.specs.MovesText.{IsMovesText};
ghost use Rattle.gos_witness.specs.Ports.{AreOfPorts, ArePorts};
ghost use Rattle.gos_witness.specs.TraceText.{IsTraceText};
ghost use Rattle.gos_command.specs.Ends.{IfStopped, IsTold, ending};
ghost use Rattle.gos_command.specs.Lines.{fault_line};
ghost use Rattle.gos_command.specs.declared.status.Cause.TheVariants as causes;
ghost use Rattle.gos_tool.specs.Causes.{IsFileFault, OfMoves, StopsFor};
ghost use Rattle.gos_tool.specs.Calls.{read_explained};
ghost use Rattle.gos_tool.specs.explained.Texts.{SaysLabels, SaysLines, IsTextCause, too_long};
ghost use Rattle.gos_tool.specs.explained.inner.Reading.{IsLongFile};

use gos_command::{Cause, Stop, read_file, reject};
use gos_outside::Store;
use gos_witness::{ExplainFault, Label, Line, ProgramPort, read_labels, read_moves};
use std::alloc::Global;

/// The longest trace file, and the longest file of moves, in bytes.
const TEXT_LIMIT: usize = 268_435_456;

/// Reads the labels of a trace file. It is rejected where it is longer than the limit, or no trace of these ports.
pub fn labels_in<S: Store>(
    alloc: Global,
    trace: &[u8],
    ports: &[ProgramPort],
    store: &mut S,
) -> Result<Vec<Label>, Stop>
    requires trace { IsFileName trace.now }
    requires ports { ArePorts ports.now }
    ensures says { IfOk result (λ labels. IfSome (S.contents store.old) (λ files. SaysLabels ports.now (bytes_at files trace.now) labels.items)) }
    ensures of_ports { IfOk result (λ labels. AreOfPorts ports.now labels.items) }
    ensures rejected { IfErr result (λ stop. IfStopped stop (λ fault line. IfSome (S.contents store.old) (λ files.
        IsFileFault trace.now (IsTextCause (IsTraceText ports.now) (bytes_at files trace.now)) fault line))) }
    ensures told { IfErr result (λ stop. IfStopped stop IsTold) }
    ensures kind { IfErr result (StopsFor (OfMoves ∷ [])) }
    ensures calls { AreMade (ending result) (read_explained trace.now ∷ []) (S.calls store.old) (S.calls store.new) }
    ensures counts { CountsFaults (IsErrOf result Stop.StoreFailed) (S.faults store.old) (S.faults store.new) }
    ensures failed_call { IsErrOf result Stop.StoreFailed → S.last_fault store.new ≡ ReadFault trace.now }
    ensures same_files { S.contents store.new ≡ S.contents store.old }
{
    let text = text_in(alloc, trace, store)?;
    match read_labels(alloc, text.as_slice(), ports) {
        Ok(labels) => Ok(labels),
        Err(fault) => Err(reject(alloc, trace, Cause::Explain(fault), None)),
    }
}

/// Reads the lines of a file of moves. It is rejected where it is longer than the limit, or no text of moves.
pub fn lines_in<S: Store>(alloc: Global, moves: &[u8], store: &mut S) -> Result<Vec<Line>, Stop>
    requires { IsFileName moves.now }
    ensures says { IfOk result (λ lines. IfSome (S.contents store.old) (λ files. SaysLines (bytes_at files moves.now) lines.items)) }
    ensures rejected { IfErr result (λ stop. IfStopped stop (λ fault line. IfSome (S.contents store.old) (λ files.
        IsFileFault moves.now (IsTextCause IsMovesText (bytes_at files moves.now)) fault line))) }
    ensures told { IfErr result (λ stop. IfStopped stop IsTold) }
    ensures kind { IfErr result (StopsFor (OfMoves ∷ [])) }
    ensures calls { AreMade (ending result) (read_explained moves.now ∷ []) (S.calls store.old) (S.calls store.new) }
    ensures counts { CountsFaults (IsErrOf result Stop.StoreFailed) (S.faults store.old) (S.faults store.new) }
    ensures failed_call { IsErrOf result Stop.StoreFailed → S.last_fault store.new ≡ ReadFault moves.now }
    ensures same_files { S.contents store.new ≡ S.contents store.old }
{
    let text = text_in(alloc, moves, store)?;
    match read_moves(alloc, text.as_slice()) {
        Ok(lines) => Ok(lines),
        Err(fault) => Err(reject(alloc, moves, Cause::Explain(fault), None)),
    }
}

// Reads a file, which is rejected where it is longer than the limit.
fn text_in<S: Store>(alloc: Global, file: &[u8], store: &mut S) -> Result<Vec<u8>, Stop>
    requires { IsFileName file.now }
    ensures whole { IfOk result (λ text. IfSome (S.contents store.old) (λ files. bytes_at files file.now ≡ text.items)) }
    ensures short { IfOk result (λ text. length text.items ≤ 268435456) }
    ensures rejected { IfErr result (λ stop. IfStopped stop (λ fault line. IfSome (S.contents store.old) (λ files. IsLongFile files file.now fault line))) }
    ensures told { IfErr result (λ stop. IfStopped stop IsTold) }
    ensures kind { IfErr result (StopsFor (OfMoves ∷ [])) }
    ensures calls { AreMade (ending result) (read_explained file.now ∷ []) (S.calls store.old) (S.calls store.new) }
    ensures counts { CountsFaults (IsErrOf result Stop.StoreFailed) (S.faults store.old) (S.faults store.new) }
    ensures failed_call { IsErrOf result Stop.StoreFailed → S.last_fault store.new ≡ ReadFault file.now }
    ensures same_files { S.contents store.new ≡ S.contents store.old }
{
    let text = read_file(alloc, store, file, TEXT_LIMIT)?;
    if text.len() > TEXT_LIMIT {
        return Err(too_long(alloc, file));
    }
    Ok(text)
}

// That a file is longer than the limit.
fn too_long(alloc: Global, file: &[u8]) -> Stop
    requires { IsFileName file.now }
    ensures stopped { IfStopped result (λ fault line. (fault ≡ record { file = file.now; cause = causes.Explain too_long })
        × (line ≡ fault_line None fault)) }
    ensures told { IfStopped result IsTold }
    ensures kind { StopsFor (OfMoves ∷ []) result }
    ensures no_store { result ≢ Stop.StoreFailed }
{
    let fault = ExplainFault::Form { at: TEXT_LIMIT };
    reject(alloc, file, Cause::Explain(fault), None)
}
