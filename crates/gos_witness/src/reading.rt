// Reading a list of moves from its text.
ghost use Rattle.std.specs.Prelude.{IfOk, IfErr, [], List, ℕ};
ghost use Rattle.gos_witness.specs.declared.moves.Line as seen;
ghost use Rattle.gos_witness.specs.MovesText.{IsMovesText, IsMovesTextOf};
ghost use Rattle.gos_witness.specs.TextFaults.{IsFormFault};
ghost use Rattle.gos_witness.specs.inner.Left.{End, Leads, Breaks};
ghost use Rattle.gos_witness.specs.inner.Parts.{BreaksOff, WholeLeft, LinesLeft};

use crate::fault::ExplainFault;
use crate::move_line::lines;
use crate::moves::Line;
use gos_lex::Cursor;
use std::alloc::Global;

/// The lines whose text this is. `print_moves` is the way back. There is no limit on the text.
pub fn read_moves(alloc: Global, text: &[u8]) -> Result<Vec<Line>, ExplainFault>
    ensures read { IfOk result (λ lines. IsMovesTextOf text.now lines.items) }
    ensures fault { IfErr result (IsFormFault IsMovesText text.now) }
{
    let mut cursor = Cursor::new(text);
    let count = match head(&mut cursor) {
        Ok(count) => count,
        Err(at) => return Err(ExplainFault::Form { at }),
    };
    let lines = lines(alloc, &mut cursor, count)?;
    match cursor.word(b"end\n") {
        Ok(()) => {}
        Err(at) => return Err(ExplainFault::Form { at }),
    }
    let at = cursor.at();
    if cursor.finished() {
        Ok(lines)
    } else {
        Err(ExplainFault::Form { at })
    }
}

// Passes the first line and the count of the others.
fn head(cursor: &mut Cursor) -> Result<u64, usize>
    ensures passed { IfOk result (λ count. Leads (List seen.Line) WholeLeft (LinesLeft count []) cursor.old cursor.new) }
    ensures wrong { IfErr result (Breaks (List seen.Line) WholeLeft cursor.old) }
{
    cursor.word(b"gosmoves 1\nlines ")?;
    let count = cursor.ended_number(0, u64::MAX, b'\n')?;
    Ok(count)
}
