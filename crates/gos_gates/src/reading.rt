// Reading a circuit from its text.
ghost use Rattle.std.specs.Prelude.{◌+◌, ◌≤◌, length, IfOk, IfErr};
ghost use Rattle.gos_gates.specs.AagFaults.{IsRead, HasFault};
ghost use Rattle.gos_gates.specs.inner.Shapes.{End, Leads, BreaksOff, lines_shape};

use crate::aig::Aig;
use crate::fault::AagFault;
use crate::header::{Header, first_line};
use crate::sections::{gates, inputs, latches, outputs};
use gos_lex::Cursor;
use std::alloc::Global;

/// The circuit that this text is the text of. `print_aag` is the way back. There is no limit on the text.
pub fn read_aag(alloc: Global, text: &[u8]) -> Result<Aig, AagFault>
    ensures read { IfOk result (IsRead text.now) }
    ensures fault { IfErr result (HasFault text.now) }
{
    let mut cursor = Cursor::new(text);
    let header = match first_line(&mut cursor) {
        Ok(header) => header,
        Err(at) => return Err(AagFault::Form { at }),
    };
    let aig = lines(alloc, &mut cursor, header)?;
    let at = cursor.at();
    if cursor.finished() {
        Ok(aig)
    } else {
        Err(AagFault::Form { at })
    }
}

// Passes all lines behind the first one.
fn lines(alloc: Global, cursor: &mut Cursor, header: Header) -> Result<Aig, AagFault>
    requires sources { header.inputs + header.latches ≤ header.variables }
    requires few { header.variables ≤ 2147483647 }
    requires within { cursor.now.at ≤ length cursor.now.text }
    ensures passed { IfOk result (λ a. Leads cursor.old cursor.new (lines_shape header) (End a)) }
    ensures wrong { IfErr result (BreaksOff (lines_shape header) cursor.old) }
{
    inputs(cursor, header)?;
    let latches = latches(alloc, cursor, header)?;
    let outputs = outputs(alloc, cursor, header)?;
    let gates = gates(alloc, cursor, header)?;
    Ok(Aig {
        inputs: header.inputs,
        latches,
        outputs,
        gates,
    })
}
