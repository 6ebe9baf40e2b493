// The first line of a circuit's text: how much of each kind follows.
ghost use Rattle.std.specs.Prelude.{◌+◌, ◌≤◌, IfOk, IfErr};
ghost use Rattle.gos_gates.specs.inner.Shapes.{Leads, Breaks, whole_shape, lines_shape};

use crate::item::{exactly, number, word};
use gos_lex::Cursor;

/// The counts of a first line. The variables are the inputs, the latches and the gates together.
#[derive(Debug, Clone, Copy)]
pub struct Header {
    /// At most 2,147,483,647.
    pub variables: u32,
    pub inputs: u32,
    pub latches: u32,
    pub outputs: u32,
}

/// Passes the first line. `Err` is the place of the first byte that can't go on as one, or the end of the text.
pub fn first_line(cursor: &mut Cursor) -> Result<Header, usize>
    ensures sources { IfOk result (λ h. h.inputs + h.latches ≤ h.variables) }
    ensures variables { IfOk result (λ h. h.variables ≤ 2147483647) }
    ensures passed { IfOk result (λ h. Leads cursor.old cursor.new whole_shape (lines_shape h)) }
    ensures wrong { IfErr result (Breaks whole_shape cursor.old) }
{
    word(cursor, b"aag ")?;
    let variables = number(cursor, 2_147_483_647, b' ')?;
    let inputs = number(cursor, variables, b' ')?;
    let latches = number(cursor, variables - inputs, b' ')?;
    let outputs = number(cursor, 4_294_967_295, b' ')?;
    exactly(cursor, variables - inputs - latches, b'\n')?;
    Ok(Header {
        variables,
        inputs,
        latches,
        outputs,
    })
}
