// The items that lines are made of: fixed bytes, numbers with the byte that ends them, and names.
ghost use Rattle.std.specs.Prelude.{◌≡◌, ◌<◌, ◌≤◌, false, IfOk, IfErr};
ghost use Rattle.std.specs.Char.{is_ascii_digit};
ghost use Rattle.gos_types.specs.Widths.{IsWidth};
ghost use Rattle.gos_plan.specs.Formats.{greatest};
ghost use Rattle.gos_plan.specs.TextItems.{Reads, Fails, exactly, number_in, any_name};

use crate::fault::ObjectFault;
use crate::format::Format;
use gos_lex::{Cursor, Name};
use std::alloc::Global;

/// The greatest number of a part, an import or a handshake, and the greatest count.
pub const LAST_NUMBER: u64 = 4_294_967_295;

/// Passes exactly these bytes.
pub fn exact(cursor: &mut Cursor, bytes: &[u8]) -> Result<(), ObjectFault>
    ensures read { IfOk result (λ _. Reads (exactly bytes.now) cursor.old cursor.new tt) }
    ensures wrong { IfErr result (Fails (exactly bytes.now) cursor.old.text cursor.old.at) }
{
    match cursor.word(bytes) {
        Ok(()) => Ok(()),
        Err(at) => Err(ObjectFault::Form { at }),
    }
}

/// Passes a number of the range, and the byte that ends it.
pub fn number(cursor: &mut Cursor, low: u64, high: u64, end: u8) -> Result<u64, ObjectFault>
    requires range { low ≤ high }
    requires no_digit { is_ascii_digit end ≡ false }
    ensures read { IfOk result (Reads (number_in low high end) cursor.old cursor.new) }
    ensures wrong { IfErr result (Fails (number_in low high end) cursor.old.text cursor.old.at) }
{
    match cursor.ended_number(low, high, end) {
        Ok(n) => Ok(n),
        Err(at) => Err(ObjectFault::Form { at }),
    }
}

/// Passes a width of this format, and the byte that ends it.
pub fn width_in(cursor: &mut Cursor, format: Format, end: u8) -> Result<u32, ObjectFault>
    requires { is_ascii_digit end ≡ false }
    ensures read { IfOk result (λ w. Reads (number_in 1 (greatest format) end) cursor.old cursor.new w) }
    ensures width { IfOk result (λ w. IsWidth w) }
    ensures wrong { IfErr result (Fails (number_in 1 (greatest format) end) cursor.old.text cursor.old.at) }
{
    let w = number(cursor, 1, format.greatest(), end)?;
    Ok(w as u32)
}

/// Passes a name of this text, whose cursor it is, and the space behind it.
pub fn name(alloc: Global, text: &[u8], cursor: &mut Cursor) -> Result<Name, ObjectFault>
    requires { cursor.now.text ≡ text.now }
    ensures read { IfOk result (Reads any_name cursor.old cursor.new) }
    ensures wrong { IfErr result (Fails any_name cursor.old.text cursor.old.at) }
{
    let span = match cursor.name() {
        Ok(span) => span,
        Err(at) => return Err(ObjectFault::Form { at }),
    };
    match cursor.word(b" ") {
        Ok(()) => match Name::new(alloc, &text[span.from..span.to]) {
            Ok(name) => Ok(name),
            Err(_) => Err(ObjectFault::NoMemory),
        },
        Err(at) => Err(ObjectFault::Form { at }),
    }
}
