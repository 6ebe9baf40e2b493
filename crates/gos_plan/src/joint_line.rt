// The line of a joint: the end that asks, and the end that serves.
ghost use Rattle.std.specs.Prelude.{◌≡◌, false, IfOk, IfErr};
ghost use Rattle.std.specs.Char.{is_ascii_digit};
ghost use Rattle.gos_plan.specs.Seen.{end_of, joint_of};
ghost use Rattle.gos_plan.specs.TextItems.{Reads, Fails};
ghost use Rattle.gos_plan.specs.ObjectItems.{two_numbers, ended_end, joint_line};

use crate::fault::ObjectFault;
use crate::items::{LAST_NUMBER, number};
use crate::plan::{End, Joint};
use crate::word::{EndWord, end_word};
use gos_lex::Cursor;

/// Passes the line of a joint.
pub fn joint(cursor: &mut Cursor) -> Result<Joint, ObjectFault>
    ensures read { IfOk result (λ joint. Reads joint_line cursor.old cursor.new (joint_of joint)) }
    ensures wrong { IfErr result (Fails joint_line cursor.old.text cursor.old.at) }
{
    let asks = end(cursor, b' ')?;
    let serves = end(cursor, b'\n')?;
    Ok(Joint { asks, serves })
}

// Passes an end, and the byte that ends it.
fn end(cursor: &mut Cursor, last: u8) -> Result<End, ObjectFault>
    requires { is_ascii_digit last ≡ false }
    ensures read { IfOk result (λ end. Reads (ended_end last) cursor.old cursor.new (end_of end)) }
    ensures wrong { IfErr result (Fails (ended_end last) cursor.old.text cursor.old.at) }
{
    match end_word(cursor)? {
        EndWord::Part => {
            let (part, shake) = two(cursor, last)?;
            Ok(End::Part { part, shake })
        }
        EndWord::Import => {
            let (import, shake) = two(cursor, last)?;
            Ok(End::Import { import, shake })
        }
        EndWord::Result => {
            let shake = number(cursor, 0, LAST_NUMBER, last)?;
            Ok(End::Result {
                shake: shake as u32,
            })
        }
    }
}

// Passes two numbers, with a point between them, and the byte that ends them.
fn two(cursor: &mut Cursor, last: u8) -> Result<(u32, u32), ObjectFault>
    requires { is_ascii_digit last ≡ false }
    ensures read { IfOk result (λ v. Reads (two_numbers last) cursor.old cursor.new (v.0, v.1)) }
    ensures wrong { IfErr result (Fails (two_numbers last) cursor.old.text cursor.old.at) }
{
    let one = number(cursor, 0, LAST_NUMBER, b'.')?;
    let other = number(cursor, 0, LAST_NUMBER, last)?;
    Ok((one as u32, other as u32))
}
