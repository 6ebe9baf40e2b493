// A type in prefix order. A limit is exceeded at a word with which the type has more than 64 handshakes, so that no type
// is nested deeper than that.
ghost use Rattle.std.specs.Prelude.{◌≡◌, ◌+◌, ◌<◌, ◌≤◌, false, IfOk, IfErr};
ghost use Rattle.std.specs.Char.{is_ascii_digit};
ghost use Rattle.gos_types.specs.Types.{type_of};
ghost use Rattle.gos_plan.specs.TextItems.{Reads, Fails};
ghost use Rattle.gos_plan.specs.ObjectItems.{shakes, least, type_word, typed, forks, sized_by, type_operands};

use crate::fault::ObjectFault;
use crate::format::Format;
use crate::items::{exact, width_in};
use crate::word::{TypeWord, type_letters};
use gos_lex::Cursor;
use gos_types::{Ty, count};
use std::alloc::Global;

// The most handshakes of a type.
const MOST_SHAKES: u32 = 64;

/// Passes a type and the byte that ends it. The words before it have so many handshakes, counted with one for each operand
/// that comes behind it.
#[cycle(ty)]
pub fn ty(
    alloc: Global,
    cursor: &mut Cursor,
    format: Format,
    end: u8,
    before: u32,
) -> Result<Ty, ObjectFault>
    requires room { before < 64 }
    requires no_digit { is_ascii_digit end ≡ false }
    ensures read { IfOk result (λ t. Reads (typed format end before) cursor.old cursor.new (type_of t)) }
    ensures wrong { IfErr result (Fails (typed format end before) cursor.old.text cursor.old.at) }
{
    let word = type_word(cursor, before)?;
    operands(alloc, cursor, format, word, end, before)
}

// Passes the word of a type.
fn type_word(cursor: &mut Cursor, before: u32) -> Result<TypeWord, ObjectFault>
    requires { before < 64 }
    ensures read { IfOk result (Reads (type_word before) cursor.old cursor.new) }
    ensures wrong { IfErr result (Fails (type_word before) cursor.old.text cursor.old.at) }
{
    let at = cursor.at();
    let word = type_letters(cursor)?;
    if before + least(word) > MOST_SHAKES {
        Err(ObjectFault::Limit { at })
    } else {
        Ok(word)
    }
}

// The handshakes of a type's last word, or one for each operand of another one.
fn least(word: TypeWord) -> u32
    ensures is { result ≡ least word }
    ensures few { result ≤ 2 }
{
    match word {
        TypeWord::Com | TypeWord::Exp => 1,
        TypeWord::Var | TypeWord::Pair | TypeWord::Fun => 2,
    }
}

// Passes what stands behind the word of a type.
#[cycle(ty)]
fn operands(
    alloc: Global,
    cursor: &mut Cursor,
    format: Format,
    word: TypeWord,
    end: u8,
    before: u32,
) -> Result<Ty, ObjectFault>
    requires room { before + least word ≤ 64 }
    requires no_digit { is_ascii_digit end ≡ false }
    ensures read { IfOk result (λ t. Reads (type_operands format end before word) cursor.old cursor.new (type_of t)) }
    ensures wrong { IfErr result (Fails (type_operands format end before word) cursor.old.text cursor.old.at) }
{
    match word {
        TypeWord::Com => {
            exact(cursor, &[end])?;
            Ok(Ty::Com)
        }
        TypeWord::Exp => {
            let w = width(cursor, format, end)?;
            Ok(Ty::Exp(w))
        }
        TypeWord::Var => {
            let w = width(cursor, format, end)?;
            Ok(Ty::Var(w))
        }
        TypeWord::Pair => {
            let (a, b) = fork(alloc, cursor, format, end, before)?;
            Ok(Ty::Pair(Box::new(alloc, a)?, Box::new(alloc, b)?))
        }
        TypeWord::Fun => {
            let (a, b) = fork(alloc, cursor, format, end, before)?;
            Ok(Ty::Fun(Box::new(alloc, a)?, Box::new(alloc, b)?))
        }
    }
}

// Passes a space, a width, and the byte that ends it.
fn width(cursor: &mut Cursor, format: Format, end: u8) -> Result<u32, ObjectFault>
    requires { is_ascii_digit end ≡ false }
    ensures read { IfOk result (λ w. Reads (sized_by format end) cursor.old cursor.new (tt, w)) }
    ensures wrong { IfErr result (Fails (sized_by format end) cursor.old.text cursor.old.at) }
{
    exact(cursor, b" ")?;
    let w = width_in(cursor, format, end)?;
    Ok(w)
}

// Passes a space and two types.
#[cycle(ty)]
fn fork(
    alloc: Global,
    cursor: &mut Cursor,
    format: Format,
    end: u8,
    before: u32,
) -> Result<(Ty, Ty), ObjectFault>
    requires room { before + 2 ≤ 64 }
    requires no_digit { is_ascii_digit end ≡ false }
    ensures read { IfOk result (λ two. Reads (forks format end before) cursor.old cursor.new (tt, (type_of two.0, type_of two.1))) }
    ensures wrong { IfErr result (Fails (forks format end before) cursor.old.text cursor.old.at) }
{
    exact(cursor, b" ")?;
    let a = ty(alloc, cursor, format, b' ', before + 1)?;
    let b = ty(alloc, cursor, format, end, behind(before, &a))?;
    Ok((a, b))
}

// How many handshakes stand before a second operand, behind a first one.
#[tactic(auto, using(crate::proofs::TypeLemmas::size_le, crate::proofs::TypeLemmas::shakes_some))]
fn behind(before: u32, first: &Ty) -> u32
    requires { before + 1 + shakes (type_of first.now) ≤ 64 }
    ensures is { result ≡ before + shakes (type_of first.now) }
    ensures more { before < result }
    ensures room { result < 64 }
{
    before + count(first) as u32
}
