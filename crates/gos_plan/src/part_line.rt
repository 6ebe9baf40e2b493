// The line of a part: its word, and the numbers or the type behind it.
ghost use Rattle.std.specs.Prelude.{◌≡◌, ◌≤◌, IfOk, IfErr, length};
ghost use Rattle.gos_types.specs.declared.widths.TheConstants.{GREATEST_WIDTH};
ghost use Rattle.gos_plan.specs.Seen.{part_of};
ghost use Rattle.gos_plan.specs.Ranges.{IsInRange};
ghost use Rattle.gos_types.specs.Widths.{IsWidth};
ghost use Rattle.gos_plan.specs.TextItems.{Reads, Fails, both};
ghost use Rattle.gos_plan.specs.ObjectItems.{bare_part, sized_part, body, literal_numbers, local_numbers, array_length, length_of_word, array_numbers, IsWordIn, part_operands, part_line};

use crate::fault::ObjectFault;
use crate::format::Format;
use crate::items::{number, width_in};
use crate::kinds::Kind;
use crate::types::ty;
use crate::word::{
    BareWord, BodyWord, LengthWord, PartWord, SizedWord, body_word, length_word, part_word,
};
use gos_lex::Cursor;
use gos_types::greatest;
use std::alloc::Global;

/// Passes the line of a part.
pub fn part(alloc: Global, cursor: &mut Cursor, format: Format) -> Result<Kind, ObjectFault>
    ensures in_range { IfOk result IsInRange }
    ensures read { IfOk result (λ kind. Reads (part_line format) cursor.old cursor.new (part_of kind)) }
    ensures wrong { IfErr result (Fails (part_line format) cursor.old.text cursor.old.at) }
{
    let word = part_word(cursor, format)?;
    operands(alloc, cursor, format, word)
}

// Passes what stands behind the word of a part.
fn operands(
    alloc: Global,
    cursor: &mut Cursor,
    format: Format,
    word: PartWord,
) -> Result<Kind, ObjectFault>
    requires within { cursor.now.at ≤ length cursor.now.text }
    requires word { IsWordIn format word }
    ensures in_range { IfOk result IsInRange }
    ensures read { IfOk result (λ kind. Reads (part_operands format word) cursor.old cursor.new (part_of kind)) }
    ensures wrong { IfErr result (Fails (part_operands format word) cursor.old.text cursor.old.at) }
{
    match word {
        PartWord::Bare(word) => Ok(bare(word)),
        PartWord::Sized(word) => {
            let w = width_in(cursor, format, b'\n')?;
            Ok(sized(word, w))
        }
        PartWord::Lit => {
            let (w, k) = literal(cursor, format)?;
            Ok(Kind::Lit { w, k })
        }
        PartWord::Local => {
            let (w, v) = local(cursor, format)?;
            Ok(Kind::Local { w, v })
        }
        PartWord::Array => {
            let (w, n, v) = array(cursor, format)?;
            Ok(Kind::Array { w, n, v })
        }
        PartWord::Share => {
            let source = ty(alloc, cursor, format, b'\n', 0)?;
            Ok(Kind::Share(source))
        }
    }
}

// The part whose line is this word.
fn bare(word: BareWord) -> Kind
    ensures is { part_of result ≡ bare_part word }
    ensures in_range { IsInRange result }
{
    match word {
        BareWord::Skip => Kind::Skip,
        BareWord::Seq => Kind::Seq,
        BareWord::Par => Kind::Par,
        BareWord::If => Kind::If,
        BareWord::While => Kind::While,
    }
}

// The part with this word and this width.
fn sized(word: SizedWord, w: u32) -> Kind
    requires { IsWidth w }
    ensures is { part_of result ≡ sized_part word w }
    ensures in_range { IsInRange result }
{
    match word {
        SizedWord::SeqExp => Kind::SeqExp { w },
        SizedWord::IfExp => Kind::IfExp { w },
        SizedWord::Op(op) => Kind::Op { op, w },
        SizedWord::Not => Kind::Not { w },
        SizedWord::Assign => Kind::Assign { w },
        SizedWord::Deref => Kind::Deref { w },
    }
}

// Passes the width and the value of a literal.
fn literal(cursor: &mut Cursor, format: Format) -> Result<(u32, u64), ObjectFault>
    ensures width { IfOk result (λ v. IsWidth v.0) }
    ensures read { IfOk result (λ v. Reads (literal_numbers format) cursor.old cursor.new (v.0, v.1)) }
    ensures wrong { IfErr result (Fails (literal_numbers format) cursor.old.text cursor.old.at) }
{
    let w = width_in(cursor, format, b' ')?;
    let k = number(cursor, 0, greatest(w), b'\n')?;
    Ok((w, k))
}

// Passes the width of a Local, and the bits of what it runs.
fn local(cursor: &mut Cursor, format: Format) -> Result<(u32, u32), ObjectFault>
    ensures widths { IfOk result (λ v. IsWidth v.0 × (v.1 ≤ GREATEST_WIDTH)) }
    ensures read { IfOk result (λ v. Reads (local_numbers format) cursor.old cursor.new (v.0, v.1)) }
    ensures wrong { IfErr result (Fails (local_numbers format) cursor.old.text cursor.old.at) }
{
    let w = width_in(cursor, format, b' ')?;
    let v = run_bits(cursor, format)?;
    Ok((w, v))
}

// Passes the width of an Array, its length, and the bits of what it runs.
fn array(cursor: &mut Cursor, format: Format) -> Result<(u32, u32, u32), ObjectFault>
    ensures widths { IfOk result (λ v. IsWidth v.0 × (v.2 ≤ GREATEST_WIDTH)) }
    ensures read { IfOk result (λ v. Reads (array_numbers format) cursor.old cursor.new (v.0, (v.1, v.2))) }
    ensures wrong { IfErr result (Fails (array_numbers format) cursor.old.text cursor.old.at) }
{
    let w = width_in(cursor, format, b' ')?;
    let (n, v) = sized_body(cursor, format)?;
    Ok((w, n, v))
}

// Passes the length of an Array, and the bits of what it runs.
fn sized_body(cursor: &mut Cursor, format: Format) -> Result<(u32, u32), ObjectFault>
    ensures width { IfOk result (λ v. v.1 ≤ GREATEST_WIDTH) }
    ensures read { IfOk result (λ v. Reads (both array_length (λ n. body format)) cursor.old cursor.new (v.0, v.1)) }
    ensures wrong { IfErr result (Fails (both array_length (λ n. body format)) cursor.old.text cursor.old.at) }
{
    let n = length(cursor)?;
    let v = run_bits(cursor, format)?;
    Ok((n, v))
}

// Passes the length of an array.
fn length(cursor: &mut Cursor) -> Result<u32, ObjectFault>
    ensures read { IfOk result (Reads array_length cursor.old cursor.new) }
    ensures wrong { IfErr result (Fails array_length cursor.old.text cursor.old.at) }
{
    let word = length_word(cursor)?;
    Ok(length_of(word))
}

// The length with this word.
fn length_of(word: LengthWord) -> u32
    ensures { result ≡ length_of_word word }
{
    match word {
        LengthWord::Two => 2,
        LengthWord::Four => 4,
        LengthWord::Eight => 8,
        LengthWord::Sixteen => 16,
    }
}

// Passes the bits of what a Local or an Array runs: 0 for a command.
fn run_bits(cursor: &mut Cursor, format: Format) -> Result<u32, ObjectFault>
    ensures width { IfOk result (λ v. v ≤ GREATEST_WIDTH) }
    ensures read { IfOk result (Reads (body format) cursor.old cursor.new) }
    ensures wrong { IfErr result (Fails (body format) cursor.old.text cursor.old.at) }
{
    match body_word(cursor)? {
        BodyWord::Com => Ok(0),
        BodyWord::Exp => {
            let v = width_in(cursor, format, b'\n')?;
            Ok(v)
        }
    }
}
