// The words of a plan's text, by tables.
ghost use Rattle.std.specs.Prelude.{IfOk, IfErr};
ghost use Rattle.gos_plan.specs.TextItems.{Reads, Fails, words};
ghost use Rattle.gos_plan.specs.declared.format.Format.TheVariants as formats;
ghost use Rattle.gos_plan.specs.Formats.{head_text};
ghost use Rattle.gos_plan.specs.ObjectItems.{letters, body_word_text, length_text, part_words, end_word_text};

use crate::fault::ObjectFault;
use crate::format::Format;
use crate::kinds::Op2;
use gos_lex::{Cursor, one_of};

/// The word of a part whose line ends with it.
#[derive(Clone, Copy)]
pub enum BareWord {
    Skip,
    Seq,
    Par,
    If,
    While,
}

/// The word of a part with a width behind it.
#[derive(Clone, Copy)]
pub enum SizedWord {
    SeqExp,
    IfExp,
    Op(Op2),
    Not,
    Assign,
    Deref,
}

/// The word of a part.
#[derive(Clone, Copy)]
pub enum PartWord {
    Bare(BareWord),
    Sized(SizedWord),
    Lit,
    Local,
    Array,
    Share,
}

/// The word of a type.
#[derive(Clone, Copy)]
pub enum TypeWord {
    Com,
    Exp,
    Var,
    Pair,
    Fun,
}

/// The word of what a Local or an Array runs.
#[derive(Clone, Copy)]
pub enum BodyWord {
    Com,
    Exp,
}

/// The length of an array.
#[derive(Clone, Copy)]
pub enum LengthWord {
    Two,
    Four,
    Eight,
    Sixteen,
}

/// What stands before the numbers of an end.
#[derive(Clone, Copy)]
pub enum EndWord {
    Part,
    Import,
    Result,
}

/// Passes the word of a part of this format, with the byte behind it.
pub fn part_word(cursor: &mut Cursor, format: Format) -> Result<PartWord, ObjectFault>
    ensures read { IfOk result (Reads (part_words format) cursor.old cursor.new) }
    ensures wrong { IfErr result (Fails (part_words format) cursor.old.text cursor.old.at) }
{
    match format {
        Format::One => older_word(cursor),
        Format::Two => newer_word(cursor),
    }
}

// Passes the word of a part of format 1.
fn older_word(cursor: &mut Cursor) -> Result<PartWord, ObjectFault>
    ensures read { IfOk result (Reads (part_words formats.One) cursor.old cursor.new) }
    ensures wrong { IfErr result (Fails (part_words formats.One) cursor.old.text cursor.old.at) }
{
    let words = [
        PartWord::Bare(BareWord::Skip),
        PartWord::Bare(BareWord::Seq),
        PartWord::Bare(BareWord::Par),
        PartWord::Bare(BareWord::If),
        PartWord::Bare(BareWord::While),
        PartWord::Sized(SizedWord::SeqExp),
        PartWord::Sized(SizedWord::IfExp),
        PartWord::Sized(SizedWord::Op(Op2::Add)),
        PartWord::Sized(SizedWord::Op(Op2::Sub)),
        PartWord::Sized(SizedWord::Op(Op2::And)),
        PartWord::Sized(SizedWord::Op(Op2::Or)),
        PartWord::Sized(SizedWord::Op(Op2::Xor)),
        PartWord::Sized(SizedWord::Op(Op2::Eq)),
        PartWord::Sized(SizedWord::Op(Op2::Less)),
        PartWord::Sized(SizedWord::Not),
        PartWord::Sized(SizedWord::Assign),
        PartWord::Sized(SizedWord::Deref),
        PartWord::Lit,
        PartWord::Local,
        PartWord::Share,
    ];
    let texts: [&[u8]; 20] = [
        b"skip\n", b"seq\n", b"par\n", b"if\n", b"while\n", b"seqexp ", b"ifexp ", b"add ",
        b"sub ", b"and ", b"or ", b"xor ", b"eq ", b"less ", b"not ", b"assign ", b"deref ",
        b"lit ", b"local ", b"share ",
    ];
    match one_of(cursor, &texts) {
        Ok(k) => Ok(words[k]),
        Err(at) => Err(ObjectFault::Form { at }),
    }
}

// Passes the word of a part of format 2.
fn newer_word(cursor: &mut Cursor) -> Result<PartWord, ObjectFault>
    ensures read { IfOk result (Reads (part_words formats.Two) cursor.old cursor.new) }
    ensures wrong { IfErr result (Fails (part_words formats.Two) cursor.old.text cursor.old.at) }
{
    let words = [
        PartWord::Bare(BareWord::Skip),
        PartWord::Bare(BareWord::Seq),
        PartWord::Bare(BareWord::Par),
        PartWord::Bare(BareWord::If),
        PartWord::Bare(BareWord::While),
        PartWord::Sized(SizedWord::SeqExp),
        PartWord::Sized(SizedWord::IfExp),
        PartWord::Sized(SizedWord::Op(Op2::Add)),
        PartWord::Sized(SizedWord::Op(Op2::Sub)),
        PartWord::Sized(SizedWord::Op(Op2::And)),
        PartWord::Sized(SizedWord::Op(Op2::Or)),
        PartWord::Sized(SizedWord::Op(Op2::Xor)),
        PartWord::Sized(SizedWord::Op(Op2::Eq)),
        PartWord::Sized(SizedWord::Op(Op2::Less)),
        PartWord::Sized(SizedWord::Not),
        PartWord::Sized(SizedWord::Assign),
        PartWord::Sized(SizedWord::Deref),
        PartWord::Lit,
        PartWord::Local,
        PartWord::Share,
        PartWord::Array,
    ];
    let texts: [&[u8]; 21] = [
        b"skip\n", b"seq\n", b"par\n", b"if\n", b"while\n", b"seqexp ", b"ifexp ", b"add ",
        b"sub ", b"and ", b"or ", b"xor ", b"eq ", b"less ", b"not ", b"assign ", b"deref ",
        b"lit ", b"local ", b"share ", b"array ",
    ];
    match one_of(cursor, &texts) {
        Ok(k) => Ok(words[k]),
        Err(at) => Err(ObjectFault::Form { at }),
    }
}

/// Passes the letters of a type's word.
pub fn type_letters(cursor: &mut Cursor) -> Result<TypeWord, ObjectFault>
    ensures read { IfOk result (Reads (words TypeWord letters) cursor.old cursor.new) }
    ensures wrong { IfErr result (Fails (words TypeWord letters) cursor.old.text cursor.old.at) }
{
    let words = [
        TypeWord::Com,
        TypeWord::Exp,
        TypeWord::Var,
        TypeWord::Pair,
        TypeWord::Fun,
    ];
    let texts: [&[u8]; 5] = [b"com", b"exp", b"var", b"pair", b"fun"];
    match one_of(cursor, &texts) {
        Ok(k) => Ok(words[k]),
        Err(at) => Err(ObjectFault::Form { at }),
    }
}

/// Passes the word of what a Local or an Array runs, with the byte behind it.
pub fn body_word(cursor: &mut Cursor) -> Result<BodyWord, ObjectFault>
    ensures read { IfOk result (Reads (words BodyWord body_word_text) cursor.old cursor.new) }
    ensures wrong { IfErr result (Fails (words BodyWord body_word_text) cursor.old.text cursor.old.at) }
{
    let words = [BodyWord::Com, BodyWord::Exp];
    let texts: [&[u8]; 2] = [b"com\n", b"exp "];
    match one_of(cursor, &texts) {
        Ok(k) => Ok(words[k]),
        Err(at) => Err(ObjectFault::Form { at }),
    }
}

/// Passes the length of an array, and the space behind it.
pub fn length_word(cursor: &mut Cursor) -> Result<LengthWord, ObjectFault>
    ensures read { IfOk result (Reads (words LengthWord length_text) cursor.old cursor.new) }
    ensures wrong { IfErr result (Fails (words LengthWord length_text) cursor.old.text cursor.old.at) }
{
    let words = [
        LengthWord::Two,
        LengthWord::Four,
        LengthWord::Eight,
        LengthWord::Sixteen,
    ];
    let texts: [&[u8]; 4] = [b"2 ", b"4 ", b"8 ", b"16 "];
    match one_of(cursor, &texts) {
        Ok(k) => Ok(words[k]),
        Err(at) => Err(ObjectFault::Form { at }),
    }
}

/// Passes what stands before the numbers of an end.
pub fn end_word(cursor: &mut Cursor) -> Result<EndWord, ObjectFault>
    ensures read { IfOk result (Reads (words EndWord end_word_text) cursor.old cursor.new) }
    ensures wrong { IfErr result (Fails (words EndWord end_word_text) cursor.old.text cursor.old.at) }
{
    let words = [EndWord::Part, EndWord::Import, EndWord::Result];
    let texts: [&[u8]; 3] = [b"p", b"i", b"r."];
    match one_of(cursor, &texts) {
        Ok(k) => Ok(words[k]),
        Err(at) => Err(ObjectFault::Form { at }),
    }
}

/// Passes the first line, and the word of the second.
pub fn head_word(cursor: &mut Cursor) -> Result<Format, ObjectFault>
    ensures read { IfOk result (Reads (words Format head_text) cursor.old cursor.new) }
    ensures wrong { IfErr result (Fails (words Format head_text) cursor.old.text cursor.old.at) }
{
    let words = [Format::One, Format::Two];
    let texts: [&[u8]; 2] = [b"gosobj 1\nweight ", b"gosobj 2\nweight "];
    match one_of(cursor, &texts) {
        Ok(k) => Ok(words[k]),
        Err(at) => Err(ObjectFault::Form { at }),
    }
}
