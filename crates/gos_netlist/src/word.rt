// The words of lines: of a cell's gate, and of a port's side and type. Each stands with the space behind it.
ghost use Rattle.std.specs.Prelude.{◌≡◌, IfOk, IfErr};
ghost use Rattle.gos_lex.specs.Items.{Misses};
ghost use Rattle.gos_netlist.specs.Seen.{side_of};
ghost use Rattle.gos_netlist.specs.NetText.{side_word};
ghost use Rattle.gos_lex.specs.ItemTexts.{Passed, ended};
ghost use Rattle.gos_netlist.specs.inner.NetLines.{gate_text, type_word, pin_count, width_end, IsGateText, IsSideText, IsTypeWordText};

use crate::nets::Side;
use gos_lex::{Cursor, one_of};

/// The word of a cell's line.
#[derive(Debug, Clone, Copy)]
pub enum GateWord {
    Input,
    Const,
    Not,
    And,
    Or,
    Xor,
    Mux,
    Add,
    Sub,
    Eq,
    Less,
    Gate,
    Reg,
}

/// The word of a port's type.
#[derive(Debug, Clone, Copy)]
pub enum TypeWord {
    Com,
    Exp,
    Var,
}

impl GateWord {
    /// How many nets a gate with this word names.
    pub fn pin_count(self) -> usize
        ensures { result ≡ pin_count self }
    {
        match self {
            GateWord::Input | GateWord::Const => 0,
            GateWord::Not | GateWord::Reg => 1,
            GateWord::Mux => 3,
            _ => 2,
        }
    }

    /// The byte behind the width of a cell with this word.
    pub fn width_end(self) -> u8
        ensures { result ≡ width_end self }
    {
        match self {
            GateWord::Input => b'\n',
            _ => b' ',
        }
    }
}

/// Passes the word of a gate.
pub fn gate_word(cursor: &mut Cursor) -> Result<GateWord, usize>
    ensures passed { IfOk result (λ word. Passed cursor.old cursor.new (ended 32 (gate_text word))) }
    ensures wrong { IfErr result (Misses IsGateText cursor.old.text cursor.old.at) }
{
    match cursor.rest() {
        [b'i', ..] => this_or_any(cursor, GateWord::Input),
        [b'c', ..] => this_or_any(cursor, GateWord::Const),
        [b'n', ..] => this_or_any(cursor, GateWord::Not),
        [b'a', b'n', ..] => this_or_any(cursor, GateWord::And),
        [b'o', ..] => this_or_any(cursor, GateWord::Or),
        [b'x', ..] => this_or_any(cursor, GateWord::Xor),
        [b'm', ..] => this_or_any(cursor, GateWord::Mux),
        [b'a', ..] => this_or_any(cursor, GateWord::Add),
        [b's', ..] => this_or_any(cursor, GateWord::Sub),
        [b'e', ..] => this_or_any(cursor, GateWord::Eq),
        [b'l', ..] => this_or_any(cursor, GateWord::Less),
        [b'g', ..] => this_or_any(cursor, GateWord::Gate),
        _ => this_or_any(cursor, GateWord::Reg),
    }
}

// Passes this word of a gate, or else whichever stands there. It is inlined, so that each word is compared as it is.
#[inline(always)]
fn this_or_any(cursor: &mut Cursor, word: GateWord) -> Result<GateWord, usize>
    ensures passed { IfOk result (λ word. Passed cursor.old cursor.new (ended 32 (gate_text word))) }
    ensures wrong { IfErr result (Misses IsGateText cursor.old.text cursor.old.at) }
{
    match cursor.word(gate_text(word)) {
        Ok(()) => Ok(word),
        Err(_) => any_gate_word(cursor),
    }
}

// The text of a word, with the space behind it.
fn gate_text(word: GateWord) -> &'static [u8]
    ensures { result.now ≡ ended 32 (gate_text word) }
{
    match word {
        GateWord::Input => b"input ",
        GateWord::Const => b"const ",
        GateWord::Not => b"not ",
        GateWord::And => b"and ",
        GateWord::Or => b"or ",
        GateWord::Xor => b"xor ",
        GateWord::Mux => b"mux ",
        GateWord::Add => b"add ",
        GateWord::Sub => b"sub ",
        GateWord::Eq => b"eq ",
        GateWord::Less => b"less ",
        GateWord::Gate => b"gate ",
        GateWord::Reg => b"reg ",
    }
}

// Passes the word of a gate, whichever it is.
#[cold]
#[inline(never)]
fn any_gate_word(cursor: &mut Cursor) -> Result<GateWord, usize>
    ensures passed { IfOk result (λ word. Passed cursor.old cursor.new (ended 32 (gate_text word))) }
    ensures wrong { IfErr result (Misses IsGateText cursor.old.text cursor.old.at) }
{
    let words = [
        GateWord::Input,
        GateWord::Const,
        GateWord::Not,
        GateWord::And,
        GateWord::Or,
        GateWord::Xor,
        GateWord::Mux,
        GateWord::Add,
        GateWord::Sub,
        GateWord::Eq,
        GateWord::Less,
        GateWord::Gate,
        GateWord::Reg,
    ];
    let texts = [
        gate_text(GateWord::Input),
        gate_text(GateWord::Const),
        gate_text(GateWord::Not),
        gate_text(GateWord::And),
        gate_text(GateWord::Or),
        gate_text(GateWord::Xor),
        gate_text(GateWord::Mux),
        gate_text(GateWord::Add),
        gate_text(GateWord::Sub),
        gate_text(GateWord::Eq),
        gate_text(GateWord::Less),
        gate_text(GateWord::Gate),
        gate_text(GateWord::Reg),
    ];
    let k = one_of(cursor, &texts)?;
    Ok(words[k])
}

/// Passes the word of a side.
pub fn side_word(cursor: &mut Cursor) -> Result<Side, usize>
    ensures passed { IfOk result (λ side. Passed cursor.old cursor.new (ended 32 (side_word (side_of side)))) }
    ensures wrong { IfErr result (Misses IsSideText cursor.old.text cursor.old.at) }
{
    let words = [Side::Give, Side::Take];
    let k = one_of(cursor, &[b"give ".as_slice(), b"take ".as_slice()])?;
    Ok(words[k])
}

/// Passes the word of a type.
pub fn type_word(cursor: &mut Cursor) -> Result<TypeWord, usize>
    ensures passed { IfOk result (λ word. Passed cursor.old cursor.new (ended 32 (type_word word))) }
    ensures wrong { IfErr result (Misses IsTypeWordText cursor.old.text cursor.old.at) }
{
    let words = [TypeWord::Com, TypeWord::Exp, TypeWord::Var];
    let k = one_of(
        cursor,
        &[b"com ".as_slice(), b"exp ".as_slice(), b"var ".as_slice()],
    )?;
    Ok(words[k])
}
