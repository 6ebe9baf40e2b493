// The line of a cell: its word, its width, and its constant or its nets.
ghost use Rattle.std.specs.Prelude.{◌≡◌, ◌<◌, ◌≤◌, IfOk, IfErr, [], ◌∷◌, length, take};
ghost use Rattle.gos_lex.specs.Items.{Misses};
ghost use Rattle.gos_netlist.specs.Seen.{cell_of, function_of};
ghost use Rattle.gos_netlist.specs.NetText.{cell_text, operands};
ghost use Rattle.gos_netlist.specs.Writable.{IsWritableCell};
ghost use Rattle.gos_types.specs.Widths.{IsWidth};
ghost use Rattle.gos_lex.specs.ItemTexts.{Passed};
ghost use Rattle.gos_netlist.specs.inner.NetLines.{numbers_text, pin_count, word_for, HasWord, IsOperandsText, IsCellText};

use crate::items::{LAST_WIDTH, few_nets};
use crate::nets::{Cell, Gate, NetId};
use crate::word::{GateWord, gate_word};
use gos_lex::Cursor;
use gos_types::greatest;

/// Passes the line of a cell. `Err` is the place where it breaks off.
pub fn cell(cursor: &mut Cursor) -> Result<Cell, usize>
    ensures cell { IfOk result (λ cell. IsWritableCell (cell_of cell)) }
    ensures passed { IfOk result (λ cell. Passed cursor.old cursor.new (cell_text (cell_of cell))) }
    ensures wrong { IfErr result (Misses IsCellText cursor.old.text cursor.old.at) }
{
    let word = gate_word(cursor)?;
    let width = cursor.ended_number(1, LAST_WIDTH, word.width_end())? as u32;
    let gate = gate(cursor, word, width)?;
    Ok(Cell { width, gate })
}

// Passes what stands behind the width.
fn gate(cursor: &mut Cursor, word: GateWord, width: u32) -> Result<Gate, usize>
    requires width { IsWidth width }
    requires within { cursor.now.at ≤ length cursor.now.text }
    ensures word { IfOk result (λ gate. HasWord word width (function_of gate)) }
    ensures passed { IfOk result (λ gate. Passed cursor.old cursor.new (numbers_text (operands (function_of gate)))) }
    ensures wrong { IfErr result (Misses (IsOperandsText word width) cursor.old.text cursor.old.at) }
{
    match word {
        GateWord::Input => Ok(Gate::Input),
        GateWord::Const => constant(cursor, width),
        _ => named(cursor, word, width),
    }
}

// Passes the nets of a gate that names some.
fn named(cursor: &mut Cursor, word: GateWord, width: u32) -> Result<Gate, usize>
    requires some { 0 < pin_count word }
    requires within { cursor.now.at ≤ length cursor.now.text }
    ensures word { IfOk result (λ gate. HasWord word width (function_of gate)) }
    ensures passed { IfOk result (λ gate. Passed cursor.old cursor.new (numbers_text (operands (function_of gate)))) }
    ensures wrong { IfErr result (Misses (IsOperandsText word width) cursor.old.text cursor.old.at) }
{
    let (a, b, c) = few_nets(cursor, word.pin_count())?;
    Ok(gate_of(word, a, b, c))
}

// Passes a constant.
fn constant(cursor: &mut Cursor, width: u32) -> Result<Gate, usize>
    requires width { IsWidth width }
    ensures word { IfOk result (λ gate. HasWord GateWord.Const width (function_of gate)) }
    ensures passed { IfOk result (λ gate. Passed cursor.old cursor.new (numbers_text (operands (function_of gate)))) }
    ensures wrong { IfErr result (Misses (IsOperandsText GateWord.Const width) cursor.old.text cursor.old.at) }
{
    let k = cursor.ended_number(0, greatest(width), b'\n')?;
    Ok(Gate::Const(k))
}

// The gate that names as many of these nets as it has pins.
fn gate_of(word: GateWord, a: NetId, b: NetId, c: NetId) -> Gate
    requires some { 0 < pin_count word }
    ensures word { word_for (function_of result) ≡ word }
    ensures nets { operands (function_of result) ≡ take (pin_count word) (a.0 ∷ b.0 ∷ c.0 ∷ []) }
{
    match word {
        GateWord::Input | GateWord::Const => Gate::Input,
        GateWord::Not => Gate::Not(a),
        GateWord::And => Gate::And(a, b),
        GateWord::Or => Gate::Or(a, b),
        GateWord::Xor => Gate::Xor(a, b),
        GateWord::Mux => Gate::Mux(a, b, c),
        GateWord::Add => Gate::Add(a, b),
        GateWord::Sub => Gate::Sub(a, b),
        GateWord::Eq => Gate::Eq(a, b),
        GateWord::Less => Gate::Less(a, b),
        GateWord::Gate => Gate::Gate(a, b),
        GateWord::Reg => Gate::Reg(a),
    }
}
