// The lines behind the first one: of inputs, latches, outputs and gates, as many as the first line says.
//
// Nothing is reserved by these counts, which may be far above what the text has.
ghost use Rattle.std.specs.Prelude.{◌≡◌, ℕ, ◌+◌, ◌-◌, ◌*◌, ◌<◌, ◌≤◌, [], ◌∷◌, List, length, IfOk, IfErr, OnOk};
ghost use Rattle.gos_gates.specs.AagText.{spaced};
ghost use Rattle.gos_gates.specs.inner.Shapes.{Shape, End, Word, Number, Leads, Breaks, BreaksOff, lines_shape, all_latches, all_outputs, all_gates};

use crate::fault::AagFault;
use crate::header::Header;
use crate::item::{exactly, number};
use gos_lex::Cursor;
use std::alloc::Global;

/// Passes the lines of inputs.
pub fn inputs(cursor: &mut Cursor, header: Header) -> Result<(), AagFault>
    requires few { header.inputs ≤ 2147483647 }
    requires within { cursor.now.at ≤ length cursor.now.text }
    ensures passed { OnOk result (Leads cursor.old cursor.new (lines_shape header) (all_latches header)) }
    ensures wrong { IfErr result (BreaksOff (lines_shape header) cursor.old) }
{
    for variable in 1..header.inputs + 1 {
        match exactly(cursor, 2 * variable, b'\n') {
            Ok(()) => {}
            Err(at) => return Err(AagFault::Form { at }),
        }
    }
    Ok(())
}

/// Passes the lines of latches, and gives the literals that they hold in the next cycle.
pub fn latches(alloc: Global, cursor: &mut Cursor, header: Header) -> Result<Vec<u32>, AagFault>
    requires sources { header.inputs + header.latches ≤ header.variables }
    requires few { header.variables ≤ 2147483647 }
    requires within { cursor.now.at ≤ length cursor.now.text }
    ensures passed { IfOk result (λ latches. Leads cursor.old cursor.new (all_latches header) (all_outputs header latches.items)) }
    ensures wrong { IfErr result (BreaksOff (all_latches header) cursor.old) }
{
    let mut latches = Vec::new(alloc);
    for variable in header.inputs + 1..header.inputs + header.latches + 1 {
        match latch(cursor, header, variable) {
            Ok(literal) => latches.push(literal)?,
            Err(at) => return Err(AagFault::Form { at }),
        }
    }
    Ok(latches)
}

// Passes the line of a latch.
fn latch(cursor: &mut Cursor, header: Header, variable: u32) -> Result<u32, usize>
    requires few { header.variables ≤ 2147483647 }
    requires inside { variable ≤ 2147483647 }
    ensures passed { IfOk result (λ l. (rest : ℕ → Shape) →
        Leads cursor.old cursor.new (Word (spaced (2 * variable)) (Number (2 * header.variables + 1) 10 rest)) (rest l)) }
    ensures wrong { IfErr result (λ place. (rest : ℕ → Shape) →
        Breaks (Word (spaced (2 * variable)) (Number (2 * header.variables + 1) 10 rest)) cursor.old place) }
{
    exactly(cursor, 2 * variable, b' ')?;
    let literal = number(cursor, 2 * header.variables + 1, b'\n')?;
    Ok(literal)
}

/// Passes the lines of outputs, and gives their literals.
pub fn outputs(alloc: Global, cursor: &mut Cursor, header: Header) -> Result<Vec<u32>, AagFault>
    requires few { header.variables ≤ 2147483647 }
    requires within { cursor.now.at ≤ length cursor.now.text }
    ensures passed { IfOk result (λ outputs. (ls : List ℕ) → Leads cursor.old cursor.new (all_outputs header ls) (all_gates header ls outputs.items)) }
    ensures wrong { IfErr result (λ fault. (ls : List ℕ) → BreaksOff (all_outputs header ls) cursor.old fault) }
{
    let mut outputs = Vec::new(alloc);
    for _count in 0..header.outputs {
        match number(cursor, 2 * header.variables + 1, b'\n') {
            Ok(literal) => outputs.push(literal)?,
            Err(at) => return Err(AagFault::Form { at }),
        }
    }
    Ok(outputs)
}

/// Passes the lines of gates, and gives their literals.
pub fn gates(
    alloc: Global,
    cursor: &mut Cursor,
    header: Header,
) -> Result<Vec<(u32, u32)>, AagFault>
    requires sources { header.inputs + header.latches ≤ header.variables }
    requires few { header.variables ≤ 2147483647 }
    requires within { cursor.now.at ≤ length cursor.now.text }
    ensures passed { IfOk result (λ gates. (ls os : List ℕ) →
        Leads cursor.old cursor.new (all_gates header ls os) (End (record { inputs = header.inputs; latches = ls; outputs = os; gates = gates.items }))) }
    ensures wrong { IfErr result (λ fault. (ls os : List ℕ) → BreaksOff (all_gates header ls os) cursor.old fault) }
{
    let mut gates = Vec::new(alloc);
    for variable in header.inputs + header.latches + 1..header.variables + 1 {
        match gate(cursor, variable) {
            Ok(literals) => gates.push(literals)?,
            Err(at) => return Err(AagFault::Form { at }),
        }
    }
    Ok(gates)
}

// Passes the line of a gate. It looks back: its literals are of variables before its own.
fn gate(cursor: &mut Cursor, variable: u32) -> Result<(u32, u32), usize>
    requires some { 0 < variable }
    requires inside { variable ≤ 2147483647 }
    ensures passed { IfOk result (λ g. (rest : ℕ → ℕ → Shape) →
        Leads cursor.old cursor.new (Word (spaced (2 * variable)) (Number (2 * variable - 1) 32 (λ a. Number a 10 (rest a)))) (rest g.0 g.1)) }
    ensures wrong { IfErr result (λ place. (rest : ℕ → ℕ → Shape) →
        Breaks (Word (spaced (2 * variable)) (Number (2 * variable - 1) 32 (λ a. Number a 10 (rest a)))) cursor.old place) }
{
    exactly(cursor, 2 * variable, b' ')?;
    let first = number(cursor, 2 * variable - 1, b' ')?;
    let second = number(cursor, first, b'\n')?;
    Ok((first, second))
}
