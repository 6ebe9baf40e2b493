// The text of a circuit, line by line.
ghost use Rattle.std.specs.Prelude.{◌≡◌, ◌+◌, ◌^◌, ◌<◌, ◌++◌, length, decimal, IfOk, OnOk};
ghost use Rattle.gos_lex.specs.ItemTexts.{ended};
ghost use Rattle.gos_gates.specs.Gates.{AreGates, variables};
ghost use Rattle.gos_gates.specs.AagText.{header_text, input_lines, latch_lines, output_lines, gate_lines, aag_text};

use crate::aig::Aig;
use gos_types::NoMemory;
use itoa::Buffer;
use std::alloc::Global;

/// The text of a circuit. `read_aag` is the way back. `Err` is want of memory alone.
///
/// The circuit has fewer than 2^31 variables and at most 2^32 - 1 outputs. Each literal is of a variable that is there, and those of a
/// gate are of variables before it, the second not above the first.
pub fn print_aag(alloc: Global, aig: &Aig) -> Result<Vec<u8>, NoMemory>
    requires { AreGates aig.now }
    ensures { IfOk result (λ text. text.items ≡ aag_text aig.now) }
{
    let first = u64::from(aig.inputs) + 1;
    let latches = aig.latches.len() as u64;
    let mut text = Vec::new(alloc);
    add_header(&mut text, aig)?;
    add_inputs(&mut text, aig.inputs)?;
    add_latches(&mut text, first, &aig.latches)?;
    add_outputs(&mut text, &aig.outputs)?;
    add_gates(&mut text, first + latches, &aig.gates)?;
    Ok(text)
}

// Adds the first line.
fn add_header(text: &mut Vec<u8>, aig: &Aig) -> Result<(), NoMemory>
    requires { variables aig.now < 2147483648 }
    ensures { OnOk result (text.new.items ≡ text.old.items ++ header_text aig.now) }
{
    let latches = aig.latches.len() as u64;
    let gates = aig.gates.len() as u64;
    text.extend_from_slice(b"aag ")?;
    add_number(text, u64::from(aig.inputs) + latches + gates, b' ')?;
    add_number(text, u64::from(aig.inputs), b' ')?;
    add_number(text, latches, b' ')?;
    add_number(text, aig.outputs.len() as u64, b' ')?;
    add_number(text, gates, b'\n')
}

// Adds the lines of so many inputs.
fn add_inputs(text: &mut Vec<u8>, count: u32) -> Result<(), NoMemory>
    ensures { OnOk result (text.new.items ≡ text.old.items ++ input_lines 1 count) }
{
    for i in 0..count {
        add_number(text, 2 * (u64::from(i) + 1), b'\n')?;
    }
    Ok(())
}

// Adds the lines of latches, from this variable on.
fn add_latches(text: &mut Vec<u8>, first: u64, latches: &[u32]) -> Result<(), NoMemory>
    requires { first + length latches.now < 2 ^ 32 }
    ensures { OnOk result (text.new.items ≡ text.old.items ++ latch_lines first latches.now) }
{
    let mut variable = first;
    for latch in latches {
        add_number(text, 2 * variable, b' ')?;
        add_number(text, u64::from(*latch), b'\n')?;
        variable += 1;
    }
    Ok(())
}

// Adds the lines of outputs.
fn add_outputs(text: &mut Vec<u8>, outputs: &[u32]) -> Result<(), NoMemory>
    ensures { OnOk result (text.new.items ≡ text.old.items ++ output_lines outputs.now) }
{
    for output in outputs {
        add_number(text, u64::from(*output), b'\n')?;
    }
    Ok(())
}

// Adds the lines of gates, from this variable on.
fn add_gates(text: &mut Vec<u8>, first: u64, gates: &[(u32, u32)]) -> Result<(), NoMemory>
    requires { first + length gates.now < 2 ^ 32 }
    ensures { OnOk result (text.new.items ≡ text.old.items ++ gate_lines first gates.now) }
{
    let mut variable = first;
    for gate in gates {
        add_number(text, 2 * variable, b' ')?;
        add_number(text, u64::from(gate.0), b' ')?;
        add_number(text, u64::from(gate.1), b'\n')?;
        variable += 1;
    }
    Ok(())
}

// Adds a number and the byte that ends it.
fn add_number(text: &mut Vec<u8>, number: u64, end: u8) -> Result<(), NoMemory>
    ensures { OnOk result (text.new.items ≡ text.old.items ++ ended end (decimal number)) }
{
    let mut digits = Buffer::new();
    text.extend_from_slice(digits.format(number).as_bytes())?;
    text.push(end)?;
    Ok(())
}
