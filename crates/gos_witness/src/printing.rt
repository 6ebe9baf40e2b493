// The text of a list of moves, line by line.
ghost use Rattle.std.specs.Prelude.{◌≡◌, ◌++◌, codes, decimal, IfOk, OnOk};
ghost use Rattle.std.specs.List.{AllByRecursion, flat_map};
ghost use Rattle.gos_netlist.specs.NetText.{line};
ghost use Rattle.gos_witness.specs.Paths.{IsChild};
ghost use Rattle.gos_witness.specs.MovesText.{dotted, path_text, line_text, HasPath, IsMovesTextOf};

use crate::moves::{Line, Path};
use gos_types::NoMemory;
use itoa::Buffer;
use std::alloc::Global;

/// The text of a list of moves. `read_moves` is the way back. `Err` is want of memory alone.
pub fn print_moves(alloc: Global, lines: &[Line]) -> Result<Vec<u8>, NoMemory>
    ensures { IfOk result (λ text. IsMovesTextOf text.items lines.now) }
{
    let mut text = Vec::new(alloc);
    text.extend_from_slice(b"gosmoves 1\n")?;
    add_count(&mut text, lines.len() as u64)?;
    add_lines(&mut text, lines)?;
    text.extend_from_slice(b"end\n")?;
    Ok(text)
}

// Adds the line that counts the others.
fn add_count(text: &mut Vec<u8>, count: u64) -> Result<(), NoMemory>
    ensures { OnOk result (text.new.items ≡ text.old.items ++ line (codes "lines " ++ decimal count)) }
{
    text.extend_from_slice(b"lines ")?;
    add_number(text, count)?;
    text.push(b'\n')?;
    Ok(())
}

// Adds the lines of moves.
fn add_lines(text: &mut Vec<u8>, lines: &[Line]) -> Result<(), NoMemory>
    ensures text { OnOk result (text.new.items ≡ text.old.items ++ flat_map line_text lines.now) }
    ensures paths { OnOk result (AllByRecursion HasPath lines.now) }
{
    for line in lines {
        add_line(text, line)?;
    }
    Ok(())
}

// Adds a line.
fn add_line(text: &mut Vec<u8>, line: &Line) -> Result<(), NoMemory>
    ensures text { OnOk result (text.new.items ≡ text.old.items ++ line_text line.now) }
    ensures path { OnOk result (HasPath line.now) }
{
    match line {
        Line::Unfold(path) => add_move(text, b"u ", path),
        Line::Step(path) => add_move(text, b"s ", path),
        Line::Label(path) => add_move(text, b"l ", path),
        Line::Root => {
            text.extend_from_slice(b"r\n")?;
            Ok(())
        }
    }
}

// Adds the line of this path.
fn add_move(text: &mut Vec<u8>, verb: &[u8], path: &Path) -> Result<(), NoMemory>
    ensures text { OnOk result (text.new.items ≡ text.old.items ++ line (verb.now ++ path_text path.now)) }
    ensures path { OnOk result (AllByRecursion IsChild path.now) }
{
    text.extend_from_slice(verb)?;
    add_path(text, path.steps())?;
    text.push(b'\n')?;
    Ok(())
}

// Adds the text of a path.
fn add_path(text: &mut Vec<u8>, steps: &[u8]) -> Result<(), NoMemory>
    ensures { OnOk result (text.new.items ≡ text.old.items ++ path_text steps.now) }
{
    match steps {
        [] => {
            text.push(b'.')?;
            Ok(())
        }
        [first, others @ ..] => {
            add_number(text, u64::from(*first))?;
            add_steps(text, others)
        }
    }
}

// Adds numbers, each behind a point.
fn add_steps(text: &mut Vec<u8>, steps: &[u8]) -> Result<(), NoMemory>
    ensures { OnOk result (text.new.items ≡ text.old.items ++ dotted steps.now) }
{
    for step in steps {
        add_step(text, *step)?;
    }
    Ok(())
}

// Adds a number behind a point.
fn add_step(text: &mut Vec<u8>, step: u8) -> Result<(), NoMemory>
    ensures { OnOk result (text.new.items ≡ text.old.items ++ (codes "." ++ decimal step)) }
{
    text.push(b'.')?;
    add_number(text, u64::from(step))
}

// Adds a number.
fn add_number(text: &mut Vec<u8>, number: u64) -> Result<(), NoMemory>
    ensures { OnOk result (text.new.items ≡ text.old.items ++ decimal number) }
{
    let mut digits = Buffer::new();
    text.extend_from_slice(digits.format(number).as_bytes())?;
    Ok(())
}
