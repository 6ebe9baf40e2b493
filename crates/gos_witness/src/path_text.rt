// The path of a line, as it is read.
ghost use Rattle.std.specs.Prelude.{◌<◌, ◌≤◌, ◌≡◌, true, false, Bool, IfOk, IfErr, length};
ghost use Rattle.gos_lex.specs.Items.{Misses};
ghost use Rattle.gos_lex.specs.ItemTexts.{Passed};
ghost use Rattle.gos_witness.specs.inner.Parts.{BreaksOff, IsStep, step_at, step_text, IsStepText, IsPathText, is_first, path_line};

use crate::fault::ExplainFault;
use crate::moves::Path;
use gos_lex::{Cursor, one_of};
use std::alloc::Global;

/// Passes a path and the line feed behind it.
pub fn path(alloc: Global, cursor: &mut Cursor) -> Result<Path, ExplainFault>
    requires { cursor.now.at ≤ length cursor.now.text }
    ensures passed { IfOk result (λ path. Passed cursor.old cursor.new (path_line path)) }
    ensures wrong { IfErr result (BreaksOff IsPathText cursor.old) }
{
    let mut steps = Vec::new(alloc);
    loop {
        let next = match step(cursor, is_first(&steps)) {
            Ok(next) => next,
            Err(at) => return Err(ExplainFault::Form { at }),
        };
        match next {
            Some(child) => steps.push(child)?,
            None => return Ok(Path::new(steps)),
        }
    }
}

// Whether these are no numbers yet.
fn is_first(steps: &[u8]) -> bool
    ensures { result ≡ is_first steps.now }
{
    match steps {
        [] => true,
        [_, ..] => false,
    }
}

// Passes the next number of a path, or its end.
fn step(cursor: &mut Cursor, first: bool) -> Result<Option<u8>, usize>
    ensures is { IfOk result IsStep }
    ensures passed { IfOk result (λ step. Passed cursor.old cursor.new (step_text first step)) }
    ensures wrong { IfErr result (Misses (IsStepText first) cursor.old.text cursor.old.at) }
{
    if first {
        first_step(cursor)
    } else {
        later_step(cursor)
    }
}

// Passes the first number of a path; or a point and a line feed, where it has none.
fn first_step(cursor: &mut Cursor) -> Result<Option<u8>, usize>
    ensures is { IfOk result IsStep }
    ensures passed { IfOk result (λ step. Passed cursor.old cursor.new (step_text true step)) }
    ensures wrong { IfErr result (Misses (IsStepText true) cursor.old.text cursor.old.at) }
{
    let words = [
        b".\n".as_slice(),
        b"0".as_slice(),
        b"1".as_slice(),
        b"2".as_slice(),
    ];
    match one_of(cursor, &words) {
        Ok(k) => Ok(step_at(k)),
        Err(at) => Err(at),
    }
}

// Passes a point and the next number of a path; or a line feed, where there is no further one.
fn later_step(cursor: &mut Cursor) -> Result<Option<u8>, usize>
    ensures is { IfOk result IsStep }
    ensures passed { IfOk result (λ step. Passed cursor.old cursor.new (step_text false step)) }
    ensures wrong { IfErr result (Misses (IsStepText false) cursor.old.text cursor.old.at) }
{
    let words = [
        b"\n".as_slice(),
        b".0".as_slice(),
        b".1".as_slice(),
        b".2".as_slice(),
    ];
    match one_of(cursor, &words) {
        Ok(k) => Ok(step_at(k)),
        Err(at) => Err(at),
    }
}

// The number that the word at this place has; the first one has none.
fn step_at(k: usize) -> Option<u8>
    requires { k < 4 }
    ensures { result ≡ step_at k }
{
    if k == 0 { None } else { Some((k - 1) as u8) }
}
