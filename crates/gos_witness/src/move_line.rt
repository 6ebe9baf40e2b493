// The lines of a list of moves, as they are read.
ghost use Rattle.std.specs.Prelude.{◌≤◌, ◌≡◌, ◌≢◌, ◌++◌, ◌↔◌, [], IsTrue, List, IfOk, IfErr, length};
ghost use Rattle.gos_lex.specs.Items.{Misses};
ghost use Rattle.gos_lex.specs.ItemTexts.{Passed};
ghost use Rattle.gos_witness.specs.declared.moves.Line as seen;
ghost use Rattle.gos_witness.specs.MovesText.{HasPath, line_text};
ghost use Rattle.gos_witness.specs.inner.Left.{HasLeft, Leads};
ghost use Rattle.gos_witness.specs.inner.Parts.{BreaksOff, IsLineText, LinesLeft, path_line, verb_text};

use crate::fault::ExplainFault;
use crate::moves::{Line, Path};
use crate::path_text::path;
use gos_lex::{Cursor, one_of};
use std::alloc::Global;

/// How a line begins.
#[derive(Debug, Clone, Copy)]
pub enum Verb {
    Unfold,
    Step,
    Label,
    Root,
}

/// Passes so many lines.
pub fn lines(alloc: Global, cursor: &mut Cursor, count: u64) -> Result<Vec<Line>, ExplainFault>
    requires { cursor.now.at ≤ length cursor.now.text }
    ensures passed { IfOk result (λ lines. Leads (List seen.Line) (LinesLeft count []) (LinesLeft 0 lines.items) cursor.old cursor.new) }
    ensures wrong { IfErr result (BreaksOff (HasLeft (List seen.Line) (LinesLeft count [])) cursor.old) }
{
    let mut lines = Vec::new(alloc);
    let mut left = count;
    while left > 0 {
        left -= 1;
        lines.push(line(alloc, cursor)?)?;
    }
    Ok(lines)
}

// Passes a line.
fn line(alloc: Global, cursor: &mut Cursor) -> Result<Line, ExplainFault>
    requires { cursor.now.at ≤ length cursor.now.text }
    ensures is { IfOk result HasPath }
    ensures passed { IfOk result (λ line. Passed cursor.old cursor.new (line_text line)) }
    ensures wrong { IfErr result (BreaksOff IsLineText cursor.old) }
{
    let verb = match beginning(cursor) {
        Ok(verb) => verb,
        Err(at) => return Err(ExplainFault::Form { at }),
    };
    if is_root(verb) {
        return Ok(Line::Root);
    }
    let path = path(alloc, cursor)?;
    Ok(line_of(verb, path))
}

// Passes the beginning of a line.
fn beginning(cursor: &mut Cursor) -> Result<Verb, usize>
    ensures passed { IfOk result (λ verb. Passed cursor.old cursor.new (verb_text verb)) }
    ensures wrong { IfErr result (Misses IsLineText cursor.old.text cursor.old.at) }
{
    let verbs = [Verb::Unfold, Verb::Step, Verb::Label, Verb::Root];
    let texts = [
        b"u ".as_slice(),
        b"s ".as_slice(),
        b"l ".as_slice(),
        b"r\n".as_slice(),
    ];
    let k = one_of(cursor, &texts)?;
    Ok(verbs[k])
}

// Whether the line has no path.
fn is_root(verb: Verb) -> bool
    ensures { IsTrue result ↔ (verb ≡ Verb.Root) }
{
    matches!(verb, Verb::Root)
}

// The line that begins so, with this path.
fn line_of(verb: Verb, path: Path) -> Line
    requires { verb ≢ Verb.Root }
    ensures is { HasPath result }
    ensures text { line_text result ≡ verb_text verb ++ path_line path }
{
    match verb {
        Verb::Unfold => Line::Unfold(path),
        Verb::Step => Line::Step(path),
        Verb::Label | Verb::Root => Line::Label(path),
    }
}
