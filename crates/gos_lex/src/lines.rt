// The lines and words of a file that is written by hand.

ghost use Rattle.std.specs.Prelude.{◌≡◌, ◌+◌, ◌<◌, ◌≤◌, ◌==◌, ◌∷◌, [], ℕ, length, map, position, IfOk, IfSome, MatchOption};
ghost use Rattle.std.specs.Str.Lines.{lines, strip_carriage_return};
ghost use Rattle.gos_lex.specs.Lines.{words_of, says_something, content_of, statements_from};

use std::alloc::{AllocError, Global};

/// A line that says something.
#[derive(Drop)]
pub struct Line<'a> {
    /// How many lines before it were passed over.
    pub skipped: u64,
    /// Its words.
    pub words: Vec<&'a [u8]>,
    /// The text after it.
    pub rest: &'a [u8],
}

/// The first line of a text that says something; none where no line does. `Err` is want of memory alone.
pub fn next_line<'a>(alloc: Global, text: &'a [u8]) -> Result<Option<Line<'a>>, AllocError>
    ensures line { IfOk result (λ next. MatchOption next (content_of text.now ≡ []) (λ line.
        content_of text.now ≡ map (λ word. word.now) line.words.items ∷ content_of line.rest.now)) }
    ensures numbered { IfOk result (λ next. MatchOption next ((n : ℕ) → statements_from n (lines text.now) ≡ []) (λ line.
        (n : ℕ)
        → statements_from n (lines text.now)
        ≡ (record { line = n + line.skipped; words = map (λ word. word.now) line.words.items }) ∷ statements_from
        (n + line.skipped + 1) (lines line.rest.now))) }
    ensures shorter { IfOk result (λ next. IfSome next (λ line. line.skipped + length line.rest.now < length text.now)) }
{
    let mut skipped = 0;
    let mut rest = text;
    while !rest.is_empty() {
        let (line, after) = cut_line(rest);
        rest = after;
        let words = words(alloc, line)?;
        if has_content(words.as_slice()) {
            return Ok(Some(Line {
                skipped,
                words,
                rest,
            }));
        }
        skipped += 1;
    }
    Ok(None)
}

/// How many lines a text has. Bytes after the last line feed are one more line.
pub fn count_lines(text: &[u8]) -> u64
    ensures count { result ≡ length (lines text.now) }
    ensures bound { result ≤ length text.now }
{
    let mut count = 0;
    let mut rest = text;
    while !rest.is_empty() {
        let (_, after) = cut_line(rest);
        rest = after;
        count += 1;
    }
    count
}

/// The first line of a text and the text after it.
fn cut_line(text: &[u8]) -> (&[u8], &[u8])
    requires { 0 < length text.now }
    ensures line { lines text.now ≡ result.0.now ∷ lines result.1.now }
    ensures shorter { length result.1.now < length text.now }
{
    match line_end(text) {
        None => (text, &[]),
        Some(end) => (without_return(&text[..end]), &text[end + 1..]),
    }
}

/// Where the first line feed stands.
fn line_end(text: &[u8]) -> Option<usize>
    ensures { result ≡ position (λ b. b == 10) text.now }
{
    text.iter().position(|b| *b == b'\n')
}

/// A line without the carriage return before its line feed.
fn without_return(line: &[u8]) -> &[u8]
    ensures { result.now ≡ strip_carriage_return line.now }
{
    match line {
        [start @ .., b'\r'] => start,
        _ => line,
    }
}

/// The words of a line.
fn words<'a>(alloc: Global, line: &'a [u8]) -> Result<Vec<&'a [u8]>, AllocError>
    ensures { IfOk result (λ words. map (λ word. word.now) words.items ≡ words_of line.now) }
{
    line.split(|b| *b == b' ' || *b == b'\t')
        .filter(|word| !word.is_empty())
        .collect(alloc)
}

/// Whether a line of these words says something.
fn has_content(words: &[&[u8]]) -> bool
    ensures { result ≡ says_something (map (λ word. word.now) words.now) }
{
    match words {
        [] => false,
        [[b'#', ..], ..] => false,
        _ => true,
    }
}
