// The reader of build files.

ghost use Rattle.std.specs.Prelude.{◌≡◌, ◌≢◌, ◌<◌, ◌≤◌, ◌+◌, ◌&&◌, ◌^◌, ◌∷◌, ◌++◌, [], ℕ, Some, None, map, length, IfOk, IfErr, MatchOption};
ghost use Rattle.std.specs.Str.Lines.{lines};
ghost use Rattle.gos_lex.specs.Lines.{statements_from};
ghost use Rattle.gos_link.specs.BuildFile.{
  sort_of,
  IsWrongAt,
  IsBuildFile,
  IsFirstWrong,
  IsRightAfter,
  ReadsOn,
  is_new,
  is_new_file,
  is_new_source,
  last_sort,
  may_follow,
};

use crate::build::Build;
use crate::fault::LinkFault;
use crate::file_name::FileName;
use crate::lines::Lines;
use crate::noting::build_of;
use crate::said::{Item, Said, said_by};
use gos_lex::{count_lines, next_line};
use gos_types::NoMemory;
use std::alloc::Global;

/// The longest build file, in bytes.
const MAX_TEXT: usize = 65_536;

/// Reads the build file that stands in the file `own`. The error is `Form` with the first wrong line, or `NoMemory`.
/// A text above the limit takes no memory.
pub fn read_build(alloc: Global, text: &[u8], own: &[u8]) -> Result<Build, LinkFault>
    ensures read { IfOk result (IsBuildFile text.now own.now) }
    ensures few_instances { IfOk result (λ build. length build.instances.items ≤ 65536) }
    ensures few_binds { IfOk result (λ build. length build.binds.items ≤ 65536) }
    ensures fault { IfErr result (λ fault. fault ≢ LinkFault.NoMemory → (line : ℕ) × (fault ≡ LinkFault.Form line) × IsFirstWrong text.now own.now line) }
    ensures long { 65536 < length text.now → IfErr result (λ fault. fault ≡ LinkFault.Form 0) }
{
    if text.len() > MAX_TEXT {
        return Err(LinkFault::Form { line: 0 });
    }
    let items = read_items(alloc, text, own)?;
    match build_of(alloc, items)? {
        Some(build) => Ok(build),
        None => Err(LinkFault::Form {
            line: count_lines(text) + 1,
        }),
    }
}

// Reads all lines that say something, and judges each in its place.
fn read_items(alloc: Global, text: &[u8], own: &[u8]) -> Result<Vec<Item>, LinkFault>
    requires { 1 + length text.now < 2 ^ 64 }
    ensures read { IfOk result (λ items. ReadsOn own.now [] (statements_from 1 (lines text.now)) items.items None) }
    ensures few { IfOk result (λ items. length items.items ≤ length text.now) }
    ensures fault { IfErr result (λ fault. fault ≢ LinkFault.NoMemory → (line : ℕ) × (fault ≡ LinkFault.Form line)
        × IsWrongAt own.now (statements_from 1 (lines text.now)) line) }
{
    let mut lines = Lines::new(alloc);
    let mut line = 1;
    let mut rest = text;
    loop {
        match next_line(alloc, rest)? {
            None => return Ok(lines.into_items()),
            Some(next) => {
                line += next.skipped;
                lines = lines_with(alloc, line, next.words.as_slice(), own, lines)?;
                line += 1;
                rest = next.rest;
            }
        }
    }
}

// The lines before, and then what the line of these words and of this number says, if it is right after them.
fn lines_with(
    alloc: Global,
    line: u64,
    words: &[&[u8]],
    own: &[u8],
    before: Lines,
) -> Result<Lines, LinkFault>
    ensures right { IfOk result (λ lines. (said : Said) × IsRightAfter own.now before (map (λ word. word.now) words.now) said
        × (lines ≡ before ++ (record { line = line; said = said }) ∷ [])) }
    ensures fault { IfErr result (λ fault. fault ≢ LinkFault.NoMemory → (fault ≡ LinkFault.Form line)
        × ((said : Said) → IsRightAfter own.now before (map (λ word. word.now) words.now) said → ⊥)) }
{
    match read_item(alloc, words, own, &before)? {
        Some(said) => Ok(before.with(alloc, Item { line, said })?),
        None => Err(LinkFault::Form { line }),
    }
}

// What a line of these words says, if it is right after the lines before it.
fn read_item(
    alloc: Global,
    words: &[&[u8]],
    own: &[u8],
    before: &Lines,
) -> Result<Option<Said>, NoMemory>
    ensures { IfOk result (λ found. MatchOption found ((said : Said)
        → IsRightAfter own.now before.now (map (λ word. word.now) words.now) said → ⊥)
        (IsRightAfter own.now before.now (map (λ word. word.now) words.now))) }
{
    match said_by(alloc, words)? {
        Some(said) if is_right(&said, own, before) => Ok(Some(said)),
        _ => Ok(None),
    }
}

// Whether what a line says is right after the lines before it.
fn is_right(said: &Said, own: &[u8], before: &Lines) -> bool
    ensures { result ≡ (may_follow (last_sort 0 before.now) (sort_of said.now) && is_new own.now before.now said.now) }
{
    may_follow(last_sort(before.items()), said.sort()) && is_new(said, own, before)
}

// The sort of the last of these lines.
fn last_sort(items: &[Item]) -> u64
    ensures { result ≡ last_sort 0 items.now }
{
    match items.last() {
        Some(item) => item.said.sort(),
        None => 0,
    }
}

// Whether a line of the second sort may come after one of the first.
fn may_follow(last: u64, next: u64) -> bool
    ensures { result ≡ may_follow last next }
{
    (next > last && next - last == 1)
        || (next == last && (next == 2 || next == 3))
        || (last == 2 && next == 4)
}

// Whether what a line says is new after the lines before it.
fn is_new(said: &Said, own: &[u8], before: &Lines) -> bool
    ensures { result ≡ is_new own.now before.now said.now }
{
    match said {
        Said::Inst {
            name,
            source,
            object,
        } => {
            !before.has_instance(name)
                && is_new_source(source, own, before)
                && is_new_file(object, own, before)
                && object.bytes() != source.bytes()
        }
        Said::File { name, .. } => is_new_file(name, own, before),
        _ => true,
    }
}

// Whether no line before names this file, and it isn't the build file.
fn is_new_file(file: &FileName, own: &[u8], before: &Lines) -> bool
    ensures { result ≡ is_new_file own.now before.now file.now }
{
    file.bytes() != own && !before.has_source(file) && !before.has_no_source(file)
}

// Whether no line before names this file as something else than a source, and it isn't the build file.
fn is_new_source(file: &FileName, own: &[u8], before: &Lines) -> bool
    ensures { result ≡ is_new_source own.now before.now file.now }
{
    file.bytes() != own && !before.has_no_source(file)
}
