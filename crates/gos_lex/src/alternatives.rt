// Words of a table, of which one is passed.
ghost use Rattle.std.specs.Prelude.{◌≡◌, ◌<◌, ◌≤◌, ◌⊎◌, [], IfOk, IfErr, length, map, get_or};
ghost use Rattle.gos_lex.specs.Items.{Misses};
ghost use Rattle.gos_lex.specs.ItemTexts.{Passed, IsAmong};

use crate::Cursor;

/// Passes one of these words, and gives its place among them.
pub fn one_of(cursor: &mut Cursor, words: &[&[u8]]) -> Result<usize, usize>
    requires { 0 < length words.now }
    ensures inside { IfOk result (λ k. k < length words.now) }
    ensures passed { IfOk result (λ k. Passed cursor.old cursor.new (get_or (map (λ word. word.now) words.now) k [])) }
    ensures wrong { IfErr result (Misses (IsAmong (map (λ word. word.now) words.now)) cursor.old.text cursor.old.at) }
{
    let mut furthest = match cursor.word(words[0]) {
        Ok(()) => return Ok(0),
        Err(at) => at,
    };
    for k in 1..words.len() {
        match cursor.word(words[k]) {
            Ok(()) => return Ok(k),
            Err(at) => furthest = further(furthest, at),
        }
    }
    Err(furthest)
}

// The greater of two places.
fn further(one: usize, other: usize) -> usize
    ensures at_least { (one ≤ result) × (other ≤ result) }
    ensures either { (result ≡ one) ⊎ (result ≡ other) }
{
    if one < other { other } else { one }
}
