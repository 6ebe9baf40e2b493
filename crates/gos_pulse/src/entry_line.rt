// One line of a pulse file, without the netlist.

ghost use Rattle.std.specs.Prelude.{◌≡◌, ◌<◌, ◌∷◌, [], ℕ, Bool, Option, Some, None, map, length, MatchOption, IsTrue, ◌↔◌, ◌==◌};
ghost use Rattle.std.specs.Option.{option_map};
ghost use Rattle.gos_lex.specs.Lines.{Word};
ghost use Rattle.gos_pulse.specs.Entries.{SaysCycles, SaysEntry, Written as Said, WritesValue, IsDotted, keyword, last_word};
ghost use Rattle.gos_pulse.specs.inner.EntryLine.{said, HasNames, IsFirstDot};

use gos_lex::{is_name_or_word, number};

/// What an entry's line writes.
#[derive(Clone, Copy)]
pub(crate) struct Written<'a> {
    pub at: bool,
    pub number: u64,
    pub name: &'a [u8],
    pub value: Option<u64>,
}

/// The number of cycles that a line says.
pub(crate) fn cycles_of(words: &[&[u8]]) -> Option<u64>
    ensures { MatchOption result ((n : ℕ) → SaysCycles (map (λ word. word.now) words.now) n → ⊥) (SaysCycles (map (λ word. word.now) words.now)) }
{
    let (word, digits) = two_words(words)?;
    if word != b"cycles".as_slice() {
        return None;
    }
    number(digits)
}

// Two words, where there are two.
fn two_words<'a>(words: &[&'a [u8]]) -> Option<(&'a [u8], &'a [u8])>
    ensures { MatchOption result ((a b : Word) → map (λ word. word.now) words.now ≡ a ∷ b ∷ [] → ⊥) (λ pair.
        map (λ word. word.now) words.now ≡ pair.0.now ∷ pair.1.now ∷ []) }
{
    match words {
        [a, b] => Some((*a, *b)),
        _ => None,
    }
}

/// What an entry's line writes; none where the line has no such form.
pub(crate) fn written_in<'a>(words: &[&'a [u8]]) -> Option<Written<'a>>
    ensures { MatchOption result ((w : Said) → SaysEntry (map (λ word. word.now) words.now) w → ⊥) (λ w.
        SaysEntry (map (λ word. word.now) words.now) (said w)) }
{
    let (keyword, digits, name, last) = entry_words(words)?;
    let at = is_at(keyword)?;
    let number = number(digits)?;
    let value = value_of(last)?;
    if !is_dotted(name) {
        return None;
    }
    Some(Written {
        at,
        number,
        name,
        value,
    })
}

// Three or four words, where there are so many.
fn entry_words<'a>(words: &[&'a [u8]]) -> Option<(&'a [u8], &'a [u8], &'a [u8], Option<&'a [u8]>)>
    ensures { MatchOption result ((a b c : Word) (d : Option Word) → map (λ word. word.now) words.now ≡ a ∷ b ∷ c ∷ last_word d
        → ⊥) (λ all. map (λ word. word.now) words.now ≡ all.0.now ∷ all.1.now ∷ all.2.now ∷ last_word
        (option_map (λ word. word.now) all.3)) }
{
    match words {
        [a, b, c] => Some((*a, *b, *c, None)),
        [a, b, c, d] => Some((*a, *b, *c, Some(*d))),
        _ => None,
    }
}

// Whether the keyword is `at` or `next`.
fn is_at(word: &[u8]) -> Option<bool>
    ensures { MatchOption result ((at : Bool) → word.now ≡ keyword at → ⊥) (λ at. word.now ≡ keyword at) }
{
    if word == b"at".as_slice() {
        Some(true)
    } else if word == b"next".as_slice() {
        Some(false)
    } else {
        None
    }
}

// The value that the last word writes, if there is a last word.
fn value_of(last: Option<&[u8]>) -> Option<Option<u64>>
    ensures { MatchOption result ((value : Option ℕ) → WritesValue (option_map (λ word. word.now) last.entry) value → ⊥)
        (WritesValue (option_map (λ word. word.now) last.entry)) }
{
    match last {
        None => Some(None),
        Some(word) => Some(Some(number(word)?)),
    }
}

// Whether the word is two names with a dot between them.
fn is_dotted(word: &[u8]) -> bool
    ensures { IsTrue result ↔ IsDotted word.now }
{
    let dot = dot_of(word);
    if dot == word.len() {
        return false;
    }
    has_names(word, dot)
}

// Whether names stand before and behind this place of the word.
fn has_names(word: &[u8], dot: usize) -> bool
    requires { dot < length word.now }
    ensures { IsTrue result ↔ HasNames word.now dot }
{
    is_name_or_word(&word[..dot]) && is_name_or_word(&word[dot + 1..])
}

// Where the first dot stands; the word's length where there is none.
fn dot_of(word: &[u8]) -> usize
    ensures { IsFirstDot word.now result }
{
    for (at, b) in word.iter().enumerate() {
        if *b == b'.' {
            return at;
        }
    }
    word.len()
}
