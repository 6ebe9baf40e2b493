// Lists of words: whether a word stands in one, and whether all are different.

ghost use Rattle.std.specs.Prelude.{◌≡◌, ◌<◌, ℕ, map, length, MatchOption, Some, slice_get};
ghost use Rattle.std.specs.List.{list_any};
ghost use Rattle.std.specs.Str.{bytes_eq};
ghost use Rattle.gos_lex.specs.Lines.{all_differ};

/// Whether no two of the words are the same.
pub fn all_different(words: &[&[u8]]) -> bool
    ensures { result ≡ all_differ (map (λ word. word.now) words.now) }
{
    match words {
        [] => true,
        [first, others @ ..] => !is_among(first, others) && all_different(others),
    }
}

/// Whether a word is one of these.
pub fn is_among(word: &[u8], words: &[&[u8]]) -> bool
    ensures { result ≡ list_any (bytes_eq word.now) (map (λ word. word.now) words.now) }
{
    match words {
        [] => false,
        [first, others @ ..] => word == *first || is_among(word, others),
    }
}

/// The place of a word among these; none where it isn't one of them.
pub fn place_of(word: &[u8], words: &[&[u8]]) -> Option<usize>
    ensures { MatchOption result ((k : ℕ) → slice_get (map (λ word. word.now) words.now) k ≡ Some word.now → ⊥) (λ k.
        (k < length words.now) × (slice_get (map (λ word. word.now) words.now) k ≡ Some word.now)) }
{
    match words {
        [] => None,
        [first, others @ ..] => {
            if word == *first {
                return Some(0);
            }
            match place_of(word, others) {
                None => None,
                Some(place) => Some(place + 1),
            }
        }
    }
}
