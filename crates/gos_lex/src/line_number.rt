// Numbers in files that are written by hand.

ghost use Rattle.std.specs.Prelude.{◌≡◌, ◌≤◌, ◌<◌, ◌^◌, ◌+◌, ◌-◌, ◌*◌, ℕ, MatchOption};
ghost use Rattle.gos_lex.specs.Numerals.{is_numeral};
ghost use Rattle.std.specs.Char.{is_ascii_digit};
ghost use Rattle.std.specs.List.{list_all};
ghost use Rattle.gos_lex.specs.LineNumbers.{IsNumber};

/// The number that a word writes; none where it writes no number, or one above 2^64 - 1.
pub fn number(word: &[u8]) -> Option<u64>
    ensures { MatchOption result ((n : ℕ) → IsNumber word.now n → ⊥) (IsNumber word.now) }
{
    if !is_number(word) {
        return None;
    }
    let mut value = 0;
    for digit in word {
        value = with_digit(value, *digit)?;
    }
    Some(value)
}

// The value with one more digit, where it is at most 2^64 - 1.
fn with_digit(value: u64, digit: u8) -> Option<u64>
    ensures { MatchOption result (2 ^ 64 ≤ 10 * value + (digit - 48)) (λ next. next ≡ 10 * value + (digit - 48)) }
{
    let units = u64::from(digit.saturating_sub(b'0'));
    value.checked_mul(10)?.checked_add(units)
}

// Whether the word is one or more digits.
#[tactic(auto, using(crate::proofs::LineNumberLemmas::numeral_of_some))]
fn is_number(word: &[u8]) -> bool
    ensures { result ≡ is_numeral word.now }
{
    match word {
        [] => false,
        _ => are_digits(word),
    }
}

// Whether all bytes of the word are digits.
fn are_digits(word: &[u8]) -> bool
    ensures { result ≡ list_all is_ascii_digit word.now }
{
    word.iter().all(|b| b.is_ascii_digit())
}
