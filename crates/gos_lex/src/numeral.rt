// The value of a numeral.

ghost use Rattle.std.specs.Prelude.{◌≡◌, ◌+◌, ◌-◌, ◌*◌, ◌<◌, ◌≤◌, IsTrue, MatchOption};
ghost use Rattle.std.specs.Char.{is_ascii_digit};
ghost use Rattle.gos_lex.specs.Numerals.{is_numeral, value_of};

/// The greatest value of a numeral: that of 64 bits.
pub const GREATEST_NUMERAL: u64 = u64::MAX;

// The value of the digits, where a numeral may have it.
pub(crate) fn number_of(bytes: &[u8]) -> Option<u64>
    requires { IsTrue (is_numeral bytes.now) }
    ensures { MatchOption result (GREATEST_NUMERAL < value_of bytes.now) (λ n. (value_of bytes.now ≡ n) × (n ≤ GREATEST_NUMERAL)) }
{
    let mut value = 0u64;
    for b in bytes {
        value = with_digit(value, *b)?;
    }
    Some(value)
}

// The value with one more digit, where a numeral may have it.
fn with_digit(value: u64, digit: u8) -> Option<u64>
    requires { IsTrue (is_ascii_digit digit) }
    ensures { MatchOption result (GREATEST_NUMERAL < 10 * value + (digit - 48)) (λ next. (next ≡ 10 * value + (digit - 48)) × (next ≤ GREATEST_NUMERAL)) }
{
    let next = 10 * u128::from(value) + u128::from(digit - b'0');
    if next <= u128::from(GREATEST_NUMERAL) {
        Some(next as u64)
    } else {
        None
    }
}
