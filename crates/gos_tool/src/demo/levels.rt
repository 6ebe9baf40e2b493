// How many levels a word asks for.

ghost use Rattle.std.specs.Prelude.{◌≡◌, ◌↔◌, ℕ, IsTrue, MatchOption};
ghost use Rattle.std.specs.Fmt.{decimal};
ghost use Rattle.gos_tool.specs.demo.DemoFiles.{IsLevelCount};

/// The number of levels that a word writes: 1 to 12, without leading zeros.
pub fn levels_of(word: &[u8]) -> Option<u64>
    ensures { MatchOption result ((n : ℕ) → IsLevelCount n → word.now ≡ decimal n → ⊥) (λ n. IsLevelCount n × (word.now ≡ decimal n)) }
{
    for number in 1..13 {
        if is_decimal(word, number) {
            return Some(u64::from(number));
        }
    }
    None
}

// Whether a word writes this number.
fn is_decimal(word: &[u8], number: u8) -> bool
    requires { IsLevelCount number }
    ensures { IsTrue result ↔ (word.now ≡ decimal number) }
{
    if number < 10 {
        word == [b'0' + number].as_slice()
    } else {
        word == [b'1', b'0' + (number - 10)].as_slice()
    }
}
