// Numbers in decimal digits without leading zeros, a digit at a time.
//
// A number of the range is read as far as its digits begin some number of the range.

ghost use Rattle.std.specs.Prelude.{◌≡◌, ◌+◌, ◌-◌, ◌*◌, ◌^◌, ◌<◌, ◌≤◌, ◌↔◌, [], ◌∷◌, ◌++◌, length, get_or, false, IsTrue, MatchOption, IfSome, IfOk, IfErr};
ghost use Rattle.std.specs.Char.{is_ascii_digit};
ghost use Rattle.std.specs.List.{slice_range};
ghost use Rattle.std.specs.Fmt.{decimal};
ghost use Rattle.std.specs.Option.{SomeIff};
ghost use Rattle.gos_lex.specs.Items.{Begins, Passes, StopsAt, Misses};
ghost use Rattle.gos_lex.specs.Decimals.{IsDecimalIn};
ghost use Rattle.gos_lex.specs.inner.Digits.{digits_so_far};

// How many digits leave a value far below 2^64.
const FEW: usize = 18;

// The longest number of the range that stands at `at`, and where it ends.
pub(crate) fn number_end(text: &[u8], at: usize, low: u64, high: u64) -> Result<(u64, usize), usize>
    requires at { at ≤ length text.now }
    requires range { low ≤ high }
    ensures passes { IfOk result (λ number. Passes (IsDecimalIn low high) text.now at number.1) }
    ensures value { IfOk result (λ number. slice_range text.now at number.1 ≡ decimal number.0) }
    ensures range { IfOk result (λ number. (low ≤ number.0) × (number.0 ≤ high)) }
    ensures wrong { IfErr result (Misses (IsDecimalIn low high) text.now at) }
{
    match plain_number(text, at) {
        Some((value, end)) if low <= value && value <= high => Ok((value, end)),
        _ => any_number(text, at, low, high),
    }
}

// The digits from `at` on as a number, and where they end, if they don't begin with 0, are few, and another byte stands
// behind them. Nearly all numbers are such ones, and few tests tell so.
fn plain_number(text: &[u8], at: usize) -> Option<(u64, usize)>
    requires { at ≤ length text.now }
    ensures value { IfSome result (λ number. slice_range text.now at number.1 ≡ decimal number.0) }
    ensures end { IfSome result (λ number. (at ≤ number.1) × (number.1 < length text.now)) }
    ensures whole { IfSome result (λ number. is_ascii_digit (get_or text.now number.1 0) ≡ false) }
{
    let mut value = first_digit(text, at)?;
    for i in at + 1..end_of_few(text, at) {
        let b = text[i];
        if !b.is_ascii_digit() {
            return Some((value, i));
        }
        value = 10 * value + u64::from(b - b'0');
    }
    None
}

// Where few digits from `at` on end, or the text does.
fn end_of_few(text: &[u8], at: usize) -> usize
    requires { at ≤ length text.now }
    ensures within { result ≤ length text.now }
    ensures few { result ≤ at + 18 }
{
    if text.len() - at < FEW {
        text.len()
    } else {
        at + FEW
    }
}

// The digit at `at`, where it isn't 0.
fn first_digit(text: &[u8], at: usize) -> Option<u64>
    requires { at ≤ length text.now }
    ensures inside { IfSome result (λ _. at < length text.now) }
    ensures value { IfSome result (λ value. slice_range text.now at (at + 1) ≡ decimal value) }
    ensures range { IfSome result (λ value. (0 < value) × (value < 10)) }
{
    if at == text.len() || text[at] == b'0' || !text[at].is_ascii_digit() {
        return None;
    }
    Some(u64::from(text[at] - b'0'))
}

// The longest number of the range that stands at `at`, and where it ends, read a digit at a time as far as they begin one.
#[cold]
#[inline(never)]
fn any_number(text: &[u8], at: usize, low: u64, high: u64) -> Result<(u64, usize), usize>
    requires at { at ≤ length text.now }
    requires range { low ≤ high }
    ensures passes { IfOk result (λ number. Passes (IsDecimalIn low high) text.now at number.1) }
    ensures value { IfOk result (λ number. slice_range text.now at number.1 ≡ decimal number.0) }
    ensures range { IfOk result (λ number. (low ≤ number.0) × (number.0 ≤ high)) }
    ensures wrong { IfErr result (Misses (IsDecimalIn low high) text.now at) }
{
    let (value, end) = decimal_run(text, at, low, high);
    match value {
        None => Err(end),
        Some(value) => {
            if low <= value {
                Ok((value, end))
            } else {
                Err(end)
            }
        }
    }
}

// The number whose digits begin a number of the range, read from `at` on as far as they do, and where they end.
fn decimal_run(text: &[u8], at: usize, low: u64, high: u64) -> (Option<u64>, usize)
    requires at { at ≤ length text.now }
    requires range { low ≤ high }
    ensures digits { slice_range text.now at result.1 ≡ digits_so_far result.0 }
    ensures within { IfSome result.0 (λ value. value ≤ high) }
    ensures stops { StopsAt (IsDecimalIn low high) text.now at result.1 }
{
    let mut value = None;
    for i in at..text.len() {
        match longer(value, text[i], low, high) {
            Some(next) => value = Some(next),
            None => return (value, i),
        }
    }
    (value, text.len())
}

// The number with one more digit, where that begins a number of the range.
fn longer(value: Option<u64>, b: u8, low: u64, high: u64) -> Option<u64>
    requires { low ≤ high }
    ensures none { MatchOption result (Begins (IsDecimalIn low high) (digits_so_far value ++ b ∷ []) → ⊥) (λ _. Unit {0}) }
    ensures digits { MatchOption result (Unit {0}) (λ next. digits_so_far value ++ b ∷ [] ≡ decimal next) }
    ensures begins { MatchOption result (Unit {0}) (λ next. Begins (IsDecimalIn low high) (decimal next)) }
    ensures within { IfSome result (λ next. next ≤ high) }
{
    let next = with_digit(value, b)?;
    if begins(next, low, high) {
        Some(next)
    } else {
        None
    }
}

// The number with one more digit, where it is below 2^64 and has no leading zero.
fn with_digit(value: Option<u64>, b: u8) -> Option<u64>
    ensures { MatchOption result (Begins (IsDecimalIn 0 (2 ^ 64 - 1)) (digits_so_far value ++ b ∷ []) → ⊥) (λ next.
        digits_so_far value ++ b ∷ [] ≡ decimal next) }
{
    if !b.is_ascii_digit() {
        return None;
    }
    let digit = u64::from(b - b'0');
    match value {
        None => Some(digit),
        Some(value) => pushed(value, digit),
    }
}

// Ten times the value and the digit, where the value is not 0 and that is below 2^64.
fn pushed(value: u64, digit: u64) -> Option<u64>
    requires { digit < 10 }
    ensures next { SomeIff result ((0 < value) × (10 * value + digit < 2 ^ 64)) (10 * value + digit) }
    ensures range { value < 2 ^ 64 }
{
    if value == 0 {
        return None;
    }
    value.checked_mul(10)?.checked_add(digit)
}

// Whether the digits of the value begin a number of the range.
fn begins(value: u64, low: u64, high: u64) -> bool
    requires { low ≤ high }
    ensures begins { IsTrue result ↔ Begins (IsDecimalIn low high) (decimal value) }
    ensures within { IsTrue result → value ≤ high }
{
    value <= high && (low <= value || value != 0 && begins(value, low / 10, high / 10))
}
