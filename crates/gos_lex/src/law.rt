// The laws of reading: `Ok` and `Err` of `scan` exclude one another, and `Err` of a cursor names one place alone.

ghost use Rattle.std.specs.Prelude.{ℕ, List};
ghost use Rattle.gos_lex.specs.Names.{IsNameOrWord};
ghost use Rattle.gos_lex.specs.Items.{IsJust, BreaksOffOnce};
ghost use Rattle.gos_lex.specs.Decimals.{IsDecimalIn};
ghost use Rattle.gos_lex.specs.OneReading.{ReadsInOneWay, FaultsExcludeTokens, HasOneFault};

/// Each text reads in at most one way: as its tokens, or with its one fault. The function does nothing; its contract is the law.
pub fn one_reading()
    ensures reading { (text : List ℕ) → ReadsInOneWay text }
    ensures refusal { (text : List ℕ) → FaultsExcludeTokens text }
    ensures fault { (text : List ℕ) → HasOneFault text }
{}

/// A word, a number and a name break off at one place alone. The function does nothing; its contract is the law.
pub fn one_place()
    ensures word { (bytes : List ℕ) → BreaksOffOnce (IsJust bytes) }
    ensures number { (low high : ℕ) → BreaksOffOnce (IsDecimalIn low high) }
    ensures name { BreaksOffOnce IsNameOrWord }
{}
