// A place in a text of fixed form, which moves on over what is asked for.

ghost use Rattle.std.specs.Prelude.{◌≡◌, ℕ, ◌+◌, ◌-◌, ◌≤◌, ◌<◌, ◌↔◌, ◌++◌, ◌∷◌, List, false, length, drop, IsTrue, IfOk, IfErr, OnOk, OnErr, MatchResult};
ghost use Rattle.std.specs.Char.{is_ascii_digit};
ghost use Rattle.std.specs.List.{slice_range};
ghost use Rattle.std.specs.Fmt.{decimal};
ghost use Rattle.gos_lex.specs.Names.{IsNameOrWord, IsSpelled};
ghost use Rattle.gos_lex.specs.Items.{IsJust, Passes, StopsAt, Misses};
ghost use Rattle.gos_lex.specs.Decimals.{IsDecimalIn};
ghost use Rattle.gos_lex.specs.ItemTexts.{Passed, ended, IsInRange, IsNumberText};

use crate::decimal::number_end;
use crate::name::name_end;
use crate::token::Span;
use std::marker::Model;

/// A text and a place in it. No call takes memory, and a call that answers `Err` leaves the cursor where it is.
#[derive(Debug, Drop)]
pub struct Cursor<'a> {
    text: &'a [u8],
    at: usize,
}

impl<'a> Model for Cursor<'a> {
    ghost use Rattle.std.specs.Prelude.{◌≤◌, length};
    ghost use Rattle.gos_lex.specs.Items.{TextAt};

    ghost Value = { TextAt };

    ghost view = { λ cursor. record { text = cursor.text.now; at = cursor.at } };

    ghost invariant = { λ cursor. cursor.at ≤ length cursor.text.now };
}

impl<'a> Cursor<'a> {
    /// A cursor at the start of the text.
    pub fn new(text: &'a [u8]) -> Cursor<'a>
        ensures text { result.text ≡ text.now }
        ensures at { result.at ≡ 0 }
    {
        Cursor { text, at: 0 }
    }

    /// The place of the cursor: how many bytes stand before it.
    pub fn at(&self) -> usize
        ensures at { result ≡ self.now.at }
        ensures within { self.now.at ≤ length self.now.text }
    {
        self.at
    }

    /// The bytes from the cursor on.
    pub fn rest(&self) -> &[u8]
        ensures { result.now ≡ drop self.now.at self.now.text }
    {
        &self.text[self.at..]
    }

    /// Whether the cursor is at the end of the text.
    pub fn finished(&self) -> bool
        ensures { IsTrue result ↔ (self.now.at ≡ length self.now.text) }
    {
        self.at == self.text.len()
    }

    /// Passes exactly these bytes. `Err` is the place of the first byte that differs, or the end of the text.
    pub fn word(&mut self, bytes: &[u8]) -> Result<(), usize>
        ensures text { self.new.text ≡ self.old.text }
        ensures passes { OnOk result (Passes (IsJust bytes.now) self.old.text self.old.at self.new.at) }
        ensures wrong { IfErr result (Misses (IsJust bytes.now) self.old.text self.old.at) }
        ensures stays { OnErr result (self.new ≡ self.old) }
    {
        self.at = word_end(self.text, self.at, bytes)?;
        Ok(())
    }

    /// Passes the longest number from `low` to `high`, written in decimal digits without leading zeros.
    /// `Err` is the place of the first byte with which no such number can go on, or the end of the text.
    pub fn number(&mut self, low: u64, high: u64) -> Result<u64, usize>
        requires { low ≤ high }
        ensures text { self.new.text ≡ self.old.text }
        ensures passes { OnOk result (Passes (IsDecimalIn low high) self.old.text self.old.at self.new.at) }
        ensures value { IfOk result (λ value. slice_range self.old.text self.old.at self.new.at ≡ decimal value) }
        ensures range { IfOk result (λ value. (low ≤ value) × (value ≤ high)) }
        ensures wrong { IfErr result (Misses (IsDecimalIn low high) self.old.text self.old.at) }
        ensures stays { OnErr result (self.new ≡ self.old) }
    {
        let (value, end) = number_end(self.text, self.at, low, high)?;
        self.at = end;
        Ok(value)
    }

    /// Passes a number from `low` to `high`, written in decimal digits without leading zeros, and the byte that ends it.
    /// `Err` is the place of the first byte with which no such number and byte can go on, or the end of the text.
    pub fn ended_number(&mut self, low: u64, high: u64, end: u8) -> Result<u64, usize>
        requires range { low ≤ high }
        requires no_digit { is_ascii_digit end ≡ false }
        ensures text { self.new.text ≡ self.old.text }
        ensures range { IfOk result (IsInRange low high) }
        ensures passed { IfOk result (λ n. Passed self.old self.new (ended end (decimal n))) }
        ensures wrong { IfErr result (Misses (IsNumberText low high end) self.old.text self.old.at) }
        ensures stands { (n : ℕ) (x : List ℕ) → low ≤ n → n ≤ high → drop self.old.at self.old.text ≡ decimal n ++ (end ∷ x)
            → MatchResult result (λ found. (found ≡ n) × (drop self.new.at self.new.text ≡ x)) (λ _. ⊥) }
        ensures stays { OnErr result (self.new ≡ self.old) }
    {
        let (value, digits_end) = number_end(self.text, self.at, low, high)?;
        self.at = word_end(self.text, digits_end, &[end])?;
        Ok(value)
    }

    /// Passes the longest name, where words are names too, and gives its place.
    /// `Err` is the place of the cursor, where no name begins there, or of the 256th byte of a name that is too long.
    pub fn name(&mut self) -> Result<Span, usize>
        ensures text { self.new.text ≡ self.old.text }
        ensures span { IfOk result (λ span. (span.from ≡ self.old.at) × (span.to ≡ self.new.at)) }
        ensures passes { OnOk result (Passes IsSpelled self.old.text self.old.at self.new.at) }
        ensures name { OnOk result (IsNameOrWord (slice_range self.old.text self.old.at self.new.at)) }
        ensures wrong { IfErr result (StopsAt IsNameOrWord self.old.text self.old.at) }
        ensures none { OnErr result ((to : ℕ) → Passes IsSpelled self.old.text self.old.at to → 255 < to - self.old.at) }
        ensures stays { OnErr result (self.new ≡ self.old) }
    {
        let from = self.at;
        self.at = name_end(self.text, from)?;
        Ok(Span { from, to: self.at })
    }
}

// Where these bytes end, if they stand at `at`.
fn word_end(text: &[u8], at: usize, bytes: &[u8]) -> Result<usize, usize>
    requires { at ≤ length text.now }
    ensures passes { IfOk result (Passes (IsJust bytes.now) text.now at) }
    ensures wrong { IfErr result (Misses (IsJust bytes.now) text.now at) }
{
    for (i, b) in bytes.iter().enumerate() {
        if at + i == text.len() || text[at + i] != *b {
            return Err(at + i);
        }
    }
    Ok(at + bytes.len())
}
