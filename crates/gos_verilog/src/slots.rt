// Lines of words and numbers. `Err` is the place of the first byte that can't go on as the line, or the end of the text.
ghost use Rattle.std.specs.Prelude.{◌≡◌, ◌≤◌, ◌++◌, ℕ, List, IfOk, IfErr, OnErr, MatchResult, length};
ghost use Rattle.gos_lex.specs.Items.{Misses, IsJust};
ghost use Rattle.gos_lex.specs.ItemTexts.{Passed, IsTextOf};
ghost use Rattle.gos_verilog.specs.inner.Runs.{IsRun, run_text};
ghost use Rattle.gos_verilog.specs.inner.Stages.{Rest};
ghost use Rattle.gos_verilog.specs.inner.Slots.{IsSlot, IsRightSlot, AreSlots, FitSlots, slot_text, line_text, IsLine, Slot'};

use gos_lex::Cursor;
use gos_types::{GREATEST_WIDTH, NoMemory};
use smallvec::SmallVec;
use std::alloc::Global;
use std::marker::Model;

/// The greatest number of a net.
pub const LAST_NET: u64 = 4_294_967_295;

/// The greatest number of a value's last bit.
pub const LAST_BIT: u64 = (GREATEST_WIDTH - 1) as u64;

/// A word, a number of a range, and the byte that ends it.
#[derive(Drop)]
pub struct Slot<'a> {
    pub before: &'a [u8],
    pub low: u64,
    pub high: u64,
    pub end: u8,
}

impl<'a> Model for Slot<'a> {
    ghost use Rattle.gos_verilog.specs.inner.Slots.{Slot'};

    ghost Value = { Slot' };

    ghost view = { λ s. record { before = s.before.now; low = s.low; high = s.high; end = s.end } };
}

/// The numbers of a line: four at most.
pub type Numbers = SmallVec<u64, 4>;

/// Passes a line of these slots and this word behind them, and gives its numbers.
pub fn line(
    alloc: Global,
    cursor: &mut Cursor,
    slots: &[Slot],
    tail: &[u8],
) -> Result<Numbers, usize>
    requires few { length slots.now ≤ 4 }
    requires right { AreSlots slots.now }
    requires within { cursor.now.at ≤ length cursor.now.text }
    ensures count { IfOk result (λ numbers. length numbers.items ≡ length slots.now) }
    ensures fit { IfOk result (λ numbers. FitSlots slots.now numbers.items) }
    ensures passed { IfOk result (λ numbers. Passed cursor.old cursor.new (line_text slots.now tail.now numbers.items)) }
    ensures wrong { IfErr result (Misses (IsLine slots.now tail.now) cursor.old.text cursor.old.at) }
{
    let numbers = slots_of(alloc, cursor, slots)?;
    cursor.word(tail)?;
    Ok(numbers)
}

// Passes slots.
fn slots_of(alloc: Global, cursor: &mut Cursor, slots: &[Slot]) -> Result<Numbers, usize>
    requires few { length slots.now ≤ 4 }
    requires right { AreSlots slots.now }
    requires within { cursor.now.at ≤ length cursor.now.text }
    ensures count { IfOk result (λ numbers. length numbers.items ≡ length slots.now) }
    ensures fit { IfOk result (λ numbers. FitSlots slots.now numbers.items) }
    ensures passed { IfOk result (λ numbers. Passed cursor.old cursor.new (run_text Slot' ℕ slot_text slots.now numbers.items)) }
    ensures wrong { IfErr result (Misses (IsRun Slot' ℕ IsSlot slot_text slots.now) cursor.old.text cursor.old.at) }
{
    let mut numbers = SmallVec::new(alloc);
    for slot in slots {
        let n = pass_slot(cursor, slot)?;
        numbers.push_reserved(n);
    }
    Ok(numbers)
}

// Passes a slot.
fn pass_slot(cursor: &mut Cursor, slot: &Slot) -> Result<u64, usize>
    requires { IsRightSlot slot.now }
    ensures range { IfOk result (IsSlot slot.now) }
    ensures passed { IfOk result (λ n. Passed cursor.old cursor.new (slot_text slot.now n)) }
    ensures wrong { IfErr result (Misses (IsTextOf ℕ (IsSlot slot.now) (slot_text slot.now)) cursor.old.text cursor.old.at) }
{
    cursor.word(slot.before)?;
    let n = cursor.ended_number(slot.low, slot.high, slot.end)?;
    Ok(n)
}

/// Passes exactly these bytes.
pub fn pass(cursor: &mut Cursor, bytes: &[u8]) -> Result<(), usize>
    ensures text { cursor.new.text ≡ cursor.old.text }
    ensures forward { cursor.old.at ≤ cursor.new.at }
    ensures passed { IfOk result (λ _. Passed cursor.old cursor.new bytes.now) }
    ensures wrong { IfErr result (Misses (IsJust bytes.now) cursor.old.text cursor.old.at) }
    ensures stays { OnErr result (cursor.new ≡ cursor.old) }
    ensures stands { (x : List ℕ) → Rest cursor.old (bytes.now ++ x) → MatchResult result (λ _. Rest cursor.new x) (λ _. ⊥) }
{
    cursor.word(bytes)?;
    Ok(())
}

/// A name between two words.
pub fn framed(alloc: Global, before: &[u8], name: &[u8], behind: &[u8]) -> Result<Vec<u8>, NoMemory>
    ensures { IfOk result (λ text. text.items ≡ before.now ++ name.now ++ behind.now) }
{
    let mut text = before.to_vec(alloc)?;
    text.extend_from_slice(name)?;
    text.extend_from_slice(behind)?;
    Ok(text)
}
