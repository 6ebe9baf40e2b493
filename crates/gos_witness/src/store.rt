// The numbers of the local variables and arrays of a running program, newest first.
//
// A location has a list of numbers, whose length stays: a variable's has one.
ghost use Rattle.std.specs.Prelude.{◌≡◌, ◌≤◌, None, Some, IfOk, IfSome, MatchOption, set, slice_get};
ghost use Rattle.gos_model.specs.Stores.{entry_at, number_at, store_put, without};
ghost use Rattle.gos_witness.specs.Lines.{IsLeastNew};
ghost use Rattle.gos_witness.specs.inner.Rows.{AreNarrow, entries_of, entry_of, IsNumberAt};

use crate::reading_nodes::Number;
use gos_types::NoMemory;

/// A location, the width of its numbers, and the numbers in the order of their indexes.
#[derive(Drop)]
pub struct Entry {
    pub place: u32,
    pub width: u32,
    pub numbers: Vec<u64>,
}

// What the store has at a location.
fn entry_at(store: &[Entry], place: u32) -> Option<&Entry>
    ensures found { MatchOption result (entry_at (entries_of store.now) place ≡ None)
        (λ entry. entry_at (entries_of store.now) place ≡ Some (entry_of entry.now)) }
    ensures place { IfSome result (λ entry. entry.now.place ≡ place) }
    ensures narrow { AreNarrow store.now → IfSome result (λ entry. entry.now.width ≤ 64) }
{
    for entry in store {
        if entry.place == place {
            return Some(entry);
        }
    }
    None
}

/// The number at an index of a location, if the store has one there.
pub fn number_in(store: &[Entry], place: u32, index: u64) -> Option<Number>
    ensures number { MatchOption result (number_at (entries_of store.now) place index ≡ None) (IsNumberAt (entries_of store.now) place index) }
    ensures narrow { AreNarrow store.now → IfSome result (λ number. number.width ≤ 64) }
{
    let entry = entry_at(store, place)?;
    let value = item_at(entry.numbers.as_slice(), index)?;
    Some(Number {
        value,
        width: entry.width,
    })
}

// An item of a list, if it has one there.
fn item_at(items: &[u64], index: u64) -> Option<u64>
    ensures { result ≡ slice_get items.now index }
{
    items.get(index as usize).copied()
}

/// The store with another number at an index of a location.
pub fn put(store: &mut [Entry], place: u32, index: u64, number: u64)
    ensures put { entries_of store.new ≡ store_put (entries_of store.old) place index number }
    ensures narrow { AreNarrow store.old → AreNarrow store.new }
{
    for at in 0..store.len() {
        if store[at].place == place {
            set_number(&mut store[at], index, number);
            return;
        }
    }
}

// Another number at an index of an entry, if it has one there.
fn set_number(entry: &mut Entry, index: u64, number: u64)
    ensures place { entry.new.place ≡ entry.old.place }
    ensures width { entry.new.width ≡ entry.old.width }
    ensures numbers { entry.new.numbers.items ≡ set entry.old.numbers.items index number }
{
    let at = index as usize;
    if at < entry.numbers.len() {
        entry.numbers[at] = number;
    }
}

/// The store without a location.
pub fn without(store: &mut Vec<Entry>, place: u32)
    ensures left { entries_of store.new.items ≡ without (entries_of store.old.items) place }
    ensures narrow { AreNarrow store.old.items → AreNarrow store.new.items }
{
    store.retain(|entry| entry.place != place);
}

/// The least location that the store doesn't have.
pub fn least_new(store: &[Entry]) -> Result<u32, NoMemory>
    ensures { IfOk result (IsLeastNew (entries_of store.now)) }
{
    for place in 0..u32::MAX {
        if entry_at(store, place).is_none() {
            return Ok(place);
        }
    }
    Err(NoMemory)
}
