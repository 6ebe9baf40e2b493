// A table of nets, by what their cells are read as. What a cell is read as may change, and then its old place only fills the
// table; so it is emptied once three quarters of it are taken, and filled anew.
use crate::shape::Shape;
use gos_types::NoMemory;
use std::alloc::Global;

// A place of the table.
#[derive(Debug, Clone, Copy)]
pub(crate) enum Slot {
    Free,
    // A net, and some bits of what its cell was read as.
    Taken { net: u32, tag: u32 },
}

// The table.
#[derive(Debug, Drop)]
pub(crate) struct Slots {
    slots: Vec<Slot>,
    // How many places are taken.
    taken: usize,
}

// Mixes a number into others.
fn mixed(so_far: u64, number: u64) -> u64 {
    let turned = (so_far ^ number).wrapping_mul(0x9E37_79B9_7F4A_7C15);
    turned ^ (turned >> 29)
}

// A number that spreads shapes over the table.
pub(crate) fn spread(shape: &Shape) -> u64 {
    let head = (u64::from(shape.width) << 32) | (shape.kind as u64);
    let nets = (u64::from(shape.first) << 32) | u64::from(shape.second);
    let tail = mixed(
        mixed(mixed(head, nets), u64::from(shape.third)),
        shape.number,
    );
    tail.wrapping_mul(0x94D0_49BB_1331_11EB) ^ (tail >> 31)
}

// The bits of a spread number that stand in the table.
pub(crate) fn tag_of(spread: u64) -> u32 {
    (spread >> 32) as u32
}

impl Slots {
    // A table with room for so many nets.
    pub(crate) fn new(alloc: Global, count: usize) -> Result<Slots, NoMemory> {
        let room = count.saturating_mul(2).saturating_add(1);
        Ok(Slots {
            slots: vec![in alloc; Slot::Free; room]?,
            taken: 0,
        })
    }

    // Whether three quarters of the places are taken.
    pub(crate) fn is_full(&self) -> bool {
        self.taken > self.slots.len() / 4 * 3
    }

    // Frees all places.
    pub(crate) fn clear(&mut self) {
        for slot in self.slots.iter_mut() {
            *slot = Slot::Free;
        }
        self.taken = 0;
    }

    // The place at which the search for a shape begins.
    pub(crate) fn first_place(&self, spread: u64) -> usize {
        let room = self.slots.len();
        if room == 0 {
            return 0;
        }
        ((u128::from(spread) * (room as u128)) >> 64) as usize
    }

    // The place behind a place; the first one behind the last.
    pub(crate) fn next_place(&self, place: usize) -> usize {
        let next = place.saturating_add(1);
        if next < self.slots.len() { next } else { 0 }
    }

    // How many places there are.
    pub(crate) fn len(&self) -> usize {
        self.slots.len()
    }

    // What stands at a place.
    pub(crate) fn at(&self, place: usize) -> Slot {
        match self.slots.get(place) {
            Some(slot) => *slot,
            None => Slot::Free,
        }
    }

    // Puts a net at a free place.
    pub(crate) fn put(&mut self, place: usize, net: u32, tag: u32) {
        if place < self.slots.len() {
            self.slots[place] = Slot::Taken { net, tag };
            self.taken = self.taken.saturating_add(1);
        }
    }
}
