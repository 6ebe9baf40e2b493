// Marks of items: a bit for each, 64 of them a word.
ghost use Rattle.std.specs.Prelude.{◌≡◌, ◌≢◌, ℕ, ◌+◌, ◌<◌, ◌≤◌, ◌/◌, ◌^◌, IfOk, MatchOption, length};
ghost use Rattle.gos_netlist.specs.Settling.{at};
ghost use Rattle.gos_sim.specs.inner.Marks.{AreUnmarked, IsUnmarked, KeepsMarks};

use gos_types::NoMemory;
use std::alloc::Global;

/// Which items are marked.
#[derive(Drop)]
pub struct Marks {
    /// The bits of the items, the lowest one first.
    pub words: Vec<u64>,
}

impl Marks {
    // Marks in so many words, of which none is set.
    pub fn new(alloc: Global, words: usize) -> Result<Marks, NoMemory>
        ensures each { IfOk result (λ marks. length marks.words.items ≡ words) }
        ensures none { IfOk result (λ marks. AreUnmarked marks.words.items) }
    {
        let words = vec![in alloc; 0; words]?;
        Ok(Marks { words })
    }

    // Takes all marks away.
    pub fn clear(&mut self)
        ensures each { length self.new.words.items ≡ length self.old.words.items }
        ensures none { AreUnmarked self.new.words.items }
    {
        self.words.fill(0);
    }

    // Marks an item.
    pub fn mark(&mut self, item: usize)
        requires { item / 64 < length self.old.words.items }
        ensures each { length self.new.words.items ≡ length self.old.words.items }
        ensures marked { IsUnmarked self.new.words.items item → ⊥ }
        ensures kept { KeepsMarks self.old.words.items self.new.words.items }
    {
        self.words[item / 64] |= 1 << (item % 64);
    }

    // Takes the lowest mark of a word away, and gives its item.
    pub fn take(&mut self, word: usize) -> usize
        requires word { word < length self.old.words.items }
        requires some { 0 < at self.old.words.items word }
        requires few { length self.old.words.items ≤ 2 ^ 32 }
        ensures each { length self.new.words.items ≡ length self.old.words.items }
        ensures kept { (item : ℕ) → IsUnmarked self.new.words.items item → item ≢ result → IsUnmarked self.old.words.items item }
    {
        let bit = lowest(self.words[word]);
        self.words[word] &= !(1 << bit);
        word * 64 + bit
    }

    // A word that has a mark: the first one from a word on, or else the first one of all.
    pub fn marked_word(&self, from: usize) -> Option<usize>
        ensures { MatchOption result (AreUnmarked self.now.words.items) (λ word. (word < length self.now.words.items) × (0 < at self.now.words.items word)) }
    {
        match first_from(&self.words, from) {
            Some(word) => Some(word),
            None => first_from(&self.words, 0),
        }
    }
}

// The lowest bit of a word that is set.
fn lowest(word: u64) -> usize
    requires { 0 < word }
    ensures { result < 64 }
{
    word.trailing_zeros() as usize
}

// The first word from one on that isn't 0.
fn first_from(words: &[u64], from: usize) -> Option<usize>
    ensures { MatchOption result ((word : ℕ) → from ≤ word → at words.now word ≡ 0) (λ word. (word < length words.now) × (0 < at words.now word)) }
{
    for word in from..words.len() {
        if words[word] != 0 {
            return Some(word);
        }
    }
    None
}
