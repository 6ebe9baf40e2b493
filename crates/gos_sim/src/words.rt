// Numbers in words of one size.
ghost use Rattle.std.specs.Prelude.{◌≡◌, ◌<◌, IfOk, length, replicate, set};
ghost use Rattle.gos_netlist.specs.Settling.{at};

use crate::word::Word;
use gos_types::NoMemory;
use std::alloc::Global;
use std::marker::Model;

/// Numbers in words. Clauses see them as the numbers.
#[derive(Drop)]
pub struct Words<W: Word> {
    /// The words. A loop over many of them takes them as a slice: where they lie is then looked up once, and not for each of them.
    pub items: Vec<W>,
}

impl<W: Word> Model for Words<W> {
    ghost use Rattle.std.specs.Prelude.{List, ℕ, map};

    ghost Value = { List ℕ };

    ghost view = { λ w. map W.number w.items.items };
}

impl<W: Word> Words<W> {
    // So many zeros.
    pub fn zeros(alloc: Global, count: usize) -> Result<Words<W>, NoMemory>
        ensures { IfOk result (λ words. words ≡ replicate count 0) }
    {
        Ok(Words {
            items: W::zeros(alloc, count)?,
        })
    }

    // How many there are.
    pub fn len(&self) -> usize
        ensures { result ≡ length self.now }
    {
        self.items.len()
    }

    // The number at a place.
    pub fn get(&self, place: usize) -> W
        requires { place < length self.now }
        ensures { W.number result ≡ at self.now place }
    {
        self.items[place]
    }

    // Puts a number at a place.
    pub fn set(&mut self, place: usize, word: W)
        requires { place < length self.old }
        ensures { self.new ≡ set self.old place (W.number word) }
    {
        self.items[place] = word;
    }

    // Makes all of them 0.
    pub fn clear(&mut self)
        ensures { self.new ≡ replicate (length self.old) 0 }
    {
        W::clear(&mut self.items);
    }

    // Copies as many others.
    pub fn copy_from(&mut self, others: &Words<W>)
        requires { length others.now ≡ length self.old }
        ensures { self.new ≡ others.now }
    {
        self.items.copy_from_slice(&others.items);
    }
}
