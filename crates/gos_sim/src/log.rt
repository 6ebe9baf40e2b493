// A log of places, as far as there is room.
ghost use Rattle.std.specs.Prelude.{◌≡◌, ◌≢◌, ℕ, ◌⊎◌, ◌++◌, ◌∷◌, [], IfOk, IsFalse, IsTrue};
ghost use Rattle.gos_sim.specs.inner.Active.{Lacks};

use gos_types::NoMemory;
use std::alloc::Global;

/// Places that are noted.
#[derive(Drop)]
pub struct Log {
    /// Those for which there was room.
    pub places: Vec<u32>,
    /// Whether there may be others.
    pub full: bool,
}

impl Log {
    // A log with room for so many places. At first any place may be one of it.
    pub fn new(alloc: Global, room: usize) -> Result<Log, NoMemory>
        ensures full { IfOk result (λ log. IsTrue log.full) }
        ensures none { IfOk result (λ log. log.places.items ≡ []) }
    {
        let places = Vec::with_capacity(alloc, room)?;
        Ok(Log { places, full: true })
    }

    // Notes a place.
    pub fn note(&mut self, place: u32)
        ensures noted { (p : ℕ) → Lacks self.new p → place ≢ p }
        ensures kept { (p : ℕ) → Lacks self.new p → Lacks self.old p }
        ensures listed { (self.new.places.items ≡ self.old.places.items) ⊎ (self.new.places.items ≡ self.old.places.items ++ place ∷ []) }
    {
        if self.places.len() < self.places.capacity() {
            self.places.push_reserved(place);
        } else {
            self.full = true;
        }
    }

    // Forgets all places.
    pub fn clear(&mut self)
        ensures none { self.new.places.items ≡ [] }
        ensures full { IsFalse self.new.full }
    {
        self.places.clear();
        self.full = false;
    }

    // Forgets which places it has: any one may be one of it.
    pub fn spoil(&mut self)
        ensures none { self.new.places.items ≡ [] }
        ensures full { IsTrue self.new.full }
    {
        self.places.clear();
        self.full = true;
    }
    // Whether it has no place, and had room for all.
    pub fn is_empty(&self) -> bool
        ensures none { IsTrue result → self.now.places.items ≡ [] }
        ensures full { IsTrue result → IsFalse self.now.full }
    {
        !self.full && self.places.is_empty()
    }
}
