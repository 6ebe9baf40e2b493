// What a pool hands out: the region that is begun, and a mark. And what it keeps of a closed region.
ghost use Rattle.std.specs.Prelude.{◌≡◌};

use std::marker::Model;

/// The region of a pool that is begun: the cells from its start on. Who holds it places the pool's next cells.
#[derive(Debug, Drop)]
pub struct Region {
    start: u32,
}

impl Model for Region {
    ghost use Rattle.std.specs.Prelude.{ℕ};

    ghost Value = { ℕ };

    ghost view = { λ r. r.start };
}

impl Region {
    // The region that starts at this cell.
    pub(crate) fn starting_at(start: u32) -> Region
        ensures { result ≡ start }
    {
        Region { start }
    }

    /// The number of its first cell.
    pub fn start(&self) -> u32
        ensures { result ≡ self.now }
    {
        self.start
    }
}

// A region that is closed: the cells from `start` on and below `end`.
#[derive(Debug, Clone, Copy)]
pub(crate) struct ClosedRegion {
    // The number of its first cell, if it has one.
    pub(crate) start: u32,
    // The number of the first cell behind it.
    pub(crate) end: u32,
}

/// How far a pool has come: so many cells and so many closed regions.
#[derive(Debug, Clone, Copy)]
pub struct Mark {
    // How many cells.
    pub(crate) cells: usize,
    // How many closed regions.
    pub(crate) regions: usize,
}
