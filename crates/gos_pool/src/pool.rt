// A pool of cells.
ghost use Rattle.std.specs.Prelude.{◌≡◌, ◌+◌, ◌++◌, ◌<◌, ◌≤◌, [], Some, None, length, map, take, OnOk, OnErr};
ghost use Rattle.gos_netlist.specs.Seen.{cell_of, number_of};
ghost use Rattle.gos_pool.specs.Pools.{IsInOrder, KeepsClosed, with_cell, with_closed};
ghost use Rattle.gos_pool.specs.Marks.{CanCutBack};

use crate::region::{ClosedRegion, Mark, Region};
use gos_netlist::{Cell, NetId};
use gos_types::NoMemory;
use std::alloc::Global;
use std::marker::Model;

/// The cells of a netlist that is being made, in regions. A cell's place is its net.
#[derive(Debug, Drop)]
pub struct NetPool {
    cells: Vec<Cell>,
    closed: Vec<ClosedRegion>,
    begun: Option<u32>,
    spare: usize,
}

impl Model for NetPool {
    ghost use Rattle.gos_pool.specs.Pools.{Pool};

    ghost Value = { Pool };

    ghost use Rattle.gos_pool.specs.inner.Inside.{pool_of, IsKept};

    ghost view = { pool_of };

    ghost invariant = { IsKept };
}

impl NetPool {
    /// An empty pool. It takes no memory.
    pub fn new(alloc: Global) -> NetPool
        ensures { result ≡ record { cells = []; closed = []; begun = None; spare = 0 } }
    {
        NetPool {
            cells: Vec::new(alloc),
            closed: Vec::new(alloc),
            begun: None,
            spare: 0,
        }
    }

    /// Takes memory for `n` cells and closed regions, together. `Err` is want of memory alone.
    pub fn reserve(&mut self, n: usize) -> Result<(), NoMemory>
        requires { length self.old.cells + n ≤ 4294967295 }
        ensures spare { OnOk result (n ≤ self.new.spare) }

        // The cells and the regions stay, and spare doesn't fall.
        ensures lists { self.new ≡ record self.old { spare = self.new.spare } }
        ensures not_less { self.old.spare ≤ self.new.spare }
        ensures err { OnErr result (self.new ≡ self.old) }
        ensures kept { KeepsClosed self.old self.new }
    {
        self.cells.reserve(n)?;
        self.closed.reserve(n)?;
        self.spare = self.spare.max(n);
        Ok(())
    }

    /// Begins a region at the end of the cells. It takes no memory.
    pub fn begin(&mut self) -> Region
        requires { self.old.begun ≡ None }
        ensures start { result ≡ length self.old.cells }
        ensures begun { self.new ≡ record self.old { begun = Some result } }
        ensures kept { KeepsClosed self.old self.new }
    {
        let start = self.cells.len() as u32;
        self.begun = Some(start);
        Region::starting_at(start)
    }

    /// Places a cell behind the others, and gives the net that it drives. Its pins may name nets that aren't placed
    /// yet. It takes no memory.
    pub fn place(&mut self, region: &mut Region, cell: Cell) -> NetId
        requires begun { self.old.begun ≡ Some region.old }
        requires spare { 0 < self.old.spare }
        ensures cell { self.new ≡ with_cell self.old (cell_of cell) }
        ensures net { number_of result ≡ length self.old.cells }
        ensures region { region.new ≡ region.old }
        ensures kept { KeepsClosed self.old self.new }
    {
        let net = NetId(self.cells.len() as u32);
        self.cells.push_reserved(cell);
        self.spare -= 1;
        net
    }

    /// Places cells behind the others, in their order. It takes no memory.
    pub fn place_all(&mut self, region: &mut Region, cells: &[Cell])
        requires begun { self.old.begun ≡ Some region.old }
        requires spare { length cells.now ≤ self.old.spare }
        ensures cells { self.new.cells ≡ self.old.cells ++ map cell_of cells.now }
        ensures spare { self.old.spare ≡ self.new.spare + length cells.now }
        ensures begun { self.new.begun ≡ self.old.begun }
        ensures closed { self.new.closed ≡ self.old.closed }
        ensures region { region.new ≡ region.old }
        ensures kept { KeepsClosed self.old self.new }
    {
        for cell in cells {
            self.place(region, *cell);
        }
    }

    /// Closes the region that is begun. From now on its cells never change. It takes no memory.
    pub fn finish(&mut self, region: Region)
        requires begun { self.old.begun ≡ Some region }
        requires spare { 0 < self.old.spare }
        ensures closed { self.new ≡ with_closed self.old region }
        ensures kept { KeepsClosed self.old self.new }
    {
        let closed = ClosedRegion {
            start: region.start(),
            end: self.cells.len() as u32,
        };
        self.closed.push_reserved(closed);
        self.begun = None;
        self.spare -= 1;
    }

    /// How far the pool has come. It takes no memory.
    pub fn mark(&self) -> Mark
        requires { self.now.begun ≡ None }
        ensures cells { result.cells ≡ length self.now.cells }
        ensures regions { result.regions ≡ length self.now.closed }

        // The pool can be cut back to it, and its regions lie one after the other.
        ensures cut { CanCutBack self.now result }
        ensures order { IsInOrder self.now }
    {
        Mark {
            cells: self.cells.len(),
            regions: self.closed.len(),
        }
    }

    /// Takes away what lies behind a mark, and the region that is begun, if one is. It takes no memory.
    pub fn cut_back(&mut self, mark: Mark)
        requires { CanCutBack self.old mark }
        ensures cells { self.new.cells ≡ take mark.cells self.old.cells }
        ensures closed { self.new.closed ≡ take mark.regions self.old.closed }
        ensures begun { self.new.begun ≡ None }
        ensures spare { self.old.spare ≤ self.new.spare }

        // The regions that are still closed have their cells as before.
        ensures kept { KeepsClosed self.new self.old }
    {
        self.cells.truncate(mark.cells);
        self.begun = None;
        self.closed.truncate(mark.regions);
    }

    /// The cells. It takes no memory.
    pub fn into_cells(self) -> Vec<Cell>
        ensures { map cell_of result.items ≡ self.cells }
    {
        let NetPool {
            cells,
            closed: _,
            begun: _,
            spare: _,
        } = self;
        cells
    }
}
