// A graph whose edges come one by one, each only if it closes no ring.
ghost use Rattle.std.specs.Prelude.{◌≡◌, ◌<◌, [], length, IfOk, if◌then◌else◌, Bool};
ghost use Rattle.gos_order.specs.Rings.{HasRing, IsInRange, and_edge};
ghost use Rattle.gos_order.specs.Depths.{AreDepths};
ghost use Rattle.gos_order.specs.Added.{is_added};

use crate::depths::depths_of;
use crate::levels::{raise, room};
use crate::links::Links;
use crate::nodes::Nodes;
use gos_types::NoMemory;
use std::alloc::Global;
use std::marker::Model;

/// A graph without a ring, in which each node has a level.
#[derive(Drop)]
pub struct Order {
    links: Links,
    levels: Vec<usize>,
    // What the searches for the last edge have reached.
    before: Nodes,
    behind: Nodes,
}

impl Model for Order {
    ghost use Rattle.gos_order.specs.Rings.{Graph};

    ghost Value = { Graph };

    ghost use Rattle.gos_order.specs.inner.Orders.{seen, IsOrdered};

    ghost view = { seen };

    ghost invariant = { IsOrdered };
}

impl Order {
    /// So many nodes, and no edge. All memory but that for edges is taken here.
    pub fn new(alloc: Global, nodes: u32) -> Result<Order, NoMemory>
        ensures { IfOk result (λ order. order ≡ record { nodes = nodes; edges = [] }) }
    {
        let links = Links::new(alloc, nodes)?;
        let levels = vec![in alloc; 0; nodes as usize]?;
        let before = Nodes::new(alloc, nodes)?;
        let behind = Nodes::new(alloc, nodes)?;
        Ok(Order {
            links,
            levels,
            before,
            behind,
        })
    }

    /// How many edges there are. They are between nodes, and have no ring.
    pub fn len(&self) -> usize
        ensures count { result ≡ length self.now.edges }
        ensures range { IsInRange self.now }
        ensures ringless { HasRing self.now.edges → ⊥ }
    {
        let _levels = &self.levels;
        self.links.len()
    }

    /// How deep each node lies: the number of edges on the longest path that leads to it. `Err` is want of memory alone.
    pub fn depths(&self, alloc: Global) -> Result<Vec<u32>, NoMemory>
        ensures { IfOk result (λ depths. AreDepths self.now depths.items) }
    {
        // What a search reaches is below the count of nodes.
        depths_of(alloc, &self.links, self.before.bound())
    }

    /// Adds an edge behind the others if it closes no ring, and tells whether it did. `Err` is want of memory alone.
    pub fn add(&mut self, from: u32, to: u32) -> Result<bool, NoMemory>
        requires from { from < self.old.nodes }
        requires to { to < self.old.nodes }

        // It is added exactly where the edges have no ring with it.
        ensures added { IfOk result (λ added. added ≡ Bool.true → HasRing (and_edge self.old.edges from to) → ⊥) }
        ensures refused { IfOk result (λ added. added ≡ Bool.false → HasRing (and_edge self.old.edges from to)) }

        // Where it isn't added, nothing changes.
        ensures after { self.new ≡ (if is_added result then record self.old { edges = and_edge self.old.edges from to } else self.old) }
    {
        if from == to {
            return Ok(false);
        }
        let Some(level) = room(
            &self.links,
            &self.levels,
            &mut self.before,
            &mut self.behind,
            from,
            to,
        ) else {
            return Ok(false);
        };
        self.links.add(from, to)?;
        raise(&mut self.levels, &self.behind, level);
        Ok(true)
    }
}
