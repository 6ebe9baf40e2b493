// The edges of a graph, linked so that those that begin or end at a node are found in time for each.
ghost use Rattle.std.specs.Prelude.{◌≡◌, ◌<◌, ◌^◌, [], length, IfOk, OnOk, OnErr};
ghost use Rattle.gos_order.specs.Rings.{IsInRange, and_edge};
ghost use Rattle.gos_order.specs.inner.Chains.{IsLast, near_at, far_at};

use gos_types::NoMemory;
use std::alloc::Global;
use std::marker::Model;

/// Which way edges are followed: out of a node, to where they lead, or into it, to where they come from.
#[derive(Clone, Copy)]
pub enum Way {
    Out,
    In,
}

// An edge, and the edges before it that begin and end where it does. A place is one more than the edge's, and 0 is none.
#[derive(Clone, Copy)]
struct Entry {
    from: u32,
    to: u32,
    next_out: usize,
    next_in: usize,
}

/// The edges of a graph.
#[derive(Drop)]
pub struct Links {
    entries: Vec<Entry>,
    // The place of the last edge that begins at each node, and of the last that ends there.
    last_out: Vec<usize>,
    last_in: Vec<usize>,
}

impl Model for Links {
    ghost use Rattle.gos_order.specs.Rings.{Graph};

    ghost Value = { Graph };

    ghost use Rattle.gos_order.specs.inner.Links.{graph_of, AreLinked};

    ghost view = { graph_of };

    ghost invariant = { AreLinked };
}

impl Links {
    /// So many nodes, and no edge.
    pub fn new(alloc: Global, nodes: u32) -> Result<Links, NoMemory>
        ensures { IfOk result (λ links. links ≡ record { nodes = nodes; edges = [] }) }
    {
        let last_out = vec![in alloc; 0; nodes as usize]?;
        let last_in = vec![in alloc; 0; nodes as usize]?;
        Ok(Links {
            entries: Vec::new(alloc),
            last_out,
            last_in,
        })
    }

    /// How many edges there are. They are between nodes.
    pub fn len(&self) -> usize
        ensures count { result ≡ length self.now.edges }
        ensures small { result < 2 ^ 63 }
        ensures range { IsInRange self.now }
    {
        self.entries.len()
    }

    /// One more than the place of the last edge at a node, or 0.
    pub fn last(&self, way: Way, node: u32) -> usize
        requires { node < self.now.nodes }
        ensures { IsLast way self.now.edges (length self.now.edges) node result }
    {
        match way {
            Way::Out => self.last_out[node as usize],
            Way::In => self.last_in[node as usize],
        }
    }

    /// One more than the place of the edge before one at the same node, or 0.
    pub fn next(&self, way: Way, place: usize) -> usize
        requires { place < length self.now.edges }
        ensures { IsLast way self.now.edges place (near_at way self.now.edges place) result }
    {
        match way {
            Way::Out => self.entries[place].next_out,
            Way::In => self.entries[place].next_in,
        }
    }

    /// Where the edge at a place ends, if it is followed this way.
    pub fn far(&self, way: Way, place: usize) -> u32
        requires { place < length self.now.edges }
        ensures node { result ≡ far_at way self.now.edges place }
        ensures below { result < self.now.nodes }
    {
        match way {
            Way::Out => self.entries[place].to,
            Way::In => self.entries[place].from,
        }
    }

    /// Adds an edge behind the others. `Err` is want of memory alone.
    pub fn add(&mut self, from: u32, to: u32) -> Result<(), NoMemory>
        requires from { from < self.old.nodes }
        requires to { to < self.old.nodes }
        ensures added { OnOk result (self.new ≡ record self.old { edges = and_edge self.old.edges from to }) }
        ensures small { OnOk result (length self.new.edges < 2 ^ 63) }
        ensures err { OnErr result (self.new ≡ self.old) }
    {
        let next_out = self.last_out[from as usize];
        let next_in = self.last_in[to as usize];
        self.entries.push(Entry {
            from,
            to,
            next_out,
            next_in,
        })?;
        let place = self.entries.len();
        self.last_out[from as usize] = place;
        self.last_in[to as usize] = place;
        Ok(())
    }
}
