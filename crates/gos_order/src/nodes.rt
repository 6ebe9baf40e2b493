// Nodes that a search has reached, in the order in which it did.
//
// `places` tells where a node would stand in the list, and the list tells whether it does: so nothing has to be wiped
// before the next search (Briggs and Torczon, An efficient representation for sparse sets, 1993).
ghost use Rattle.std.specs.Prelude.{◌≡◌, ◌<◌, ◌≤◌, ◌++◌, ◌∷◌, [], ◌↔◌, length, IsTrue, IfOk};
ghost use Rattle.gos_order.specs.inner.NodeLists.{IsIn, at};

use gos_types::NoMemory;
use std::alloc::Global;
use std::marker::Model;

/// Different nodes, in an order.
#[derive(Drop)]
pub struct Nodes {
    items: Vec<u32>,
    places: Vec<u32>,
}

impl Model for Nodes {
    ghost use Rattle.gos_order.specs.inner.NodeLists.{NodeList};

    ghost Value = { NodeList };

    ghost use Rattle.gos_order.specs.inner.Nodes.{node_list_of, IsPlaced};

    ghost view = { node_list_of };

    ghost invariant = { IsPlaced };
}

impl Nodes {
    /// None of the nodes below a bound. All memory is taken here.
    pub fn new(alloc: Global, bound: u32) -> Result<Nodes, NoMemory>
        ensures { IfOk result (λ nodes. nodes ≡ record { bound = bound; items = [] }) }
    {
        let items = Vec::with_capacity(alloc, bound as usize)?;
        let places = vec![in alloc; 0; bound as usize]?;
        Ok(Nodes { items, places })
    }

    /// Takes all nodes out.
    pub fn clear(&mut self)
        ensures { self.new ≡ record self.old { items = [] } }
    {
        self.items.clear();
    }

    /// How many nodes there are, and there is none twice.
    pub fn len(&self) -> usize
        ensures count { result ≡ length self.now.items }
        ensures bounded { result ≤ self.now.bound }
    {
        self.items.len()
    }

    /// The bound that they are below.
    pub fn bound(&self) -> u32
        ensures { result ≡ self.now.bound }
    {
        self.places.len() as u32
    }

    /// The node at a place.
    pub fn node(&self, place: usize) -> u32
        requires { place < length self.now.items }
        ensures node { result ≡ at self.now.items place }
        ensures below { result < self.now.bound }
    {
        self.items[place]
    }

    /// Whether a node is among these.
    pub fn has(&self, node: u32) -> bool
        requires { node < self.now.bound }
        ensures { IsTrue result ↔ IsIn self.now.items node }
    {
        let place = self.places[node as usize] as usize;
        place < self.items.len() && self.items[place] == node
    }

    /// Puts a node behind the others.
    pub fn put(&mut self, node: u32)
        requires below { node < self.old.bound }
        requires absent { IsIn self.old.items node → ⊥ }
        ensures { self.new ≡ record self.old { items = self.old.items ++ node ∷ [] } }
    {
        let place = self.items.len() as u32;
        self.places[node as usize] = place;
        self.items.push_reserved(node);
    }
}
