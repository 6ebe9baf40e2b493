// How deep the nodes of a graph without a ring lie.
//
// Nodes are taken one by one, each when all edges to it are followed, and then the edges from it are (Kahn, Topological
// sorting of large networks, 1962). Without a ring each node is taken.
ghost use Rattle.std.specs.Prelude.{◌≡◌, ◌<◌, ◌≤◌, ◌≢◌, ◌+◌, ◌-◌, ◌++◌, ◌∷◌, [], ℕ, length, max, set, IfOk};
ghost use Rattle.gos_order.specs.Rings.{HasRing, IsInRange};
ghost use Rattle.gos_order.specs.Depths.{AreDepths};
ghost use Rattle.gos_order.specs.inner.NodeLists.{IsIn, at};
ghost use Rattle.gos_order.specs.inner.Searches.{Grows};
ghost use Rattle.gos_order.specs.inner.Sortings.{AreTaken, left_to, not_among};

use crate::links::{Links, Way};
use crate::nodes::Nodes;
use gos_types::NoMemory;
use std::alloc::Global;

// How far the nodes of a graph are sorted.
#[derive(Drop)]
struct Sorting {
    // The number of edges on the longest path to each node, of those that were followed.
    depths: Vec<u32>,
    // How many edges to each node are left.
    waits: Vec<usize>,
    // The nodes to which none is left.
    ready: Nodes,
}

/// The depths of the nodes of a graph without a ring. `Err` is want of memory alone.
pub fn depths_of(alloc: Global, links: &Links, nodes: u32) -> Result<Vec<u32>, NoMemory>
    requires nodes { nodes ≡ links.now.nodes }
    requires ringless { HasRing links.now.edges → ⊥ }
    ensures { IfOk result (λ depths. AreDepths links.now depths.items) }
{
    let depths = vec![in alloc; 0u32; nodes as usize]?;
    let waits = edges_to(alloc, links, nodes)?;
    let ready = without_edges(alloc, waits.as_slice(), nodes)?;
    let mut sorting = Sorting {
        depths,
        waits,
        ready,
    };
    sorting.run(links);
    let Sorting {
        depths,
        waits: _,
        ready: _,
    } = sorting;
    Ok(depths)
}

// How many edges lead to each node.
fn edges_to(alloc: Global, links: &Links, nodes: u32) -> Result<Vec<usize>, NoMemory>
    requires { nodes ≡ links.now.nodes }
    ensures range { IfOk result (λ _. IsInRange links.now) }
    ensures all { IfOk result (λ waits. length waits.items ≡ links.now.nodes) }
    ensures waits { IfOk result (λ waits. (node : ℕ) → node < links.now.nodes → at waits.items node ≡ left_to links.now.edges (λ place. 1) node) }
{
    let mut waits = vec![in alloc; 0usize; nodes as usize]?;
    for place in 0..links.len() {
        let node = links.far(Way::Out, place);
        waits[node as usize] += 1;
    }
    Ok(waits)
}

// The nodes to which no edge leads.
fn without_edges(alloc: Global, waits: &[usize], nodes: u32) -> Result<Nodes, NoMemory>
    requires { length waits.now ≡ nodes }
    ensures bound { IfOk result (λ ready. ready.bound ≡ nodes) }
    ensures ready { IfOk result (λ ready. (node : ℕ) → node < nodes → at waits.now node ≡ 0 → IsIn ready.items node) }
    ensures idle { IfOk result (λ ready. (node : ℕ) → IsIn ready.items node → at waits.now node ≡ 0) }
    ensures once { IfOk result (λ ready. (place : ℕ) → place < length ready.items → not_among ready.items place (at ready.items place) ≡ 1) }
{
    let mut ready = Nodes::new(alloc, nodes)?;
    for node in 0..nodes {
        if waits[node as usize] == 0 {
            ready.put(node);
        }
    }
    Ok(ready)
}

impl Sorting {
    // Takes nodes until none is ready.
    fn run(&mut self, links: &Links)
        requires few { links.now.nodes ≤ 4294967295 }
        requires bound { self.old.ready.bound ≡ links.now.nodes }
        requires range { IsInRange links.now }
        requires ringless { HasRing links.now.edges → ⊥ }
        requires sorted { AreTaken links.now self.old.depths.items self.old.waits.items self.old.ready.items 0 }
        ensures { AreDepths links.now self.new.depths.items }
    {
        let mut place = 0;
        while place < self.ready.len() {
            self.take(links, place);
            place += 1;
        }
    }

    // Follows the edges from the node at a place.
    fn take(&mut self, links: &Links, place: usize)
        requires within { place < length self.old.ready.items }
        requires few { place < 4294967295 }
        requires bound { self.old.ready.bound ≡ links.now.nodes }
        requires sorted { AreTaken links.now self.old.depths.items self.old.waits.items self.old.ready.items place }
        ensures grows { Grows self.old.ready self.new.ready }
        ensures sorted { AreTaken links.now self.new.depths.items self.new.waits.items self.new.ready.items (place + 1) }
    {
        let node = self.ready.node(place);
        let depth = self.depths[node as usize] + 1;
        let mut last = links.last(Way::Out, node);
        while last > 0 {
            let edge = last - 1;
            let next = links.far(Way::Out, edge);
            self.reach(next, depth);
            last = links.next(Way::Out, edge);
        }
    }

    // Follows an edge: the node to which it leads lies so deep at least, and is ready if no other edge to it is left.
    fn reach(&mut self, node: u32, depth: u32)
        requires depths { node < length self.old.depths.items }
        requires waits { node < length self.old.waits.items }
        requires below { node < self.old.ready.bound }
        requires left { 0 < at self.old.waits.items node }
        requires absent { IsIn self.old.ready.items node → ⊥ }
        ensures depths { self.new.depths.items ≡ set self.old.depths.items node (max (at self.old.depths.items node) depth) }
        ensures waits { self.new.waits.items ≡ set self.old.waits.items node (at self.old.waits.items node - 1) }
        ensures bound { self.new.ready.bound ≡ self.old.ready.bound }
        ensures ready { at self.old.waits.items node ≡ 1 → self.new.ready.items ≡ self.old.ready.items ++ node ∷ [] }
        ensures same { at self.old.waits.items node ≢ 1 → self.new.ready.items ≡ self.old.ready.items }
    {
        let index = node as usize;
        self.depths[index] = self.depths[index].max(depth);
        self.waits[index] -= 1;
        if self.waits[index] == 0 {
            self.ready.put(node);
        }
    }
}
