// A search along the edges, one way or the other, from nodes that are told to those behind them.
ghost use Rattle.std.specs.Prelude.{◌≡◌, ◌⊎◌, ◌<◌, ◌↔◌, ℕ, length, IsTrue, Bool};
ghost use Rattle.gos_order.specs.inner.NodeLists.{IsIn};
ghost use Rattle.gos_order.specs.inner.Searches.{AreFollowed, AreHeld, Grows, IsFollowed, IsMet, IsWanted};

use crate::links::{Links, Way};
use crate::nodes::Nodes;

/// How many edges a search follows before it gives up, if it does.
const REACH: u32 = 32;

/// How a search ended.
#[derive(Clone, Copy)]
pub enum Outcome {
    /// A node that is not to be met was met.
    Met,
    /// All edges were followed.
    All,
    /// There were too many edges.
    Stopped,
}

/// Which edges a search follows.
#[derive(Drop)]
pub struct Search<'a> {
    pub links: &'a Links,
    pub levels: &'a [usize],
    /// The nodes that are not to be met.
    pub apart: &'a Nodes,
    pub way: Way,
    /// The search goes on from nodes of levels below the limit on the way out, and from the others on the way in.
    pub limit: usize,
    /// The search doesn't give up.
    pub endless: bool,
    ghost levels_fit: { length levels.now ≡ links.now.nodes },
    ghost apart_fit: { apart.now.bound ≡ links.now.nodes },
}

impl<'a> Search<'a> {
    ghost use Rattle.gos_order.specs.inner.Tasks.{task_of};

    /// Goes on from the nodes that are reached until no edge is left, and adds those behind them.
    pub fn run(&self, reached: &mut Nodes) -> Outcome
        requires { reached.old.bound ≡ self.now.links.now.nodes }
        ensures grows { Grows reached.old reached.new }
        ensures held { (start : ℕ) → AreHeld (task_of self.now) start reached.old.items → AreHeld (task_of self.now) start reached.new.items }
        ensures all { result ≡ Outcome.All → AreFollowed (task_of self.now) reached.new.items }
        ensures met { result ≡ Outcome.Met → (start : ℕ) → AreHeld (task_of self.now) start reached.old.items → IsMet (task_of self.now) start }
        ensures stopped { result ≡ Outcome.Stopped → self.now.endless ≡ Bool.false }
    {
        let mut left = REACH;
        let mut place = 0;
        while place < reached.len() {
            let node = reached.node(place);
            match self.follow(reached, node, &mut left) {
                Outcome::All => place += 1,
                Outcome::Met => return Outcome::Met,
                Outcome::Stopped => return Outcome::Stopped,
            }
        }
        Outcome::All
    }

    // Follows the edges at a node.
    fn follow(&self, reached: &mut Nodes, node: u32, left: &mut u32) -> Outcome
        requires fit { reached.old.bound ≡ self.now.links.now.nodes }
        requires below { node < self.now.links.now.nodes }
        requires among { IsIn reached.old.items node }
        ensures grows { Grows reached.old reached.new }
        ensures held { (start : ℕ) → AreHeld (task_of self.now) start reached.old.items → AreHeld (task_of self.now) start reached.new.items }
        ensures all { result ≡ Outcome.All → IsFollowed (task_of self.now) reached.new.items node }
        ensures met { result ≡ Outcome.Met → (start : ℕ) → AreHeld (task_of self.now) start reached.old.items → IsMet (task_of self.now) start }
        ensures stopped { result ≡ Outcome.Stopped → self.now.endless ≡ Bool.false }
    {
        let mut last = self.links.last(self.way, node);
        while last > 0 {
            let place = last - 1;
            let next = self.links.far(self.way, place);
            if self.apart.has(next) {
                return Outcome::Met;
            }
            if self.is_over(left) {
                return Outcome::Stopped;
            }
            self.reach(reached, next);
            last = self.links.next(self.way, place);
        }
        Outcome::All
    }

    // Whether the search gives up here, where it has so many edges left.
    fn is_over(&self, left: &mut u32) -> bool
        ensures { IsTrue result → self.now.endless ≡ Bool.false }
    {
        if self.endless {
            return false;
        }
        if *left == 0 {
            return true;
        }
        *left -= 1;
        false
    }

    // Adds a node, if it is wanted and isn't there.
    fn reach(&self, reached: &mut Nodes, node: u32)
        requires fit { reached.old.bound ≡ self.now.links.now.nodes }
        requires below { node < self.now.links.now.nodes }
        ensures grows { Grows reached.old reached.new }
        ensures reached { IsWanted (task_of self.now) node → IsIn reached.new.items node }
        ensures only { (x : ℕ) → IsIn reached.new.items x → IsIn reached.old.items x ⊎ ((node ≡ x) × IsWanted (task_of self.now) node) }
    {
        if self.wants(node) && !reached.has(node) {
            reached.put(node);
        }
    }

    // Whether the search goes on from a node.
    fn wants(&self, node: u32) -> bool
        requires { node < self.now.links.now.nodes }
        ensures { IsTrue result ↔ IsWanted (task_of self.now) node }
    {
        let level = self.levels[node as usize];
        match self.way {
            Way::Out => level < self.limit,
            Way::In => level >= self.limit,
        }
    }
}
