// Levels of nodes, which never fall along an edge, and how they make room for one edge more.
//
// The way of Bender, Fineman, Gilbert and Tarjan (A new approach to incremental cycle detection and related problems,
// 2015), for graphs with few edges: a search on the way in that stays on a level and gives up after so many edges, and
// one on the way out among lower levels. Here a search on the way out that stays below a level and gives up comes
// first, so that levels stay low where edges come in the order of a program; and no level is raised before it is known
// that there is no ring.
ghost use Rattle.std.specs.Prelude.{◌≡◌, ◌+◌, ◌∷◌, ◌<◌, ◌^◌, [], length, IfSome, MatchOption, Bool, ◌≢◌};
ghost use Rattle.gos_order.specs.Rings.{Leads};
ghost use Rattle.gos_order.specs.inner.NodeLists.{IsIn, at};
ghost use Rattle.gos_order.specs.inner.Levels.{AreBefore, AreBelow, AreRaised, AreRising, MakesRoom};

use crate::links::{Links, Way};
use crate::nodes::Nodes;
use crate::search::{Outcome, Search};

/// Where an edge from one node to another would close no ring, the level to which the nodes behind it have to be raised.
pub fn room(
    links: &Links,
    levels: &[usize],
    before: &mut Nodes,
    behind: &mut Nodes,
    from: u32,
    to: u32,
) -> Option<usize>
    requires sized { length levels.now ≡ links.now.nodes }
    requires before { before.old.bound ≡ links.now.nodes }
    requires behind { behind.old.bound ≡ links.now.nodes }
    requires from { from < links.now.nodes }
    requires to { to < links.now.nodes }
    requires rising { AreRising links.now.edges levels.now }
    requires low { at levels.now from < 2 ^ 63 }
    requires other { from ≢ to }
    ensures room { MatchOption result (Leads links.now.edges to from) (MakesRoom links.now.edges levels.now behind.new.items from to) }
    ensures before_bound { before.new.bound ≡ before.old.bound }
    ensures behind_bound { behind.new.bound ≡ behind.old.bound }
{
    behind.clear();
    let level = levels[from as usize];
    if level < levels[to as usize] {
        return Some(level);
    }
    behind.put(to);
    before.clear();
    before.put(from);
    match find_behind(links, levels, before, behind, from, to, level + 1, false) {
        Outcome::Met => None,
        Outcome::All => Some(level),
        Outcome::Stopped => room_above(links, levels, before, behind, from, to),
    }
}

// The same, where many nodes are near behind it.
fn room_above(
    links: &Links,
    levels: &[usize],
    before: &mut Nodes,
    behind: &mut Nodes,
    from: u32,
    to: u32,
) -> Option<usize>
    requires sized { length levels.now ≡ links.now.nodes }
    requires before { before.old.bound ≡ links.now.nodes }
    requires behind { behind.old.bound ≡ links.now.nodes }
    requires from { from < links.now.nodes }
    requires to { to < links.now.nodes }
    requires rising { AreRising links.now.edges levels.now }
    requires low { at levels.now from < 2 ^ 63 }
    requires other { from ≢ to }
    ensures room { MatchOption result (Leads links.now.edges to from) (MakesRoom links.now.edges levels.now behind.new.items from to) }
    ensures before_bound { before.new.bound ≡ before.old.bound }
    ensures behind_bound { behind.new.bound ≡ behind.old.bound }
{
    behind.clear();
    behind.put(to);
    let limit = find_before(links, levels, before, behind, from, to)?;
    if levels[to as usize] >= limit {
        behind.clear();
        return Some(limit);
    }
    match find_behind(links, levels, before, behind, from, to, limit, true) {
        Outcome::Met => None,
        Outcome::All => Some(limit),
        Outcome::Stopped => unreachable!(),
    }
}

// Finds the nodes before one, where none of them is the other, and the level to which what lies behind has to be raised.
fn find_before(
    links: &Links,
    levels: &[usize],
    before: &mut Nodes,
    behind: &Nodes,
    from: u32,
    to: u32,
) -> Option<usize>
    requires sized { length levels.now ≡ links.now.nodes }
    requires before { before.old.bound ≡ links.now.nodes }
    requires behind { behind.now.bound ≡ links.now.nodes }
    requires from { from < links.now.nodes }
    requires to { behind.now.items ≡ to ∷ [] }
    requires rising { AreRising links.now.edges levels.now }
    requires low { at levels.now from < 2 ^ 63 }
    requires other { from ≢ to }
    ensures before { MatchOption result (Leads links.now.edges to from) (AreBefore links.now.edges levels.now before.new.items from) }
    ensures other { IfSome result (λ _. IsIn before.new.items to → ⊥) }
    ensures bound { before.new.bound ≡ before.old.bound }
{
    let level = levels[from as usize];
    let search = Search {
        links,
        levels,
        apart: behind,
        way: Way::In,
        limit: level,
        endless: false,
    };
    before.clear();
    before.put(from);
    match search.run(before) {
        Outcome::Met => None,
        Outcome::All => Some(level),
        Outcome::Stopped => {
            before.clear();
            before.put(from);
            Some(level + 1)
        }
    }
}

// Finds the nodes behind one that are below a level, unless one of those before the other is among them.
fn find_behind(
    links: &Links,
    levels: &[usize],
    before: &Nodes,
    behind: &mut Nodes,
    from: u32,
    to: u32,
    limit: usize,
    endless: bool,
) -> Outcome
    requires sized { length levels.now ≡ links.now.nodes }
    requires before { before.now.bound ≡ links.now.nodes }
    requires behind { behind.old.bound ≡ links.now.nodes }
    requires to { behind.old.items ≡ to ∷ [] }
    requires rising { AreRising links.now.edges levels.now }
    requires below { at levels.now to < limit }
    requires are_before { AreBefore links.now.edges levels.now before.now.items from limit }
    requires other { IsIn before.now.items to → ⊥ }
    ensures met { result ≡ Outcome.Met → Leads links.now.edges to from }
    ensures all { result ≡ Outcome.All → MakesRoom links.now.edges levels.now behind.new.items from to limit }
    ensures below { result ≡ Outcome.All → AreBelow levels.now behind.new.items limit }
    ensures stopped { result ≡ Outcome.Stopped → endless ≡ Bool.false }
    ensures bound { behind.new.bound ≡ behind.old.bound }
{
    let search = Search {
        links,
        levels,
        apart: before,
        way: Way::Out,
        limit,
        endless,
    };
    search.run(behind)
}

/// Raises nodes to a level.
pub fn raise(levels: &mut [usize], nodes: &Nodes, level: usize)
    requires { nodes.now.bound ≡ length levels.old }
    ensures { AreRaised nodes.now.items level levels.old levels.new }
{
    for place in 0..nodes.len() {
        levels[nodes.node(place) as usize] = level;
    }
}
