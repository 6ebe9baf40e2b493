// How many levels a cycle visited: those in which some cell reads a net that has changed.
ghost use Rattle.std.specs.Prelude.{◌≡◌, ◌<◌, All, IsFalse, IsTrue, length, map};
ghost use Rattle.gos_netlist.specs.Nets.{pins};
ghost use Rattle.gos_netlist.specs.Seen.{cell_of, function_of};
ghost use Rattle.gos_sim.specs.inner.Ready.{AreCellsReady};
ghost use Rattle.gos_sim.specs.inner.Chains.{IsBounded};
ghost use Rattle.gos_sim.specs.inner.Places.{by_net};
ghost use Rattle.gos_sim.specs.inner.Counting.{CountsVisited, HasVisit, LacksVisit, has_changed, one_has_changed};

use crate::chains::Chains;
use crate::word::Word;
use crate::words::Words;
use gos_netlist::{Cell, Gate, NetId};

// How many levels above 0 have a cell that reads a net whose value differs from the one before.
pub fn levels_visited<W: Word>(
    levels: &Chains,
    cells: &[Cell],
    places: &[u32],
    before: &Words<W>,
    values: &Words<W>,
) -> u64
    requires each { length levels.now.next.items ≡ length cells.now }
    requires bounded { IsBounded (length cells.now) levels.now.heads.items levels.now.next.items }
    requires cells { AreCellsReady (map cell_of cells.now) }
    requires places { length places.now ≡ length cells.now }
    requires there { All (λ p. p < length values.now) places.now }
    requires before { length before.now ≡ length values.now }
    ensures { CountsVisited levels.now (map cell_of cells.now) (by_net places.now before.now) (by_net places.now values.now) result }
{
    let mut count = 0;
    for level in 1..levels.heads.len() {
        if is_visited(levels, level, cells, places, before, values) {
            count += 1;
        }
    }
    count
}

// Whether a level has a cell that reads a net whose value differs. Goes through its nets, from the last one to the first.
fn is_visited<W: Word>(
    levels: &Chains,
    level: usize,
    cells: &[Cell],
    places: &[u32],
    before: &Words<W>,
    values: &Words<W>,
) -> bool
    requires level { level < length levels.now.heads.items }
    requires each { length levels.now.next.items ≡ length cells.now }
    requires bounded { IsBounded (length cells.now) levels.now.heads.items levels.now.next.items }
    requires cells { AreCellsReady (map cell_of cells.now) }
    requires places { length places.now ≡ length cells.now }
    requires there { All (λ p. p < length values.now) places.now }
    requires before { length before.now ≡ length values.now }
    ensures visited { IsTrue result → HasVisit levels.now (map cell_of cells.now) (by_net places.now before.now) (by_net places.now values.now) level }
    ensures other { IsFalse result → LacksVisit levels.now (map cell_of cells.now) (by_net places.now before.now) (by_net places.now values.now) level }
{
    let mut link = levels.end_of(level);
    while link > 0 {
        let net = link - 1;
        if reads_change(cells[net as usize], places, before, values) {
            return true;
        }
        link = levels.link_of(net);
    }
    false
}

// Whether a cell reads a net whose value differs.
fn reads_change<W: Word>(cell: Cell, places: &[u32], before: &Words<W>, values: &Words<W>) -> bool
    requires pins { All (λ a. a < length places.now) (pins (function_of cell.gate)) }
    requires there { All (λ p. p < length values.now) places.now }
    requires before { length before.now ≡ length values.now }
    ensures { result ≡ one_has_changed (by_net places.now before.now) (by_net places.now values.now) (pins (function_of cell.gate)) }
{
    match cell.gate {
        Gate::Input | Gate::Const(_) => false,
        Gate::Not(a) | Gate::Reg(a) => has_changed(a, places, before, values),
        Gate::And(a, b)
        | Gate::Or(a, b)
        | Gate::Xor(a, b)
        | Gate::Add(a, b)
        | Gate::Sub(a, b)
        | Gate::Eq(a, b)
        | Gate::Less(a, b)
        | Gate::Gate(a, b) => {
            has_changed(a, places, before, values) || has_changed(b, places, before, values)
        }
        Gate::Mux(s, a, b) => {
            has_changed(s, places, before, values)
                || has_changed(a, places, before, values)
                || has_changed(b, places, before, values)
        }
    }
}

// Whether the value of a net differs.
#[tactic(auto, using(crate::proofs::MoveLemmas::at_by_net))]
fn has_changed<W: Word>(net: NetId, places: &[u32], before: &Words<W>, values: &Words<W>) -> bool
    requires net { net.0 < length places.now }
    requires there { All (λ p. p < length values.now) places.now }
    requires before { length before.now ≡ length values.now }
    ensures { result ≡ has_changed (by_net places.now before.now) (by_net places.now values.now) net.0 }
{
    let place = places[net.0 as usize] as usize;
    !values.get(place).is(before.get(place))
}
