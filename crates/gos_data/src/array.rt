// The gates of an array: each request sets its numbers to 0 and runs the body, which reads and writes them at an index.
//
// Handshakes: 0 asks the body, 1 the index, 2 serves a read, 3 a write, 4 is served.

ghost use Rattle.std.specs.Prelude.{◌≡◌, ◌+◌, ◌*◌, ◌<◌, ◌≤◌, [], ◌∷◌, Some, length, map};
ghost use Rattle.gos_netlist.specs.Seen.{cell_of};
ghost use Rattle.gos_macro.specs.Cells.{Places};
ghost use Rattle.gos_macro.specs.Wires.{nets_in, incoming_of, HoldNets};
ghost use Rattle.gos_data.specs.Words.{picked_net};
ghost use Rattle.gos_data.specs.Array.{array_head, array_nets, array_words, array_cells, own_outs, array_outs};
ghost use Rattle.gos_data.specs.BodyAnswer.{body_answer};
ghost use Rattle.gos_data.specs.inner.Seen.{nets_of};
ghost use Rattle.gos_data.specs.inner.Sizes.{array_size};

use crate::body_answer;
use crate::words::{self, Nets, Spot};
use gos_macro::Wire;
use gos_macro::cells::{bit, buffer, own, wide};
use gos_netlist::{Cell, Gate, NetId};
use gos_pool::{NetPool, Region};
use gos_types::index_bits;

// The cells ahead of the words, from the number of the first one. Net `picked` shows the number at the index.
fn head(w: u32, base: u32, picked: NetId, wires: &[Wire]) -> [Cell; 19]
    requires wires { length wires.now ≡ 5 }
    requires numbered { base + 19 ≤ 4294967295 }
    ensures { map cell_of result ≡ array_head w base picked.0 (incoming_of wires.now) }
{
    let [body, index, read, write, caller] = wires else {
        unreachable!()
    };
    let (writes, held) = (own(base, 6), own(base, 8));
    [
        bit(Gate::Reg(caller.in_pulse)),
        bit(Gate::Or(read.in_pulse, write.in_pulse)),
        bit(Gate::Reg(own(base, 1))),
        bit(Gate::Not(read.in_pulse)),
        bit(Gate::And(writes, own(base, 3))),
        bit(Gate::Or(write.in_pulse, own(base, 4))),
        bit(Gate::Reg(own(base, 5))),
        wide(w, Gate::Mux(write.in_pulse, write.in_value, held)),
        wide(w, Gate::Reg(own(base, 7))),
        bit(Gate::Not(writes)),
        bit(Gate::And(index.in_pulse, own(base, 9))),
        bit(Gate::And(index.in_pulse, writes)),
        bit(Gate::Reg(own(base, 10))),
        bit(Gate::Reg(own(base, 11))),
        wide(w, Gate::Reg(picked)),
        wide(w, Gate::Gate(own(base, 12), own(base, 14))),
        bit(Gate::Not(caller.in_pulse)),
        wide(w, Gate::Const(0)),
        buffer(body.in_pulse),
    ]
}

// What the words are told.
fn nets(base: u32, wires: &[Wire]) -> Nets
    requires wires { length wires.now ≡ 5 }
    requires numbered { base + 19 ≤ 4294967295 }
    ensures { nets_of result ≡ array_nets base (incoming_of wires.now) }
{
    let [_, index, _, _, _] = wires else {
        unreachable!()
    };
    Nets {
        index: index.in_value,
        writes: own(base, 11),
        written: own(base, 8),
        stays: own(base, 16),
    }
}

// How many cells there are.
pub(crate) fn size(n: u32, v: u32) -> u32
    requires { n ≤ 16 }
    ensures { result ≡ array_size n v }
{
    let words = 7 * n;
    if v == 0 { 19 + words } else { 20 + words }
}

// Fills in the nets that go out.
#[tactic(auto, using(crate::proofs::ArrayLemmas::size_at_least))]
pub(crate) fn outs(n: u32, v: u32, base: u32, wires: &mut [Wire])
    requires few { n ≤ 16 }
    requires wires { length wires.old ≡ 5 }
    requires numbered { base + array_size n v ≤ 4294967295 }
    ensures outs { HoldNets (array_outs n v base) wires.new }
    ensures rest { map nets_in wires.new ≡ map nets_in wires.old }
{
    let (own_wires, callers) = wires.split_at_mut(4);
    own_outs(base, own_wires);
    caller_out(v, own(base, 18), own(base, 19 + 7 * n), callers);
}

// Fills in the nets that go out but for the answer to the one who runs the array.
fn own_outs(base: u32, wires: &mut [Wire])
    requires wires { length wires.old ≡ 4 }
    requires numbered { base + 15 ≤ 4294967295 }
    ensures outs { HoldNets (own_outs base) wires.new }
    ensures rest { map nets_in wires.new ≡ map nets_in wires.old }
{
    wires[0].out_pulse = own(base, 0);
    wires[1].out_pulse = own(base, 2);
    wires[2].out_pulse = own(base, 12);
    wires[2].out_value = own(base, 15);
    wires[3].out_pulse = own(base, 13);
}

// Fills in the nets of that answer.
fn caller_out(v: u32, pulse: NetId, number: NetId, wires: &mut [Wire])
    requires wires { length wires.old ≡ 1 }
    ensures outs { HoldNets (body_answer v pulse.0 number.0 ∷ []) wires.new }
    ensures rest { map nets_in wires.new ≡ map nets_in wires.old }
{
    body_answer::outs(v, pulse, number, &mut wires[0]);
}

// Places the cells ahead of the words.
fn place_head(w: u32, n: u32, wires: &[Wire], pool: &mut NetPool, region: &mut Region)
    requires some { 0 < n }
    requires few { n ≤ 16 }
    requires wires { length wires.now ≡ 5 }
    requires begun { pool.old.begun ≡ Some region.old }
    requires spare { 19 ≤ pool.old.spare }
    requires numbered { region.old + (19 + 7 * n) ≤ 4294967295 }
    ensures cells { Places (array_head w region.old (picked_net region.old 19 (region.old + 17) n) (incoming_of wires.now)) pool.old pool.new }
    ensures region { region.new ≡ region.old }
{
    let base = region.start();
    pool.place_all(region, &head(w, base, own(base, 18 + 7 * n), wires));
}

// Places the words behind these cells.
fn place_words(w: u32, n: u32, wires: &[Wire], pool: &mut NetPool, region: &mut Region)
    requires few { n ≤ 16 }
    requires wires { length wires.now ≡ 5 }
    requires begun { pool.old.begun ≡ Some region.old }
    requires spare { 7 * n ≤ pool.old.spare }
    requires numbered { region.old + (19 + 7 * n) ≤ 4294967295 }
    ensures cells { Places (array_words w n region.old (incoming_of wires.now)) pool.old pool.new }
    ensures region { region.new ≡ region.old }
{
    let base = region.start();
    let first = Spot {
        base,
        at: 19,
        x: 0,
        picked: own(base, 17),
    };
    words::place(w, index_bits(n), nets(base, wires), first, n, pool, region);
}

// Places all cells.
#[tactic(auto, using(crate::proofs::ArrayLemmas::size_at_least))]
pub(crate) fn place(w: u32, n: u32, v: u32, wires: &[Wire], pool: &mut NetPool, region: &mut Region)
    requires some { 0 < n }
    requires few { n ≤ 16 }
    requires wires { length wires.now ≡ 5 }
    requires begun { pool.old.begun ≡ Some region.old }
    requires spare { array_size n v ≤ pool.old.spare }
    requires numbered { region.old + array_size n v ≤ 4294967295 }
    ensures cells { Places (array_cells w n v region.old (incoming_of wires.now)) pool.old pool.new }
    ensures region { region.new ≡ region.old }
{
    place_head(w, n, wires, pool, region);
    place_words(w, n, wires, pool, region);
    if v > 0 {
        pool.place(region, body_answer::number(v, wires));
    }
}
