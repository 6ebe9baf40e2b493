// The words of an array: seven cells for each of its numbers.

ghost use Rattle.std.specs.Prelude.{◌≡◌, ◌+◌, ◌*◌, ◌≤◌, Some, map};
ghost use Rattle.gos_netlist.specs.Seen.{cell_of};
ghost use Rattle.gos_macro.specs.Cells.{Places};
ghost use Rattle.gos_data.specs.Words.{word_cells, words_cells};
ghost use Rattle.gos_data.specs.inner.Seen.{nets_of};

use crate::stored::Stored;
use gos_macro::cells::{bit, own, wide};
use gos_netlist::{Cell, Gate, NetId};
use gos_pool::{NetPool, Region};

// The nets that all words name: the index, the pulse of a write, what is written, and one that is 1 where there is no entry.
#[derive(Debug, Clone, Copy)]
pub(crate) struct Nets {
    pub(crate) index: NetId,
    pub(crate) writes: NetId,
    pub(crate) written: NetId,
    pub(crate) stays: NetId,
}

// Which word it is: that of number `x`, from place `at` behind net `base`, where net `picked` shows what is picked before it.
#[derive(Debug, Clone, Copy)]
pub(crate) struct Spot {
    pub(crate) base: u32,
    pub(crate) at: u32,
    pub(crate) x: u32,
    pub(crate) picked: NetId,
}

// The cells of a word, whose number has `w` bits and its index `bits`.
fn word(w: u32, bits: u32, nets: Nets, spot: Spot) -> [Cell; 7]
    requires { spot.base + (spot.at + 7) ≤ 4294967295 }
    ensures { map cell_of result ≡ word_cells w bits (nets_of nets) spot.base spot.at spot.x spot.picked.0 }
{
    let Spot {
        base,
        at,
        x,
        picked,
    } = spot;
    let equal = own(base, at + 1);
    let stored = Stored {
        kept: own(base, at + 3),
        next: own(base, at + 4),
        number: own(base, at + 5),
    };
    let [kept, next, number] = stored.cells(w, nets.stays, own(base, at + 2), nets.written);
    [
        wide(bits, Gate::Const(u64::from(x))),
        bit(Gate::Eq(nets.index, own(base, at))),
        bit(Gate::And(nets.writes, equal)),
        kept,
        next,
        number,
        wide(w, Gate::Mux(equal, stored.number, picked)),
    ]
}

// Places so many words from a spot on, where the region begins at its base.
pub(crate) fn place(
    w: u32,
    bits: u32,
    nets: Nets,
    spot: Spot,
    count: u32,
    pool: &mut NetPool,
    region: &mut Region,
)
    requires begun { pool.old.begun ≡ Some region.old }
    requires spare { 7 * count ≤ pool.old.spare }
    requires numbered { spot.base + (spot.at + 7 * count) ≤ 4294967295 }
    requires few { spot.x + count ≤ 4294967295 }
    ensures cells { Places (words_cells w bits (nets_of nets) spot.base spot.at spot.x spot.picked.0 count) pool.old pool.new }
    ensures region { region.new ≡ region.old }
{
    let mut next = spot;
    let mut left = count;
    while left > 0 {
        pool.place_all(region, &word(w, bits, nets, next));
        next = Spot {
            base: next.base,
            at: next.at + 7,
            x: next.x + 1,
            picked: own(next.base, next.at + 6),
        };
        left -= 1;
    }
}
