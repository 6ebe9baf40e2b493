// The cells of a Share by order, placed in a pool: the branch, the thread, and a row of blocks.

ghost use Rattle.std.specs.Prelude.{◌≡◌, ◌+◌, ◌*◌, ◌<◌, ◌≤◌, ◌∷◌, [], Some, All, length, map};
ghost use Rattle.gos_netlist.specs.Nets.{Const, Reg};
ghost use Rattle.gos_netlist.specs.Seen.{cell_of};
ghost use Rattle.gos_macro.specs.Cells.{bit, Places};
ghost use Rattle.gos_macro.specs.Wires.{incoming_of};
ghost use Rattle.gos_fast_share.specs.Thread.{one_if_asks, requests};
ghost use Rattle.gos_fast_share.specs.Fast.{set_cells, thread_cells, block_cells, block_size, row_cells, fast_cells};
ghost use Rattle.gos_fast_share.specs.inner.Seen.{all_of, asker_of, blocks_size};

use crate::asking::{Asking, requests_ahead, requests_in, who_asks};
use crate::{blocks, cells};
use gos_macro::Wire;
use gos_macro::cells::{bit, own};
use gos_netlist::{Cell, Gate, NetId};
use gos_pool::{NetPool, Region};
use gos_share::{Shared, next};
use gos_types::Ty;

// Where a block stands: handshake `j` of `count`, from place `at` behind net `base`.
#[derive(Debug, Clone, Copy)]
pub(crate) struct Spot {
    pub(crate) count: usize,
    pub(crate) j: usize,
    pub(crate) base: u32,
    pub(crate) at: u32,
}

// The cells ahead of the thread: a 0, and the branch, which takes what the cell at this place shows.
fn head(base: u32, last: u32) -> [Cell; 2]
    requires { base + last ≤ 4294967295 }
    ensures { map cell_of result ≡ bit (Const 0) ∷ bit (Reg (base + last)) ∷ [] }
{
    [bit(Gate::Const(0)), bit(Gate::Reg(own(base, last)))]
}

// The pulse that comes in at this handshake.
#[tactic(auto, using(gos_share::proofs::CellLemmas::pulse_there))]
fn pulse(wires: &[Wire], e: usize) -> NetId
    requires { e < length wires.now }
    ensures { result.0 ≡ (incoming_of wires.now).pulse e }
{
    wires[e].in_pulse
}

// Places the branch behind a request with this pulse, where it is the net at place `n` before, if it is one of a caller.
fn place_set(
    asking: Asking,
    pulse: NetId,
    base: u32,
    n: u32,
    pool: &mut NetPool,
    region: &mut Region,
)
    requires begun { pool.old.begun ≡ Some region.old }
    requires spare { one_if_asks (asker_of asking) ≤ pool.old.spare }
    requires numbered { base + n ≤ 4294967295 }
    ensures cells { Places (set_cells (asker_of asking) pulse.0 base n) pool.old pool.new }
    ensures region { region.new ≡ region.old }
{
    let set = cells::set(asking, pulse, base, n);
    pool.place_all(region, &set[..asking.size() as usize]);
}

// Places the thread: a cell for each request of a caller, in this order of handshakes.
fn place_thread(
    ty: &Ty,
    count: usize,
    order: &[u32],
    wires: &[Wire],
    pool: &mut NetPool,
    region: &mut Region,
)
    requires count { count ≡ length (all_of ty.now) }
    requires few { count ≤ 64 }
    requires short { length order.now ≤ 192 }
    requires own { All (λ e. e < 3 * count) order.now }
    requires wires { length wires.now ≡ count + (count + count) }
    requires begun { pool.old.begun ≡ Some region.old }
    requires spare { requests (all_of ty.now) order.now ≤ pool.old.spare }
    requires numbered { region.old + (2 + requests (all_of ty.now) order.now) ≤ 4294967295 }
    ensures cells { Places (thread_cells (all_of ty.now) (incoming_of wires.now) region.old 1 order.now) pool.old pool.new }
    ensures region { region.new ≡ region.old }
{
    let base = region.start();
    let mut at = 1;
    for e in order {
        let asking = who_asks(ty, count as u32, *e);
        place_set(asking, pulse(wires, *e as usize), base, at, pool, region);
        at += asking.size();
    }
}

// Places the block of a handshake, where this net is the branch when its source's side comes.
fn place_block(
    shared: Shared,
    spot: Spot,
    branch: NetId,
    wires: &[Wire],
    pool: &mut NetPool,
    region: &mut Region,
)
    requires wires { spot.count + spot.count + spot.j < length wires.now }
    requires begun { pool.old.begun ≡ Some region.old }
    requires spare { block_size shared.role shared.ask_bits shared.answer_bits ≤ pool.old.spare }
    requires numbered { spot.base + (spot.at + block_size shared.role shared.ask_bits shared.answer_bits) ≤ 4294967295 }
    ensures cells { Places (block_cells shared.role shared.ask_bits shared.answer_bits (incoming_of wires.now) spot.count spot.j
        spot.base spot.at branch.0) pool.old pool.new }
    ensures region { region.new ≡ region.old }
{
    let Spot { count, j, base, at } = spot;
    let (up, down) = (blocks::up(shared), blocks::down(shared));
    let (tells, splits) = (blocks::told(up), blocks::split(down));
    let told = cells::told(up, wires, count, j, base, at);
    let split = cells::split(down, wires, j, base, at + tells, branch);
    pool.place_all(region, &told[..tells as usize]);
    pool.place_all(region, &split[..splits as usize]);
}

// Places the blocks of all handshakes, where the first begins at place `start`.
fn place_row(
    ty: &Ty,
    count: usize,
    order: &[u32],
    start: u32,
    wires: &[Wire],
    pool: &mut NetPool,
    region: &mut Region,
)
    requires count { count ≡ length (all_of ty.now) }
    requires few { count ≤ 64 }
    requires short { length order.now ≤ 192 }
    requires start { start ≡ 2 + requests (all_of ty.now) order.now }
    requires wires { length wires.now ≡ count + (count + count) }
    requires begun { pool.old.begun ≡ Some region.old }
    requires spare { blocks_size (all_of ty.now) ≤ pool.old.spare }
    requires numbered { region.old + (start + blocks_size (all_of ty.now)) ≤ 4294967295 }
    ensures cells { Places (row_cells (all_of ty.now) order.now (incoming_of wires.now) 0 region.old start (all_of ty.now)) pool.old pool.new }
    ensures region { region.new ≡ region.old }
{
    let base = region.start();
    let mut j = 0;
    let mut at = start;
    loop {
        match next(ty, j) {
            Some(shared) => {
                let branch = own(base, 1 + requests_ahead(ty, count as u32, order, j));
                let spot = Spot {
                    count,
                    j: j as usize,
                    base,
                    at,
                };
                place_block(shared, spot, branch, wires, pool, region);
                j += 1;
                at += blocks::size(shared);
            }
            None => return,
        }
    }
}

// Places all cells.
pub(crate) fn place(
    ty: &Ty,
    count: usize,
    order: &[u32],
    wires: &[Wire],
    pool: &mut NetPool,
    region: &mut Region,
)
    requires count { count ≡ length (all_of ty.now) }
    requires few { count ≤ 64 }
    requires short { length order.now ≤ 192 }
    requires own { All (λ e. e < 3 * count) order.now }
    requires wires { length wires.now ≡ count + (count + count) }
    requires begun { pool.old.begun ≡ Some region.old }
    requires spare { 2 + (requests (all_of ty.now) order.now + blocks_size (all_of ty.now)) ≤ pool.old.spare }
    requires numbered { region.old + (2 + (requests (all_of ty.now) order.now + blocks_size (all_of ty.now))) ≤ 4294967295 }
    ensures cells { Places (fast_cells (all_of ty.now) order.now region.old (incoming_of wires.now)) pool.old pool.new }
    ensures region { region.new ≡ region.old }
{
    let requests = requests_in(ty, count as u32, order);
    pool.place_all(region, &head(region.start(), 1 + requests));
    place_thread(ty, count, order, wires, pool, region);
    place_row(ty, count, order, 2 + requests, wires, pool, region);
}
