// The row of blocks, placed in a pool.

ghost use Rattle.std.specs.Prelude.{◌≡◌, ◌+◌, ◌<◌, ◌≤◌, ◌∷◌, [], ℕ, Some, length, map};
ghost use Rattle.gos_netlist.specs.Nets.{Not, Const, Reg};
ghost use Rattle.gos_netlist.specs.Seen.{cell_of};
ghost use Rattle.gos_types.specs.declared.shakes.Role.TheVariants.{Serve, Ask};
ghost use Rattle.gos_macro.specs.Cells.{bit};
ghost use Rattle.gos_macro.specs.Wires.{incoming_of};
ghost use Rattle.gos_share.specs.Blocks.{block_cells, block_size, kept_net};
ghost use Rattle.gos_share.specs.Share.{row_cells, share_cells};
ghost use Rattle.gos_macro.specs.Cells.{Places};
ghost use Rattle.gos_share.specs.inner.Seen.{all_of, blocks_size};

use crate::cells;
use crate::shared::{Shared, answered_size, asked_size, blocks, next, sent_size, told_size};
use gos_macro::Wire;
use gos_macro::cells::{bit, own};
use gos_netlist::{Cell, Gate, NetId};
use gos_pool::{NetPool, Region};
use gos_types::{Role, Ty};

// Where a block stands: handshake `j` of `count`, from place `at` behind net `base`.
#[derive(Debug, Clone, Copy)]
pub(crate) struct Spot {
    pub(crate) count: usize,
    pub(crate) j: usize,
    pub(crate) base: u32,
    pub(crate) at: u32,
}

// Both nets that tell of the branch what the handshakes so far make of it.
#[derive(Debug, Clone, Copy)]
pub(crate) struct Branch {
    pub(crate) kept: NetId,
    pub(crate) set: NetId,
}

// Places the block of a handshake at which the callers ask.
fn place_served(
    k: Shared,
    spot: Spot,
    branch: Branch,
    wires: &[Wire],
    pool: &mut NetPool,
    region: &mut Region,
)
    requires wires { spot.count + spot.count + spot.j < length wires.now }
    requires begun { pool.old.begun ≡ Some region.old }
    requires spare { block_size Serve k.ask_bits k.answer_bits ≤ pool.old.spare }
    requires numbered { spot.base + (spot.at + block_size Serve k.ask_bits k.answer_bits) ≤ 4294967295 }
    ensures cells { Places (block_cells Serve k.ask_bits k.answer_bits (incoming_of wires.now) spot.count spot.j spot.base spot.at
        branch.kept.0 branch.set.0) pool.old pool.new }
    ensures region { region.new ≡ region.old }
{
    let Spot { count, j, base, at } = spot;
    let Branch { kept, set } = branch;
    let (asks, answers) = (asked_size(k.ask_bits), answered_size(k.answer_bits));
    let asked = cells::asked(k.ask_bits, wires, count, j, base, at + 2);
    let answered = cells::answered(k.answer_bits, wires, j, base, at + 2 + asks);
    pool.place_all(region, &cells::branch(wires, count, j, base, kept, set));
    pool.place_all(region, &asked[..asks as usize]);
    pool.place_all(region, &answered[..answers as usize]);
}

// Places the block of a handshake at which the source asks.
fn place_asked(k: Shared, spot: Spot, wires: &[Wire], pool: &mut NetPool, region: &mut Region)
    requires wires { spot.count + spot.count + spot.j < length wires.now }
    requires begun { pool.old.begun ≡ Some region.old }
    requires spare { block_size Ask k.ask_bits k.answer_bits ≤ pool.old.spare }
    requires numbered { spot.base + (spot.at + block_size Ask k.ask_bits k.answer_bits) ≤ 4294967295 }
    ensures cells { (c d : ℕ) → Places (block_cells Ask k.ask_bits k.answer_bits (incoming_of wires.now) spot.count spot.j
        spot.base spot.at c d) pool.old pool.new }
    ensures region { region.new ≡ region.old }
{
    let Spot { count, j, base, at } = spot;
    let (asks, answers) = (sent_size(k.ask_bits), told_size(k.answer_bits));
    let sent = cells::sent(k.ask_bits, wires, j, base, at);
    let told = cells::told(k.answer_bits, wires, count, j, base, at + asks);
    pool.place_all(region, &sent[..asks as usize]);
    pool.place_all(region, &told[..answers as usize]);
}

// Places the block of a handshake, and gives both nets of the branch behind it.
fn place_block(
    k: Shared,
    spot: Spot,
    branch: Branch,
    wires: &[Wire],
    pool: &mut NetPool,
    region: &mut Region,
) -> Branch
    requires wires { spot.count + spot.count + spot.j < length wires.now }
    requires begun { pool.old.begun ≡ Some region.old }
    requires spare { block_size k.role k.ask_bits k.answer_bits ≤ pool.old.spare }
    requires numbered { spot.base + (spot.at + block_size k.role k.ask_bits k.answer_bits) ≤ 4294967295 }
    ensures cells { Places (block_cells k.role k.ask_bits k.answer_bits (incoming_of wires.now) spot.count spot.j spot.base
        spot.at branch.kept.0 branch.set.0) pool.old pool.new }
    ensures kept { result.kept.0 ≡ kept_net k.role (spot.base + (spot.at + 0)) branch.kept.0 }
    ensures set { result.set.0 ≡ kept_net k.role (spot.base + (spot.at + 1)) branch.set.0 }
    ensures region { region.new ≡ region.old }
{
    match k.role {
        Role::Serve => {
            place_served(k, spot, branch, wires, pool, region);
            Branch {
                kept: own(spot.base, spot.at),
                set: own(spot.base, spot.at + 1),
            }
        }
        Role::Ask => {
            place_asked(k, spot, wires, pool, region);
            branch
        }
    }
}

// Places the blocks of all handshakes, and the last cell.
fn place_row(ty: &Ty, count: usize, wires: &[Wire], pool: &mut NetPool, region: &mut Region)
    requires count { count ≡ length (all_of ty.now) }
    requires few { count ≤ 64 }
    requires wires { length wires.now ≡ count + (count + count) }
    requires begun { pool.old.begun ≡ Some region.old }
    requires spare { blocks_size (all_of ty.now) + 1 ≤ pool.old.spare }
    requires numbered { region.old + (4 + blocks_size (all_of ty.now)) ≤ 4294967295 }
    ensures cells { Places (row_cells (incoming_of wires.now) (length (all_of ty.now)) 0 region.old 3 (region.old + 0)
        (region.old + 2) (all_of ty.now)) pool.old pool.new }
    ensures region { region.new ≡ region.old }
{
    let base = region.start();
    let mut branch = Branch {
        kept: own(base, 0),
        set: own(base, 2),
    };
    let mut j = 0;
    let mut at = 3;
    loop {
        match next(ty, j) {
            Some(k) => {
                let spot = Spot {
                    count,
                    j: j as usize,
                    base,
                    at,
                };
                branch = place_block(k, spot, branch, wires, pool, region);
                j += 1;
                at += k.size();
            }
            None => {
                pool.place(region, bit(Gate::Or(branch.kept, branch.set)));
                return;
            }
        }
    }
}

// The cells ahead of the row: the branch, which takes what the cell at this place shows, its complement, and a 0.
fn head(base: u32, last: u32) -> [Cell; 3]
    requires { base + last ≤ 4294967295 }
    ensures { map cell_of result ≡ bit (Reg (base + last)) ∷ bit (Not (base + 0)) ∷ bit (Const 0) ∷ [] }
{
    [
        bit(Gate::Reg(own(base, last))),
        bit(Gate::Not(own(base, 0))),
        bit(Gate::Const(0)),
    ]
}

// Places all cells.
#[tactic(auto, using(crate::proofs::SharingLemmas::behind_all))]
pub(crate) fn place(ty: &Ty, count: usize, wires: &[Wire], pool: &mut NetPool, region: &mut Region)
    requires count { count ≡ length (all_of ty.now) }
    requires few { count ≤ 64 }
    requires wires { length wires.now ≡ count + (count + count) }
    requires begun { pool.old.begun ≡ Some region.old }
    requires spare { 4 + blocks_size (all_of ty.now) ≤ pool.old.spare }
    requires numbered { region.old + (4 + blocks_size (all_of ty.now)) ≤ 4294967295 }
    ensures cells { Places (share_cells (all_of ty.now) region.old (incoming_of wires.now)) pool.old pool.new }
    ensures region { region.new ≡ region.old }
{
    pool.place_all(region, &head(region.start(), 3 + blocks(ty)));
    place_row(ty, count, wires, pool, region);
}
