// The nets that go out, filled in side by side.

ghost use Rattle.std.specs.Prelude.{◌≡◌, ◌+◌, ◌<◌, ◌≤◌, ℕ, length, map};
ghost use Rattle.gos_macro.specs.Wires.{nets_in, HoldsNets, HoldNets};
ghost use Rattle.gos_fast_share.specs.Fast.{block_size};
ghost use Rattle.gos_fast_share.specs.inner.Seen.{all_of, outgoing_of, side_out, side_outs, blocks_size};

use crate::blocks;
use gos_macro::Wire;
use gos_macro::cells::own;
use gos_share::{Shared, next};
use gos_types::Ty;

// A side of a handshake: the source's, or that of one of both callers.
#[derive(Debug, Clone, Copy)]
pub(crate) enum Side {
    Source,
    First,
    Second,
}

// Where a pulse goes out, by the place of its cell, and the bits of the number with it, whose cell is the second behind.
#[derive(Debug, Clone, Copy)]
pub(crate) struct Out {
    pub(crate) pulse: u32,
    pub(crate) bits: u32,
}

impl Side {
    // What goes out here at a handshake, where its block begins at this place.
    fn out(self, shared: Shared, at: u32) -> Out
        requires { at + block_size shared.role shared.ask_bits shared.answer_bits ≤ 4294967295 }
        ensures nets { (b : ℕ) → outgoing_of b result ≡ side_out self shared.role shared.ask_bits shared.answer_bits b at }
        ensures pulse { result.pulse < at + block_size shared.role shared.ask_bits shared.answer_bits }
        ensures value { 0 < result.bits → result.pulse + 2 < at + block_size shared.role shared.ask_bits shared.answer_bits }
    {
        let (up, down) = (blocks::up(shared), blocks::down(shared));
        match self {
            Side::Source => Out {
                pulse: at,
                bits: up,
            },
            Side::First => Out {
                pulse: at + blocks::told(up),
                bits: down,
            },
            Side::Second => Out {
                pulse: at + blocks::told(up) + 1,
                bits: down,
            },
        }
    }
}

// A wire with the nets of a handshake filled in.
#[tactic(auto, using(gos_share::proofs::SideLemmas::bare_or_bearing))]
fn filled(out: Out, base: u32, wire: Wire) -> Wire
    requires pulse { base + out.pulse ≤ 4294967295 }
    requires value { 0 < out.bits → base + (out.pulse + 2) ≤ 4294967295 }
    ensures nets { HoldsNets (outgoing_of base out) result }
    ensures rest { nets_in result ≡ nets_in wire }
{
    let mut wire = wire;
    wire.out_pulse = own(base, out.pulse);
    if out.bits > 0 {
        wire.out_value = own(base, out.pulse + 2);
    }
    wire
}

// Fills in the nets that go out at one side, where the first block begins at place `start`.
pub(crate) fn fill_side(ty: &Ty, side: Side, base: u32, start: u32, wires: &mut [Wire])
    requires wires { length wires.old ≡ length (all_of ty.now) }
    requires few { length (all_of ty.now) ≤ 64 }
    requires numbered { base + (start + blocks_size (all_of ty.now)) ≤ 4294967295 }
    ensures outs { HoldNets (side_outs side base start (all_of ty.now)) wires.new }
    ensures rest { map nets_in wires.new ≡ map nets_in wires.old }
{
    let mut at = start;
    for j in 0..wires.len() {
        let Some(shared) = next(ty, j as u32) else {
            unreachable!()
        };
        wires[j] = filled(side.out(shared, at), base, wires[j]);
        at += blocks::size(shared);
    }
}
