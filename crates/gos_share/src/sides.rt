// The nets that go out, filled in side by side.

ghost use Rattle.std.specs.Prelude.{◌≡◌, ◌+◌, ◌≤◌, ◌<◌, length, map};
ghost use Rattle.gos_macro.specs.Wires.{nets_in, HoldsNets, HoldNets};
ghost use Rattle.gos_share.specs.inner.Seen.{all_of, outgoing_of, side_outs, blocks_size};

use crate::shared::{Out, Side, next};
use gos_macro::Wire;
use gos_macro::cells::own;
use gos_types::Ty;

// A wire with the nets of a handshake filled in.
#[tactic(auto, using(crate::proofs::SideLemmas::bare_or_bearing))]
fn filled(out: Out, base: u32, wire: Wire) -> Wire
    requires pulse { base + out.pulse ≤ 4294967295 }
    requires value { 0 < out.bits → base + out.value ≤ 4294967295 }
    ensures nets { HoldsNets (outgoing_of base out) result }
    ensures rest { nets_in result ≡ nets_in wire }
{
    let mut wire = wire;
    wire.out_pulse = own(base, out.pulse);
    if out.bits > 0 {
        wire.out_value = own(base, out.value);
    }
    wire
}

// Fills in the nets that go out at one side.
pub(crate) fn fill_side(ty: &Ty, side: Side, base: u32, wires: &mut [Wire])
    requires wires { length wires.old ≡ length (all_of ty.now) }
    requires few { length (all_of ty.now) ≤ 64 }
    requires small { blocks_size (all_of ty.now) ≤ 704 }
    requires numbered { base + (4 + blocks_size (all_of ty.now)) ≤ 4294967295 }
    ensures outs { HoldNets (side_outs side base 3 (all_of ty.now)) wires.new }
    ensures rest { map nets_in wires.new ≡ map nets_in wires.old }
{
    let mut at = 3;
    for j in 0..wires.len() {
        let Some(k) = next(ty, j as u32) else {
            unreachable!()
        };
        wires[j] = filled(k.out(side, at), base, wires[j]);
        at += k.size();
    }
}
