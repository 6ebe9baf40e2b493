// The gates of what is done at once: the request is the answer.
//
// Handshakes: 0 is served.

ghost use Rattle.std.specs.Prelude.{◌≡◌, ◌+◌, ◌≤◌, [], ◌∷◌, length, map};
ghost use Rattle.gos_netlist.specs.Seen.{cell_of};
ghost use Rattle.gos_macro.specs.Cells.{buffer};
ghost use Rattle.gos_macro.specs.SmallGates.{skip_outs};
ghost use Rattle.gos_macro.specs.Wires.{nets_in, incoming_of, HoldNets};

use gos_macro::Wire;
use gos_macro::cells::{buffer, own};
use gos_netlist::Cell;

// The one cell. It names no other, so it is the same wherever it stands.
pub(crate) fn cells(wires: &[Wire]) -> [Cell; 1]
    requires { length wires.now ≡ 1 }
    ensures { map cell_of result ≡ buffer ((incoming_of wires.now).pulse 0) ∷ [] }
{
    let [caller] = wires else { unreachable!() };
    [buffer(caller.in_pulse)]
}

// Fills in the net that goes out.
pub(crate) fn outs(base: u32, wires: &mut [Wire])
    requires wires { length wires.old ≡ 1 }
    requires numbered { base + 1 ≤ 4294967295 }
    ensures outs { HoldNets (skip_outs base) wires.new }
    ensures rest { map nets_in wires.new ≡ map nets_in wires.old }
{
    wires[0].out_pulse = own(base, 0);
}
