// The gates of a literal: each request is answered by its number.
//
// Handshake 0 is served.

ghost use Rattle.std.specs.Prelude.{◌≡◌, ◌+◌, ◌≤◌, length, map};
ghost use Rattle.gos_netlist.specs.Seen.{cell_of};
ghost use Rattle.gos_macro.specs.Wires.{nets_in, incoming_of, HoldNets};
ghost use Rattle.gos_data.specs.Lit.{lit_cells, lit_outs};

use gos_macro::Wire;
use gos_macro::cells::{buffer, own, wide};
use gos_netlist::{Cell, Gate};

// The cells, from the number of the first one.
pub(crate) fn cells(w: u32, k: u64, base: u32, wires: &[Wire]) -> [Cell; 3]
    requires wires { length wires.now ≡ 1 }
    requires numbered { base + 3 ≤ 4294967295 }
    ensures { map cell_of result ≡ lit_cells w k base (incoming_of wires.now) }
{
    let [caller] = wires else { unreachable!() };
    let number = own(base, 1);
    [
        buffer(caller.in_pulse),
        wide(w, Gate::Const(k)),
        wide(w, Gate::Gate(caller.in_pulse, number)),
    ]
}

// Fills in the nets that go out.
pub(crate) fn outs(base: u32, wires: &mut [Wire])
    requires wires { length wires.old ≡ 1 }
    requires numbered { base + 3 ≤ 4294967295 }
    ensures outs { HoldNets (lit_outs base) wires.new }
    ensures rest { map nets_in wires.new ≡ map nets_in wires.old }
{
    wires[0].out_pulse = own(base, 0);
    wires[0].out_value = own(base, 2);
}
