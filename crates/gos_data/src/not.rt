// The gates of a complement: it asks for a number, and answers it with all bits turned.
//
// Handshakes: 0 asks for the number, 1 is served.

ghost use Rattle.std.specs.Prelude.{◌≡◌, ◌+◌, ◌≤◌, length, map};
ghost use Rattle.gos_netlist.specs.Seen.{cell_of};
ghost use Rattle.gos_macro.specs.Wires.{nets_in, incoming_of, HoldNets};
ghost use Rattle.gos_data.specs.Not.{not_cells, not_outs};

use gos_macro::Wire;
use gos_macro::cells::{buffer, own, wide};
use gos_netlist::{Cell, Gate};

// The cells, from the number of the first one.
pub(crate) fn cells(w: u32, base: u32, wires: &[Wire]) -> [Cell; 4]
    requires wires { length wires.now ≡ 2 }
    requires numbered { base + 4 ≤ 4294967295 }
    ensures { map cell_of result ≡ not_cells w base (incoming_of wires.now) }
{
    let [number, caller] = wires else {
        unreachable!()
    };
    let turned = own(base, 2);
    [
        buffer(caller.in_pulse),
        buffer(number.in_pulse),
        wide(w, Gate::Not(number.in_value)),
        wide(w, Gate::Gate(number.in_pulse, turned)),
    ]
}

// Fills in the nets that go out.
pub(crate) fn outs(base: u32, wires: &mut [Wire])
    requires wires { length wires.old ≡ 2 }
    requires numbered { base + 4 ≤ 4294967295 }
    ensures outs { HoldNets (not_outs base) wires.new }
    ensures rest { map nets_in wires.new ≡ map nets_in wires.old }
{
    wires[0].out_pulse = own(base, 0);
    wires[1].out_pulse = own(base, 1);
    wires[1].out_value = own(base, 3);
}
