// The gates of a read: it asks a variable for its number, and answers it.
//
// Handshakes: 0 asks the variable, 1 is served.

ghost use Rattle.std.specs.Prelude.{◌≡◌, ◌+◌, ◌≤◌, length, map};
ghost use Rattle.gos_netlist.specs.Seen.{cell_of};
ghost use Rattle.gos_macro.specs.Wires.{nets_in, incoming_of, HoldNets};
ghost use Rattle.gos_data.specs.Deref.{deref_cells, deref_outs};

use gos_macro::Wire;
use gos_macro::cells::{buffer, own, wide};
use gos_netlist::{Cell, Gate};

// The cells. None names another, so they are the same wherever they stand.
pub(crate) fn cells(w: u32, wires: &[Wire]) -> [Cell; 3]
    requires { length wires.now ≡ 2 }
    ensures { map cell_of result ≡ deref_cells w (incoming_of wires.now) }
{
    let [variable, caller] = wires else {
        unreachable!()
    };
    [
        buffer(caller.in_pulse),
        buffer(variable.in_pulse),
        wide(w, Gate::Gate(variable.in_pulse, variable.in_value)),
    ]
}

// Fills in the nets that go out.
pub(crate) fn outs(base: u32, wires: &mut [Wire])
    requires wires { length wires.old ≡ 2 }
    requires numbered { base + 3 ≤ 4294967295 }
    ensures outs { HoldNets (deref_outs base) wires.new }
    ensures rest { map nets_in wires.new ≡ map nets_in wires.old }
{
    wires[0].out_pulse = own(base, 0);
    wires[1].out_pulse = own(base, 1);
    wires[1].out_value = own(base, 2);
}
