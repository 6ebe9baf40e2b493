// The gates of an assignment: it asks for a number, has it written, and answers when that is done.
//
// Handshakes: 0 asks for the number, 1 for its writing, 2 is served.

ghost use Rattle.std.specs.Prelude.{◌≡◌, ◌+◌, ◌≤◌, length, map};
ghost use Rattle.gos_netlist.specs.Seen.{cell_of};
ghost use Rattle.gos_macro.specs.Wires.{nets_in, incoming_of, HoldNets};
ghost use Rattle.gos_data.specs.Assign.{assign_cells, assign_outs};

use gos_macro::Wire;
use gos_macro::cells::{buffer, own, wide};
use gos_netlist::{Cell, Gate};

// The cells. None names another, so they are the same wherever they stand.
pub(crate) fn cells(w: u32, wires: &[Wire]) -> [Cell; 4]
    requires { length wires.now ≡ 3 }
    ensures { map cell_of result ≡ assign_cells w (incoming_of wires.now) }
{
    let [number, write, caller] = wires else {
        unreachable!()
    };
    [
        buffer(caller.in_pulse),
        buffer(number.in_pulse),
        wide(w, Gate::Gate(number.in_pulse, number.in_value)),
        buffer(write.in_pulse),
    ]
}

// Fills in the nets that go out.
pub(crate) fn outs(base: u32, wires: &mut [Wire])
    requires wires { length wires.old ≡ 3 }
    requires numbered { base + 4 ≤ 4294967295 }
    ensures outs { HoldNets (assign_outs base) wires.new }
    ensures rest { map nets_in wires.new ≡ map nets_in wires.old }
{
    wires[0].out_pulse = own(base, 0);
    wires[1].out_pulse = own(base, 1);
    wires[1].out_value = own(base, 2);
    wires[2].out_pulse = own(base, 3);
}
