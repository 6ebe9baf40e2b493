// The gates of two commands that run side by side: the caller is answered when both are done.
//
// Handshakes: 0 and 1 ask for the two commands, and 2 is served.

ghost use Rattle.std.specs.Prelude.{◌≡◌, ◌+◌, ◌≤◌, length, map};
ghost use Rattle.gos_netlist.specs.Seen.{cell_of};
ghost use Rattle.gos_macro.specs.Wires.{nets_in, incoming_of, HoldNets};
ghost use Rattle.gos_control.specs.Par.{par_layout, par_outs};

use gos_macro::Wire;
use gos_macro::cells::{bit, buffer, own};
use gos_netlist::{Cell, Gate};

// The cells, from the number of the first one.
pub(crate) fn cells(base: u32, wires: &[Wire]) -> [Cell; 11]
    requires wires { length wires.now ≡ 3 }
    requires numbered { base + 11 ≤ 4294967295 }
    ensures { map cell_of result ≡ par_layout base (incoming_of wires.now) }
{
    let [left, right, caller] = wires else {
        unreachable!()
    };
    let left_was = own(base, 2);
    let right_was = own(base, 3);
    let answer = own(base, 6);
    [
        buffer(caller.in_pulse),
        buffer(caller.in_pulse),
        bit(Gate::Reg(own(base, 9))),
        bit(Gate::Reg(own(base, 10))),
        bit(Gate::Or(left_was, left.in_pulse)),
        bit(Gate::Or(right_was, right.in_pulse)),
        bit(Gate::And(own(base, 4), own(base, 5))),
        bit(Gate::Xor(left_was, left.in_pulse)),
        bit(Gate::Xor(right_was, right.in_pulse)),
        bit(Gate::Xor(own(base, 7), answer)),
        bit(Gate::Xor(own(base, 8), answer)),
    ]
}

// Fills in the nets that go out.
pub(crate) fn outs(base: u32, wires: &mut [Wire])
    requires wires { length wires.old ≡ 3 }
    requires numbered { base + 11 ≤ 4294967295 }
    ensures outs { HoldNets (par_outs base) wires.new }
    ensures rest { map nets_in wires.new ≡ map nets_in wires.old }
{
    wires[0].out_pulse = own(base, 0);
    wires[1].out_pulse = own(base, 1);
    wires[2].out_pulse = own(base, 6);
}
