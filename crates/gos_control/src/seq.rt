// The gates of a sequence: the first part runs, then the second, and then the caller is answered.
//
// Handshakes: 0 asks for the first part, 1 for the second, and 2 is served.

ghost use Rattle.std.specs.Prelude.{◌≡◌, ◌+◌, ◌≤◌, length, map};
ghost use Rattle.gos_netlist.specs.Seen.{cell_of};
ghost use Rattle.gos_macro.specs.Wires.{nets_in, incoming_of, HoldNets};
ghost use Rattle.gos_control.specs.Seq.{seq_com_layout, seq_exp_layout, seq_com_outs, seq_exp_outs};

use gos_macro::Wire;
use gos_macro::cells::{buffer, own, wide};
use gos_netlist::{Cell, Gate};

// The cells of a command. None names another, so they are the same wherever they stand.
pub(crate) fn com_cells(wires: &[Wire]) -> [Cell; 3]
    requires { length wires.now ≡ 3 }
    ensures { map cell_of result ≡ seq_com_layout (incoming_of wires.now) }
{
    let [first, second, caller] = wires else {
        unreachable!()
    };
    [
        buffer(caller.in_pulse),
        buffer(first.in_pulse),
        buffer(second.in_pulse),
    ]
}

// The cells of an expression of `w` bits, likewise.
pub(crate) fn exp_cells(w: u32, wires: &[Wire]) -> [Cell; 4]
    requires { length wires.now ≡ 3 }
    ensures { map cell_of result ≡ seq_exp_layout w (incoming_of wires.now) }
{
    let [first, second, caller] = wires else {
        unreachable!()
    };
    [
        buffer(caller.in_pulse),
        buffer(first.in_pulse),
        buffer(second.in_pulse),
        wide(w, Gate::Gate(second.in_pulse, second.in_value)),
    ]
}

// Fills in the nets that go out of a command.
pub(crate) fn com_outs(base: u32, wires: &mut [Wire])
    requires wires { length wires.old ≡ 3 }
    requires numbered { base + 3 ≤ 4294967295 }
    ensures outs { HoldNets (seq_com_outs base) wires.new }
    ensures rest { map nets_in wires.new ≡ map nets_in wires.old }
{
    wires[0].out_pulse = own(base, 0);
    wires[1].out_pulse = own(base, 1);
    wires[2].out_pulse = own(base, 2);
}

// Fills in the nets that go out of an expression.
pub(crate) fn exp_outs(base: u32, wires: &mut [Wire])
    requires wires { length wires.old ≡ 3 }
    requires numbered { base + 4 ≤ 4294967295 }
    ensures outs { HoldNets (seq_exp_outs base) wires.new }
    ensures rest { map nets_in wires.new ≡ map nets_in wires.old }
{
    com_outs(base, wires);
    wires[2].out_value = own(base, 3);
}
