// The gates of a choice: a test is asked for, and then one of two parts.
//
// Handshakes: 0 asks for the test, 1 and 2 for the two parts, and 3 is served.

ghost use Rattle.std.specs.Prelude.{◌≡◌, ◌+◌, ◌≤◌, length, map};
ghost use Rattle.gos_netlist.specs.Seen.{cell_of};
ghost use Rattle.gos_macro.specs.Wires.{nets_in, incoming_of, HoldNets};
ghost use Rattle.gos_control.specs.Choice.{choice_com_layout, choice_exp_layout, choice_com_outs, choice_exp_outs};

use gos_macro::Wire;
use gos_macro::cells::{bit, buffer, own, wide};
use gos_netlist::{Cell, Gate};

// The cells of commands, from the number of the first one.
pub(crate) fn com_cells(base: u32, wires: &[Wire]) -> [Cell; 5]
    requires wires { length wires.now ≡ 4 }
    requires numbered { base + 5 ≤ 4294967295 }
    ensures { map cell_of result ≡ choice_com_layout base (incoming_of wires.now) }
{
    let [test, first, second, caller] = wires else {
        unreachable!()
    };
    [
        buffer(caller.in_pulse),
        bit(Gate::And(test.in_pulse, test.in_value)),
        bit(Gate::Not(test.in_value)),
        bit(Gate::And(test.in_pulse, own(base, 2))),
        bit(Gate::Or(first.in_pulse, second.in_pulse)),
    ]
}

// The cells of expressions of `w` bits, from the number of the first one.
pub(crate) fn exp_cells(w: u32, base: u32, wires: &[Wire]) -> [Cell; 7]
    requires wires { length wires.now ≡ 4 }
    requires numbered { base + 7 ≤ 4294967295 }
    ensures { map cell_of result ≡ choice_exp_layout w base (incoming_of wires.now) }
{
    let [test, first, second, caller] = wires else {
        unreachable!()
    };
    [
        buffer(caller.in_pulse),
        bit(Gate::And(test.in_pulse, test.in_value)),
        bit(Gate::Not(test.in_value)),
        bit(Gate::And(test.in_pulse, own(base, 2))),
        bit(Gate::Or(first.in_pulse, second.in_pulse)),
        wide(w, Gate::Gate(first.in_pulse, first.in_value)),
        wide(w, Gate::Mux(second.in_pulse, second.in_value, own(base, 5))),
    ]
}

// Fills in the nets that go out of commands.
pub(crate) fn com_outs(base: u32, wires: &mut [Wire])
    requires wires { length wires.old ≡ 4 }
    requires numbered { base + 5 ≤ 4294967295 }
    ensures outs { HoldNets (choice_com_outs base) wires.new }
    ensures rest { map nets_in wires.new ≡ map nets_in wires.old }
{
    wires[0].out_pulse = own(base, 0);
    wires[1].out_pulse = own(base, 1);
    wires[2].out_pulse = own(base, 3);
    wires[3].out_pulse = own(base, 4);
}

// Fills in the nets that go out of expressions.
pub(crate) fn exp_outs(base: u32, wires: &mut [Wire])
    requires wires { length wires.old ≡ 4 }
    requires numbered { base + 7 ≤ 4294967295 }
    ensures outs { HoldNets (choice_exp_outs base) wires.new }
    ensures rest { map nets_in wires.new ≡ map nets_in wires.old }
{
    com_outs(base, wires);
    wires[3].out_value = own(base, 6);
}
