// The gates of a repeated command: it runs as long as a test is 1, which is asked before each run.
//
// Handshakes: 0 asks for the test, 1 for the command, and 2 is served.

ghost use Rattle.std.specs.Prelude.{◌≡◌, ◌+◌, ◌≤◌, length, map};
ghost use Rattle.gos_netlist.specs.Seen.{cell_of};
ghost use Rattle.gos_macro.specs.Wires.{nets_in, incoming_of, HoldNets};
ghost use Rattle.gos_control.specs.Repeat.{repeat_layout, repeat_outs};

use gos_macro::Wire;
use gos_macro::cells::{bit, own};
use gos_netlist::{Cell, Gate};

// The cells, from the number of the first one.
pub(crate) fn cells(base: u32, wires: &[Wire]) -> [Cell; 5]
    requires wires { length wires.now ≡ 3 }
    requires numbered { base + 5 ≤ 4294967295 }
    ensures { map cell_of result ≡ repeat_layout base (incoming_of wires.now) }
{
    let [test, body, caller] = wires else {
        unreachable!()
    };
    [
        bit(Gate::Reg(body.in_pulse)),
        bit(Gate::Or(own(base, 0), caller.in_pulse)),
        bit(Gate::And(test.in_pulse, test.in_value)),
        bit(Gate::Not(test.in_value)),
        bit(Gate::And(test.in_pulse, own(base, 3))),
    ]
}

// Fills in the nets that go out.
pub(crate) fn outs(base: u32, wires: &mut [Wire])
    requires wires { length wires.old ≡ 3 }
    requires numbered { base + 5 ≤ 4294967295 }
    ensures outs { HoldNets (repeat_outs base) wires.new }
    ensures rest { map nets_in wires.new ≡ map nets_in wires.old }
{
    wires[0].out_pulse = own(base, 1);
    wires[1].out_pulse = own(base, 2);
    wires[2].out_pulse = own(base, 4);
}
