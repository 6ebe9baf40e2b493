// The gates of an operator: it asks for the left number and, as soon as that comes, for the right one, and answers what
// it computes. It holds the left number where the right one comes later.
//
// Handshakes: 0 asks for the left number, 1 for the right one, 2 is served.

ghost use Rattle.std.specs.Prelude.{◌≡◌, ◌+◌, ◌≤◌, length, map};
ghost use Rattle.gos_netlist.specs.Seen.{cell_of, function_of};
ghost use Rattle.gos_model.specs.Terms.{result_width};
ghost use Rattle.gos_plan.specs.Seen.{operation_of};
ghost use Rattle.gos_macro.specs.Wires.{nets_in, incoming_of, HoldNets};
ghost use Rattle.gos_data.specs.Op.{gate_of, op_cells, op_outs};

use gos_macro::Wire;
use gos_macro::cells::{bit, buffer, own, wide};
use gos_netlist::{Cell, Gate, NetId};
use gos_plan::Op2;

// The bits of what an operator computes from two numbers of `w` bits.
fn bits_of_result(op: Op2, w: u32) -> u32
    ensures { result ≡ result_width (operation_of op) w }
{
    match op {
        Op2::Eq | Op2::Less => 1,
        Op2::Add | Op2::Sub | Op2::And | Op2::Or | Op2::Xor => w,
    }
}

// The gate of an operator.
fn gate(op: Op2, left: NetId, right: NetId) -> Gate
    ensures { function_of result ≡ gate_of (operation_of op) left.0 right.0 }
{
    match op {
        Op2::Add => Gate::Add(left, right),
        Op2::Sub => Gate::Sub(left, right),
        Op2::And => Gate::And(left, right),
        Op2::Or => Gate::Or(left, right),
        Op2::Xor => Gate::Xor(left, right),
        Op2::Eq => Gate::Eq(left, right),
        Op2::Less => Gate::Less(left, right),
    }
}

// The cells, from the number of the first one.
pub(crate) fn cells(op: Op2, w: u32, base: u32, wires: &[Wire]) -> [Cell; 12]
    requires wires { length wires.now ≡ 3 }
    requires numbered { base + 12 ≤ 4294967295 }
    ensures { map cell_of result ≡ op_cells (operation_of op) w base (incoming_of wires.now) }
{
    let [left, right, caller] = wires else {
        unreachable!()
    };
    let chosen = own(base, 1);
    let held = own(base, 2);
    let both = own(base, 4);
    let awaited = own(base, 6);
    let begun = own(base, 7);
    let awaits_next = own(base, 8);
    let operand = own(base, 9);
    let computed = own(base, 10);
    let bits = bits_of_result(op, w);
    [
        buffer(caller.in_pulse),
        wide(w, Gate::Mux(left.in_pulse, left.in_value, held)),
        wide(w, Gate::Reg(chosen)),
        buffer(left.in_pulse),
        bit(Gate::And(left.in_pulse, right.in_pulse)),
        bit(Gate::Or(right.in_pulse, both)),
        bit(Gate::Reg(awaits_next)),
        bit(Gate::Xor(awaited, left.in_pulse)),
        bit(Gate::Xor(begun, right.in_pulse)),
        wide(w, Gate::Mux(awaited, held, left.in_value)),
        wide(bits, gate(op, operand, right.in_value)),
        wide(bits, Gate::Gate(right.in_pulse, computed)),
    ]
}

// Fills in the nets that go out.
pub(crate) fn outs(base: u32, wires: &mut [Wire])
    requires wires { length wires.old ≡ 3 }
    requires numbered { base + 12 ≤ 4294967295 }
    ensures outs { HoldNets (op_outs base) wires.new }
    ensures rest { map nets_in wires.new ≡ map nets_in wires.old }
{
    wires[0].out_pulse = own(base, 0);
    wires[1].out_pulse = own(base, 3);
    wires[2].out_pulse = own(base, 5);
    wires[2].out_value = own(base, 11);
}
