// The cells of one handshake: the parts of its block, from the nets that come in at its three sides.

ghost use Rattle.std.specs.Prelude.{◌≡◌, ◌+◌, ◌<◌, ◌≤◌, length, map, take};
ghost use Rattle.gos_netlist.specs.Seen.{cell_of};
ghost use Rattle.gos_macro.specs.Wires.{incoming_of};
ghost use Rattle.gos_share.specs.Blocks.{asked_cells, asked_size, answered_cells, answered_size, sent_cells, sent_size, told_cells, told_size, branch_cells};

use gos_macro::Wire;
use gos_macro::cells::{bit, own, wide};
use gos_netlist::{Cell, Gate, NetId};

// The wire at this place.
#[tactic(auto, using(crate::proofs::CellLemmas::pulse_there, crate::proofs::CellLemmas::value_there))]
fn wire(wires: &[Wire], n: usize) -> Wire
    requires { n < length wires.now }
    ensures pulse { result.in_pulse.0 ≡ (incoming_of wires.now).pulse n }
    ensures value { result.in_value.0 ≡ (incoming_of wires.now).value n }
{
    wires[n]
}

// The cells that a handshake at which the callers ask adds to what is known of the branch.
pub(crate) fn branch(
    wires: &[Wire],
    count: usize,
    j: usize,
    base: u32,
    kept: NetId,
    set: NetId,
) -> [Cell; 2]
    requires wires { count + count + j < length wires.now }
    requires numbered { base + 2 ≤ 4294967295 }
    ensures { map cell_of result ≡ branch_cells (incoming_of wires.now) count j base kept.0 set.0 }
{
    let first = wire(wires, count + j);
    let second = wire(wires, count + count + j);
    [
        bit(Gate::Mux(first.in_pulse, own(base, 2), kept)),
        bit(Gate::Or(set, second.in_pulse)),
    ]
}

// The cells of a request of the callers. Those behind the second are of its number.
pub(crate) fn asked(
    bits: u32,
    wires: &[Wire],
    count: usize,
    j: usize,
    base: u32,
    at: u32,
) -> [Cell; 5]
    requires wires { count + count + j < length wires.now }
    requires numbered { base + (at + 3) ≤ 4294967295 }
    ensures { take (asked_size bits) (map cell_of result) ≡ asked_cells bits (incoming_of wires.now) count j base at }
{
    let first = wire(wires, count + j);
    let second = wire(wires, count + count + j);
    [
        bit(Gate::Or(first.in_pulse, second.in_pulse)),
        bit(Gate::Reg(own(base, at))),
        wide(
            bits,
            Gate::Mux(second.in_pulse, second.in_value, first.in_value),
        ),
        wide(bits, Gate::Reg(own(base, at + 2))),
        wide(bits, Gate::Gate(own(base, at + 1), own(base, at + 3))),
    ]
}

// The cells of an answer of the source. Those behind the second are of its number.
pub(crate) fn answered(bits: u32, wires: &[Wire], j: usize, base: u32, at: u32) -> [Cell; 4]
    requires wires { j < length wires.now }
    requires numbered { base + (at + 1) ≤ 4294967295 }
    ensures { take (answered_size bits) (map cell_of result) ≡ answered_cells bits (incoming_of wires.now) j base at }
{
    let source = wire(wires, j);
    let to_first = own(base, 1);
    let to_second = own(base, 0);
    [
        bit(Gate::And(source.in_pulse, to_first)),
        bit(Gate::And(source.in_pulse, to_second)),
        wide(bits, Gate::Gate(own(base, at), source.in_value)),
        wide(bits, Gate::Gate(own(base, at + 1), source.in_value)),
    ]
}

// The cells of a request of the source. Those behind the fourth are of its number.
pub(crate) fn sent(bits: u32, wires: &[Wire], j: usize, base: u32, at: u32) -> [Cell; 7]
    requires wires { j < length wires.now }
    requires numbered { base + (at + 4) ≤ 4294967295 }
    ensures { take (sent_size bits) (map cell_of result) ≡ sent_cells bits (incoming_of wires.now) j base at }
{
    let source = wire(wires, j);
    let number = own(base, at + 4);
    [
        bit(Gate::And(source.in_pulse, own(base, 1))),
        bit(Gate::And(source.in_pulse, own(base, 0))),
        bit(Gate::Reg(own(base, at))),
        bit(Gate::Reg(own(base, at + 1))),
        wide(bits, Gate::Reg(source.in_value)),
        wide(bits, Gate::Gate(own(base, at + 2), number)),
        wide(bits, Gate::Gate(own(base, at + 3), number)),
    ]
}

// The cells of an answer of the callers. Those behind the first are of its number.
pub(crate) fn told(
    bits: u32,
    wires: &[Wire],
    count: usize,
    j: usize,
    base: u32,
    at: u32,
) -> [Cell; 3]
    requires wires { count + count + j < length wires.now }
    requires numbered { base + (at + 1) ≤ 4294967295 }
    ensures { take (told_size bits) (map cell_of result) ≡ told_cells bits (incoming_of wires.now) count j base at }
{
    let first = wire(wires, count + j);
    let second = wire(wires, count + count + j);
    [
        bit(Gate::Or(first.in_pulse, second.in_pulse)),
        wide(
            bits,
            Gate::Mux(second.in_pulse, second.in_value, first.in_value),
        ),
        wide(bits, Gate::Gate(own(base, at), own(base, at + 1))),
    ]
}
