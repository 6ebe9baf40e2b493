// The cells of the thread and of a block, from the nets that come in.

ghost use Rattle.std.specs.Prelude.{◌≡◌, ◌+◌, ◌<◌, ◌≤◌, ℕ, length, map, take};
ghost use Rattle.gos_netlist.specs.Seen.{cell_of};
ghost use Rattle.gos_macro.specs.Wires.{incoming_of};
ghost use Rattle.gos_share.specs.Blocks.{told_cells, told_size};
ghost use Rattle.gos_fast_share.specs.Thread.{one_if_asks};
ghost use Rattle.gos_fast_share.specs.Fast.{set_cells, split_cells, split_size};
ghost use Rattle.gos_fast_share.specs.inner.Seen.{asker_of};

use crate::asking::Asking;
use gos_macro::Wire;
use gos_macro::cells::{bit, own, wide};
use gos_netlist::{Cell, Gate, NetId};

// The branch behind a request with this pulse, where it is the net at place `n` before. Who doesn't ask has none of it.
pub(crate) fn set(asking: Asking, pulse: NetId, base: u32, n: u32) -> [Cell; 1]
    requires numbered { base + n ≤ 4294967295 }
    ensures { take (one_if_asks (asker_of asking)) (map cell_of result) ≡ set_cells (asker_of asking) pulse.0 base n }
{
    match asking {
        Asking::Caller0 => [bit(Gate::Mux(pulse, own(base, 0), own(base, n)))],
        Asking::Caller1 | Asking::Nobody => [bit(Gate::Or(own(base, n), pulse))],
    }
}

// What comes in from the callers goes to the source. Those behind the first are of its number.
pub(crate) fn told(
    bits: u32,
    wires: &[Wire],
    count: usize,
    j: usize,
    base: u32,
    at: u32,
) -> [Cell; 3]
    requires wires { count + count + j < length wires.now }
    requires numbered { base + (at + 1) ≤ 4294967295 }
    ensures { take (told_size bits) (map cell_of result) ≡ told_cells bits (incoming_of wires.now) count j base at }
{
    let first = wires[count + j];
    let second = wires[count + count + j];
    [
        bit(Gate::Or(first.in_pulse, second.in_pulse)),
        wide(
            bits,
            Gate::Mux(second.in_pulse, second.in_value, first.in_value),
        ),
        wide(bits, Gate::Gate(own(base, at), own(base, at + 1))),
    ]
}

// What comes in from the source goes to the caller of the branch. Those behind the second are of its number.
pub(crate) fn split(
    bits: u32,
    wires: &[Wire],
    j: usize,
    base: u32,
    at: u32,
    branch: NetId,
) -> [Cell; 4]
    requires wires { j < length wires.now }
    requires numbered { base + (at + 1) ≤ 4294967295 }
    ensures { take (split_size bits) (map cell_of result) ≡ split_cells bits (incoming_of wires.now) j base at branch.0 }
{
    let source = wires[j];
    [
        bit(Gate::Mux(branch, own(base, 0), source.in_pulse)),
        bit(Gate::And(source.in_pulse, branch)),
        wide(bits, Gate::Gate(own(base, at), source.in_value)),
        wide(bits, Gate::Gate(own(base, at + 1), source.in_value)),
    ]
}
