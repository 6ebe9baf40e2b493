// The gates of a local variable: each request sets it to 0 and runs the body, which reads and writes it.
//
// Handshakes: 0 asks the body, 1 serves a read, 2 a write, 3 is served.

ghost use Rattle.std.specs.Prelude.{◌≡◌, ◌+◌, ◌<◌, ◌≤◌, [], ◌∷◌, length, map};
ghost use Rattle.gos_netlist.specs.Seen.{cell_of};
ghost use Rattle.gos_macro.specs.Wires.{nets_in, incoming_of, HoldNets};
ghost use Rattle.gos_data.specs.Local.{variable_cells, local_outs};
ghost use Rattle.gos_data.specs.inner.Sizes.{local_size};

use crate::body_answer;
use crate::stored::Stored;
use gos_macro::Wire;
use gos_macro::cells::{bit, buffer, own, wide};
use gos_netlist::{Cell, Gate};

// The cells of the variable, from the number of the first one.
pub(crate) fn variable(w: u32, base: u32, wires: &[Wire]) -> [Cell; 9]
    requires wires { length wires.now ≡ 4 }
    requires numbered { base + 9 ≤ 4294967295 }
    ensures { map cell_of result ≡ variable_cells w base (incoming_of wires.now) }
{
    let [body, read, write, caller] = wires else {
        unreachable!()
    };
    let stored = Stored {
        kept: own(base, 5),
        next: own(base, 6),
        number: own(base, 7),
    };
    let [kept, next, number] = stored.cells(w, own(base, 4), write.in_pulse, write.in_value);
    [
        bit(Gate::Reg(caller.in_pulse)),
        buffer(read.in_pulse),
        wide(w, Gate::Gate(read.in_pulse, stored.number)),
        bit(Gate::Reg(write.in_pulse)),
        bit(Gate::Not(caller.in_pulse)),
        kept,
        next,
        number,
        buffer(body.in_pulse),
    ]
}

// How many cells there are.
#[tactic(auto, using(crate::proofs::LocalLemmas::nine_or_ten))]
pub(crate) fn size(v: u32) -> u32
    ensures { result ≡ local_size v }
{
    if v == 0 { 9 } else { 10 }
}

// Fills in the nets that go out.
pub(crate) fn outs(v: u32, base: u32, wires: &mut [Wire])
    requires wires { length wires.old ≡ 4 }
    requires numbered { base + local_size v ≤ 4294967295 }
    ensures outs { HoldNets (local_outs v base) wires.new }
    ensures rest { map nets_in wires.new ≡ map nets_in wires.old }
{
    wires[0].out_pulse = own(base, 0);
    wires[1].out_pulse = own(base, 1);
    wires[1].out_value = own(base, 2);
    wires[2].out_pulse = own(base, 3);
    body_answer::outs(v, own(base, 8), own(base, 9), &mut wires[3]);
}
