// What a body answers with is let through: a pulse, and a number where it is an expression.

ghost use Rattle.std.specs.Prelude.{◌≡◌, ◌<◌, [], ◌∷◌, length};
ghost use Rattle.gos_netlist.specs.Seen.{cell_of};
ghost use Rattle.gos_macro.specs.Wires.{nets_in, incoming_of, HoldsNets};
ghost use Rattle.gos_data.specs.BodyAnswer.{number_cells, body_answer};

use gos_macro::Wire;
use gos_macro::cells::wide;
use gos_netlist::{Cell, Gate, NetId};

// The cell of the number, where the body is an expression of `v` bits.
#[tactic(auto, using(crate::proofs::BodyAnswerLemmas::number_of_bits))]
pub(crate) fn number(v: u32, wires: &[Wire]) -> Cell
    requires bits { 0 < v }
    requires wires { 0 < length wires.now }
    ensures { cell_of result ∷ [] ≡ number_cells v (incoming_of wires.now) }
{
    let [body, ..] = wires else { unreachable!() };
    wide(v, Gate::Gate(body.in_pulse, body.in_value))
}

// Fills in the nets of the answer to the one who runs the part, which has a number where the body is an expression of `v` bits.
#[tactic(auto, using(crate::proofs::BodyAnswerLemmas::answer_nets))]
pub(crate) fn outs(v: u32, pulse: NetId, number: NetId, wire: &mut Wire)
    ensures nets { HoldsNets (body_answer v pulse.0 number.0) wire.new }
    ensures rest { nets_in wire.new ≡ nets_in wire.old }
{
    wire.out_pulse = pulse;
    if v > 0 {
        wire.out_value = number;
    }
}
