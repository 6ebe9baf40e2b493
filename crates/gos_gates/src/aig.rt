// A circuit of gates as a value.
use std::marker::Model;

/// A circuit of two-input gates and latches.
///
/// Variable v has the literals 2v and, for its complement, 2v + 1. Variable 0 is false. From 1 on come the inputs, then
/// the latches, then the gates.
#[derive(Debug, Drop)]
pub struct Aig {
    /// How many inputs there are.
    pub inputs: u32,
    /// The literal that each latch holds in the next cycle. In the first one it holds 0.
    pub latches: Vec<u32>,
    /// The literal of each output.
    pub outputs: Vec<u32>,
    /// The two literals of each gate, whose conjunction it is. The second is not above the first, and both are of
    /// variables before it.
    pub gates: Vec<(u32, u32)>,
}

impl Model for Aig {
    ghost use Rattle.gos_gates.specs.Gates.{Gates};

    ghost Value = { Gates };

    ghost view = { λ a. record { inputs = a.inputs; latches = a.latches.items; outputs = a.outputs.items; gates = a.gates.items } };
}
