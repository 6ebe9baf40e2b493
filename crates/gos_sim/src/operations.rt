// What steps do: an operation for each kind of gate, which gives the value of a step from those of the nets that it reads.
ghost use Rattle.std.specs.Prelude.{◌≡◌, ℕ, ◌<◌, length, map, nat_eq, if◌then◌else◌};
ghost use Rattle.gos_netlist.specs.declared.nets.Gate as declared;
ghost use Rattle.gos_netlist.specs.declared.nets.Gate.TheVariants as gates;
ghost use Rattle.gos_netlist.specs.Seen.{function_of};
ghost use Rattle.gos_netlist.specs.Settling.{at, shown};
ghost use Rattle.gos_sim.specs.inner.Program.{HasBits};
ghost use Rattle.gos_sim.specs.inner.Ready.{IsCellWithin};

use crate::word::Word;
use gos_netlist::{Gate, NetId};

/// The nets that a step of two pins reads.
#[derive(Clone, Copy)]
pub struct Pair {
    /// Its first pin.
    pub a: NetId,
    /// Its second one.
    pub b: NetId,
}

/// The nets that a step of three pins reads.
#[derive(Clone, Copy)]
pub struct Triple {
    /// The one that chooses.
    pub s: NetId,
    /// What is chosen where that is 1.
    pub a: NetId,
    /// What is chosen else.
    pub b: NetId,
}

/// What the steps of a run do, each with its own operand.
pub trait Operation {
    /// What a step has of its own: a constant, or the nets that it reads.
    type Operand;

    ghost width: { Self → ℕ };

    ghost gate: { Self → Self.Operand → declared.Gate };

    /// What a step shows, from the values of the nets.
    fn value<W: Word>(&self, operand: &Self::Operand, values: &[W]) -> W
        requires within { IsCellWithin (length values.now) (record { width = width self.now; gate = function_of (gate self.now operand.now) }) }
        requires sized { HasBits W.bits (record { width = width self.now; gate = function_of (gate self.now operand.now) }) }
        ensures { W.number result ≡ shown (width self.now) (function_of (gate self.now operand.now)) 0 0 (at (map W.number values.now)) };

    /// What the step is.
    fn gate_of(&self, operand: &Self::Operand) -> Gate
        ensures { result ≡ gate self.now operand.now };
}

/// A number that never changes.
pub struct Constant;

/// All of so many bits turned.
#[derive(Drop)]
pub struct Not {
    /// How many.
    pub width: u32,
}

/// The bits that both have.
pub struct And;

/// The bits that either has.
pub struct Or;

/// The bits that one of both has.
pub struct Xor;

/// The second where the first is 1, else the third.
pub struct Mux;

/// The sum in so many bits.
#[derive(Drop)]
pub struct Add {
    /// How many.
    pub width: u32,
}

/// The difference in so many bits.
#[derive(Drop)]
pub struct Sub {
    /// How many.
    pub width: u32,
}

/// 1 where both are equal, else 0.
pub struct Equal;

/// 1 where the first is below the second, else 0.
pub struct Less;

/// The second where the first is 1, else 0.
pub struct Pass;

impl Operation for Constant {
    type Operand = u64;

    ghost width = { λ _. 0 };

    ghost gate = { λ _ k. gates.Const k };

    fn value<W: Word>(&self, constant: &u64, _values: &[W]) -> W {
        W::of(*constant)
    }

    fn gate_of(&self, constant: &u64) -> Gate {
        Gate::Const(*constant)
    }
}

impl Operation for Not {
    type Operand = NetId;

    ghost width = { λ not. not.width };

    ghost gate = { λ _ a. gates.Not a };

    fn value<W: Word>(&self, pin: &NetId, values: &[W]) -> W {
        value_at(values, *pin).turned(self.width)
    }

    fn gate_of(&self, pin: &NetId) -> Gate {
        Gate::Not(*pin)
    }
}

impl Operation for And {
    type Operand = Pair;

    ghost width = { λ _. 0 };

    ghost gate = { λ _ p. gates.And p.a p.b };

    fn value<W: Word>(&self, pair: &Pair, values: &[W]) -> W {
        value_at(values, pair.a).and(value_at(values, pair.b))
    }

    fn gate_of(&self, pair: &Pair) -> Gate {
        Gate::And(pair.a, pair.b)
    }
}

impl Operation for Or {
    type Operand = Pair;

    ghost width = { λ _. 0 };

    ghost gate = { λ _ p. gates.Or p.a p.b };

    fn value<W: Word>(&self, pair: &Pair, values: &[W]) -> W {
        value_at(values, pair.a).or(value_at(values, pair.b))
    }

    fn gate_of(&self, pair: &Pair) -> Gate {
        Gate::Or(pair.a, pair.b)
    }
}

impl Operation for Xor {
    type Operand = Pair;

    ghost width = { λ _. 0 };

    ghost gate = { λ _ p. gates.Xor p.a p.b };

    fn value<W: Word>(&self, pair: &Pair, values: &[W]) -> W {
        value_at(values, pair.a).xor(value_at(values, pair.b))
    }

    fn gate_of(&self, pair: &Pair) -> Gate {
        Gate::Xor(pair.a, pair.b)
    }
}

impl Operation for Mux {
    type Operand = Triple;

    ghost width = { λ _. 0 };

    ghost gate = { λ _ t. gates.Mux t.s t.a t.b };

    fn value<W: Word>(&self, triple: &Triple, values: &[W]) -> W {
        let (a, b) = (value_at(values, triple.a), value_at(values, triple.b));
        chosen(value_at(values, triple.s), a, b)
    }

    fn gate_of(&self, triple: &Triple) -> Gate {
        Gate::Mux(triple.s, triple.a, triple.b)
    }
}

impl Operation for Add {
    type Operand = Pair;

    ghost width = { λ add. add.width };

    ghost gate = { λ _ p. gates.Add p.a p.b };

    fn value<W: Word>(&self, pair: &Pair, values: &[W]) -> W {
        value_at(values, pair.a).sum(self.width, value_at(values, pair.b))
    }

    fn gate_of(&self, pair: &Pair) -> Gate {
        Gate::Add(pair.a, pair.b)
    }
}

impl Operation for Sub {
    type Operand = Pair;

    ghost width = { λ sub. sub.width };

    ghost gate = { λ _ p. gates.Sub p.a p.b };

    fn value<W: Word>(&self, pair: &Pair, values: &[W]) -> W {
        value_at(values, pair.a).difference(self.width, value_at(values, pair.b))
    }

    fn gate_of(&self, pair: &Pair) -> Gate {
        Gate::Sub(pair.a, pair.b)
    }
}

impl Operation for Equal {
    type Operand = Pair;

    ghost width = { λ _. 0 };

    ghost gate = { λ _ p. gates.Eq p.a p.b };

    fn value<W: Word>(&self, pair: &Pair, values: &[W]) -> W {
        W::of_bit(value_at(values, pair.a).is(value_at(values, pair.b)))
    }

    fn gate_of(&self, pair: &Pair) -> Gate {
        Gate::Eq(pair.a, pair.b)
    }
}

impl Operation for Less {
    type Operand = Pair;

    ghost width = { λ _. 0 };

    ghost gate = { λ _ p. gates.Less p.a p.b };

    fn value<W: Word>(&self, pair: &Pair, values: &[W]) -> W {
        W::of_bit(value_at(values, pair.a).is_below(value_at(values, pair.b)))
    }

    fn gate_of(&self, pair: &Pair) -> Gate {
        Gate::Less(pair.a, pair.b)
    }
}

impl Operation for Pass {
    type Operand = Pair;

    ghost width = { λ _. 0 };

    ghost gate = { λ _ p. gates.Gate p.a p.b };

    fn value<W: Word>(&self, pair: &Pair, values: &[W]) -> W {
        chosen(
            value_at(values, pair.a),
            value_at(values, pair.b),
            W::of_bit(false),
        )
    }

    fn gate_of(&self, pair: &Pair) -> Gate {
        Gate::Gate(pair.a, pair.b)
    }
}

// The value of a net.
fn value_at<W: Word>(values: &[W], net: NetId) -> W
    requires { net.0 < length values.now }
    ensures { W.number result ≡ at (map W.number values.now) net.0 }
{
    values[net.0 as usize]
}

// The first value where the selector is 1, else the second.
fn chosen<W: Word>(selector: W, a: W, b: W) -> W
    ensures { W.number result ≡ (if nat_eq (W.number selector) 1 then W.number a else W.number b) }
{
    if selector.is(W::of_bit(true)) { a } else { b }
}
