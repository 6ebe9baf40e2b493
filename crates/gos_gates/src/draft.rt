// A draft of a circuit: its gates so far, and the literals of the nets that are laid.
ghost use Rattle.std.specs.Prelude.{◌≡◌, ◌+◌, ◌*◌, ◌^◌, ◌<◌, ◌≤◌, ◌++◌, ◌∷◌, [], length, set, replicate, OnOk, IfOk};
ghost use Rattle.gos_gates.specs.Lowered.{complement, gate_of, literals_from};
ghost use Rattle.gos_gates.specs.inner.Layout.{plain, turned, neither_gates, differ_gates, add_gates, less_gates, bit_gates, bit_literal, bit_carry, chain_gates, chain_literals, chain_carry};
ghost use Rattle.gos_gates.specs.inner.Layout as layout;
ghost use Rattle.gos_gates.specs.inner.Laying.{literals_of, next_variable, with_net};
ghost use Rattle.gos_gates.specs.inner.Laying as laying;

use crate::kinds::Kind;
use gos_types::NoMemory;
use std::alloc::Global;
use std::marker::Model;

// Where the literals of a net stand among all literals.
#[derive(Debug, Clone, Copy)]
struct Place {
    from: usize,
    to: usize,
}

// The gates so far, and the literals of the nets that are laid. A net that isn't has none.
#[derive(Drop)]
pub struct Draft {
    base: u32,
    gates: Vec<(u32, u32)>,
    literals: Vec<u32>,
    places: Vec<Place>,
}

impl Model for Draft {
    ghost use Rattle.std.specs.Prelude.{◌≤◌, All, length, map, slice_range};
    ghost use Rattle.gos_gates.specs.inner.Laying.{Laid};

    ghost Value = { Laid };

    ghost view = { λ d. record { base = d.base; gates = d.gates.items; nets = map (λ p. slice_range d.literals.items p.from p.to) d.places.items } };

    ghost invariant = { λ d. All (λ p. (p.from ≤ p.to) × (p.to ≤ length d.literals.items)) d.places.items };
}

// What a bit shows, and what it hands on, as literals.
#[derive(Debug, Clone, Copy)]
pub struct Turn {
    pub literal: u32,
    pub carry: u32,
}

// The literal of the other value of the same variable.
pub fn complement(literal: u32) -> u32
    ensures { result ≡ complement literal }
{
    if literal % 2 == 1 {
        literal - 1
    } else {
        literal + 1
    }
}

// The complement of a variable.
fn turned(variable: u32) -> u32
    requires { variable < 2 ^ 31 }
    ensures { result ≡ turned variable }
{
    2 * variable + 1
}

impl Draft {
    // A draft for so many nets, with no variable but 0.
    #[tactic(auto, using(crate::proofs::DraftLemmas::map_same))]
    pub fn new(alloc: Global, count: usize) -> Result<Draft, NoMemory>
        ensures { IfOk result (λ draft. draft ≡ record { base = 1; gates = []; nets = replicate count [] }) }
    {
        let mut places = Vec::new(alloc);
        for _ in 0..count {
            places.push(Place { from: 0, to: 0 })?;
        }
        Ok(Draft {
            base: 1,
            gates: Vec::new(alloc),
            literals: Vec::new(alloc),
            places,
        })
    }

    // How many nets it has.
    pub fn count(&self) -> usize
        ensures { result ≡ length self.now.nets }
    {
        self.places.len()
    }

    // How many variables there are before the gates.
    pub fn base(&self) -> u32
        ensures { result ≡ self.now.base }
    {
        self.base
    }

    // The gates, taken out.
    pub fn into_gates(self) -> Vec<(u32, u32)>
        ensures { result.items ≡ self.gates }
    {
        self.gates
    }

    // The literals of a net, the least bit first.
    pub fn literals_of(&self, net: usize) -> &[u32]
        requires { net < length self.now.nets }
        ensures { result.now ≡ literals_of self.now net }
    {
        let place = self.places[net];
        &self.literals[place.from..place.to]
    }

    // The variable of the next gate.
    pub fn next(&self) -> u32
        requires { next_variable self.now < 2 ^ 32 }
        ensures { result ≡ next_variable self.now }
    {
        self.base + self.gates.len() as u32
    }

    // Gives a net these literals.
    pub fn put(&mut self, net: usize, literals: &[u32]) -> Result<(), NoMemory>
        requires { net < length self.old.nets }
        ensures { OnOk result (self.new ≡ with_net self.old net literals.now) }
    {
        let from = self.literals.len();
        self.literals.extend_from_slice(literals)?;
        let to = self.literals.len();
        self.places[net] = Place { from, to };
        Ok(())
    }

    // Gives a net a variable for each of its bits.
    #[tactic(auto, using(crate::proofs::DraftLemmas::literals_more))]
    pub fn give(&mut self, net: usize, width: u32, bits: &mut Vec<u32>) -> Result<(), NoMemory>
        requires net { net < length self.old.nets }
        requires room { self.old.base + width < 2 ^ 31 }
        ensures { OnOk result (self.new ≡ record self.old { base = self.old.base + width; nets = set self.old.nets net (literals_from self.old.base width) }) }
    {
        bits.clear();
        for i in 0..width {
            bits.push(2 * (self.base + i))?;
        }
        self.put(net, bits.as_slice())?;
        self.base += width;
        Ok(())
    }

    // A gate over two literals, and its literal.
    fn gate(&mut self, a: u32, b: u32) -> Result<u32, NoMemory>
        requires { next_variable self.old < 2 ^ 31 }
        ensures draft { OnOk result (self.new ≡ record self.old { gates = self.old.gates ++ gate_of a b ∷ [] }) }
        ensures literal { IfOk result (λ l. l ≡ plain (next_variable self.old)) }
    {
        let variable = self.next();
        self.gates.push((a.max(b), a.min(b)))?;
        Ok(2 * variable)
    }

    // A gate that is 1 where neither of two gates is, and its literal.
    fn neither(&mut self, p: u32, q: u32, r: u32, s: u32) -> Result<u32, NoMemory>
        requires { next_variable self.old + 3 ≤ 2 ^ 31 }
        ensures draft { OnOk result (self.new ≡ record self.old { gates = self.old.gates ++ neither_gates (next_variable self.old) p q r s }) }
        ensures literal { IfOk result (λ l. l ≡ plain (next_variable self.old + 2)) }
    {
        let first = self.gate(p, q)?;
        let second = self.gate(r, s)?;
        self.gate(first + 1, second + 1)
    }

    // A gate that is 1 where two literals differ, and its literal.
    fn differ(&mut self, a: u32, b: u32) -> Result<u32, NoMemory>
        requires { next_variable self.old + 3 ≤ 2 ^ 31 }
        ensures draft { OnOk result (self.new ≡ record self.old { gates = self.old.gates ++ differ_gates (next_variable self.old) a b }) }
        ensures literal { IfOk result (λ l. l ≡ plain (next_variable self.old + 2)) }
    {
        self.neither(a, b, complement(a), complement(b))
    }

    // A full adder.
    fn add(&mut self, carry: u32, a: u32, b: u32) -> Result<Turn, NoMemory>
        requires { next_variable self.old + 7 ≤ 2 ^ 31 }
        ensures draft { OnOk result (self.new ≡ record self.old { gates = self.old.gates ++ add_gates (next_variable self.old) carry a b }) }
        ensures literal { IfOk result (λ t. t.literal ≡ plain (next_variable self.old + 5)) }
        ensures carry { IfOk result (λ t. t.carry ≡ turned (next_variable self.old + 6)) }
    {
        let first = self.next();
        let half = self.differ(a, b)?;
        let second = self.next();
        let literal = self.differ(half, carry)?;
        let kept = self.gate(turned(first), turned(second))?;
        Ok(Turn {
            literal,
            carry: kept + 1,
        })
    }

    // Whether all bits so far are equal.
    fn equal(&mut self, carry: u32, a: u32, b: u32) -> Result<u32, NoMemory>
        requires { next_variable self.old + 4 ≤ 2 ^ 31 }
        ensures draft { OnOk result (self.new ≡
            record self.old {
              gates = self.old.gates ++ (differ_gates (next_variable self.old) a b ++
                  gate_of carry (turned (next_variable self.old + 2)) ∷ []);
            }) }
        ensures literal { IfOk result (λ l. l ≡ plain (next_variable self.old + 3)) }
    {
        let differs = self.differ(a, b)?;
        self.gate(carry, differs + 1)
    }

    // Whether the first number is less so far.
    fn less(&mut self, carry: u32, a: u32, b: u32) -> Result<u32, NoMemory>
        requires { next_variable self.old + 4 ≤ 2 ^ 31 }
        ensures draft { OnOk result (self.new ≡ record self.old { gates = self.old.gates ++ less_gates (next_variable self.old) carry a b }) }
        ensures literal { IfOk result (λ l. l ≡ turned (next_variable self.old + 3)) }
    {
        let below = self.gate(complement(a), b)?;
        let above = self.gate(a, complement(b))?;
        let stays = self.gate(above + 1, carry)?;
        let neither = self.gate(below + 1, stays + 1)?;
        Ok(neither + 1)
    }

    // A bit of a cell, from the bits of its pins and from what the bits before it hand on.
    pub fn bit(&mut self, kind: Kind, carry: u32, a: u32, b: u32) -> Result<Turn, NoMemory>
        requires { next_variable self.old + 7 ≤ 2 ^ 31 }
        ensures draft { OnOk result (self.new ≡ record self.old { gates = self.old.gates ++ bit_gates kind (next_variable self.old) carry a b }) }
        ensures literal { IfOk result (λ t. t.literal ≡ bit_literal kind (next_variable self.old)) }
        ensures carry { IfOk result (λ t. t.carry ≡ bit_carry kind (next_variable self.old) carry) }
    {
        let literal = match kind {
            Kind::And => self.gate(a, b)?,
            Kind::Or => self.gate(complement(a), complement(b))? + 1,
            Kind::Gate => self.gate(carry, a)?,
            Kind::Xor => self.differ(a, b)?,
            Kind::Mux => self.neither(carry, a, complement(carry), b)? + 1,
            Kind::Add => return self.add(carry, a, b),
            Kind::Sub => return self.add(carry, a, complement(b)),
            Kind::Eq => {
                let literal = self.equal(carry, a, b)?;
                return Ok(Turn {
                    literal,
                    carry: literal,
                });
            }
            Kind::Less => {
                let literal = self.less(carry, a, b)?;
                return Ok(Turn {
                    literal,
                    carry: literal,
                });
            }
        };
        Ok(Turn { literal, carry })
    }

    // The gates of a cell over two nets, bit by bit. Their literals go behind the others, and what the last bit hands on is
    // answered.
    pub fn chain(
        &mut self,
        kind: Kind,
        first: u32,
        a: usize,
        b: usize,
        bits: &mut Vec<u32>,
    ) -> Result<u32, NoMemory>
        requires a { a < length self.old.nets }
        requires b { b < length self.old.nets }
        requires room { next_variable self.old + 7 * length (literals_of self.old a) < 2 ^ 31 }
        ensures draft { OnOk result (self.new ≡
            record self.old { gates = self.old.gates ++ chain_gates kind (next_variable self.old) first (literals_of self.old a) (literals_of self.old b) }) }
        ensures bits { OnOk result (bits.new.items ≡
            bits.old.items ++ chain_literals kind (next_variable self.old) (literals_of self.old a) (literals_of self.old b)) }
        ensures carry { IfOk result (λ l. l ≡ chain_carry kind (next_variable self.old) first (literals_of self.old a) (literals_of self.old b)) }
    {
        let count = self.literals_of(a).len().min(self.literals_of(b).len());
        let mut carry = first;
        for i in 0..count {
            let one = self.literals_of(a)[i];
            let other = self.literals_of(b)[i];
            let turn = self.bit(kind, carry, one, other)?;
            bits.push(turn.literal)?;
            carry = turn.carry;
        }
        Ok(carry)
    }
}
