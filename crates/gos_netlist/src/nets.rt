// Netlists as values.
ghost use Rattle.std.specs.Prelude.{◌≡◌, ◌≤◌, ℕ, map};
ghost use Rattle.gos_netlist.specs.Nets.{pins};
ghost use Rattle.gos_netlist.specs.Events.{net_count};
ghost use Rattle.gos_netlist.specs.Seen.{function_of, ground_type, number_of};
ghost use Rattle.gos_netlist.specs.Renamed.{renamed, TakesNets, GivesNets};

use gos_lex::Name;
use smallvec::SmallVec;
use std::alloc::Global;
use std::marker::Model;

/// A net: the index of the cell that drives it.
#[derive(Debug, Clone, Copy, Default)]
pub struct NetId(pub u32);

/// What a cell shows, from the nets that it names.
#[derive(Debug, Clone, Copy)]
pub enum Gate {
    /// The cell's input.
    Input,
    /// A number that never changes.
    Const(u64),
    /// All bits turned.
    Not(NetId),
    /// The bits that both have.
    And(NetId, NetId),
    /// The bits that either has.
    Or(NetId, NetId),
    /// The bits that one of both has.
    Xor(NetId, NetId),
    /// The second where the first is 1, else the third.
    Mux(NetId, NetId, NetId),
    /// The sum, without its carry.
    Add(NetId, NetId),
    /// The difference, without its borrow.
    Sub(NetId, NetId),
    /// 1 where both are equal, else 0.
    Eq(NetId, NetId),
    /// 1 where the first is below the second, else 0.
    Less(NetId, NetId),
    /// The second where the first is 1, else 0.
    Gate(NetId, NetId),
    /// What the net was in the cycle before; 0 in the first one.
    Reg(NetId),
}

impl Gate {
    /// The gate with other nets in the place of those that it names: for each the net that `other` gives for it, which
    /// is called with no net but these.
    pub fn renamed<F: Fn(NetId) -> NetId>(self, other: F) -> Gate
        requires { TakesNets (F.pre other) (pins (function_of self)) }
        ensures { (f : ℕ → ℕ) → GivesNets (F.post other) f (pins (function_of self)) → function_of result ≡ renamed f (function_of self) }
    {
        match self {
            Gate::Input => Gate::Input,
            Gate::Const(k) => Gate::Const(k),
            Gate::Not(a) => Gate::Not(other(a)),
            Gate::And(a, b) => Gate::And(other(a), other(b)),
            Gate::Or(a, b) => Gate::Or(other(a), other(b)),
            Gate::Xor(a, b) => Gate::Xor(other(a), other(b)),
            Gate::Mux(s, a, b) => Gate::Mux(other(s), other(a), other(b)),
            Gate::Add(a, b) => Gate::Add(other(a), other(b)),
            Gate::Sub(a, b) => Gate::Sub(other(a), other(b)),
            Gate::Eq(a, b) => Gate::Eq(other(a), other(b)),
            Gate::Less(a, b) => Gate::Less(other(a), other(b)),
            Gate::Gate(s, a) => Gate::Gate(other(s), other(a)),
            Gate::Reg(a) => Gate::Reg(other(a)),
        }
    }
}

/// A cell.
#[derive(Debug, Clone, Copy)]
pub struct Cell {
    /// The bits of the net that it drives: 1 to the greatest width.
    pub width: u32,
    /// What it shows there.
    pub gate: Gate,
}

/// The nets that a cell names: three at most.
pub type Pins = SmallVec<NetId, 3>;

impl Cell {
    /// The nets that the cell names, in written order. It takes no memory.
    pub fn pins(&self, alloc: Global) -> Pins
        ensures { map number_of result.items ≡ pins (function_of self.now.gate) }
    {
        let mut pins = SmallVec::new(alloc);
        match self.gate {
            Gate::Input | Gate::Const(_) => {}
            Gate::Not(a) | Gate::Reg(a) => pins.push_reserved(a),
            Gate::And(a, b)
            | Gate::Or(a, b)
            | Gate::Xor(a, b)
            | Gate::Add(a, b)
            | Gate::Sub(a, b)
            | Gate::Eq(a, b)
            | Gate::Less(a, b)
            | Gate::Gate(a, b) => {
                pins.push_reserved(a);
                pins.push_reserved(b);
            }
            Gate::Mux(s, a, b) => {
                pins.push_reserved(s);
                pins.push_reserved(a);
                pins.push_reserved(b);
            }
        }
        pins
    }
}

/// Whether the circuit gives a port or takes it.
#[derive(Debug, Clone, Copy)]
pub enum Side {
    /// The outside asks and the circuit answers.
    Give,
    /// The circuit asks and the outside answers.
    Take,
}

/// The type of a port.
#[derive(Debug, Clone, Copy)]
pub enum Ground {
    /// A command, with the nets run and done.
    Com,
    /// An expression of so many bits, with the nets ask, ans and its value.
    Exp(u32),
    /// A variable of so many bits, with the nets read, ans and its value, write and its value, done.
    Var(u32),
}

impl Ground {
    /// How many nets a port of this type has: 2, 3 or 6.
    pub fn net_count(&self) -> usize
        ensures count { result ≡ net_count (ground_type self.now) }
        ensures few { result ≤ 6 }
    {
        match self {
            Ground::Com => 2,
            Ground::Exp(_) => 3,
            Ground::Var(_) => 6,
        }
    }
}

/// A port.
#[derive(Debug, Drop)]
pub struct Port {
    /// Its name, where words are names too.
    pub name: Name,
    /// Who asks at it.
    pub side: Side,
    /// What it carries.
    pub ground: Ground,
    /// Its nets, in the order of its type.
    pub nets: Vec<NetId>,
}

/// A circuit.
#[derive(Debug, Drop)]
pub struct Netlist {
    /// Its cells; a cell's place is its net.
    pub cells: Vec<Cell>,
    /// Its ports.
    pub ports: Vec<Port>,
}

impl Model for Port {
    ghost use Rattle.std.specs.Prelude.{map};
    ghost use Rattle.std.specs.Coded.{codes};
    ghost use Rattle.gos_types.specs.inner.TypeCode.{type_code};
    ghost use Rattle.gos_netlist.specs.Nets.{NetPort};

    ghost Value = { NetPort };

    ghost coded = { Prim.hlevel (codes, type_code) };

    ghost use Rattle.gos_netlist.specs.Seen.{number_of, side_of, ground_type};

    ghost view = { λ p. record { name = p.name; side = side_of p.side; ty = ground_type p.ground; nets = map number_of p.nets.items } };
}

impl Model for Netlist {
    ghost use Rattle.std.specs.Prelude.{map};
    ghost use Rattle.std.specs.Coded.{codes};
    ghost use Rattle.gos_types.specs.inner.TypeCode.{type_code};
    ghost use Rattle.gos_netlist.specs.Nets.{Netlist as Circuit};

    ghost Value = { Circuit };

    ghost coded = { Prim.hlevel (codes, type_code) };

    ghost use Rattle.gos_netlist.specs.Seen.{cell_of};

    ghost view = { λ n. record { cells = map cell_of n.cells.items; ports = n.ports.items } };
}
