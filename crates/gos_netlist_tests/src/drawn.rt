// Netlists that are drawn from seeds.
ghost use Rattle.std.specs.Prelude.{◌≤◌, ◌<◌, ◌^◌, IfSome, length};

use crate::samples::{bit, port};
use gos_lex::LexFault;
use gos_netlist::{Cell, Gate, Ground, NetId, Netlist, Port, Side};
use std::alloc::{AllocError, Global};

// How many nets come before those that are drawn: nets of a bit at even places, and of four bits at odd ones.
const GIVEN: u32 = 4;

/// Numbers that seem random.
#[derive(Drop)]
pub struct Draw {
    state: u64,
}

impl Draw {
    /// The numbers of a seed.
    pub fn new(seed: u64) -> Draw {
        Draw { state: seed }
    }

    /// The next number.
    pub fn number(&mut self) -> u32 {
        self.state = self
            .state
            .wrapping_mul(6364136223846793005)
            .wrapping_add(1442695040888963407);
        (self.state / 4294967296 % 65536) as u32
    }

    // A net of a bit before this one.
    fn bit(&mut self, net: u32) -> NetId
        requires { 2 ≤ net }
    {
        NetId(self.number() % (net / 2) * 2)
    }

    // A net of four bits before this one.
    fn word(&mut self, net: u32) -> NetId
        requires { 2 ≤ net }
    {
        NetId(self.number() % (net / 2) * 2 + 1)
    }
}

// A gate of a bit.
fn bit_gate(draw: &mut Draw, net: u32) -> Gate
    requires { 4 ≤ net }
{
    match draw.number() % 7 {
        0 => Gate::Eq(draw.word(net), draw.word(net)),
        1 => Gate::Less(draw.word(net), draw.word(net)),
        2 => Gate::And(draw.bit(net), draw.bit(net)),
        3 => Gate::Or(draw.bit(net), draw.bit(net)),
        4 => Gate::Xor(draw.bit(net), draw.bit(net)),
        5 => Gate::Not(draw.bit(net)),
        _ => Gate::Reg(draw.bit(net)),
    }
}

// A gate of four bits.
fn word_gate(draw: &mut Draw, net: u32) -> Gate
    requires { 4 ≤ net }
{
    match draw.number() % 8 {
        0 => Gate::Add(draw.word(net), draw.word(net)),
        1 => Gate::Sub(draw.word(net), draw.word(net)),
        2 => Gate::Xor(draw.word(net), draw.word(net)),
        3 => Gate::Mux(draw.bit(net), draw.word(net), draw.word(net)),
        4 => Gate::Gate(draw.bit(net), draw.word(net)),
        5 => Gate::Not(draw.word(net)),
        6 => Gate::Or(draw.word(net), draw.word(net)),
        _ => Gate::Reg(draw.word(net)),
    }
}

// A cell of four bits.
fn word(gate: Gate) -> Cell {
    Cell { width: 4, gate }
}

// The cells that are given, so many drawn pairs of a bit and a word, and two registers that hold the last pair. Each drawn
// cell stands behind those that it reads.
fn drawn_cells(alloc: Global, seed: u64, pairs: u32) -> Result<Vec<Cell>, AllocError>
    requires { pairs ≤ 1000 }
{
    let mut draw = Draw::new(seed);
    let mut cells = vec![in alloc;
        bit(Gate::Input),
        word(Gate::Const(5)),
        bit(Gate::Const(1)),
        word(Gate::Const(11)),
    ]?;
    for pair in 0..pairs {
        let net = GIVEN + 2 * pair;
        let drawn = [
            bit(bit_gate(&mut draw, net)),
            word(word_gate(&mut draw, net)),
        ];
        cells.extend_from_slice(&drawn)?;
    }
    let end = GIVEN + 2 * pairs;
    let last = [
        bit(Gate::Reg(NetId(end - 2))),
        word(Gate::Reg(NetId(end - 1))),
    ];
    cells.extend_from_slice(&last)?;
    Ok(cells)
}

// The port of an expression, whose answer and value are the last two nets.
fn main_port(alloc: Global, pairs: u32) -> Result<Port, LexFault>
    requires { pairs ≤ 1000 }
{
    let end = GIVEN + 2 * pairs;
    let nets = [NetId(0), NetId(end), NetId(end + 1)];
    port(alloc, b"main", Side::Give, Ground::Exp(4), &nets)
}

/// A netlist of so many drawn pairs of a bit and a word.
pub fn drawn(alloc: Global, seed: u64, pairs: u32) -> Result<Netlist, LexFault>
    requires { pairs ≤ 1000 }
{
    let cells = drawn_cells(alloc, seed, pairs)?;
    let ports = vec![in alloc; main_port(alloc, pairs)?]?;
    Ok(Netlist { cells, ports })
}

/// The netlist, where it is a small one.
pub fn small(net: Netlist) -> Option<Netlist>
    ensures { IfSome result (λ net. length net.cells < 2 ^ 32) }
{
    if net.cells.len() < 10000 {
        Some(net)
    } else {
        None
    }
}
