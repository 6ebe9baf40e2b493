// Small circuits, and the parts that they are made of, which tests of several crates share.
ghost use Rattle.std.specs.Prelude.{◌≡◌, ◌≤◌, All, IfOk, length};
ghost use Rattle.gos_lex.specs.Names.{IsNameOrWord};

use gos_lex::{LexFault, Name};
use gos_netlist::{Cell, Gate, Ground, NetId, Netlist, Port, Side};
use std::alloc::Global;

/// A cell of one bit.
pub fn bit(gate: Gate) -> Cell
    ensures { result.width ≡ 1 }
{
    Cell { width: 1, gate }
}

/// A port of this name with these nets.
pub fn port(
    alloc: Global,
    name: &[u8],
    side: Side,
    ground: Ground,
    nets: &[NetId],
) -> Result<Port, LexFault>
    requires { IsNameOrWord name.now }
{
    Ok(Port {
        name: Name::new(alloc, name)?,
        side,
        ground,
        nets: nets.to_vec(alloc)?,
    })
}

/// The port of a command named `main`, which is given.
pub fn main_port(alloc: Global, run: u32, done: u32) -> Result<Port, LexFault> {
    port(
        alloc,
        b"main",
        Side::Give,
        Ground::Com,
        &[NetId(run), NetId(done)],
    )
}

/// The latch: it shows `done` in each cycle after `run`.
pub fn latch(alloc: Global) -> Result<Netlist, LexFault>
    ensures cells { IfOk result (λ net. length net.cells ≡ 4) }
    ensures narrow { IfOk result (λ net. All (λ c. c.width ≤ 64) net.cells) }
{
    let ports = vec![in alloc; main_port(alloc, 0, 3)?]?;
    let cells = vec![in alloc;
        bit(Gate::Input),
        bit(Gate::Or(NetId(0), NetId(2))),
        bit(Gate::Reg(NetId(1))),
        bit(Gate::Reg(NetId(1))),
    ]?;
    Ok(Netlist { cells, ports })
}
