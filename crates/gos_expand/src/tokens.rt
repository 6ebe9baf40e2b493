// The nets and the cells of a token: a pulse, and a number behind it where it has bits.
ghost use Rattle.std.specs.Prelude.{◌≡◌, ◌<◌, ◌≤◌, Some};
ghost use Rattle.gos_netlist.specs.Seen.{function_of};
ghost use Rattle.gos_expand.specs.Blocks.{nets_from, token_size, token_cells, inputs, registers, nothing};
ghost use Rattle.gos_expand.specs.inner.Tokens.{held_nets, Places};

use gos_macro::cells::{bit, wide};
use gos_netlist::{Gate, NetId};
use gos_pool::{NetPool, Region};

// The nets of a token: of its pulse, and of its number, or 0 where it has none.
#[derive(Debug, Clone, Copy)]
pub(crate) struct Nets {
    pub pulse: NetId,
    pub number: NetId,
}

// How many cells a token of so many bits has.
pub(crate) fn token_size(bits: u32) -> u32
    ensures is { result ≡ token_size bits }
    ensures few { result ≤ 2 }
{
    if bits == 0 { 1 } else { 2 }
}

// The nets of a token of so many bits whose cells begin here.
pub(crate) fn nets_from(bits: u32, start: u32) -> Nets
    requires { start < 4294967295 }
    ensures { held_nets result ≡ nets_from bits start }
{
    let number = if bits == 0 { 0 } else { start + 1 };
    Nets {
        pulse: NetId(start),
        number: NetId(number),
    }
}

// Places the cells of a token: these gates of its pulse and of its number.
fn place_token(pool: &mut NetPool, region: &mut Region, bits: u32, pulse: Gate, number: Gate)
    requires begun { pool.old.begun ≡ Some region.old }
    requires spare { token_size bits ≤ pool.old.spare }
    ensures placed { Places pool.old pool.new (token_cells bits (function_of pulse) (function_of number)) 0 }
    ensures region { region.new ≡ region.old }
{
    pool.place(region, bit(pulse));
    if bits > 0 {
        pool.place(region, wide(bits, number));
    }
}

// Places a token that the outside gives.
pub(crate) fn place_inputs(pool: &mut NetPool, region: &mut Region, bits: u32)
    requires begun { pool.old.begun ≡ Some region.old }
    requires spare { token_size bits ≤ pool.old.spare }
    ensures placed { Places pool.old pool.new (inputs bits) 0 }
    ensures region { region.new ≡ region.old }
{
    place_token(pool, region, bits, Gate::Input, Gate::Input);
}

// Places a token that is held for a cycle.
pub(crate) fn place_registers(pool: &mut NetPool, region: &mut Region, bits: u32, nets: Nets)
    requires begun { pool.old.begun ≡ Some region.old }
    requires spare { token_size bits ≤ pool.old.spare }
    ensures placed { Places pool.old pool.new (registers bits (held_nets nets)) 0 }
    ensures region { region.new ≡ region.old }
{
    place_token(
        pool,
        region,
        bits,
        Gate::Reg(nets.pulse),
        Gate::Reg(nets.number),
    );
}

// Places a token that never comes.
pub(crate) fn place_nothing(pool: &mut NetPool, region: &mut Region, bits: u32)
    requires begun { pool.old.begun ≡ Some region.old }
    requires spare { token_size bits ≤ pool.old.spare }
    ensures placed { Places pool.old pool.new (nothing bits) 0 }
    ensures region { region.new ≡ region.old }
{
    place_token(pool, region, bits, Gate::Const(0), Gate::Const(0));
}
