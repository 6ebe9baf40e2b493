// A part alone in a netlist: its cells, and what goes out of them cycle by cycle, by the slow program of gos_netlist.
//
// In a trial the part stands behind twelve inputs: nets 2 h and 2 h + 1 are the pulse and the number that come in at its
// handshake h. A number has the bits that the part takes at the handshake, and 1 bit where it takes none.
ghost use Rattle.std.specs.Prelude.{◌≡◌, ◌≤◌, All, IfOk, IsTrue, length};
ghost use Rattle.gos_plan.specs.Kinds.{part_contacts};

use gos_macro::cells::{bit, wide};
use gos_macro::{Macro, Wire};
use gos_netlist::{Cell, Gate, NetId, Netlist, SettleFault, print_net, settle};
use gos_pool::NetPool;
use gos_types::NoMemory;
use std::alloc::{AllocError, Global};
use std::test::Fail;

/// Nothing at a handshake.
pub const NO: Option<u64> = None;

/// A pulse without a number.
pub const PULSE: Option<u64> = Some(0);

/// Nothing at any handshake.
pub const QUIET: [Option<u64>; 6] = [None, None, None, None, None, None];

/// A cycle: what comes in at each of up to six handshakes, and what has to go out.
pub type Cycle = ([Option<u64>; 6], [Option<u64>; 6]);

/// A cycle of a part with up to four handshakes.
pub type ShortCycle = ([Option<u64>; 4], [Option<u64>; 4]);

// The wire of a handshake in a trial. As long as no number goes out at it, there is no net for one.
fn wire(handshake: u32) -> Wire
    requires { handshake ≤ 5 }
{
    Wire {
        in_pulse: NetId(2 * handshake),
        in_value: NetId(2 * handshake + 1),
        out_pulse: NetId(u32::MAX),
        out_value: NetId(u32::MAX),
    }
}

// The wires of so many handshakes in a trial.
fn wires_of(alloc: Global, handshakes: u32) -> Result<Vec<Wire>, AllocError>
    requires { handshakes ≤ 6 }
    ensures { IfOk result (λ wires. length wires.items ≡ handshakes) }
{
    let mut wires = Vec::new(alloc);
    for handshake in 0..handshakes {
        wires.push(wire(handshake))?;
    }
    Ok(wires)
}

// The wires of handshakes at which these nets come in, of a pulse and of a number each.
fn wires_from(alloc: Global, nets: &[(u32, u32)]) -> Result<Vec<Wire>, AllocError>
    ensures { IfOk result (λ wires. length wires.items ≡ length nets.now) }
{
    let mut wires = Vec::new(alloc);
    for handshake in 0..nets.len() {
        let (pulse, value) = nets[handshake];
        wires.push(Wire {
            in_pulse: NetId(pulse),
            in_value: NetId(value),
            out_pulse: NetId(0),
            out_value: NetId(0),
        })?;
    }
    Ok(wires)
}

/// A part that was placed alone.
#[derive(Drop)]
pub struct Placed {
    /// Its cells.
    pub cells: Vec<Cell>,
    /// The wires of its handshakes.
    pub wires: Vec<Wire>,
}

impl Placed {
    /// The net of the pulse that goes out at a handshake, or the last net there can be.
    pub fn pulse_at(&self, handshake: usize) -> u32 {
        match self.wires.get(handshake) {
            Some(wire) => wire.out_pulse.0,
            None => u32::MAX,
        }
    }

    /// The net of the number that goes out at a handshake, or the last net there can be.
    pub fn number_at(&self, handshake: usize) -> u32 {
        match self.wires.get(handshake) {
            Some(wire) => wire.out_value.0,
            None => u32::MAX,
        }
    }

    /// Whether these are the nets of the pulse and of the number that go out at a handshake.
    pub fn shows(&self, handshake: usize, pulse: u32, number: u32) -> bool {
        self.pulse_at(handshake) == pulse && self.number_at(handshake) == number
    }

    /// How many of the cells are registers.
    pub fn registers(&self) -> usize {
        self.cells
            .iter()
            .filter(|cell| matches!(cell.gate, Gate::Reg(_)))
            .count()
    }
}

/// The cells of a part alone in a pool with room for exactly these and one region, where these nets come in.
pub fn place_alone<M: Macro>(
    alloc: Global,
    part: &M,
    nets: &[(u32, u32)],
) -> Result<Placed, NoMemory>
    requires wires { length nets.now ≡ length (part_contacts (M.part part.now)) }
    requires few { length nets.now ≤ 6 }
{
    let mut wires = wires_from(alloc, nets)?;
    let cells = cells_of(alloc, part, &mut wires)?;
    Ok(Placed { cells, wires })
}

/// The text of a netlist of these cells alone, the first of which has net 0.
pub fn text_alone<M: Macro>(
    alloc: Global,
    part: &M,
    nets: &[(u32, u32)],
) -> Result<Vec<u8>, NoMemory>
    requires wires { length nets.now ≡ length (part_contacts (M.part part.now)) }
    requires few { length nets.now ≤ 6 }
{
    let mut wires = wires_from(alloc, nets)?;
    let cells = cells_of(alloc, part, &mut wires)?;
    let ports = Vec::new(alloc);
    print_net(alloc, &Netlist { cells, ports })
}

// The cells of a part alone in a pool with room for exactly these and one region.
fn cells_of<M: Macro>(alloc: Global, part: &M, wires: &mut [Wire]) -> Result<Vec<Cell>, NoMemory>
    requires wires { length wires.old ≡ length (part_contacts (M.part part.now)) }
    requires few { length wires.old ≤ 6 }
{
    let size = part.size();
    let mut pool = NetPool::new(alloc);
    pool.reserve(size as usize + 1)?;
    let mut region = pool.begin();
    part.outs(NetId(region.start()), wires);
    part.place(&mut pool, &mut region, wires);
    pool.finish(region);
    Ok(pool.into_cells())
}

// The inputs of a trial, where the numbers that come in at the handshakes have so many bits.
fn inputs(bits: [u32; 6]) -> [Cell; 12] {
    let pulse = bit(Gate::Input);
    let [a, b, c, d, e, f] = bits.map(|width| wide(width, Gate::Input));
    [pulse, a, pulse, b, pulse, c, pulse, d, pulse, e, pulse, f]
}

// The cells of a part behind the inputs of a trial. The wires get the nets that go out.
fn laid_out<M: Macro>(
    alloc: Global,
    part: &M,
    bits: [u32; 6],
    wires: &mut [Wire],
) -> Result<Vec<Cell>, NoMemory>
    requires wires { length wires.old ≡ length (part_contacts (M.part part.now)) }
    requires few { length wires.old ≤ 6 }
{
    let size = part.size();
    let mut pool = NetPool::new(alloc);
    pool.reserve(size as usize + 14)?;
    let mut outside = pool.begin();
    pool.place_all(&mut outside, &inputs(bits));
    pool.finish(outside);
    let mut region = pool.begin();
    part.outs(NetId(region.start()), wires);
    part.place(&mut pool, &mut region, wires);
    pool.finish(region);
    Ok(pool.into_cells())
}

// What a net shows; 0 where there is no such net.
fn shown(values: &[u64], net: NetId) -> u64 {
    values.get(net.0 as usize).copied().unwrap_or(0)
}

// What the cells hold after a cycle in which the nets show these values.
fn held(alloc: Global, cells: &[Cell], values: &[u64]) -> Result<Vec<u64>, AllocError> {
    let mut next = Vec::new(alloc);
    for cell in cells {
        let number = match cell.gate {
            Gate::Reg(pin) => shown(values, pin),
            _ => 0,
        };
        next.push(number)?;
    }
    Ok(next)
}

// Whether cells have at most 64 bits, as settling asks.
fn are_narrow(cells: &[Cell]) -> bool
    ensures { IsTrue result → All (λ c. c.width ≤ 64) cells.now }
{
    cells.iter().all(|cell| cell.width <= 64)
}

// What the nets show in a cycle; `Unsettled` where a cell is too wide to settle.
#[tactic(auto, using(crate::proofs::NarrowLemmas::narrow_as_seen))]
fn settled(
    alloc: Global,
    net: &Netlist,
    registers: &[u64],
    inputs: &[u64],
) -> Result<Vec<u64>, SettleFault> {
    if are_narrow(&net.cells) {
        settle(alloc, net, registers, inputs)
    } else {
        Err(SettleFault::Unsettled)
    }
}

// Whether a net shows the pulse and the number, or nothing, at each handshake.
fn goes_out(wires: &[Wire], values: &[u64], goes: &[Option<u64>]) -> bool {
    wires.iter().zip(goes).all(|(wire, number)| {
        shown(values, wire.out_pulse) == u64::from(number.is_some())
            && shown(values, wire.out_value) == number.unwrap_or(0)
    })
}

// A handshake as the two nets of its pulse and its number show it.
fn on_nets(number: Option<u64>) -> [u64; 2] {
    match number {
        None => [0, 0],
        Some(value) => [1, value],
    }
}

// The pulses and the numbers that come in, by the numbers of their nets.
fn input_numbers(alloc: Global, comes: [Option<u64>; 6]) -> Result<Vec<u64>, AllocError> {
    let mut numbers = Vec::new(alloc);
    for number in comes {
        numbers.extend_from_slice(&on_nets(number))?;
    }
    Ok(numbers)
}

// Runs cells from registers of 0: the first cycle in which something else goes out at the wires than what has to.
fn first_wrong_of(
    alloc: Global,
    net: &Netlist,
    wires: &[Wire],
    cycles: &[Cycle],
) -> Result<Option<usize>, SettleFault> {
    let mut registers = Vec::new(alloc);
    for (n, (comes, goes)) in cycles.iter().enumerate() {
        let inputs = input_numbers(alloc, *comes)?;
        let values = settled(alloc, net, &registers, &inputs)?;
        if !goes_out(wires, &values, goes) {
            return Ok(Some(n));
        }
        registers = held(alloc, &net.cells, &values)?;
    }
    Ok(None)
}

/// Runs a part with so many handshakes from registers of 0: the first cycle in which something else goes out than what
/// has to. The numbers that come in at the handshakes have so many bits.
pub fn first_wrong<M: Macro>(
    alloc: Global,
    part: &M,
    handshakes: u32,
    bits: [u32; 6],
    cycles: &[Cycle],
) -> Result<Option<usize>, SettleFault>
    requires wires { handshakes ≡ length (part_contacts (M.part part.now)) }
    requires few { handshakes ≤ 6 }
{
    let mut wires = wires_of(alloc, handshakes)?;
    let net = Netlist {
        cells: laid_out(alloc, part, bits, &mut wires)?,
        ports: Vec::new(alloc),
    };
    first_wrong_of(alloc, &net, &wires, cycles)
}

/// Runs a part in the same way: an error that names the first wrong cycle, if there is one.
pub fn runs<M: Macro>(
    alloc: Global,
    part: &M,
    handshakes: u32,
    bits: [u32; 6],
    cycles: &[Cycle],
) -> Result<(), Fail>
    requires wires { handshakes ≡ length (part_contacts (M.part part.now)) }
    requires few { handshakes ≤ 6 }
{
    match first_wrong(alloc, part, handshakes, bits, cycles)? {
        None => Ok(()),
        Some(n) => Err(Fail::new(format!(in alloc; "cycle {n} is wrong")?)),
    }
}

/// Runs a part with up to four handshakes in the same way.
pub fn runs_short<M: Macro>(
    alloc: Global,
    part: &M,
    handshakes: u32,
    bits: [u32; 6],
    cycles: &[ShortCycle],
) -> Result<(), Fail>
    requires wires { handshakes ≡ length (part_contacts (M.part part.now)) }
    requires few { handshakes ≤ 4 }
{
    runs(alloc, part, handshakes, bits, &widened(alloc, cycles)?)
}

/// The cycles with nothing at the fifth and the sixth handshake.
pub fn widened(alloc: Global, cycles: &[ShortCycle]) -> Result<Vec<Cycle>, AllocError> {
    let mut wide = Vec::new(alloc);
    for ([a, b, c, d], [p, q, r, s]) in cycles.iter() {
        wide.push(([*a, *b, *c, *d, NO, NO], [*p, *q, *r, *s, NO, NO]))?;
    }
    Ok(wide)
}
