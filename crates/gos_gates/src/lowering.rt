// A netlist as two-input gates and latches.
ghost use Rattle.std.specs.Prelude.{◌≡◌, ◌≤◌, ◌<◌, ◌+◌, ◌*◌, ◌^◌, length, map, sum_by, All, IfOk, IfErr};
ghost use Rattle.gos_types.specs.declared.widths.TheConstants.{GREATEST_WIDTH};
ghost use Rattle.gos_netlist.specs.Nets.{pins};
ghost use Rattle.gos_netlist.specs.Seen.{cell_of, function_of};
ghost use Rattle.gos_netcheck.specs.CellRules.{NetsExist, WidthsFit};
ghost use Rattle.gos_gates.specs.Gates.{AreGates};
ghost use Rattle.gos_gates.specs.Lowered.{IsGateFault, IsLowered, bits_in, width_of};
ghost use Rattle.gos_netcheck.specs.Accepted.{IsAccepted};
ghost use Rattle.gos_gates.specs.inner.Laying.{CanBeLaid, GivesCircuit, circuit_from, circuit_of, units_at};

use crate::aig::Aig;
use crate::draft::Draft;
use crate::fault::GateFault;
use crate::laying::lay_all;
use crate::order::by_level;
use crate::sources::{ends_of, give_all, held_of, literals_of_all, registers_of};
use gos_netcheck::Checked;
use gos_netlist::{Cell, Gate, NetId, Netlist};
use gos_types::NoMemory;
use std::alloc::Global;

/// The most bits that the cells of a netlist and their pins may have together.
const MAX_BITS: u64 = 2_000_000;

/// The gates of an accepted netlist. `TooLarge` comes exactly where its cells and their pins have more than 2,000,000
/// bits together.
///
/// The inputs are the bits of the nets at which ports come in, port by port and the least bit first; the outputs are
/// those of the others, likewise. Each bit of a register is a latch.
pub fn lower(alloc: Global, net: &Checked) -> Result<Aig, GateFault>
    ensures lowered { IfOk result (IsLowered net.now) }
    ensures circuit { IfOk result AreGates }
    ensures few { IfOk result (λ _. bits_in net.now.cells ≤ 2000000) }
    ensures fault { IfErr result (IsGateFault net.now.cells) }
{
    let bits = bits_in(net.netlist());
    if bits > MAX_BITS {
        return Err(GateFault::TooLarge { bits });
    }
    let order = laying_order(alloc, net)?;
    let aig = lowered(alloc, net.netlist(), &order)?;
    Ok(aig)
}

// The order in which the cells of a netlist are laid.
fn laying_order(alloc: Global, net: &Checked) -> Result<Vec<u32>, NoMemory>
    requires accepted { IsAccepted net.now }
    requires few { length net.now.cells < 2 ^ 32 }
    requires bits { bits_in net.now.cells ≤ 2000000 }
    ensures { IfOk result (λ order. GivesCircuit net.now order.items) }
{
    let levels = net.levels(alloc)?;
    let order = by_level(alloc, &levels)?;
    Ok(order)
}

// The bits that the cells of a netlist and their pins have together.
fn bits_in(net: &Netlist) -> u64
    requires few { length net.now.cells < 2 ^ 32 }
    requires widths { WidthsFit net.now.cells }
    ensures { result ≡ bits_in net.now.cells }
{
    count_bits(&net.cells)
}

// The bits that cells and their pins have together.
fn count_bits(cells: &[Cell]) -> u64
    requires few { length cells.now < 2 ^ 32 }
    requires widths { WidthsFit (map cell_of cells.now) }
    ensures { result ≡ bits_in (map cell_of cells.now) }
{
    let mut bits = 0;
    for cell in cells {
        bits += u64::from(cell.width) + pin_bits(cells, cell.gate);
    }
    bits
}

// The bits of a gate's pins.
fn pin_bits(cells: &[Cell], gate: Gate) -> u64
    requires { WidthsFit (map cell_of cells.now) }
    ensures sum { result ≡ sum_by (width_of (map cell_of cells.now)) (pins (function_of gate)) }
    ensures few { result ≤ 3 * GREATEST_WIDTH }
{
    match gate {
        Gate::Input | Gate::Const(_) => 0,
        Gate::Not(a) | Gate::Reg(a) => net_bits(cells, a),
        Gate::And(a, b)
        | Gate::Or(a, b)
        | Gate::Xor(a, b)
        | Gate::Add(a, b)
        | Gate::Sub(a, b)
        | Gate::Eq(a, b)
        | Gate::Less(a, b)
        | Gate::Gate(a, b) => net_bits(cells, a) + net_bits(cells, b),
        Gate::Mux(s, a, b) => net_bits(cells, s) + net_bits(cells, a) + net_bits(cells, b),
    }
}

// The bits of a net; 0 where there is no such net.
#[tactic(auto, using(crate::proofs::SumLemmas::width_seen, crate::proofs::SumLemmas::width_low))]
fn net_bits(cells: &[Cell], net: NetId) -> u64
    requires { WidthsFit (map cell_of cells.now) }
    ensures width { result ≡ width_of (map cell_of cells.now) net.0 }
    ensures few { result ≤ GREATEST_WIDTH }
{
    let place = net.0 as usize;
    if place < cells.len() {
        u64::from(cells[place].width)
    } else {
        0
    }
}

// The circuit of a netlist whose cells are laid in this order.
fn lowered(alloc: Global, net: &Netlist, order: &[u32]) -> Result<Aig, NoMemory>
    requires { CanBeLaid net.now order.now }
    ensures { IfOk result (λ aig. aig ≡ circuit_of net.now order.now) }
{
    let ends = ends_of(alloc, &net.cells, &net.ports)?;
    let registers = registers_of(alloc, &net.cells)?;
    let held = held_of(alloc, &net.cells)?;
    circuit(
        alloc,
        &net.cells,
        &ends.inputs,
        &registers,
        &held,
        &ends.outputs,
        order,
    )
}

// A circuit with these inputs, registers and outputs, whose cells are laid in this order.
fn circuit(
    alloc: Global,
    cells: &[Cell],
    inputs: &[u32],
    registers: &[u32],
    held: &[u32],
    outputs: &[u32],
    order: &[u32],
) -> Result<Aig, NoMemory>
    requires nets { NetsExist (map cell_of cells.now) }
    requires widths { WidthsFit (map cell_of cells.now) }
    requires inputs { All (λ n. n < length cells.now) inputs.now }
    requires registers { All (λ n. n < length cells.now) registers.now }
    requires held { All (λ n. n < length cells.now) held.now }
    requires outputs { All (λ n. n < length cells.now) outputs.now }
    requires order { All (λ n. n < length cells.now) order.now }
    requires bits { units_at (map cell_of cells.now) order.now ≤ 2000000 }
    requires input_bits { sum_by (width_of (map cell_of cells.now)) inputs.now ≤ 2000000 }
    requires register_bits { sum_by (width_of (map cell_of cells.now)) registers.now ≤ 2000000 }
    ensures { IfOk result (λ aig. aig ≡ circuit_from (map cell_of cells.now) inputs.now registers.now held.now outputs.now order.now) }
{
    let mut bits = Vec::new(alloc);
    let mut draft = Draft::new(alloc, cells.len())?;
    give_all(&mut draft, cells, inputs, &mut bits)?;
    let before = draft.base();
    give_all(&mut draft, cells, registers, &mut bits)?;
    lay_all(&mut draft, cells, order, &mut bits)?;
    let latches = literals_of_all(alloc, &draft, held)?;
    let outputs = literals_of_all(alloc, &draft, outputs)?;
    Ok(Aig {
        inputs: before - 1,
        latches,
        outputs,
        gates: draft.into_gates(),
    })
}
