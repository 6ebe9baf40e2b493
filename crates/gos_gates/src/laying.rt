// Cells as gates, one cell after another.
ghost use Rattle.std.specs.Prelude.{◌≡◌, ◌+◌, ◌*◌, ◌^◌, ◌<◌, ◌≤◌, ◌++◌, ◌∷◌, [], length, map, All, OnOk, IfOk};
ghost use Rattle.gos_netlist.specs.Nets.{pins};
ghost use Rattle.gos_netlist.specs.Seen.{cell_of, function_of};
ghost use Rattle.gos_netcheck.specs.CellRules.{NetsExist, WidthsFit};
ghost use Rattle.gos_gates.specs.Bits.{bits_of};
ghost use Rattle.gos_gates.specs.Lowered.{complement};
ghost use Rattle.gos_gates.specs.inner.Adding.{one_bit};
ghost use Rattle.gos_gates.specs.inner.Layout.{chain_gates, chain_literals, chain_carry};
ghost use Rattle.gos_gates.specs.inner.Laying.{IsNarrow, first_literal, literals_of, next_variable, pin_bits, units_at, with_cells, with_function};

use crate::draft::{Draft, complement};
use crate::kinds::Kind;
use gos_netlist::{Cell, Gate, NetId};
use gos_types::NoMemory;

// The literals of a constant, which are 0 and 1.
#[tactic(auto, using(crate::proofs::LayLemmas::constant_more, crate::proofs::LayLemmas::constant_end))]
fn constant(width: u32, value: u64, bits: &mut Vec<u32>) -> Result<(), NoMemory>
    ensures { OnOk result (bits.new.items ≡ map one_bit (bits_of width value)) }
{
    bits.clear();
    let mut rest = value;
    for _ in 0..width {
        bits.push((rest % 2) as u32)?;
        rest /= 2;
    }
    Ok(())
}

// The complements of literals.
fn complements(literals: &[u32], bits: &mut Vec<u32>) -> Result<(), NoMemory>
    ensures { OnOk result (bits.new.items ≡ map complement literals.now) }
{
    bits.clear();
    for literal in literals {
        bits.push(complement(*literal))?;
    }
    Ok(())
}

// The literal of a net of one bit.
fn selector(draft: &Draft, net: NetId) -> u32
    requires { net.0 < length draft.now.nets }
    ensures { result ≡ first_literal (literals_of draft.now net.0) }
{
    draft
        .literals_of(net.0 as usize)
        .first()
        .copied()
        .unwrap_or(0)
}

// The literals of a cell over two nets, bit by bit.
fn chain(
    draft: &mut Draft,
    kind: Kind,
    first: u32,
    a: NetId,
    b: NetId,
    bits: &mut Vec<u32>,
) -> Result<(), NoMemory>
    requires a { a.0 < length draft.old.nets }
    requires b { b.0 < length draft.old.nets }
    requires room { next_variable draft.old + 7 * length (literals_of draft.old a.0) < 2 ^ 31 }
    ensures draft { OnOk result (draft.new ≡
        record draft.old {
          gates = draft.old.gates ++
              chain_gates kind (next_variable draft.old) first (literals_of draft.old a.0) (literals_of draft.old b.0);
        }) }
    ensures bits { OnOk result (bits.new.items ≡ chain_literals kind (next_variable draft.old) (literals_of draft.old a.0) (literals_of draft.old b.0)) }
{
    bits.clear();
    draft.chain(kind, first, a.0 as usize, b.0 as usize, bits)?;
    Ok(())
}

// The literal of a comparison of two nets: what their greatest bits hand on.
fn comparison(
    draft: &mut Draft,
    kind: Kind,
    first: u32,
    a: NetId,
    b: NetId,
    bits: &mut Vec<u32>,
) -> Result<(), NoMemory>
    requires a { a.0 < length draft.old.nets }
    requires b { b.0 < length draft.old.nets }
    requires room { next_variable draft.old + 7 * length (literals_of draft.old a.0) < 2 ^ 31 }
    ensures draft { OnOk result (draft.new ≡
        record draft.old {
          gates = draft.old.gates ++
              chain_gates kind (next_variable draft.old) first (literals_of draft.old a.0) (literals_of draft.old b.0);
        }) }
    ensures bits { OnOk result (bits.new.items ≡
        chain_carry kind (next_variable draft.old) first (literals_of draft.old a.0) (literals_of draft.old b.0) ∷ []) }
{
    bits.clear();
    let last = draft.chain(kind, first, a.0 as usize, b.0 as usize, bits)?;
    bits.clear();
    bits.push(last)?;
    Ok(())
}

// Lays a net of so many bits that shows what a gate does. An input or a register is there already.
fn lay(draft: &mut Draft, net: usize, cell: &Cell, bits: &mut Vec<u32>) -> Result<(), NoMemory>
    requires net { net < length draft.old.nets }
    requires pins { All (λ a. a < length draft.old.nets) (pins (function_of cell.now.gate)) }
    requires room { next_variable draft.old + 7 * pin_bits draft.old (function_of cell.now.gate) < 2 ^ 31 }
    ensures { OnOk result (draft.new ≡ with_function net cell.now.width (function_of cell.now.gate) draft.old) }
{
    match cell.gate {
        Gate::Input | Gate::Reg(_) => return Ok(()),
        Gate::Const(k) => constant(cell.width, k, bits)?,
        Gate::Not(a) => complements(draft.literals_of(a.0 as usize), bits)?,
        Gate::And(a, b) => chain(draft, Kind::And, 0, a, b, bits)?,
        Gate::Or(a, b) => chain(draft, Kind::Or, 0, a, b, bits)?,
        Gate::Xor(a, b) => chain(draft, Kind::Xor, 0, a, b, bits)?,
        Gate::Mux(s, a, b) => chain(draft, Kind::Mux, selector(draft, s), a, b, bits)?,
        Gate::Add(a, b) => chain(draft, Kind::Add, 0, a, b, bits)?,
        Gate::Sub(a, b) => chain(draft, Kind::Sub, 1, a, b, bits)?,
        Gate::Eq(a, b) => comparison(draft, Kind::Eq, 1, a, b, bits)?,
        Gate::Less(a, b) => comparison(draft, Kind::Less, 0, a, b, bits)?,
        Gate::Gate(s, a) => chain(draft, Kind::Gate, selector(draft, s), a, a, bits)?,
    }
    draft.put(net, bits.as_slice())
}

// Lays cells, in the order in which they stand there.
pub fn lay_all(
    draft: &mut Draft,
    cells: &[Cell],
    order: &[u32],
    bits: &mut Vec<u32>,
) -> Result<(), NoMemory>
    requires count { length draft.old.nets ≡ length cells.now }
    requires nets { NetsExist (map cell_of cells.now) }
    requires widths { WidthsFit (map cell_of cells.now) }
    requires order { All (λ n. n < length cells.now) order.now }
    requires narrow { IsNarrow (map cell_of cells.now) draft.old }
    requires room { next_variable draft.old + 8 * units_at (map cell_of cells.now) order.now < 2 ^ 31 }
    ensures laid { OnOk result (draft.new ≡ with_cells (map cell_of cells.now) order.now draft.old) }
    ensures count { OnOk result (length draft.new.nets ≡ length draft.old.nets) }
{
    for net in order {
        let place = *net as usize;
        lay(draft, place, &cells[place], bits)?;
    }
    Ok(())
}
