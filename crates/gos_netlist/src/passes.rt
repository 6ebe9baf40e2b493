// Settling a small netlist by repeated passes over all its cells.
ghost use Rattle.std.specs.Prelude.{◌≡◌, ◌<◌, ◌≤◌, ◌+◌, ◌-◌, ◌^◌, All, IsErrOf, IfOk, map, length, nat_eq, if◌then◌else◌};
ghost use Rattle.gos_netlist.specs.Seen.{cell_of, function_of};
ghost use Rattle.gos_netlist.specs.Settling.{Settling, at, shown};
ghost use Rattle.gos_netlist.specs.Cycles.{HasCycle};
ghost use Rattle.gos_netlist.specs.inner.Passes.{pass, after_passes};

use crate::nets::{Cell, Gate, NetId, Netlist};
use gos_types::{NoMemory, difference, greatest, sum};
use std::alloc::{AllocError, Global};
use thiserror::Error;

/// Why a netlist was not settled.
#[derive(Debug, Drop, Error)]
pub enum SettleFault {
    /// The values would change for ever: there is a combinational cycle.
    #[error("the values do not settle")]
    Unsettled,
    /// There was no memory left.
    #[error("out of memory")]
    NoMemory,
}

impl From<NoMemory> for SettleFault {
    ghost use Rattle.std.specs.Prelude.{◌≡◌};
    ghost use Rattle.gos_netlist.specs.declared.passes.SettleFault.TheVariants.{NoMemory as OutOfMemory};

    ghost from_gives = { λ _ e. e ≡ OutOfMemory };

    fn from(_e: NoMemory) -> SettleFault {
        SettleFault::NoMemory
    }
}

impl From<AllocError> for SettleFault {
    ghost use Rattle.std.specs.Prelude.{◌≡◌};
    ghost use Rattle.gos_netlist.specs.declared.passes.SettleFault.TheVariants.{NoMemory as OutOfMemory};

    ghost from_gives = { λ _ e. e ≡ OutOfMemory };

    fn from(_e: AllocError) -> SettleFault {
        SettleFault::NoMemory
    }
}

/// The values of all nets in a cycle with these registers and inputs, by one pass more than there are cells.
#[tactic(auto, using(crate::proofs::PassLemmas::narrow))]
pub fn settle(
    alloc: Global,
    net: &Netlist,
    registers: &[u64],
    inputs: &[u64],
) -> Result<Vec<u64>, SettleFault>
    requires { All (λ c. c.width ≤ 64) net.now.cells }
    ensures settled { IfOk result (λ values. Settling net.now.cells registers.now inputs.now values.items) }
    ensures unsettled { IsErrOf result SettleFault.Unsettled → HasCycle net.now.cells }
{
    let values = passed(alloc, &net.cells, registers, inputs)?;
    let next = next_values(alloc, &net.cells, registers, inputs, &values)?;
    if next == values {
        Ok(values)
    } else {
        Err(SettleFault::Unsettled)
    }
}

// The values after one pass more than there are cells, from all 0.
fn passed(
    alloc: Global,
    cells: &[Cell],
    registers: &[u64],
    inputs: &[u64],
) -> Result<Vec<u64>, NoMemory>
    requires { All (λ c. c.width ≤ 64) cells.now }
    ensures { IfOk result (λ values. values.items ≡ after_passes (length (map cell_of cells.now) + 1) (map cell_of cells.now) registers.now inputs.now) }
{
    let mut values = vec![in alloc; 0u64; cells.len()]?;
    for _ in 0..cells.len() {
        values = next_values(alloc, cells, registers, inputs, &values)?;
    }
    next_values(alloc, cells, registers, inputs, &values)
}

// What all cells show, where the nets have these values.
fn next_values(
    alloc: Global,
    cells: &[Cell],
    registers: &[u64],
    inputs: &[u64],
    values: &[u64],
) -> Result<Vec<u64>, NoMemory>
    requires { All (λ c. c.width ≤ 64) cells.now }
    ensures { IfOk result (λ next. next.items ≡ pass (map cell_of cells.now) registers.now inputs.now values.now) }
{
    let mut next = Vec::new(alloc);
    for (n, cell) in cells.iter().enumerate() {
        next.push(shown_value(cell, number_at(registers, n), number_at(inputs, n), values))?;
    }
    Ok(next)
}

// What a cell shows, from its register, its input and the values of the nets.
fn shown_value(cell: &Cell, register: u64, input: u64, values: &[u64]) -> u64
    requires { cell.now.width ≤ 64 }
    ensures { result ≡ shown cell.now.width (function_of cell.now.gate) register input (at values.now) }
{
    match cell.gate {
        Gate::Input => input,
        Gate::Const(k) => k,
        Gate::Not(a) => complement(cell.width, value_of(values, a)),
        Gate::And(a, b) => value_of(values, a) & value_of(values, b),
        Gate::Or(a, b) => value_of(values, a) | value_of(values, b),
        Gate::Xor(a, b) => value_of(values, a) ^ value_of(values, b),
        Gate::Mux(s, a, b) => chosen(
            value_of(values, s),
            value_of(values, a),
            value_of(values, b),
        ),
        Gate::Add(a, b) => sum(cell.width, value_of(values, a), value_of(values, b)),
        Gate::Sub(a, b) => difference(cell.width, value_of(values, a), value_of(values, b)),
        Gate::Eq(a, b) => u64::from(value_of(values, a) == value_of(values, b)),
        Gate::Less(a, b) => u64::from(value_of(values, a) < value_of(values, b)),
        Gate::Gate(s, a) => chosen(value_of(values, s), value_of(values, a), 0),
        Gate::Reg(_) => register,
    }
}

// The value of a net; 0 where there is no such net.
fn value_of(values: &[u64], net: NetId) -> u64
    ensures { result ≡ at values.now net.0 }
{
    number_at(values, net.0 as usize)
}

// The number at a place; 0 past the end.
fn number_at(numbers: &[u64], place: usize) -> u64
    ensures { result ≡ at numbers.now place }
{
    numbers.get(place).copied().unwrap_or(0)
}

// The first value where the selector is 1, else the second.
fn chosen(selector: u64, a: u64, b: u64) -> u64
    ensures { result ≡ (if nat_eq selector 1 then a else b) }
{
    if selector == 1 { a } else { b }
}

// All bits turned.
fn complement(width: u32, a: u64) -> u64
    requires { width ≤ 64 }
    ensures { result ≡ 2 ^ width - 1 - a }
{
    greatest(width).saturating_sub(a)
}
