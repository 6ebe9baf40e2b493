// What a gate of constants shows.
ghost use Rattle.std.specs.Prelude.{◌≡◌, ℕ, ◌-◌, ◌^◌, ◌<◌, ◌≤◌, IsNone, IsSome, IfSome, MatchOption, ◌↔◌, map, nat_eq, if◌then◌else◌};
ghost use Rattle.gos_netlist.specs.Nets.{Const};
ghost use Rattle.gos_netlist.specs.Seen.{cell_of, function_of};
ghost use Rattle.gos_tidy.specs.Mapped.{IsConst};
ghost use Rattle.gos_tidy.specs.Tidy.{Folds, NamesConstants};
ghost use Rattle.gos_tidy.specs.inner.Reading.{FoldsTo, first_of, second_of, third_of, shown_for};

use crate::renaming::cell_at;
use gos_netlist::{Cell, Gate, NetId};
use gos_types::{difference, greatest, sum};

// The nets of a gate that may fold: its first, second and third, where the last one stands for those that it lacks. None
// where it names no net, or is a register.
pub(crate) fn operands(gate: Gate) -> Option<(NetId, NetId, NetId)>
    ensures folds { IsSome result ↔ Folds (function_of gate) }
    ensures nets { IfSome result (λ nets.
        (nets.0.0 ≡ first_of (function_of gate)) × (nets.1.0 ≡ second_of (function_of gate)) × (nets.2.0 ≡ third_of (function_of gate))) }
{
    match gate {
        Gate::Input | Gate::Const(_) | Gate::Reg(_) => None,
        Gate::Not(a) => Some((a, a, a)),
        Gate::And(a, b)
        | Gate::Or(a, b)
        | Gate::Xor(a, b)
        | Gate::Add(a, b)
        | Gate::Sub(a, b)
        | Gate::Eq(a, b)
        | Gate::Less(a, b)
        | Gate::Gate(a, b) => Some((a, b, b)),
        Gate::Mux(s, a, b) => Some((s, a, b)),
    }
}

// What a gate of so many bits shows, where its nets have these numbers; 0 where it may not fold.
pub(crate) fn value(width: u32, gate: Gate, a: u64, b: u64, c: u64) -> u64
    requires { width ≤ 64 }
    ensures { result ≡ shown_for width (function_of gate) a b c }
{
    match gate {
        Gate::Input | Gate::Const(_) | Gate::Reg(_) => 0,
        Gate::Not(_) => complement(width, a),
        Gate::And(_, _) => a & b,
        Gate::Or(_, _) => a | b,
        Gate::Xor(_, _) => a ^ b,
        Gate::Mux(_, _, _) => chosen(a, b, c),
        Gate::Add(_, _) => sum(width, a, b),
        Gate::Sub(_, _) => difference(width, a, b),
        Gate::Eq(_, _) => u64::from(a == b),
        Gate::Less(_, _) => u64::from(a < b),
        Gate::Gate(_, _) => chosen(a, b, 0),
    }
}

// The first number where the selector is 1, else the second.
fn chosen(selector: u64, a: u64, b: u64) -> u64
    ensures { result ≡ (if nat_eq selector 1 then a else b) }
{
    if selector == 1 { a } else { b }
}

// All bits turned.
fn complement(width: u32, a: u64) -> u64
    requires { width ≤ 64 }
    ensures { result ≡ 2 ^ width - 1 - a }
{
    greatest(width).saturating_sub(a)
}

// The number of a net whose cell is a constant.
pub(crate) fn number(cells: &[Cell], net: NetId) -> Option<u64>
    ensures { MatchOption result ((k : ℕ) → IsConst (map cell_of cells.now) net.0 k → ⊥) (IsConst (map cell_of cells.now) net.0) }
{
    match cell_at(cells, net.0) {
        Some(cell) => constant(cell.gate),
        None => None,
    }
}

// The number of a constant.
fn constant(gate: Gate) -> Option<u64>
    ensures { MatchOption result ((k : ℕ) → function_of gate ≡ Const k → ⊥) (λ k. function_of gate ≡ Const k) }
{
    match gate {
        Gate::Const(k) => Some(k),
        _ => None,
    }
}

// What a gate of so many bits shows, where it may fold and all its nets are constants.
pub(crate) fn folded(cells: &[Cell], width: u32, gate: Gate) -> Option<u64>
    requires { width ≤ 64 }
    ensures shown { IfSome result (FoldsTo (map cell_of cells.now) width (function_of gate)) }
    ensures none { IsNone result → Folds (function_of gate) → NamesConstants (map cell_of cells.now) (function_of gate) → ⊥ }
{
    let (first, second, third) = operands(gate)?;
    let a = number(cells, first)?;
    let b = number(cells, second)?;
    let c = number(cells, third)?;
    Some(value(width, gate, a, b, c))
}
