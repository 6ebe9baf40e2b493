// The levels of cells: a cell that reads others stands above all of them.
ghost use Rattle.std.specs.Prelude.{◌≡◌, ℕ, ◌+◌, ◌<◌, ◌≤◌, ◌^◌, All, IfOk, length, map};
ghost use Rattle.gos_netlist.specs.Nets.{pins};
ghost use Rattle.gos_netlist.specs.Seen.{cell_of, function_of, number_of};
ghost use Rattle.gos_netlist.specs.Settling.{at};
ghost use Rattle.gos_netcheck.specs.CellRules.{NetsExist};
ghost use Rattle.gos_netcheck.specs.Schedule.{IsSchedule};
ghost use Rattle.gos_netcheck.specs.Levels.{AreLevels, level_of};

use gos_netlist::{Cell, Gate, NetId};
use gos_types::NoMemory;
use std::alloc::Global;

// The level of each cell, from an order in which they can be evaluated.
pub(crate) fn levels_of(
    alloc: Global,
    cells: &[Cell],
    order: &[NetId],
) -> Result<Vec<u32>, NoMemory>
    requires few { length cells.now < 2 ^ 32 }
    requires nets { NetsExist (map cell_of cells.now) }
    requires order { IsSchedule (map cell_of cells.now) (map number_of order.now) }
    ensures { IfOk result (λ levels. AreLevels (map cell_of cells.now) levels.items) }
{
    let mut levels = vec![in alloc; 0; cells.len()]?;
    for net in order {
        let place = net.0 as usize;
        let level = level_of(cells[place].gate, &levels);
        levels[place] = level;
    }
    Ok(levels)
}

// The level of a cell, from those of its pins.
fn level_of(gate: Gate, levels: &[u32]) -> u32
    requires pins { All (λ a. a < length levels.now) (pins (function_of gate)) }
    requires room { All (λ l. l + 1 < 2 ^ 32) levels.now }
    ensures level { result ≡ level_of (function_of gate) (at levels.now) }
    ensures bound { (top : ℕ) → All (λ l. l ≤ top) levels.now → result ≤ top + 1 }
{
    match gate {
        Gate::Input | Gate::Const(_) | Gate::Reg(_) => 0,
        Gate::Not(a) => level_at(levels, a) + 1,
        Gate::And(a, b)
        | Gate::Or(a, b)
        | Gate::Xor(a, b)
        | Gate::Add(a, b)
        | Gate::Sub(a, b)
        | Gate::Eq(a, b)
        | Gate::Less(a, b)
        | Gate::Gate(a, b) => level_at(levels, a).max(level_at(levels, b)) + 1,
        Gate::Mux(s, a, b) => {
            let chosen = level_at(levels, a).max(level_at(levels, b));
            level_at(levels, s).max(chosen) + 1
        }
    }
}

// The level of a net, which is not the greatest number.
fn level_at(levels: &[u32], net: NetId) -> u32
    requires net { net.0 < length levels.now }
    requires room { All (λ l. l + 1 < 2 ^ 32) levels.now }
    ensures level { result ≡ at levels.now net.0 }
    ensures room { result + 1 < 2 ^ 32 }
    ensures bound { (top : ℕ) → All (λ l. l ≤ top) levels.now → result ≤ top }
{
    levels[net.0 as usize]
}
