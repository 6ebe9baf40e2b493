// The order in which cells are laid: by level, and then by number.
ghost use Rattle.std.specs.Prelude.{◌≡◌, ◌+◌, ◌<◌, ◌≤◌, ◌^◌, IsPermutation, IfOk, length};
ghost use Rattle.gos_netlist.specs.Settling.{at};
ghost use Rattle.gos_gates.specs.inner.Orders.{IsOrdered, numbers_from};

use gos_types::NoMemory;
use std::alloc::Global;

// All nets, those of lower levels first, and by number within a level.
pub fn by_level(alloc: Global, levels: &[u32]) -> Result<Vec<u32>, NoMemory>
    requires { length levels.now < 2 ^ 32 }
    ensures all { IfOk result (λ order. IsPermutation (numbers_from 0 (length levels.now)) order.items) }
    ensures ordered { IfOk result (λ order. IsOrdered levels.now order.items) }
{
    let mut order = numbers(alloc, levels.len())?;
    order.sort_by_key(|net| level_at(levels, *net))?;
    Ok(order)
}

// The numbers below one.
#[tactic(auto, using(crate::proofs::LayLemmas::numbers_more))]
fn numbers(alloc: Global, count: usize) -> Result<Vec<u32>, NoMemory>
    requires { count < 2 ^ 32 }
    ensures { IfOk result (λ numbers. numbers.items ≡ numbers_from 0 count) }
{
    let mut numbers = Vec::new(alloc);
    for n in 0..count {
        numbers.push(n as u32)?;
    }
    Ok(numbers)
}

// The level of a net.
fn level_at(levels: &[u32], net: u32) -> u32
    ensures { result ≡ at levels.now net }
{
    levels.get(net as usize).copied().unwrap_or(0)
}
