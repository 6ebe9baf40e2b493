// Single changes: a cell goes to another net, or becomes a constant in its place.
//
// What each makes is a quotient of the cells of an accepted netlist, and needs no test.
ghost use Rattle.std.specs.Prelude.{◌≡◌, ◌+◌, ◌<◌, ◌≤◌, ◌^◌, IfOk, map, length};
ghost use Rattle.gos_netlist.specs.Seen.{cell_of};
ghost use Rattle.gos_netlist.specs.Settling.{at};
ghost use Rattle.gos_tidy.specs.Reduced.{IsQuotient};
ghost use Rattle.gos_tidy.specs.inner.Changes.{AreNumbersOf, AreSound, BecomesNumber, GoesTo, IsReplaced, lowered, size, skip, target_of};

use crate::drop::placed;
use crate::quotient::Quotient;
use gos_netlist::{Cell, Gate};
use gos_types::NoMemory;
use std::alloc::Global;

// The cells without one, which goes to another net.
pub(crate) fn without(
    alloc: Global,
    cells: &[Cell],
    left_out: u32,
    to: u32,
) -> Result<Quotient, NoMemory>
    requires sound { AreSound (map cell_of cells.now) }
    requires few { length cells.now < 2 ^ 32 }
    requires goes { GoesTo (map cell_of cells.now) left_out to }
    ensures quotient { IfOk result (λ q. IsQuotient (map cell_of cells.now) (map cell_of q.cells.items) (at q.map.items) q.roots.items) }
    ensures few { IfOk result (λ q. length q.cells.items ≤ length cells.now) }
    ensures smaller { IfOk result (λ q. size (map cell_of q.cells.items) < size (map cell_of cells.now)) }
{
    let map = targets(alloc, cells.len(), left_out, to)?;
    let roots = places(alloc, cells.len().saturating_sub(1), left_out)?;
    let others = placed(alloc, cells, &map, &roots)?;
    Ok(Quotient {
        cells: others,
        map,
        roots,
    })
}

// The cells with a constant in the place of one.
pub(crate) fn with_number(
    alloc: Global,
    cells: &[Cell],
    place: u32,
    number: u64,
) -> Result<Quotient, NoMemory>
    requires sound { AreSound (map cell_of cells.now) }
    requires few { length cells.now < 2 ^ 32 }
    requires becomes { BecomesNumber (map cell_of cells.now) place number }
    ensures quotient { IfOk result (λ q. IsQuotient (map cell_of cells.now) (map cell_of q.cells.items) (at q.map.items) q.roots.items) }
    ensures few { IfOk result (λ q. length q.cells.items ≤ length cells.now) }
    ensures smaller { IfOk result (λ q. size (map cell_of q.cells.items) < size (map cell_of cells.now)) }
{
    let count = cells.len();
    let map = places(alloc, count, count as u32)?;
    let roots = places(alloc, count, count as u32)?;
    let others = replaced(alloc, cells, place, number)?;
    Ok(Quotient {
        cells: others,
        map,
        roots,
    })
}

// The cells with a constant at this place, of as many bits as the cell there.
fn replaced(alloc: Global, cells: &[Cell], place: u32, number: u64) -> Result<Vec<Cell>, NoMemory>
    requires { place < length cells.now }
    ensures { IfOk result (λ others. IsReplaced cells.now place number others.items) }
{
    let mut others = cells.to_vec(alloc)?;
    others[place as usize].gate = Gate::Const(number);
    Ok(others)
}

// Where each of so many nets goes, where one is left out and goes to another one.
fn targets(alloc: Global, count: usize, left_out: u32, to: u32) -> Result<Vec<u32>, NoMemory>
    requires { count < 2 ^ 32 }
    ensures { IfOk result (λ targets. AreNumbersOf (target_of left_out to) count targets.items) }
{
    let mut targets = Vec::new(alloc);
    for net in 0..count {
        targets.push(target(left_out, to, net as u32))?;
    }
    Ok(targets)
}

fn target(left_out: u32, to: u32, net: u32) -> u32
    ensures { result ≡ target_of left_out to net }
{
    if net == left_out {
        lowered(left_out, to)
    } else {
        lowered(left_out, net)
    }
}

// The place of a net, where one is left out.
fn lowered(left_out: u32, net: u32) -> u32
    ensures { result ≡ lowered left_out net }
{
    if left_out < net { net - 1 } else { net }
}

// The places that so many nets had, where one is left out.
fn places(alloc: Global, count: usize, left_out: u32) -> Result<Vec<u32>, NoMemory>
    requires { count < 2 ^ 32 }
    ensures { IfOk result (λ places. AreNumbersOf (skip left_out) count places.items) }
{
    let mut places = Vec::new(alloc);
    for net in 0..count {
        places.push(place(left_out, net as u32))?;
    }
    Ok(places)
}

// The place that a net had before one was left out.
fn place(left_out: u32, net: u32) -> u32
    requires { net + 1 < 2 ^ 32 }
    ensures { result ≡ skip left_out net }
{
    if net < left_out { net } else { net + 1 }
}
