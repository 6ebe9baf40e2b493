// Merging cells by classes of their nets.
//
// The classes are a guess. What is made of them is tested cell by cell (`quotient.rt`), so nothing of how they were found is
// trusted.
ghost use Rattle.std.specs.Prelude.{◌≡◌, ℕ, ◌<◌, ◌≤◌, ◌^◌, IfOk, IfSome, map, length};
ghost use Rattle.gos_netlist.specs.Seen.{cell_of};
ghost use Rattle.gos_netlist.specs.Settling.{at};
ghost use Rattle.gos_netcheck.specs.CellRules.{NetsExist};
ghost use Rattle.gos_tidy.specs.Reduced.{IsQuotient};
ghost use Rattle.gos_tidy.specs.inner.Roots.{AreAll};

use crate::classes::{Classes, Form, Known, Rules};
use crate::guess::guessed;
use crate::quotient::Quotient;
use crate::renaming::{entry, renamed_cell};
use gos_netlist::{Cell, NetId};
use gos_types::NoMemory;
use std::alloc::Global;

// The number of a class that has none.
const NONE: u32 = u32::MAX;

// The cells, which can be evaluated in this order, merged by a guess of classes, or where that is wrong by one with fewer rules; None
// where both are wrong.
pub(crate) fn merged(
    alloc: Global,
    cells: &[Cell],
    order: &[NetId],
) -> Result<Option<Quotient>, NoMemory>
    requires { length cells.now < 2 ^ 32 }
    ensures right { IfOk result (λ merged. IfSome merged (λ q. IsQuotient (map cell_of cells.now) (map cell_of q.cells.items) (at q.map.items) q.roots.items)) }
    ensures few { IfOk result (λ merged. IfSome merged (λ q. length q.cells.items ≤ length cells.now)) }
{
    match merged_by(alloc, cells, order, Rules::All)? {
        Some(quotient) => Ok(Some(quotient)),
        None => merged_by(alloc, cells, order, Rules::Fewer),
    }
}

// The cells merged by a guess of classes; None where it is wrong.
fn merged_by(
    alloc: Global,
    cells: &[Cell],
    order: &[NetId],
    rules: Rules,
) -> Result<Option<Quotient>, NoMemory>
    requires { length cells.now < 2 ^ 32 }
    ensures right { IfOk result (λ merged. IfSome merged (λ q. IsQuotient (map cell_of cells.now) (map cell_of q.cells.items) (at q.map.items) q.roots.items)) }
    ensures few { IfOk result (λ merged. IfSome merged (λ q. length q.cells.items ≤ length cells.now)) }
{
    let quotient = guessed_quotient(alloc, cells, order, rules)?;
    if quotient.cells.len() > cells.len() || !quotient.is_right(cells) {
        return Ok(None);
    }
    Ok(Some(quotient))
}

// The cells merged by a guess of classes, right or not.
fn guessed_quotient(
    alloc: Global,
    cells: &[Cell],
    order: &[NetId],
    rules: Rules,
) -> Result<Quotient, NoMemory> {
    let classes = guessed(alloc, cells, order, rules)?;
    let classes = known_anew(alloc, cells, order, classes)?;
    by_classes(alloc, cells, &classes)
}

// The classes, with what is known of them from these cells, pins first: a net that was a complement may have gone to another class
// since.
fn known_anew(
    alloc: Global,
    cells: &[Cell],
    order: &[NetId],
    classes: Classes,
) -> Result<Classes, NoMemory> {
    let mut anew = Classes {
        class: classes.class,
        known: vec![in alloc; Known::Nothing; cells.len()]?,
        rules: classes.rules,
    };
    for net in order {
        if let Some(cell) = cells.get(net.0 as usize) {
            anew.learn_cell(net.0, cell);
        }
    }
    Ok(anew)
}

// One cell for each class.
fn by_classes(alloc: Global, cells: &[Cell], classes: &Classes) -> Result<Quotient, NoMemory> {
    let mut numbers = vec![in alloc; NONE; cells.len()]?;
    let mut roots = Vec::new(alloc);
    let mut merged = Vec::new(alloc);
    let mut net = 0u32;
    for cell in cells {
        let place = classes.of(net) as usize;
        if let Form::Whole(whole) = classes.form(cell) {
            if place < numbers.len() && numbers[place] == NONE {
                numbers[place] = low(roots.len());
                roots.push(net)?;
                merged.push(whole)?;
            }
        }
        net = net.wrapping_add(1);
    }
    for cell in merged.iter_mut() {
        *cell = renamed_cell(&numbers, cell);
    }
    Ok(Quotient {
        cells: merged,
        map: numbered(alloc, classes, &numbers)?,
        roots,
    })
}

// A count of cells, of which there are less than 32 bits can number.
fn low(count: usize) -> u32 {
    if count < NONE as usize {
        count as u32
    } else {
        NONE
    }
}

// The number of each net's class.
fn numbered(alloc: Global, classes: &Classes, numbers: &[u32]) -> Result<Vec<u32>, NoMemory> {
    let mut map = Vec::with_capacity(alloc, classes.class.len())?;
    for class in classes.class.iter() {
        map.push(entry(numbers, *class))?;
    }
    Ok(map)
}

// Each cell for itself.
pub(crate) fn whole(alloc: Global, cells: &[Cell]) -> Result<Quotient, NoMemory>
    requires { length cells.now < 2 ^ 32 }
    ensures cells { IfOk result (λ q. q.cells.items ≡ cells.now) }
    ensures targets { IfOk result (λ q. AreAll (length cells.now) q.map.items) }
    ensures roots { IfOk result (λ q. AreAll (length cells.now) q.roots.items) }
{
    Ok(Quotient {
        cells: cells.to_vec(alloc)?,
        map: all_nets(alloc, cells.len())?,
        roots: all_nets(alloc, cells.len())?,
    })
}

// So many nets.
fn all_nets(alloc: Global, count: usize) -> Result<Vec<u32>, NoMemory>
    requires { count < 2 ^ 32 }
    ensures { IfOk result (λ nets. AreAll count nets.items) }
{
    let mut nets = Vec::new(alloc);
    for n in 0..count {
        nets.push(n as u32)?;
    }
    Ok(nets)
}
