// The rounds in which a netlist is made smaller.
ghost use Rattle.std.specs.Prelude.{◌<◌, ◌≤◌, ◌^◌, IfOk, IfSome, IsNone, length, map};
ghost use Rattle.gos_netlist.specs.Seen.{cell_of};
ghost use Rattle.gos_netlist.specs.Settling.{at};
ghost use Rattle.gos_netcheck.specs.Accepted.{IsAccepted};
ghost use Rattle.gos_tidy.specs.Alike.{IsTidied};
ghost use Rattle.gos_tidy.specs.Reduced.{IsQuotient, IsReduced, Reduces};
ghost use Rattle.gos_tidy.specs.Steady.{IsSteadied};
ghost use Rattle.gos_tidy.specs.Tidy.{AllLead};
ghost use Rattle.gos_tidy.specs.inner.Breaches.{AllFirm, IsBreach};
ghost use Rattle.gos_tidy.specs.inner.Changes.{AreSound, size};
ghost use Rattle.gos_tidy.specs.inner.Places.{port_nets};

use crate::breach::{Breach, Change, first_breach};
use crate::change::{with_number, without};
use crate::drop::left;
use crate::merge::{merged, whole};
use crate::order::ordered;
use crate::quotient::Quotient;
use crate::size::netlist_size;
use crate::steady::steadied;
use gos_netcheck::Checked;
use gos_netlist::{Cell, NetId, Netlist};
use gos_types::NoMemory;
use std::alloc::Global;

// How often cells are made constants that show one number for ever, and cells merged then, at most.
const STEADY_ROUNDS: u32 = 4;

// The netlist, made tidy: first all cells are merged that a guess of classes takes together, and those become constants that show
// one number for ever. While a cell is left that may be changed, cells are merged once more, or this one is changed.
pub(crate) fn rounds(alloc: Global, net: &Checked) -> Result<Netlist, NoMemory>
    ensures tidied { IfOk result (IsTidied net.now) }
    ensures few { IfOk result (λ other. length other.cells < 2 ^ 32) }
{
    let mut other = steady_rounds(alloc, net)?;
    loop {
        match next_round(alloc, &other)? {
            Some(next) => other = next,
            None => return Ok(other),
        }
    }
}

// The netlist with its cells merged, and then its steady cells as constants, and merged again, as often as that makes it smaller,
// but not too often: which cells are steady may come to light only once others are merged.
fn steady_rounds(alloc: Global, net: &Checked) -> Result<Netlist, NoMemory>
    ensures given { IfOk result (λ _. IsAccepted net.now) }
    ensures reduces { IfOk result (Reduces net.now) }
    ensures accepted { IfOk result IsAccepted }
    ensures few { IfOk result (λ other. length other.cells < 2 ^ 32) }
    ensures lead { IfOk result (λ other. AllLead other.cells (port_nets other.ports)) }
{
    let mut other = first_round(alloc, net.netlist(), net.schedule())?;
    for _ in 0..STEADY_ROUNDS {
        match steady_round(alloc, &other)? {
            Some(next) => other = next,
            None => return Ok(other),
        }
    }
    Ok(other)
}

// The netlist, whose cells can be evaluated in this order, with all its cells merged at once.
fn first_round(alloc: Global, net: &Netlist, order: &[NetId]) -> Result<Netlist, NoMemory>
    requires accepted { IsAccepted net.now }
    requires few { length net.now.cells < 2 ^ 32 }
    ensures reduced { IfOk result (λ other. IsReduced net.now other) }
    ensures lead { IfOk result (λ other. AllLead other.cells (port_nets other.ports)) }
{
    match merged(alloc, &net.cells, order)? {
        Some(quotient) => left(alloc, net, &quotient),
        None => {
            let quotient = whole(alloc, &net.cells)?;
            left(alloc, net, &quotient)
        }
    }
}

// The netlist with its steady cells as constants, and merged then, where that makes it smaller.
fn steady_round(alloc: Global, net: &Netlist) -> Result<Option<Netlist>, NoMemory>
    requires accepted { IsAccepted net.now }
    requires few { length net.now.cells < 2 ^ 32 }
    ensures reduces { IfOk result (λ found. IfSome found (Reduces net.now)) }
    ensures lead { IfOk result (λ found. IfSome found (λ other. AllLead other.cells (port_nets other.ports))) }
{
    match steadied(alloc, net)? {
        Some(mid) => after_steady(alloc, net, &mid),
        None => Ok(None),
    }
}

// The netlist, whose steady cells are constants in another one, with these merged, where that makes it smaller.
fn after_steady(alloc: Global, net: &Netlist, mid: &Netlist) -> Result<Option<Netlist>, NoMemory>
    requires accepted { IsAccepted net.now }
    requires few { length net.now.cells < 2 ^ 32 }
    requires steadied { IsSteadied net.now mid.now }
    ensures reduces { IfOk result (λ found. IfSome found (Reduces net.now)) }
    ensures lead { IfOk result (λ found. IfSome found (λ other. AllLead other.cells (port_nets other.ports))) }
{
    match merged_below(alloc, mid, netlist_size(net))? {
        Some(other) => Ok(Some(other)),
        None => Ok(None),
    }
}

// The netlist with cells merged or changed, where a cell may be changed; None where none may.
fn next_round(alloc: Global, net: &Netlist) -> Result<Option<Netlist>, NoMemory>
    requires accepted { IsAccepted net.now }
    requires few { length net.now.cells < 2 ^ 32 }
    ensures reduced { IfOk result (λ found. IfSome found (IsReduced net.now)) }
    ensures lead { IfOk result (λ found. IfSome found (λ other. AllLead other.cells (port_nets other.ports))) }
    ensures smaller { IfOk result (λ found. IfSome found (λ other. size other.cells < size net.now.cells)) }
    ensures firm { IfOk result (λ found. IsNone found → AllFirm net.now.cells) }
{
    match next_quotient(alloc, &net.cells)? {
        Some(quotient) => Ok(Some(smaller(alloc, net, &quotient)?)),
        None => Ok(None),
    }
}

// The netlist with its cells merged once more, or else with one changed, as in this quotient.
fn smaller(alloc: Global, net: &Netlist, quotient: &Quotient) -> Result<Netlist, NoMemory>
    requires accepted { IsAccepted net.now }
    requires few { length net.now.cells < 2 ^ 32 }
    requires no_more { length quotient.now.cells.items < 2 ^ 32 }
    requires quotient { IsQuotient net.now.cells (map cell_of quotient.now.cells.items) (at quotient.now.map.items) quotient.now.roots.items }
    requires smaller { size (map cell_of quotient.now.cells.items) < size net.now.cells }
    ensures reduced { IfOk result (IsReduced net.now) }
    ensures lead { IfOk result (λ other. AllLead other.cells (port_nets other.ports)) }
    ensures smaller { IfOk result (λ other. size other.cells < size net.now.cells) }
{
    match merged_below(alloc, net, netlist_size(net))? {
        Some(other) => Ok(other),
        None => left(alloc, net, quotient),
    }
}

// The netlist with its cells merged, where it counts for less than a bound then.
fn merged_below(alloc: Global, net: &Netlist, bound: u64) -> Result<Option<Netlist>, NoMemory>
    requires accepted { IsAccepted net.now }
    requires few { length net.now.cells < 2 ^ 32 }
    ensures reduced { IfOk result (λ found. IfSome found (IsReduced net.now)) }
    ensures lead { IfOk result (λ found. IfSome found (λ other. AllLead other.cells (port_nets other.ports))) }
    ensures below { IfOk result (λ found. IfSome found (λ other. size other.cells < bound)) }
{
    let order = ordered(alloc, &net.cells)?;
    let other = first_round(alloc, net, &order)?;
    if netlist_size(&other) < bound {
        Ok(Some(other))
    } else {
        Ok(None)
    }
}

// The cells with the first one changed that may be; None where none may.
fn next_quotient(alloc: Global, cells: &[Cell]) -> Result<Option<Quotient>, NoMemory>
    requires sound { AreSound (map cell_of cells.now) }
    requires few { length cells.now < 2 ^ 32 }
    ensures right { IfOk result (λ found. IfSome found (λ q. IsQuotient (map cell_of cells.now) (map cell_of q.cells.items) (at q.map.items) q.roots.items)) }
    ensures few { IfOk result (λ found. IfSome found (λ q. length q.cells.items ≤ length cells.now)) }
    ensures smaller { IfOk result (λ o. IfSome o (λ q. size (map cell_of q.cells.items) < size (map cell_of cells.now))) }
    ensures firm { IfOk result (λ found. IsNone found → AllFirm (map cell_of cells.now)) }
{
    match first_breach(alloc, cells)? {
        Some(breach) => Ok(Some(changed(alloc, cells, breach)?)),
        None => Ok(None),
    }
}

// The cells with one changed.
fn changed(alloc: Global, cells: &[Cell], breach: Breach) -> Result<Quotient, NoMemory>
    requires sound { AreSound (map cell_of cells.now) }
    requires few { length cells.now < 2 ^ 32 }
    requires breach { IsBreach (map cell_of cells.now) breach }
    ensures quotient { IfOk result (λ q. IsQuotient (map cell_of cells.now) (map cell_of q.cells.items) (at q.map.items) q.roots.items) }
    ensures few { IfOk result (λ q. length q.cells.items ≤ length cells.now) }
    ensures smaller { IfOk result (λ q. size (map cell_of q.cells.items) < size (map cell_of cells.now)) }
{
    match breach.change {
        Change::Number(number) => with_number(alloc, cells, breach.net, number),
        Change::Net(to) => without(alloc, cells, breach.net, to),
    }
}
