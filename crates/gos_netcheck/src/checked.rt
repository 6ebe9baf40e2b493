// The acceptance test, and the netlists that pass it.
ghost use Rattle.std.specs.Prelude.{◌≡◌, ◌<◌, ◌≤◌, ◌^◌, IfOk, IfErr, map, length};
ghost use Rattle.gos_netlist.specs.Seen.{number_of};
ghost use Rattle.gos_netcheck.specs.Schedule.{IsSchedule};
ghost use Rattle.gos_netcheck.specs.Levels.{AreLevels};
ghost use Rattle.gos_netcheck.specs.Accepted.{IsAccepted, HasFault};

use crate::cells::first_wrong_cell;
use crate::fault::{NetFault, Refused};
use crate::levels::levels_of;
use crate::ports::first_wrong_port;
use crate::schedule::schedule;
use gos_netlist::{NetId, Netlist};
use gos_types::NoMemory;
use std::alloc::Global;
use std::marker::Model;

/// A netlist that was accepted, with an order in which its nets can be evaluated.
#[derive(Debug, Drop)]
pub struct Checked {
    net: Netlist,
    order: Vec<NetId>,
}

impl Model for Checked {
    ghost use Rattle.std.specs.Prelude.{◌<◌, ◌^◌, length, map};
    ghost use Rattle.std.specs.Coded.{codes};
    ghost use Rattle.gos_types.specs.inner.TypeCode.{type_code};
    ghost use Rattle.gos_netlist.specs.Nets.{Netlist as Circuit};

    ghost Value = { Circuit };

    ghost coded = { Prim.hlevel (codes, type_code) };

    ghost use Rattle.gos_netlist.specs.Seen.{number_of};
    ghost use Rattle.gos_netcheck.specs.Schedule.{IsSchedule};
    ghost use Rattle.gos_netcheck.specs.Accepted.{IsAccepted};

    ghost view = { λ c. c.net };

    ghost invariant = { λ c. IsAccepted c.net × IsSchedule c.net.cells (map number_of c.order.items) × (length c.net.cells < 2 ^ 32) };
}

impl Checked {
    /// The netlist. It has no more cells than 32 bits can number.
    pub fn netlist(&self) -> &Netlist
        ensures value { result.now ≡ self.now }
        ensures accepted { IsAccepted self.now }
        ensures few { length self.now.cells < 2 ^ 32 }
    {
        &self.net
    }

    /// The netlist, taken out.
    pub fn into_netlist(self) -> Netlist
        ensures value { result ≡ self }
        ensures accepted { IsAccepted self }
    {
        self.net
    }

    /// All nets, each behind all that feeds its cell. A register is fed by none, since it shows what its pin was before.
    pub fn schedule(&self) -> &[NetId]
        ensures schedule { IsSchedule self.now.cells (map number_of result.now) }
        ensures few { length result.now ≤ length self.now.cells }
    {
        self.order.as_slice()
    }

    /// The level of each cell: 0 where it is an input, a constant or a register, else one more than the greatest of its
    /// pins. `Err` is want of memory alone.
    pub fn levels(&self, alloc: Global) -> Result<Vec<u32>, NoMemory>
        ensures { IfOk result (λ levels. AreLevels self.now.cells levels.items) }
    {
        levels_of(alloc, &self.net.cells, &self.order)
    }
}

/// Accepts a netlist, or hands it back with the first of its faults.
pub fn accept(alloc: Global, net: Netlist) -> Result<Checked, Refused>
    requires { length net.cells < 2 ^ 32 }
    ensures ok { IfOk result (λ checked. checked ≡ net) }
    ensures accepted { IfOk result IsAccepted }
    ensures fault { IfErr result (λ refused. HasFault net refused.fault) }
    ensures back { IfErr result (λ refused. refused.net ≡ net) }
{
    match judged(alloc, &net) {
        Ok(order) => Ok(Checked { net, order }),
        Err(fault) => Err(Refused { fault, net }),
    }
}

// The schedule of a netlist that has no fault, or the first fault.
fn judged(alloc: Global, net: &Netlist) -> Result<Vec<NetId>, NetFault>
    requires { length net.now.cells < 2 ^ 32 }
    ensures accepted { IfOk result (λ _. IsAccepted net.now) }
    ensures schedule { IfOk result (λ order. IsSchedule net.now.cells (map number_of order.items)) }
    ensures fault { IfErr result (HasFault net.now) }
{
    if let Some(fault) = first_wrong_cell(&net.cells) {
        return Err(fault);
    }
    if let Some(index) = first_wrong_port(alloc, &net.cells, &net.ports)? {
        return Err(NetFault::Port { index });
    }
    schedule(alloc, &net.cells)
}
