// A plan that is laid out in a pool that has cells already.
ghost use Rattle.std.specs.Prelude.{◌≡◌, ◌∷◌, ◌≤◌, ◌<◌, ◌+◌, ◌++◌, None, Some, length, map, All, OnOk, OnErr, IfOk};
ghost use Rattle.std.specs.List.{AllByRecursion};
ghost use Rattle.gos_types.specs.Types.{type_of, IsGround, IsDone};
ghost use Rattle.gos_netlist.specs.Nets.{pins};
ghost use Rattle.gos_netlist.specs.Seen.{cell_of, function_of, number_of};
ghost use Rattle.gos_pool.specs.Pools.{KeepsClosed};
ghost use Rattle.gos_netcheck.specs.Accepted.{IsAccepted};
ghost use Rattle.gos_plan.specs.Seen.{plan_of};
ghost use Rattle.gos_plan.specs.Size.{plan_size};
ghost use Rattle.gos_expand.specs.Acceptance.{AreDifferent};
ghost use Rattle.gos_expand.specs.Into.{raised_cell, raised_port, LaysInto};
ghost use Rattle.gos_expand.specs.inner.Raised.{raised_net};

use crate::whole::{Policy, expand};
use gos_lex::Name;
use gos_netlist::{Cell, NetId, Netlist, Port};
use gos_plan::Plan;
use gos_pool::{NetPool, Region};
use gos_types::NoMemory;
use std::alloc::Global;

/// Lays a plan out behind the cells of a pool, in a region of its own, and gives its ports: the netlist of `expand`,
/// each of whose nets is higher by the number of the cells that were there.
///
/// What is asked is the same as of `expand`; and no region may be begun, and the pool may have 100,000,000 cells at
/// most. `Err` is want of memory alone, and leaves the pool as it was.
pub fn expand_into(
    alloc: Global,
    pool: &mut NetPool,
    plan: &Plan,
    root: &Name,
    policy: Policy,
) -> Result<Vec<Port>, NoMemory>
    requires result { IsDone (type_of plan.now.outcome) }
    requires ground { All (λ i. IsGround (type_of i.ty)) plan.now.imports }
    requires names { AreDifferent (root.now ∷ map (λ i. i.name) plan.now.imports) }
    requires size { plan_size (plan_of plan.now) ≤ 5000000 }
    requires ports { length plan.now.imports + 1 ≤ 65536 }
    requires begun { pool.old.begun ≡ None }
    requires cells { length pool.old.cells ≤ 100000000 }
    ensures laid { IfOk result (λ ports. LaysInto policy (plan_of plan.now) root.now pool.old pool.new ports.items) }
    ensures few { OnOk result (length pool.new.cells ≤ length pool.old.cells + plan_size (plan_of plan.now)) }
    ensures err { OnErr result (pool.new ≡ pool.old) }

    // Regions that were closed stay so, with their cells, and none is begun.
    ensures begun { pool.new.begun ≡ None }
    ensures kept { KeepsClosed pool.old pool.new }
{
    let net = expand(alloc, plan, root, policy)?;
    append(pool, net)
}

// Puts a netlist behind the cells of a pool, in a region of its own, and gives its ports there.
fn append(pool: &mut NetPool, net: Netlist) -> Result<Vec<Port>, NoMemory>
    requires accepted { IsAccepted net }
    requires few { length net.cells ≤ 5000000 }
    requires begun { pool.old.begun ≡ None }
    requires cells { length pool.old.cells ≤ 100000000 }
    ensures cells { OnOk result (pool.new.cells ≡ pool.old.cells ++ map (raised_cell (length pool.old.cells)) net.cells) }
    ensures ports { IfOk result (λ ports. ports.items ≡ map (raised_port (length pool.old.cells)) net.ports) }
    ensures err { OnErr result (pool.new ≡ pool.old) }
    ensures begun { pool.new.begun ≡ None }
    ensures kept { KeepsClosed pool.old pool.new }
{
    let Netlist { cells, mut ports } = net;
    pool.reserve(cells.len() + 1)?;
    let mut region = pool.begin();
    let by = region.start();
    place_raised(pool, &mut region, &cells, by);
    pool.finish(region);
    raise_ports(&mut ports, by);
    Ok(ports)
}

// Places cells whose pins are so many nets further on.
fn place_raised(pool: &mut NetPool, region: &mut Region, cells: &[Cell], by: u32)
    requires pins { All (λ c. AllByRecursion (λ a. a < 5000000) (pins (function_of c.gate))) cells.now }
    requires by { by ≤ 100000000 }
    requires begun { pool.old.begun ≡ Some region.old }
    requires spare { length cells.now ≤ pool.old.spare }
    ensures cells { pool.new.cells ≡ pool.old.cells ++ map (raised_cell by) (map cell_of cells.now) }
    ensures spare { pool.old.spare ≡ pool.new.spare + length cells.now }
    ensures begun { pool.new.begun ≡ pool.old.begun }
    ensures kept { KeepsClosed pool.old pool.new }
    ensures region { region.new ≡ region.old }
{
    for cell in cells {
        pool.place(region, raised_cell(*cell, by));
    }
}

// A cell whose pins are so many nets further on.
fn raised_cell(cell: Cell, by: u32) -> Cell
    requires pins { AllByRecursion (λ a. a < 5000000) (pins (function_of cell.gate)) }
    requires by { by ≤ 100000000 }
    ensures { cell_of result ≡ raised_cell by (cell_of cell) }
{
    Cell {
        width: cell.width,
        gate: cell.gate.renamed(|net| raised_net(net, by)),
    }
}

// The net so many places further on.
fn raised_net(net: NetId, by: u32) -> NetId
    requires net { number_of net < 5000000 }
    requires by { by ≤ 100000000 }
    ensures { result ≡ raised_net by net }
{
    NetId(net.0 + by)
}

// Has ports name the nets so many places further on.
fn raise_ports(ports: &mut [Port], by: u32)
    requires nets { All (λ p. All (λ a. a < 5000000) p.nets) ports.old }
    requires by { by ≤ 100000000 }
    ensures { ports.new ≡ map (raised_port by) ports.old }
{
    for port in ports.iter_mut() {
        raise_port(port, by);
    }
}

// Has a port name the nets so many places further on.
fn raise_port(port: &mut Port, by: u32)
    requires nets { All (λ a. a < 5000000) port.old.nets }
    requires by { by ≤ 100000000 }
    ensures { port.new ≡ raised_port by port.old }
{
    raise_nets(&mut port.nets, by);
}

// Has nets be so many places further on.
fn raise_nets(nets: &mut [NetId], by: u32)
    requires nets { All (λ n. number_of n < 5000000) nets.old }
    requires by { by ≤ 100000000 }
    ensures { nets.new ≡ map (raised_net by) nets.old }
{
    for net in nets.iter_mut() {
        *net = raised_net(*net, by);
    }
}
