// Leaving out cells that lead nowhere.
ghost use Rattle.std.specs.Prelude.{◌≡◌, ◌++◌, ◌<◌, ◌≤◌, ◌^◌, All, IfOk, OnOk, map, length, vec_len, ◌∷◌, [], if◌then◌else◌};
ghost use Rattle.gos_netlist.specs.Seen.{cell_of, number_of};
ghost use Rattle.gos_netlist.specs.Settling.{at};
ghost use Rattle.gos_netcheck.specs.Accepted.{IsAccepted};
ghost use Rattle.gos_tidy.specs.Ends.{with_nets};
ghost use Rattle.gos_tidy.specs.Reduced.{IsQuotient, IsReduced};
ghost use Rattle.gos_tidy.specs.inner.Changes.{size};
ghost use Rattle.gos_tidy.specs.inner.Marks.{AreMarks};
ghost use Rattle.gos_tidy.specs.Tidy.{AllLead};
ghost use Rattle.gos_tidy.specs.inner.Places.{AreNumbers, ArePlaced, port_nets};

use crate::marking::marked;
use crate::quotient::Quotient;
use crate::renaming::{entry, renamed_cell};
use gos_lex::Name;
use gos_netlist::{Cell, NetId, Netlist, Port};
use gos_types::NoMemory;
use std::alloc::Global;

// Where cells go that stay.
#[derive(Debug, Drop)]
struct Numbers {
    // The number of each cell that stays, and of others the number that the next one has.
    numbers: Vec<u32>,
    // Where each of them stood.
    places: Vec<u32>,
}

// What is left of a netlist whose cells are merged: of the merged cells the inputs and what leads to an output.
pub(crate) fn left(alloc: Global, net: &Netlist, quotient: &Quotient) -> Result<Netlist, NoMemory>
    requires accepted { IsAccepted net.now }
    requires few { length quotient.now.cells.items < 2 ^ 32 }
    requires merged { IsQuotient net.now.cells (map cell_of quotient.now.cells.items) (at quotient.now.map.items) quotient.now.roots.items }
    ensures reduced { IfOk result (λ other. IsReduced net.now other) }
    ensures lead { IfOk result (λ other. AllLead other.cells (port_nets other.ports)) }
    ensures size { IfOk result (λ other. size other.cells ≤ size (map cell_of quotient.now.cells.items)) }
{
    let ends = ends_of(alloc, &net.ports, &quotient.map)?;
    let marks = marked(alloc, &quotient.cells, &ends)?;
    let numbers = numbered(alloc, &marks)?;
    let cells = placed(alloc, &quotient.cells, &numbers.numbers, &numbers.places)?;
    let ports = moved_ports(alloc, &net.ports, &quotient.map, &numbers.numbers)?;
    Ok(Netlist { cells, ports })
}

// The nets of all ports, where nets go to others.
fn ends_of(alloc: Global, ports: &[Port], targets: &[u32]) -> Result<Vec<u32>, NoMemory>
    ensures { IfOk result (λ ends. ends.items ≡ map (at targets.now) (port_nets ports.now)) }
{
    let mut ends = Vec::new(alloc);
    for port in ports {
        add_ends(&mut ends, &port.nets, targets)?;
    }
    Ok(ends)
}

// Adds the nets of a port, where nets go to others.
fn add_ends(ends: &mut Vec<u32>, nets: &[NetId], targets: &[u32]) -> Result<(), NoMemory>
    ensures { OnOk result (ends.new.items ≡ ends.old.items ++ map (at targets.now) (map number_of nets.now)) }
{
    for net in nets {
        ends.push(entry(targets, net.0))?;
    }
    Ok(())
}

// The numbers of the cells that are marked.
fn numbered(alloc: Global, marks: &[bool]) -> Result<Numbers, NoMemory>
    requires { length marks.now < 2 ^ 32 }
    ensures { IfOk result (λ n. AreNumbers marks.now (length marks.now) n.numbers.items n.places.items) }
{
    let mut numbers = Numbers {
        numbers: Vec::new(alloc),
        places: Vec::new(alloc),
    };
    for (n, mark) in marks.iter().enumerate() {
        numbers.add(n as u32, *mark)?;
    }
    Ok(numbers)
}

impl Numbers {
    // Numbers a net, which has its place if it is marked.
    fn add(&mut self, net: u32, mark: bool) -> Result<(), NoMemory>
        requires { vec_len self.old.places < 2 ^ 32 }
        ensures numbers { OnOk result (self.new.numbers.items ≡ self.old.numbers.items ++ vec_len self.old.places ∷ []) }
        ensures places { OnOk result (self.new.places.items ≡ (if mark then self.old.places.items ++ net ∷ [] else self.old.places.items)) }
    {
        self.numbers.push(self.places.len() as u32)?;
        if mark {
            self.places.push(net)?;
        }
        Ok(())
    }
}

// The cells at these places, whose nets have these numbers.
pub(crate) fn placed(
    alloc: Global,
    cells: &[Cell],
    numbers: &[u32],
    places: &[u32],
) -> Result<Vec<Cell>, NoMemory>
    requires { All (λ p. p < length cells.now) places.now }
    ensures { IfOk result (λ left. ArePlaced (map cell_of cells.now) (map cell_of left.items) numbers.now places.now (length places.now)) }
{
    let mut left = Vec::new(alloc);
    for place in places {
        left.push(renamed_cell(numbers, &cells[*place as usize]))?;
    }
    Ok(left)
}

// Ports, where nets go to others, which have these numbers.
fn moved_ports(
    alloc: Global,
    ports: &[Port],
    targets: &[u32],
    numbers: &[u32],
) -> Result<Vec<Port>, NoMemory>
    ensures { IfOk result (λ moved. moved.items ≡ map (with_nets (λ n. at numbers.now (at targets.now n))) ports.now) }
{
    let mut moved = Vec::new(alloc);
    for port in ports {
        moved.push(moved_port(alloc, port, targets, numbers)?)?;
    }
    Ok(moved)
}

// A port, where nets go to others, which have these numbers.
fn moved_port(
    alloc: Global,
    port: &Port,
    targets: &[u32],
    numbers: &[u32],
) -> Result<Port, NoMemory>
    ensures { IfOk result (λ moved. moved ≡ with_nets (λ n. at numbers.now (at targets.now n)) port.now) }
{
    Ok(Port {
        name: copied(alloc, &port.name)?,
        side: port.side,
        ground: port.ground,
        nets: moved_nets(alloc, &port.nets, targets, numbers)?,
    })
}

// Nets, which go to others, which have these numbers.
fn moved_nets(
    alloc: Global,
    nets: &[NetId],
    targets: &[u32],
    numbers: &[u32],
) -> Result<Vec<NetId>, NoMemory>
    ensures { IfOk result (λ moved. map number_of moved.items ≡ map (λ n. at numbers.now (at targets.now n)) (map number_of nets.now)) }
{
    let mut moved = Vec::new(alloc);
    for net in nets {
        moved.push(NetId(entry(numbers, entry(targets, net.0))))?;
    }
    Ok(moved)
}

// A name once more.
pub(crate) fn copied(alloc: Global, name: &Name) -> Result<Name, NoMemory>
    ensures { IfOk result (λ copy. copy ≡ name.now) }
{
    match Name::new(alloc, name.bytes()) {
        Ok(copy) => Ok(copy),
        Err(_) => Err(NoMemory),
    }
}
