// What is asked of ports and inputs beyond the form of the text.
ghost use Rattle.std.specs.Prelude.{◌≡◌, ◌⊎◌, ◌↔◌, ◌||◌, ℕ, List, not, true, false, IfOk, IsTrue, length, map};
ghost use Rattle.std.specs.List.{AllByRecursion};
ghost use Rattle.std.specs.Str.{bytes_eq};
ghost use Rattle.gos_netlist.specs.Nets.{Input};
ghost use Rattle.gos_netlist.specs.Seen.{cell_of, function_of};
ghost use Rattle.gos_netlist.specs.Writable.{IsWritableCell, IsWritablePort};
ghost use Rattle.gos_netcheck.specs.Rules.{Kept};
ghost use Rattle.gos_netcheck.specs.inner.PortSearch.{has_name};
ghost use Rattle.gos_verilog.specs.PortNets.{port_nets as nets_of};
ghost use Rattle.gos_verilog.specs.Readable.{HasOwnName, HasOwnCell, IsInputCell, IsReadable};
ghost use Rattle.gos_verilog.specs.inner.Inputs.{IsTaken, IsTakenInput, AreFed};

use crate::port_net::PortNet;
use gos_netlist::{Cell, Gate, Port};
use gos_types::NoMemory;
use std::alloc::Global;
use std::collections::HashSet;

// The greatest count of cells and of ports.
const LAST_COUNT: usize = 4_294_967_295;

/// Whether there is a port, ports have names of their own, each input is an Input cell of its own, and each Input cell is
/// an input.
pub fn is_readable(
    alloc: Global,
    cells: &[Cell],
    ports: &[Port],
    nets: &[PortNet],
) -> Result<bool, NoMemory>
    requires cells { AllByRecursion IsWritableCell (map cell_of cells.now) }
    requires ports { AllByRecursion IsWritablePort ports.now }
    requires nets { nets.now ≡ nets_of ports.now }
    ensures readable { IfOk result (λ is. IsTrue is → IsReadable (record { cells = map cell_of cells.now; ports = ports.now })) }
    ensures fed { IfOk result (λ is. IsTrue is → AreFed (nets_of ports.now) (map cell_of cells.now)) }
    ensures whole { IfOk result (λ is. IsReadable (record { cells = map cell_of cells.now; ports = ports.now })
        → AreFed (nets_of ports.now) (map cell_of cells.now) → IsTrue is) }
{
    if ports.is_empty() || ports.len() > LAST_COUNT || cells.len() > LAST_COUNT {
        return Ok(false);
    }
    if !have_own_names(alloc, ports)? {
        return Ok(false);
    }
    are_inputs(alloc, cells, nets)
}

// Whether no two ports have one name.
fn have_own_names(alloc: Global, ports: &[Port]) -> Result<bool, NoMemory>
    ensures { IfOk result (λ own. IsTrue own ↔ Kept (HasOwnName ports.now) ports.now) }
{
    let mut names = HashSet::new(alloc);
    for port in ports {
        if !add_name(&mut names, port.name.bytes())? {
            return Ok(false);
        }
    }
    Ok(true)
}

// Adds a name where it is new, and says whether it is.
fn add_name<'a>(names: &mut HashSet<&'a [u8]>, name: &'a [u8]) -> Result<bool, NoMemory>
    ensures added { IfOk result (λ added. added ≡ not (has_name names.old name.now)) }
    ensures names { IfOk result (λ added. IsTrue added → (b : List ℕ) → has_name names.new b ≡ (bytes_eq b name.now || has_name names.old b)) }
{
    Ok(names.insert(name)?)
}

// Whether each of the nets that is an input is an Input cell of its own, and each Input cell is an input.
fn are_inputs(alloc: Global, cells: &[Cell], nets: &[PortNet]) -> Result<bool, NoMemory>
    ensures inputs { IfOk result (λ are. IsTrue are → Kept (λ _ n. IsInputCell (map cell_of cells.now) n) nets.now) }
    ensures once { IfOk result (λ are. IsTrue are → Kept (HasOwnCell nets.now) nets.now) }
    ensures fed { IfOk result (λ are. IsTrue are → AreFed nets.now (map cell_of cells.now)) }
    ensures whole { IfOk result (λ are. Kept (λ _ n. IsInputCell (map cell_of cells.now) n) nets.now → Kept (HasOwnCell nets.now) nets.now
        → AreFed nets.now (map cell_of cells.now) → IsTrue are) }
{
    let mut taken = vec![in alloc; false; cells.len()]?;
    for net in nets {
        if !take(cells, &mut taken, net) {
            return Ok(false);
        }
    }
    Ok(all_taken(cells, &taken))
}

// Takes the cell that an input is. It says whether it is an Input cell of its bits that was not taken. Other nets take
// nothing.
fn take(cells: &[Cell], taken: &mut Vec<bool>, net: &PortNet) -> bool
    requires { length taken.now.items ≡ length cells.now }
    ensures count { length taken.new.items ≡ length taken.old.items }
    ensures cell { IsTrue result → IsInputCell (map cell_of cells.now) net.now }
    ensures new { IsTrue result → net.now.input ≡ true → IsTaken taken.old.items net.now.cell → ⊥ }
    ensures marks { IsTrue result → net.now.input ≡ true → IsTaken taken.new.items net.now.cell }
    ensures kept { IsTrue result → (n : ℕ) → IsTaken taken.old.items n → IsTaken taken.new.items n }
    ensures whole { IsInputCell (map cell_of cells.now) net.now → (net.now.input ≡ true → IsTaken taken.old.items net.now.cell → ⊥) → IsTrue result }
    ensures only { (n : ℕ) → IsTaken taken.new.items n → IsTaken taken.old.items n ⊎ ((net.now.input ≡ true) × (net.now.cell ≡ n)) }
{
    if !net.input {
        return true;
    }
    let place = net.cell.0 as usize;
    if place >= cells.len() || taken[place] {
        return false;
    }
    taken[place] = true;
    is_input(cells[place].gate) && cells[place].width == net.width
}

// Whether each Input cell is taken.
fn all_taken(cells: &[Cell], taken: &[bool]) -> bool
    requires { length taken.now ≡ length cells.now }
    ensures { IsTrue result ↔ Kept (IsTakenInput taken.now) (map cell_of cells.now) }
{
    for (n, cell) in cells.iter().enumerate() {
        if is_input(cell.gate) && !taken[n] {
            return false;
        }
    }
    true
}

// Whether the gate is that of an Input cell.
fn is_input(gate: Gate) -> bool
    ensures { IsTrue result ↔ (function_of gate ≡ Input) }
{
    matches!(gate, Gate::Input)
}
