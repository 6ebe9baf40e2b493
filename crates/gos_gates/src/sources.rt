// The nets of a netlist's ends: where its ports come in and go out, and its registers.
ghost use Rattle.std.specs.Prelude.{◌≡◌, ◌<◌, ◌+◌, ◌*◌, ◌^◌, ◌++◌, ℕ, not, filter, length, map, sum_by, All, IfOk, OnOk};
ghost use Rattle.gos_netlist.specs.Seen.{cell_of, function_of, number_of};
ghost use Rattle.gos_gates.specs.Lowered.{function_at, is_input, port_nets, registers, width_of};
ghost use Rattle.gos_gates.specs.inner.Laying.{IsNarrow, held_nets, literals_at, with_sources};

use crate::draft::Draft;
use gos_netlist::{Cell, Gate, NetId, Port};
use gos_types::NoMemory;
use std::alloc::Global;

// The nets at which ports come in, and the others, at which they go out.
#[derive(Drop)]
pub struct Ends {
    pub inputs: Vec<u32>,
    pub outputs: Vec<u32>,
}

// Whether a net is driven by an Input cell.
fn comes_in(cells: &[Cell], net: NetId) -> bool
    ensures { result ≡ is_input (function_at (map cell_of cells.now) net.0) }
{
    match cells.get(net.0 as usize) {
        Some(cell) => matches!(cell.gate, Gate::Input),
        None => true,
    }
}

impl Ends {
    // Adds nets of a port.
    fn add(&mut self, cells: &[Cell], nets: &[NetId]) -> Result<(), NoMemory>
        ensures inputs { OnOk result (self.new.inputs.items ≡
            self.old.inputs.items ++ filter (λ n. is_input (function_at (map cell_of cells.now) n)) (map number_of nets.now)) }
        ensures outputs { OnOk result (self.new.outputs.items ≡
            self.old.outputs.items ++ filter (λ n. not (is_input (function_at (map cell_of cells.now) n))) (map number_of nets.now)) }
    {
        for net in nets {
            if comes_in(cells, *net) {
                self.inputs.push(net.0)?;
            } else {
                self.outputs.push(net.0)?;
            }
        }
        Ok(())
    }
}

// The ends of all ports, port by port.
pub fn ends_of(alloc: Global, cells: &[Cell], ports: &[Port]) -> Result<Ends, NoMemory>
    ensures inputs { IfOk result (λ ends. ends.inputs.items ≡ filter (λ n. is_input (function_at (map cell_of cells.now) n)) (port_nets ports.now)) }
    ensures outputs { IfOk result (λ ends. ends.outputs.items ≡ filter (λ n. not (is_input (function_at (map cell_of cells.now) n))) (port_nets ports.now)) }
{
    let mut ends = Ends {
        inputs: Vec::new(alloc),
        outputs: Vec::new(alloc),
    };
    for port in ports {
        ends.add(cells, &port.nets)?;
    }
    Ok(ends)
}

// The registers, by number.
pub fn registers_of(alloc: Global, cells: &[Cell]) -> Result<Vec<u32>, NoMemory>
    requires { length cells.now < 2 ^ 32 }
    ensures { IfOk result (λ nets. nets.items ≡ registers (map cell_of cells.now)) }
{
    let mut nets = Vec::new(alloc);
    for (n, cell) in cells.iter().enumerate() {
        if matches!(cell.gate, Gate::Reg(_)) {
            nets.push(n as u32)?;
        }
    }
    Ok(nets)
}

// The nets that registers take over, by the registers' numbers.
pub fn held_of(alloc: Global, cells: &[Cell]) -> Result<Vec<u32>, NoMemory>
    ensures { IfOk result (λ nets. nets.items ≡ held_nets (map cell_of cells.now)) }
{
    let mut nets = Vec::new(alloc);
    for cell in cells {
        if let Gate::Reg(a) = cell.gate {
            nets.push(a.0)?;
        }
    }
    Ok(nets)
}

// Gives each bit of these nets a variable.
pub fn give_all(
    draft: &mut Draft,
    cells: &[Cell],
    nets: &[u32],
    bits: &mut Vec<u32>,
) -> Result<(), NoMemory>
    requires count { length draft.old.nets ≡ length cells.now }
    requires nets { All (λ n. n < length cells.now) nets.now }
    requires room { draft.old.base + sum_by (width_of (map cell_of cells.now)) nets.now < 2 ^ 31 }
    requires narrow { IsNarrow (map cell_of cells.now) draft.old }
    ensures given { OnOk result (draft.new ≡ with_sources (map cell_of cells.now) nets.now draft.old) }
    ensures count { OnOk result (length draft.new.nets ≡ length draft.old.nets) }
    ensures base { OnOk result (draft.new.base ≡ draft.old.base + sum_by (width_of (map cell_of cells.now)) nets.now) }
    ensures gates { OnOk result (draft.new.gates ≡ draft.old.gates) }
    ensures narrow { OnOk result (IsNarrow (map cell_of cells.now) draft.new) }
{
    for net in nets {
        let place = *net as usize;
        draft.give(place, cells[place].width, bits)?;
    }
    Ok(())
}

// The literals of nets, one net behind another.
pub fn literals_of_all(alloc: Global, draft: &Draft, nets: &[u32]) -> Result<Vec<u32>, NoMemory>
    requires { All (λ n. n < length draft.now.nets) nets.now }
    ensures { IfOk result (λ literals. literals.items ≡ literals_at draft.now nets.now) }
{
    let mut literals = Vec::new(alloc);
    for net in nets {
        literals.extend_from_slice(draft.literals_of(*net as usize))?;
    }
    Ok(literals)
}
