// Which cells stay: the inputs, and what leads to an output.
ghost use Rattle.std.specs.Prelude.{◌≡◌, ◌∷◌, [], ◌<◌, ◌≤◌, ◌^◌, All, IfOk, OnOk, map, length, vec_len, replicate, false};
ghost use Rattle.gos_netlist.specs.Nets.{pins};
ghost use Rattle.gos_netlist.specs.Seen.{cell_of, function_of};
ghost use Rattle.gos_netcheck.specs.CellRules.{NetsExist};
ghost use Rattle.gos_tidy.specs.inner.Marks.{AreMarks, Grows, IsSearch, if_input};

use gos_netlist::{Cell, Gate, NetId};
use gos_types::NoMemory;
use std::alloc::Global;

// Where the search stands.
#[derive(Debug, Drop)]
struct Marking {
    // Whether a net has been found.
    marks: Vec<bool>,
    // The nets that have been.
    found: Vec<u32>,
}

// Marks of the inputs, of the nets at which something leads somewhere, and of all that these cells name in turn.
pub(crate) fn marked(alloc: Global, cells: &[Cell], ends: &[u32]) -> Result<Vec<bool>, NoMemory>
    requires few { length cells.now < 2 ^ 32 }
    requires nets { NetsExist (map cell_of cells.now) }
    requires ends { All (λ n. n < length cells.now) ends.now }
    ensures { IfOk result (λ marks. AreMarks (map cell_of cells.now) ends.now marks.items) }
{
    let mut marking = begun(alloc, cells, ends)?;
    let mut next = 0;
    while next < marking.found.len() {
        let net = marking.found[next] as usize;
        marking.mark_pins(cells[net].gate)?;
        next += 1;
    }
    Ok(marking.marks)
}

// The search, where the inputs and the ends have been found.
fn begun(alloc: Global, cells: &[Cell], ends: &[u32]) -> Result<Marking, NoMemory>
    requires few { length cells.now < 2 ^ 32 }
    requires ends { All (λ n. n < length cells.now) ends.now }
    ensures { IfOk result (λ s. IsSearch (map cell_of cells.now) ends.now s.marks.items s.found.items (length cells.now) (length ends.now) 0) }
{
    let mut marking = unmarked(alloc, cells.len())?;
    for (n, cell) in cells.iter().enumerate() {
        marking.mark_input(NetId(n as u32), cell.gate)?;
    }
    for end in ends {
        marking.mark(NetId(*end))?;
    }
    Ok(marking)
}

// The search, where none of so many nets has been found.
fn unmarked(alloc: Global, count: usize) -> Result<Marking, NoMemory>
    ensures marks { IfOk result (λ s. s.marks.items ≡ replicate count false) }
    ensures found { IfOk result (λ s. s.found.items ≡ []) }
{
    Ok(Marking {
        marks: vec![in alloc; false; count]?,
        found: Vec::new(alloc),
    })
}

impl Marking {
    // Marks a net.
    fn mark(&mut self, net: NetId) -> Result<(), NoMemory>
        requires { net.0 < vec_len self.old.marks }
        ensures { OnOk result (Grows (net.0 ∷ []) self.old.marks.items self.old.found.items self.new.marks.items self.new.found.items) }
    {
        let place = net.0 as usize;
        if self.marks[place] {
            return Ok(());
        }
        self.marks[place] = true;
        self.found.push(net.0)?;
        Ok(())
    }

    // Marks a net if this gate of its cell is an input.
    fn mark_input(&mut self, net: NetId, gate: Gate) -> Result<(), NoMemory>
        requires { net.0 < vec_len self.old.marks }
        ensures { OnOk result (Grows (if_input net.0 (function_of gate)) self.old.marks.items self.old.found.items self.new.marks.items self.new.found.items) }
    {
        match gate {
            Gate::Input => self.mark(net),
            _ => Ok(()),
        }
    }

    // Marks the nets that a gate names.
    fn mark_pins(&mut self, gate: Gate) -> Result<(), NoMemory>
        requires { All (λ a. a < vec_len self.old.marks) (pins (function_of gate)) }
        ensures { OnOk result (Grows (pins (function_of gate)) self.old.marks.items self.old.found.items self.new.marks.items self.new.found.items) }
    {
        match gate {
            Gate::Input | Gate::Const(_) => Ok(()),
            Gate::Not(a) | Gate::Reg(a) => self.mark(a),
            Gate::And(a, b)
            | Gate::Or(a, b)
            | Gate::Xor(a, b)
            | Gate::Add(a, b)
            | Gate::Sub(a, b)
            | Gate::Eq(a, b)
            | Gate::Less(a, b)
            | Gate::Gate(a, b) => self.mark_two(a, b),
            Gate::Mux(s, a, b) => self.mark_three(s, a, b),
        }
    }

    // Marks two nets.
    fn mark_two(&mut self, a: NetId, b: NetId) -> Result<(), NoMemory>
        requires a { a.0 < vec_len self.old.marks }
        requires b { b.0 < vec_len self.old.marks }
        ensures { OnOk result (Grows (a.0 ∷ b.0 ∷ []) self.old.marks.items self.old.found.items self.new.marks.items self.new.found.items) }
    {
        self.mark(a)?;
        self.mark(b)?;
        Ok(())
    }

    // Marks three nets.
    fn mark_three(&mut self, a: NetId, b: NetId, c: NetId) -> Result<(), NoMemory>
        requires a { a.0 < vec_len self.old.marks }
        requires b { b.0 < vec_len self.old.marks }
        requires c { c.0 < vec_len self.old.marks }
        ensures { OnOk result (Grows (a.0 ∷ b.0 ∷ c.0 ∷ []) self.old.marks.items self.old.found.items self.new.marks.items self.new.found.items) }
    {
        self.mark(a)?;
        self.mark_two(b, c)?;
        Ok(())
    }
}
