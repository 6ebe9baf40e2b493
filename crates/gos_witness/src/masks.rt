// Which ports stand in the terms of a list of nodes.
//
// A mask has a bit for each of 64 ports, a block of them. The masks are those of one block at a time, and only the nodes that a list has
// gained are looked at.
ghost use Rattle.std.specs.Prelude.{◌≡◌, ◌<◌, ◌↔◌, ◌/◌, ◌%◌, List, IfOk, IsTrue, Some, get_or, length, slice_get, ℕ};
ghost use Rattle.gos_witness.specs.NodeLists.{Fits, Listed, name_at, shape};
ghost use Rattle.gos_witness.specs.Ports.{ArePorts, port_of};
ghost use Rattle.gos_witness.specs.inner.PortMasks.{AreMasks, HasBit, IsMarked, IsMask, IsNumberOf, Knows};

use crate::nodes::{Form, Leaf, NodeList};
use crate::port_table::numbers_of;
use crate::program::ProgramPort;
use gos_lex::{Name, NameTable};
use gos_types::NoMemory;
use std::alloc::Global;

// How many ports a mask has.
const BLOCK: usize = 64;

/// The masks of the first nodes of a list, for the ports of one block.
#[derive(Drop)]
pub struct Masks {
    // The numbers of ports by their names.
    table: NameTable,
    // The port of each of the first names of the list, if it is that of a port.
    pub ports: Vec<Option<usize>>,
    pub block: usize,
    pub masks: Vec<u64>,
}

impl Masks {
    /// No masks.
    #[tactic(auto, using(crate::proofs::MaskLemmas::no_masks))]
    pub fn new(alloc: Global, ports: &[ProgramPort]) -> Result<Masks, NoMemory>
        ensures { (l : Listed) → IfOk result (AreMasks ports.now l) }
    {
        Ok(Masks {
            table: numbers_of(alloc, ports)?,
            ports: Vec::new(alloc),
            block: 0,
            masks: Vec::new(alloc),
        })
    }

    /// The masks of all nodes of a list, for the block of this port.
    #[tactic(auto, using(crate::proofs::MaskLemmas::knows))]
    pub fn follow(
        &mut self,
        list: &NodeList,
        ports: &[ProgramPort],
        port: u32,
    ) -> Result<(), NoMemory>
        requires ports { ArePorts ports.now }
        requires port { port < length ports.now }
        requires masks { AreMasks ports.now list.now self.old }
        ensures masks { IfOk result (λ _. AreMasks ports.now list.now self.new) }
        ensures knows { IfOk result (λ _. Knows list.now (port_of ports.now port) port self.new) }
    {
        self.turn_to(port as usize / BLOCK);
        self.add_names(list, ports)?;
        self.add_masks(list, ports)
    }

    // The masks of another block are dropped.
    #[tactic(auto, using(crate::proofs::MaskLemmas::masks_cleared))]
    fn turn_to(&mut self, block: usize)
        ensures masks { (ports : List ProgramPort) (l : Listed) → AreMasks ports l self.old → AreMasks ports l self.new }
        ensures block { self.new.block ≡ block }
    {
        if block == self.block {
            return;
        }
        self.block = block;
        self.masks.clear();
    }

    /// Drops all masks.
    #[tactic(auto, using(crate::proofs::MaskLemmas::no_masks))]
    pub fn forget(&mut self)
        ensures { (l : Listed) (ports : List ProgramPort) → AreMasks ports l self.new }
    {
        self.ports.clear();
        self.masks.clear();
    }

    // The ports of the names that the list has gained.
    fn add_names(&mut self, list: &NodeList, ports: &[ProgramPort]) -> Result<(), NoMemory>
        requires { AreMasks ports.now list.now self.old }
        ensures masks { IfOk result (λ _. AreMasks ports.now list.now self.new) }
        ensures all { IfOk result (λ _. length self.new.ports.items ≡ length list.now.tables.names) }
        ensures block { self.new.block ≡ self.old.block }
    {
        for number in self.ports.len()..list.names().len() {
            let found = port_of(&self.table, ports, &list.names()[number]);
            self.ports.push(found)?;
        }
        Ok(())
    }

    // The masks of the nodes that the list has gained.
    fn add_masks(&mut self, list: &NodeList, ports: &[ProgramPort]) -> Result<(), NoMemory>
        requires ports { ArePorts ports.now }
        requires masks { AreMasks ports.now list.now self.old }
        requires names { length self.old.ports.items ≡ length list.now.tables.names }
        ensures masks { IfOk result (λ _. AreMasks ports.now list.now self.new) }
        ensures all { IfOk result (λ _. length self.new.masks.items ≡ length list.now.nodes) }
        ensures block { self.new.block ≡ self.old.block }
    {
        for number in self.masks.len()..list.nodes().len() {
            let mask = self.mask_of(list, ports, list.form(number));
            self.masks.push(mask)?;
        }
        Ok(())
    }

    /// Whether the port stands in the term of a node. The root's stands in none.
    pub fn has(&self, node: u32, port: u32) -> bool
        ensures { IsTrue result ↔ IsMarked self.now port node }
    {
        port > 0 && has_bit(self.mask(node), port as usize % BLOCK)
    }

    // The mask of a node, if there is one.
    fn mask(&self, node: u32) -> u64
        ensures { result ≡ get_or self.now.masks.items node 0 }
    {
        match self.masks.get(node as usize) {
            Some(mask) => *mask,
            None => 0,
        }
    }

    // The mask of a form.
    #[tactic(auto, using(crate::proofs::MaskLemmas::mask_none, crate::proofs::MaskLemmas::mask_one, crate::proofs::MaskLemmas::mask_two, crate::proofs::MaskLemmas::mask_three))]
    fn mask_of(&self, list: &NodeList, ports: &[ProgramPort], form: Form) -> u64
        requires ports { ArePorts ports.now }
        requires masks { AreMasks ports.now list.now self.now }
        requires names { length self.now.ports.items ≡ length list.now.tables.names }
        requires fits { Fits list.now.tables (length self.now.masks.items) form }
        ensures { IsMask ports.now self.now.block result (shape list.now form) }
    {
        match form {
            Form::Leaf(Leaf::Import(name) | Leaf::Wait { name, .. }) => {
                self.mask_of_name(list, ports, name)
            }
            Form::Leaf(_) => 0,
            Form::One(_, a) => self.mask(a),
            Form::Two(_, a, b) => self.mask(a) | self.mask(b),
            Form::If(a, b, c) => self.mask(a) | (self.mask(b) | self.mask(c)),
        }
    }

    // The mask of a name: the bit of its port, if that is in the block.
    #[tactic(auto, using(crate::proofs::MaskLemmas::name_bit, crate::proofs::MaskLemmas::name_elsewhere, crate::proofs::MaskLemmas::name_none))]
    fn mask_of_name(&self, list: &NodeList, ports: &[ProgramPort], name: u32) -> u64
        requires ports { ArePorts ports.now }
        requires masks { AreMasks ports.now list.now self.now }
        requires there { name < length self.now.ports.items }
        ensures { (k : ℕ) (p : ProgramPort) → 0 < k → slice_get ports.now k ≡ Some p → k / 64 ≡ self.now.block
            → HasBit result (k % 64) ↔ (name_at list.now.tables name ≡ p.name) }
    {
        match self.ports[name as usize] {
            Some(port) if port / BLOCK == self.block => bit(port % BLOCK),
            _ => 0,
        }
    }
}

// A mask with this bit alone.
#[tactic(auto, using(crate::proofs::MaskLemmas::one_bit))]
fn bit(number: usize) -> u64
    requires { number < 64 }
    ensures { (k : ℕ) → HasBit result k ↔ (k ≡ number) }
{
    1 << (number as u32)
}

// Whether a mask has this bit.
fn has_bit(mask: u64, number: usize) -> bool
    requires { number < 64 }
    ensures { IsTrue result ↔ HasBit mask number }
{
    (mask >> (number as u32)) & 1 == 1
}

// The number of the taken port of this name: as the table has it, or else as the ports say.
fn port_of(table: &NameTable, ports: &[ProgramPort], name: &Name) -> Option<usize>
    ensures { IsNumberOf ports.now name.now result }
{
    if let Some(number) = table.get(name.bytes()) {
        if 0 < number && number < ports.len() && ports[number].name == *name {
            return Some(number);
        }
    }
    for number in 1..ports.len() {
        if ports[number].name == *name {
            return Some(number);
        }
    }
    None
}
