// The inputs of a module, by name, and the cells that read them.
ghost use Rattle.std.specs.Prelude.{◌≡◌, ◌<◌, ℕ, Some, None, true, IsTrue, IfOk, get_or, length, set, slice_get};
ghost use Rattle.gos_verilog.specs.PortNets.{PortNet as Net};
ghost use Rattle.gos_verilog.specs.inner.Stages.{HaveOwnNames};
ghost use Rattle.gos_lex.specs.NameTables.{number_at};
ghost use Rattle.gos_verilog.specs.inner.Noted.{HasPlaces};
ghost use Rattle.gos_verilog.specs.inner.Left.{IsSource};

use crate::port_net::PortNet;
use gos_lex::NameTable;
use gos_netlist::NetId;
use gos_types::NoMemory;
use std::alloc::Global;

/// The inputs of a module, and for each net of a port the last cell that was noted to read it, or else 0.
#[derive(Drop)]
pub struct Inputs {
    places: NameTable,
    cells: Vec<u32>,
}

// The places of the inputs among these nets of ports.
fn known_places(alloc: Global, nets: &[PortNet]) -> Result<NameTable, NoMemory>
    ensures { IfOk result (λ places. HaveOwnNames nets.now → HasPlaces nets.now (length nets.now) places) }
{
    let mut places = NameTable::new(alloc);
    for (k, net) in nets.iter().enumerate() {
        if net.input {
            places.add(net.name.to_vec(alloc)?, k)?;
        }
    }
    Ok(places)
}

impl Inputs {
    /// The inputs among these nets of ports, none of which is read yet.
    pub fn new(alloc: Global, nets: &[PortNet]) -> Result<Inputs, NoMemory>
        ensures places { IfOk result (λ inputs. HaveOwnNames nets.now → HasPlaces nets.now (length nets.now) inputs.places) }
        ensures count { IfOk result (λ inputs. length inputs.cells.items ≡ length nets.now) }
    {
        let places = known_places(alloc, nets)?;
        let cells = vec![in alloc; 0; nets.len()]?;
        Ok(Inputs { places, cells })
    }

    /// Notes that a cell of so many bits reads the input of this name among the nets. It says whether there is such an
    /// input.
    pub fn note(&mut self, nets: &[PortNet], name: &[u8], width: u32, cell: u32) -> bool
        ensures places { self.new.places ≡ self.old.places }
        ensures count { length self.new.cells.items ≡ length self.old.cells.items }
        ensures source { IsTrue result → IsSource nets.now width name.now }
        ensures noted { (k : ℕ) (net : Net) → number_at self.old.places name.now ≡ Some k → slice_get nets.now k ≡ Some net → net.width ≡ width
            → net.input ≡ true → name.now ≡ net.name → k < length self.old.cells.items
            → (result ≡ true) × (self.new.cells.items ≡ set self.old.cells.items k cell) }
    {
        match self.places.get(name) {
            Some(k) => {
                if k >= nets.len() || k >= self.cells.len() {
                    return false;
                }
                let net = &nets[k];
                if net.input && net.width == width && net.name.as_slice() == name {
                    self.cells[k] = cell;
                    true
                } else {
                    false
                }
            }
            None => false,
        }
    }

    /// Notes that a cell reads the net at this place.
    pub fn put(&mut self, place: usize, cell: u32)
        ensures places { self.new.places ≡ self.old.places }
        ensures count { length self.new.cells.items ≡ length self.old.cells.items }
        ensures put { place < length self.old.cells.items → self.new.cells.items ≡ set self.old.cells.items place cell }
    {
        if place < self.cells.len() {
            self.cells[place] = cell;
        }
    }

    /// The last cell that was noted to read the net at this place; 0 where there is none.
    pub fn cell(&self, place: usize) -> NetId
        ensures { result.0 ≡ get_or self.now.cells.items place 0 }
    {
        match self.cells.get(place) {
            Some(cell) => NetId(*cell),
            None => NetId(0),
        }
    }
}
