// A table of numbers by name.
ghost use Rattle.std.specs.Prelude.{◌≡◌, ℕ, List, None, OnOk};
ghost use Rattle.gos_lex.specs.NameTables.{number_at, added};

use indexmap::IndexMap;
use std::alloc::{AllocError, Global};

/// Numbers by name. What a number tells, a place in a list say, is its user's matter.
#[derive(Drop)]
pub struct NameTable {
    by_name: IndexMap<Vec<u8>, usize>,
}

impl NameTable {
    /// A table without names.
    pub fn new(alloc: Global) -> NameTable
        ensures { (name : List ℕ) → number_at result name ≡ None }
    {
        NameTable {
            by_name: IndexMap::new(alloc),
        }
    }

    /// The number of a name, if the table has the name.
    pub fn get(&self, name: &[u8]) -> Option<usize>
        ensures { result ≡ number_at self.now name.now }
    {
        self.by_name.get(name).copied()
    }

    /// Gives a name this number, also where it had another one.
    pub fn add(&mut self, name: Vec<u8>, number: usize) -> Result<(), AllocError>
        ensures { OnOk result ((other : List ℕ) → number_at self.new other ≡ added name.items number (number_at self.old other) other) }
    {
        self.by_name.insert(name, number)?;
        Ok(())
    }
}
