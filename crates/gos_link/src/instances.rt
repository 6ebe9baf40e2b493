// The instances of a build by name.

ghost use Rattle.std.specs.Prelude.{◌≡◌, IfOk, OnOk};
ghost use Rattle.std.specs.Str.{bytes_eq};
ghost use Rattle.std.specs.Map.{lookup};
ghost use Rattle.gos_lex.specs.Lines.{Word};
ghost use Rattle.gos_link.specs.Services.{instance_named};
ghost use Rattle.gos_link.specs.inner.Firsts.{or_first, AreFirst};

use crate::build::Instance;
use crate::services::copy_name;
use gos_lex::Name;
use gos_types::NoMemory;
use indexmap::IndexMap;
use std::alloc::Global;
use std::marker::Model;

/// The instances of a build in the order of their lines, with a table of their names. A contract sees the instances.
#[derive(Drop)]
pub(crate) struct Instances<'a> {
    all: &'a [Instance],
    // The number of the first instance of each name.
    numbers: IndexMap<Name, usize>,
}

impl<'a> Model for Instances<'a> {
    ghost use Rattle.std.specs.Prelude.{List};
    ghost use Rattle.gos_link.specs.inner.Firsts.{AreFirst};
    ghost use Rattle.gos_link.specs.declared.build.Instance.{Instance};

    ghost Value = { List Instance };

    ghost view = { λ named. named.all.now };

    ghost invariant = { λ named. AreFirst named.all.now named.numbers.entries };
}

impl<'a> Instances<'a> {
    /// These instances, with a table of their names. `Err` is want of memory alone.
    pub fn new(alloc: Global, all: &'a [Instance]) -> Result<Instances<'a>, NoMemory>
        ensures { IfOk result (λ named. named ≡ all.now) }
    {
        let numbers = numbers_of(alloc, all)?;
        Ok(Instances { all, numbers })
    }

    /// The number of the first instance of this name.
    pub fn number(&self, name: &Name) -> Option<usize>
        ensures { result ≡ instance_named self.now name.now }
    {
        self.numbers.get(name).copied()
    }
}

// Gives a name this number, if it has none.
fn add_first(
    alloc: Global,
    numbers: &mut IndexMap<Name, usize>,
    name: &Name,
    number: usize,
) -> Result<(), NoMemory>
    ensures { OnOk result ((other : Word) → lookup (bytes_eq other) numbers.new.entries
        ≡ or_first (lookup (bytes_eq other) numbers.old.entries) (bytes_eq other name.now) number) }
{
    if numbers.get(name).is_none() {
        numbers.insert(copy_name(alloc, name)?, number)?;
    }
    Ok(())
}

// The number of the first instance of each name.
fn numbers_of(alloc: Global, instances: &[Instance]) -> Result<IndexMap<Name, usize>, NoMemory>
    ensures { IfOk result (λ numbers. AreFirst instances.now numbers.entries) }
{
    let mut numbers = IndexMap::new(alloc);
    for (number, instance) in instances.iter().enumerate() {
        add_first(alloc, &mut numbers, &instance.name, number)?;
    }
    Ok(numbers)
}
