// The lines of a build file so far, and the names that they give.

ghost use Rattle.std.specs.Prelude.{◌≡◌, ◌||◌, ◌∷◌, ◌++◌, [], IfOk, OnOk};
ghost use Rattle.std.specs.List.{list_any};
ghost use Rattle.std.specs.Str.{bytes_eq};
ghost use Rattle.gos_lex.specs.Lines.{Word};
ghost use Rattle.gos_link.specs.BuildFile.{has_instance, has_source, has_no_source, is_instance, is_source, is_no_source};
ghost use Rattle.gos_link.specs.inner.Given.{AreGiven};

use crate::file_name::FileName;
use crate::said::{Item, Said};
use crate::services::copy_name;
use gos_lex::Name;
use gos_types::NoMemory;
use indexmap::IndexSet;
use std::alloc::Global;
use std::marker::Model;

// The names that lines give, in the order of the lines.
#[derive(Drop)]
struct Given {
    instances: IndexSet<Name>,
    sources: IndexSet<FileName>,
    // The files that are named as something else than a source.
    others: IndexSet<FileName>,
}

// Adds a name to a set.
fn add_name(alloc: Global, names: &mut IndexSet<Name>, name: &Name) -> Result<(), NoMemory>
    ensures { OnOk result ((other : Word) → list_any (bytes_eq other) names.new.keys ≡ (list_any (bytes_eq other) names.old.keys || bytes_eq name.now other)) }
{
    names.insert(copy_name(alloc, name)?)?;
    Ok(())
}

// Adds the name of a file to a set.
fn add_file(alloc: Global, files: &mut IndexSet<FileName>, file: &FileName) -> Result<(), NoMemory>
    ensures { OnOk result ((other : Word) → list_any (bytes_eq other) files.new.keys ≡ (list_any (bytes_eq other) files.old.keys || bytes_eq file.now other)) }
{
    files.insert(FileName::new(alloc, file.bytes())?)?;
    Ok(())
}

// Adds the names that a line gives.
fn add_given(alloc: Global, given: &mut Given, said: &Said) -> Result<(), NoMemory>
    ensures instances { OnOk result ((name : Word) → list_any (bytes_eq name) given.new.instances.keys
        ≡ (list_any (bytes_eq name) given.old.instances.keys || is_instance name said.now)) }
    ensures sources { OnOk result ((file : Word) → list_any (bytes_eq file) given.new.sources.keys
        ≡ (list_any (bytes_eq file) given.old.sources.keys || is_source file said.now)) }
    ensures others { OnOk result ((file : Word) → list_any (bytes_eq file) given.new.others.keys
        ≡ (list_any (bytes_eq file) given.old.others.keys || is_no_source file said.now)) }
{
    match said {
        Said::Inst {
            name,
            source,
            object,
        } => {
            add_name(alloc, &mut given.instances, name)?;
            add_file(alloc, &mut given.sources, source)?;
            add_file(alloc, &mut given.others, object)
        }
        Said::File { name, .. } => add_file(alloc, &mut given.others, name),
        _ => Ok(()),
    }
}

// Adds a line to a list, and to sets the names that it gives.
fn add_item(
    alloc: Global,
    items: &mut Vec<Item>,
    given: &mut Given,
    item: Item,
) -> Result<(), NoMemory>
    ensures items { OnOk result (items.new.items ≡ items.old.items ++ item ∷ []) }
    ensures given { OnOk result (AreGiven items.old.items given.old → AreGiven items.new.items given.new) }
{
    add_given(alloc, given, &item.said)?;
    items.push(item)?;
    Ok(())
}

/// The lines of a build file so far, with sets of the names that they give. A contract sees the lines.
#[derive(Drop)]
pub(crate) struct Lines {
    items: Vec<Item>,
    given: Given,
}

impl Model for Lines {
    ghost use Rattle.std.specs.Prelude.{List};
    ghost use Rattle.gos_link.specs.inner.Given.{AreGiven};
    ghost use Rattle.gos_link.specs.declared.said.Item.{Item};

    ghost Value = { List Item };

    ghost view = { λ lines. lines.items.items };

    ghost invariant = { λ lines. AreGiven lines.items.items lines.given };
}

impl Lines {
    /// No lines.
    pub fn new(alloc: Global) -> Lines
        ensures { result ≡ [] }
    {
        Lines {
            items: Vec::new(alloc),
            given: Given {
                instances: IndexSet::new(alloc),
                sources: IndexSet::new(alloc),
                others: IndexSet::new(alloc),
            },
        }
    }

    /// These lines, and then one more. `Err` is want of memory alone.
    pub fn with(self, alloc: Global, item: Item) -> Result<Lines, NoMemory>
        ensures { IfOk result (λ lines. lines ≡ self ++ item ∷ []) }
    {
        let Lines {
            mut items,
            mut given,
        } = self;
        add_item(alloc, &mut items, &mut given, item)?;
        Ok(Lines { items, given })
    }

    /// The lines.
    pub fn items(&self) -> &[Item]
        ensures { result.now ≡ self.now }
    {
        self.items.as_slice()
    }

    /// The lines alone.
    pub fn into_items(self) -> Vec<Item>
        ensures { result.items ≡ self }
    {
        let Lines { items, given: _ } = self;
        items
    }

    /// Whether one of the lines gives the name to an instance.
    pub fn has_instance(&self, name: &Name) -> bool
        ensures { result ≡ has_instance self.now name.now }
    {
        self.given.instances.contains(name)
    }

    /// Whether one of the lines names the file as a source.
    pub fn has_source(&self, file: &FileName) -> bool
        ensures { result ≡ has_source self.now file.now }
    {
        self.given.sources.contains(file)
    }

    /// Whether one of the lines names the file as something else than a source.
    pub fn has_no_source(&self, file: &FileName) -> bool
        ensures { result ≡ has_no_source self.now file.now }
    {
        self.given.others.contains(file)
    }
}
