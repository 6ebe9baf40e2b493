// The services of a build, and tables of what they serve.

ghost use Rattle.std.specs.Prelude.{◌≡◌, ◌<◌, ◌∷◌, ◌++◌, [], ℕ, length, nat_eq, IfOk, IfSome, OnOk};
ghost use Rattle.std.specs.Map.{lookup};
ghost use Rattle.gos_link.specs.Services.{first_bound, first_used};
ghost use Rattle.gos_link.specs.inner.Firsts.{or_first};
ghost use Rattle.gos_link.specs.inner.Opens.{number_bound};
ghost use Rattle.gos_link.specs.inner.Served.{same_import, AreServed};
ghost use Rattle.gos_link.specs.inner.Wired.{number_used};

use crate::services::Service;
use gos_types::NoMemory;
use indexmap::IndexMap;
use std::alloc::Global;
use std::marker::Model;

/// Services in the order of their lines, with tables of what they serve. A contract sees the services.
#[derive(Drop)]
pub(crate) struct Services {
    all: Vec<Service>,
    // The number of the first service of each import, by its user and its own number.
    bound: IndexMap<(usize, usize), usize>,
    // The number of the first service by each giver.
    used: IndexMap<usize, usize>,
}

impl Model for Services {
    ghost use Rattle.std.specs.Prelude.{List};
    ghost use Rattle.gos_link.specs.inner.Served.{AreServed};
    ghost use Rattle.gos_link.specs.declared.services.Service.{Service};

    ghost Value = { List Service };

    ghost view = { λ services. services.all.items };

    ghost invariant = { λ services. AreServed services.all.items services.bound.entries services.used.entries };
}

// Gives an import this number, if it has none.
fn add_bound(
    bound: &mut IndexMap<(usize, usize), usize>,
    import: (usize, usize),
    number: usize,
) -> Result<(), NoMemory>
    ensures { OnOk result ((other : ℕ × ℕ) → lookup (same_import other) bound.new.entries
        ≡ or_first (lookup (same_import other) bound.old.entries) (same_import other import) number) }
{
    if bound.get(&import).is_none() {
        bound.insert(import, number)?;
    }
    Ok(())
}

// Gives a giver this number, if it has none.
fn add_used(used: &mut IndexMap<usize, usize>, giver: usize, number: usize) -> Result<(), NoMemory>
    ensures { OnOk result ((other : ℕ) → lookup (nat_eq other) used.new.entries
        ≡ or_first (lookup (nat_eq other) used.old.entries) (nat_eq other giver) number) }
{
    if used.get(&giver).is_none() {
        used.insert(giver, number)?;
    }
    Ok(())
}

// Adds a service to a list, and to tables what it is the first of.
fn add_service(
    all: &mut Vec<Service>,
    bound: &mut IndexMap<(usize, usize), usize>,
    used: &mut IndexMap<usize, usize>,
    service: Service,
) -> Result<(), NoMemory>
    ensures all { OnOk result (all.new.items ≡ all.old.items ++ service ∷ []) }
    ensures served { OnOk result (AreServed all.old.items bound.old.entries used.old.entries
        → AreServed all.new.items bound.new.entries used.new.entries) }
{
    let number = all.len();
    add_bound(bound, (service.user, service.import), number)?;
    add_used(used, service.giver, number)?;
    all.push(service)?;
    Ok(())
}

impl Services {
    /// No services.
    pub fn new(alloc: Global) -> Services
        ensures { result ≡ [] }
    {
        Services {
            all: Vec::new(alloc),
            bound: IndexMap::new(alloc),
            used: IndexMap::new(alloc),
        }
    }

    /// These services, and then one more. `Err` is want of memory alone.
    pub fn with(self, service: Service) -> Result<Services, NoMemory>
        ensures { IfOk result (λ services. services ≡ self ++ service ∷ []) }
    {
        let Services {
            mut all,
            mut bound,
            mut used,
        } = self;
        add_service(&mut all, &mut bound, &mut used, service)?;
        Ok(Services { all, bound, used })
    }

    /// The services, in the order of their lines.
    pub fn all(&self) -> &[Service]
        ensures { result.now ≡ self.now }
    {
        self.all.as_slice()
    }

    /// The number of the first service of an import.
    pub fn number_bound(&self, user: usize, import: usize) -> Option<usize>
        ensures number { result ≡ number_bound self.now user import }
        ensures within { IfSome result (λ t. t < length self.now) }
    {
        self.bound.get(&(user, import)).copied()
    }

    /// The number of the first service by a giver.
    pub fn number_used(&self, giver: usize) -> Option<usize>
        ensures number { result ≡ number_used self.now giver }
        ensures within { IfSome result (λ t. t < length self.now) }
    {
        self.used.get(&giver).copied()
    }

    /// The line of the first service of an import.
    pub fn first_bound(&self, user: usize, import: usize) -> Option<u64>
        ensures { result ≡ first_bound self.now user import }
    {
        match self.number_bound(user, import) {
            Some(number) => Some(self.all[number].line),
            None => None,
        }
    }

    /// The line of the first service by a giver.
    pub fn first_used(&self, giver: usize) -> Option<u64>
        ensures { result ≡ first_used self.now giver }
    {
        match self.number_used(giver) {
            Some(number) => Some(self.all[number].line),
            None => None,
        }
    }
}
