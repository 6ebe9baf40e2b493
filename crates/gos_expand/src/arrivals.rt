// Where what comes in at each end of a plan begins.
ghost use Rattle.std.specs.Prelude.{◌≡◌, ℕ, ◌&&◌, None, map, nat_eq, slice_get, IfOk};
ghost use Rattle.gos_types.specs.Types.{type_of};
ghost use Rattle.gos_plan.specs.Kinds.{contacts_of, other_side, part_contacts};
ghost use Rattle.gos_plan.specs.Seen.{plan_of, part_of, end_of};
ghost use Rattle.gos_plan.specs.Contacts.{contact_held};
ghost use Rattle.gos_plan.specs.Tokens.{bits_of, way_taken};
ghost use Rattle.gos_expand.specs.inner.Arrivals.{new_arrival, arrival_in, arrival_at, AreAt, filled_if, Fills};

use gos_plan::{Contact, End, Kind, Plan, PlanImport, part_contacts, type_contacts, user_contacts};
use gos_types::{NoMemory, Role, Ty};
use std::alloc::Global;

// Where what comes in at an end begins: at a net, or with what goes into the circuit at another end.
#[derive(Clone, Copy)]
pub(crate) enum Origin {
    Cells(u32),
    Other(End),
}

// What comes in at an end: its handshake, and where it begins if that is known.
#[derive(Clone, Copy)]
pub(crate) struct Arrival {
    pub contact: Contact,
    pub origin: Option<Origin>,
}

// What comes in at all ends of a plan, by part, by import, and of the result.
#[derive(Drop)]
pub(crate) struct Arrivals {
    pub parts: Vec<Vec<Arrival>>,
    pub imports: Vec<Vec<Arrival>>,
    pub result: Vec<Arrival>,
}

impl Arrival {
    // How many bits what comes in has.
    pub(crate) fn bits(&self) -> u32
        ensures { result ≡ bits_of (contact_held self.now.contact) (way_taken self.now.contact.role) }
    {
        match self.contact.role {
            Role::Serve => self.contact.ask_bits,
            Role::Ask => self.contact.answer_bits,
        }
    }
}

// The entries of handshakes.
fn entries(alloc: Global, contacts: &[Contact]) -> Result<Vec<Arrival>, NoMemory>
    ensures { IfOk result (λ entries. entries.items ≡ map (λ c. new_arrival (contact_held c)) contacts.now) }
{
    let mut entries = Vec::new(alloc);
    for contact in contacts {
        entries.push(Arrival {
            contact: *contact,
            origin: None,
        })?;
    }
    Ok(entries)
}

// The entries of a part.
#[tactic(auto, using(crate::proofs::ArrivalLemmas::entries_held))]
fn part_entries(alloc: Global, kind: &Kind) -> Result<Vec<Arrival>, NoMemory>
    ensures { IfOk result (λ entries. entries.items ≡ map new_arrival (part_contacts (part_of kind.now))) }
{
    let contacts = part_contacts(alloc, kind)?;
    entries(alloc, &contacts)
}

// The entries of an import.
#[tactic(auto, using(crate::proofs::ArrivalLemmas::entries_held))]
fn import_entries(alloc: Global, import: &PlanImport) -> Result<Vec<Arrival>, NoMemory>
    ensures { IfOk result (λ entries. entries.items ≡ map new_arrival (contacts_of (type_of import.now.ty))) }
{
    let contacts = type_contacts(alloc, &import.ty)?;
    entries(alloc, &contacts)
}

// The entries of a result.
#[tactic(auto, using(crate::proofs::ArrivalLemmas::entries_held))]
fn result_entries(alloc: Global, ty: &Ty) -> Result<Vec<Arrival>, NoMemory>
    ensures { IfOk result (λ entries. entries.items ≡ map new_arrival (other_side (contacts_of (type_of ty.now)))) }
{
    let contacts = user_contacts(alloc, ty)?;
    entries(alloc, &contacts)
}

// The entries of parts, each by itself.
fn part_lists(alloc: Global, parts: &[Kind]) -> Result<Vec<Vec<Arrival>>, NoMemory>
    ensures { IfOk result (λ lists. map (λ s. s.items) lists.items ≡ map (λ k. map new_arrival (part_contacts (part_of k))) parts.now) }
{
    let mut lists = Vec::new(alloc);
    for kind in parts {
        lists.push(part_entries(alloc, kind)?)?;
    }
    Ok(lists)
}

// The entries of imports, each by itself.
fn import_lists(alloc: Global, imports: &[PlanImport]) -> Result<Vec<Vec<Arrival>>, NoMemory>
    ensures { IfOk result (λ lists. map (λ s. s.items) lists.items ≡ map (λ i. map new_arrival (contacts_of (type_of i.ty))) imports.now) }
{
    let mut lists = Vec::new(alloc);
    for import in imports {
        lists.push(import_entries(alloc, import)?)?;
    }
    Ok(lists)
}

impl Arrivals {
    // The table of a plan, where nothing is known yet.
    pub(crate) fn new(alloc: Global, plan: &Plan) -> Result<Arrivals, NoMemory>
        ensures { IfOk result (AreAt (plan_of plan.now) (λ e. None)) }
    {
        Ok(Arrivals {
            parts: part_lists(alloc, plan.parts())?,
            imports: import_lists(alloc, plan.imports())?,
            result: result_entries(alloc, plan.result())?,
        })
    }

    // The entry at an end, if there is such an end.
    pub(crate) fn get(&self, end: End) -> Option<Arrival>
        ensures { result ≡ arrival_at self.now (end_of end) }
    {
        match end {
            End::Part { part, shake } => self
                .parts
                .get(part as usize)?
                .get(shake as usize)
                .copied(),
            End::Import { import, shake } => self
                .imports
                .get(import as usize)?
                .get(shake as usize)
                .copied(),
            End::Result { shake } => self.result.get(shake as usize).copied(),
        }
    }

    // From now on what comes in at an end begins here, unless that is known already.
    pub(crate) fn fill(&mut self, end: End, origin: Origin)
        ensures { Fills (end_of end) origin self.old self.new }
    {
        match end {
            End::Part { part, shake } => {
                fill_of(&mut self.parts, part as usize, shake as usize, origin)
            }
            End::Import { import, shake } => fill_of(
                &mut self.imports,
                import as usize,
                shake as usize,
                origin,
            ),
            End::Result { shake } => fill_entry(&mut self.result, shake as usize, origin),
        }
    }
}

// Fills an entry of one of several lists, if it is there.
fn fill_of(lists: &mut Vec<Vec<Arrival>>, at: usize, shake: usize, origin: Origin)
    ensures { (i h : ℕ) → arrival_in (slice_get (map (λ s. s.items) lists.new.items) i) h
        ≡ filled_if (nat_eq i at && nat_eq h shake) origin (arrival_in (slice_get (map (λ s. s.items) lists.old.items) i) h) }
{
    if at < lists.len() {
        fill_entry(&mut lists[at], shake, origin);
    }
}

// Fills an entry of a list, if it is there.
fn fill_entry(entries: &mut Vec<Arrival>, shake: usize, origin: Origin)
    ensures { (h : ℕ) → slice_get entries.new.items h ≡ filled_if (nat_eq h shake) origin (slice_get entries.old.items h) }
{
    if shake < entries.len() && entries[shake].origin.is_none() {
        entries[shake].origin = Some(origin);
    }
}
