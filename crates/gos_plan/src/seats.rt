// The ends of a plan's joints: which handshake each has, and whether a joint has taken it already.

ghost use Rattle.std.specs.Prelude.{◌≡◌, ◌↔◌, ℕ, ◌&&◌, ◌∷◌, List, IsTrue, map, nat_eq, slice_get, IfOk, IsSome};
ghost use Rattle.gos_types.specs.Types.{type_of};
ghost use Rattle.gos_plan.specs.Kinds.{contacts_of, part_contacts};
ghost use Rattle.gos_plan.specs.Seen.{part_of, end_of, joint_of};
ghost use Rattle.gos_plan.specs.Plans.{Plan as APlan, Joint as AJoint, IsRightAfter};
ghost use Rattle.gos_plan.specs.inner.Turned.{as_seen};
ghost use Rattle.gos_plan.specs.inner.Seats.{free_seat, free_held, seat_in, seat_at, taken_if, TakesEnd, Meet, Stands, AreSeats, import_seats};

use crate::contacts::{Contact, part_contacts, seen_contacts};
use crate::kinds::Kind;
use crate::plan::{End, Joint, PlanImport};
use gos_types::{NoMemory, Role, Ty};
use std::alloc::Global;

// An end, and whether a joint has it.
#[derive(Clone, Copy)]
pub(crate) struct Seat {
    pub contact: Contact,
    pub taken: bool,
}

// All ends of a plan, by part, by import, and of the result.
#[derive(Drop)]
pub(crate) struct Seats {
    pub parts: Vec<Vec<Seat>>,
    pub imports: Vec<Vec<Seat>>,
    pub result: Vec<Seat>,
}

// The free seats of handshakes.
fn free_seats(alloc: Global, contacts: &[Contact]) -> Result<Vec<Seat>, NoMemory>
    ensures { IfOk result (λ seats. seats.items ≡ map free_held contacts.now) }
{
    let mut seats = Vec::new(alloc);
    for contact in contacts {
        seats.push(Seat {
            contact: *contact,
            taken: false,
        })?;
    }
    Ok(seats)
}

// The seats of a part, all of them free.
#[tactic(auto, using(crate::proofs::SeatLemmas::free_of_held))]
pub(crate) fn part_seats(alloc: Global, kind: &Kind) -> Result<Vec<Seat>, NoMemory>
    ensures { IfOk result (λ seats. seats.items ≡ map free_seat (part_contacts (part_of kind.now))) }
{
    let contacts = part_contacts(alloc, kind)?;
    free_seats(alloc, &contacts)
}

// The seats of imports, each by itself.
fn import_lists(alloc: Global, imports: &[PlanImport]) -> Result<Vec<Vec<Seat>>, NoMemory>
    ensures { IfOk result (λ lists. map (λ seats. seats.items) lists.items ≡ map import_seats imports.now) }
{
    let mut lists = Vec::new(alloc);
    for import in imports {
        lists.push(type_seats(alloc, &import.ty, false)?)?;
    }
    Ok(lists)
}

// The seats of a type, as one side sees them or as the other.
#[tactic(auto, using(crate::proofs::SeatLemmas::free_of_held))]
pub(crate) fn type_seats(alloc: Global, ty: &Ty, turned: bool) -> Result<Vec<Seat>, NoMemory>
    ensures { IfOk result (λ seats. seats.items ≡ map free_seat (as_seen turned (contacts_of (type_of ty.now)))) }
{
    let contacts = seen_contacts(alloc, ty, turned)?;
    free_seats(alloc, &contacts)
}

impl Seats {
    // The seats of a plan with these imports, this result and these parts, all of them free.
    pub(crate) fn new(
        alloc: Global,
        imports: &[PlanImport],
        outcome: &Ty,
        parts: &[Kind],
    ) -> Result<Seats, NoMemory>
        ensures { IfOk result (AreSeats imports.now outcome.now parts.now) }
    {
        let mut part_lists = Vec::new(alloc);
        for kind in parts {
            part_lists.push(part_seats(alloc, kind)?)?;
        }
        Ok(Seats {
            parts: part_lists,
            imports: import_lists(alloc, imports)?,
            result: type_seats(alloc, outcome, true)?,
        })
    }

    // The seat at an end, if there is such an end.
    fn seat(&self, end: End) -> Option<Seat>
        ensures { result ≡ seat_at self.now (end_of end) }
    {
        match end {
            End::Part { part, shake } => self
                .parts
                .get(part as usize)?
                .get(shake as usize)
                .copied(),
            End::Import { import, shake } => self
                .imports
                .get(import as usize)?
                .get(shake as usize)
                .copied(),
            End::Result { shake } => self.result.get(shake as usize).copied(),
        }
    }

    // Takes both ends of a joint, if it is right after those before it.
    pub(crate) fn join(&mut self, joint: Joint) -> bool
        ensures right { (plan : APlan) (before : List AJoint) → Stands plan before self.old → (IsTrue result ↔ IsRightAfter plan before (joint_of joint)) }
        ensures joined { IsTrue result → (plan : APlan) (before : List AJoint) → Stands plan before self.old → Stands plan (joint_of joint ∷ before) self.new }
    {
        match (self.seat(joint.asks), self.seat(joint.serves)) {
            (Some(asking), Some(serving)) if meet(asking, serving) => {
                self.take(joint.asks);
                self.take(joint.serves);
                true
            }
            _ => false,
        }
    }

    // Takes an end.
    fn take(&mut self, end: End)
        requires { IsSome (seat_at self.old (end_of end)) }
        ensures { TakesEnd (end_of end) self.old self.new }
    {
        match end {
            End::Part { part, shake } => take_of(&mut self.parts, part as usize, shake as usize),
            End::Import { import, shake } => take_of(
                &mut self.imports,
                import as usize,
                shake as usize,
            ),
            End::Result { shake } => take_seat(&mut self.result, shake as usize),
        }
    }
}

// Whether two free seats meet: the one asks, the other serves, and their bits are equal.
fn meet(asking: Seat, serving: Seat) -> bool
    ensures { IsTrue result ↔ Meet asking serving }
{
    !asking.taken
        && !serving.taken
        && asking.contact.role == Role::Ask
        && serving.contact.role == Role::Serve
        && asking.contact.ask_bits == serving.contact.ask_bits
        && asking.contact.answer_bits == serving.contact.answer_bits
}

// Takes a seat of one of several lists.
fn take_of(lists: &mut Vec<Vec<Seat>>, at: usize, shake: usize)
    requires { IsSome (seat_in (slice_get (map (λ seats. seats.items) lists.old.items) at) shake) }
    ensures { (i h : ℕ) → seat_in (slice_get (map (λ seats. seats.items) lists.new.items) i) h
        ≡ taken_if (nat_eq i at && nat_eq h shake) (seat_in (slice_get (map (λ seats. seats.items) lists.old.items) i) h) }
{
    take_seat(&mut lists[at], shake);
}

// Takes a seat of a list.
fn take_seat(seats: &mut Vec<Seat>, shake: usize)
    requires { IsSome (slice_get seats.old.items shake) }
    ensures { (h : ℕ) → slice_get seats.new.items h ≡ taken_if (nat_eq h shake) (slice_get seats.old.items h) }
{
    seats[shake].taken = true;
}
