// The handshakes at ends: those of a part, and those of a type.
ghost use Rattle.std.specs.Prelude.{◌≡◌, ◌++◌, map, false, IfOk, OnOk};
ghost use Rattle.gos_types.specs.Types.{type_of};
ghost use Rattle.gos_plan.specs.Kinds.{contacts_of, other_side, part_contacts, asks, serves};
ghost use Rattle.gos_model.specs.Terms.{result_width};
ghost use Rattle.gos_plan.specs.Seen.{part_of, operation_of};
ghost use Rattle.gos_plan.specs.Contacts.{held_contact};
ghost use Rattle.gos_plan.specs.inner.Turned.{as_seen, contact_for};

use crate::kinds::{Kind, Op2};
use gos_types::{Handshake, NoMemory, Role, Ty, handshakes, index_bits};
use std::alloc::Global;

/// A handshake at an end: who asks there, and the bits of its request and of its answer.
#[derive(Debug, Clone, Copy)]
pub struct Contact {
    /// Who makes the request, as the holder of the end sees it.
    pub role: Role,
    /// How many bits come with the request, 0 to 64.
    pub ask_bits: u32,
    /// How many bits come with the answer, 0 to 64.
    pub answer_bits: u32,
}

// A handshake that the part asks at.
fn asks(ask_bits: u32, answer_bits: u32) -> Contact
    ensures { result ≡ held_contact (asks ask_bits answer_bits) }
{
    Contact {
        role: Role::Ask,
        ask_bits,
        answer_bits,
    }
}

// A handshake that the part serves at.
fn serves(ask_bits: u32, answer_bits: u32) -> Contact
    ensures { result ≡ held_contact (serves ask_bits answer_bits) }
{
    Contact {
        role: Role::Serve,
        ask_bits,
        answer_bits,
    }
}

// The bits of an operator's result.
fn result_bits(op: Op2, w: u32) -> u32
    ensures { result ≡ result_width (operation_of op) w }
{
    match op {
        Op2::Eq | Op2::Less => 1,
        _ => w,
    }
}

/// The handshakes of a part, in order. `Err` is want of memory alone.
pub fn part_contacts(alloc: Global, kind: &Kind) -> Result<Vec<Contact>, NoMemory>
    ensures { IfOk result (λ contacts. contacts.items ≡ map held_contact (part_contacts (part_of kind.now))) }
{
    let run = asks(0, 0);
    let test = asks(0, 1);
    let done = serves(0, 0);
    match kind {
        Kind::Skip => listed(alloc, &[done]),
        Kind::Lit { w, .. } => listed(alloc, &[serves(0, *w)]),
        Kind::Seq | Kind::Par => listed(alloc, &[run, run, done]),
        Kind::SeqExp { w } => listed(alloc, &[run, asks(0, *w), serves(0, *w)]),
        Kind::If => listed(alloc, &[test, run, run, done]),
        Kind::IfExp { w } => {
            let value = asks(0, *w);
            listed(alloc, &[test, value, value, serves(0, *w)])
        }
        Kind::While => listed(alloc, &[test, run, done]),
        Kind::Op { op, w } => {
            let operand = asks(0, *w);
            listed(alloc, &[operand, operand, serves(0, result_bits(*op, *w))])
        }
        Kind::Not { w } | Kind::Deref { w } => listed(alloc, &[asks(0, *w), serves(0, *w)]),
        Kind::Assign { w } => listed(alloc, &[asks(0, *w), asks(*w, 0), done]),
        Kind::Local { w, v } => {
            let body = asks(0, *v);
            let answer = serves(0, *v);
            listed(alloc, &[body, serves(0, *w), serves(*w, 0), answer])
        }
        Kind::Array { w, n, v } => {
            let body = asks(0, *v);
            let index = asks(0, index_bits(*n));
            listed(
                alloc,
                &[body, index, serves(0, *w), serves(*w, 0), serves(0, *v)],
            )
        }
        Kind::Share(ty) => share_contacts(alloc, ty),
    }
}

// A vector of these.
fn listed(alloc: Global, contacts: &[Contact]) -> Result<Vec<Contact>, NoMemory>
    ensures { IfOk result (λ list. list.items ≡ contacts.now) }
{
    Ok(contacts.to_vec(alloc)?)
}

// The handshakes of a Share: the source's, which it uses, and those of two callers.
#[tactic(auto, using(crate::proofs::SeatLemmas::contacts_shared))]
fn share_contacts(alloc: Global, ty: &Ty) -> Result<Vec<Contact>, NoMemory>
    ensures { IfOk result (λ contacts. contacts.items ≡ map held_contact
        (other_side (contacts_of (type_of ty.now)) ++ (contacts_of (type_of ty.now) ++ contacts_of (type_of ty.now)))) }
{
    let shakes = handshakes(alloc, ty)?;
    let mut contacts = Vec::new(alloc);
    add_contacts(&mut contacts, &shakes, true)?;
    add_contacts(&mut contacts, &shakes, false)?;
    add_contacts(&mut contacts, &shakes, false)?;
    Ok(contacts)
}

/// The handshakes of a type, as the holder of a term of it sees them. `Err` is want of memory alone.
pub fn type_contacts(alloc: Global, ty: &Ty) -> Result<Vec<Contact>, NoMemory>
    ensures { IfOk result (λ contacts. contacts.items ≡ map held_contact (contacts_of (type_of ty.now))) }
{
    seen_contacts(alloc, ty, false)
}

/// The handshakes of a type, as the user of a term of it sees them. `Err` is want of memory alone.
pub fn user_contacts(alloc: Global, ty: &Ty) -> Result<Vec<Contact>, NoMemory>
    ensures { IfOk result (λ contacts. contacts.items ≡ map held_contact (other_side (contacts_of (type_of ty.now)))) }
{
    seen_contacts(alloc, ty, true)
}

// The handshakes of a type, as one side sees them or as the other.
#[tactic(auto, using(crate::proofs::SeatLemmas::contacts_seen))]
pub(crate) fn seen_contacts(alloc: Global, ty: &Ty, turned: bool) -> Result<Vec<Contact>, NoMemory>
    ensures { IfOk result (λ contacts. contacts.items ≡ map held_contact (as_seen turned (contacts_of (type_of ty.now)))) }
{
    let shakes = handshakes(alloc, ty)?;
    let mut contacts = Vec::new(alloc);
    add_contacts(&mut contacts, &shakes, turned)?;
    Ok(contacts)
}

// Adds handshakes, as one side sees them or as the other.
fn add_contacts(
    contacts: &mut Vec<Contact>,
    shakes: &[Handshake],
    turned: bool,
) -> Result<(), NoMemory>
    ensures { OnOk result (contacts.new.items ≡ contacts.old.items ++ map (contact_for turned) shakes.now) }
{
    for shake in shakes {
        contacts.push(contact_of(shake, turned))?;
    }
    Ok(())
}

// A handshake as one side sees it, or as the other.
fn contact_of(shake: &Handshake, turned: bool) -> Contact
    ensures { result ≡ contact_for turned shake.now }
{
    match (shake.role, turned) {
        (Role::Ask, false) | (Role::Serve, true) => asks(shake.ask_bits, shake.answer_bits),
        (Role::Serve, false) | (Role::Ask, true) => serves(shake.ask_bits, shake.answer_bits),
    }
}
