// The free names of a term, and those that two parts share.

ghost use Rattle.std.specs.Prelude.{◌≡◌, ◌∷◌, [], Ok, IfOk, IfErr};
ghost use Rattle.gos_check.specs.Faults.{Refuses};
ghost use Rattle.gos_check.specs.Free.{place_in, besides, joined, without, apart};

use crate::fault::CheckFault;
use gos_lex::{Name, Span};
use std::alloc::Global;

// A name, and the place where it is used first.
#[derive(Drop)]
pub(crate) struct Occurrence {
    pub name: Name,
    pub span: Span,
}

// The one name of a term that is a name.
pub(crate) fn one_name(
    alloc: Global,
    name: &Name,
    span: Span,
) -> Result<Vec<Occurrence>, CheckFault>
    ensures ok { IfOk result (λ names. names.items ≡ record { name = name.now; span = span } ∷ []) }
    ensures err { IfErr result (λ e. e ≡ CheckFault.NoMemory) }
{
    let mut names = Vec::new(alloc);
    let name = Name::new(alloc, name.bytes())?;
    names.push(Occurrence { name, span })?;
    Ok(names)
}

// Where a name stands first in a list of names.
fn place_in(names: &[Occurrence], name: &Name) -> Option<Span>
    ensures { result ≡ place_in names.now name.now }
{
    for occurrence in names {
        if occurrence.name == *name {
            return Some(occurrence.span);
        }
    }
    None
}

// The names of one part, and then those that only the other has.
pub(crate) fn joined(
    alloc: Global,
    left: Vec<Occurrence>,
    right: Vec<Occurrence>,
) -> Result<Vec<Occurrence>, CheckFault>
    ensures ok { IfOk result (λ names. names.items ≡ joined left.items right.items) }
    ensures err { IfErr result (λ e. e ≡ CheckFault.NoMemory) }
{
    let mut names = left;
    let mut others = besides(alloc, names.as_slice(), right)?;
    names.append(&mut others)?;
    Ok(names)
}

// The names of a list that another hasn't.
fn besides(
    alloc: Global,
    names: &[Occurrence],
    others: Vec<Occurrence>,
) -> Result<Vec<Occurrence>, CheckFault>
    ensures ok { IfOk result (λ kept. kept.items ≡ besides names.now others.items) }
    ensures err { IfErr result (λ e. e ≡ CheckFault.NoMemory) }
{
    let mut kept = Vec::new(alloc);
    for occurrence in others {
        if place_in(names, &occurrence.name).is_none() {
            kept.push(occurrence)?;
        }
    }
    Ok(kept)
}

// All names but one.
pub(crate) fn without(
    alloc: Global,
    name: &Name,
    names: Vec<Occurrence>,
) -> Result<Vec<Occurrence>, CheckFault>
    ensures ok { IfOk result (λ kept. kept.items ≡ without name.now names.items) }
    ensures err { IfErr result (λ e. e ≡ CheckFault.NoMemory) }
{
    let mut kept = Vec::new(alloc);
    for occurrence in names {
        if occurrence.name != *name {
            kept.push(occurrence)?;
        }
    }
    Ok(kept)
}

// Whether two parts share no name; else the first of the left part that the right part has.
pub(crate) fn apart(
    alloc: Global,
    left: &[Occurrence],
    right: &[Occurrence],
) -> Result<(), CheckFault>
    ensures ok { IfOk result (λ _. apart left.now right.now ≡ Ok tt) }
    ensures err { IfErr result (λ e. Refuses (apart left.now right.now) e) }
{
    for occurrence in left {
        if let Some(second) = place_in(right, &occurrence.name) {
            return Err(CheckFault::Shared {
                name: Name::new(alloc, occurrence.name.bytes())?,
                first: occurrence.span,
                second,
            });
        }
    }
    Ok(())
}
