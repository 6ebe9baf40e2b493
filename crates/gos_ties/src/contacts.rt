// The handshakes at the ends of a plan.

ghost use Rattle.std.specs.Prelude.{◌≡◌, [], IfOk, slice_get};
ghost use Rattle.gos_plan.specs.Plans.{contact_at};
ghost use Rattle.gos_plan.specs.Seen.{end_of, plan_of};
ghost use Rattle.gos_ties.specs.inner.Contacts.{asked};

use gos_plan::{Contact, End, Kind, PlanImport, part_contacts, type_contacts, user_contacts};
use gos_types::{NoMemory, Ty};
use std::alloc::Global;

// One of handshakes.
fn one_of(contacts: &[Contact], shake: u32) -> Option<Contact>
    ensures { result ≡ slice_get contacts.now shake }
{
    contacts.get(shake as usize).copied()
}

// The handshake at an end, if there is one.
#[tactic(auto, using(crate::proofs::ContactLemmas::asked_held, crate::proofs::ContactLemmas::result_contact))]
pub(crate) fn contact_at(
    alloc: Global,
    imports: &[PlanImport],
    outcome: &Ty,
    parts: &[Kind],
    end: End,
) -> Result<Option<Contact>, NoMemory>
    ensures { IfOk result (λ found. asked found ≡ contact_at
        (plan_of (record { weight = 0; imports = imports.now; outcome = outcome.now; parts = parts.now; joints = [] })) (end_of end)) }
{
    match end {
        End::Part { part, shake } => match parts.get(part as usize) {
            Some(kind) => Ok(one_of(&part_contacts(alloc, kind)?, shake)),
            None => Ok(None),
        },
        End::Import { import, shake } => match imports.get(import as usize) {
            Some(import) => Ok(one_of(&type_contacts(alloc, &import.ty)?, shake)),
            None => Ok(None),
        },
        End::Result { shake } => Ok(one_of(&user_contacts(alloc, outcome)?, shake)),
    }
}
