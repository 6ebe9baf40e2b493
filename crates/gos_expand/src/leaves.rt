// The nets at the ends of a plan: of what goes into the circuit there, and of what comes in.
ghost use Rattle.std.specs.Prelude.{◌≡◌, ◌≤◌, ◌<◌, ◌+◌, length, IsSome};
ghost use Rattle.gos_types.specs.Types.{type_of, IsGround};
ghost use Rattle.gos_plan.specs.Kinds.{contacts_of};
ghost use Rattle.gos_plan.specs.Plans.{contact_at, IsRight};
ghost use Rattle.gos_plan.specs.Seen.{plan_of, end_of};
ghost use Rattle.gos_expand.specs.Laid.{request_start, leaves, arrives};
ghost use Rattle.gos_expand.specs.inner.Tokens.{held_nets};
ghost use Rattle.gos_plan.specs.Size.{plan_size};
ghost use Rattle.gos_expand.specs.Acceptance.{HasGroundPorts};
ghost use Rattle.gos_expand.specs.inner.Numbering.{IsNumbered, laying_in};

use crate::arrivals::Origin;
use crate::numbering::Numbering;
use crate::tokens::{Nets, nets_from, token_size};
use gos_plan::{End, Plan};
use gos_types::Ty;

// The nets of what goes into the circuit at an end: of a part's gates, or of the inputs of a port.
pub(crate) fn leaves(plan: &Plan, numbering: &Numbering<'_>, end: End) -> Nets
    requires ports { HasGroundPorts plan.now }
    requires size { plan_size (plan_of plan.now) ≤ 5000000 }
    requires numbered { IsNumbered (plan_of plan.now) numbering.now }
    requires there { IsSome (contact_at (plan_of plan.now) (end_of end)) }
    ensures { held_nets result ≡ leaves (laying_in numbering.now) (plan_of plan.now) (end_of end) }
{
    let Some(entry) = numbering.arrivals.get(end) else {
        unreachable!()
    };
    let contact = entry.contact;
    match end {
        End::Part { part, shake } => {
            let Some(nets) = numbering.departures.get(part, shake) else {
                unreachable!()
            };
            nets
        }
        End::Import { import, shake } => {
            let starts = numbering.ports.as_slice();
            let start = starts[import as usize + 1];
            let request = request_start(&plan.imports()[import as usize].ty, start, shake);
            nets_from(contact.answer_bits, request + token_size(contact.ask_bits))
        }
        End::Result { shake } => {
            let request = request_start(plan.result(), numbering.ports[0], shake);
            nets_from(contact.ask_bits, request)
        }
    }
}

// The net where the request of a handshake of a port begins, if the port's first cell is `start`.
fn request_start(ty: &Ty, start: u32, shake: u32) -> u32
    requires ground { IsGround (type_of ty.now) }
    requires there { shake < length (contacts_of (type_of ty.now)) }
    requires room { start + 3 ≤ 4294967295 }
    ensures is { result ≡ request_start start (contacts_of (type_of ty.now)) shake }
    ensures few { result ≤ start + 3 }
{
    match (ty, shake) {
        (Ty::Var(w), 1) => start + 1 + token_size(*w),
        _ => start,
    }
}

// The nets of what comes in at an end: those of cells of its own, or those that leave at the other end of its joint.
pub(crate) fn arrives(plan: &Plan, numbering: &Numbering<'_>, end: End) -> Nets
    requires ports { HasGroundPorts plan.now }
    requires size { plan_size (plan_of plan.now) ≤ 5000000 }
    requires right { IsRight (plan_of plan.now) }
    requires numbered { IsNumbered (plan_of plan.now) numbering.now }
    requires there { IsSome (contact_at (plan_of plan.now) (end_of end)) }
    ensures { held_nets result ≡ arrives (laying_in numbering.now) (plan_of plan.now) (end_of end) }
{
    let Some(entry) = numbering.arrivals.get(end) else {
        unreachable!()
    };
    let Some(origin) = entry.origin else {
        return nets_from(entry.bits(), numbering.parts_start);
    };
    match origin {
        Origin::Cells(start) => nets_from(entry.bits(), start),
        Origin::Other(other) => leaves(plan, numbering, other),
    }
}
