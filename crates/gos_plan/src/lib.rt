// Plans: parts, the joints between them, and what parts do with tokens.
//
// A plan is what a module is compiled to: parts that are known by their kind, and joints that connect their handshakes.
// Requests and answers travel along the joints as tokens, and each part fires by the rules of its kind.
// Read `specs/Kinds`, `specs/Firing`, `specs/Plans` and `specs/Tokens`, in this order; then `laws.rt`.
//
// `printing.rt` and `reading.rt` lead from a plan to its text and back: `specs/ObjectText` and `specs/ObjectFaults`. The
// reader stands on `sections.rt` (a count and its lines), `import_line.rt`, `part_line.rt` and `joint_line.rt` (one line),
// `types.rt`, `word.rt` and `items.rt` (what lines are made of).
//
// `contacts.rt` has the handshakes of parts and of types; `specs/Size` bounds the cells of a plan's netlist.
//
// `firing.rt` is a plain, slow program that says what a part does with a token.
#![tactic(auto)]

mod contacts;
mod fault;
mod firing;
mod format;
mod import_line;
mod items;
mod joint_line;
mod kinds;
mod laws;
mod part_line;
mod plan;
mod printing;
mod reading;
mod seats;
mod sections;
mod types;
mod word;

pub use contacts::{Contact, part_contacts, type_contacts, user_contacts};
pub use fault::ObjectFault;
pub use firing::{Firing, Numbers, Phase, Puts, Slot, State, Token, fire};
pub use format::Format;
pub use kinds::{Kind, Op2};
pub use laws::{
    held_tokens, one_answer, one_joining, one_token_each, orderly_holds_one, orderly_is_decided,
    parts_fire, sides, small_arrays, small_calls, small_plans, tokens_fit, tokens_stay,
    two_formats,
};
pub use plan::{End, Joint, Plan, PlanImport, make};
pub use printing::print_object;
pub use reading::read_object;
