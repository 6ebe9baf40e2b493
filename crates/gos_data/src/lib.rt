// The gates of literals, operators, complements, assignments, reads, local variables and arrays.
//
// `arith.rt` has `Arith`, which the crates above use; each kind has a file of its own: `lit.rt`, `op.rt`, `not.rt`,
// `assign.rt`, `deref.rt`, `local.rt`, `array.rt` with `words.rt`. What a Local and an Array share stands beside: `stored.rt` and
// `body_answer.rt`.
// Read `specs/Layout` first: it names the list of cells of each kind, which `place` puts, and what its registers stand for.
// That these gates do what a part of the kind does is `specs/laws/Kept`; the firing rules stand in gos_plan, and the law in
// `gos_macro/specs/Law`. `laws.rt` has small cases of what a Local and an Array keep.
#![tactic(auto)]

mod arith;
mod array;
mod assign;
mod body_answer;
mod deref;
pub mod laws;
mod lit;
mod local;
mod not;
mod op;
mod stored;
mod words;

pub use arith::Arith;
