// The affine checker: whether a module is typed, and its first fault where it isn't; and the typed term of one that is.
//
// `check` is the one call. Read `checker.rt` first. Then comes the walk over the body (`judging.rt`) with the files that it
// uses: `judged.rt`, `written.rt`, `scope.rt`, `free.rt`, `demands.rt`. The typed term is made after that (`numbering.rt`,
// `joining.rt`, `opens.rt`). What is promised stands in `specs`, in the order of `specs/Lib.antt`: `Accepted` says which
// modules are accepted, `Judgements` which fault is the first, and `Linearity` what a typed term stands for.
#![tactic(auto)]

pub use checker::check;
pub use fault::{CheckFault, Want};
pub use forms::{OnePart, TwoParts};
pub use laws::{
    found_exactly, greatest_numeral, lengths, one_term, parsed_is_countable, small_terms,
};
pub use linear::{Linear, Node, NodeForm, Split};

mod checker;
mod demands;
mod fault;
mod forms;
mod free;
mod imports;
mod joining;
mod judged;
mod judging;
mod laws;
mod linear;
mod nodes;
mod numbering;
mod opens;
mod renaming;
mod scope;
mod written;
