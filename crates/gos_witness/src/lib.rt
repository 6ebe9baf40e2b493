// Explained traces: lists of a program's moves, their texts, and a checker that makes the moves again and trusts nobody.
//
// It shares nothing with plans and circuits. A term is a list of nodes named by number, so that nothing here recurs as
// deep as a term.
//
// Of lines: `verifying.rt` makes the lines of a list of moves again. What a line does stands in specs/Lines, and what is
// answered in specs/Verify.
//
// Of texts: `reading.rt` and `printing.rt` lead from the text of a list of moves to the list and back; the text stands in
// specs/MovesText. `trace.rt` reads the labels of a trace, whose text stands in specs/TraceText. Why another text is
// refused stands in specs/TextFaults.
#![tactic(auto)]

mod adding;
mod binders;
mod binding;
mod changing;
mod compacting;
mod entry;
mod fault;
mod finding;
mod labels;
mod laws;
mod link_laws;
mod linking;
mod masks;
mod move_line;
mod moves;
mod needed;
mod nodes;
mod opening;
mod path_text;
mod port_table;
mod printing;
mod program;
mod putting;
mod reading;
mod reading_nodes;
mod showing;
mod stepping;
mod store;
mod substituting;
mod text_laws;
mod trace;
mod unfolding;
mod verifying;
mod walking;

pub use binding::Bound;
pub use fault::ExplainFault;
pub use finding::find;
pub use labels::Label;
pub use laws::{
    explained_is_trace, one_answer_of_lines, one_is_not_trace, small_finds, small_lines,
    small_steps,
};
pub use link_laws::{small_links, typed_is_narrow};
pub use linking::substitute;
pub use moves::{Line, Path};
pub use printing::print_moves;
pub use program::{Program, ProgramPort};
pub use reading::read_moves;
pub use text_laws::{one_answer, reads_back, small_texts};
pub use trace::read_labels;
pub use verifying::verify;
