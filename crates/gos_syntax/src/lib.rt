// The syntax of the source language: its trees, the parser, and the printer.
//
// `parse` makes a module of the tokens of a text. Read `terms.rt` first (what a tree is), then `parser.rt`.
// The grammar stands in specs/Grammar.antt, apart from the parser; it is over the trees of specs/Trees.antt.
#![tactic(auto)]

pub use fault::SyntaxFault;
pub use law::{one_answer, one_grammar, printed_module};
pub use module::{Import, Module};
pub use parser::parse;
pub use printer::print;
pub use terms::{Form, Op, Term};

mod fault;
mod law;
mod levels;
mod limits;
mod module;
mod nesting;
mod operators;
mod parser;
mod phrases;
mod printer;
mod source;
mod terms;
mod types;
