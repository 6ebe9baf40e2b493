// The terms of the source language, as they are written, with their places.

use gos_lex::{Name, Span};
use gos_types::Ty;

/// A term, and its place: from the first to the last byte of what its rule of the grammar derives. A term in brackets
/// has the place of the term inside.
#[cycle(term)]
#[derive(Debug, Drop)]
pub struct Term {
    pub span: Span,
    pub form: Form,
}

/// A binary operator.
#[derive(Clone, Copy, Debug, PartialEq, Eq)]
pub enum Op {
    /// `+`
    Add,
    /// `-`
    Sub,
    /// `&`
    And,
    /// `|`
    Or,
    /// `^`
    Xor,
    /// `=`
    Eq,
    /// `<`
    Less,
}

/// What a term is. Widths, lengths and values are as written: whether they are in their ranges is for the typing to say.
#[cycle(term)]
#[derive(Debug, Drop)]
pub enum Form {
    /// `skip`
    Skip,
    /// `value : width`
    Lit {
        value: u64,
        width: u32,
    },
    /// A name, of a binder around it or of an import.
    Name(Name),
    /// `fun name : ty . body`
    Fun {
        name: Name,
        ty: Ty,
        ty_span: Span,
        body: Box<Term>,
    },
    /// `new name : width in body`
    New {
        name: Name,
        width: u32,
        width_span: Span,
        body: Box<Term>,
    },
    /// `new name[length] : width in body`
    Array {
        name: Name,
        length: u32,
        length_span: Span,
        width: u32,
        width_span: Span,
        body: Box<Term>,
    },
    /// A function, and its argument.
    App(Box<Term>, Box<Term>),
    /// `( first , second )`
    Pair(Box<Term>, Box<Term>),
    /// `fst pair`
    Fst(Box<Term>),
    /// `snd pair`
    Snd(Box<Term>),
    /// `first ; second`
    Seq(Box<Term>, Box<Term>),
    /// `left || right`
    Par(Box<Term>, Box<Term>),
    /// `if test then yes else no`
    If(Box<Term>, Box<Term>, Box<Term>),
    /// `while test do body`
    While(Box<Term>, Box<Term>),
    /// `variable := value`
    Assign(Box<Term>, Box<Term>),
    /// `! variable`
    Deref(Box<Term>),
    /// `not operand`
    Not(Box<Term>),
    /// An operator between its operands.
    Bin(Op, Box<Term>, Box<Term>),
}
