// Modules of the source language, as they are written.

use crate::terms::Term;
use gos_lex::{Name, Span};
use gos_types::Ty;
use std::marker::Model;

/// An import: a name and its type, each with its place.
#[derive(Debug, Drop)]
pub struct Import {
    pub name: Name,
    pub name_span: Span,
    pub ty: Ty,
    pub ty_span: Span,
}

impl Model for Import {
    ghost use Rattle.gos_syntax.specs.Modules.{SeenImport};
    ghost use Rattle.std.specs.Coded.{codes};
    ghost use Rattle.gos_types.specs.contracts.types.Ty as a_type;

    ghost Value = { SeenImport };

    ghost coded = { Prim.hlevel (codes, a_type.the_row.coded) };

    ghost view = { λ m. record { name = m.name; name_span = m.name_span; ty = m.ty; ty_span = m.ty_span } };
}

/// A module: its imports in written order, its body, and the type that it says the body has.
#[derive(Debug, Drop)]
pub struct Module {
    pub imports: Vec<Import>,
    pub body: Term,
    pub result: Ty,
    pub result_span: Span,
}

impl Model for Module {
    ghost use Rattle.gos_syntax.specs.Modules.{SeenModule};
    ghost use Rattle.std.specs.Coded.{codes};
    ghost use Rattle.gos_types.specs.contracts.types.Ty as a_type;
    ghost use Rattle.gos_syntax.specs.contracts.terms.Term as a_term;

    ghost Value = { SeenModule };

    ghost coded = { Prim.hlevel (codes, a_type.the_row.coded, a_term.the_row.coded) };

    ghost view = { λ m. record { imports = m.imports.items; body = m.body; result = m.result; result_span = m.result_span } };
}
