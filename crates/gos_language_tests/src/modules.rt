// Each public call once, at small sources whose trees and places were written by hand.

use gos_lex::{LexFault, Span, scan};
use gos_syntax::{
    Form, Import, Module, Op, SyntaxFault, Term, one_answer, one_grammar, parse, print,
    printed_module,
};
use gos_types::{Ty, same};
use std::alloc::{AllocError, Global};
use std::test::Fail;

fn parsed(alloc: Global, text: &[u8]) -> Result<Result<Module, SyntaxFault>, LexFault> {
    let tokens = scan(alloc, text)?;
    Ok(parse(alloc, text, tokens.as_slice()))
}

// The module of a text that is one.
fn read(alloc: Global, text: &[u8]) -> Result<Module, Fail> {
    Ok(parsed(alloc, text)??)
}

fn sequence(term: &Term) -> Option<(&Term, &Term)> {
    match &term.form {
        Form::Seq(first, second) => Some((first, second)),
        _ => None,
    }
}

fn application(term: &Term) -> Option<(&Term, &Term)> {
    match &term.form {
        Form::App(function, argument) => Some((function, argument)),
        _ => None,
    }
}

fn operation(term: &Term) -> Option<(Op, &Term, &Term)> {
    match &term.form {
        Form::Bin(op, left, right) => Some((*op, left, right)),
        _ => None,
    }
}

fn at(from: usize, to: usize) -> Span {
    Span { from, to }
}

fn stands(term: &Term, from: usize, to: usize) -> bool {
    term.span == at(from, to)
}

// Whether an import is `d : exp 8`, as it stands from byte 22 on.
fn is_expression(import: Option<&Import>) -> bool {
    match import {
        Some(import) => {
            import.name.bytes() == b"d".as_slice()
                && import.name_span == at(22, 23)
                && same(&import.ty, &Ty::Exp(8))
                && import.ty_span == at(26, 31)
        }
        None => false,
    }
}

// Whether a term is `c ; c`, as it stands from byte 39 on.
fn is_sequence(term: &Term) -> bool {
    match sequence(term) {
        Some((first, second)) => {
            stands(term, 39, 44) && stands(first, 39, 40) && stands(second, 43, 44)
        }
        None => false,
    }
}

#[test]
fn reads_imports_and_a_body(rt: HostRuntime) -> Result<(), Fail> {
    let source = b"import c : com import d : exp 8 export c ; c : com";
    let module = read(rt.alloc(), source)?;
    assert!(rt; module.imports.len() == 2 && is_expression(module.imports.get(1)));
    assert!(rt; same(&module.result, &Ty::Com) && module.result_span == at(47, 50));
    assert!(rt; is_sequence(&module.body));
    Ok(())
}

// Whether a term is `a - f (x) + y`, as it stands from byte 7 on.
fn is_sum(term: &Term) -> bool {
    match operation(term) {
        Some((Op::Add, left, right)) => {
            stands(left, 7, 16) && stands(right, 19, 20) && is_difference(left)
        }
        _ => false,
    }
}

// Whether a term is `a - f (x)` of it.
fn is_difference(term: &Term) -> bool {
    match operation(term) {
        Some((Op::Sub, _, call)) => stands(call, 11, 16) && is_call(call),
        _ => false,
    }
}

// Whether a term is `f (x)` of it.
fn is_call(term: &Term) -> bool {
    match application(term) {
        Some((_, argument)) => stands(argument, 14, 15),
        None => false,
    }
}

#[test]
fn groups_operands_by_their_rules(rt: HostRuntime) -> Result<(), Fail> {
    let module = read(rt.alloc(), b"export a - f (x) + y ; (b) ; c : com")?;
    let (first, others) = sequence(&module.body).ok_or("a sequence")?;
    assert!(rt; is_sum(first));
    assert!(rt; sequence(others).is_some() && stands(others, 23, 30));
    Ok(())
}

// What is printed of the module of a text.
fn printed(alloc: Global, text: &[u8]) -> Result<Vec<u8>, Fail> {
    Ok(print(alloc, &read(alloc, text)?)?)
}

#[test]
fn prints_what_reads_as_the_same_module(rt: HostRuntime) -> Result<(), Fail> {
    let source = b"import c : com export new x : 1 in while !x = 0:1 do (x := 1:1 ; c) : com";
    let wanted =
        b"import c : com\nexport new x : 1 in while ((!x) = 0:1) do ((x := 1:1) ; c) : com\n";
    let text = printed(rt.alloc(), source)?;
    assert!(rt; text.as_slice() == wanted.as_slice());
    let again = printed(rt.alloc(), text.as_slice())?;
    assert!(rt; again.as_slice() == wanted.as_slice());
    Ok(())
}

#[test]
fn prints_an_array(rt: HostRuntime) -> Result<(), Fail> {
    let source = b"export new a[4]:8 in (a 1:2 := 7:8 ; !(a 1:2)) : exp 8";
    let wanted = b"export new a[4] : 8 in ((a 1:2) := 7:8) ; (!(a 1:2)) : exp 8\n";
    let text = printed(rt.alloc(), source)?;
    assert!(rt; text.as_slice() == wanted.as_slice());
    let again = printed(rt.alloc(), text.as_slice())?;
    assert!(rt; again.as_slice() == wanted.as_slice());
    Ok(())
}

// The length of a block with an array, and its width, each with its place.
fn array_of(term: &Term) -> Option<(u32, Span, u32, Span)> {
    match &term.form {
        Form::Array {
            length,
            length_span,
            width,
            width_span,
            ..
        } => Some((*length, *length_span, *width, *width_span)),
        _ => None,
    }
}

#[test]
fn reads_an_array(rt: HostRuntime) -> Result<(), Fail> {
    let module = read(rt.alloc(), b"export new a[4] : 08 in skip : com")?;
    assert!(rt; stands(&module.body, 7, 28));
    assert!(rt; array_of(&module.body) == Some((4, at(13, 14), 8, at(18, 20))));
    Ok(())
}

// Texts that are no modules, and where each goes wrong.
const WRONG: [(&[u8], usize); 10] = [
    (b"", 0),
    (b"export skip com", 12),
    (b"export (skip : com", 13),
    (b"export skip : ", 14),
    (b"export skip : com com", 18),
    (b"export new x(2) : 8 in skip : com", 12),
    (b"export new x[2 : 8 in skip : com", 15),
    // Widths and lengths have 32 bits at most.
    (b"export new x[4294967296] : 8 in skip : com", 13),
    (b"export skip : exp 4294967296", 18),
    (b"export 4294967296:4294967296 : exp 1", 18),
];

#[test]
fn names_the_place_of_a_fault(rt: HostRuntime) {
    for (text, place) in WRONG.iter() {
        assert!(rt; has_fault(rt.alloc(), text, SyntaxFault::Unexpected { at: *place }));
    }
}

#[test]
fn counts_imports(rt: HostRuntime) -> Result<(), Fail> {
    let many = repeated(rt.alloc(), b"", b"import c : com ", 65)?;
    assert!(rt; has_fault(rt.alloc(), &many, SyntaxFault::TooManyImports { at: 960 }));
    Ok(())
}

#[test]
fn counts_open_tokens(rt: HostRuntime) -> Result<(), Fail> {
    let deep = repeated(rt.alloc(), b"export ", b"(", 1_100)?;
    assert!(rt; has_fault(rt.alloc(), &deep, SyntaxFault::Depth { at: 1_031 }));
    let less = repeated(rt.alloc(), b"export ", b"not ", 1_024)?;
    assert!(rt; has_fault(rt.alloc(), &less, SyntaxFault::Unexpected { at: 4_103 }));
    Ok(())
}

#[test]
fn laws_return() {
    one_answer();
    one_grammar();
    printed_module();
}

// Whether a text has tokens and is no module, for this fault.
fn has_fault(alloc: Global, text: &[u8], wanted: SyntaxFault) -> bool {
    match parsed(alloc, text) {
        Ok(Err(fault)) => fault == wanted,
        _ => false,
    }
}

fn repeated(alloc: Global, head: &[u8], part: &[u8], times: usize) -> Result<Vec<u8>, AllocError> {
    let mut text = head.to_vec(alloc)?;
    for _ in 0..times {
        text.extend_from_slice(part)?;
    }
    Ok(text)
}
