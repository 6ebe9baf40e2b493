// The worked examples: weights, and each fault with its places, names and numbers.

use gos_check::{
    CheckFault, Linear, Node, NodeForm, Split, Want, check, found_exactly, parsed_is_countable,
};
use gos_lex::{Span, scan};
use gos_syntax::parse;
use gos_types::Ty;
use std::alloc::Global;
use std::test::Fail;

// A fault of a source. Its types have tests of their own.
#[derive(Drop, PartialEq)]
enum Told<'a> {
    Unbound(&'a [u8], Span),
    Differs(Span),
    NotFunction(Span),
    NotPair(Span),
    Shared(&'a [u8], Span, Span),
    Width(Span, u32, u64),
    TypeTooLarge(Span, u64),
    Repeated(&'a [u8], Span, Span),
    TooHeavy(u64),
    Length(Span, u32),
    NoMemory,
}

fn tell<'a>(fault: &'a CheckFault) -> Told<'a> {
    match fault {
        CheckFault::Unbound { name, span } => Told::Unbound(name.bytes(), *span),
        CheckFault::Differs { span, .. } => Told::Differs(*span),
        CheckFault::NotFunction { span, .. } => Told::NotFunction(*span),
        CheckFault::NotPair { span, .. } => Told::NotPair(*span),
        CheckFault::Shared {
            name,
            first,
            second,
        } => Told::Shared(name.bytes(), *first, *second),
        CheckFault::Width { span, width, value } => Told::Width(*span, *width, *value),
        CheckFault::TypeTooLarge { span, handshakes } => Told::TypeTooLarge(*span, *handshakes),
        CheckFault::Repeated {
            name,
            first,
            second,
        } => Told::Repeated(name.bytes(), *first, *second),
        CheckFault::TooHeavy { weight } => Told::TooHeavy(*weight),
        CheckFault::Length { span, length } => Told::Length(*span, *length),
        CheckFault::NoMemory => Told::NoMemory,
    }
}

fn checked(alloc: Global, text: &[u8]) -> Result<Result<Linear, CheckFault>, Fail> {
    let tokens = scan(alloc, text)?;
    let program = parse(alloc, text, tokens.as_slice())?;
    parsed_is_countable(text, tokens.as_slice(), &program);
    Ok(check(alloc, &program))
}

// Sources, and the weight that each has.
const WEIGHTS: [(&[u8], u64); 10] = [
    (b"export skip : com", 5),
    (
        b"export new a[4] : 8 in (a 1:2 := 7:8 ; !(a 1:2) + !(a 0:2)) : exp 8",
        93,
    ),
    (b"import c : com import d : com export c ; d ; c : com", 27),
    (
        b"import f : com -> com import v : var 8 export f (v := 1:8) ; f (v := 2:8) : com",
        63,
    ),
    (b"export fun a : com . a ; a : com -> com", 21),
    (
        b"import e : exp 8 export (fun x : exp 8 . x + x) e : exp 8",
        32,
    ),
    (
        b"import c : com export new x : 1 in while !x = 0:1 do (x := 1:1 ; c) : com",
        58,
    ),
    (
        b"import rep : exp 8 -> com -> com import tick : com import phase_a : com import phase_b : com import size : exp 8 export rep size (phase_a ; phase_b ; tick) : com",
        55,
    ),
    (
        b"export fun n : exp 8 . fun b : com . new i : 8 in (i := n ; while not (!i = 0:8) do (b ; i := !i - 1:8)) : exp 8 -> com -> com",
        112,
    ),
    (b"import v : var 8 export v := !v + 1:8 : com", 34),
];

#[test]
fn worked_sources_have_weights(rt: HostRuntime) -> Result<(), Fail> {
    for (text, weight) in WEIGHTS.iter() {
        let linear = checked(rt.alloc(), text)??;
        assert!(rt; linear.weight() == *weight);
    }
    Ok(())
}

// Sources, and the fault that each is told.
const FAULTS: [(&[u8], Told<'static>); 17] = [
    (
        b"export (fun x : com . x) d : com",
        Told::Unbound(b"d", Span { from: 25, to: 26 }),
    ),
    (
        b"export not skip : com",
        Told::Differs(Span { from: 11, to: 15 }),
    ),
    (b"export 3:8 : com", Told::Differs(Span { from: 7, to: 10 })),
    (
        b"export skip skip : com",
        Told::NotFunction(Span { from: 7, to: 11 }),
    ),
    (
        b"export fst skip : com",
        Told::NotPair(Span { from: 11, to: 15 }),
    ),
    (
        b"import c : com export c || c : com",
        Told::Shared(b"c", Span { from: 22, to: 23 }, Span { from: 27, to: 28 }),
    ),
    (
        b"import f : com -> com export f (f skip) : com",
        Told::Shared(b"f", Span { from: 29, to: 30 }, Span { from: 32, to: 33 }),
    ),
    (
        b"export 32:5 : exp 5",
        Told::Width(Span { from: 7, to: 11 }, 5, 32),
    ),
    (
        b"import e : exp 65 export e : exp 65",
        Told::Width(Span { from: 11, to: 17 }, 65, 0),
    ),
    (
        b"export new x : 0 in skip : com",
        Told::Width(Span { from: 15, to: 16 }, 0, 0),
    ),
    (
        b"export fun x : var 1*var 1*var 1*var 1*var 1*var 1*var 1*var 1*var 1*var 1*var 1*var 1*var 1*var 1*var 1*var 1*var 1*var 1*var 1*var 1*var 1*var 1*var 1*var 1*var 1*var 1*var 1*var 1*var 1*var 1*var 1*var 1*var 1 . skip : com",
        Told::TypeTooLarge(Span { from: 15, to: 212 }, 66),
    ),
    (
        b"import c : com import c : com export c : com",
        Told::Repeated(b"c", Span { from: 7, to: 8 }, Span { from: 22, to: 23 }),
    ),
    (
        b"export new a[3] : 65 in skip : com",
        Told::Length(Span { from: 13, to: 14 }, 3),
    ),
    // The array's type is exp 2 -> var 8.
    (
        b"export new a[4] : 8 in a 0:1 := 7:8 : com",
        Told::Differs(Span { from: 25, to: 28 }),
    ),
    // Of two faults the first is told: the repeated name, the written width, the left part.
    (
        b"import c : com import c : exp 0 export d : com",
        Told::Repeated(b"c", Span { from: 7, to: 8 }, Span { from: 22, to: 23 }),
    ),
    (
        b"export d : exp 0",
        Told::Width(Span { from: 11, to: 16 }, 0, 0),
    ),
    (
        b"export fst skip ; d : com",
        Told::NotPair(Span { from: 11, to: 15 }),
    ),
];

// Whether a source is told this fault.
fn is_told(alloc: Global, text: &[u8], wanted: &Told) -> Result<bool, Fail> {
    match checked(alloc, text)? {
        Ok(_) => Ok(false),
        Err(fault) => Ok(tell(&fault) == *wanted),
    }
}

#[test]
fn worked_sources_are_told_their_faults(rt: HostRuntime) -> Result<(), Fail> {
    for (text, fault) in FAULTS.iter() {
        let told = is_told(rt.alloc(), text, fault)?;
        assert!(rt; told);
    }
    Ok(())
}

// The fault of a source; none where it has none.
fn fault_of(alloc: Global, text: &[u8]) -> Result<Option<CheckFault>, Fail> {
    match checked(alloc, text)? {
        Ok(_) => Ok(None),
        Err(fault) => Ok(Some(fault)),
    }
}

#[test]
fn a_wrong_operand_tells_types(rt: HostRuntime) -> Result<(), Fail> {
    let operand = fault_of(rt.alloc(), b"export not skip : com")?;
    assert!(rt;
        matches!(
            operand,
            Some(CheckFault::Differs {
                want: Want::AnyExp,
                got: Ty::Com,
                ..
            })
        )
    );
    Ok(())
}

#[test]
fn a_wrong_result_tells_types(rt: HostRuntime) -> Result<(), Fail> {
    let result = fault_of(rt.alloc(), b"export 3:8 : com")?;
    assert!(rt;
        matches!(
            result,
            Some(CheckFault::Differs {
                want: Want::Just(Ty::Com),
                got: Ty::Exp(8),
                ..
            })
        )
    );
    Ok(())
}

#[test]
fn a_wrong_read_tells_types(rt: HostRuntime) -> Result<(), Fail> {
    let read = fault_of(rt.alloc(), b"export !skip : com")?;
    assert!(rt;
        matches!(
            read,
            Some(CheckFault::Differs {
                want: Want::AnyVar,
                got: Ty::Com,
                ..
            })
        )
    );
    Ok(())
}

// Thirty brackets of 28 `skip` each.
fn long_sequence(alloc: Global) -> Result<Vec<u8>, Fail> {
    let mut text = Vec::new(alloc);
    text.extend_from_slice(b"export ")?;
    for _ in 0..29 {
        push_bracket(&mut text)?;
        text.extend_from_slice(b";")?;
    }
    push_bracket(&mut text)?;
    text.extend_from_slice(b" : com")?;
    Ok(text)
}

#[test]
fn a_long_sequence_is_too_heavy(rt: HostRuntime) -> Result<(), Fail> {
    let text = long_sequence(rt.alloc())?;
    let told = is_told(rt.alloc(), text.as_slice(), &Told::TooHeavy(8395))?;
    assert!(rt; told);
    Ok(())
}

fn push_bracket(text: &mut Vec<u8>) -> Result<(), Fail> {
    text.extend_from_slice(b"(skip")?;
    for _ in 0..27 {
        text.extend_from_slice(b";skip")?;
    }
    text.extend_from_slice(b")")?;
    Ok(())
}

fn split(of: u32, left: u32, right: u32) -> Split {
    Split { of, left, right }
}

// Whether a term is a sequence that uses the numbers 1 and 2, into which it splits 0.
fn is_shared(term: &Node) -> bool {
    match &term.form {
        NodeForm::Seq(m, n) => {
            term.splits.as_slice() == [split(0, 1, 2)].as_slice()
                && matches!(m.form, NodeForm::Use(1))
                && matches!(n.form, NodeForm::Use(2))
        }
        _ => false,
    }
}

#[test]
fn a_sharing_is_written_out(rt: HostRuntime) -> Result<(), Fail> {
    let linear = checked(rt.alloc(), b"import c : com export c ; c : com")??;
    assert!(rt; linear.imports().len() == 1 && matches!(linear.result(), Ty::Com));
    assert!(rt; is_shared(linear.term()));
    Ok(())
}

// A split holds in the splits behind it.
#[test]
fn splits_of_a_choice_are_in_order(rt: HostRuntime) -> Result<(), Fail> {
    let source = b"import e : exp 1 export if e then e else e : exp 1";
    let linear = checked(rt.alloc(), source)??;
    let splits = [split(0, 3, 4), split(3, 1, 2)];
    assert!(rt; linear.term().splits.as_slice() == splits.as_slice());
    Ok(())
}

#[test]
fn the_law_returns() {
    found_exactly();
}
