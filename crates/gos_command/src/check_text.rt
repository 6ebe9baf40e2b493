// What is wrong with a module that is not typed.

ghost use Rattle.std.specs.Prelude.{◌≡◌, ◌≢◌, ◌++◌, codes, IfOk, OnOk};
ghost use Rattle.gos_types.specs.Types.{type_of};
ghost use Rattle.gos_types.specs.TypeText.{type_text};
ghost use Rattle.gos_check.specs.declared.fault.CheckFault.TheVariants as check;
ghost use Rattle.gos_command.specs.Lines.{counted, span_text, want_text, twice_text, got_text, check_text};

use crate::fault_text::{add_count, counted};
use gos_check::{CheckFault, Want};
use gos_lex::Span;
use gos_types::{NoMemory, Ty, print_ty};
use std::alloc::Global;

/// The text of a fault of the checker, which is not want of memory.
pub fn check_text(alloc: Global, fault: &CheckFault) -> Result<Vec<u8>, NoMemory>
    ensures cause { IfOk result (λ _. fault.now ≢ check.NoMemory) }
    ensures text { IfOk result (λ text. text.items ≡ check_text fault.now) }
{
    match fault {
        CheckFault::Unbound { name, span } => unbound_text(alloc, name.bytes(), *span),
        CheckFault::Differs { span, want, got } => differs_text(alloc, *span, want, got),
        CheckFault::NotFunction { span, got } => got_text(alloc, b"C3 at ", *span, got),
        CheckFault::NotPair { span, got } => got_text(alloc, b"C4 at ", *span, got),
        CheckFault::Shared {
            name,
            first,
            second,
        } => twice_text(alloc, b"C5 ", name.bytes(), *first, *second),
        CheckFault::Width { span, width, value } => width_text(alloc, *span, *width, *value),
        CheckFault::TypeTooLarge { span, handshakes } => large_text(alloc, *span, *handshakes),
        CheckFault::Repeated {
            name,
            first,
            second,
        } => twice_text(alloc, b"C8 ", name.bytes(), *first, *second),
        CheckFault::TooHeavy { weight } => counted(alloc, b"C9 weight ", *weight),
        CheckFault::Length { span, length } => length_text(alloc, *span, *length),
        CheckFault::NoMemory => Err(NoMemory),
    }
}

fn unbound_text(alloc: Global, name: &[u8], span: Span) -> Result<Vec<u8>, NoMemory>
    ensures { IfOk result (λ text. text.items ≡ codes "C1 " ++ name.now ++ codes " at " ++ span_text span) }
{
    let mut text = b"C1 ".to_vec(alloc)?;
    text.extend_from_slice(name)?;
    text.extend_from_slice(b" at ")?;
    add_span(alloc, &mut text, span)?;
    Ok(text)
}

fn differs_text(alloc: Global, span: Span, want: &Want, got: &Ty) -> Result<Vec<u8>, NoMemory>
    ensures { IfOk result (λ text. text.items ≡ codes "C2 at " ++ span_text span ++ codes " want " ++ want_text want.now
        ++ codes " got " ++ type_text (type_of got.now)) }
{
    let wanted = want_text(alloc, want)?;
    let found = print_ty(alloc, got)?;
    let mut text = b"C2 at ".to_vec(alloc)?;
    add_span(alloc, &mut text, span)?;
    text.extend_from_slice(b" want ")?;
    text.extend_from_slice(wanted.as_slice())?;
    text.extend_from_slice(b" got ")?;
    text.extend_from_slice(found.as_slice())?;
    Ok(text)
}

fn want_text(alloc: Global, want: &Want) -> Result<Vec<u8>, NoMemory>
    ensures { IfOk result (λ text. text.items ≡ want_text want.now) }
{
    match want {
        Want::Just(ty) => print_ty(alloc, ty),
        Want::AnyExp => Ok(b"any exp".to_vec(alloc)?),
        Want::AnyVar => Ok(b"any var".to_vec(alloc)?),
        Want::ComOrExp => Ok(b"com or exp".to_vec(alloc)?),
    }
}

fn got_text(alloc: Global, word: &[u8], span: Span, got: &Ty) -> Result<Vec<u8>, NoMemory>
    ensures { IfOk result (λ text. text.items ≡ got_text word.now span (type_text (type_of got.now))) }
{
    let found = print_ty(alloc, got)?;
    let mut text = word.to_vec(alloc)?;
    add_span(alloc, &mut text, span)?;
    text.extend_from_slice(b" got ")?;
    text.extend_from_slice(found.as_slice())?;
    Ok(text)
}

fn twice_text(
    alloc: Global,
    word: &[u8],
    name: &[u8],
    first: Span,
    second: Span,
) -> Result<Vec<u8>, NoMemory>
    ensures { IfOk result (λ text. text.items ≡ twice_text word.now name.now first second) }
{
    let mut text = word.to_vec(alloc)?;
    text.extend_from_slice(name)?;
    text.extend_from_slice(b" at ")?;
    add_span(alloc, &mut text, first)?;
    text.extend_from_slice(b" and ")?;
    add_span(alloc, &mut text, second)?;
    Ok(text)
}

fn width_text(alloc: Global, span: Span, width: u32, value: u64) -> Result<Vec<u8>, NoMemory>
    ensures { IfOk result (λ text. text.items ≡ codes "C6 at " ++ span_text span ++ counted (codes " width ") width ++ counted (codes " value ") value) }
{
    let mut text = b"C6 at ".to_vec(alloc)?;
    add_span(alloc, &mut text, span)?;
    add_count(alloc, &mut text, b" width ", u64::from(width))?;
    add_count(alloc, &mut text, b" value ", value)?;
    Ok(text)
}

fn large_text(alloc: Global, span: Span, handshakes: u64) -> Result<Vec<u8>, NoMemory>
    ensures { IfOk result (λ text. text.items ≡ codes "C7 at " ++ span_text span ++ counted (codes " handshakes ") handshakes) }
{
    let mut text = b"C7 at ".to_vec(alloc)?;
    add_span(alloc, &mut text, span)?;
    add_count(alloc, &mut text, b" handshakes ", handshakes)?;
    Ok(text)
}

fn length_text(alloc: Global, span: Span, length: u32) -> Result<Vec<u8>, NoMemory>
    ensures { IfOk result (λ text. text.items ≡ codes "C10 at " ++ span_text span ++ counted (codes " length ") length) }
{
    let mut text = b"C10 at ".to_vec(alloc)?;
    add_span(alloc, &mut text, span)?;
    add_count(alloc, &mut text, b" length ", u64::from(length))?;
    Ok(text)
}

// Adds a place.
fn add_span(alloc: Global, text: &mut Vec<u8>, span: Span) -> Result<(), NoMemory>
    ensures { OnOk result (text.new.items ≡ text.old.items ++ span_text span) }
{
    add_count(alloc, text, b"", span.from as u64)?;
    add_count(alloc, text, b"..", span.to as u64)?;
    Ok(())
}
