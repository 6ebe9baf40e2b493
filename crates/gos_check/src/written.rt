// Widths, lengths, literals, and types as they are written.

ghost use Rattle.std.specs.Prelude.{◌≡◌, ◌<◌, ◌≤◌, IfOk, IfErr};
ghost use Rattle.gos_types.specs.Types.{type_of, Exp};
ghost use Rattle.gos_model.specs.Weight.{count};
ghost use Rattle.gos_check.specs.Sizes.{IsCountable};
ghost use Rattle.gos_check.specs.Faults.{Refuses};
ghost use Rattle.gos_check.specs.Written.{is_width, first_of, bad_width, small, written, written_width, is_length, written_length, literal};

use crate::fault::CheckFault;
use gos_lex::Span;
use gos_types::{Ty, count, fits, is_width};

// How many handshakes a type may have.
const MAX_HANDSHAKES: u64 = 64;

// A number, where it is no width.
fn wrong(width: u32) -> Option<u32>
    ensures { result ≡ bad_width (Exp width) }
{
    if is_width(width) { None } else { Some(width) }
}

// The first number of a type, from the left, that is no width.
fn bad_width(ty: &Ty) -> Option<u32>
    ensures { result ≡ bad_width (type_of ty.now) }
{
    match ty {
        Ty::Com => None,
        Ty::Exp(width) | Ty::Var(width) => wrong(*width),
        Ty::Pair(a, b) | Ty::Fun(a, b) => first_of(bad_width(a), bad_width(b)),
    }
}

// The first of two, where there is one.
fn first_of(first: Option<u32>, other: Option<u32>) -> Option<u32>
    ensures { result ≡ first_of first other }
{
    match first {
        Some(width) => Some(width),
        None => other,
    }
}

// How many handshakes a type has, where they are no more than are allowed.
pub(crate) fn small(span: Span, ty: &Ty) -> Result<u64, CheckFault>
    requires { IsCountable (type_of ty.now) }
    ensures count { IfOk result (λ n. n ≡ count (type_of ty.now)) }
    ensures within { IfOk result (λ n. n ≤ 64) }
    ensures ok { IfOk result (λ _. small span (type_of ty.now) ≡ Ok (type_of ty.now)) }
    ensures err { IfErr result (λ e. Refuses (small span (type_of ty.now)) e) }
{
    let handshakes = count(ty);
    if handshakes > MAX_HANDSHAKES {
        Err(CheckFault::TypeTooLarge { span, handshakes })
    } else {
        Ok(handshakes)
    }
}

// Whether a written type has widths alone, and no more handshakes than are allowed; how many these are.
pub(crate) fn written(span: Span, ty: &Ty) -> Result<u64, CheckFault>
    requires { IsCountable (type_of ty.now) }
    ensures count { IfOk result (λ n. n ≡ count (type_of ty.now)) }
    ensures within { IfOk result (λ n. n ≤ 64) }
    ensures ok { IfOk result (λ _. written span (type_of ty.now) ≡ Ok (type_of ty.now)) }
    ensures err { IfErr result (λ e. Refuses (written span (type_of ty.now)) e) }
{
    match bad_width(ty) {
        Some(width) => Err(CheckFault::Width {
            span,
            width,
            value: 0,
        }),
        None => small(span, ty),
    }
}

// Whether the written width of a variable is one.
pub(crate) fn written_width(span: Span, width: u32) -> Result<(), CheckFault>
    ensures ok { IfOk result (λ _. written_width span width ≡ Ok tt) }
    ensures err { IfErr result (λ e. Refuses (written_width span width) e) }
{
    if is_width(width) {
        Ok(())
    } else {
        Err(CheckFault::Width {
            span,
            width,
            value: 0,
        })
    }
}

// Whether an array may have so many numbers.
fn is_length(length: u32) -> bool
    ensures { result ≡ is_length length }
{
    length == 2 || length == 4 || length == 8 || length == 16
}

// Whether the written length of an array is one.
#[tactic(auto, using(crate::proofs::AcceptLemmas::length_few))]
pub(crate) fn written_length(span: Span, length: u32) -> Result<(), CheckFault>
    ensures ok { IfOk result (λ _. written_length span length ≡ Ok tt) }
    ensures few { IfOk result (λ _. length ≤ 16) }
    ensures err { IfErr result (λ e. Refuses (written_length span length) e) }
{
    if is_length(length) {
        Ok(())
    } else {
        Err(CheckFault::Length { span, length })
    }
}

// The type of a literal.
pub(crate) fn literal(span: Span, value: u64, width: u32) -> Result<Ty, CheckFault>
    ensures ok { IfOk result (λ ty. literal span value width ≡ Ok (type_of ty)) }
    ensures err { IfErr result (λ e. Refuses (literal span value width) e) }
{
    written_width(span, width)?;
    if fits(value, width) {
        Ok(Ty::Exp(width))
    } else {
        Err(CheckFault::Width { span, width, value })
    }
}
