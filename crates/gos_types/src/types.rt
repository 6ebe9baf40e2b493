// What a type is, and the questions about one that need no memory.
ghost use Rattle.std.specs.Prelude.{◌≡◌, ◌↔◌, ◌<◌, ◌^◌, IsTrue, IfOk};
ghost use Rattle.gos_types.specs.Types.{type_of, size, index_width, array_type, IsGround};

use crate::fault::NoMemory;
use std::alloc::Global;

/// A type of the source language. Widths are in bits; those to the greatest are used, and any number is kept.
#[derive(Debug, Drop)]
pub enum Ty {
    /// A command.
    Com,
    /// An expression of so many bits.
    Exp(u32),
    /// A variable of so many bits.
    Var(u32),
    /// A product: both sides, of which one is used at a time.
    Pair(Box<Ty>, Box<Ty>),
    /// A function, from its argument to its outcome.
    Fun(Box<Ty>, Box<Ty>),
}

/// Whether two types are the same.
pub fn same(a: &Ty, b: &Ty) -> bool
    ensures { IsTrue result ↔ (type_of a.now ≡ type_of b.now) }
{
    match (a, b) {
        (Ty::Com, Ty::Com) => true,
        (Ty::Exp(v), Ty::Exp(w)) => *v == *w,
        (Ty::Var(v), Ty::Var(w)) => *v == *w,
        (Ty::Pair(a, c), Ty::Pair(b, d)) => same(a, b) && same(c, d),
        (Ty::Fun(a, c), Ty::Fun(b, d)) => same(a, b) && same(c, d),
        _ => false,
    }
}

/// Whether a type is a command, an expression or a variable: what a port may be.
pub fn is_ground(ty: &Ty) -> bool
    ensures { IsTrue result ↔ IsGround (type_of ty.now) }
{
    match ty {
        Ty::Com | Ty::Exp(_) | Ty::Var(_) => true,
        Ty::Pair(_, _) | Ty::Fun(_, _) => false,
    }
}

/// A type that is the same as the given one. `Err` is want of memory alone.
pub fn copy(alloc: Global, ty: &Ty) -> Result<Ty, NoMemory>
    ensures { IfOk result (λ copy. type_of copy ≡ type_of ty.now) }
{
    Ok(match ty {
        Ty::Com => Ty::Com,
        Ty::Exp(w) => Ty::Exp(*w),
        Ty::Var(w) => Ty::Var(*w),
        Ty::Pair(a, b) => Ty::Pair(
            Box::new(alloc, copy(alloc, a)?)?,
            Box::new(alloc, copy(alloc, b)?)?,
        ),
        Ty::Fun(a, b) => Ty::Fun(
            Box::new(alloc, copy(alloc, a)?)?,
            Box::new(alloc, copy(alloc, b)?)?,
        ),
    })
}

/// How many bits the index of an array of `length` numbers has, where `length` is 2, 4, 8 or 16: 2 to this number is
/// `length`. It is 4 for any other.
pub fn index_bits(length: u32) -> u32
    ensures { result ≡ index_width length }
{
    match length {
        2 => 1,
        4 => 2,
        8 => 3,
        _ => 4,
    }
}

/// The type of an array of `length` numbers of `width` bits: from an index of `index_bits` bits to a variable. Arrays
/// have 2, 4, 8 or 16 numbers of 1 bit to the greatest width, and any number is kept here. `Err` is want of memory alone.
pub fn array_type(alloc: Global, length: u32, width: u32) -> Result<Ty, NoMemory>
    ensures ok { IfOk result (λ ty. type_of ty ≡ array_type length width) }
    ensures countable { IfOk result (λ ty. size (type_of ty) < 2 ^ 32) }
{
    let index = Box::new(alloc, Ty::Exp(index_bits(length)))?;
    Ok(Ty::Fun(index, Box::new(alloc, Ty::Var(width))?))
}
