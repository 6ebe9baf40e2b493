// Words: numbers in memory, of 32 bits or of 64.
ghost use Rattle.std.specs.Prelude.{◌≡◌, ℕ, ◌+◌, ◌-◌, ◌<◌, ◌≤◌, ◌^◌, ◌%◌, ◌↔◌, IfOk, IsTrue, length, map, replicate, bit_and, bit_or, bit_xor, nat_eq, nat_lt};
ghost use Rattle.std.proofs.Common.{rules};
ghost use Rattle.gos_sim.specs.Cycle.{bit};

use gos_types::greatest;
use std::alloc::{AllocError, Global};

/// A number in memory, of so many bits at most.
pub trait Word: Copy {
    ghost bits: { ℕ };

    ghost number: { Self → ℕ };

    /// The word of a number.
    fn of(value: u64) -> Self
        requires { value < 2 ^ bits }
        ensures { number result ≡ value };

    /// 1 or 0.
    fn of_bit(on: bool) -> Self
        ensures { number result ≡ bit on };

    /// So many zeros. `Err` is want of memory.
    fn zeros(alloc: Global, count: usize) -> Result<Vec<Self>, AllocError>
        ensures { IfOk result (λ words. map number words.items ≡ replicate count 0) };

    /// Makes all of them 0.
    fn clear(words: &mut [Self])
        ensures { map number words.new ≡ replicate (length words.old) 0 };

    /// The number of a word.
    fn number(self) -> u64
        ensures { result ≡ number self };

    /// Whether both are the same.
    fn is(self, other: Self) -> bool
        ensures { result ≡ nat_eq (number self) (number other) };

    /// Whether the first is below the second.
    fn is_below(self, other: Self) -> bool
        ensures { result ≡ nat_lt (number self) (number other) };

    /// The bits that both have.
    fn and(self, other: Self) -> Self
        ensures { number result ≡ bit_and (number self) (number other) };

    /// The bits that either has.
    fn or(self, other: Self) -> Self
        ensures { number result ≡ bit_or (number self) (number other) };

    /// The bits that one of both has.
    fn xor(self, other: Self) -> Self
        ensures { number result ≡ bit_xor (number self) (number other) };

    /// All of so many bits turned.
    fn turned(self, width: u32) -> Self
        requires { width ≤ bits }
        ensures { number result ≡ 2 ^ width - 1 - number self };

    /// The sum in so many bits.
    fn sum(self, width: u32, other: Self) -> Self
        requires { width ≤ bits }
        ensures { number result ≡ (number self + number other) % 2 ^ width };

    /// The difference in so many bits.
    fn difference(self, width: u32, other: Self) -> Self
        requires { width ≤ bits }
        ensures { number result ≡ (number self + 2 ^ width - number other) % 2 ^ width };

    // Numbers of 32 bits have a word of either size.
    ghost roomy: { 32 ≤ bits };
}

impl Word for u32 {
    ghost bits = { 32 };

    ghost number = { λ n. n };

    fn of(value: u64) -> u32 {
        value as u32
    }

    fn of_bit(on: bool) -> u32 {
        u32::from(on)
    }

    fn zeros(alloc: Global, count: usize) -> Result<Vec<u32>, AllocError> {
        vec![in alloc; 0; count]
    }

    fn clear(words: &mut [u32]) {
        words.fill(0);
    }

    fn number(self) -> u64 {
        u64::from(self)
    }

    fn is(self, other: u32) -> bool {
        self == other
    }

    fn is_below(self, other: u32) -> bool {
        self < other
    }

    fn and(self, other: u32) -> u32 {
        self & other
    }

    fn or(self, other: u32) -> u32 {
        self | other
    }

    fn xor(self, other: u32) -> u32 {
        self ^ other
    }

    fn turned(self, width: u32) -> u32 {
        greatest(width).saturating_sub(u64::from(self)) as u32
    }

    fn sum(self, width: u32, other: u32) -> u32 {
        lowest(width, u64::from(self) + u64::from(other))
    }

    fn difference(self, width: u32, other: u32) -> u32 {
        let next = greatest(width) + 1;
        lowest(
            width,
            (u64::from(self) + next).saturating_sub(u64::from(other)),
        )
    }

    ghost roomy = { Prim.search rules };
}

impl Word for u64 {
    ghost bits = { 64 };

    ghost number = { λ n. n };

    fn of(value: u64) -> u64 {
        value
    }

    fn of_bit(on: bool) -> u64 {
        u64::from(on)
    }

    fn zeros(alloc: Global, count: usize) -> Result<Vec<u64>, AllocError> {
        vec![in alloc; 0; count]
    }

    fn clear(words: &mut [u64]) {
        words.fill(0);
    }

    fn number(self) -> u64 {
        self
    }

    fn is(self, other: u64) -> bool {
        self == other
    }

    fn is_below(self, other: u64) -> bool {
        self < other
    }

    fn and(self, other: u64) -> u64 {
        self & other
    }

    fn or(self, other: u64) -> u64 {
        self | other
    }

    fn xor(self, other: u64) -> u64 {
        self ^ other
    }

    fn turned(self, width: u32) -> u64 {
        greatest(width).saturating_sub(self)
    }

    fn sum(self, width: u32, other: u64) -> u64 {
        gos_types::sum(width, self, other)
    }

    fn difference(self, width: u32, other: u64) -> u64 {
        gos_types::difference(width, self, other)
    }

    ghost roomy = { Prim.search rules };
}

// The lowest bits of a number, so many of them.
fn lowest(width: u32, number: u64) -> u32
    requires { width ≤ 32 }
    ensures { result ≡ number % 2 ^ width }
{
    (number & greatest(width)) as u32
}
