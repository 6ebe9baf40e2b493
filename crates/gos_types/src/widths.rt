// How wide a number may be, which numbers a width holds, and what is computed in so many bits.
//
// What is asked here is right up to 64 bits, whatever the greatest width of the language is.
ghost use Rattle.std.specs.Prelude.{◌≡◌, ◌+◌, ◌-◌, ◌%◌, ◌^◌, ◌<◌, ◌≤◌, ◌↔◌, IsTrue};
ghost use Rattle.gos_types.specs.Widths.{IsWidth};

/// The greatest width of the language, in bits.
pub const GREATEST_WIDTH: u32 = 64;

/// The greatest number of the language: that of the greatest width.
pub const GREATEST_NUMBER: u64 = u64::MAX >> (64 - GREATEST_WIDTH);

/// Whether a number may be a width: 1 bit to the greatest width.
pub fn is_width(width: u32) -> bool
    ensures { IsTrue result ↔ IsWidth width }
{
    1 <= width && width <= GREATEST_WIDTH
}

/// Whether a number has at most so many bits. All have at most 64.
pub fn fits(number: u64, width: u32) -> bool
    ensures { IsTrue result ↔ (number < 2 ^ width) }
{
    if width >= u64::BITS {
        return true;
    }
    number < 1 << width
}

/// The greatest number of so many bits, which is 0 for none.
pub fn greatest(width: u32) -> u64
    requires { width ≤ 64 }
    ensures { result ≡ 2 ^ width - 1 }
{
    if width < u64::BITS {
        (1u64 << width) - 1
    } else {
        u64::MAX
    }
}

/// The sum of two numbers in so many bits, without its carry.
pub fn sum(width: u32, a: u64, b: u64) -> u64
    requires { width ≤ 64 }
    ensures { result ≡ (a + b) % 2 ^ width }
{
    lowest(width, u128::from(a) + u128::from(b))
}

/// The difference of two numbers in so many bits, without its borrow.
pub fn difference(width: u32, a: u64, b: u64) -> u64
    requires { width ≤ 64 }
    ensures { result ≡ (a + 2 ^ width - b) % 2 ^ width }
{
    let next = u128::from(greatest(width)) + 1;
    lowest(width, (u128::from(a) + next).saturating_sub(u128::from(b)))
}

// The lowest bits of a number, so many of them.
fn lowest(width: u32, number: u128) -> u64
    requires { width ≤ 64 }
    ensures { result ≡ number % 2 ^ width }
{
    (number & u128::from(greatest(width))) as u64
}
