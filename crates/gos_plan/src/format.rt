// The two formats of object texts.
ghost use Rattle.std.specs.Prelude.{◌≡◌, ◌≤◌};
ghost use Rattle.gos_types.specs.declared.widths.TheConstants.{GREATEST_WIDTH};
ghost use Rattle.gos_plan.specs.Formats.{greatest};

use gos_types::GREATEST_WIDTH;

/// The format of an object text.
#[derive(Debug, Clone, Copy)]
pub enum Format {
    /// Widths up to 32, and no arrays.
    One,
    /// All widths, and arrays.
    Two,
}

impl Format {
    // The greatest width.
    pub(crate) fn greatest(self) -> u64
        ensures is { result ≡ greatest self }
        ensures some { 1 ≤ result }
        ensures few { result ≤ GREATEST_WIDTH }
    {
        match self {
            Format::One => 32,
            Format::Two => u64::from(GREATEST_WIDTH),
        }
    }
}
