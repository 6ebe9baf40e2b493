// Types, and the handshakes of a type.
//
// A type says which handshakes the holder of a term has with the rest of the circuit. Every other crate takes
// both from here: `handshakes` is the list that places, ports and parts are numbered by.
//
// Read `types.rt` first (what a type is), then `widths.rt` (its numbers), `shakes.rt` (its handshakes) and `text.rt` (how it is
// printed).
// The definitions stand in `specs`, in the order of `specs/Lib.antt`.
#![tactic(auto)]

mod fault;
mod laws;
mod shakes;
mod text;
mod types;
mod widths;

pub use fault::NoMemory;
pub use laws::{greatest_numbers, ports, sides, turning_twice};
pub use shakes::{Handshake, Role, Step, count, handshakes};
pub use text::print_ty;
pub use types::{Ty, array_type, copy, index_bits, is_ground, same};
pub use widths::{GREATEST_NUMBER, GREATEST_WIDTH, difference, fits, greatest, is_width, sum};
