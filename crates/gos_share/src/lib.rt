// The gates of a Share: one source, used by two callers in turn.
//
// `sharing.rt` has the type and its `Macro`, which the layers above use. `shared.rt` goes through the handshakes of a type,
// `cells.rt` makes the cells of one, `row.rt` places those of all, `sides.rt` fills in what goes out, and `passing.rt` tells
// where a path without registers leads. The layout is told in `specs/Blocks` (one handshake) and `specs/Share` (all of them).
// That it does what a Share does by its rows is `specs/laws/Kept`, and where paths lead is `specs/laws/Paths`, in the words of
// `gos_macro/specs/Law`.
#![tactic(auto)]

mod cells;
mod laws;
mod passing;
mod row;
mod shared;
mod sharing;
mod sides;

pub use laws::small_passing;
pub use shared::{Shared, next};
pub use sharing::Sharing;
