// What the gates of a part are, and the law that they keep.
//
// `gates.rt` has the trait `Macro`, which a type that lays parts out as cells has: how many cells there are, which nets go
// out, and whether a path without registers leads through. Its laws stand in `specs/Kept` and `specs/Paths`: in each cycle
// the gates do what the part does by its rows. `cells.rt` has small words for those who make cells. The types stand above:
// gos_control, gos_data and gos_share.
//
// `laws` says what holds of the gates of any part: where paths lead (`path_search`), and that what a part shows depends on
// what came in at those handshakes alone from which a path leads (`causal`); and what the law says of small gates (`gates`).
#![tactic(auto)]

pub mod cells;
mod gates;
pub mod laws;

pub use gates::{Macro, Wire};
