// Pools: the cells of a netlist that is being made.
//
// A pool (`pool.rt`, `specs/Pools`) has its cells in regions (`region.rt`), one after another; all behind a mark can be taken
// back (`specs/Marks`). `laws.rt` has the law of marks.
#![tactic(auto)]

mod laws;
mod pool;
mod region;

pub use laws::marks_stay;
pub use pool::NetPool;
pub use region::{Mark, Region};
