// Which edges a graph may have without a ring, told as they come.
//
// `Order::add` takes an edge exactly where it closes no ring with those that were taken, in time that grows with what
// is near the edge and not with the graph. `Order::depths` tells how deep the nodes lie. Read `order.rt` first, with
// `specs/Rings` (what a ring is) and `specs/Depths`; then `levels.rt`, how room is made for an edge, `search.rt`,
// `depths.rt`, `links.rt` (the edges) and `nodes.rt` (what a search has reached).
#![tactic(auto)]

mod depths;
mod laws;
mod levels;
mod links;
mod nodes;
mod order;
mod search;

pub use laws::{small_depths, small_rings};
pub use order::Order;
