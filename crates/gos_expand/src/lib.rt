// From plans to netlists: each part as its gates, each joint as those of its registers that are kept, and a port for
// the result and for each import.
//
// Read `specs/Laid` for the netlist that a plan is laid out as (behind `specs/Gates`, `Blocks` and `Starts`), and
// `whole.rt` for the call. A netlist is made in two steps. `numbering.rt` tells where each block of cells begins, by
// the table of `arrivals.rt` for what comes in at each end (at a net, or as it leaves at the other end of a joint
// without registers); `places.rt` lists the ends. Then `placing.rt` places the blocks in a pool that has room for all
// of them; `departures.rt` has the nets that go out of each part, and `leaves.rt` names those that go into the
// circuit at an end; `gates.rt` lays parts out, `tokens.rt` has the cells of a pulse and its number, and `outside.rt`
// makes the ports. `choosing.rt` tells which directions of joints keep their registers where few are wanted
// (`specs/Choices`), and `orders.rt` for which order of its handshakes a Share's gates are made: by number, or by rank
// (`ranks.rt`, `specs/Fast`). `into.rt` lays a plan out in a pool that has cells already (`specs/Into`).
#![tactic(auto)]

mod arrivals;
mod choosing;
mod departures;
mod gates;
mod into;
mod laws;
mod leaves;
mod numbering;
mod orders;
mod outside;
mod places;
mod placing;
mod ranks;
mod tokens;
mod whole;

pub use into::expand_into;
pub use laws::{
    circuits_are_accepted, circuits_make_lists, cycles_are_lists, fast_circuits, gates_keep,
    into_pools, laid_is_accepted, lists_of_facts, one_layout, outputs_are_silent, rings_are_cycles,
    small_choices, small_fast, small_nets,
};
pub use whole::{Policy, expand, expand_fast, expand_with};
