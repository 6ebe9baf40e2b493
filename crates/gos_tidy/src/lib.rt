// Netlists with fewer cells.
//
// `specs` says what that means, in the order of `specs/Lib.antt`: `Mapped` has the single changes, as what a cell may be
// merged to; `Reduced` a netlist whose cells are merged and then left out where nothing names them; `Tidy` when no such
// change is left; and `Alike` that nobody outside can tell two netlists apart. `laws.rt` has the theorems.
#![tactic(auto)]

mod breach;
mod change;
mod classes;
mod constants;
mod drop;
mod fixed;
mod guess;
mod laws;
mod marking;
mod merge;
mod order;
mod quotient;
mod renaming;
mod rounds;
mod shape;
mod size;
mod slots;
mod steady;
mod users;

ghost use Rattle.std.specs.Prelude.{◌≡◌, IfOk, IfErr};
ghost use Rattle.gos_tidy.specs.Alike.{IsTidied};

use crate::rounds::rounds;
use gos_netcheck::{Checked, NetFault, accept};
use gos_types::NoMemory;
pub use laws::{mapped_cells, reduced_netlists, small_netlists, steady_netlists, unlike_netlists};
use std::alloc::Global;

/// The netlist, made tidy: nobody outside can tell them apart, and of its cells none is equal to another one, a gate of constants,
/// a net of its own, or leads nowhere. `Err` is want of memory alone, and hands the netlist back.
pub fn tidy(alloc: Global, net: Checked) -> Result<Checked, Checked>
    ensures tidied { IfOk result (IsTidied net) }
    ensures back { IfErr result (λ same. same ≡ net) }
{
    match rounds(alloc, &net) {
        Ok(other) => match accept(alloc, other) {
            Ok(checked) => Ok(checked),
            Err(refused) => match refused.fault {
                NetFault::NoMemory => Err(net),
                _ => unreachable!(),
            },
        },
        Err(NoMemory) => Err(net),
    }
}
