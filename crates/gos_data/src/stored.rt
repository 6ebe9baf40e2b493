// A number that is stored: a write sets it, and an entry clears it.

ghost use Rattle.std.specs.Prelude.{◌≡◌, map};
ghost use Rattle.gos_netlist.specs.Seen.{cell_of};
ghost use Rattle.gos_data.specs.Stored.{stored_cells};

use gos_macro::cells::wide;
use gos_netlist::{Cell, Gate, NetId};

// The nets of its cells: what an entry leaves of it, what it is next, and the number.
#[derive(Drop)]
pub(crate) struct Stored {
    pub(crate) kept: NetId,
    pub(crate) next: NetId,
    pub(crate) number: NetId,
}

impl Stored {
    // Its cells. The net `stays` is 1 where there is no entry, and `sets` where `value` is written.
    pub(crate) fn cells(&self, w: u32, stays: NetId, sets: NetId, value: NetId) -> [Cell; 3]
        ensures { map cell_of result ≡ stored_cells w self.now.kept.0 self.now.next.0 self.now.number.0 stays.0 sets.0 value.0 }
    {
        [
            wide(w, Gate::Gate(stays, self.number)),
            wide(w, Gate::Mux(sets, value, self.kept)),
            wide(w, Gate::Reg(self.next)),
        ]
    }
}
