// From which handshake to which a path without registers leads.

ghost use Rattle.std.specs.Prelude.{◌≡◌, ◌+◌, ◌≤◌, ◌||◌, length, nat_eq};
ghost use Rattle.gos_fast_share.specs.Fast.{fast_passing, sets_before};
ghost use Rattle.gos_fast_share.specs.inner.Seen.{all_of};

use crate::asking::{comes_before, who_asks};
use gos_types::{Ty, count};

// Whether what comes in at one handshake of the Share of a type goes out at another in the same cycle, where its gates
// are made for this order. The sides of one handshake of the type are asked alone, since no two have one in common.
pub(crate) fn passes(ty: &Ty, order: &[u32], from: u32, to: u32) -> bool
    requires { length (all_of ty.now) ≤ 64 }
    ensures { result ≡ fast_passing (all_of ty.now) order.now from to }
{
    let count = count(ty) as u32;
    if to < count {
        goes_up(count, from, to)
    } else if to < count + count {
        reaches(ty, count, order, from, to - count)
    } else if to < count + count + count {
        reaches(ty, count, order, from, to - count - count)
    } else {
        false
    }
}

// Whether it is the same handshake `j` of either caller.
fn goes_up(count: u32, from: u32, j: u32) -> bool
    requires { count + count + j ≤ 4294967295 }
    ensures { result ≡ (nat_eq from (count + j) || nat_eq from (count + count + j)) }
{
    from == count + j || from == count + count + j
}

// Whether it goes out at the callers' sides of handshake `j` of the type.
fn reaches(ty: &Ty, count: u32, order: &[u32], from: u32, j: u32) -> bool
    requires count { count ≡ length (all_of ty.now) }
    requires few { count ≤ 64 }
    ensures { result ≡ (nat_eq from j || sets_before (all_of ty.now) order.now j from) }
{
    from == j || (who_asks(ty, count, from).asks() && comes_before(order, from, j))
}
