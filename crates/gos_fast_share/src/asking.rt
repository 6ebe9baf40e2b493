// Who asks at which handshake of a Share, and how many requests stand in an order of handshakes.

ghost use Rattle.std.specs.Prelude.{◌≡◌, ◌+◌, ◌≤◌, length};
ghost use Rattle.gos_fast_share.specs.Thread.{asker, asked_at, one_if_asks, requests, requests_before, stands_before};
ghost use Rattle.gos_fast_share.specs.Fast.{sets};
ghost use Rattle.gos_fast_share.specs.inner.Seen.{all_of, asker_of};

use gos_share::next;
use gos_types::{Role, Ty};

// Whose request comes in at a handshake, if it is one of a caller.
#[derive(Debug, Clone, Copy)]
pub(crate) enum Asking {
    Nobody,
    Caller0,
    Caller1,
}

// Whether the callers ask at handshake `j` of a type.
fn is_asked(ty: &Ty, j: u32) -> bool
    ensures { result ≡ asked_at (all_of ty.now) j }
{
    match next(ty, j) {
        Some(shared) => matches!(shared.role, Role::Serve),
        None => false,
    }
}

// Who asks at handshake `e` of the Share of a type that has `count` handshakes.
pub(crate) fn who_asks(ty: &Ty, count: u32, e: u32) -> Asking
    requires count { count ≡ length (all_of ty.now) }
    requires few { count ≤ 64 }
    ensures { asker_of result ≡ asker (all_of ty.now) e }
{
    if e < count {
        Asking::Nobody
    } else if e < count + count {
        if is_asked(ty, e - count) {
            Asking::Caller0
        } else {
            Asking::Nobody
        }
    } else if is_asked(ty, e - (count + count)) {
        Asking::Caller1
    } else {
        Asking::Nobody
    }
}

impl Asking {
    // Whether it is a caller.
    pub(crate) fn asks(self) -> bool
        ensures { result ≡ sets (asker_of self) }
    {
        match self {
            Asking::Nobody => false,
            Asking::Caller0 | Asking::Caller1 => true,
        }
    }

    // How many cells of the thread are its own.
    pub(crate) fn size(self) -> u32
        ensures size { result ≡ one_if_asks (asker_of self) }
        ensures few { result ≤ 1 }
    {
        match self {
            Asking::Nobody => 0,
            Asking::Caller0 | Asking::Caller1 => 1,
        }
    }
}

// How many requests of callers stand in an order.
pub(crate) fn requests_in(ty: &Ty, count: u32, order: &[u32]) -> u32
    requires count { count ≡ length (all_of ty.now) }
    requires few { count ≤ 64 }
    requires short { length order.now ≤ 192 }
    ensures number { result ≡ requests (all_of ty.now) order.now }
    ensures few { result ≤ length order.now }
{
    let mut total = 0;
    for e in order {
        total += who_asks(ty, count, *e).size();
    }
    total
}

// How many of them stand before handshake `j`.
pub(crate) fn requests_ahead(ty: &Ty, count: u32, order: &[u32], j: u32) -> u32
    requires count { count ≡ length (all_of ty.now) }
    requires few { count ≤ 64 }
    requires short { length order.now ≤ 192 }
    ensures number { result ≡ requests_before (all_of ty.now) j order.now }
    ensures few { result ≤ requests (all_of ty.now) order.now }
{
    let mut total = 0;
    for e in order {
        if *e == j {
            return total;
        }
        total += who_asks(ty, count, *e).size();
    }
    total
}

// Whether handshake `e` stands before the first time that `j` does.
pub(crate) fn comes_before(order: &[u32], e: u32, j: u32) -> bool
    ensures { result ≡ stands_before e j order.now }
{
    for d in order {
        if *d == j {
            return false;
        }
        if *d == e {
            return true;
        }
    }
    false
}
