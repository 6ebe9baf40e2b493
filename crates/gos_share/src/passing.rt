// From which handshake to which a path without registers leads: answers pass, and requests wait.

ghost use Rattle.std.specs.Prelude.{◌≡◌, ◌+◌, ◌≤◌, length};
ghost use Rattle.gos_share.specs.Share.{block_passing, share_passing};
ghost use Rattle.gos_share.specs.inner.Seen.{all_of};

use crate::shared::next;
use gos_types::{Role, Ty, count};

// Whether what comes in at one handshake of the Share of a type can go out at another in the same cycle. The lower
// one is the source's, if any path leads between them; so only its block is asked.
pub(crate) fn passes(ty: &Ty, from: u32, to: u32) -> bool
    requires { length (all_of ty.now) ≤ 64 }
    ensures { result ≡ share_passing (all_of ty.now) from to }
{
    let j = from.min(to);
    match next(ty, j) {
        Some(k) => passes_at(k.role, count(ty) as u32, j, from, to),
        None => false,
    }
}

// The same, by handshake `j` of a type that has `count` of them.
fn passes_at(role: Role, count: u32, j: u32, from: u32, to: u32) -> bool
    requires { count + count + j ≤ 4294967295 }
    ensures { result ≡ block_passing role count j from to }
{
    let (first, second) = (count + j, count + count + j);
    match role {
        Role::Serve => from == j && (to == first || to == second),
        Role::Ask => to == j && (from == first || from == second),
    }
}
