// How many cells the block of a handshake has, and where its nets go out.

ghost use Rattle.std.specs.Prelude.{◌≡◌, ◌+◌, ◌*◌, ◌≤◌, length};
ghost use Rattle.gos_share.specs.Blocks.{told_size};
ghost use Rattle.gos_fast_share.specs.Fast.{up_bits, down_bits, split_size, block_size};
ghost use Rattle.gos_fast_share.specs.inner.Seen.{all_of, blocks_size};

use gos_share::{Shared, next};
use gos_types::{Role, Ty};

// The bits of what goes from the callers to the source.
pub(crate) fn up(shared: Shared) -> u32
    ensures { result ≡ up_bits shared.role shared.ask_bits shared.answer_bits }
{
    match shared.role {
        Role::Serve => shared.ask_bits,
        Role::Ask => shared.answer_bits,
    }
}

// The bits of what goes from the source to the callers.
pub(crate) fn down(shared: Shared) -> u32
    ensures { result ≡ down_bits shared.role shared.ask_bits shared.answer_bits }
{
    match shared.role {
        Role::Serve => shared.answer_bits,
        Role::Ask => shared.ask_bits,
    }
}

// How many cells there are in both parts of a block, where a number of so many bits goes through it.
pub(crate) fn told(bits: u32) -> u32
    ensures size { result ≡ told_size bits }
    ensures few { result ≤ 3 }
{
    if bits == 0 { 1 } else { 3 }
}

pub(crate) fn split(bits: u32) -> u32
    ensures size { result ≡ split_size bits }
    ensures few { result ≤ 4 }
{
    if bits == 0 { 2 } else { 4 }
}

// How many cells the block has.
pub(crate) fn size(shared: Shared) -> u32
    ensures size { result ≡ block_size shared.role shared.ask_bits shared.answer_bits }
    ensures few { result ≤ 7 }
{
    told(up(shared)) + split(down(shared))
}

// How many cells the blocks of a type have.
pub(crate) fn all(ty: &Ty) -> u32
    requires { length (all_of ty.now) ≤ 64 }
    ensures size { result ≡ blocks_size (all_of ty.now) }
    ensures few { result ≤ 7 * length (all_of ty.now) }
{
    let mut total = 0;
    let mut j = 0;
    loop {
        match next(ty, j) {
            Some(shared) => {
                total += size(shared);
                j += 1;
            }
            None => return total,
        }
    }
}
