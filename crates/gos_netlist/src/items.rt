// The nets of a line, each with the byte that ends it.
//
// `Err` is the place of the first byte that can't go on as the item, or the end of the text. Then the cursor may have
// moved.
ghost use Rattle.std.specs.Prelude.{◌≡◌, ◌<◌, ◌≤◌, [], ◌∷◌, false, IfOk, IfErr, length, map, take};
ghost use Rattle.std.specs.Char.{is_ascii_digit};
ghost use Rattle.gos_lex.specs.Items.{Misses};
ghost use Rattle.gos_netlist.specs.Seen.{number_of};
ghost use Rattle.gos_lex.specs.ItemTexts.{Passed};
ghost use Rattle.gos_netlist.specs.inner.NetLines.{end_with, AreNets, IsNetsText, numbers_text};

use crate::nets::NetId;
use gos_lex::Cursor;
use gos_types::GREATEST_WIDTH;
use smallvec::SmallVec;
use std::alloc::Global;

/// The greatest number of a net, and the greatest count.
pub const LAST_NUMBER: u64 = 4_294_967_295;

/// The last width of a cell or a port.
pub const LAST_WIDTH: u64 = GREATEST_WIDTH as u64;

/// The nets of a line: six at most.
pub type LineNets = SmallVec<NetId, 6>;

/// Passes so many nets, with a space between each two and a line feed behind the last.
pub fn so_many_nets(alloc: Global, cursor: &mut Cursor, count: usize) -> Result<LineNets, usize>
    requires few { count ≤ 6 }
    requires within { cursor.now.at ≤ length cursor.now.text }
    ensures nets { IfOk result (λ nets. AreNets count (map number_of nets.items)) }
    ensures passed { IfOk result (λ nets. Passed cursor.old cursor.new (numbers_text (map number_of nets.items))) }
    ensures wrong { IfErr result (Misses (IsNetsText count) cursor.old.text cursor.old.at) }
{
    let mut nets = SmallVec::new(alloc);
    let mut left = count;
    while left > 0 {
        left -= 1;
        let n = cursor.ended_number(0, LAST_NUMBER, end_with(left))?;
        nets.push_reserved(NetId(n as u32));
    }
    Ok(nets)
}

/// Passes one to three nets, with a space between each two and a line feed behind the last. What stands behind so many
/// is no net of the line.
pub fn few_nets(cursor: &mut Cursor, count: usize) -> Result<(NetId, NetId, NetId), usize>
    requires few { (0 < count) × (count ≤ 3) }
    requires within { cursor.now.at ≤ length cursor.now.text }
    ensures passed { IfOk result (λ nets. Passed cursor.old cursor.new (numbers_text (take count (nets.0.0 ∷ nets.1.0 ∷ nets.2.0 ∷ [])))) }
    ensures wrong { IfErr result (Misses (IsNetsText count) cursor.old.text cursor.old.at) }
{
    let a = cursor.ended_number(0, LAST_NUMBER, end_with(count - 1))?;
    if count == 1 {
        return Ok((NetId(a as u32), NetId(0), NetId(0)));
    }
    let b = cursor.ended_number(0, LAST_NUMBER, end_with(count - 2))?;
    if count == 2 {
        return Ok((NetId(a as u32), NetId(b as u32), NetId(0)));
    }
    let c = cursor.ended_number(0, LAST_NUMBER, b'\n')?;
    Ok((NetId(a as u32), NetId(b as u32), NetId(c as u32)))
}

// The byte behind a number, before so many others.
fn end_with(left: usize) -> u8
    ensures end { result ≡ end_with left }
    ensures no_digit { is_ascii_digit result ≡ false }
{
    if left == 0 { b'\n' } else { b' ' }
}
