// The two sections of a netlist's text: a count, and so many lines.
ghost use Rattle.std.specs.Prelude.{◌≡◌, ◌≤◌, IfOk, IfErr, OnOk, length, map};
ghost use Rattle.std.specs.Fmt.{decimal};
ghost use Rattle.gos_netlist.specs.Nets.{Cell as NetCell, NetPort};
ghost use Rattle.gos_netlist.specs.Seen.{cell_of};
ghost use Rattle.gos_netlist.specs.NetText.{cell_text, port_text};
ghost use Rattle.gos_netlist.specs.Writable.{IsWritableCell, IsWritablePort};
ghost use Rattle.gos_lex.specs.ItemTexts.{IsAbove};
ghost use Rattle.gos_lex.specs.ItemTexts.{Passed, ended};
ghost use Rattle.gos_netlist.specs.inner.NetLines.{BreaksOff, CountFault, SectionFault, AreSo, AreCounted, IsLinesText, IsSectionText, section_text};
ghost use Rattle.std.specs.List.{flat_map};

use crate::cell_line::cell;
use crate::fault::NetTextFault;
use crate::items::LAST_NUMBER;
use crate::nets::{Cell, Port};
use crate::port_line::port;
use gos_lex::Cursor;
use std::alloc::Global;

// The most cells and ports that are read.
const MOST_CELLS: u64 = 5_000_000;

const MOST_PORTS: u64 = 65_536;

/// Passes the count of cells and their lines.
pub fn cells(alloc: Global, cursor: &mut Cursor) -> Result<Vec<Cell>, NetTextFault>
    ensures cells { IfOk result (λ cells. AreCounted NetCell IsWritableCell (map cell_of cells.items)) }
    ensures few { IfOk result (λ cells. length (map cell_of cells.items) ≤ 5000000) }
    ensures passed { IfOk result (λ cells. Passed cursor.old cursor.new (section_text NetCell cell_text (map cell_of cells.items))) }
    ensures under { OnOk result (IsAbove 5000000 cursor.old.text cursor.old.at → ⊥) }
    ensures wrong { IfErr result (SectionFault (IsSectionText NetCell IsWritableCell cell_text) 5000000 cursor.old.text cursor.old.at) }
{
    let n = count(cursor, MOST_CELLS)?;
    let cells = cell_lines(alloc, cursor, n)?;
    Ok(cells)
}

/// Passes the count of ports and their lines, of this text, whose cursor it is.
pub fn ports(alloc: Global, text: &[u8], cursor: &mut Cursor) -> Result<Vec<Port>, NetTextFault>
    requires { cursor.now.text ≡ text.now }
    ensures ports { IfOk result (λ ports. AreCounted NetPort IsWritablePort ports.items) }
    ensures few { IfOk result (λ ports. length ports.items ≤ 65536) }
    ensures passed { IfOk result (λ ports. Passed cursor.old cursor.new (section_text NetPort port_text ports.items)) }
    ensures under { OnOk result (IsAbove 65536 cursor.old.text cursor.old.at → ⊥) }
    ensures wrong { IfErr result (SectionFault (IsSectionText NetPort IsWritablePort port_text) 65536 cursor.old.text cursor.old.at) }
{
    let n = count(cursor, MOST_PORTS)?;
    let ports = port_lines(alloc, text, cursor, n)?;
    Ok(ports)
}

// Passes a count and the line feed behind it.
fn count(cursor: &mut Cursor, limit: u64) -> Result<u64, NetTextFault>
    requires { limit ≤ 4294967295 }
    ensures few { IfOk result (λ n. n ≤ limit) }
    ensures passed { IfOk result (λ n. Passed cursor.old cursor.new (ended 10 (decimal n))) }
    ensures under { OnOk result (IsAbove limit cursor.old.text cursor.old.at → ⊥) }
    ensures wrong { IfErr result (CountFault limit cursor.old.text cursor.old.at) }
{
    let at = cursor.at();
    let n = match cursor.number(0, LAST_NUMBER) {
        Ok(n) => n,
        Err(at) => return Err(NetTextFault::Form { at }),
    };
    if n > limit {
        return Err(NetTextFault::Limit { at });
    }
    match cursor.word(b"\n") {
        Ok(()) => Ok(n),
        Err(at) => Err(NetTextFault::Form { at }),
    }
}

// Passes so many lines of cells.
fn cell_lines(alloc: Global, cursor: &mut Cursor, count: u64) -> Result<Vec<Cell>, NetTextFault>
    requires { cursor.now.at ≤ length cursor.now.text }
    ensures cells { IfOk result (λ cells. AreSo NetCell IsWritableCell count (map cell_of cells.items)) }
    ensures passed { IfOk result (λ cells. Passed cursor.old cursor.new (flat_map cell_text (map cell_of cells.items))) }
    ensures wrong { IfErr result (BreaksOff (IsLinesText NetCell IsWritableCell cell_text count) cursor.old.text cursor.old.at) }
{
    let mut cells = Vec::new(alloc);
    let mut left = count;
    while left > 0 {
        left -= 1;
        match cell(cursor) {
            Ok(cell) => cells.push(cell)?,
            Err(at) => return Err(NetTextFault::Form { at }),
        }
    }
    Ok(cells)
}

// Passes so many lines of ports.
fn port_lines(
    alloc: Global,
    text: &[u8],
    cursor: &mut Cursor,
    count: u64,
) -> Result<Vec<Port>, NetTextFault>
    requires text { cursor.now.text ≡ text.now }
    requires within { cursor.now.at ≤ length cursor.now.text }
    ensures ports { IfOk result (λ ports. AreSo NetPort IsWritablePort count ports.items) }
    ensures passed { IfOk result (λ ports. Passed cursor.old cursor.new (flat_map port_text ports.items)) }
    ensures wrong { IfErr result (BreaksOff (IsLinesText NetPort IsWritablePort port_text count) cursor.old.text cursor.old.at) }
{
    let mut ports = Vec::new(alloc);
    let mut left = count;
    while left > 0 {
        left -= 1;
        ports.push(port(alloc, text, cursor)?)?;
    }
    Ok(ports)
}
