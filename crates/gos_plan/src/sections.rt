// The sections of a plan's text: a word, a count, and so many lines.
ghost use Rattle.std.specs.Prelude.{◌≡◌, ◌≤◌, All, IfOk, IfErr, length, map};
ghost use Rattle.gos_plan.specs.Ranges.{IsInRange};
ghost use Rattle.gos_plan.specs.Seen.{import_of, part_of, joint_of};
ghost use Rattle.gos_plan.specs.TextItems.{Reads, Fails, count_up_to, lines};
ghost use Rattle.gos_plan.specs.ObjectItems.{import_line, part_line, joint_line, imports_section, parts_section, joints_section};

use crate::fault::ObjectFault;
use crate::format::Format;
use crate::import_line::import;
use crate::items::{LAST_NUMBER, exact};
use crate::joint_line::joint;
use crate::kinds::Kind;
use crate::part_line::part;
use crate::plan::{Joint, PlanImport};
use gos_lex::Cursor;
use std::alloc::Global;

// The most imports, parts and joints that are read.
const MOST_IMPORTS: u64 = 64;

const MOST_PARTS: u64 = 16_384;

const MOST_JOINTS: u64 = 65_536;

/// Passes the imports of this text, whose cursor it is.
pub fn imports(
    alloc: Global,
    text: &[u8],
    cursor: &mut Cursor,
    format: Format,
) -> Result<Vec<PlanImport>, ObjectFault>
    requires { cursor.now.text ≡ text.now }
    ensures read { IfOk result (λ imports. Reads (imports_section format) cursor.old cursor.new (tt, map import_of imports.items)) }
    ensures wrong { IfErr result (Fails (imports_section format) cursor.old.text cursor.old.at) }
{
    exact(cursor, b"imports ")?;
    let n = count(cursor, MOST_IMPORTS)?;
    import_lines(alloc, text, cursor, format, n)
}

/// Passes the parts.
pub fn parts(alloc: Global, cursor: &mut Cursor, format: Format) -> Result<Vec<Kind>, ObjectFault>
    ensures in_range { IfOk result (λ parts. All IsInRange parts.items) }
    ensures read { IfOk result (λ parts. Reads (parts_section format) cursor.old cursor.new (tt, map part_of parts.items)) }
    ensures wrong { IfErr result (Fails (parts_section format) cursor.old.text cursor.old.at) }
{
    exact(cursor, b"parts ")?;
    let n = count(cursor, MOST_PARTS)?;
    part_lines(alloc, cursor, format, n)
}

/// Passes the joints.
pub fn joints(alloc: Global, cursor: &mut Cursor) -> Result<Vec<Joint>, ObjectFault>
    ensures read { IfOk result (λ joints. Reads joints_section cursor.old cursor.new (tt, map joint_of joints.items)) }
    ensures wrong { IfErr result (Fails joints_section cursor.old.text cursor.old.at) }
{
    exact(cursor, b"joints ")?;
    let n = count(cursor, MOST_JOINTS)?;
    joint_lines(alloc, cursor, n)
}

// Passes a count and the line feed behind it.
fn count(cursor: &mut Cursor, limit: u64) -> Result<u64, ObjectFault>
    ensures read { IfOk result (Reads (count_up_to limit) cursor.old cursor.new) }
    ensures wrong { IfErr result (Fails (count_up_to limit) cursor.old.text cursor.old.at) }
{
    let at = cursor.at();
    let n = match cursor.number(0, LAST_NUMBER) {
        Ok(n) => n,
        Err(at) => return Err(ObjectFault::Form { at }),
    };
    if n > limit {
        return Err(ObjectFault::Limit { at });
    }
    match cursor.word(b"\n") {
        Ok(()) => Ok(n),
        Err(at) => Err(ObjectFault::Form { at }),
    }
}

// Passes so many lines of imports.
fn import_lines(
    alloc: Global,
    text: &[u8],
    cursor: &mut Cursor,
    format: Format,
    count: u64,
) -> Result<Vec<PlanImport>, ObjectFault>
    requires text { cursor.now.text ≡ text.now }
    requires within { cursor.now.at ≤ length cursor.now.text }
    ensures read { IfOk result (λ imports. Reads (lines (import_line format) count) cursor.old cursor.new (map import_of imports.items)) }
    ensures wrong { IfErr result (Fails (lines (import_line format) count) cursor.old.text cursor.old.at) }
{
    let mut imports = Vec::new(alloc);
    let mut left = count;
    while left > 0 {
        left -= 1;
        imports.push(import(alloc, text, cursor, format)?)?;
    }
    Ok(imports)
}

// Passes so many lines of parts.
fn part_lines(
    alloc: Global,
    cursor: &mut Cursor,
    format: Format,
    count: u64,
) -> Result<Vec<Kind>, ObjectFault>
    requires { cursor.now.at ≤ length cursor.now.text }
    ensures in_range { IfOk result (λ parts. All IsInRange parts.items) }
    ensures read { IfOk result (λ parts. Reads (lines (part_line format) count) cursor.old cursor.new (map part_of parts.items)) }
    ensures wrong { IfErr result (Fails (lines (part_line format) count) cursor.old.text cursor.old.at) }
{
    let mut parts = Vec::new(alloc);
    let mut left = count;
    while left > 0 {
        left -= 1;
        parts.push(part(alloc, cursor, format)?)?;
    }
    Ok(parts)
}

// Passes so many lines of joints.
fn joint_lines(alloc: Global, cursor: &mut Cursor, count: u64) -> Result<Vec<Joint>, ObjectFault>
    requires { cursor.now.at ≤ length cursor.now.text }
    ensures read { IfOk result (λ joints. Reads (lines joint_line count) cursor.old cursor.new (map joint_of joints.items)) }
    ensures wrong { IfErr result (Fails (lines joint_line count) cursor.old.text cursor.old.at) }
{
    let mut joints = Vec::new(alloc);
    let mut left = count;
    while left > 0 {
        left -= 1;
        joints.push(joint(cursor)?)?;
    }
    Ok(joints)
}
