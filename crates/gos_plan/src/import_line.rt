// The line of an import: its name and its type.
ghost use Rattle.std.specs.Prelude.{◌≡◌, IfOk, IfErr};
ghost use Rattle.gos_plan.specs.Seen.{import_of};
ghost use Rattle.gos_plan.specs.TextItems.{Reads, Fails};
ghost use Rattle.gos_plan.specs.ObjectItems.{import_line};

use crate::fault::ObjectFault;
use crate::format::Format;
use crate::items::{exact, name};
use crate::plan::PlanImport;
use crate::types::ty;
use gos_lex::Cursor;
use std::alloc::Global;

/// Passes the line of an import of this text, whose cursor it is.
pub fn import(
    alloc: Global,
    text: &[u8],
    cursor: &mut Cursor,
    format: Format,
) -> Result<PlanImport, ObjectFault>
    requires { cursor.now.text ≡ text.now }
    ensures read { IfOk result (λ import. Reads (import_line format) cursor.old cursor.new (import_of import)) }
    ensures wrong { IfErr result (Fails (import_line format) cursor.old.text cursor.old.at) }
{
    exact(cursor, b"import ")?;
    let name = name(alloc, text, cursor)?;
    let ty = ty(alloc, cursor, format, b'\n', 0)?;
    Ok(PlanImport { name, ty })
}
