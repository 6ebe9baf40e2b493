// Reading a plan from its text.
ghost use Rattle.std.specs.Prelude.{◌≡◌, ◌<◌, All, IfOk, IfErr, length};
ghost use Rattle.gos_types.specs.Types.{type_of};
ghost use Rattle.gos_plan.specs.Ranges.{IsInRange, AreInRange};
ghost use Rattle.gos_plan.specs.Seen.{plan_of};
ghost use Rattle.gos_plan.specs.TextItems.{Reads, Fails};
ghost use Rattle.gos_plan.specs.ObjectItems.{weight_line, result_line, whole};
ghost use Rattle.gos_plan.specs.ObjectFaults.{IsShort, IsTextOfValues, IsRead, HasFault};
ghost use Rattle.gos_plan.specs.inner.Values.{seen_values};

use crate::fault::ObjectFault;
use crate::format::Format;
use crate::items::{exact, number};
use crate::kinds::Kind;
use crate::plan::{Joint, Plan, PlanImport, make};
use crate::sections::{imports, joints, parts};
use crate::types::ty;
use crate::word::head_word;
use gos_lex::Cursor;
use gos_types::Ty;
use std::alloc::Global;

// The longest text, in bytes.
const LONGEST_TEXT: usize = 4_194_304;

const MOST_WEIGHT: u64 = 8_192;

// What a text says, before its joints are judged.
#[derive(Drop)]
pub(crate) struct Values {
    pub format: Format,
    pub weight: u64,
    pub imports: Vec<PlanImport>,
    pub outcome: Ty,
    pub parts: Vec<Kind>,
    pub joints: Vec<Joint>,
}

/// The plan that this text is the text of, in either format. `print_object` is the way back, by format 2.
///
/// `Joint` is answered only where the text is whole. A text above the limit takes no memory.
pub fn read_object(alloc: Global, text: &[u8]) -> Result<Plan, ObjectFault>
    ensures read { IfOk result (λ plan. IsRead text.now (plan_of plan)) }
    ensures fault { IfErr result (HasFault text.now) }
    ensures long { 4194304 < length text.now → IfErr result (λ e. e ≡ ObjectFault.Limit 4194304) }
{
    if text.len() > LONGEST_TEXT {
        return Err(ObjectFault::Limit { at: LONGEST_TEXT });
    }
    let v = whole_text(alloc, text)?;
    let plan = make(alloc, v.weight, v.imports, v.outcome, v.parts, v.joints)?;
    Ok(plan)
}

// Reads a text from its beginning to its end.
fn whole_text(alloc: Global, text: &[u8]) -> Result<Values, ObjectFault>
    requires { IsShort text.now }
    ensures is { IfOk result (λ v. IsTextOfValues text.now (plan_of (seen_values v))) }
    ensures in_range { IfOk result (λ v. AreInRange v.imports.items v.outcome v.parts.items) }
    ensures wrong { IfErr result (HasFault text.now) }
{
    let mut cursor = Cursor::new(text);
    let v = sections(alloc, text, &mut cursor)?;
    if cursor.finished() {
        Ok(v)
    } else {
        Err(ObjectFault::Form { at: cursor.at() })
    }
}

// Passes the sections of this text, whose cursor it is.
fn sections(alloc: Global, text: &[u8], cursor: &mut Cursor) -> Result<Values, ObjectFault>
    requires { cursor.now.text ≡ text.now }
    ensures in_range { IfOk result (λ v. All IsInRange v.parts.items) }
    ensures read { IfOk result (λ v. Reads whole cursor.old cursor.new (v.format, plan_of (seen_values v))) }
    ensures wrong { IfErr result (Fails whole cursor.old.text cursor.old.at) }
{
    let (format, weight) = weight(cursor)?;
    let imports = imports(alloc, text, cursor, format)?;
    let outcome = outcome(alloc, cursor, format)?;
    let parts = parts(alloc, cursor, format)?;
    let joints = joints(alloc, cursor)?;
    exact(cursor, b"end\n")?;
    Ok(Values {
        format,
        weight,
        imports,
        outcome,
        parts,
        joints,
    })
}

// Passes the first line, and the weight.
fn weight(cursor: &mut Cursor) -> Result<(Format, u64), ObjectFault>
    ensures read { IfOk result (λ v. Reads weight_line cursor.old cursor.new (v.0, v.1)) }
    ensures wrong { IfErr result (Fails weight_line cursor.old.text cursor.old.at) }
{
    let format = head_word(cursor)?;
    let weight = number(cursor, 1, MOST_WEIGHT, b'\n')?;
    Ok((format, weight))
}

// Passes the type of the result.
fn outcome(alloc: Global, cursor: &mut Cursor, format: Format) -> Result<Ty, ObjectFault>
    ensures read { IfOk result (λ t. Reads (result_line format) cursor.old cursor.new (tt, type_of t)) }
    ensures wrong { IfErr result (Fails (result_line format) cursor.old.text cursor.old.at) }
{
    exact(cursor, b"result ")?;
    ty(alloc, cursor, format, b'\n', 0)
}
