// The text of a plan, line by line.
ghost use Rattle.std.specs.Prelude.{◌≡◌, ◌++◌, All, map, IfOk, OnOk};
ghost use Rattle.std.specs.List.{flat_map};
ghost use Rattle.gos_types.specs.Types.{type_of};
ghost use Rattle.gos_plan.specs.Ranges.{IsInRange};
ghost use Rattle.gos_plan.specs.Seen.{part_of, end_of, joint_of, import_of, plan_of};
ghost use Rattle.gos_plan.specs.ObjectText.{
  number_text,
  type_text,
  word_text,
  word_of,
  body_text,
  operands_text,
  part_text,
  import_text,
  end_text,
  joint_text,
  sized_text,
  imports_text,
  parts_text,
  joints_text,
  text_of,
};
ghost use Rattle.gos_plan.specs.declared.word.SizedWord.TheVariants.{Op as operator};

use crate::kinds::{Kind, Op2};
use crate::plan::{End, Joint, Plan, PlanImport};
use gos_types::{NoMemory, Ty};
use std::alloc::Global;

/// The text of a plan, in format 2. `Err` is want of memory alone.
///
/// `read_object` is the way back, where the weight and the counts are within the limits of the text.
pub fn print_object(alloc: Global, plan: &Plan) -> Result<Vec<u8>, NoMemory>
    ensures { IfOk result (λ text. text.items ≡ text_of (plan_of plan.now)) }
{
    let mut text = Vec::new(alloc);
    add_number(alloc, &mut text, b"gosobj 2\nweight ", plan.weight(), b'\n')?;
    add_imports(alloc, &mut text, plan.imports())?;
    text.extend_from_slice(b"result ")?;
    add_type(alloc, &mut text, plan.result(), b'\n')?;
    add_parts(alloc, &mut text, plan.parts())?;
    add_joints(alloc, &mut text, plan.joints())?;
    text.extend_from_slice(b"end\n")?;
    Ok(text)
}

// Adds a word, a number, and the byte that ends it.
fn add_number(
    alloc: Global,
    text: &mut Vec<u8>,
    word: &[u8],
    number: u64,
    end: u8,
) -> Result<(), NoMemory>
    ensures { OnOk result (text.new.items ≡ text.old.items ++ word.now ++ number_text end number) }
{
    let digits = number.to_string(alloc)?;
    text.extend_from_slice(word)?;
    text.extend_from_slice(digits.as_bytes())?;
    text.push(end)?;
    Ok(())
}

// Adds a type, and the byte that ends it.
fn add_type(alloc: Global, text: &mut Vec<u8>, ty: &Ty, end: u8) -> Result<(), NoMemory>
    ensures { OnOk result (text.new.items ≡ text.old.items ++ type_text end (type_of ty.now)) }
{
    match ty {
        Ty::Com => {
            text.extend_from_slice(b"com")?;
            text.push(end)?;
            Ok(())
        }
        Ty::Exp(w) => add_number(alloc, text, b"exp ", u64::from(*w), end),
        Ty::Var(w) => add_number(alloc, text, b"var ", u64::from(*w), end),
        Ty::Pair(a, b) => {
            text.extend_from_slice(b"pair ")?;
            add_type(alloc, text, a, b' ')?;
            add_type(alloc, text, b, end)
        }
        Ty::Fun(a, b) => {
            text.extend_from_slice(b"fun ")?;
            add_type(alloc, text, a, b' ')?;
            add_type(alloc, text, b, end)
        }
    }
}

// Adds the imports: their count, and a line for each.
fn add_imports(alloc: Global, text: &mut Vec<u8>, imports: &[PlanImport]) -> Result<(), NoMemory>
    ensures { OnOk result (text.new.items ≡ text.old.items ++ imports_text (map import_of imports.now)) }
{
    add_number(alloc, text, b"imports ", imports.len() as u64, b'\n')?;
    add_import_lines(alloc, text, imports)
}

// Adds a line for each import.
fn add_import_lines(
    alloc: Global,
    text: &mut Vec<u8>,
    imports: &[PlanImport],
) -> Result<(), NoMemory>
    ensures { OnOk result (text.new.items ≡ text.old.items ++ flat_map import_text (map import_of imports.now)) }
{
    for import in imports {
        add_import(alloc, text, import)?;
    }
    Ok(())
}

// Adds the line of an import.
fn add_import(alloc: Global, text: &mut Vec<u8>, import: &PlanImport) -> Result<(), NoMemory>
    ensures { OnOk result (text.new.items ≡ text.old.items ++ import_text (import_of import.now)) }
{
    text.extend_from_slice(b"import ")?;
    text.extend_from_slice(import.name.bytes())?;
    text.push(b' ')?;
    add_type(alloc, text, &import.ty, b'\n')
}

// Adds the parts: their count, and a line for each.
fn add_parts(alloc: Global, text: &mut Vec<u8>, parts: &[Kind]) -> Result<(), NoMemory>
    requires { All IsInRange parts.now }
    ensures { OnOk result (text.new.items ≡ text.old.items ++ parts_text (map part_of parts.now)) }
{
    add_number(alloc, text, b"parts ", parts.len() as u64, b'\n')?;
    add_part_lines(alloc, text, parts)
}

// Adds a line for each part.
fn add_part_lines(alloc: Global, text: &mut Vec<u8>, parts: &[Kind]) -> Result<(), NoMemory>
    requires { All IsInRange parts.now }
    ensures { OnOk result (text.new.items ≡ text.old.items ++ flat_map part_text (map part_of parts.now)) }
{
    for part in parts {
        add_part(alloc, text, part)?;
    }
    Ok(())
}

// Adds the line of a part.
fn add_part(alloc: Global, text: &mut Vec<u8>, kind: &Kind) -> Result<(), NoMemory>
    requires { IsInRange kind.now }
    ensures { OnOk result (text.new.items ≡ text.old.items ++ part_text (part_of kind.now)) }
{
    text.extend_from_slice(part_word(kind))?;
    add_operands(alloc, text, kind)
}

// The word of a part, with the byte behind it.
fn part_word(kind: &Kind) -> &'static [u8]
    requires { IsInRange kind.now }
    ensures { result.now ≡ word_text (word_of (part_of kind.now)) }
{
    match kind {
        Kind::Skip => b"skip\n",
        Kind::Lit { w: _, k: _ } => b"lit ",
        Kind::Seq => b"seq\n",
        Kind::SeqExp { w: _ } => b"seqexp ",
        Kind::Par => b"par\n",
        Kind::If => b"if\n",
        Kind::IfExp { w: _ } => b"ifexp ",
        Kind::While => b"while\n",
        Kind::Op { op, w: _ } => operator_word(*op),
        Kind::Not { w: _ } => b"not ",
        Kind::Assign { w: _ } => b"assign ",
        Kind::Deref { w: _ } => b"deref ",
        Kind::Local { w: _, v: _ } => b"local ",
        Kind::Array { w: _, n: _, v: _ } => b"array ",
        Kind::Share(_) => b"share ",
    }
}

// The word of an operator, with a space behind it.
fn operator_word(op: Op2) -> &'static [u8]
    ensures { result.now ≡ sized_text (operator op) }
{
    match op {
        Op2::Add => b"add ",
        Op2::Sub => b"sub ",
        Op2::And => b"and ",
        Op2::Or => b"or ",
        Op2::Xor => b"xor ",
        Op2::Eq => b"eq ",
        Op2::Less => b"less ",
    }
}

// Adds what stands behind the word of a part.
fn add_operands(alloc: Global, text: &mut Vec<u8>, kind: &Kind) -> Result<(), NoMemory>
    requires { IsInRange kind.now }
    ensures { OnOk result (text.new.items ≡ text.old.items ++ operands_text (part_of kind.now)) }
{
    match kind {
        Kind::Skip | Kind::Seq | Kind::Par | Kind::If | Kind::While => Ok(()),
        Kind::SeqExp { w }
        | Kind::IfExp { w }
        | Kind::Op { op: _, w }
        | Kind::Not { w }
        | Kind::Assign { w }
        | Kind::Deref { w } => add_number(alloc, text, b"", u64::from(*w), b'\n'),
        Kind::Lit { w, k } => {
            add_number(alloc, text, b"", u64::from(*w), b' ')?;
            add_number(alloc, text, b"", *k, b'\n')
        }
        Kind::Local { w, v } => {
            add_number(alloc, text, b"", u64::from(*w), b' ')?;
            add_body(alloc, text, *v)
        }
        Kind::Array { w, n, v } => {
            add_number(alloc, text, b"", u64::from(*w), b' ')?;
            add_number(alloc, text, b"", u64::from(*n), b' ')?;
            add_body(alloc, text, *v)
        }
        Kind::Share(ty) => add_type(alloc, text, ty, b'\n'),
    }
}

// Adds what a Local or an Array runs: a command where there are no bits.
fn add_body(alloc: Global, text: &mut Vec<u8>, v: u32) -> Result<(), NoMemory>
    ensures { OnOk result (text.new.items ≡ text.old.items ++ body_text v) }
{
    if v == 0 {
        text.extend_from_slice(b"com\n")?;
        Ok(())
    } else {
        add_number(alloc, text, b"exp ", u64::from(v), b'\n')
    }
}

// Adds the joints: their count, and a line for each.
fn add_joints(alloc: Global, text: &mut Vec<u8>, joints: &[Joint]) -> Result<(), NoMemory>
    ensures { OnOk result (text.new.items ≡ text.old.items ++ joints_text (map joint_of joints.now)) }
{
    add_number(alloc, text, b"joints ", joints.len() as u64, b'\n')?;
    add_joint_lines(alloc, text, joints)
}

// Adds a line for each joint.
fn add_joint_lines(alloc: Global, text: &mut Vec<u8>, joints: &[Joint]) -> Result<(), NoMemory>
    ensures { OnOk result (text.new.items ≡ text.old.items ++ flat_map joint_text (map joint_of joints.now)) }
{
    for joint in joints {
        add_end(alloc, text, joint.asks, b' ')?;
        add_end(alloc, text, joint.serves, b'\n')?;
    }
    Ok(())
}

// Adds an end, and the byte that ends it.
fn add_end(alloc: Global, text: &mut Vec<u8>, end: End, last: u8) -> Result<(), NoMemory>
    ensures { OnOk result (text.new.items ≡ text.old.items ++ end_text last (end_of end)) }
{
    match end {
        End::Part { part, shake } => {
            add_number(alloc, text, b"p", u64::from(part), b'.')?;
            add_number(alloc, text, b"", u64::from(shake), last)
        }
        End::Import { import, shake } => {
            add_number(alloc, text, b"i", u64::from(import), b'.')?;
            add_number(alloc, text, b"", u64::from(shake), last)
        }
        End::Result { shake } => add_number(alloc, text, b"r.", u64::from(shake), last),
    }
}
