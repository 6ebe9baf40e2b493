// The text of a module.

ghost use Rattle.std.specs.Prelude.{◌≡◌, ◌++◌, codes, IfOk, OnOk};
ghost use Rattle.std.specs.Fmt.{decimal};
ghost use Rattle.gos_lex.specs.Signs.{sign_text};
ghost use Rattle.gos_types.specs.Types.{type_of};
ghost use Rattle.gos_types.specs.TypeText.{type_text};
ghost use Rattle.gos_syntax.specs.Operators.{sign_of};
ghost use Rattle.gos_syntax.specs.Trees.{tree_of};
ghost use Rattle.gos_syntax.specs.ModuleText.{is_atom, text_of, operand_text, import_text, imports_text, module_text};

use crate::module::{Import, Module};
use crate::terms::{Form, Op, Term};
use gos_lex::Name;
use gos_types::{NoMemory, Ty, print_ty};
use std::alloc::Global;

/// The source text of a module, in which every operand that is no atom stands in brackets. `Err` is want of memory alone.
pub fn print(alloc: Global, program: &Module) -> Result<Vec<u8>, NoMemory>
    ensures { IfOk result (λ text. text.items ≡ module_text program.now) }
{
    let mut text = Vec::new(alloc);
    add_imports(alloc, &mut text, program.imports.as_slice())?;
    add(&mut text, b"export ")?;
    add_term(alloc, &mut text, &program.body)?;
    add(&mut text, b" : ")?;
    add_type(alloc, &mut text, &program.result)?;
    add(&mut text, b"\n")?;
    Ok(text)
}

// Adds the lines of imports.
fn add_imports(alloc: Global, text: &mut Vec<u8>, imports: &[Import]) -> Result<(), NoMemory>
    ensures { OnOk result (text.new.items ≡ text.old.items ++ imports_text imports.now) }
{
    for import in imports {
        add_import(alloc, text, import)?;
    }
    Ok(())
}

// Adds the line of an import.
fn add_import(alloc: Global, text: &mut Vec<u8>, import: &Import) -> Result<(), NoMemory>
    ensures { OnOk result (text.new.items ≡ text.old.items ++ import_text import.now) }
{
    add(text, b"import ")?;
    add(text, import.name.bytes())?;
    add(text, b" : ")?;
    add_type(alloc, text, &import.ty)?;
    add(text, b"\n")
}

// Adds the text of a type.
fn add_type(alloc: Global, text: &mut Vec<u8>, ty: &Ty) -> Result<(), NoMemory>
    ensures { OnOk result (text.new.items ≡ text.old.items ++ type_text (type_of ty.now)) }
{
    let bytes = print_ty(alloc, ty)?;
    add(text, bytes.as_slice())
}

// Adds a number in decimal digits.
fn add_number(alloc: Global, text: &mut Vec<u8>, n: u64) -> Result<(), NoMemory>
    ensures { OnOk result (text.new.items ≡ text.old.items ++ decimal n) }
{
    let digits = format!(in alloc; "{n}")?;
    add(text, digits.as_bytes())
}

// Adds the text of a literal: its value, and behind a colon its width.
fn add_literal(alloc: Global, text: &mut Vec<u8>, value: u64, width: u32) -> Result<(), NoMemory>
    ensures { OnOk result (text.new.items ≡ text.old.items ++ decimal value ++ codes ":" ++ decimal width) }
{
    add_number(alloc, text, value)?;
    add(text, b":")?;
    add_number(alloc, text, u64::from(width))
}

// Adds the text of a term.
#[cycle(printing)]
fn add_term(alloc: Global, text: &mut Vec<u8>, term: &Term) -> Result<(), NoMemory>
    ensures { OnOk result (text.new.items ≡ text.old.items ++ text_of (tree_of term.now.form term.now.span)) }
{
    match &term.form {
        Form::Skip => add(text, b"skip"),
        Form::Lit { value, width } => add_literal(alloc, text, *value, *width),
        Form::Name(name) => add(text, name.bytes()),
        Form::Fun { name, ty, body, .. } => {
            add_parameter(alloc, text, name, ty)?;
            add_term(alloc, text, body)
        }
        Form::New {
            name,
            width,
            body,
            ..
        } => {
            add_local(alloc, text, name, *width)?;
            add_term(alloc, text, body)
        }
        Form::Array {
            name,
            length,
            width,
            body,
            ..
        } => {
            add_array(alloc, text, name, *length, *width)?;
            add_term(alloc, text, body)
        }
        Form::App(function, argument) => add_infix(alloc, text, function, b" ", argument),
        Form::Pair(first, second) => add_pair(alloc, text, first, second),
        Form::Fst(pair) => add_prefixed(alloc, text, b"fst ", pair),
        Form::Snd(pair) => add_prefixed(alloc, text, b"snd ", pair),
        Form::Seq(first, second) => add_infix(alloc, text, first, b" ; ", second),
        Form::Par(left, right) => add_infix(alloc, text, left, b" || ", right),
        Form::If(test, yes, no) => {
            add_prefixed(alloc, text, b"if ", test)?;
            add(text, b" then ")?;
            add_infix(alloc, text, yes, b" else ", no)
        }
        Form::While(test, body) => {
            add(text, b"while ")?;
            add_infix(alloc, text, test, b" do ", body)
        }
        Form::Assign(variable, value) => add_infix(alloc, text, variable, b" := ", value),
        Form::Deref(variable) => add_prefixed(alloc, text, b"!", variable),
        Form::Not(operand) => add_prefixed(alloc, text, b"not ", operand),
        Form::Bin(op, left, right) => add_infix(alloc, text, left, op_bytes(*op), right),
    }
}

// Adds the text of a pair.
#[cycle(printing)]
fn add_pair(alloc: Global, text: &mut Vec<u8>, first: &Term, second: &Term) -> Result<(), NoMemory>
    ensures { OnOk result (text.new.items ≡ text.old.items ++ codes
        "(" ++ text_of (tree_of first.now.form first.now.span) ++ codes ", "
        ++ text_of (tree_of second.now.form second.now.span) ++ codes ")") }
{
    add(text, b"(")?;
    add_term(alloc, text, first)?;
    add(text, b", ")?;
    add_term(alloc, text, second)?;
    add(text, b")")
}

// Adds the text of a term that is an operand.
#[cycle(printing)]
fn add_operand(alloc: Global, text: &mut Vec<u8>, term: &Term) -> Result<(), NoMemory>
    ensures { OnOk result (text.new.items ≡ text.old.items ++ operand_text (tree_of term.now.form term.now.span)) }
{
    if is_atom(term) {
        return add_term(alloc, text, term);
    }
    add(text, b"(")?;
    add_term(alloc, text, term)?;
    add(text, b")")
}

// Adds the text of an operand with something before it.
#[cycle(printing)]
fn add_prefixed(
    alloc: Global,
    text: &mut Vec<u8>,
    prefix: &[u8],
    operand: &Term,
) -> Result<(), NoMemory>
    ensures { OnOk result (text.new.items ≡ text.old.items ++ prefix.now ++ operand_text (tree_of operand.now.form operand.now.span)) }
{
    add(text, prefix)?;
    add_operand(alloc, text, operand)
}

// Adds the texts of two operands with something between them.
#[cycle(printing)]
fn add_infix(
    alloc: Global,
    text: &mut Vec<u8>,
    left: &Term,
    between: &[u8],
    right: &Term,
) -> Result<(), NoMemory>
    ensures { OnOk result (text.new.items ≡ text.old.items ++ operand_text (tree_of left.now.form left.now.span) ++ between.now
        ++ operand_text (tree_of right.now.form right.now.span)) }
{
    add_operand(alloc, text, left)?;
    add(text, between)?;
    add_operand(alloc, text, right)
}

// Whether a term is an atom of the grammar.
fn is_atom(term: &Term) -> bool
    ensures { result ≡ is_atom (tree_of term.now.form term.now.span) }
{
    match &term.form {
        Form::Skip | Form::Lit { .. } | Form::Name(_) | Form::Pair(_, _) => true,
        _ => false,
    }
}

// An operator, with a blank before and behind it.
fn op_bytes(op: Op) -> &'static [u8]
    ensures { result.now ≡ codes " " ++ sign_text (sign_of op) ++ codes " " }
{
    match op {
        Op::Add => b" + ",
        Op::Sub => b" - ",
        Op::And => b" & ",
        Op::Or => b" | ",
        Op::Xor => b" ^ ",
        Op::Eq => b" = ",
        Op::Less => b" < ",
    }
}

// Adds what stands before the body of a function.
fn add_parameter(alloc: Global, text: &mut Vec<u8>, name: &Name, ty: &Ty) -> Result<(), NoMemory>
    ensures { OnOk result (text.new.items ≡ text.old.items ++ codes "fun " ++ name.now ++ codes " : " ++ type_text (type_of ty.now) ++ codes " . ") }
{
    add(text, b"fun ")?;
    add(text, name.bytes())?;
    add(text, b" : ")?;
    add_type(alloc, text, ty)?;
    add(text, b" . ")
}

// Adds what stands before the body of a block with a variable.
fn add_local(alloc: Global, text: &mut Vec<u8>, name: &Name, width: u32) -> Result<(), NoMemory>
    ensures { OnOk result (text.new.items ≡ text.old.items ++ codes "new " ++ name.now ++ codes " : " ++ decimal width ++ codes " in ") }
{
    add(text, b"new ")?;
    add(text, name.bytes())?;
    add(text, b" : ")?;
    add_number(alloc, text, u64::from(width))?;
    add(text, b" in ")
}

// Adds what stands before the body of a block with an array.
fn add_array(
    alloc: Global,
    text: &mut Vec<u8>,
    name: &Name,
    length: u32,
    width: u32,
) -> Result<(), NoMemory>
    ensures { OnOk result (text.new.items ≡ text.old.items ++ codes "new " ++ name.now ++ codes "[" ++ decimal length ++ codes "] : " ++ decimal width
        ++ codes " in ") }
{
    add(text, b"new ")?;
    add(text, name.bytes())?;
    add(text, b"[")?;
    add_number(alloc, text, u64::from(length))?;
    add(text, b"] : ")?;
    add_number(alloc, text, u64::from(width))?;
    add(text, b" in ")
}

// Adds bytes.
fn add(text: &mut Vec<u8>, bytes: &[u8]) -> Result<(), NoMemory>
    ensures { OnOk result (text.new.items ≡ text.old.items ++ bytes.now) }
{
    text.extend_from_slice(bytes)?;
    Ok(())
}
