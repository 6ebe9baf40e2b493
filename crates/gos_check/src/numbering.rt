// The typed term of a module that is accepted: each occurrence has a number, and each sharing is written out as a split.
//
// A term is numbered from its leaves up. Each use has a new number, and where two parts of a node use one name, a new
// number outside stands for the two numbers inside. What is left open at the root are the imports, which then change
// their numbers for their places.

ghost use Rattle.std.specs.Prelude.{◌≡◌, ◌+◌, ◌*◌, ◌^◌, ◌<◌, ◌≤◌, [], ◌∷◌, map, length, IfOk, IfErr};
ghost use Rattle.gos_types.specs.Types.{type_of, Var};
ghost use Rattle.gos_model.specs.Sources.{import_of};
ghost use Rattle.gos_model.specs.Typing.{array_type};
ghost use Rattle.gos_model.specs.Weight.{or_com};
ghost use Rattle.gos_syntax.specs.Sizes.{size};
ghost use Rattle.gos_check.specs.Scopes.{type_at};
ghost use Rattle.gos_check.specs.inner.Seen.{binders_of};
ghost use Rattle.gos_check.specs.inner.Walked.{tree, parts_size};
ghost use Rattle.gos_check.specs.Nodes.{OfFun, OfNew, OfArray, one_form, two_form, numbered_of, node_seen};
ghost use Rattle.gos_check.specs.Numbering.{
  use_result,
  binder_result,
  one_result,
  two_result,
  choice_result,
  inner_next,
  numbered,
  import_number,
  placed,
  typed_term,
};
ghost use Rattle.gos_check.specs.inner.NumberedTerms.{Numbers};

use crate::fault::CheckFault;
use crate::forms::{OnePart, TwoParts};
use crate::joining::{below_array, below_block, below_function, with_one, with_three, with_two};
use crate::linear::{Node, NodeForm};
use crate::opens::{Open, merge};
use crate::renaming::exchange;
use crate::scope::Scope;
use gos_lex::Name;
use gos_syntax::{Form, Import, Module, Term};
use gos_types::{Ty, array_type, copy};
use std::alloc::Global;

// A term that is numbered: its free names with their numbers, and the next number that is not taken.
#[derive(Drop)]
pub(crate) struct NumberedTerm {
    pub node: Box<Node>,
    pub names: Vec<Open>,
    pub next: u32,
}

// The typed term of a module's body.
pub(crate) fn number_module(alloc: Global, program: &Module) -> Result<Node, CheckFault>
    requires { length program.now.imports + 2 * size (tree program.now.body) < 2 ^ 32 }
    ensures ok { IfOk result (λ node. node_seen node ≡ typed_term program.now) }
    ensures err { IfErr result (λ e. e ≡ CheckFault.NoMemory) }
{
    let imports = program.imports.as_slice();
    let first = imports.len() as u32;
    let body = number(alloc, imports, &Scope::Outermost, first, &program.body)?;
    let mut node = Box::into_inner(body.node);
    place(imports, body.names.as_slice(), &mut node);
    Ok(node)
}

// Gives each of these names its import's place as its number.
fn place(imports: &[Import], names: &[Open], node: &mut Node)
    requires { length imports.now < 2 ^ 32 }
    ensures { node_seen node.new ≡ placed imports.now names.now (node_seen node.old) }
{
    for one in names {
        if let Some(place) = import_number(imports, &one.name) {
            exchange(one.number, place, node);
        }
    }
}

// The place of the first import of a name.
fn import_number(imports: &[Import], name: &Name) -> Option<u32>
    requires { length imports.now < 2 ^ 32 }
    ensures { result ≡ import_number imports.now name.now }
{
    for (place, import) in imports.iter().enumerate() {
        if import.name == *name {
            return Some(place as u32);
        }
    }
    None
}

// A term, from the next number on.
#[cycle(numbering)]
fn number(
    alloc: Global,
    imports: &[Import],
    scope: &Scope,
    next: u32,
    term: &Term,
) -> Result<NumberedTerm, CheckFault>
    requires { next + 2 * size (tree term.now) < 2 ^ 32 }
    ensures seen { Numbers (numbered (map import_of imports.now) (binders_of scope.now) next (tree term.now)) result }
    ensures room { IfOk result (λ r. r.next + length r.names.items ≤ next + 2 * parts_size (tree term.now) + 2) }
{
    match &term.form {
        Form::Skip => closed(alloc, next, Ty::Com, NodeForm::Skip),
        Form::Lit { value, width } => closed(
            alloc,
            next,
            Ty::Exp(*width),
            NodeForm::Lit {
                value: *value,
                width: *width,
            },
        ),
        Form::Name(name) => number_name(alloc, imports, scope, next, name),
        Form::Fun { name, ty, body, .. } => {
            number_function(alloc, imports, scope, next, name, ty, body)
        }
        Form::New {
            name,
            width,
            body,
            ..
        } => number_block(alloc, imports, scope, next, name, *width, body),
        Form::Array {
            name,
            length,
            width,
            body,
            ..
        } => number_array(alloc, imports, scope, next, name, (*length, *width), body),
        Form::App(m, n) => number_two(alloc, imports, scope, next, TwoParts::Application, m, n),
        Form::Pair(m, n) => number_two(alloc, imports, scope, next, TwoParts::Product, m, n),
        Form::Fst(m) => number_one(alloc, imports, scope, next, OnePart::First, m),
        Form::Snd(m) => number_one(alloc, imports, scope, next, OnePart::Second, m),
        Form::Seq(m, n) => number_two(alloc, imports, scope, next, TwoParts::Sequence, m, n),
        Form::Par(m, n) => number_two(alloc, imports, scope, next, TwoParts::Parallel, m, n),
        Form::If(m, n, p) => number_choice(alloc, imports, scope, next, m, n, p),
        Form::While(m, n) => number_two(alloc, imports, scope, next, TwoParts::Loop, m, n),
        Form::Assign(m, n) => number_two(alloc, imports, scope, next, TwoParts::Assignment, m, n),
        Form::Deref(m) => number_one(alloc, imports, scope, next, OnePart::Reading, m),
        Form::Not(m) => number_one(alloc, imports, scope, next, OnePart::Negation, m),
        Form::Bin(op, m, n) => {
            number_two(alloc, imports, scope, next, TwoParts::Operation(*op), m, n)
        }
    }
}

// A term without free names.
fn closed(alloc: Global, next: u32, ty: Ty, form: NodeForm) -> Result<NumberedTerm, CheckFault>
    ensures seen { Numbers (record { node = numbered_of ty [] form; names = []; next = next }) result }
    ensures room { IfOk result (λ r. r.next + length r.names.items ≤ next + 2 * 0 + 2) }
{
    let splits = Vec::new(alloc);
    Ok(NumberedTerm {
        node: Box::new(alloc, Node { ty, splits, form })?,
        names: Vec::new(alloc),
        next,
    })
}

// A name that is used, with a new number.
fn number_name(
    alloc: Global,
    imports: &[Import],
    scope: &Scope,
    next: u32,
    name: &Name,
) -> Result<NumberedTerm, CheckFault>
    requires { next + 2 < 2 ^ 32 }
    ensures seen { Numbers (use_result (or_com (type_at (map import_of imports.now) (binders_of scope.now) name.now)) name.now next) result }
    ensures room { IfOk result (λ r. r.next + length r.names.items ≤ next + 2 * 0 + 2) }
{
    let ty = match scope.find(imports, name) {
        Some(ty) => copy(alloc, ty)?,
        None => Ty::Com,
    };
    let mut names = Vec::new(alloc);
    names.push(Open {
        name: Name::new(alloc, name.bytes())?,
        number: next,
    })?;
    let node = Node {
        ty,
        splits: Vec::new(alloc),
        form: NodeForm::Use(next),
    };
    Ok(NumberedTerm {
        node: Box::new(alloc, node)?,
        names,
        next: next + 1,
    })
}

// A function.
#[cycle(numbering)]
fn number_function(
    alloc: Global,
    imports: &[Import],
    scope: &Scope,
    next: u32,
    name: &Name,
    ty: &Ty,
    body: &Term,
) -> Result<NumberedTerm, CheckFault>
    requires { next + 2 * size (tree body.now) + 2 < 2 ^ 32 }
    ensures seen { Numbers (binder_result OfFun name.now (type_of ty.now) (numbered (map import_of imports.now)
        (record { name = name.now; ty = type_of ty.now } ∷ binders_of scope.now) next (tree body.now))) result }
    ensures room { IfOk result (λ r. r.next + length r.names.items ≤ next + 2 * size (tree body.now) + 2) }
{
    let inner = Scope::Binder {
        name: &*name,
        ty: &*ty,
        outer: &*scope,
    };
    let body = number(alloc, imports, &inner, next, body)?;
    below_function(alloc, &*name, &*ty, body)
}

// A block with a variable.
#[cycle(numbering)]
fn number_block(
    alloc: Global,
    imports: &[Import],
    scope: &Scope,
    next: u32,
    name: &Name,
    width: u32,
    body: &Term,
) -> Result<NumberedTerm, CheckFault>
    requires { next + 2 * size (tree body.now) + 2 < 2 ^ 32 }
    ensures seen { Numbers (binder_result (OfNew width) name.now (Var width) (numbered (map import_of imports.now)
        (record { name = name.now; ty = Var width } ∷ binders_of scope.now) next (tree body.now))) result }
    ensures room { IfOk result (λ r. r.next + length r.names.items ≤ next + 2 * size (tree body.now) + 2) }
{
    let variable = Ty::Var(width);
    let inner = Scope::Binder {
        name: &*name,
        ty: &variable,
        outer: &*scope,
    };
    let body = number(alloc, imports, &inner, next, body)?;
    below_block(alloc, &*name, width, body)
}

// A block with an array, with its length and its width.
#[cycle(numbering)]
fn number_array(
    alloc: Global,
    imports: &[Import],
    scope: &Scope,
    next: u32,
    name: &Name,
    many: (u32, u32),
    body: &Term,
) -> Result<NumberedTerm, CheckFault>
    requires { next + 2 * size (tree body.now) + 2 < 2 ^ 32 }
    ensures seen { Numbers (binder_result (OfArray many.0 many.1) name.now (array_type many.0 many.1) (numbered (map import_of imports.now)
        (record { name = name.now; ty = array_type many.0 many.1 } ∷ binders_of scope.now) next (tree body.now))) result }
    ensures room { IfOk result (λ r. r.next + length r.names.items ≤ next + 2 * size (tree body.now) + 2) }
{
    let array = array_type(alloc, many.0, many.1)?;
    let inner = Scope::Binder {
        name: &*name,
        ty: &array,
        outer: &*scope,
    };
    let body = number(alloc, imports, &inner, next, body)?;
    below_array(alloc, &*name, many, body)
}

// A form of one part.
#[cycle(numbering)]
fn number_one(
    alloc: Global,
    imports: &[Import],
    scope: &Scope,
    next: u32,
    rule: OnePart,
    m: &Term,
) -> Result<NumberedTerm, CheckFault>
    requires { next + 2 * size (tree m.now) < 2 ^ 32 }
    ensures seen { Numbers (one_result (one_form rule)
        (numbered (map import_of imports.now) (binders_of scope.now) next (tree m.now))) result }
    ensures room { IfOk result (λ r. r.next + length r.names.items ≤ next + 2 * size (tree m.now) + 2) }
{
    let part = number(alloc, imports, scope, next, m)?;
    with_one(alloc, rule, part)
}

// A form of two parts.
#[cycle(numbering)]
fn number_two(
    alloc: Global,
    imports: &[Import],
    scope: &Scope,
    next: u32,
    rule: TwoParts,
    m: &Term,
    n: &Term,
) -> Result<NumberedTerm, CheckFault>
    requires { next + 2 * (size (tree m.now) + size (tree n.now)) < 2 ^ 32 }
    ensures seen { Numbers (two_result (two_form rule)
        (numbered (map import_of imports.now) (binders_of scope.now) next (tree m.now))
        (numbered (map import_of imports.now) (binders_of scope.now)
        (numbered (map import_of imports.now) (binders_of scope.now) next (tree m.now)).next (tree n.now))) result }
    ensures room { IfOk result (λ r. r.next + length r.names.items ≤ next + 2 * (size (tree m.now) + size (tree n.now)) + 2) }
{
    let left = number(alloc, imports, scope, next, m)?;
    let right = number(alloc, imports, scope, left.next, n)?;
    with_two(alloc, rule, left, right)
}

// `if M then N else P`
#[cycle(numbering)]
fn number_choice(
    alloc: Global,
    imports: &[Import],
    scope: &Scope,
    next: u32,
    m: &Term,
    n: &Term,
    p: &Term,
) -> Result<NumberedTerm, CheckFault>
    requires { next + 2 * (size (tree m.now) + size (tree n.now) + size (tree p.now)) < 2 ^ 32 }
    ensures seen { Numbers (choice_result
        (numbered (map import_of imports.now) (binders_of scope.now) next (tree m.now))
        (numbered (map import_of imports.now) (binders_of scope.now)
        (numbered (map import_of imports.now) (binders_of scope.now) next (tree m.now)).next (tree n.now))
        (numbered (map import_of imports.now) (binders_of scope.now)
        (inner_next (numbered (map import_of imports.now) (binders_of scope.now) next (tree m.now))
        (numbered (map import_of imports.now) (binders_of scope.now)
        (numbered (map import_of imports.now) (binders_of scope.now) next (tree m.now)).next (tree n.now))) (tree p.now))) result }
    ensures room { IfOk result (λ r. r.next + length r.names.items
        ≤ next + 2 * (size (tree m.now) + size (tree n.now) + size (tree p.now)) + 2) }
{
    let test = number(alloc, imports, scope, next, m)?;
    let yes = number(alloc, imports, scope, test.next, n)?;
    let inner = merge(alloc, test.names, yes.names, yes.next)?;
    let no = number(alloc, imports, scope, inner.next, p)?;
    with_three(alloc, test.node, yes.node, inner, no)
}
