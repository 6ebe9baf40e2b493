// The nodes of a term of the source.
//
// The recursion is as deep as the source's brackets and binders. What serves an import is a node that is there: it is shared, and its
// own open imports are not looked at, so none of them is caught.
ghost use Rattle.std.specs.Prelude.{◌≡◌, ◌∷◌, IfOk};
ghost use Rattle.gos_types.specs.Types.{type_of};
ghost use Rattle.gos_model.specs.Terms.{If, Lam, New};
ghost use Rattle.gos_model.specs.Linking.{supplied};
ghost use Rattle.gos_model.specs.Sources.{term_of, use_of};
ghost use Rattle.gos_witness.specs.NodeLists.{FitsOne, IsNarrow, one_term, two_term};
ghost use Rattle.gos_witness.specs.Substituted.{HasNarrow};
ghost use Rattle.gos_witness.specs.inner.Adding.{AreThere, IsAdded, meant, names_of, node_for, tree};
ghost use Rattle.gos_witness.specs.inner.Keeping.{Keeps};

use crate::binders::Binders;
use crate::nodes::{Form, Leaf, NodeList, OnePart, TwoParts, copy_of};
use gos_lex::Name;
use gos_syntax::{Form as Source, Term};
use gos_types::{NoMemory, Ty, copy};
use std::alloc::Global;

// What serves the import of a name: a node.
#[derive(Clone, Copy)]
pub(crate) struct Supply<'a> {
    pub name: &'a Name,
    pub node: u32,
}

// The node of what serves the import of this name.
fn supply_of(supplies: &[Supply], name: &Name) -> Option<u32>
    ensures { result ≡ node_for supplies.now name.now }
{
    for supply in supplies {
        if *supply.name == *name {
            return Some(supply.node);
        }
    }
    None
}

// Adds a term, and gives its number.
#[cycle(adding)]
pub(crate) fn add(
    alloc: Global,
    list: &mut NodeList,
    supplies: &[Supply],
    binders: &Binders,
    term: &Term,
) -> Result<u32, NoMemory>
    requires there { AreThere list.old supplies.now }
    requires narrow { HasNarrow (term_of (names_of binders.now) (tree term.now)) }
    ensures added { IfOk result (IsAdded list.old list.new supplies.now (meant (names_of binders.now) (tree term.now))) }
    ensures keeps { Keeps list.old list.new }
{
    match &term.form {
        Source::Skip => list.push(Form::Leaf(Leaf::Skip)),
        Source::Lit { value, width } => list.push(Form::Leaf(Leaf::Lit {
            value: *value,
            width: *width,
        })),
        Source::Name(name) => add_name(alloc, list, supplies, binders, name),
        Source::Fun { name, ty, body, .. } => {
            add_function(alloc, list, supplies, binders, name, ty, body)
        }
        Source::New {
            name,
            width,
            body,
            ..
        } => { add_block(alloc, list, supplies, binders, name, *width, body) }
        Source::Array {
            name,
            length,
            width,
            body,
            ..
        } => {
            let one = OnePart::NewArray {
                length: *length,
                width: *width,
            };
            add_array(alloc, list, supplies, binders, name, one, body)
        }
        Source::App(m, n) => add_two(alloc, list, supplies, binders, TwoParts::App, m, n),
        Source::Pair(m, n) => add_two(alloc, list, supplies, binders, TwoParts::Both, m, n),
        Source::Fst(m) => add_one(alloc, list, supplies, binders, OnePart::Fst, m),
        Source::Snd(m) => add_one(alloc, list, supplies, binders, OnePart::Snd, m),
        Source::Seq(m, n) => add_two(alloc, list, supplies, binders, TwoParts::Seq, m, n),
        Source::Par(m, n) => add_two(alloc, list, supplies, binders, TwoParts::Par, m, n),
        Source::If(m, n, p) => add_choice(alloc, list, supplies, binders, m, n, p),
        Source::While(m, n) => add_two(alloc, list, supplies, binders, TwoParts::While, m, n),
        Source::Assign(m, n) => add_two(alloc, list, supplies, binders, TwoParts::Assign, m, n),
        Source::Deref(m) => add_one(alloc, list, supplies, binders, OnePart::Deref, m),
        Source::Not(m) => add_one(alloc, list, supplies, binders, OnePart::Not, m),
        Source::Bin(op, m, n) => add_two(alloc, list, supplies, binders, TwoParts::Bin(*op), m, n),
    }
}

// Adds a name: its binder's variable, or what serves its import, or the import.
fn add_name(
    alloc: Global,
    list: &mut NodeList,
    supplies: &[Supply],
    binders: &Binders,
    name: &Name,
) -> Result<u32, NoMemory>
    requires { AreThere list.old supplies.now }
    ensures added { IfOk result (IsAdded list.old list.new supplies.now (λ f. supplied f (use_of (names_of binders.now) name.now))) }
    ensures keeps { Keeps list.old list.new }
{
    if let Some(number) = binders.find(name)? {
        return list.push(Form::Leaf(Leaf::Bound(number)));
    }
    if let Some(node) = supply_of(supplies, name) {
        return Ok(node);
    }
    let name = list.push_name(copy_of(alloc, name)?)?;
    list.push(Form::Leaf(Leaf::Import(name)))
}

// Adds a function.
#[cycle(adding)]
fn add_function(
    alloc: Global,
    list: &mut NodeList,
    supplies: &[Supply],
    binders: &Binders,
    name: &Name,
    ty: &Ty,
    body: &Term,
) -> Result<u32, NoMemory>
    requires there { AreThere list.old supplies.now }
    requires narrow { HasNarrow (term_of (name.now ∷ names_of binders.now) (tree body.now)) }
    ensures added { IfOk result (IsAdded list.old list.new supplies.now (λ f.
        Lam (type_of ty.now) (meant (name.now ∷ names_of binders.now) (tree body.now) f))) }
    ensures keeps { Keeps list.old list.new }
{
    let inner = Binders::Binder {
        name: &*name,
        outer: &*binders,
    };
    let body = add(alloc, list, supplies, &inner, body)?;
    let ty = list.push_type(copy(alloc, ty)?)?;
    list.push(Form::One(OnePart::Lam(ty), body))
}

// Adds a block with a variable.
#[cycle(adding)]
fn add_block(
    alloc: Global,
    list: &mut NodeList,
    supplies: &[Supply],
    binders: &Binders,
    name: &Name,
    width: u32,
    body: &Term,
) -> Result<u32, NoMemory>
    requires there { AreThere list.old supplies.now }
    requires width { IsNarrow width }
    requires narrow { HasNarrow (term_of (name.now ∷ names_of binders.now) (tree body.now)) }
    ensures added { IfOk result (IsAdded list.old list.new supplies.now (λ f.
        New width (meant (name.now ∷ names_of binders.now) (tree body.now) f))) }
    ensures keeps { Keeps list.old list.new }
{
    let inner = Binders::Binder {
        name: &*name,
        outer: &*binders,
    };
    let body = add(alloc, list, supplies, &inner, body)?;
    list.push(Form::One(OnePart::New(width), body))
}

// Adds a block with an array, which is this form.
#[cycle(adding)]
fn add_array(
    alloc: Global,
    list: &mut NodeList,
    supplies: &[Supply],
    binders: &Binders,
    name: &Name,
    one: OnePart,
    body: &Term,
) -> Result<u32, NoMemory>
    requires there { AreThere list.old supplies.now }
    requires form { FitsOne list.old.tables one }
    requires narrow { HasNarrow (term_of (name.now ∷ names_of binders.now) (tree body.now)) }
    ensures added { IfOk result (IsAdded list.old list.new supplies.now (λ f.
        one_term list.old.tables one (meant (name.now ∷ names_of binders.now) (tree body.now) f))) }
    ensures keeps { Keeps list.old list.new }
{
    let inner = Binders::Binder {
        name: &*name,
        outer: &*binders,
    };
    let body = add(alloc, list, supplies, &inner, body)?;
    list.push(Form::One(one, body))
}

// Adds a form of one part, which names no type.
#[cycle(adding)]
fn add_one(
    alloc: Global,
    list: &mut NodeList,
    supplies: &[Supply],
    binders: &Binders,
    one: OnePart,
    m: &Term,
) -> Result<u32, NoMemory>
    requires there { AreThere list.old supplies.now }
    requires form { FitsOne list.old.tables one }
    requires narrow { HasNarrow (term_of (names_of binders.now) (tree m.now)) }
    ensures added { IfOk result (IsAdded list.old list.new supplies.now (λ f.
        one_term list.old.tables one (meant (names_of binders.now) (tree m.now) f))) }
    ensures keeps { Keeps list.old list.new }
{
    let m = add(alloc, list, supplies, binders, m)?;
    list.push(Form::One(one, m))
}

// Adds a form of two parts.
#[cycle(adding)]
#[tactic(auto, using(crate::proofs::AddLemmas::still_there))]
fn add_two(
    alloc: Global,
    list: &mut NodeList,
    supplies: &[Supply],
    binders: &Binders,
    two: TwoParts,
    m: &Term,
    n: &Term,
) -> Result<u32, NoMemory>
    requires there { AreThere list.old supplies.now }
    requires narrow { HasNarrow (term_of (names_of binders.now) (tree m.now)) }
    requires second { HasNarrow (term_of (names_of binders.now) (tree n.now)) }
    ensures added { IfOk result (IsAdded list.old list.new supplies.now (λ f.
        two_term two (meant (names_of binders.now) (tree m.now) f) (meant (names_of binders.now) (tree n.now) f))) }
    ensures keeps { Keeps list.old list.new }
{
    let m = add(alloc, list, supplies, binders, m)?;
    let n = add(alloc, list, supplies, binders, n)?;
    list.push(Form::Two(two, m, n))
}

// Adds a choice.
#[cycle(adding)]
#[tactic(auto, using(crate::proofs::AddLemmas::still_there))]
fn add_choice(
    alloc: Global,
    list: &mut NodeList,
    supplies: &[Supply],
    binders: &Binders,
    m: &Term,
    n: &Term,
    p: &Term,
) -> Result<u32, NoMemory>
    requires there { AreThere list.old supplies.now }
    requires narrow { HasNarrow (term_of (names_of binders.now) (tree m.now)) }
    requires second { HasNarrow (term_of (names_of binders.now) (tree n.now)) }
    requires third { HasNarrow (term_of (names_of binders.now) (tree p.now)) }
    ensures added { IfOk result (IsAdded list.old list.new supplies.now (λ f.
        If (meant (names_of binders.now) (tree m.now) f) (meant (names_of binders.now) (tree n.now) f)
        (meant (names_of binders.now) (tree p.now) f))) }
    ensures keeps { Keeps list.old list.new }
{
    let m = add(alloc, list, supplies, binders, m)?;
    let n = add(alloc, list, supplies, binders, n)?;
    let p = add(alloc, list, supplies, binders, p)?;
    list.push(Form::If(m, n, p))
}
