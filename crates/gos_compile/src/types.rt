// The types of all numbers of a term.

ghost use Rattle.std.specs.Prelude.{◌≡◌, ◌<◌, ℕ, length, IfOk, OnOk, map};
ghost use Rattle.gos_types.specs.Types.{type_of, Com, Fun};
ghost use Rattle.gos_model.specs.Sources.{import_of};
ghost use Rattle.gos_check.specs.Nodes.{argument_of, node_seen};
ghost use Rattle.gos_compile.specs.inner.Tables.{types_at};
ghost use Rattle.gos_compile.specs.Wiring.{with_type, with_sides, with_types, import_types};

use gos_check::{Node, NodeForm, Split};
use gos_syntax::Import;
use gos_types::{NoMemory, Ty, array_type, copy};
use std::alloc::Global;

// The type of a number.
pub(crate) fn type_at(alloc: Global, types: &[Ty], number: u32) -> Result<Ty, NoMemory>
    ensures { IfOk result (λ ty. type_of ty ≡ types_at types.now number) }
{
    match types.get(number as usize) {
        Some(ty) => copy(alloc, ty),
        None => Ok(Ty::Com),
    }
}

// The argument of a function type.
pub(crate) fn argument(alloc: Global, ty: &Ty) -> Result<Ty, NoMemory>
    ensures { IfOk result (λ found. type_of found ≡ argument_of (type_of ty.now)) }
{
    match ty {
        Ty::Fun(a, _) => copy(alloc, a),
        ty => copy(alloc, ty),
    }
}

// Makes the list longer, by types of commands, until it has this number.
#[tactic(auto, using(crate::proofs::TableLemmas::one_longer))]
fn extend(types: &mut Vec<Ty>, number: usize) -> Result<(), NoMemory>
    ensures same { OnOk result ((k : ℕ) → types_at types.new.items k ≡ types_at types.old.items k) }
    ensures room { OnOk result (number < length types.new.items) }
{
    while types.len() <= number {
        types.push(Ty::Com)?;
    }
    Ok(())
}

// Gives a number a type.
fn set_type(types: &mut Vec<Ty>, number: u32, ty: Ty) -> Result<(), NoMemory>
    ensures each { OnOk result ((k : ℕ) → types_at types.new.items k ≡ with_type number (type_of ty) (types_at types.old.items) k) }
    ensures all { OnOk result (types_at types.new.items ≡ with_type number (type_of ty) (types_at types.old.items)) }
{
    extend(types, number as usize)?;
    types[number as usize] = ty;
    Ok(())
}

// Gives the sides of splits the types of what is split.
fn set_sides(alloc: Global, splits: &[Split], types: &mut Vec<Ty>) -> Result<(), NoMemory>
    ensures { OnOk result (types_at types.new.items ≡ with_sides splits.now (types_at types.old.items)) }
{
    for split in splits {
        let left = type_at(alloc, types, split.of)?;
        let right = type_at(alloc, types, split.of)?;
        set_type(types, split.right, right)?;
        set_type(types, split.left, left)?;
    }
    Ok(())
}

// The types of the numbers of imports.
#[tactic(auto, using(crate::proofs::TableLemmas::types_of_imports))]
pub(crate) fn import_list(alloc: Global, imports: &[Import]) -> Result<Vec<Ty>, NoMemory>
    ensures { IfOk result (λ types. types_at types.items ≡ import_types (map import_of imports.now)) }
{
    let mut types = Vec::new(alloc);
    for import in imports {
        types.push(copy(alloc, &import.ty)?)?;
    }
    Ok(types)
}

// Gives each number that is made in a term its type.
#[cycle(types)]
pub(crate) fn set_types(alloc: Global, node: &Node, types: &mut Vec<Ty>) -> Result<(), NoMemory>
    ensures { OnOk result (types_at types.new.items ≡ with_types (node_seen node.now) (types_at types.old.items)) }
{
    set_sides(alloc, &node.splits, types)?;
    match &node.form {
        NodeForm::Skip | NodeForm::Lit { .. } | NodeForm::Use(_) => Ok(()),
        NodeForm::Fun { number, body } => {
            let ty = argument(alloc, &node.ty)?;
            set_type(types, *number, ty)?;
            set_types(alloc, body, types)
        }
        NodeForm::New {
            number,
            width,
            body,
        } => {
            set_type(types, *number, Ty::Var(*width))?;
            set_types(alloc, body, types)
        }
        NodeForm::Array {
            number,
            length,
            width,
            body,
        } => {
            let ty = array_type(alloc, *length, *width)?;
            set_type(types, *number, ty)?;
            set_types(alloc, body, types)
        }
        NodeForm::Fst(m) | NodeForm::Snd(m) | NodeForm::Deref(m) | NodeForm::Not(m) => {
            set_types(alloc, m, types)
        }
        NodeForm::App(m, n)
        | NodeForm::Pair(m, n)
        | NodeForm::Seq(m, n)
        | NodeForm::Par(m, n)
        | NodeForm::While(m, n)
        | NodeForm::Assign(m, n)
        | NodeForm::Bin(_, m, n) => {
            set_types(alloc, m, types)?;
            set_types(alloc, n, types)
        }
        NodeForm::If(m, n, p) => {
            set_types(alloc, m, types)?;
            set_types(alloc, n, types)?;
            set_types(alloc, p, types)
        }
    }
}
