// The handshakes of a type, as the holder of a term of it sees them.
ghost use Rattle.std.specs.Prelude.{◌≡◌, ◌<◌, ◌++◌, ◌∷◌, [], ◌^◌, length, map, IfOk, OnOk};
ghost use Rattle.gos_types.specs.Types.{type_of, size};
ghost use Rattle.gos_types.specs.Handshakes.{handshakes_of, turned};
ghost use Rattle.gos_types.specs.inner.Within.{within};

use crate::fault::NoMemory;
use crate::types::Ty;
use std::alloc::Global;
use std::marker::Model;

/// Who makes the request of a handshake.
#[derive(Debug, Clone, Copy, PartialEq, Eq)]
pub enum Role {
    /// The holder answers, another asks.
    Serve,
    /// The holder asks, another answers.
    Ask,
}

/// One step from a type to a part of it.
#[derive(Debug, Clone, Copy, PartialEq, Eq)]
pub enum Step {
    /// To the first side of a product.
    First,
    /// To the second side of a product.
    Second,
    /// To the argument of a function.
    Argument,
    /// To the outcome of a function.
    Outcome,
    /// To the reading of a variable.
    Read,
    /// To the writing of a variable.
    Write,
}

/// One request and its answer.
#[derive(Debug, Drop)]
pub struct Handshake {
    /// Who makes the request.
    pub role: Role,
    /// How many bits come with the request; 0 where it carries no number.
    pub ask_bits: u32,
    /// How many bits come with the answer; 0 where it carries no number.
    pub answer_bits: u32,
    /// The way from the type's root to the part that has this handshake.
    pub path: Vec<Step>,
}

impl Model for Handshake {
    ghost use Rattle.gos_types.specs.Handshakes.{Shake};

    ghost Value = { Shake };

    ghost view = { λ h. record { role = h.role; ask_bits = h.ask_bits; answer_bits = h.answer_bits; path = h.path.items } };
}

impl Role {
    /// The role of the other side.
    fn turned(self) -> Role
        ensures { result ≡ turned self }
    {
        match self {
            Role::Serve => Role::Ask,
            Role::Ask => Role::Serve,
        }
    }
}

/// The handshakes of a type, in the order by which ports and parts number them. `Err` is want of memory alone.
#[tactic(auto, using(crate::proofs::WithinLemmas::within_root))]
pub fn handshakes(alloc: Global, ty: &Ty) -> Result<Vec<Handshake>, NoMemory>
    ensures { IfOk result (λ shakes. shakes.items ≡ handshakes_of (type_of ty.now)) }
{
    let mut shakes = Vec::new(alloc);
    let mut path = Vec::new(alloc);
    add_handshakes(alloc, ty, Role::Serve, &mut path, &mut shakes)?;
    Ok(shakes)
}

/// How many handshakes a type has.
#[tactic(auto, using(crate::proofs::CountLemmas::count_le_size))]
pub fn count(ty: &Ty) -> u64
    requires { size (type_of ty.now) < 2 ^ 32 }
    ensures { result ≡ length (handshakes_of (type_of ty.now)) }
{
    match ty {
        Ty::Com | Ty::Exp(_) => 1,
        Ty::Var(_) => 2,
        Ty::Pair(a, b) | Ty::Fun(a, b) => count(a) + count(b),
    }
}

// Adds the handshakes of a part that stands at this way from the root; `role` is that of a served handshake there.
#[cycle(add)]
fn add_handshakes(
    alloc: Global,
    ty: &Ty,
    role: Role,
    path: &mut Vec<Step>,
    shakes: &mut Vec<Handshake>,
) -> Result<(), NoMemory>
    ensures way { OnOk result (path.new.items ≡ path.old.items) }
    ensures added { OnOk result (shakes.new.items ≡ shakes.old.items ++ map (within role path.old.items) (handshakes_of (type_of ty.now))) }
{
    match ty {
        Ty::Com => add_one(alloc, role, 0, 0, path, shakes),
        Ty::Exp(w) => add_one(alloc, role, 0, *w, path, shakes),
        Ty::Var(w) => {
            path.push(Step::Read)?;
            add_one(alloc, role, 0, *w, path, shakes)?;
            path.pop();
            path.push(Step::Write)?;
            add_one(alloc, role, *w, 0, path, shakes)?;
            path.pop();
            Ok(())
        }
        Ty::Pair(a, b) => {
            add_below(alloc, a, role, Step::First, path, shakes)?;
            add_below(alloc, b, role, Step::Second, path, shakes)?;
            Ok(())
        }
        Ty::Fun(a, b) => {
            add_below(alloc, a, role.turned(), Step::Argument, path, shakes)?;
            add_below(alloc, b, role, Step::Outcome, path, shakes)?;
            Ok(())
        }
    }
}

// Adds the handshakes of a part that stands one step below this way.
#[cycle(add)]
fn add_below(
    alloc: Global,
    ty: &Ty,
    role: Role,
    step: Step,
    path: &mut Vec<Step>,
    shakes: &mut Vec<Handshake>,
) -> Result<(), NoMemory>
    ensures way { OnOk result (path.new.items ≡ path.old.items) }
    ensures added { OnOk result (shakes.new.items ≡ shakes.old.items ++ map (within role (path.old.items ++ step ∷ [])) (handshakes_of (type_of ty.now))) }
{
    path.push(step)?;
    add_handshakes(alloc, ty, role, path, shakes)?;
    path.pop();
    Ok(())
}

// Adds one handshake at this way.
fn add_one(
    alloc: Global,
    role: Role,
    ask_bits: u32,
    answer_bits: u32,
    path: &[Step],
    shakes: &mut Vec<Handshake>,
) -> Result<(), NoMemory>
    ensures { OnOk result
        (shakes.new.items
        ≡ shakes.old.items ++ record { role = role; ask_bits = ask_bits; answer_bits = answer_bits; path = path.now } ∷ []) }
{
    let path = path.to_vec(alloc)?;
    shakes.push(Handshake {
        role,
        ask_bits,
        answer_bits,
        path,
    })?;
    Ok(())
}
