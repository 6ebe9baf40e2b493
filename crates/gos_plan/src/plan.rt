// Plans: parts, joints, and what a plan's owner may see of it.

ghost use Rattle.std.specs.Prelude.{◌≡◌, ℕ, IfOk, IfErr};
ghost use Rattle.gos_plan.specs.Plans.{IsRight};
ghost use Rattle.gos_plan.specs.Ranges.{AreInRange};
ghost use Rattle.gos_plan.specs.Seen.{SeenPlan, plan_of};
ghost use Rattle.gos_plan.specs.Faults.{IsFault};

use crate::fault::ObjectFault;
use crate::kinds::Kind;
use crate::seats::Seats;
use gos_lex::Name;
use gos_types::Ty;
use std::alloc::Global;
use std::marker::Model;

/// An end of a joint: a handshake of a part, of an import, or of the result, each by its number.
#[derive(Debug, Clone, Copy, PartialEq, Eq)]
pub enum End {
    Part { part: u32, shake: u32 },
    Import { import: u32, shake: u32 },
    Result { shake: u32 },
}

/// A joint of two ends: requests go from the end that asks to the one that serves, and answers back.
#[derive(Debug, Clone, Copy, PartialEq, Eq)]
pub struct Joint {
    pub asks: End,
    pub serves: End,
}

/// An import of a plan.
#[derive(Debug, Drop)]
pub struct PlanImport {
    pub name: Name,
    pub ty: Ty,
}

/// A plan: what its module weighs, its imports, the type of its result, its parts, and its joints.
#[derive(Debug, Drop)]
pub struct Plan {
    weight: u64,
    imports: Vec<PlanImport>,
    outcome: Ty,
    parts: Vec<Kind>,
    joints: Vec<Joint>,
}

impl Model for Plan {
    ghost use Rattle.gos_plan.specs.Seen.{SeenPlan};
    ghost use Rattle.std.specs.Coded.{codes};
    ghost use Rattle.gos_types.specs.contracts.types.Ty as a_type;
    ghost use Rattle.gos_plan.specs.contracts.kinds.Kind as a_kind;
    ghost use Rattle.gos_plan.specs.contracts.plan.PlanImport as an_import;

    ghost Value = { SeenPlan };

    ghost coded = { Prim.hlevel (codes, a_type.the_row.coded, a_kind.the_row.coded, an_import.the_row.coded) };

    ghost use Rattle.gos_plan.specs.inner.Inside.{seen_of, IsKept};

    ghost view = { seen_of };

    ghost invariant = { IsKept };
}

impl Plan {
    /// The weight of the module that the plan was made from.
    pub fn weight(&self) -> u64
        ensures { result ≡ self.now.weight }
    {
        self.weight
    }

    /// The imports, in their order.
    pub fn imports(&self) -> &[PlanImport]
        ensures { result.now ≡ self.now.imports }
    {
        &self.imports
    }

    /// The type of the result.
    pub fn result(&self) -> &Ty
        ensures { result.now ≡ self.now.outcome }
    {
        &self.outcome
    }

    /// The parts, by number. They are in range, as are the types of the imports and of the result.
    pub fn parts(&self) -> &[Kind]
        ensures value { result.now ≡ self.now.parts }
        ensures in_range { AreInRange self.now.imports self.now.outcome self.now.parts }
    {
        &self.parts
    }

    /// The joints, by number. Each of them is right.
    pub fn joints(&self) -> &[Joint]
        ensures value { result.now ≡ self.now.joints }
        ensures right { IsRight (plan_of self.now) }
    {
        &self.joints
    }
}

/// The plan of these values. Widths, literals and types have to be in range.
///
/// A plan without a `Share` holds at most one token for each joint (`one_token_each`).
///
/// `Joint` tells the first joint that is not right; `Form` and `Limit` are never answered. On a refusal the values are
/// dropped.
pub fn make(
    alloc: Global,
    weight: u64,
    imports: Vec<PlanImport>,
    outcome: Ty,
    parts: Vec<Kind>,
    joints: Vec<Joint>,
) -> Result<Plan, ObjectFault>
    requires { AreInRange imports.items outcome parts.items }
    ensures plan { IfOk result (λ plan.
        plan ≡ record { weight = weight; imports = imports.items; outcome = outcome; parts = parts.items; joints = joints.items }) }
    ensures right { IfOk result (λ plan. IsRight (plan_of plan)) }
    ensures fault { IfErr result
        (IsFault
        (record { weight = weight; imports = imports.items; outcome = outcome; parts = parts.items; joints = joints.items })) }
{
    match judge(alloc, &imports, &outcome, &parts, &joints) {
        Ok(()) => Ok(Plan {
            weight,
            imports,
            outcome,
            parts,
            joints,
        }),
        Err(fault) => Err(fault),
    }
}

// Judges the joints, one after another.
fn judge(
    alloc: Global,
    imports: &[PlanImport],
    outcome: &Ty,
    parts: &[Kind],
    joints: &[Joint],
) -> Result<(), ObjectFault>
    ensures right { IfOk result (λ _.
        (weight : ℕ)
        → IsRight
        (plan_of
        (record { weight = weight; imports = imports.now; outcome = outcome.now; parts = parts.now; joints = joints.now }))) }
    ensures fault { IfErr result (λ fault.
        (weight : ℕ)
        → IsFault
        (record { weight = weight; imports = imports.now; outcome = outcome.now; parts = parts.now; joints = joints.now }) fault) }
{
    let mut seats = Seats::new(alloc, imports, outcome, parts)?;
    for index in 0..joints.len() {
        if !seats.join(joints[index]) {
            return Err(ObjectFault::Joint { index });
        }
    }
    Ok(())
}
