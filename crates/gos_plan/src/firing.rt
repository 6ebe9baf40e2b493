// What a part does with a token: a plain, slow program over the table of rows, with which tests fire plans.
ghost use Rattle.std.specs.Prelude.{◌≡◌, ◌^◌, ◌<◌, ◌≤◌, ℕ, [], ◌∷◌, Some, IfOk, length, map, nat_eq, if◌then◌else◌, get_or, set, replicate};
ghost use Rattle.gos_types.specs.Types.{type_of};
ghost use Rattle.gos_plan.specs.Kinds as kinds;
ghost use Rattle.gos_plan.specs.Kinds.{contact};
ghost use Rattle.gos_model.specs.Terms.{result_of, complement};
ghost use Rattle.gos_plan.specs.Seen.{operation_of, part_of};
ghost use Rattle.gos_plan.specs.Ranges.{IsSmall, IsInRange, HasBranch};
ghost use Rattle.gos_plan.specs.Firing.{Rest, Both, Body, Req, Ans, at, put, firing, same_slot, row_for, shared_rows, share_rows};
ghost use Rattle.gos_plan.specs.OneFiring.{list_of, phase_of, state_of, slot_of, fired_of, at_value};

use crate::kinds::{Kind, Op2};
use gos_types::{Handshake, NoMemory, Role, Ty, difference, greatest, handshakes, sum};
use std::alloc::Global;

// The most numbers of an array.
const MOST_NUMBERS: u64 = 16;

/// The numbers of an array, in the order of their indexes: the first `length` of these.
#[derive(Debug, Clone, Copy, PartialEq, Eq)]
pub struct Numbers {
    pub length: usize,
    pub held: [u64; 16],
}

/// What a part is at. `Rest` is idle, and a Share is always at rest. The last three are of an array that was entered: it waits for
/// no index in `Cells`, for that of a read in `Reading`, and for that of a write in `WritingTo`.
#[derive(Debug, Clone, Copy, PartialEq, Eq)]
pub enum Phase {
    Rest,
    First,
    Second,
    Both,
    LeftOnly,
    RightOnly,
    Test,
    Branch,
    Body,
    Left,
    Right,
    Waiting,
    Value,
    Writing,
    Active,
    Cells(Numbers),
    Reading(Numbers),
    WritingTo(Numbers),
}

/// The state of a part. The number is the one held, that of a variable, the last one that came to be written to an array, or a
/// branch.
#[derive(Debug, Clone, Copy, PartialEq, Eq)]
pub struct State {
    pub phase: Phase,
    pub number: u64,
}

/// The request or the answer of a handshake, by the number of the handshake.
#[derive(Debug, Clone, Copy, PartialEq, Eq)]
pub enum Slot {
    Req(u64),
    Ans(u64),
}

/// A token, and where it is put.
#[derive(Debug, Clone, Copy, PartialEq, Eq)]
pub struct Token {
    pub slot: Slot,
    pub value: u64,
}

/// The tokens that a firing puts.
#[derive(Debug, Clone, Copy, PartialEq, Eq)]
pub enum Puts {
    Nothing,
    One(Token),
    Two(Token, Token),
}

/// A firing: the state after it, and the tokens that it puts.
#[derive(Debug, Clone, Copy, PartialEq, Eq)]
pub struct Firing {
    pub next: State,
    pub puts: Puts,
}

/// What a part in this state does with the token that lies at a slot and has this value. `None`: the state doesn't take it.
/// `Err` is want of memory alone. The number of a Share, a branch, has at most 32 bits; no other number has a bound.
pub fn fire(
    alloc: Global,
    kind: &Kind,
    state: State,
    slot: Slot,
    value: u64,
) -> Result<Option<Firing>, NoMemory>
    requires kind { IsInRange kind.now }
    requires branch { HasBranch kind.now state.number }
    ensures { IfOk result (λ f. fired_of f ≡ at_value value (firing (part_of kind.now) (state_of state) (slot_of slot))) }
{
    let firing = match kind {
        Kind::Skip => skip(state, slot),
        Kind::Lit { w: _, k } => lit(*k, state, slot),
        Kind::Seq | Kind::SeqExp { w: _ } => seq(state, slot, value),
        Kind::Par => par(state, slot),
        Kind::If | Kind::IfExp { w: _ } => choice(state, slot, value),
        Kind::While => repeat(state, slot, value),
        Kind::Op { op, w } => operate(*op, *w, state, slot, value),
        Kind::Not { w } => invert(*w, state, slot, value),
        Kind::Assign { w: _ } => assign(state, slot, value),
        Kind::Deref { w: _ } => deref(state, slot, value),
        Kind::Local { w: _, v: _ } => local(state, slot, value),
        Kind::Array { w: _, n, v: _ } => array(*n, state, slot, value),
        Kind::Share(ty) => share(alloc, ty, state, slot, value)?,
    };
    Ok(firing)
}

// Whether two slots are one.
fn same(one: Slot, other: Slot) -> bool
    ensures { result ≡ same_slot (slot_of one) (slot_of other) }
{
    match (one, other) {
        (Slot::Req(h), Slot::Req(j)) | (Slot::Ans(h), Slot::Ans(j)) => h == j,
        _ => false,
    }
}

// A firing that leads to this state and puts one token.
fn to(phase: Phase, number: u64, slot: Slot, value: u64) -> Option<Firing>
    ensures { fired_of result ≡ Some record { next = at (phase_of phase) number; tokens = put (slot_of slot) value ∷ [] } }
{
    Some(Firing {
        next: State { phase, number },
        puts: Puts::One(Token { slot, value }),
    })
}

// What a Seq does.
fn seq(q: State, slot: Slot, value: u64) -> Option<Firing>
    ensures { (v : ℕ) → fired_of result ≡ at_value value (firing (kinds.Seq v) (state_of q) (slot_of slot)) }
{
    match q.phase {
        Phase::Rest if same(Slot::Req(2), slot) => to(Phase::First, q.number, Slot::Req(0), 0),
        Phase::First if same(Slot::Ans(0), slot) => to(Phase::Second, q.number, Slot::Req(1), 0),
        Phase::Second if same(Slot::Ans(1), slot) => to(Phase::Rest, q.number, Slot::Ans(2), value),
        _ => None,
    }
}

// What a Skip does.
fn skip(q: State, slot: Slot) -> Option<Firing>
    ensures { (v : ℕ) → fired_of result ≡ at_value v (firing kinds.Skip (state_of q) (slot_of slot)) }
{
    match q.phase {
        Phase::Rest if same(Slot::Req(0), slot) => to(Phase::Rest, q.number, Slot::Ans(0), 0),
        _ => None,
    }
}

// What a literal does.
fn lit(k: u64, q: State, slot: Slot) -> Option<Firing>
    ensures { (w v : ℕ) → fired_of result ≡ at_value v (firing (kinds.Lit w k) (state_of q) (slot_of slot)) }
{
    match q.phase {
        Phase::Rest if same(Slot::Req(0), slot) => to(Phase::Rest, q.number, Slot::Ans(0), k),
        _ => None,
    }
}

// What a Par does.
fn par(q: State, slot: Slot) -> Option<Firing>
    ensures { (v : ℕ) → fired_of result ≡ at_value v (firing kinds.Par (state_of q) (slot_of slot)) }
{
    match q.phase {
        Phase::Rest if same(Slot::Req(2), slot) => both(q.number),
        Phase::Both if same(Slot::Ans(0), slot) => quietly(Phase::RightOnly, q.number),
        Phase::Both if same(Slot::Ans(1), slot) => quietly(Phase::LeftOnly, q.number),
        Phase::LeftOnly if same(Slot::Ans(0), slot) => to(Phase::Rest, q.number, Slot::Ans(2), 0),
        Phase::RightOnly if same(Slot::Ans(1), slot) => to(Phase::Rest, q.number, Slot::Ans(2), 0),
        _ => None,
    }
}

// A firing that asks both sides.
fn both(number: u64) -> Option<Firing>
    ensures { fired_of result ≡ Some record { next = at Both number; tokens = put (Req 0) 0 ∷ put (Req 1) 0 ∷ [] } }
{
    let left = Token {
        slot: Slot::Req(0),
        value: 0,
    };
    let right = Token {
        slot: Slot::Req(1),
        value: 0,
    };
    Some(Firing {
        next: State {
            phase: Phase::Both,
            number,
        },
        puts: Puts::Two(left, right),
    })
}

// A firing that leads to this state and puts nothing.
fn quietly(phase: Phase, number: u64) -> Option<Firing>
    ensures { fired_of result ≡ Some record { next = at (phase_of phase) number; tokens = [] } }
{
    Some(Firing {
        next: State { phase, number },
        puts: Puts::Nothing,
    })
}

// What an If does.
fn choice(q: State, slot: Slot, value: u64) -> Option<Firing>
    ensures { (v : ℕ) → fired_of result ≡ at_value value (firing (kinds.If v) (state_of q) (slot_of slot)) }
{
    match q.phase {
        Phase::Rest if same(Slot::Req(3), slot) => to(Phase::Test, q.number, Slot::Req(0), 0),
        Phase::Test if same(Slot::Ans(0), slot) => to(Phase::Branch, value, branch(value), 0),
        Phase::Branch if same(chosen(q.number), slot) => {
            to(Phase::Rest, q.number, Slot::Ans(3), value)
        }
        _ => None,
    }
}

// The request of the branch that a test chooses.
fn branch(test: u64) -> Slot
    ensures { slot_of result ≡ (if nat_eq test 1 then Req 1 else Req 2) }
{
    if test == 1 {
        Slot::Req(1)
    } else {
        Slot::Req(2)
    }
}

// The answer of the branch that was chosen.
fn chosen(number: u64) -> Slot
    ensures { slot_of result ≡ Ans (if nat_eq number 1 then 1 else 2) }
{
    if number == 1 {
        Slot::Ans(1)
    } else {
        Slot::Ans(2)
    }
}

// What a While does.
fn repeat(q: State, slot: Slot, value: u64) -> Option<Firing>
    ensures { fired_of result ≡ at_value value (firing kinds.While (state_of q) (slot_of slot)) }
{
    match q.phase {
        Phase::Rest if same(Slot::Req(2), slot) => to(Phase::Test, q.number, Slot::Req(0), 0),
        Phase::Test if same(Slot::Ans(0), slot) => tested(q.number, value),
        Phase::Body if same(Slot::Ans(1), slot) => to(Phase::Test, q.number, Slot::Req(0), 0),
        _ => None,
    }
}

// What a While does with the answer of its test.
fn tested(number: u64, value: u64) -> Option<Firing>
    ensures { fired_of result
        ≡ Some
        record { next = at (if nat_eq value 1 then Body else Rest) number; tokens = (if nat_eq value 1 then put (Req 1) 0 else put (Ans 2) 0) ∷ [] } }
{
    if value == 1 {
        to(Phase::Body, number, Slot::Req(1), 0)
    } else {
        to(Phase::Rest, number, Slot::Ans(2), 0)
    }
}

// What an operator does.
fn operate(op: Op2, w: u32, q: State, slot: Slot, value: u64) -> Option<Firing>
    requires width { w ≤ 64 }
    ensures { fired_of result ≡ at_value value (firing (kinds.Op (operation_of op) w) (state_of q) (slot_of slot)) }
{
    match q.phase {
        Phase::Rest if same(Slot::Req(2), slot) => to(Phase::Left, q.number, Slot::Req(0), 0),
        Phase::Left if same(Slot::Ans(0), slot) => to(Phase::Right, value, Slot::Req(1), 0),
        Phase::Right if same(Slot::Ans(1), slot) => {
            to(
                Phase::Rest,
                q.number,
                Slot::Ans(2),
                computed(op, w, q.number, value),
            )
        }
        _ => None,
    }
}

// What an operator computes.
fn computed(op: Op2, w: u32, a: u64, b: u64) -> u64
    requires { w ≤ 64 }
    ensures { result ≡ result_of (operation_of op) w a b }
{
    match op {
        Op2::Add => sum(w, a, b),
        Op2::Sub => difference(w, a, b),
        Op2::And => a & b,
        Op2::Or => a | b,
        Op2::Xor => a ^ b,
        Op2::Eq => if a == b { 1 } else { 0 },
        Op2::Less => if a < b { 1 } else { 0 },
    }
}

// What a Not does.
fn invert(w: u32, q: State, slot: Slot, value: u64) -> Option<Firing>
    requires width { w ≤ 64 }
    ensures { fired_of result ≡ at_value value (firing (kinds.Not w) (state_of q) (slot_of slot)) }
{
    match q.phase {
        Phase::Rest if same(Slot::Req(1), slot) => to(Phase::Waiting, q.number, Slot::Req(0), 0),
        Phase::Waiting if same(Slot::Ans(0), slot) => {
            to(Phase::Rest, q.number, Slot::Ans(1), turned(w, value))
        }
        _ => None,
    }
}

// All w bits turned.
fn turned(w: u32, a: u64) -> u64
    requires { w ≤ 64 }
    ensures { result ≡ complement w a }
{
    greatest(w).saturating_sub(a)
}

// What an Assign does.
fn assign(q: State, slot: Slot, value: u64) -> Option<Firing>
    ensures { (w : ℕ) → fired_of result ≡ at_value value (firing (kinds.Assign w) (state_of q) (slot_of slot)) }
{
    match q.phase {
        Phase::Rest if same(Slot::Req(2), slot) => to(Phase::Value, q.number, Slot::Req(0), 0),
        Phase::Value if same(Slot::Ans(0), slot) => {
            to(Phase::Writing, q.number, Slot::Req(1), value)
        }
        Phase::Writing if same(Slot::Ans(1), slot) => to(Phase::Rest, q.number, Slot::Ans(2), 0),
        _ => None,
    }
}

// What a Deref does.
fn deref(q: State, slot: Slot, value: u64) -> Option<Firing>
    ensures { (w : ℕ) → fired_of result ≡ at_value value (firing (kinds.Deref w) (state_of q) (slot_of slot)) }
{
    match q.phase {
        Phase::Rest if same(Slot::Req(1), slot) => to(Phase::Waiting, q.number, Slot::Req(0), 0),
        Phase::Waiting if same(Slot::Ans(0), slot) => {
            to(Phase::Rest, q.number, Slot::Ans(1), value)
        }
        _ => None,
    }
}

// What a Local does.
fn local(q: State, slot: Slot, value: u64) -> Option<Firing>
    ensures { (w v : ℕ) → fired_of result ≡ at_value value (firing (kinds.Local w v) (state_of q) (slot_of slot)) }
{
    match q.phase {
        Phase::Rest if same(Slot::Req(3), slot) => to(Phase::Active, 0, Slot::Req(0), 0),
        Phase::Active if same(Slot::Req(1), slot) => {
            to(Phase::Active, q.number, Slot::Ans(1), q.number)
        }
        Phase::Active if same(Slot::Req(2), slot) => to(Phase::Active, value, Slot::Ans(2), 0),
        Phase::Active if same(Slot::Ans(0), slot) => {
            to(Phase::Rest, q.number, Slot::Ans(3), value)
        }
        _ => None,
    }
}

// What an array of n numbers does.
fn array(n: u32, q: State, slot: Slot, value: u64) -> Option<Firing>
    requires length { n ≤ 16 }
    ensures { (w v : ℕ) → fired_of result ≡ at_value value (firing (kinds.Array w n v) (state_of q) (slot_of slot)) }
{
    match q.phase {
        Phase::Rest if same(Slot::Req(4), slot) => {
            to(Phase::Cells(zeros(n)), q.number, Slot::Req(0), 0)
        }
        Phase::Cells(ns) if same(Slot::Req(2), slot) => {
            to(Phase::Reading(ns), q.number, Slot::Req(1), 0)
        }
        Phase::Cells(ns) if same(Slot::Req(3), slot) => {
            to(Phase::WritingTo(ns), value, Slot::Req(1), 0)
        }
        Phase::Cells(_) if same(Slot::Ans(0), slot) => {
            to(Phase::Rest, q.number, Slot::Ans(4), value)
        }
        Phase::Reading(ns) if same(Slot::Ans(1), slot) => {
            to(
                Phase::Cells(ns),
                q.number,
                Slot::Ans(2),
                number_at(ns, value),
            )
        }
        Phase::WritingTo(ns) if same(Slot::Ans(1), slot) => {
            to(
                Phase::Cells(written(ns, value, q.number)),
                q.number,
                Slot::Ans(3),
                0,
            )
        }
        _ => None,
    }
}

// The numbers of an array that is entered.
fn zeros(n: u32) -> Numbers
    requires { n ≤ 16 }
    ensures { list_of result ≡ replicate n 0 }
{
    Numbers {
        length: n as usize,
        held: [0; 16],
    }
}

// The number at an index, or 0 where there is none.
fn number_at(ns: Numbers, index: u64) -> u64
    ensures { result ≡ get_or (list_of ns) index 0 }
{
    if index < ns.length as u64 && index < MOST_NUMBERS {
        ns.held[index as usize]
    } else {
        0
    }
}

// The numbers with this one at an index, where there is one.
fn written(ns: Numbers, index: u64, number: u64) -> Numbers
    ensures { list_of result ≡ set (list_of ns) index number }
{
    let mut held = ns.held;
    if index < MOST_NUMBERS {
        held[index as usize] = number;
    }
    Numbers {
        length: ns.length,
        held,
    }
}

// What a Share does: a look at the rows of each handshake, in order.
fn share(
    alloc: Global,
    ty: &Ty,
    q: State,
    slot: Slot,
    value: u64,
) -> Result<Option<Firing>, NoMemory>
    requires small { IsSmall ty.now }
    requires number { q.number < 2 ^ 32 }
    ensures { IfOk result (λ f. fired_of f ≡ at_value value (firing (kinds.Share (type_of ty.now)) (state_of q) (slot_of slot))) }
{
    let shakes = handshakes(alloc, ty)?;
    match q.phase {
        Phase::Rest => Ok(shared(&shakes, q.number, slot, value)),
        _ => Ok(None),
    }
}

// What a Share of these handshakes does.
fn shared(shakes: &[Handshake], branch: u64, slot: Slot, value: u64) -> Option<Firing>
    requires small { length shakes.now ≤ 64 }
    requires number { branch < 2 ^ 32 }
    ensures { fired_of result ≡ at_value value (row_for (slot_of slot) (share_rows (map contact shakes.now) (length shakes.now) 0 branch)) }
{
    for j in 0..shakes.len() {
        let shake = &shakes[j];
        let firing = shared_at(
            shake.role,
            shakes.len() as u64,
            j as u64,
            branch,
            slot,
            value,
        );
        if firing.is_some() {
            return firing;
        }
    }
    None
}

// What a Share does at handshake j of its type, which has h of them.
fn shared_at(role: Role, h: u64, j: u64, branch: u64, slot: Slot, value: u64) -> Option<Firing>
    requires numbers { (h ≤ 64) × (j ≤ 64) × (branch < 2 ^ 32) }
    ensures { fired_of result ≡ at_value value (row_for (slot_of slot) (shared_rows role h j branch)) }
{
    let turn = h + branch * h + j;
    match role {
        Role::Serve if same(Slot::Req(h + j), slot) => to(Phase::Rest, 0, Slot::Req(j), value),
        Role::Serve if same(Slot::Req(h + h + j), slot) => to(Phase::Rest, 1, Slot::Req(j), value),
        Role::Serve if same(Slot::Ans(j), slot) => {
            to(Phase::Rest, branch, Slot::Ans(turn), value)
        }
        Role::Ask if same(Slot::Req(j), slot) => to(Phase::Rest, branch, Slot::Req(turn), value),
        Role::Ask if same(Slot::Ans(turn), slot) => to(Phase::Rest, branch, Slot::Ans(j), value),
        _ => None,
    }
}
