// Chains of bonds, and their far ends.
//
// Each number is in two bonds at most, so bonds make chains. The table has for each end of a chain its other end; a
// bond makes one chain of two, and only their far ends change.

ghost use Rattle.std.specs.Prelude.{◌≡◌, ◌≤◌, ◌<◌, ℕ, length, nat_eq, if◌then◌else◌, IfOk};
ghost use Rattle.gos_ties.specs.inner.Joined.{touches, AreFar, AreBelow, far_at, joined};

use gos_types::NoMemory;
use std::alloc::Global;

// Two numbers that are tied.
#[derive(Clone, Copy)]
pub(crate) struct Bond {
    pub one: usize,
    pub other: usize,
}

// Each number below n, in order.
#[tactic(auto, using(crate::proofs::FarLemmas::one_alone))]
fn alone(alloc: Global, n: usize) -> Result<Vec<usize>, NoMemory>
    ensures length { IfOk result (λ far. length far.items ≡ n) }
    ensures each { IfOk result (λ far. (p : ℕ) → far_at far.items p ≡ p) }
{
    let mut far = Vec::new(alloc);
    for number in 0..n {
        far.push(number)?;
    }
    Ok(far)
}

// The far number of a number.
pub(crate) fn far_of(far: &[usize], number: usize) -> usize
    ensures { result ≡ far_at far.now number }
{
    match far.get(number) {
        Some(other) => *other,
        None => number,
    }
}

// Gives a number another far one.
fn set_far(far: &mut Vec<usize>, number: usize, other: usize)
    requires { number < length far.old.items }
    ensures length { length far.new.items ≡ length far.old.items }
    ensures each { (p : ℕ) → far_at far.new.items p ≡ (if nat_eq p number then other else far_at far.old.items p) }
{
    far[number] = other;
}

// Joins two chains by a bond.
fn join(far: &mut Vec<usize>, bond: Bond)
    requires range { (p : ℕ) → p < length far.old.items → far_at far.old.items p < length far.old.items }
    requires one { bond.one < length far.old.items }
    requires other { bond.other < length far.old.items }
    ensures length { length far.new.items ≡ length far.old.items }
    ensures each { (p : ℕ) → far_at far.new.items p ≡ joined bond (far_at far.old.items) p }
{
    let one = far_of(far, bond.one);
    let other = far_of(far, bond.other);
    set_far(far, one, other);
    set_far(far, other, one);
}

// The far numbers of all numbers below n.
pub(crate) fn far_ends(alloc: Global, n: usize, bonds: &[Bond]) -> Result<Vec<usize>, NoMemory>
    requires below { AreBelow n bonds.now }
    requires few { (p : ℕ) → touches p bonds.now ≤ 2 }
    ensures length { IfOk result (λ far. length far.items ≡ n) }
    ensures far { IfOk result (λ far. AreFar bonds.now (far_at far.items)) }
{
    let mut far = alone(alloc, n)?;
    let mut k = bonds.len();
    while k > 0 {
        k -= 1;
        join(&mut far, bonds[k]);
    }
    Ok(far)
}
