// Which module serves which import.
ghost use Rattle.std.specs.Prelude.{◌≡◌, ◌<◌, ℕ, IfOk, IfSome, None, false, length, true};
ghost use Rattle.gos_witness.specs.inner.Built.{AllBelow, AreBelow, AreByUser, has_node, is_next, is_ready, list_at, of_user};

use gos_types::NoMemory;
use std::alloc::Global;

/// The import number `import` of module `user` is served by module `giver`.
#[derive(Clone, Copy)]
pub struct Bound {
    pub user: usize,
    pub import: usize,
    pub giver: usize,
}

// The binds of one user, in their order.
fn of_user(alloc: Global, user: usize, binds: &[Bound]) -> Result<Vec<Bound>, NoMemory>
    ensures { IfOk result (λ own. own.items ≡ of_user user binds.now) }
{
    let mut own = Vec::new(alloc);
    for bind in binds {
        if bind.user == user {
            own.push(*bind)?;
        }
    }
    Ok(own)
}

// The binds of each user.
pub(crate) fn by_user(
    alloc: Global,
    count: usize,
    binds: &[Bound],
) -> Result<Vec<Vec<Bound>>, NoMemory>
    ensures { IfOk result (λ lists. AreByUser count lists.items binds.now) }
{
    let mut lists = Vec::new(alloc);
    for user in 0..count {
        lists.push(of_user(alloc, user, binds)?)?;
    }
    Ok(lists)
}

// Whether a module has a node.
fn has_node(nodes: &[Option<u32>], number: usize) -> bool
    requires { number < length nodes.now }
    ensures { result ≡ has_node nodes.now number }
{
    nodes[number].is_some()
}

// Whether each giver of these binds has a node.
fn is_ready(binds: &[Bound], nodes: &[Option<u32>]) -> bool
    requires { AreBelow (length nodes.now) binds.now }
    ensures { result ≡ is_ready nodes.now binds.now }
{
    for bind in binds {
        if !has_node(nodes, bind.giver) {
            return false;
        }
    }
    true
}

// The binds of a user.
pub(crate) fn own<'a>(lists: &'a [Vec<Bound>], number: usize) -> &'a [Bound]
    requires { number < length lists.now }
    ensures { result.now ≡ list_at lists.now number }
{
    lists[number].as_slice()
}

// Whether a module has no node, and each of its givers has one.
fn is_next(lists: &[Vec<Bound>], nodes: &[Option<u32>], number: usize) -> bool
    requires there { number < length nodes.now }
    requires each { length lists.now ≡ length nodes.now }
    requires below { AllBelow (length nodes.now) lists.now }
    ensures { result ≡ is_next lists.now nodes.now number }
{
    if has_node(nodes, number) {
        return false;
    }
    is_ready(own(lists, number), nodes)
}

// The first module without a node whose givers all have one.
pub(crate) fn next_ready(lists: &[Vec<Bound>], nodes: &[Option<u32>]) -> Option<usize>
    requires each { length lists.now ≡ length nodes.now }
    requires below { AllBelow (length nodes.now) lists.now }
    ensures there { IfSome result (λ u. u < length nodes.now) }
    ensures next { IfSome result (λ u. is_next lists.now nodes.now u ≡ true) }
    ensures none { result ≡ None → (u : ℕ) → u < length nodes.now → is_next lists.now nodes.now u ≡ false }
{
    for number in 0..nodes.len() {
        if is_next(lists, nodes, number) {
            return Some(number);
        }
    }
    None
}
