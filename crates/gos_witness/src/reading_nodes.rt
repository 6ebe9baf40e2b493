// What a node is, where a row asks.
ghost use Rattle.std.specs.Prelude.{◌≡◌, ◌↔◌, ◌<◌, ◌≤◌, ℕ, IfSome, IsTrue, MatchOption, length};
ghost use Rattle.gos_model.specs.Terms.{App, Import, Lit, Name as AName, Skip};
ghost use Rattle.gos_model.specs.Steps.{IsValue, Locates};
ghost use Rattle.gos_witness.specs.NodeLists.{name_at, seen};
ghost use Rattle.gos_witness.specs.inner.Places.{IsAccess};

use crate::nodes::{Form, Leaf, NodeList, TwoParts};

/// A number in so many bits.
#[derive(Clone, Copy)]
pub struct Number {
    pub value: u64,
    pub width: u32,
}

/// A location, and the index of one of its numbers.
#[derive(Clone, Copy)]
pub struct Position {
    pub place: u32,
    pub index: u64,
}

/// Which access an application is whose index is reached, by its function part.
#[derive(Clone, Copy)]
pub enum Access {
    /// None.
    No,
    /// One of a port that has asked for the index.
    Port,
    /// One of the array at this location.
    Array(u32),
}

/// Whether a node is `skip`.
pub fn is_skip(list: &NodeList, node: u32) -> bool
    requires { node < length list.now.nodes }
    ensures { IsTrue result ↔ (seen list.now node ≡ Skip) }
{
    match list.node(node).form {
        Form::Leaf(Leaf::Skip) => true,
        _ => false,
    }
}

/// Whether a node is `skip` or a literal.
pub fn is_value(list: &NodeList, node: u32) -> bool
    requires { node < length list.now.nodes }
    ensures { IsTrue result ↔ IsValue (seen list.now node) }
{
    match list.node(node).form {
        Form::Leaf(Leaf::Skip | Leaf::Lit { .. }) => true,
        _ => false,
    }
}

/// The number of a node that is a literal.
pub fn number_at(list: &NodeList, node: u32) -> Option<Number>
    requires { node < length list.now.nodes }
    ensures number { MatchOption result ((k w : ℕ) → seen list.now node ≡ Lit k w → ⊥) (λ n. seen list.now node ≡ Lit n.value n.width) }
    ensures narrow { IfSome result (λ n. n.width ≤ 64) }
{
    match list.node(node).form {
        Form::Leaf(Leaf::Lit { value, width }) => Some(Number { value, width }),
        _ => None,
    }
}

/// The number of a location for which a node stands, if it stands for one.
pub fn location(list: &NodeList, node: u32) -> Option<Position>
    requires { node < length list.now.nodes }
    ensures { MatchOption result ((l i : ℕ) → Locates (seen list.now node) l i → ⊥) (λ at. Locates (seen list.now node) at.place at.index) }
{
    match list.node(node).form {
        Form::Leaf(Leaf::Loc(place)) => Some(Position { place, index: 0 }),
        Form::Two(TwoParts::App, array, index) => element(list, array, index),
        _ => None,
    }
}

// The same of an array with an index.
fn element(list: &NodeList, array: u32, index: u32) -> Option<Position>
    requires array { array < length list.now.nodes }
    requires index { index < length list.now.nodes }
    ensures { MatchOption result ((l i : ℕ) → Locates (App (seen list.now array) (seen list.now index)) l i → ⊥)
        (λ at. Locates (App (seen list.now array) (seen list.now index)) at.place at.index) }
{
    let Access::Array(place) = access_of(list, array) else {
        return None;
    };
    let number = number_at(list, index)?;
    Some(Position {
        place,
        index: number.value,
    })
}

/// Which access an application is, of which a node is the function part.
pub fn access_of(list: &NodeList, node: u32) -> Access
    requires { node < length list.now.nodes }
    ensures { IsAccess result (seen list.now node) }
{
    match list.node(node).form {
        Form::Leaf(Leaf::Wait { event: 0, .. }) => Access::Port,
        Form::Leaf(Leaf::Arr(place)) => Access::Array(place),
        _ => Access::No,
    }
}

/// The number of the name of a node that is an import.
pub fn import(list: &NodeList, node: u32) -> Option<u32>
    requires { node < length list.now.nodes }
    ensures name { MatchOption result ((x : AName) → seen list.now node ≡ Import x → ⊥) (λ x. seen list.now node ≡ Import (name_at list.now.tables x)) }
    ensures there { IfSome result (λ x. x < length list.now.tables.names) }
{
    match list.node(node).form {
        Form::Leaf(Leaf::Import(name)) => Some(name),
        _ => None,
    }
}
