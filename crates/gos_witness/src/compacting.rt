// A list of nodes without those that a term doesn't need.
//
// The nodes of the running term are marked from the root downwards, since a node's parts have lower numbers than it has. Then the
// marked ones are copied upwards, so the parts of each are copied before it. The first nodes, the program's, stay as they are.
ghost use Rattle.std.specs.Prelude.{◌≡◌, ◌+◌, ◌<◌, ◌≤◌, IfOk, IfSome, length, slice_get};
ghost use Rattle.gos_witness.specs.NodeLists.{Listed};
ghost use Rattle.gos_witness.specs.inner.Compaction.{ArePlaces, IsBeginning, IsCopy, IsMoved};
ghost use Rattle.gos_witness.specs.inner.Keeping.{Keeps};

use crate::nodes::{Form, Node, NodeList};
use gos_types::NoMemory;
use std::alloc::Global;

// A list of fewer nodes isn't compacted.
const FEW: usize = 65_536;

/// A list, and the node of a term in it.
#[derive(Drop)]
pub struct RootedList {
    pub list: NodeList,
    pub root: u32,
}

/// With how many nodes a list is to be compacted: twice those that it has now, and no fewer than 65,536.
pub fn next_limit(list: &NodeList) -> usize {
    list.nodes().len().saturating_mul(2).max(FEW)
}

/// A list with the first nodes of this one, and the term of a node in it. Of the other nodes it has those alone that the term needs.
///
/// `None` where a part of the term isn't marked. `Err` is want of memory alone.
pub fn compacted(
    alloc: Global,
    list: &NodeList,
    base: usize,
    root: u32,
) -> Result<Option<RootedList>, NoMemory>
    requires { base ≤ length list.now.nodes }
    ensures { IfOk result (λ found. IfSome found (λ c. IsBeginning list.now base c.list × IsCopy list.now c.list root c.root)) }
{
    let marks = reached(alloc, list.nodes(), base, root)?;
    let mut kept = list.beginning(alloc, base)?;
    let places = copy_marked(alloc, list, base, marks.as_slice(), &mut kept)?;
    let Some(root) = place_of(base, places.as_slice(), root) else {
        return Ok(None);
    };
    Ok(Some(RootedList { list: kept, root }))
}

// Which nodes behind the first ones a term needs: a mark for each node.
fn reached(alloc: Global, nodes: &[Node], base: usize, root: u32) -> Result<Vec<bool>, NoMemory> {
    let mut marks = no_marks(alloc, nodes.len())?;
    mark(marks.as_mut_slice(), root);
    for number in base..nodes.len() {
        let below = nodes.len() - 1 - (number - base);
        if is_marked(marks.as_slice(), below) {
            mark_parts(marks.as_mut_slice(), nodes[below].form);
        }
    }
    Ok(marks)
}

// So many nodes, none marked.
fn no_marks(alloc: Global, count: usize) -> Result<Vec<bool>, NoMemory> {
    let mut marks = Vec::new(alloc);
    for _ in 0..count {
        marks.push(false)?;
    }
    Ok(marks)
}

fn is_marked(marks: &[bool], number: usize) -> bool {
    match marks.get(number) {
        Some(mark) => *mark,
        None => false,
    }
}

fn mark(marks: &mut [bool], number: u32) {
    if (number as usize) < marks.len() {
        marks[number as usize] = true;
    }
}

fn mark_parts(marks: &mut [bool], form: Form) {
    match form {
        Form::Leaf(_) => {}
        Form::One(_, a) => mark(marks, a),
        Form::Two(_, a, b) => {
            mark(marks, a);
            mark(marks, b);
        }
        Form::If(a, b, c) => {
            mark(marks, a);
            mark(marks, b);
            mark(marks, c);
        }
    }
}

// Copies the marked nodes behind the first ones, and gives the place of each.
fn copy_marked(
    alloc: Global,
    list: &NodeList,
    base: usize,
    marks: &[bool],
    kept: &mut NodeList,
) -> Result<Vec<Option<u32>>, NoMemory>
    requires { IsBeginning list.now base kept.old }
    ensures begins { IfOk result (λ _. IsBeginning list.now base kept.new) }
    ensures places { IfOk result (λ places. ArePlaces list.now kept.new base places.items) }
{
    let mut places = Vec::new(alloc);
    for number in base..list.nodes().len() {
        let place = copy_node(list, base, marks, places.as_slice(), number, kept)?;
        places.push(place)?;
    }
    Ok(places)
}

// Copies a node, if it is marked and its parts are there.
fn copy_node(
    list: &NodeList,
    base: usize,
    marks: &[bool],
    places: &[Option<u32>],
    number: usize,
    kept: &mut NodeList,
) -> Result<Option<u32>, NoMemory>
    requires number { number < length list.now.nodes }
    requires begins { IsBeginning list.now base kept.old }
    requires places { ArePlaces list.now kept.old base places.now }
    ensures keeps { Keeps kept.old kept.new }
    ensures place { IfOk result (λ place. IfSome place (IsCopy list.now kept.new number)) }
{
    if !is_marked(marks, number) {
        return Ok(None);
    }
    let known = list.form(number);
    let Some(form) = moved(base, places, known) else {
        return Ok(None);
    };
    let place = kept.push(form)?;
    Ok(Some(place))
}

// A form with the places of its parts, if they have some.
fn moved(base: usize, places: &[Option<u32>], form: Form) -> Option<Form>
    ensures { (old new : Listed) → IsBeginning old base new → ArePlaces old new base places.now → IfSome result (IsMoved old new form) }
{
    match form {
        Form::Leaf(leaf) => Some(Form::Leaf(leaf)),
        Form::One(one, a) => {
            let a = place_of(base, places, a)?;
            Some(Form::One(one, a))
        }
        Form::Two(two, a, b) => {
            let a = place_of(base, places, a)?;
            let b = place_of(base, places, b)?;
            Some(Form::Two(two, a, b))
        }
        Form::If(a, b, c) => {
            let a = place_of(base, places, a)?;
            let b = place_of(base, places, b)?;
            let c = place_of(base, places, c)?;
            Some(Form::If(a, b, c))
        }
    }
}

// The place of a node, if it has one.
fn place_of(base: usize, places: &[Option<u32>], number: u32) -> Option<u32>
    ensures { (old new : Listed) → IsBeginning old base new → ArePlaces old new base places.now → IfSome result (IsCopy old new number) }
{
    let node = number as usize;
    if node < base {
        return Some(number);
    }
    match entry_at(places, node - base) {
        Some(place) => place,
        None => None,
    }
}

// An entry of a list, if it has one there.
fn entry_at(places: &[Option<u32>], index: usize) -> Option<Option<u32>>
    ensures { result ≡ slice_get places.now index }
{
    places.get(index).copied()
}
