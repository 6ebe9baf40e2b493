// Computation steps: one row for each form.
ghost use Rattle.std.specs.Prelude.{◌≡◌, ◌<◌, ◌≤◌, List, None, Some, IfOk, length, replicate, if◌then◌else◌};
ghost use Rattle.gos_model.specs.Terms.{Assign, Bin, Deref, Held, If, New, NewArray, Not, Par, Put, Scope, Seq, While, result_of, result_width};
ghost use Rattle.gos_model.specs.Substitution.{instantiate};
ghost use Rattle.gos_model.specs.Sources.{op_of};
ghost use Rattle.gos_witness.specs.NodeLists.{FitsLeaf, FitsOne, leaf_term, one_term, seen, two_term};
ghost use Rattle.gos_witness.specs.inner.Keeping.{Keeps};
ghost use Rattle.gos_witness.specs.inner.Rows.{AreNarrow, Outcome};

use crate::nodes::{Form, Leaf, NodeList, OnePart, TwoParts};
use crate::putting::instantiate;
use crate::reading_nodes::{Number, is_skip, is_value, location, number_at};
use crate::store::{Entry, least_new, number_in, put, without};
use gos_syntax::Op;
use gos_types::{NoMemory, difference, greatest, sum};
use std::alloc::Global;

/// What a computation step at a node makes of it and of the store, if there is one there.
pub fn step(
    alloc: Global,
    list: &mut NodeList,
    store: &mut Vec<Entry>,
    node: u32,
) -> Result<Option<u32>, NoMemory>
    requires node { node < length list.old.nodes }
    requires narrow { AreNarrow store.old.items }
    ensures outcome { IfOk result (Outcome list.new store.old.items store.new.items (seen list.old node)) }
    ensures keeps { Keeps list.old list.new }
    ensures narrow { AreNarrow store.new.items }
{
    match list.node(node).form {
        Form::Leaf(_) => Ok(None),
        Form::One(one, part) => step_one(alloc, list, store, one, part),
        Form::Two(two, first, second) => step_two(list, two, node, first, second),
        Form::If(test, yes, no) => Ok(choice(list, test, yes, no)),
    }
}

// Of a choice.
fn choice(list: &NodeList, test: u32, yes: u32, no: u32) -> Option<u32>
    requires test { test < length list.now.nodes }
    requires yes { yes < length list.now.nodes }
    requires no { no < length list.now.nodes }
    ensures { (s : List Entry) → Outcome list.now s s (If (seen list.now test) (seen list.now yes) (seen list.now no)) result }
{
    let test = number_at(list, test)?;
    match (test.value, test.width) {
        (1, 1) => Some(yes),
        (0, 1) => Some(no),
        _ => None,
    }
}

// Of a form of two parts.
fn step_two(
    list: &mut NodeList,
    two: TwoParts,
    node: u32,
    first: u32,
    second: u32,
) -> Result<Option<u32>, NoMemory>
    requires node { node < length list.old.nodes }
    requires first { first < length list.old.nodes }
    requires second { second < length list.old.nodes }
    requires is { seen list.old node ≡ two_term two (seen list.old first) (seen list.old second) }
    ensures outcome { IfOk result (λ next. (s : List Entry) → Outcome list.new s s (seen list.old node) next) }
    ensures keeps { Keeps list.old list.new }
{
    match two {
        TwoParts::App | TwoParts::Both => Ok(None),
        TwoParts::Seq => Ok(after_skip(list, first, second)),
        TwoParts::Par => Ok(both_skip(list, first, second)),
        TwoParts::While => turn(list, node, first, second),
        TwoParts::Assign => assigned(list, first, second),
        TwoParts::Bin(op) => operated(list, op, first, second),
    }
}

// Of a sequence.
fn after_skip(list: &NodeList, first: u32, second: u32) -> Option<u32>
    requires first { first < length list.now.nodes }
    requires second { second < length list.now.nodes }
    ensures { (s : List Entry) → Outcome list.now s s (Seq (seen list.now first) (seen list.now second)) result }
{
    if is_skip(list, first) {
        Some(second)
    } else {
        None
    }
}

// Of `||`.
fn both_skip(list: &NodeList, first: u32, second: u32) -> Option<u32>
    requires first { first < length list.now.nodes }
    requires second { second < length list.now.nodes }
    ensures { (s : List Entry) → Outcome list.now s s (Par (seen list.now first) (seen list.now second)) result }
{
    if is_skip(list, first) && is_skip(list, second) {
        Some(first)
    } else {
        None
    }
}

// Of a loop: it becomes a choice.
fn turn(list: &mut NodeList, node: u32, test: u32, body: u32) -> Result<Option<u32>, NoMemory>
    requires node { node < length list.old.nodes }
    requires test { test < length list.old.nodes }
    requires body { body < length list.old.nodes }
    requires is { seen list.old node ≡ While (seen list.old test) (seen list.old body) }
    ensures outcome { IfOk result (λ next. (s : List Entry) → Outcome list.new s s (seen list.old node) next) }
    ensures keeps { Keeps list.old list.new }
{
    let again = list.push(Form::Two(TwoParts::Seq, body, node))?;
    let end = list.push(Form::Leaf(Leaf::Skip))?;
    let whole = list.push(Form::If(test, again, end))?;
    Ok(Some(whole))
}

// Of an assignment whose right side is a number.
fn assigned(list: &mut NodeList, variable: u32, value: u32) -> Result<Option<u32>, NoMemory>
    requires variable { variable < length list.old.nodes }
    requires value { value < length list.old.nodes }
    ensures outcome { IfOk result (λ next. (s : List Entry) → Outcome list.new s s (Assign (seen list.old variable) (seen list.old value)) next) }
    ensures keeps { Keeps list.old list.new }
{
    let Some(value) = number_at(list, value) else {
        return Ok(None);
    };
    let next = list.push(Form::One(OnePart::Put(value.value), variable))?;
    Ok(Some(next))
}

// Of an operator whose left operand is a number.
fn operated(list: &mut NodeList, op: Op, left: u32, right: u32) -> Result<Option<u32>, NoMemory>
    requires left { left < length list.old.nodes }
    requires right { right < length list.old.nodes }
    ensures outcome { IfOk result (λ next. (s : List Entry) → Outcome list.new s s (Bin (op_of op) (seen list.old left) (seen list.old right)) next) }
    ensures keeps { Keeps list.old list.new }
{
    let Some(left) = number_at(list, left) else {
        return Ok(None);
    };
    let held = OnePart::Held {
        value: left.value,
        op,
    };
    let next = list.push(Form::One(held, right))?;
    Ok(Some(next))
}

// Of a form of one part.
fn step_one(
    alloc: Global,
    list: &mut NodeList,
    store: &mut Vec<Entry>,
    one: OnePart,
    part: u32,
) -> Result<Option<u32>, NoMemory>
    requires fits { FitsOne list.old.tables one }
    requires part { part < length list.old.nodes }
    requires narrow { AreNarrow store.old.items }
    ensures outcome { IfOk result (Outcome list.new store.old.items store.new.items (one_term list.old.tables one (seen list.old part))) }
    ensures keeps { Keeps list.old list.new }
    ensures narrow { AreNarrow store.new.items }
{
    match one {
        OnePart::Lam(_) | OnePart::Fst | OnePart::Snd => Ok(None),
        OnePart::New(width) => begin(alloc, list, store, width, part),
        OnePart::NewArray { length, width } => {
            begin_array(alloc, list, store, length, width, part)
        }
        OnePart::Scope(place) => Ok(end(list, store, place, part)),
        OnePart::Deref => read(list, store, part),
        OnePart::Put(value) => write(list, store, value, part),
        OnePart::Not => turned(list, part),
        OnePart::Held { value, op } => held(list, value, op, part),
    }
}

// A new variable takes the least new location.
fn begin(
    alloc: Global,
    list: &mut NodeList,
    store: &mut Vec<Entry>,
    width: u32,
    body: u32,
) -> Result<Option<u32>, NoMemory>
    requires body { body < length list.old.nodes }
    requires width { width ≤ 64 }
    requires narrow { AreNarrow store.old.items }
    ensures outcome { IfOk result (Outcome list.new store.old.items store.new.items (New width (seen list.old body))) }
    ensures keeps { Keeps list.old list.new }
    ensures narrow { AreNarrow store.new.items }
{
    let place = least_new(store)?;
    let next = open_block(alloc, list, place, Leaf::Loc(place), body)?;
    let numbers = zeros(alloc, 1)?;
    let entry = Entry {
        place,
        width,
        numbers,
    };
    store.insert(0, entry)?;
    Ok(Some(next))
}

// So does a new array.
fn begin_array(
    alloc: Global,
    list: &mut NodeList,
    store: &mut Vec<Entry>,
    count: u32,
    width: u32,
    body: u32,
) -> Result<Option<u32>, NoMemory>
    requires body { body < length list.old.nodes }
    requires width { width ≤ 64 }
    requires narrow { AreNarrow store.old.items }
    ensures outcome { IfOk result (Outcome list.new store.old.items store.new.items (NewArray count width (seen list.old body))) }
    ensures keeps { Keeps list.old list.new }
    ensures narrow { AreNarrow store.new.items }
{
    let place = least_new(store)?;
    let next = open_block(alloc, list, place, Leaf::Arr(place), body)?;
    let numbers = zeros(alloc, count)?;
    let entry = Entry {
        place,
        width,
        numbers,
    };
    store.insert(0, entry)?;
    Ok(Some(next))
}

// A block with a leaf for its variable or array, which is at this location.
fn open_block(
    alloc: Global,
    list: &mut NodeList,
    place: u32,
    leaf: Leaf,
    body: u32,
) -> Result<u32, NoMemory>
    requires leaf { FitsLeaf list.old.tables leaf }
    requires body { body < length list.old.nodes }
    ensures term { IfOk result (λ next. seen list.new next ≡ Scope place (instantiate (seen list.old body) (leaf_term list.old.tables leaf))) }
    ensures there { IfOk result (λ next. next < length list.new.nodes) }
    ensures keeps { Keeps list.old list.new }
{
    let variable = list.push(Form::Leaf(leaf))?;
    let block = instantiate(alloc, list, body, variable)?;
    list.push(Form::One(OnePart::Scope(place), block))
}

// So many zeros.
fn zeros(alloc: Global, count: u32) -> Result<Vec<u64>, NoMemory>
    ensures { IfOk result (λ numbers. numbers.items ≡ replicate count 0) }
{
    Ok(vec![in alloc; 0; count as usize]?)
}

// The end of a block.
fn end(list: &NodeList, store: &mut Vec<Entry>, place: u32, body: u32) -> Option<u32>
    requires body { body < length list.now.nodes }
    requires narrow { AreNarrow store.old.items }
    ensures outcome { Outcome list.now store.old.items store.new.items (Scope place (seen list.now body)) result }
    ensures narrow { AreNarrow store.new.items }
{
    if !is_value(list, body) {
        return None;
    }
    without(store, place);
    Some(body)
}

// A variable is read, or an array at an index.
fn read(list: &mut NodeList, store: &[Entry], variable: u32) -> Result<Option<u32>, NoMemory>
    requires variable { variable < length list.old.nodes }
    requires narrow { AreNarrow store.now }
    ensures outcome { IfOk result (Outcome list.new store.now store.now (Deref (seen list.old variable))) }
    ensures keeps { Keeps list.old list.new }
{
    let Some(at) = location(list, variable) else {
        return Ok(None);
    };
    let Some(number) = number_in(store, at.place, at.index) else {
        return Ok(None);
    };
    let value = Leaf::Lit {
        value: number.value,
        width: number.width,
    };
    let next = list.push(Form::Leaf(value))?;
    Ok(Some(next))
}

// A variable is written, or an array at an index.
fn write(
    list: &mut NodeList,
    store: &mut [Entry],
    value: u64,
    variable: u32,
) -> Result<Option<u32>, NoMemory>
    requires variable { variable < length list.old.nodes }
    requires narrow { AreNarrow store.old }
    ensures outcome { IfOk result (Outcome list.new store.old store.new (Put (seen list.old variable) value)) }
    ensures keeps { Keeps list.old list.new }
    ensures narrow { AreNarrow store.new }
{
    let Some(at) = location(list, variable) else {
        return Ok(None);
    };
    let Some(_) = number_in(store, at.place, at.index) else {
        return Ok(None);
    };
    let next = list.push(Form::Leaf(Leaf::Skip))?;
    put(store, at.place, at.index, value);
    Ok(Some(next))
}

// All bits of a number are turned.
fn turned(list: &mut NodeList, operand: u32) -> Result<Option<u32>, NoMemory>
    requires operand { operand < length list.old.nodes }
    ensures outcome { IfOk result (λ next. (s : List Entry) → Outcome list.new s s (Not (seen list.old operand)) next) }
    ensures keeps { Keeps list.old list.new }
{
    let Some(operand) = number_at(list, operand) else {
        return Ok(None);
    };
    let value = Leaf::Lit {
        value: greatest(operand.width).saturating_sub(operand.value),
        width: operand.width,
    };
    let next = list.push(Form::Leaf(value))?;
    Ok(Some(next))
}

// An operator whose operands are both numbers.
fn held(list: &mut NodeList, left: u64, op: Op, right: u32) -> Result<Option<u32>, NoMemory>
    requires right { right < length list.old.nodes }
    ensures outcome { IfOk result (λ next. (s : List Entry) → Outcome list.new s s (Held left (op_of op) (seen list.old right)) next) }
    ensures keeps { Keeps list.old list.new }
{
    let Some(right) = number_at(list, right) else {
        return Ok(None);
    };
    let result = result_of(op, right.width, left, right.value);
    let value = Leaf::Lit {
        value: result.value,
        width: result.width,
    };
    let next = list.push(Form::Leaf(value))?;
    Ok(Some(next))
}

// What an operator gives, in its width.
fn result_of(op: Op, width: u32, a: u64, b: u64) -> Number
    requires { width ≤ 64 }
    ensures value { result.value ≡ result_of (op_of op) width a b }
    ensures width { result.width ≡ result_width (op_of op) width }
    ensures narrow { result.width ≤ 64 }
{
    let value = match op {
        Op::Add => sum(width, a, b),
        Op::Sub => difference(width, a, b),
        Op::And => a & b,
        Op::Or => a | b,
        Op::Xor => a ^ b,
        Op::Eq => flag(a == b),
        Op::Less => flag(a < b),
    };
    let width = match op {
        Op::Eq | Op::Less => 1,
        Op::Add | Op::Sub | Op::And | Op::Or | Op::Xor => width,
    };
    Number { value, width }
}

// 1 where a test holds, or 0.
fn flag(test: bool) -> u64
    ensures { result ≡ (if test then 1 else 0) }
{
    if test { 1 } else { 0 }
}
