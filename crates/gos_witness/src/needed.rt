// Where something happens next on the way to a label: a needed place.
//
// At `||` the way goes into the side that has the label's port. Where no side has it, both are needed, and the left one is first.
ghost use Rattle.std.specs.Prelude.{◌≡◌, ◌<◌, ◌∷◌, ◌++◌, ℕ, [], IfOk, IfSome, IsTrue, MatchOption, length, ◌↔◌};
ghost use Rattle.std.specs.List.{AllByRecursion};
ghost use Rattle.gos_model.specs.Labels.{Port};
ghost use Rattle.gos_model.specs.Terms.{Term, App, Both, Par};
ghost use Rattle.gos_model.specs.Typing.{Apart};
ghost use Rattle.gos_model.specs.Steps.{IsValue};
ghost use Rattle.gos_swaps.specs.proper.Proper.{PartsApart};
ghost use Rattle.gos_witness.specs.NodeLists.{Fits, Listed, Tables, leaf_term, one_term, seen, shape, two_term};
ghost use Rattle.gos_witness.specs.Paths.{IsChild};
ghost use Rattle.gos_witness.specs.inner.Ends.{Enters, IsAccessTurn, IsHeadLine, IsPlaced, IsPortNode, IsPortTurn, IsTurn, innermost, steps_of};
ghost use Rattle.gos_witness.specs.inner.Finds.{LeadsBelow};
ghost use Rattle.gos_witness.specs.inner.PortMasks.{Knows};

use crate::masks::Masks;
use crate::moves::{Line, Path};
use crate::nodes::{Form, Leaf, NodeList, OnePart, TwoParts};
use crate::reading_nodes::{Access, access_of, is_value};
use gos_types::NoMemory;
use std::alloc::Global;

// Where a reached part stands: child 0 or 1, or the index of an access.
#[derive(Clone, Copy)]
enum Way {
    First,
    Second,
    /// Of an array, at 0, 1.
    Index,
    /// Of a port, at 0, 1, 1.
    PortIndex,
}

// How the way goes on at a reached node.
#[derive(Clone, Copy)]
enum Turn {
    /// To a reached part.
    Down { way: Way, part: u32 },
    /// The node is a head, or its part is.
    Head(u32),
    Operand(u32),
    /// A step happens here, or a label; or nothing does.
    Step,
    Label,
}

/// The line at a needed place on the way to a label of this port. Nothing else can happen there, but the line may be none that can
/// be made, and then nothing can.
pub fn needed_line(
    alloc: Global,
    list: &NodeList,
    masks: &Masks,
    port: u32,
    root: u32,
) -> Result<Line, NoMemory>
    requires root { root < length list.now.nodes }
    requires alive { IsValue (seen list.now root) → ⊥ }
    requires apart { PartsApart (seen list.now root) }
    ensures { (o : Port) → Knows list.now o port masks.now → IfOk result (IsPlaced o (seen list.now root)) }
{
    let mut steps = Vec::new(alloc);
    let mut node = root;
    loop {
        match turn_at(list, masks, port, node) {
            Turn::Down { way, part } => {
                add_way(&mut steps, way)?;
                node = part;
            }
            Turn::Head(head) => return unfolding(list, steps, head),
            Turn::Operand(head) => {
                add_way(&mut steps, Way::First)?;
                return unfolding(list, steps, head);
            }
            Turn::Step => return Ok(Line::Step(Path::new(steps))),
            Turn::Label => return Ok(Line::Label(Path::new(steps))),
        }
    }
}

// One child further.
#[tactic(auto, using(crate::proofs::FoundLemmas::one_child_more))]
fn add_child(steps: &mut Vec<u8>, child: u8) -> Result<(), NoMemory>
    requires steps { AllByRecursion IsChild steps.old.items }
    requires child { IsChild child }
    ensures children { IfOk result (λ _. AllByRecursion IsChild steps.new.items) }
    ensures more { IfOk result (λ _. steps.new.items ≡ steps.old.items ++ child ∷ []) }
{
    steps.push(child)?;
    Ok(())
}

// One reached part further.
fn add_way(steps: &mut Vec<u8>, way: Way) -> Result<(), NoMemory>
    requires steps { AllByRecursion IsChild steps.old.items }
    ensures children { IfOk result (λ _. AllByRecursion IsChild steps.new.items) }
    ensures more { IfOk result (λ _. steps.new.items ≡ steps.old.items ++ steps_of way) }
{
    match way {
        Way::First => add_child(steps, 0),
        Way::Second => add_child(steps, 1),
        Way::Index => {
            add_child(steps, 0)?;
            add_child(steps, 1)
        }
        Way::PortIndex => {
            add_child(steps, 0)?;
            add_child(steps, 1)?;
            add_child(steps, 1)
        }
    }
}

// The unfolding of a head, at its innermost part that may unfold.
fn unfolding(list: &NodeList, reached: Vec<u8>, head: u32) -> Result<Line, NoMemory>
    requires steps { AllByRecursion IsChild reached.items }
    requires head { head < length list.now.nodes }
    ensures { IfOk result (IsHeadLine reached.items (innermost (seen list.now head))) }
{
    let mut steps = reached;
    let mut node = head;
    while let Some(part) = inner_head(list, node) {
        add_child(&mut steps, 0)?;
        node = part;
    }
    Ok(Line::Unfold(Path::new(steps)))
}

// The part of a head that is a head of its own.
fn inner_head(list: &NodeList, node: u32) -> Option<u32>
    requires { node < length list.now.nodes }
    ensures below { IfSome result (λ part. part < node) }
    ensures path { MatchOption result (innermost (seen list.now node) ≡ []) (λ part. innermost (seen list.now node) ≡ 0 ∷ innermost (seen list.now part)) }
{
    let part = match list.node(node).form {
        Form::Two(TwoParts::App, part, _) => part,
        Form::One(OnePart::Fst | OnePart::Snd, part) => part,
        _ => return None,
    };
    match list.node(part).form {
        Form::Two(TwoParts::App, ..) | Form::One(OnePart::Fst | OnePart::Snd, _) => Some(part),
        _ => None,
    }
}

// How the way goes on at a reached node.
fn turn_at(list: &NodeList, masks: &Masks, port: u32, node: u32) -> Turn
    requires { node < length list.now.nodes }
    ensures below { LeadsBelow (length list.now.nodes) node result }
    ensures turn { (o : Port) → Knows list.now o port masks.now → PartsApart (seen list.now node) → IsTurn list.now o (seen list.now node) result }
{
    turn_at_form(list, masks, port, node, list.node(node).form)
}

// How the way goes on at a reached node of this form.
#[tactic(auto, using(crate::proofs::TurnLemmas::enters_if))]
fn turn_at_form(list: &NodeList, masks: &Masks, port: u32, node: u32, form: Form) -> Turn
    requires node { node < length list.now.nodes }
    requires term { seen list.now node ≡ shape list.now form }
    requires fits { Fits list.now.tables node form }
    ensures below { LeadsBelow (length list.now.nodes) node result }
    ensures turn { (o : Port) → Knows list.now o port masks.now → PartsApart (shape list.now form) → IsTurn list.now o (shape list.now form) result }
{
    match form {
        Form::Leaf(leaf) => turn_at_leaf(leaf),
        Form::One(one, part) => turn_at_one(list, node, one, part),
        Form::Two(two, first, second) => turn_at_two(list, masks, port, node, two, first, second),
        Form::If(test, ..) => unless_value(list, Way::First, test),
    }
}

// At a form of no part.
#[tactic(auto, using(crate::proofs::TurnLemmas::skip_turn, crate::proofs::TurnLemmas::lit_turn, crate::proofs::TurnLemmas::bound_turn, crate::proofs::TurnLemmas::loc_turn, crate::proofs::TurnLemmas::arr_turn, crate::proofs::TurnLemmas::import_turn, crate::proofs::TurnLemmas::wait_turn))]
fn turn_at_leaf(leaf: Leaf) -> Turn
    ensures below { (nodes n : ℕ) → LeadsBelow nodes n result }
    ensures turn { (l : Listed) (a : Tables) (o : Port) → IsTurn l o (leaf_term a leaf) result }
{
    match leaf {
        Leaf::Import(_) | Leaf::Wait { .. } => Turn::Label,
        _ => Turn::Step,
    }
}

// To a part, unless it is a value.
fn unless_value(list: &NodeList, way: Way, part: u32) -> Turn
    requires { part < length list.now.nodes }
    ensures below { (n : ℕ) → part < n → LeadsBelow (length list.now.nodes) n result }
    ensures turn { Enters list.now way part result }
{
    if is_value(list, part) {
        Turn::Step
    } else {
        Turn::Down { way, part }
    }
}

// At a form of one part.
#[tactic(auto, using(crate::proofs::TurnLemmas::lam_turn, crate::proofs::TurnLemmas::new_turn, crate::proofs::TurnLemmas::array_turn, crate::proofs::TurnLemmas::fst_turn, crate::proofs::TurnLemmas::snd_turn, crate::proofs::TurnLemmas::enters_not, crate::proofs::TurnLemmas::enters_scope, crate::proofs::TurnLemmas::enters_held))]
fn turn_at_one(list: &NodeList, node: u32, one: OnePart, part: u32) -> Turn
    requires node { node < length list.now.nodes }
    requires part { part < node }
    requires term { seen list.now node ≡ one_term list.now.tables one (seen list.now part) }
    ensures below { LeadsBelow (length list.now.nodes) node result }
    ensures turn { (o : Port) → IsTurn list.now o (one_term list.now.tables one (seen list.now part)) result }
{
    match one {
        OnePart::Lam(_) | OnePart::New(_) | OnePart::NewArray { .. } => Turn::Step,
        OnePart::Fst | OnePart::Snd => Turn::Head(node),
        OnePart::Deref | OnePart::Put(_) => turn_at_access(list, part),
        OnePart::Not | OnePart::Scope(_) | OnePart::Held { .. } => unless_value(
            list,
            Way::First,
            part,
        ),
    }
}

// At a read or a write of this variable.
fn turn_at_access(list: &NodeList, variable: u32) -> Turn
    requires { variable < length list.now.nodes }
    ensures below { (n : ℕ) → variable < n → LeadsBelow (length list.now.nodes) n result }
    ensures turn { IsAccessTurn list.now (seen list.now variable) result }
{
    turn_at_variable(list, variable, list.node(variable).form)
}

// At a read or a write of a variable of this form.
#[tactic(auto, using(crate::proofs::TurnLemmas::plain_access))]
fn turn_at_variable(list: &NodeList, variable: u32, form: Form) -> Turn
    requires variable { variable < length list.now.nodes }
    requires term { seen list.now variable ≡ shape list.now form }
    requires fits { Fits list.now.tables variable form }
    ensures below { (n : ℕ) → variable < n → LeadsBelow (length list.now.nodes) n result }
    ensures turn { IsAccessTurn list.now (shape list.now form) result }
{
    match form {
        Form::Leaf(leaf) => turn_at_leaf_variable(leaf),
        Form::One(one, part) => turn_at_one_variable(list, variable, one, part),
        Form::Two(two, first, second) => turn_at_two_variable(list, variable, two, first, second),
        Form::If(..) => Turn::Step,
    }
}

// At a read or a write of a variable of no part.
#[tactic(auto, using(crate::proofs::TurnLemmas::import_access, crate::proofs::TurnLemmas::plain_access))]
fn turn_at_leaf_variable(leaf: Leaf) -> Turn
    ensures below { (nodes n : ℕ) → LeadsBelow nodes n result }
    ensures turn { (l : Listed) (a : Tables) → IsAccessTurn l (leaf_term a leaf) result }
{
    match leaf {
        Leaf::Import(_) => Turn::Label,
        _ => Turn::Step,
    }
}

// At a read or a write of a variable of one part.
#[tactic(auto, using(crate::proofs::TurnLemmas::plain_access, crate::proofs::TurnLemmas::fst_access, crate::proofs::TurnLemmas::snd_access))]
fn turn_at_one_variable(list: &NodeList, variable: u32, one: OnePart, part: u32) -> Turn
    requires variable { variable < length list.now.nodes }
    requires part { part < variable }
    requires term { seen list.now variable ≡ one_term list.now.tables one (seen list.now part) }
    ensures below { (n : ℕ) → variable < n → LeadsBelow (length list.now.nodes) n result }
    ensures turn { IsAccessTurn list.now (one_term list.now.tables one (seen list.now part)) result }
{
    match one {
        OnePart::Fst | OnePart::Snd => Turn::Operand(variable),
        _ => Turn::Step,
    }
}

// At a read or a write of a variable of two parts.
#[tactic(auto, using(crate::proofs::TurnLemmas::plain_access))]
fn turn_at_two_variable(
    list: &NodeList,
    variable: u32,
    two: TwoParts,
    first: u32,
    second: u32,
) -> Turn
    requires variable { variable < length list.now.nodes }
    requires first { first < variable }
    requires second { second < variable }
    requires term { seen list.now variable ≡ two_term two (seen list.now first) (seen list.now second) }
    ensures below { (n : ℕ) → variable < n → LeadsBelow (length list.now.nodes) n result }
    ensures turn { IsAccessTurn list.now (two_term two (seen list.now first) (seen list.now second)) result }
{
    match two {
        TwoParts::App => turn_at_item(list, variable, first, second),
        _ => Turn::Step,
    }
}

// At a read or a write of this item of an array, or of a variable that an application gives.
#[tactic(auto, using(crate::proofs::TurnLemmas::other_operand))]
fn turn_at_item(list: &NodeList, item: u32, array: u32, index: u32) -> Turn
    requires item { item < length list.now.nodes }
    requires array { array < length list.now.nodes }
    requires index { index < item }
    requires term { seen list.now item ≡ App (seen list.now array) (seen list.now index) }
    ensures below { (n : ℕ) → index < n → LeadsBelow (length list.now.nodes) n result }
    ensures turn { IsAccessTurn list.now (App (seen list.now array) (seen list.now index)) result }
{
    match access_of(list, array) {
        Access::Array(_) => {
            if is_value(list, index) {
                Turn::Step
            } else {
                Turn::Down {
                    way: Way::Index,
                    part: index,
                }
            }
        }
        Access::Port => turn_at_port(list, index),
        Access::No => {
            if is_port(list, array) {
                Turn::Label
            } else {
                Turn::Operand(item)
            }
        }
    }
}

// Whether a node is a port, or waits for one.
fn is_port(list: &NodeList, node: u32) -> bool
    requires { node < length list.now.nodes }
    ensures { IsTrue result ↔ IsPortNode (seen list.now node) }
{
    match list.node(node).form {
        Form::Leaf(Leaf::Import(_) | Leaf::Wait { .. }) => true,
        _ => false,
    }
}

// At an access of a port that has asked for its index, of which this is the argument.
fn turn_at_port(list: &NodeList, argument: u32) -> Turn
    requires { argument < length list.now.nodes }
    ensures below { (n : ℕ) → argument < n → LeadsBelow (length list.now.nodes) n result }
    ensures turn { IsPortTurn list.now (seen list.now argument) result }
{
    match second_of(list, argument) {
        Some(index) => {
            if is_value(list, index) {
                Turn::Label
            } else {
                Turn::Down {
                    way: Way::PortIndex,
                    part: index,
                }
            }
        }
        None => Turn::Label,
    }
}

// The second side of a pair.
fn second_of(list: &NodeList, node: u32) -> Option<u32>
    requires { node < length list.now.nodes }
    ensures below { IfSome result (λ second. second < node) }
    ensures pair { MatchOption result ((b z : Term) → seen list.now node ≡ Both b z → ⊥)
        (λ second. (first : Term) × (seen list.now node ≡ Both first (seen list.now second))) }
{
    match list.node(node).form {
        Form::Two(TwoParts::Both, _, second) => Some(second),
        _ => None,
    }
}

// At a form of two parts.
#[tactic(auto, using(crate::proofs::TurnLemmas::app_turn, crate::proofs::TurnLemmas::both_turn, crate::proofs::TurnLemmas::while_turn, crate::proofs::TurnLemmas::enters_seq, crate::proofs::TurnLemmas::enters_bin, crate::proofs::TurnLemmas::enters_assign))]
fn turn_at_two(
    list: &NodeList,
    masks: &Masks,
    port: u32,
    node: u32,
    two: TwoParts,
    first: u32,
    second: u32,
) -> Turn
    requires node { node < length list.now.nodes }
    requires first { first < node }
    requires second { second < node }
    requires term { seen list.now node ≡ two_term two (seen list.now first) (seen list.now second) }
    ensures below { LeadsBelow (length list.now.nodes) node result }
    ensures turn { (o : Port) → Knows list.now o port masks.now → PartsApart (two_term two (seen list.now first) (seen list.now second))
        → IsTurn list.now o (two_term two (seen list.now first) (seen list.now second)) result }
{
    match two {
        TwoParts::App => Turn::Head(node),
        TwoParts::Both | TwoParts::While => Turn::Step,
        TwoParts::Seq | TwoParts::Bin(_) => unless_value(list, Way::First, first),
        TwoParts::Assign => unless_value(list, Way::Second, second),
        TwoParts::Par => side(list, masks, port, first, second),
    }
}

// At `||`: the side that is needed, unless both are values.
#[tactic(auto, using(crate::proofs::TurnLemmas::sides_turn, crate::proofs::TurnLemmas::right_by_value, crate::proofs::TurnLemmas::left_by_value, crate::proofs::TurnLemmas::right_by_port, crate::proofs::TurnLemmas::left_by_port))]
fn side(list: &NodeList, masks: &Masks, port: u32, left: u32, right: u32) -> Turn
    requires left { left < length list.now.nodes }
    requires right { right < length list.now.nodes }
    ensures below { (n : ℕ) → left < n → right < n → LeadsBelow (length list.now.nodes) n result }
    ensures turn { (o : Port) → Knows list.now o port masks.now → Apart (seen list.now left) (seen list.now right)
        → IsTurn list.now o (Par (seen list.now left) (seen list.now right)) result }
{
    let to_left = Turn::Down {
        way: Way::First,
        part: left,
    };
    let to_right = Turn::Down {
        way: Way::Second,
        part: right,
    };
    match (is_value(list, left), is_value(list, right)) {
        (true, true) => Turn::Step,
        (true, false) => to_right,
        (false, true) => to_left,
        (false, false) => {
            if masks.has(right, port) {
                to_right
            } else {
                to_left
            }
        }
    }
}
