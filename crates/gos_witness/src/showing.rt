// Labels at a place: a port is asked, or its answer is taken.
ghost use Rattle.std.specs.Prelude.{◌≡◌, ◌<◌, ◌^◌, IfOk, IfSome, MatchOption, Some, length, slice_get};
ghost use Rattle.gos_netlist.specs.Seen.{ground_type};
ghost use Rattle.gos_model.specs.Terms.{Import, Wait};
ghost use Rattle.gos_model.specs.Typing.{Imports};
ghost use Rattle.gos_witness.specs.NodeLists.{FitsLeaf, Tables, leaf_term, name_at, one_term, seen};
ghost use Rattle.gos_witness.specs.Ports.{imports_of, label_of};
ghost use Rattle.gos_netlist.specs.Writable.{IsPortType};
ghost use Rattle.gos_witness.specs.Ports.{ArePorts};
ghost use Rattle.gos_witness.specs.inner.Keeping.{Keeps};
ghost use Rattle.gos_witness.specs.inner.Rows.{IsAnswered, IsPortOf, LeafShows, ShowsTo, event_behind, label_at};

use crate::labels::Label;
use crate::nodes::{Form, Leaf, NodeList, OnePart};
use crate::program::ProgramPort;
use crate::reading_nodes::import;
use gos_netlist::Ground;
use gos_types::{NoMemory, fits};

/// What a label at a node makes of it, if it can be there.
pub fn show(
    list: &mut NodeList,
    ports: &[ProgramPort],
    label: Label,
    node: u32,
) -> Result<Option<u32>, NoMemory>
    requires node { node < length list.old.nodes }
    requires ports { ArePorts ports.now }
    requires port { label.port < length ports.now }
    ensures outcome { IfOk result (ShowsTo list.new (imports_of ports.now) (label_of ports.now label) (seen list.old node)) }
    ensures keeps { Keeps list.old list.new }
{
    if label.port == 0 {
        return Ok(None);
    }
    let port = port_at(ports, label.port);
    match list.node(node).form {
        Form::Leaf(leaf) => show_leaf(list, port, label, leaf),
        Form::One(one, part) => show_one(list, port, label, one, part),
        Form::Two(..) | Form::If(..) => Ok(None),
    }
}

// A port by its number.
fn port_at(ports: &[ProgramPort], number: u32) -> &ProgramPort
    requires { number < length ports.now }
    ensures { slice_get ports.now number ≡ Some result.now }
{
    &ports[number as usize]
}

// At a leaf: a command is run, an expression is asked, or an answer is taken.
fn show_leaf(
    list: &mut NodeList,
    port: &ProgramPort,
    label: Label,
    leaf: Leaf,
) -> Result<Option<u32>, NoMemory>
    requires leaf { FitsLeaf list.old.tables leaf }
    requires narrow { IsPortType (ground_type port.now.ground) }
    ensures outcome { IfOk result (λ next. (is : Imports) → IsPortOf is port.now
        → ShowsTo list.new is (label_at port.now label) (leaf_term list.old.tables leaf) next) }
    ensures keeps { Keeps list.old list.new }
{
    let Some(leaf) = leaf_behind(list, port, label, leaf) else {
        return Ok(None);
    };
    let next = list.push(Form::Leaf(leaf))?;
    Ok(Some(next))
}

// What a label leaves of a leaf, if it can be there.
fn leaf_behind(list: &NodeList, port: &ProgramPort, label: Label, leaf: Leaf) -> Option<Leaf>
    requires leaf { FitsLeaf list.now.tables leaf }
    requires narrow { IsPortType (ground_type port.now.ground) }
    ensures shows { (is : Imports) → IsPortOf is port.now
        → LeafShows list.now.tables is (label_at port.now label) (leaf_term list.now.tables leaf) result }
    ensures fits { IfSome result (FitsLeaf list.now.tables) }
{
    match leaf {
        Leaf::Import(name) => asked(list, port, label, name),
        Leaf::Wait { name, event } => answered(list, port, label, name, event),
        Leaf::Skip | Leaf::Lit { .. } | Leaf::Bound(_) | Leaf::Loc(_) | Leaf::Arr(_) => None,
    }
}

// A wait for an import that is run or asked.
fn asked(list: &NodeList, port: &ProgramPort, label: Label, name: u32) -> Option<Leaf>
    requires { name < length list.now.tables.names }
    ensures shows { (is : Imports) → IsPortOf is port.now
        → LeafShows list.now.tables is (label_at port.now label) (Import (name_at list.now.tables name)) result }
    ensures fits { IfSome result (FitsLeaf list.now.tables) }
{
    let is_asked = match port.ground {
        Ground::Com | Ground::Exp(_) => label.place == 0 && label.value == 0,
        Ground::Var(_) => false,
    };
    if is_asked && *list.name(name) == port.name {
        Some(Leaf::Wait { name, event: 1 })
    } else {
        None
    }
}

// What the answer leaves that a wait waits for.
#[tactic(auto, using(crate::proofs::ShowLemmas::answered_none, crate::proofs::ShowLemmas::answered_fits, crate::proofs::ShowLemmas::answered_shows))]
fn answered(
    list: &NodeList,
    port: &ProgramPort,
    label: Label,
    name: u32,
    event: u32,
) -> Option<Leaf>
    requires name { name < length list.now.tables.names }
    requires narrow { IsPortType (ground_type port.now.ground) }
    ensures shows { (is : Imports) → IsPortOf is port.now
        → LeafShows list.now.tables is (label_at port.now label) (Wait (name_at list.now.tables name) event) result }
    ensures fits { IfSome result (FitsLeaf list.now.tables) }
{
    if label.place != event || *list.name(name) != port.name {
        return None;
    }
    answer(port.ground, event, label.value)
}

// What an answer leaves, if it is one.
#[tactic(auto, using(crate::proofs::ShowLemmas::answer_of_com, crate::proofs::ShowLemmas::answer_of_exp, crate::proofs::ShowLemmas::answer_of_read, crate::proofs::ShowLemmas::answer_of_write))]
fn answer(ground: Ground, event: u32, value: u64) -> Option<Leaf>
    requires { IsPortType (ground_type ground) }
    ensures { (a : Tables) → IsAnswered (ground_type ground) a event value result }
{
    match ground {
        Ground::Com => done(event, 1, value),
        Ground::Exp(width) => answered_number(event, width, value),
        Ground::Var(width) => {
            if event == 1 {
                answered_number(event, width, value)
            } else {
                done(event, 3, value)
            }
        }
    }
}

// `skip`, where the event is this one and has no number.
fn done(event: u32, wanted: u32, value: u64) -> Option<Leaf>
    ensures { MatchOption result (event ≡ wanted → value ≡ 0 → ⊥) (λ leaf. (event ≡ wanted) × (value ≡ 0) × (leaf ≡ Leaf.Skip)) }
{
    if event == wanted && value == 0 {
        Some(Leaf::Skip)
    } else {
        None
    }
}

// A number, where the event is the first answer and the number fits.
fn answered_number(event: u32, width: u32, value: u64) -> Option<Leaf>
    ensures { MatchOption result (event ≡ 1 → value < 2 ^ width → ⊥) (λ leaf. (event ≡ 1) × (value < 2 ^ width) × (leaf ≡ Leaf.Lit value width)) }
{
    if event == 1 && fits(value, width) {
        Some(Leaf::Lit { value, width })
    } else {
        None
    }
}

// At a form of one part: a variable is read or written.
fn show_one(
    list: &mut NodeList,
    port: &ProgramPort,
    label: Label,
    one: OnePart,
    part: u32,
) -> Result<Option<u32>, NoMemory>
    requires part { part < length list.old.nodes }
    ensures outcome { IfOk result (λ next. (is : Imports) → IsPortOf is port.now
        → ShowsTo list.new is (label_at port.now label) (one_term list.old.tables one (seen list.old part)) next) }
    ensures keeps { Keeps list.old list.new }
{
    let Ground::Var(_) = port.ground else {
        return Ok(None);
    };
    let Some(event) = wait_for(label, one) else {
        return Ok(None);
    };
    let Some(name) = import(list, part) else {
        return Ok(None);
    };
    if *list.name(name) != port.name {
        return Ok(None);
    }
    let next = list.push(Form::Leaf(Leaf::Wait { name, event }))?;
    Ok(Some(next))
}

// The event that is waited for after a variable's request, if it is this form's.
fn wait_for(label: Label, one: OnePart) -> Option<u32>
    ensures { result ≡ event_behind label one }
{
    match one {
        OnePart::Deref => {
            if label.place == 0 && label.value == 0 {
                Some(1)
            } else {
                None
            }
        }
        OnePart::Put(value) => {
            if label.place == 2 && label.value == value {
                Some(3)
            } else {
                None
            }
        }
        _ => None,
    }
}
