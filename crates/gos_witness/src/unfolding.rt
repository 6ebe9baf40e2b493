// The three unfoldings of a head.
ghost use Rattle.std.specs.Prelude.{◌<◌, IfOk, length};
ghost use Rattle.gos_model.specs.Terms.{App, Fst, Snd};
ghost use Rattle.gos_witness.specs.NodeLists.{seen};
ghost use Rattle.gos_witness.specs.inner.Keeping.{Keeps};
ghost use Rattle.gos_witness.specs.inner.Rows.{UnfoldsTo};

use crate::nodes::{Form, NodeList, OnePart, TwoParts};
use crate::putting::instantiate;
use gos_types::NoMemory;
use std::alloc::Global;

/// What the unfolding of a node leaves, if it is a head that unfolds.
pub fn unfold(alloc: Global, list: &mut NodeList, node: u32) -> Result<Option<u32>, NoMemory>
    requires node { node < length list.old.nodes }
    ensures outcome { IfOk result (UnfoldsTo list.new (seen list.old node)) }
    ensures keeps { Keeps list.old list.new }
{
    match list.node(node).form {
        Form::Two(TwoParts::App, function, argument) => applied(alloc, list, function, argument),
        Form::One(OnePart::Fst, pair) => Ok(first(list, pair)),
        Form::One(OnePart::Snd, pair) => Ok(second(list, pair)),
        _ => Ok(None),
    }
}

// A function with its argument.
fn applied(
    alloc: Global,
    list: &mut NodeList,
    function: u32,
    argument: u32,
) -> Result<Option<u32>, NoMemory>
    requires function { function < length list.old.nodes }
    requires argument { argument < length list.old.nodes }
    ensures outcome { IfOk result (UnfoldsTo list.new (App (seen list.old function) (seen list.old argument))) }
    ensures keeps { Keeps list.old list.new }
{
    match list.node(function).form {
        Form::One(OnePart::Lam(_), body) => {
            let next = instantiate(alloc, list, body, argument)?;
            Ok(Some(next))
        }
        _ => Ok(None),
    }
}

// The first side of a pair.
fn first(list: &NodeList, pair: u32) -> Option<u32>
    requires { pair < length list.now.nodes }
    ensures { UnfoldsTo list.now (Fst (seen list.now pair)) result }
{
    match list.node(pair).form {
        Form::Two(TwoParts::Both, first, _) => Some(first),
        _ => None,
    }
}

// The second side of a pair.
fn second(list: &NodeList, pair: u32) -> Option<u32>
    requires { pair < length list.now.nodes }
    ensures { UnfoldsTo list.now (Snd (seen list.now pair)) result }
{
    match list.node(pair).form {
        Form::Two(TwoParts::Both, _, second) => Some(second),
        _ => None,
    }
}
