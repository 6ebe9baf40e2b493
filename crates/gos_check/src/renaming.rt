// Two numbers of a term exchanged.

ghost use Rattle.std.specs.Prelude.{◌≡◌, map};
ghost use Rattle.gos_check.specs.Nodes.{node_seen};
ghost use Rattle.gos_check.specs.Numbering.{exchanged, renamed_split, renamed};

use crate::linear::{Node, NodeForm, Split};

// Exchanges two numbers wherever they stand in a term.
#[cycle(renaming)]
pub(crate) fn exchange(a: u32, b: u32, node: &mut Node)
    ensures { node_seen node.new ≡ renamed (exchanged a b) (node_seen node.old) }
{
    exchange_splits(a, b, node.splits.as_mut_slice());
    match &mut node.form {
        NodeForm::Skip => {}
        NodeForm::Lit { .. } => {}
        NodeForm::Use(number) => *number = exchanged(a, b, *number),
        NodeForm::Fun { number, body } => {
            *number = exchanged(a, b, *number);
            exchange(a, b, body);
        }
        NodeForm::New { number, body, .. } => {
            *number = exchanged(a, b, *number);
            exchange(a, b, body);
        }
        NodeForm::Array { number, body, .. } => {
            *number = exchanged(a, b, *number);
            exchange(a, b, body);
        }
        NodeForm::App(m, n) => exchange_both(a, b, m, n),
        NodeForm::Pair(m, n) => exchange_both(a, b, m, n),
        NodeForm::Fst(m) => exchange(a, b, m),
        NodeForm::Snd(m) => exchange(a, b, m),
        NodeForm::Seq(m, n) => exchange_both(a, b, m, n),
        NodeForm::Par(m, n) => exchange_both(a, b, m, n),
        NodeForm::If(m, n, p) => {
            exchange(a, b, m);
            exchange(a, b, n);
            exchange(a, b, p);
        }
        NodeForm::While(m, n) => exchange_both(a, b, m, n),
        NodeForm::Assign(m, n) => exchange_both(a, b, m, n),
        NodeForm::Deref(m) => exchange(a, b, m),
        NodeForm::Not(m) => exchange(a, b, m),
        NodeForm::Bin(_, m, n) => exchange_both(a, b, m, n),
    }
}

// The same in both of two terms.
#[cycle(renaming)]
fn exchange_both(a: u32, b: u32, m: &mut Node, n: &mut Node)
    ensures first { node_seen m.new ≡ renamed (exchanged a b) (node_seen m.old) }
    ensures second { node_seen n.new ≡ renamed (exchanged a b) (node_seen n.old) }
{
    exchange(a, b, m);
    exchange(a, b, n);
}

// The same in splits.
fn exchange_splits(a: u32, b: u32, splits: &mut [Split])
    ensures { splits.new ≡ map (renamed_split (exchanged a b)) splits.old }
{
    for split in splits.iter_mut() {
        *split = exchanged_split(a, b, *split);
    }
}

// The same in a split.
fn exchanged_split(a: u32, b: u32, split: Split) -> Split
    ensures { result ≡ renamed_split (exchanged a b) split }
{
    Split {
        of: exchanged(a, b, split.of),
        left: exchanged(a, b, split.left),
        right: exchanged(a, b, split.right),
    }
}

// A number, or the other one of two.
fn exchanged(a: u32, b: u32, number: u32) -> u32
    ensures { result ≡ exchanged a b number }
{
    if number == a {
        b
    } else if number == b {
        a
    } else {
        number
    }
}
