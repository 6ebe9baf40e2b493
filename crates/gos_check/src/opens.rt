// The free names of a term, with the numbers that they have there.

ghost use Rattle.std.specs.Prelude.{◌≡◌, ◌+◌, ◌++◌, ◌∷◌, [], ◌^◌, ◌<◌, ◌≤◌, length, IfOk, IfErr};
ghost use Rattle.gos_check.specs.Opens.{
  number_in,
  others,
  next_if,
  outside,
  split_of,
  merged_splits,
  merged_names,
  merged_next,
  binder_number,
  binder_next,
};

use crate::fault::CheckFault;
use crate::linear::Split;
use gos_lex::Name;
use std::alloc::Global;

// A free name of a term, and the number that it has there.
#[derive(Drop)]
pub(crate) struct Open {
    pub name: Name,
    pub number: u32,
}

// The number of a name, and the names besides it.
#[derive(Drop)]
struct Taken {
    number: Option<u32>,
    others: Vec<Open>,
}

// What is left open below a binder, and the binder's number.
#[derive(Drop)]
pub(crate) struct Closed {
    pub number: u32,
    pub names: Vec<Open>,
    pub next: u32,
}

// What two parts leave open together, and the splits of the names that both have.
#[derive(Drop)]
pub(crate) struct Merged {
    pub splits: Vec<Split>,
    pub names: Vec<Open>,
    pub next: u32,
}

// The number of a name.
fn number_in(names: &[Open], name: &Name) -> Option<u32>
    ensures { result ≡ number_in names.now name.now }
{
    for one in names {
        if one.name == *name {
            return Some(one.number);
        }
    }
    None
}

// All names but one.
fn others(alloc: Global, name: &Name, names: Vec<Open>) -> Result<Vec<Open>, CheckFault>
    ensures ok { IfOk result (λ kept. kept.items ≡ others name.now names.items) }
    ensures err { IfErr result (λ e. e ≡ CheckFault.NoMemory) }
{
    let mut kept = Vec::new(alloc);
    for one in names {
        if one.name != *name {
            kept.push(one)?;
        }
    }
    Ok(kept)
}

// Takes a name out of names, where it is one of them.
#[tactic(auto, using(crate::proofs::OpenLemmas::others_none))]
fn take(alloc: Global, name: &Name, names: Vec<Open>) -> Result<Taken, CheckFault>
    ensures number { IfOk result (λ t. t.number ≡ number_in names.items name.now) }
    ensures others { IfOk result (λ t. t.others.items ≡ others name.now names.items) }
    ensures err { IfErr result (λ e. e ≡ CheckFault.NoMemory) }
{
    match number_in(names.as_slice(), name) {
        Some(number) => Ok(Taken {
            number: Some(number),
            others: others(alloc, name, names)?,
        }),
        None => Ok(Taken {
            number: None,
            others: names,
        }),
    }
}

// A binder of a name around what is names: its number is that of the name, or a new one where the name isn't used.
pub(crate) fn close(
    alloc: Global,
    name: &Name,
    names: Vec<Open>,
    next: u32,
) -> Result<Closed, CheckFault>
    requires { next + 1 < 2 ^ 32 }
    ensures number { IfOk result (λ c. c.number ≡ binder_number (number_in names.items name.now) next) }
    ensures names { IfOk result (λ c. c.names.items ≡ others name.now names.items) }
    ensures next { IfOk result (λ c. c.next ≡ binder_next (number_in names.items name.now) next) }
    ensures room { IfOk result (λ c. c.next + length c.names.items ≤ next + length names.items + 1) }
    ensures err { IfErr result (λ e. e ≡ CheckFault.NoMemory) }
{
    let taken = take(alloc, name, names)?;
    Ok(match taken.number {
        Some(number) => Closed {
            number,
            names: taken.others,
            next,
        },
        None => Closed {
            number: next,
            names: taken.others,
            next: next + 1,
        },
    })
}

// What two parts leave open together. A name of both has a new number outside.
pub(crate) fn merge(
    alloc: Global,
    left: Vec<Open>,
    right: Vec<Open>,
    next: u32,
) -> Result<Merged, CheckFault>
    requires { next + length left.items + length right.items < 2 ^ 32 }
    ensures splits { IfOk result (λ m. m.splits.items ≡ merged_splits left.items right.items next) }
    ensures names { IfOk result (λ m. m.names.items ≡ merged_names left.items right.items next) }
    ensures next { IfOk result (λ m. m.next ≡ merged_next left.items right.items next) }
    ensures room { IfOk result (λ m. m.next + length m.names.items ≤ next + length left.items + length right.items) }
    ensures err { IfErr result (λ e. e ≡ CheckFault.NoMemory) }
{
    let mut merged = Merged {
        splits: Vec::new(alloc),
        names: Vec::new(alloc),
        next,
    };
    let mut right = right;
    for one in left {
        let taken = take(alloc, &one.name, right)?;
        right = taken.others;
        merged = with_open(merged, one, taken.number)?;
    }
    merged.names.append(&mut right)?;
    Ok(merged)
}

// With one more name of the left part, which may have a number in the right part.
fn with_open(merged: Merged, one: Open, right: Option<u32>) -> Result<Merged, CheckFault>
    requires { merged.next + 1 < 2 ^ 32 }
    ensures splits { IfOk result (λ m. m.splits.items ≡ merged.splits.items ++ split_of right merged.next one) }
    ensures names { IfOk result (λ m. m.names.items ≡ merged.names.items ++ outside right merged.next one ∷ []) }
    ensures next { IfOk result (λ m. m.next ≡ next_if right merged.next) }
    ensures err { IfErr result (λ e. e ≡ CheckFault.NoMemory) }
{
    let Merged {
        mut splits,
        mut names,
        next,
    } = merged;
    match right {
        Some(right) => {
            splits.push(Split {
                of: next,
                left: one.number,
                right,
            })?;
            names.push(Open {
                name: one.name,
                number: next,
            })?;
            Ok(Merged {
                splits,
                names,
                next: next + 1,
            })
        }
        None => {
            names.push(one)?;
            Ok(Merged {
                splits,
                names,
                next,
            })
        }
    }
}
