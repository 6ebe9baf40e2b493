// A closed term is put in for a bound variable.
//
// The work stands in a list of jobs, so nothing recurs. Parts in which the variable can't be free are shared.
ghost use Rattle.std.specs.Prelude.{◌≡◌, ◌⊎◌, ◌<◌, ◌++◌, ◌∷◌, [], ℕ, length, IfOk};
ghost use Rattle.gos_model.specs.Terms.{Term};
ghost use Rattle.gos_model.specs.Substitution.{instantiate, put_at};
ghost use Rattle.gos_witness.specs.NodeLists.{Fits, Tables, leaf_term, seen, shape};
ghost use Rattle.gos_witness.specs.inner.Keeping.{Keeps};
ghost use Rattle.gos_witness.specs.inner.Jobs.{AreJobs, FitsJob, IsNext};

use crate::nodes::{Form, Leaf, NodeList, OnePart, TwoParts};
use gos_types::NoMemory;
use std::alloc::Global;

/// A form of which a part is being made. Parts before it are made, and those behind it are still to be, below `depth` binders.
#[derive(Clone, Copy)]
pub enum Job {
    One(OnePart),
    First(TwoParts, u32, u64),
    Second(TwoParts, u32),
    Test(u32, u32, u64),
    Yes(u32, u32, u64),
    No(u32, u32),
}

/// A node that is still to be made, below so many binders, or one that is.
#[derive(Clone, Copy)]
pub enum State {
    Down { node: u32, depth: u64 },
    Up { node: u32 },
}

/// The term of a body with a closed argument for its outermost bound variable.
pub fn instantiate(
    alloc: Global,
    list: &mut NodeList,
    body: u32,
    argument: u32,
) -> Result<u32, NoMemory>
    requires body { body < length list.old.nodes }
    requires argument { argument < length list.old.nodes }
    ensures term { IfOk result (λ whole. seen list.new whole ≡ instantiate (seen list.old body) (seen list.old argument)) }
    ensures there { IfOk result (λ whole. whole < length list.new.nodes) }
    ensures keeps { Keeps list.old list.new }
{
    let mut jobs = Vec::new(alloc);
    let mut state = State::Down {
        node: body,
        depth: 0,
    };
    loop {
        match state {
            State::Down { node, depth } => {
                state = down(list, argument, node, depth, &mut jobs)?;
            }
            State::Up { node } => {
                let Some(job) = jobs.pop() else {
                    return Ok(node);
                };
                state = up(list, job, node, &mut jobs)?;
            }
        }
    }
}

// What becomes of a node below so many binders.
fn down(
    list: &NodeList,
    argument: u32,
    node: u32,
    depth: u64,
    jobs: &mut Vec<Job>,
) -> Result<State, NoMemory>
    requires node { node < length list.now.nodes }
    requires argument { argument < length list.now.nodes }
    requires jobs { AreJobs list.now jobs.old.items }
    ensures { IfOk result (λ next. IsNext list.now list.now (seen list.now argument) jobs.old.items (State.Down node depth) jobs.new.items next) }
{
    let known = list.node(node);
    if known.needs <= depth {
        return Ok(State::Up { node });
    }
    match known.form {
        Form::Leaf(leaf) => Ok(leaf_below(leaf, argument, node, depth)),
        Form::One(one, a) => {
            jobs.push(Job::One(one))?;
            Ok(State::Down {
                node: a,
                depth: depth + one.binders(),
            })
        }
        Form::Two(two, a, b) => {
            jobs.push(Job::First(two, b, depth))?;
            Ok(State::Down { node: a, depth })
        }
        Form::If(a, b, c) => {
            jobs.push(Job::Test(b, c, depth))?;
            Ok(State::Down { node: a, depth })
        }
    }
}

// What becomes of a leaf.
fn leaf_below(leaf: Leaf, argument: u32, node: u32, depth: u64) -> State
    ensures { (a : Tables) (n : Term) → ((leaf ≡ Leaf.Bound depth) × (result ≡ State.Up argument))
        ⊎ ((put_at depth n (leaf_term a leaf) ≡ leaf_term a leaf) × (result ≡ State.Up node)) }
{
    match leaf {
        Leaf::Bound(n) if u64::from(n) == depth => State::Up { node: argument },
        _ => State::Up { node },
    }
}

// What becomes of a job when the part that it waits for is made.
fn up(list: &mut NodeList, job: Job, part: u32, jobs: &mut Vec<Job>) -> Result<State, NoMemory>
    requires part { part < length list.old.nodes }
    requires job { FitsJob list.old job }
    requires jobs { AreJobs list.old jobs.old.items }
    ensures keeps { Keeps list.old list.new }
    ensures next { IfOk result (λ next. (n : Term) → IsNext list.old list.new n (jobs.old.items ++ job ∷ []) (State.Up part) jobs.new.items next) }
{
    match job {
        Job::One(one) => made(list, Form::One(one, part)),
        Job::First(two, b, depth) => {
            jobs.push(Job::Second(two, part))?;
            Ok(State::Down { node: b, depth })
        }
        Job::Second(two, a) => made(list, Form::Two(two, a, part)),
        Job::Test(b, c, depth) => {
            jobs.push(Job::Yes(part, c, depth))?;
            Ok(State::Down { node: b, depth })
        }
        Job::Yes(a, c, depth) => {
            jobs.push(Job::No(a, part))?;
            Ok(State::Down { node: c, depth })
        }
        Job::No(a, b) => made(list, Form::If(a, b, part)),
    }
}

// A form whose parts are made.
fn made(list: &mut NodeList, form: Form) -> Result<State, NoMemory>
    requires { Fits list.old.tables (length list.old.nodes) form }
    ensures made { IfOk result (λ state. (node : ℕ) × (state ≡ State.Up node) × (node < length list.new.nodes) × (seen list.new node ≡ shape list.old form)) }
    ensures keeps { Keeps list.old list.new }
{
    let node = list.push(form)?;
    Ok(State::Up { node })
}
