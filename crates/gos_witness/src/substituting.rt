// The program that linked modules make: each bound import's giver is put in.
//
// Each module is added once, behind those that serve it, so nothing here recurs over givers.
ghost use Rattle.std.specs.Prelude.{◌≡◌, ◌≢◌, ◌<◌, ◌≤◌, IfErr, IfOk, Some, length, slice_get, true};
ghost use Rattle.gos_model.specs.Terms as modelled;
ghost use Rattle.gos_model.specs.Sources.{program_of};
ghost use Rattle.gos_witness.specs.NodeLists.{seen};
ghost use Rattle.gos_witness.specs.Substituted.{AreLinkable, HasNarrow, IsTooLargeFault, linked_program};
ghost use Rattle.gos_witness.specs.Sizes.{size};
ghost use Rattle.gos_witness.specs.inner.Adding.{node_for};
ghost use Rattle.gos_witness.specs.inner.Built.{
  AreBelow,
  AreImports,
  AreMade,
  IsModuleNode,
  giver_in,
  has_node,
  is_ready,
  node_if,
  node_of,
};
ghost use Rattle.gos_witness.specs.inner.Keeping.{Keeps};

use crate::adding::{Supply, add};
use crate::binders::Binders;
use crate::binding::{Bound, by_user, next_ready, own};
use crate::fault::ExplainFault;
use crate::nodes::NodeList;
use crate::verifying::LARGEST_TERM;
use gos_syntax::{Import, Module};
use gos_types::NoMemory;
use std::alloc::Global;

// The node of a module that has one.
fn node_at(nodes: &[Option<u32>], number: usize) -> u32
    requires there { number < length nodes.now }
    requires made { has_node nodes.now number ≡ true }
    ensures { node_if (slice_get nodes.now number) ≡ Some result }
{
    match nodes[number] {
        Some(node) => node,
        None => unreachable!(),
    }
}

// A node as what serves an import.
fn supply<'a>(import: &'a Import, node: u32) -> Supply<'a>
    ensures name { result.name.now ≡ import.now.name }
    ensures node { result.node ≡ node }
{
    Supply {
        name: &import.name,
        node,
    }
}

// What serves the imports of a module: the nodes of its givers.
fn supplies_of<'a>(
    alloc: Global,
    imports: &'a [Import],
    binds: &[Bound],
    nodes: &[Option<u32>],
) -> Result<Vec<Supply<'a>>, NoMemory>
    requires below { AreBelow (length nodes.now) binds.now }
    requires imports { AreImports (length imports.now) binds.now }
    requires ready { is_ready nodes.now binds.now ≡ true }
    ensures { IfOk result (λ ss. (x : modelled.Name) → node_for ss.items x ≡ node_of nodes.now (giver_in imports.now binds.now x)) }
{
    let mut supplies = Vec::new(alloc);
    for bind in binds {
        let import = &imports[bind.import];
        let supply = supply(import, node_at(nodes, bind.giver));
        supplies.push(supply)?;
    }
    Ok(supplies)
}

// Adds the body of a module, with the nodes of its givers put in, and gives its number.
fn add_module(
    alloc: Global,
    list: &mut NodeList,
    program: &Module,
    binds: &[Bound],
    nodes: &[Option<u32>],
) -> Result<u32, NoMemory>
    requires below { AreBelow (length nodes.now) binds.now }
    requires imports { AreImports (length program.now.imports) binds.now }
    requires ready { is_ready nodes.now binds.now ≡ true }
    requires made { AreMade list.old nodes.now }
    requires narrow { HasNarrow (program_of program.now).body }
    ensures node { IfOk result (IsModuleNode list.old list.new program.now binds.now nodes.now) }
    ensures keeps { Keeps list.old list.new }
{
    let supplies = supplies_of(alloc, program.imports.as_slice(), binds, nodes)?;
    add(
        alloc,
        list,
        supplies.as_slice(),
        &Binders::Outermost,
        &program.body,
    )
}

// Adds the root with its givers put in, and theirs in them, and gives its number. Each module is added behind its givers.
fn add_root(
    alloc: Global,
    list: &mut NodeList,
    modules: &[Module],
    binds: &[Bound],
    root: usize,
) -> Result<u32, NoMemory>
    requires { AreLinkable modules.now binds.now root }
    ensures there { IfOk result (λ n. n < length list.new.nodes) }
    ensures term { IfOk result (λ n. seen list.new n ≡ (linked_program modules.now binds.now root).body) }
{
    let by_user = by_user(alloc, modules.len(), binds)?;
    let lists = by_user.as_slice();
    let mut nodes = vec![in alloc; None; modules.len()]?;
    loop {
        let Some(number) = next_ready(lists, nodes.as_slice()) else {
            unreachable!();
        };
        let source = &modules[number];
        let node = add_module(alloc, list, source, own(lists, number), nodes.as_slice())?;
        if number == root {
            return Ok(node);
        }
        nodes[number] = Some(node);
    }
}

// A list of nodes, and the number of the root's whole term.
#[derive(Drop)]
pub(crate) struct Whole {
    pub list: NodeList,
    pub root: u32,
}

// The whole term of linked modules. `Nodes` is a term of more than 1,000,000 nodes: the count ends at 1,000,001.
pub(crate) fn whole_term(
    alloc: Global,
    modules: &[Module],
    binds: &[Bound],
    root: usize,
) -> Result<Whole, ExplainFault>
    requires { AreLinkable modules.now binds.now root }
    ensures there { IfOk result (λ whole. whole.root < length whole.list.nodes) }
    ensures term { IfOk result (λ whole. seen whole.list whole.root ≡ (linked_program modules.now binds.now root).body) }
    ensures small { IfOk result (λ _. size (linked_program modules.now binds.now root).body ≤ 1000000) }
    ensures fault { IfErr result (λ fault. fault ≢ ExplainFault.NoMemory → IsTooLargeFault (linked_program modules.now binds.now root) fault) }
{
    let mut list = NodeList::new(alloc);
    let root = add_root(alloc, &mut list, modules, binds, root)?;
    if list.node(root).size > LARGEST_TERM {
        return Err(ExplainFault::Nodes {
            nodes: LARGEST_TERM + 1,
        });
    }
    Ok(Whole { list, root })
}
