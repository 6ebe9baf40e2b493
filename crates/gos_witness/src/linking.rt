// The program of linked modules: the root's term with its givers put in, and the ports.
ghost use Rattle.std.specs.Prelude.{◌≢◌, IfErr, IfOk};
ghost use Rattle.gos_witness.specs.Substituted.{AreLinkable, IsLinked, IsTooLargeFault, MayBePorts, linked_program};

use crate::binding::Bound;
use crate::fault::ExplainFault;
use crate::opening::ports_of;
use crate::program::Program;
use crate::substituting::whole_term;
use gos_lex::Name;
use gos_syntax::Module;
use std::alloc::Global;

/// The program of linked modules. Each bound import is replaced by the program of its giver, and the open imports stay as names. Number 0
/// of the ports is the root's, of this name; behind it stand those of the open imports, in the order of the modules.
///
/// The root, and the modules and imports that the binds name, are there, some order puts each giver below those whom it serves, and
/// literals, variables and arrays have at most 64 bits. The root's result and the open imports have types of ports and different names, and
/// fewer than 2^32 imports are open.
///
/// `Nodes` is a program of more than 1,000,000 nodes: the count ends at 1,000,001. Beside want of memory there is no other fault.
pub fn substitute(
    alloc: Global,
    root: usize,
    root_name: &Name,
    modules: &[Module],
    binds: &[Bound],
) -> Result<Program, ExplainFault>
    requires linkable { AreLinkable modules.now binds.now root }
    requires ports { MayBePorts modules.now binds.now root root_name.now }
    ensures linked { IfOk result (IsLinked modules.now binds.now root root_name.now) }
    ensures fault { IfErr result (λ fault. fault ≢ ExplainFault.NoMemory → IsTooLargeFault (linked_program modules.now binds.now root) fault) }
{
    let whole = whole_term(alloc, modules, binds, root)?;
    let ports = ports_of(alloc, root_name, modules, binds, root)?;
    Ok(Program {
        list: whole.list,
        root: whole.root,
        ports,
    })
}
