// The program that linked modules make, and its ports.
ghost use Rattle.std.specs.Prelude.{◌≡◌, ◌<◌, IfOk, length};
ghost use Rattle.gos_witness.specs.Ports.{ArePorts};
ghost use Rattle.gos_witness.specs.inner.Keeping.{Keeps};

use crate::nodes::NodeList;
use gos_lex::Name;
use gos_netlist::{Ground, Side};
use gos_types::NoMemory;
use std::alloc::Global;
use std::marker::Model;

/// A port of a program: the root's, or that of an open import.
#[derive(Debug, Drop)]
pub struct ProgramPort {
    /// Its name, where words are names too.
    pub name: Name,
    /// Who asks at it.
    pub side: Side,
    /// What it carries.
    pub ground: Ground,
}

/// The program of linked modules: the root's body with each bound import's giver put in, and the ports. Number 0 is the root's,
/// the others are those of the open imports.
#[derive(Drop)]
pub struct Program {
    pub(crate) list: NodeList,
    pub(crate) root: u32,
    pub(crate) ports: Vec<ProgramPort>,
}

impl Model for Program {
    ghost use Rattle.gos_witness.specs.Programs.{SeenProgram};
    ghost use Rattle.std.specs.Coded.{codes};
    ghost use Rattle.gos_witness.specs.contracts.nodes.NodeList as a_list;

    ghost Value = { SeenProgram };

    ghost coded = { Prim.hlevel (codes, a_list.the_row.coded) };

    ghost use Rattle.gos_witness.specs.inner.Whole.{program_in, IsWhole};

    ghost view = { program_in };

    ghost invariant = { IsWhole };
}

impl Program {
    /// The ports.
    pub fn ports(&self) -> &[ProgramPort]
        ensures value { result.now ≡ self.now.ports }
        ensures ports { ArePorts self.now.ports }
    {
        self.ports.as_slice()
    }

    // The node of the whole term.
    pub(crate) fn root(&self) -> u32
        ensures root { result ≡ self.now.root }
        ensures there { result < length self.now.list.nodes }
    {
        self.root
    }

    // How many nodes the program has.
    pub(crate) fn nodes(&self) -> usize
        ensures { result ≡ length self.now.list.nodes }
    {
        self.list.nodes().len()
    }

    // A list with the program's nodes, to which others are added.
    pub(crate) fn list(&self, alloc: Global) -> Result<NodeList, NoMemory>
        ensures { IfOk result (Keeps self.now.list) }
    {
        self.list.copy(alloc)
    }
}
