// What the circuits of plans that realise programs do. Each theorem is the contract of a function that does nothing.

ghost use Rattle.gos_tool.specs.circuits.Complete.{LinkIsNotRejected, EmptyIsNoBuild};
ghost use Rattle.gos_tool.specs.circuits.Paced.{EveryChoiceKeepsPace, EveryChoiceOfModule, LinkedCircuitsKeepPace, ModuleCircuitsKeepPace, OpenCircuitsKeepPace};
ghost use Rattle.gos_tool.specs.circuits.Repeated.{CircuitIsOne, LinkMakesOne};
ghost use Rattle.gos_tool.specs.circuits.SmallLaid.{StraightIsFew, RegistersAreNotFew, TidiedIsFast, RegistersAreNotFast};
ghost use Rattle.gos_tool.specs.circuits.SmallPaced.{CallHasPorts, FunctionHasNone};

use gos_expand::{
    cycles_are_lists, fast_circuits, one_layout, small_choices, small_fast, small_nets,
};
use gos_link::one_build;
use gos_linked::laws::keeping::keeps_pace;
use gos_linked::laws::linked::linked_modules;
use gos_supplies::laws::ports::ports;
use gos_verilog::one_text;

/// The netlist of a slim plan keeps pace with each program that the plan realises, whichever directions of joints keep their
/// registers, where it has no combinational cycle: so does what `expand_with` gives for any choice. So it is with the program
/// of a module that the plan realises.
pub fn every_choice()
    ensures done { EveryChoiceKeepsPace }
    ensures module { EveryChoiceOfModule }
{
    cycles_are_lists();
    keeps_pace();
    ports();
}

/// The circuit of a slim plan keeps pace with each term that the plan realises with any supplies, where its imports have
/// different names and ground types and its result is a command or an expression; so it does where the plan realises a
/// module, and where it links plans that do.
pub fn paced_circuits()
    ensures open_imports { OpenCircuitsKeepPace }
    ensures modules { ModuleCircuitsKeepPace }
    ensures linked { LinkedCircuitsKeepPace }
{
    ports();
    linked_modules();
}

/// The plan of `skip` is laid out with few registers as a netlist without any in its joint, and fast as whatever this is made tidy
/// to; in neither way as the netlist with both.
pub fn small_layouts()
    ensures few { StraightIsFew }
    ensures not_few { RegistersAreNotFew }
    ensures fast { TidiedIsFast }
    ensures not_fast { RegistersAreNotFast }
{
    small_nets();
    small_choices();
    small_fast();
    fast_circuits();
    one_layout();
}

/// A command that calls an imported one has ports as a circuit may have, and a function has not.
pub fn small_circuits()
    ensures call { CallHasPorts }
    ensures function { FunctionHasNone }
{}

/// A plan has one circuit with few registers. Where `link` is done twice with the same build file and objects, it writes the same and tells the same.
pub fn one_link()
    ensures circuit { CircuitIsOne }
    ensures link { LinkMakesOne }
{
    one_build();
    gos_plan::one_answer();
    gos_link::one_answer();
    one_layout();
    one_text();
}

/// Files that are right for `link` are not rejected. An empty build file is not right.
pub fn right_links()
    ensures rejected { LinkIsNotRejected }
    ensures empty { EmptyIsNoBuild }
{
    one_build();
    gos_plan::one_answer();
}
