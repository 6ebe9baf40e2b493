// What wired nodes are with any regular supplies. Each theorem is the contract of a function that does nothing.
ghost use Rattle.gos_terms.specs.regular.SmallOpened.{CallIsNoFunction, CallIsSteady, ClosedIsNoCommand, UseIsClosed};
ghost use Rattle.gos_terms.specs.regular.Opened.{ClosedIsKept, ClosedIsRegular, ClosedIsWired, ModuleIsRegular, RegularIsSteady, SteadyIsRealised, WiredIsOne};

use super::function_forms::{bodies, functions};
use super::wired::wired_nodes;
use gos_joining::laws::renumbered::renumberings;
use gos_supplies::laws::turns::{applications, names, rests, small_turned};

/// Two plans that are wired for one node, with the same supplies, are one but for numbers.
pub fn wired_nodes_are_one()
    ensures { WiredIsOne }
{}

/// A node that is closed by functions has the plan of one without supplies, and is regular where the node is.
pub fn closings()
    ensures kept { ClosedIsKept }
    ensures regular { ClosedIsRegular }
    ensures wired { ClosedIsWired }
{
    functions();
    wired_nodes();
}

/// A wired node is regular with any regular supplies, and so with any that realise terms.
pub fn regular_nodes()
    ensures steady { RegularIsSteady }
    ensures realised { SteadyIsRealised }
{
    wired_nodes_are_one();
    closings();
    bodies();
    functions();
    wired_nodes();
    applications();
    renumberings();
}

/// The plan of a module, with imports of any types, is regular and rests.
pub fn modules()
    ensures { ModuleIsRegular }
{
    names();
    rests();
}

/// A use of a number, closed over it, is a function and no command. The plan of `import c : com; c` is steady as a command, and not as
/// a function.
pub fn small_closings()
    ensures met { UseIsClosed }
    ensures missed { ClosedIsNoCommand }
    ensures steady { CallIsSteady }
    ensures unsteady { CallIsNoFunction }
{
    names();
    small_turned();
}
