// What the definitions give. Each theorem is the contract of a function that does nothing.
ghost use Rattle.gos_linked.specs.keeping.Keeping.{NetKeepsPace};
ghost use Rattle.gos_linked.specs.keeping.Paced.{ModuleIsPlanFor, ModulesKeepPace};

use gos_supplies::laws::ports::ports;

/// A netlist that has the ports of a plan, and whose cycles are lists of it, keeps pace with the program that the
/// plan realises, with the bound of the plan's weight.
pub fn keeps_pace()
    ensures { NetKeepsPace }
{}

/// A plan that realises a module of a command or an expression with ground imports is such as pace asks for, and its
/// netlist keeps pace with the module's program.
pub fn modules_keep_pace()
    ensures plan { ModuleIsPlanFor }
    ensures pace { ModulesKeepPace }
{
    ports();
    keeps_pace();
}
