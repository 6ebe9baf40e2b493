// What the definitions give. Each theorem is the contract of a function that does nothing.
ghost use Rattle.gos_supplies.specs.ports.Ports.{OpenIsDone, OpenIsRealised};
ghost use Rattle.gos_supplies.specs.ports.SmallPorts.{CallIsModule, NameIsOpen, UnjoinedIsNotOpen, VariableIsModule};

use super::names::{names, small_names};
use gos_realises::laws::realises::small_realisers;

/// A plan with ground imports of different names realises its term where it does so with any supplies. So the plan
/// of a command or an expression is regular, and its lists are matched.
pub fn ports()
    ensures realised { OpenIsRealised }
    ensures done { OpenIsDone }
{
    names();
}

/// The plan of a name realises it with any supply, so that of `import c : com; c` realises the module; that of a
/// command's name doesn't without its joint. That of `import c : var w; c` does exactly where w is a width.
pub fn small_ports()
    ensures name { NameIsOpen }
    ensures call { CallIsModule }
    ensures unjoined { UnjoinedIsNotOpen }
    ensures variable { VariableIsModule }
{
    ports();
    names();
    small_names();
    small_realisers();
}
