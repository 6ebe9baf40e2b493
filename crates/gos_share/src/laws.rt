// Laws on small cases, which show what the definitions say.

ghost use Rattle.gos_share.specs.SmallPassing.{CommandPasses, VariablePasses, FunctionPasses};

/// Where paths without registers lead through a Share of a command, of a variable, and of a function.
pub fn small_passing()
    ensures command { CommandPasses }
    ensures variable { VariablePasses }
    ensures function { FunctionPasses }
{}
