// What typed terms mean. Each theorem is the contract of a function that does nothing.
ghost use Rattle.gos_terms.specs.meanings.Meanings.{BodyIsInstantiated, ModuleIsSupplied, SkipHasLeaves, VariableIsNoLeaf};

/// A binder's body with a closed term in it, and a module's term with its supplies, mean what they mean where the binder's
/// number, and the imports' numbers, stand for these.
pub fn meanings()
    ensures body { BodyIsInstantiated }
    ensures module { ModuleIsSupplied }
{}

/// A node of `skip` has leaves alone, and one of a variable has not.
pub fn small_meanings()
    ensures met { SkipHasLeaves }
    ensures missed { VariableIsNoLeaf }
{}
