// What the definitions give. Each theorem is the contract of a function that does nothing.
ghost use Rattle.gos_realises.specs.joined.Joined.{AppliedIsJoined, FittingIsJoined, SidesAreJoined, SuppliedIsJoined, VariablesAreJoined, VariablesHaveWidths};

/// Where links fit there is a joining; and so of a function and its argument, of the sides of a product, of a
/// variable that is read or written, and of a plan and its supplies. So only variables with widths are realised.
pub fn joinings()
    ensures fitting { FittingIsJoined }
    ensures applied { AppliedIsJoined }
    ensures sides { SidesAreJoined }
    ensures variables { VariablesAreJoined }
    ensures supplied { SuppliedIsJoined }
    ensures widths { VariablesHaveWidths }
{}
