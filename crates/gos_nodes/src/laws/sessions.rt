// What the definitions give. Each theorem is the contract of a function that does nothing.
ghost use Rattle.gos_nodes.specs.sessions.Sessions.{TablesAreRight};

/// What the own part of a form does with its request, and with each answer of a child, is what its term does; and it takes
/// no other token.
pub fn tables_are_right()
    ensures { TablesAreRight }
{}
