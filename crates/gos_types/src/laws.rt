// Laws of the definitions. Each is the contract of a function that does nothing.
ghost use Rattle.gos_types.specs.Handshakes.{TurningTwice};
ghost use Rattle.gos_types.specs.Sides.{PairsHaveSides, FunctionsHaveSides};
ghost use Rattle.gos_types.specs.Ports.{SomePorts, OthersAreNoPorts, ArrayShakes};
ghost use Rattle.gos_types.specs.Widths.{HaveGreatest, WiderHasRoom, GreatestAre, NextAreWider, GreatestIsWidth};

/// Handshakes turned twice are the handshakes themselves.
pub fn turning_twice()
    ensures { TurningTwice }
{}

/// The handshakes of a product and of a function are those of their sides, one behind the other and none lost, where
/// the argument of a function is seen from its other side.
pub fn sides()
    ensures pair { PairsHaveSides }
    ensures function { FunctionsHaveSides }
{}

/// A ground type may be a port, and so may that of an array, and no other function and no product. An array asks for its
/// index, and serves its reads and its writes.
pub fn ports()
    ensures some { SomePorts }
    ensures others { OthersAreNoPorts }
    ensures shakes { ArrayShakes }
{}

/// Of each width there is a greatest number, and a wider one has room for it. At 1, 32, 63 and 64 bits these are said in
/// digits. The greatest width is one, and its greatest number is the greatest of all.
pub fn greatest_numbers()
    ensures greatest { HaveGreatest }
    ensures room { WiderHasRoom }
    ensures digits { GreatestAre }
    ensures next { NextAreWider }
    ensures width { GreatestIsWidth }
{}
