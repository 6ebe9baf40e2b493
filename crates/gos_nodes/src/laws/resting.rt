// What the definitions give. Each theorem is the contract of a function that does nothing.
ghost use Rattle.gos_nodes.specs.resting.Restful.{RestfulRests};

/// A regular plan of a command or an expression rests after its answer exactly where it rests whenever nothing is open at
/// its ports.
pub fn resting()
    ensures { RestfulRests }
{}
