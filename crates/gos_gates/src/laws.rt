// What the definitions say, in small. Each theorem is the contract of a function that does nothing.
ghost use Rattle.gos_gates.specs.SmallLowered.{LackingIsNotLowered, LatchIsLowered, LatchIsSmall, TurnedIsNotLowered};

/// A latch is lowered to a circuit of one gate. It isn't to one that takes a complement for the other literal, nor to one that
/// lacks a latch. Its bits are counted.
pub fn small_lowered()
    ensures latch { LatchIsLowered }
    ensures turned { TurnedIsNotLowered }
    ensures lacking { LackingIsNotLowered }
    ensures small { LatchIsSmall }
{}
