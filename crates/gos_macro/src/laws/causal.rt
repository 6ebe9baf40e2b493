// What the definitions give. Each theorem is the contract of a function that does nothing.
ghost use Rattle.gos_macro.specs.causal.Causal.{CausalLaw, LateIsUnseen};
ghost use Rattle.gos_macro.specs.causal.SmallCausal.{SkipFiresPartly, SkipFiresByNone, SkipIsCausal, SkipShowsItsAnswer, TwoAreNotShown, DemandIsNeeded};

/// What the gates of a part show at a handshake is what some firings of the cycle put there, if that is one token at most: those
/// by the pulses of a set of handshakes, where each that passes on to this one is in the set, or has no pulse.
pub fn gates_are_causal()
    ensures { CausalLaw }
{}

/// What the gates of a part show doesn't depend on what comes in late.
pub fn late_is_unseen()
    ensures { LateIsUnseen }
{}

/// Skip can fire by its request and by no pulse, and its gates show the answer alone. So the law needs its demand on the
/// handshakes that pass on. Of a handshake at which two tokens are due nothing is said.
pub fn skip_is_causal()
    ensures fires { SkipFiresPartly }
    ensures rests { SkipFiresByNone }
    ensures causal { SkipIsCausal }
    ensures shows { SkipShowsItsAnswer }
    ensures two { TwoAreNotShown }
    ensures needed { DemandIsNeeded }
{}
