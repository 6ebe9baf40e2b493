// What the definitions say, in small, and of every plan. Each theorem is the contract of a function that does nothing.
ghost use Rattle.gos_pace.specs.SmallPace.{LatchFlattens, SilentLags, SkipKeepsPace};
ghost use Rattle.gos_pace.specs.SmallInputs.{
  AnswerIsClean,
  StrayIsInRange,
  WideIsNotInRange,
  GivingIsSilent,
};
ghost use Rattle.gos_pace.specs.AnyOrder.{OneOrderIsEnough};
ghost use Rattle.gos_pace.specs.SmallCycles.{CallIsListed, EagerIsNotListed, SkipIsListed};

/// The pulses of a latch are run in cycle 0, and done in all later ones.
pub fn latch_pulses()
    ensures { LatchFlattens }
{}

/// The circuit of `skip` keeps pace with it, for all inputs in range that keep the protocol, and one that never answers does not.
pub fn keeping_pace()
    ensures keeps { SkipKeepsPace }
    ensures silent { SilentLags }
{}

/// An answer with its number is a clean input. A number without its pulse is in range all the same, and not clean; one
/// of more bits than its net is not in range. An output with its number is silent, and a number that goes out alone is
/// not.
pub fn small_inputs()
    ensures clean { AnswerIsClean }
    ensures stray { StrayIsInRange }
    ensures wide { WideIsNotInRange }
    ensures silent { GivingIsSilent }
{}

/// A cycle that is made with its pulses in the order of events is made with them in every order, where each has an
/// end of its own.
pub fn any_order()
    ensures { OneOrderIsEnough }
{}

/// The cycles of the circuit that answers each run in the next cycle are lists of the plan of `skip`; those of a circuit
/// that answers unasked are not. Cycles in which the circuit of `import c : com; c` is run, runs `c`, and is run again
/// when it is done are lists of its plan.
pub fn small_cycles()
    ensures cycles { SkipIsListed }
    ensures eager { EagerIsNotListed }
    ensures listed { CallIsListed }
{}
