// Small cases of what a store's calls are. Each theorem is the contract of a function that does nothing.

ghost use Rattle.gos_outside.specs.SmallCalls.{TwoAreMade, NoneFollows, NoneComesTwice};

/// Two calls are made in their order; none follows one that failed, and none comes twice.
pub fn small_calls()
    ensures two { TwoAreMade }
    ensures none_follows { NoneFollows }
    ensures once { NoneComesTwice }
{}
