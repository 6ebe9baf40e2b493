// The laws of gates hold of small ones, and refuse others.
ghost use Rattle.gos_macro.specs.SmallGates.{SkipGates, SharedGates, SilenceIsNoAnswer, ChoiceShowsOne, RepeatShowsOne, RequestsFirst, AnswerFirst, GatesOfTheOrder, GatesOfAnotherOrder, OrderCounts, SecondAsksFirst, SecondAsksLast, OrderIsSeen, HoldsSilently, HeldIsNotSilent};
ghost use Rattle.gos_macro.specs.SmallPaths.{SkipPaths, SkipIsNoDeadEnd, SkipPuts, SkipPutsSomething, ChoicePutsLate, ChoicePutsEarly, AnswerFirstPaths, AnswerLastPaths, SharedAnswersPass, SharedRequestsWait, SharedAnswersAreNotLate, CountingIsNotNamed};

/// The gates of Skip keep the laws in each order, and so do those of a Share of a command. Gates of Skip that answer nothing
/// don't keep the law of a cycle. Those of a choice that holds no request fail the law that asks for each handshake to be shown,
/// since two answers can be due on one net; and so do those of a repeated command that asks for its first test at once, since
/// two requests can be.
pub fn small_gates()
    ensures skip { SkipGates }
    ensures share { SharedGates }
    ensures silence { SilenceIsNoAnswer }
    ensures choice { ChoiceShowsOne }
    ensures repeat { RepeatShowsOne }
{}

/// Firings come by the ranks of their handshakes, and at equal ranks by the number. A Share answers the caller that asked last,
/// so the order of two requests in one cycle is seen.
pub fn small_orders()
    ensures ranks { RequestsFirst }
    ensures numbers { AnswerFirst }
    ensures second_first { SecondAsksFirst }
    ensures second_last { SecondAsksLast }
    ensures seen { OrderIsSeen }
{}

/// Gates of a Share that passes on all within the cycle keep the law in the order that they are made for, and don't keep it in
/// another, so they don't keep the laws in each order. A caller's request leads to its answer, which closes a cycle, where the
/// answer comes last.
pub fn gates_of_an_order()
    ensures own { GatesOfTheOrder }
    ensures other { GatesOfAnotherOrder }
    ensures each { OrderCounts }
    ensures answer_first { AnswerFirstPaths }
    ensures answer_last { AnswerLastPaths }
{}

/// A number that is held goes out by its pulse, or it is seen when there is none.
pub fn held_numbers()
    ensures silent { HoldsSilently }
    ensures seen { HeldIsNotSilent }
{}

/// The request of Skip goes on as its answer, and one can't say that it doesn't. A Share of a command passes on the answer
/// of its source within the cycle, and no request, so that this answer isn't late. A cell that shows the number of a net doesn't know it by name alone.
/// What Skip puts goes where its request leads; what a choice puts by its caller's request needs a path, unless it is late.
pub fn small_paths()
    ensures skip { SkipPaths }
    ensures no_dead_end { SkipIsNoDeadEnd }
    ensures puts { SkipPuts }
    ensures puts_something { SkipPutsSomething }
    ensures puts_late { ChoicePutsLate }
    ensures puts_early { ChoicePutsEarly }
    ensures answers { SharedAnswersPass }
    ensures requests { SharedRequestsWait }
    ensures late { SharedAnswersAreNotLate }
    ensures counting { CountingIsNotNamed }
{}
