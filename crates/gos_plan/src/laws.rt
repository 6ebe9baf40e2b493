// What the definitions give for every plan and every text. Each theorem is the contract of a function that does
// nothing.
ghost use Rattle.std.specs.Prelude.{List, ℕ};
ghost use Rattle.gos_plan.specs.Sides.{PairsJoin, FunctionsJoin, SidesTurnBack};
ghost use Rattle.gos_plan.specs.Turns.{OneTokenEach};
ghost use Rattle.gos_plan.specs.Orderly.{OrderlyHoldsOne};
ghost use Rattle.gos_plan.specs.Decided.{ElementsLeadOneWay, OrderIsDecided, ListsAreDecided, OrderlyIsPossible};
ghost use Rattle.gos_plan.specs.Projection.{PartsFire};
ghost use Rattle.gos_plan.specs.Accounts.{HeldTokens, PartsFillPlaces};
ghost use Rattle.gos_plan.specs.Staying.{TokensStay, PartsTakeWhatLay};
ghost use Rattle.gos_plan.specs.TokenBits.{AllStayFit, IdleFits, LiteralsFit};
ghost use Rattle.gos_plan.specs.Joining.{JoiningIsOne};
ghost use Rattle.gos_plan.specs.SmallPlans.{SkipRunsInOrder, HasteIsNoOrder, SkipIsJoined};
ghost use Rattle.gos_plan.specs.SmallCalls.{CallRunsInOrder, UnaskedIsNoOrder};
ghost use Rattle.gos_plan.specs.SmallArrays.{
  EntryClears,
  AccessAsks,
  ReadIsAtIndex,
  WriteIsAtIndex,
  OneAtATime,
  ServesItsType,
  LengthsAreKept,
  SmallNumbersFit,
};
ghost use Rattle.gos_plan.specs.ObjectFaults.{IsOnePlan, ReadHasNoFault, HasOneFault, OneReadsAsTwo, OneHasNoArrays};
ghost use Rattle.gos_plan.specs.Formats.{FormatsHaveWidths};

/// The handshakes of a product and of a function are those of their sides, one behind the other and none lost, where
/// the argument of a function is seen from its other side. The other side of the other side is the side itself.
pub fn sides()
    ensures pair { PairsJoin }
    ensures function { FunctionsJoin }
    ensures turned { SidesTurnBack }
{}

/// A plan without a Share holds at most one token for each joint, while its inputs alternate with its outputs.
pub fn one_token_each()
    ensures { OneTokenEach }
{}

/// An orderly list leaves at most one token on each joint, also in a plan with a Share.
pub fn orderly_holds_one()
    ensures { OrderlyHoldsOne }
{}

/// A possible element leads to one token state, and whether it comes in order can be told. So it can be told whether
/// a possible list is orderly. Orderly lists are possible.
pub fn orderly_is_decided()
    ensures one { ElementsLeadOneWay }
    ensures element { OrderIsDecided }
    ensures list { ListsAreDecided }
    ensures possible { OrderlyIsPossible }
{}

/// In an orderly list of a plan each part fires by its own rows, and puts each request where none waits. So the law
/// of a part's gates speaks of it.
pub fn parts_fire()
    ensures { PartsFire }
{}

/// Over an orderly list each place of a joint adds up, in tokens and in numbers: what lies there at the end and what
/// was taken are what lay there and what was put. What parts put is what they put by their rows.
pub fn held_tokens()
    ensures each { HeldTokens }
    ensures parts { PartsFillPlaces }
{}

/// Over an orderly list what lies in a place stays until it is taken. So parts take what lay there before the list,
/// where they take no more than that.
pub fn tokens_stay()
    ensures stay { TokensStay }
    ensures take { PartsTakeWhatLay }
{}

/// A token has at most the bits of its handshake, and a number that a part works with at most those of its width,
/// after every list from an idle state, where each literal fits. So it is with the kinds in range.
pub fn tokens_fit()
    ensures idle { IdleFits }
    ensures stay { AllStayFit }
    ensures literals { LiteralsFit }
{}

/// Joining plans gives one plan, but for the order of its joints.
pub fn one_joining()
    ensures { JoiningIsOne }
{}

/// The plan of `skip` has orderly lists and others. Joined to the plan of `fun a . a` it is itself.
pub fn small_plans()
    ensures order { SkipRunsInOrder }
    ensures haste { HasteIsNoOrder }
    ensures joined { SkipIsJoined }
{}

/// The plan of `import c : com; c` has a joint and no part. The list in which it is run, runs `c`, and is run again when it
/// is done is orderly. A list that begins with the answer of `c` is not.
pub fn small_calls()
    ensures order { CallRunsInOrder }
    ensures unasked { UnaskedIsNoOrder }
{}

/// An array of two numbers has zeros at each entry. An access asks for its index, and is answered when that is there; meanwhile it
/// takes nothing else. An array serves the handshakes of its type. Its length is 2, 4, 8 or 16, its numbers have its bits.
pub fn small_arrays()
    ensures entry { EntryClears }
    ensures asks { AccessAsks }
    ensures read { ReadIsAtIndex }
    ensures write { WriteIsAtIndex }
    ensures one { OneAtATime }
    ensures serves { ServesItsType }
    ensures lengths { LengthsAreKept }
    ensures numbers { SmallNumbersFit }
{}

/// A text is of one format and that of one plan at most, so that `read_object` and `print_object` are inverse to one another. It has
/// one answer at most: it is read, or it has one fault.
pub fn one_answer()
    ensures plan { (text : List ℕ) → IsOnePlan text }
    ensures read { (text : List ℕ) → ReadHasNoFault text }
    ensures fault { (text : List ℕ) → HasOneFault text }
{}

/// A text of format 1 reads as the same plan where the 1 of its first line is written as 2. An array has no text of format 1,
/// nor has a width above 32.
pub fn two_formats()
    ensures reads { OneReadsAsTwo }
    ensures arrays { OneHasNoArrays }
    ensures widths { FormatsHaveWidths }
{}
