// Laws of terms within terms. Each is the contract of a function that does nothing.
ghost use Rattle.gos_programs.specs.contexts.Plugged.{
  StepsPlugged,
  UnfoldingsPlugged,
  ActsPlugged,
  MovePlugged,
  MovesPlugged,
};
ghost use Rattle.gos_programs.specs.contexts.Backward.{
  UnfoldingsWithin,
  UnfoldingsOfBoth,
  StepsWithin,
  StepsOfBoth,
  LabelsWithin,
  LabelsOfBoth,
  MoveOfContext,
  NoAnswerOfContext,
  MoveOfBoth,
  WaitsWithin,
  BothWait,
  RightWaits,
  LeftWaits,
};
ghost use Rattle.gos_programs.specs.contexts.Scopes.{SourcesAreShut, MovesKeepScopes, RunsKeepScopes, EndsEmpty};
ghost use Rattle.gos_programs.specs.contexts.Standing.{RunsStay};
ghost use Rattle.gos_programs.specs.contexts.Beside.{
  SourcesHaveNoLocations,
  ValuesHaveNoLocations,
  UnfoldingsRenamed,
  UnfoldingsOfRenamed,
  ActsRenamed,
  ActsBeside,
  MoveBeside,
  MoveWithin,
  MovesWithin,
  RunsWithin,
  WholeRunsWithin,
  WaitsBeside,
  WaitsBesideWithin,
};
ghost use Rattle.gos_programs.specs.contexts.Widening.{
  SourcesAreKnown,
  RunsAreKnown,
  MoveWidens,
  MovesWiden,
  MoveNarrows,
  WaitsWidely,
};
ghost use Rattle.gos_programs.specs.contexts.SameStores.{SwappedSame, MoveSame, MovesSame, WaitsSame};
ghost use Rattle.gos_programs.specs.contexts.Together.{
  TwoRenamings,
  HoldsBoth,
  MoveTogether,
  MovesTogether,
  RunTogether,
  WaitsTogether,
  BothWaitTogether,
  RightWaitsTogether,
  LeftWaitsTogether,
};
ghost use Rattle.gos_programs.specs.contexts.LocalVariable.{
  BodiesArePlaced,
  OtherMoves,
  ReadAsked,
  ReadAnswered,
  WriteAsked,
  WriteAnswered,
  UnfoldingsBefore,
};
ghost use Rattle.gos_programs.specs.contexts.Ends.{RightWaitsForEnded, LeftWaitsForEnded};
ghost use Rattle.gos_programs.specs.contexts.SmallContexts.{SidesAreNotAlone, RequestsAreNotInner, BlocksOpenInPlace, BlocksOpenInIndex, IndexIsNotAlone, StoresKeepScopes, LocationsStand, LocationsAreScoped, BlocksDiffer, BlockIsRenamed, RenamingsTellApart, ZeroIsFree, NoneAreAmongSome, NamesAreKnown, EntriesInAnyOrder, StoresAreApart, StoreIsHeld, LocationIsPlaced, OthersAreLeft, HomeIsApart, LabelsElsewhere};

/// What a term does it does also at a reached place of another one.
pub fn moves_within()
    ensures steps { StepsPlugged }
    ensures unfoldings { UnfoldingsPlugged }
    ensures acts { ActsPlugged }
    ensures one { MovePlugged }
    ensures all { MovesPlugged }
{}

/// What a context does comes from the term that stands there, or from a row of its own where that is a value.
pub fn moves_of_contexts()
    ensures unfoldings { UnfoldingsWithin }
    ensures unfoldings_of_both { UnfoldingsOfBoth }
    ensures steps { StepsWithin }
    ensures steps_of_both { StepsOfBoth }
    ensures labels { LabelsWithin }
    ensures labels_of_both { LabelsOfBoth }
    ensures one { MoveOfContext }
    ensures no_answer { NoAnswerOfContext }
    ensures one_of_both { MoveOfBoth }

    // A term with its store that can only wait does so in a context too.
    ensures waits { WaitsWithin }
    ensures both { BothWait }
    ensures right { RightWaits }
    ensures left { LeftWaits }
{}

/// Each location of the store is that of an open block, so at the end of a run the store is empty.
pub fn scopes_of_runs()
    ensures sources { SourcesAreShut }
    ensures moves { MovesKeepScopes }
    ensures runs { RunsKeepScopes }
    ensures ends { EndsEmpty }
{}

/// In a run of a source each location stands within its block, and has its entry in the store.
pub fn locations_of_runs()
    ensures { RunsStay }
{}

/// What a term does it does renamed too, and what a renamed one unfolds to is an unfolding renamed.
pub fn renamed_terms()
    ensures sources { SourcesHaveNoLocations }
    ensures values { ValuesHaveNoLocations }
    ensures unfoldings { UnfoldingsRenamed }
    ensures unfoldings_back { UnfoldingsOfRenamed }
    ensures acts { ActsRenamed }
{}

/// A term moves, and waits, beside other locations of the store, and in a context, as it does alone.
pub fn moves_beside()
    ensures acts { ActsBeside }
    ensures one { MoveBeside }
    ensures within { MoveWithin }
    ensures all_within { MovesWithin }
    ensures runs_within { RunsWithin }
    ensures whole_runs { WholeRunsWithin }

    // Where it can only wait.
    ensures waits { WaitsBeside }
    ensures waits_within { WaitsBesideWithin }
{}

/// Under more imports a term moves as it does alone, and not otherwise where all its names are known.
pub fn moves_of_more_imports()
    ensures sources { SourcesAreKnown }
    ensures runs { RunsAreKnown }
    ensures one { MoveWidens }
    ensures all { MovesWiden }
    ensures back { MoveNarrows }
    ensures waits { WaitsWidely }
{}

/// A term does the same on stores that have the same at each location.
pub fn same_stores()
    ensures swapped { SwappedSame }
    ensures one { MoveSame }
    ensures all { MovesSame }
    ensures waits { WaitsSame }
{}

/// What a program does by itself, and where it waits, in a program that has it as a part.
pub fn parts_together()
    ensures renamings { TwoRenamings }
    ensures holds { HoldsBoth }
    ensures one { MoveTogether }
    ensures all { MovesTogether }
    ensures run { RunTogether }

    // Where it can only wait.
    ensures waits { WaitsTogether }
    ensures both { BothWaitTogether }
    ensures right { RightWaitsTogether }
    ensures left { LeftWaitsTogether }
{}

/// What a term shows at an import of a variable it does with the store, where a location stands for the import.
pub fn local_variables()
    ensures bodies { BodiesArePlaced }
    ensures others { OtherMoves }
    ensures read_asked { ReadAsked }
    ensures read_answered { ReadAnswered }
    ensures write_asked { WriteAsked }
    ensures write_answered { WriteAnswered }
    ensures before { UnfoldingsBefore }
{}

/// How `||` waits where one side has ended.
pub fn waits_for_ended()
    ensures right { RightWaitsForEnded }
    ensures left { LeftWaitsForEnded }
{}

/// Small terms and stores that meet the definitions of this crate, and others that miss them.
pub fn small_contexts()
    ensures alone { SidesAreNotAlone }
    ensures inner { RequestsAreNotInner }
    ensures open { BlocksOpenInPlace }
    ensures open_index { BlocksOpenInIndex }
    ensures index { IndexIsNotAlone }
    ensures scopes { StoresKeepScopes }
    ensures stand { LocationsStand }
    ensures scoped { LocationsAreScoped }
    ensures differ { BlocksDiffer }
    ensures renamed { BlockIsRenamed }
    ensures renamings { RenamingsTellApart }
    ensures free { ZeroIsFree }
    ensures among { NoneAreAmongSome }
    ensures known { NamesAreKnown }
    ensures order { EntriesInAnyOrder }
    ensures apart { StoresAreApart }
    ensures held { StoreIsHeld }
    ensures placed { LocationIsPlaced }
    ensures others { OthersAreLeft }
    ensures home { HomeIsApart }
    ensures elsewhere { LabelsElsewhere }
{}
