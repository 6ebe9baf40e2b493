// Laws of a term that has a location in the place of an import of a variable. Each is the contract of a function that does nothing.
ghost use Rattle.gos_programs.specs.variables.Waits.{
  SourcesDoNotWait,
  NoWaitIsZero,
  ZeroIsNoWait,
  UnfoldingsKeepWaits,
  WaitsAreCounted,
};
ghost use Rattle.gos_programs.specs.variables.PlacedBack.{PlacedMovesBack, PlacedWaits};
ghost use Rattle.gos_programs.specs.variables.Unfolded.{UnfoldingsMeet, ActsStay, WaitsBefore};
ghost use Rattle.gos_programs.specs.variables.SmallVariables.{OneWaits, WaitIsReached, IndexWaitsToo, LabelsAreCounted, AnswersAreNotActive};

/// How many waits at a port stand in a term, move by move.
pub fn waits_at_ports()
    ensures sources { SourcesDoNotWait }
    ensures zero { NoWaitIsZero }
    ensures none { ZeroIsNoWait }
    ensures unfoldings { UnfoldingsKeepWaits }
    ensures counted { WaitsAreCounted }
{}

/// What a term with a location does comes from the term with the import.
pub fn placed_moves()
    ensures back { PlacedMovesBack }
    ensures waits { PlacedWaits }
{}

/// A term that unfolds to one that can only wait can only wait.
pub fn unfolded_terms()
    ensures meet { UnfoldingsMeet }
    ensures stay { ActsStay }
    ensures waits { WaitsBefore }
{}

/// Small terms that meet the definitions of this crate, and others that miss them.
pub fn small_variables()
    ensures one { OneWaits }
    ensures reached { WaitIsReached }
    ensures index { IndexWaitsToo }
    ensures counted { LabelsAreCounted }
    ensures active { AnswersAreNotActive }
{}
