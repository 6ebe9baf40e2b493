// What a running term ends with. Each theorem is the contract of a function that does nothing.
ghost use Rattle.gos_programs.specs.results.Results.{AnswersAreTyped, ResultsAreTyped, RunsKeepTypes};
ghost use Rattle.gos_programs.specs.results.GroundImports.{ArraysAsk, NoIndexIsAsked};
ghost use Rattle.gos_programs.specs.results.SmallResults.{
  AccessesHaveTypes,
  NoLocation,
  OneBitFits,
  SharingIsNotAsked,
  SomeResults,
  WaitsHaveTypes,
  WritesFit,
};

/// What a typed source becomes in a run has its type, so a value is one of the type, and it answers the number of that value.
pub fn results()
    ensures runs { RunsKeepTypes }
    ensures values { ResultsAreTyped }
    ensures answers { AnswersAreTyped }
{}

/// Where all imports are ground no array asks for an index in a run, so no place in an index of an import is reached; where one
/// is an array's, that array may ask.
pub fn ground_imports()
    ensures ground { NoIndexIsAsked }
    ensures arrays { ArraysAsk }
{}

/// Small running terms and stores that meet the definitions of this crate, and others that miss them.
pub fn small_results()
    ensures writes { WritesFit }
    ensures nowhere { NoLocation }
    ensures waits { WaitsHaveTypes }
    ensures accesses { AccessesHaveTypes }
    ensures sharing { SharingIsNotAsked }
    ensures fits { OneBitFits }
    ensures results { SomeResults }
{}
