// Laws of a term that has a location in the place of an import of an array. Each is the contract of a function that does nothing.
ghost use Rattle.gos_programs.specs.arrays.LocalArray.{
  BodiesAreArrayed,
  SourcesStandClear,
  OtherMovesStand,
  StagesLead,
  ReadEndsAt,
  WriteEndsAt,
};
ghost use Rattle.gos_programs.specs.arrays.ArrayWaits.{ArrayedWaits};
ghost use Rattle.gos_programs.specs.arrays.SmallLocalArrays.{StagesAreTold, OneStands, LocationIsPut, HomesAreApart, AskedIsAnswered};

/// What a term shows at an import of an array it does with the store, with a location in its place: the end of an access is a
/// computation step, and all that comes before is nothing. All else is the same.
pub fn local_arrays()
    ensures bodies { BodiesAreArrayed }
    ensures sources { SourcesStandClear }
    ensures other { OtherMovesStand }
    ensures lead { StagesLead }
    ensures read { ReadEndsAt }
    ensures write { WriteEndsAt }
{}

/// Where the array has answered all, and the term with the import can only wait, so can the term with the location.
pub fn arrayed_terms()
    ensures waits { ArrayedWaits }
{}

/// Small terms that meet the definitions of this chapter, and others that miss them.
pub fn small_local_arrays()
    ensures told { StagesAreTold }
    ensures one { OneStands }
    ensures put { LocationIsPut }
    ensures homes { HomesAreApart }
    ensures answered { AskedIsAnswered }
{}
