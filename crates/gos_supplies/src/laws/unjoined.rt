// What the definitions give. Each theorem is the contract of a function that does nothing.
ghost use Rattle.gos_supplies.specs.unjoined.Homes.{WebIsBeside};
ghost use Rattle.gos_supplies.specs.unjoined.Loose.{LooseIsDone, LooseIsRealised, LooseIsRegular, LooseRests};
ghost use Rattle.gos_supplies.specs.unjoined.SmallBeside.{JoinedIsNotBeside, OtherIsNotHome, SkipIsBeside, SkipIsHome};

/// The plan of a web stands beside what no tie joins to that web.
pub fn web_is_beside()
    ensures { WebIsBeside }
{}

/// A plan with loose parts and loose imports beside it is regular where it is by itself, and rests where it does.
pub fn loose_is_regular()
    ensures regular { LooseIsRegular }
    ensures rests { LooseRests }
{}

/// And realises the programs of commands and expressions that it realises by itself.
pub fn loose_is_done()
    ensures { LooseIsDone }
{}

/// And those of any type.
pub fn loose_is_realised()
    ensures { LooseIsRealised }
{}

/// The plan of `skip` stands beside another Skip, but not where that one is joined to the result.
pub fn small_beside()
    ensures met { SkipIsBeside }
    ensures missed { JoinedIsNotBeside }
    ensures home { SkipIsHome }
    ensures other { OtherIsNotHome }
{}
