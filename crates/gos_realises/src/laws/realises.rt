// What the definitions give. Each theorem is the contract of a function that does nothing.
ghost use Rattle.gos_realises.specs.realises.Alone.{AloneIsItself, OrderIsFree, SkipModuleIsRealised};
ghost use Rattle.gos_realises.specs.realises.Functions.{HeadsAreRealised, SameIsRealised};
ghost use Rattle.gos_realises.specs.realises.Fitting.{AppliedFits, SidesFit, VariablesFit, SuppliedFits};
ghost use Rattle.gos_realises.specs.realises.Inputs.{ProtocolKeepsTurns, PortsKeepTurns, TurnsKeepPorts, MatchingSuffices, RealisingIsByTurns};
ghost use Rattle.gos_realises.specs.realises.Renumbered.{RenumberingKeeps};
ghost use Rattle.gos_realises.specs.realises.SmallLinks.{SameFits, NumberDoesNotFit, TwiceDoesNotFit, PartDoesNotFit, NowhereDoesNotFit, SkipIsSlim, WeightIsNeeded};
ghost use Rattle.gos_realises.specs.realises.SmallTurns.{SkipIsRegular, BothSidesAreNot};
ghost use Rattle.gos_realises.specs.realises.SmallRealisers.{SkipIsRealised, NameIsRealised, UseIsRealised, ListsAreTraces};
ghost use Rattle.gos_realises.specs.realises.OtherPlans.{EmptyIsNotSkip, EmptyIsNoFunction, OrderIsTold, OtherTypesAreNot, NoNumberIsDone, WildIsNot, LargeDoesNotSuit, FunctionImportDoesNotSuit, WideFunctionIsNone, WideImportIsNone};

/// The plan of `skip` keeps turns. One that asks both sides of a product at once does not.
pub fn turns()
    ensures skip { SkipIsRegular }
    ensures both { BothSidesAreNot }
{}

/// Links fit where both ends are there and have one handshake from its two sides, and nothing is linked twice.
pub fn small_links()
    ensures same { SameFits }
    ensures number { NumberDoesNotFit }
    ensures twice { TwiceDoesNotFit }
    ensures part { PartDoesNotFit }
    ensures nowhere { NowhereDoesNotFit }
{}

/// The plan of `skip` is slim, by its weight.
pub fn slim()
    ensures skip { SkipIsSlim }
    ensures weight { WeightIsNeeded }
{}

/// The plans of `skip` and of a name realise them, and that of the use of a function does, whatever stands for the
/// function.
pub fn small_realisers()
    ensures skip { SkipIsRealised }
    ensures name { NameIsRealised }
    ensures applied { UseIsRealised }
{}

/// What a plan shows is a trace of the program that it realises.
pub fn lists_are_traces()
    ensures { ListsAreTraces }
{}

/// Plans that do too little or something else realise nothing; nor do those of another type, with ends that are
/// not there, with a number that is larger than its width, or with an import that is no port. No module is realised
/// by a plan of a function of a variable of 65 bits, or with such an import.
pub fn others_are_refused()
    ensures empty { EmptyIsNotSkip }
    ensures function { EmptyIsNoFunction }
    ensures order { OrderIsTold }
    ensures other { OtherTypesAreNot }
    ensures number { NoNumberIsDone }
    ensures wild { WildIsNot }
    ensures large { LargeDoesNotSuit }
    ensures function_import { FunctionImportDoesNotSuit }
    ensures wide_function { WideFunctionIsNone }
    ensures wide_import { WideImportIsNone }
{}

/// The links of the relation fit.
pub fn links()
    ensures applied { AppliedFits }
    ensures sides { SidesFit }
    ensures variables { VariablesFit }
    ensures supplied { SuppliedFits }
{}

/// A plan joined to nothing is itself, but for the order of its joints, which nobody sees; so the plan of `skip` realises
/// its module.
pub fn alone()
    ensures itself { AloneIsItself }
    ensures order { OrderIsFree }
    ensures module { SkipModuleIsRealised }
{}

/// Unfolding a head changes nothing that is seen; and the plan of `fun a : com . a` realises it.
pub fn functions()
    ensures heads { HeadsAreRealised }
    ensures same { SameIsRealised }
{}

/// Inputs that keep the protocol keep turns, in a regular plan of a command or an expression; so its lists are orderly, and
/// it realises a program where they are matched. At ports that are ground or of arrays the protocol and turns are the same,
/// and to realise is to match each list whose inputs keep turns.
pub fn inputs()
    ensures turns { ProtocolKeepsTurns }
    ensures ports { PortsKeepTurns }
    ensures labels { TurnsKeepPorts }
    ensures matching { MatchingSuffices }
    ensures by_turns { RealisingIsByTurns }
{}

/// Renumbering the parts of a plan keeps it regular, and realising its program.
pub fn renumbering()
    ensures { RenumberingKeeps }
{}
