// What the definitions say. Each theorem is the contract of a function that does nothing.
ghost use Rattle.gos_tidy.specs.Laws.{PulledBack, ReducedAgain, ReducedOnce, SteadiedOnce};
ghost use Rattle.gos_tidy.specs.SmallTidy.{
  ChosenIsNotTidy,
  EndIsNotSteadied,
  FoldedIsNotTidy,
  FoldingIsTidied,
  HeldIsNotSteadied,
  HeldIsTidy,
  IdleIsNotTidy,
  InputsStay,
  InputsStayApart,
  LatchIsTidied,
  LoopIsSteadied,
  MixedIsNotTidy,
  OneIsNotSteadied,
  OtherSideIsNotMapped,
  RegisterIsNotFolded,
  SilentIsNotAlike,
  SpareIsNotTidy,
  TurnedIsNotTidy,
  TwiceIsNotTidy,
};

/// Cells that are mapped to others show what these show: each single change keeps what all nets have. A Mux goes to no
/// side but the one that its selector chooses, and a register is no constant.
pub fn mapped_cells()
    ensures shown { PulledBack }
    ensures side { OtherSideIsNotMapped }
    ensures register { RegisterIsNotFolded }
{}

/// A netlist that is reduced is accepted where it was, has the same ports, and the same outputs in every cycle for every
/// list of inputs in range; it keeps pace with each program with which it did. Inputs aren't merged, nor left out.
pub fn reduced_netlists()
    ensures once { ReducedOnce }
    ensures steadied { SteadiedOnce }
    ensures again { ReducedAgain }
    ensures apart { InputsStayApart }
    ensures inputs { InputsStay }
{}

/// A latch with a register too many is made tidy by leaving that out, and a gate goes whose selector folds. Cells aren't tidy
/// where two are equal, where one could be another net or a constant, or where one leads nowhere. A register may read a constant.
pub fn small_netlists()
    ensures latch { LatchIsTidied }
    ensures folding { FoldingIsTidied }
    ensures twice { TwiceIsNotTidy }
    ensures spare { SpareIsNotTidy }
    ensures chosen { ChosenIsNotTidy }
    ensures turned { TurnedIsNotTidy }
    ensures mixed { MixedIsNotTidy }
    ensures folded { FoldedIsNotTidy }
    ensures idle { IdleIsNotTidy }
    ensures held { HeldIsTidy }
{}

/// Cells become constants that show one number for ever: a register that reads itself through an And, but none that reads itself
/// through an Or, or reads 1, and none that is an output.
pub fn steady_netlists()
    ensures looped { LoopIsSteadied }
    ensures held { HeldIsNotSteadied }
    ensures one { OneIsNotSteadied }
    ensures end { EndIsNotSteadied }
{}

/// A circuit that answers and one that never does aren't alike.
pub fn unlike_netlists()
    ensures { SilentIsNotAlike }
{}
