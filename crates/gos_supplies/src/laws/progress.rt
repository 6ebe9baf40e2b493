// What a program does at least. Each theorem is the contract of a function that does nothing.
ghost use Rattle.gos_supplies.specs.progress.Progress.{ProgramsBegin, RunsGoOn, UnaskedRunsGoOn};
ghost use Rattle.gos_supplies.specs.progress.Realisers.{RealisersAreJoined};
ghost use Rattle.gos_supplies.specs.progress.SmallProgress.{FunctionImportWaits, SkipBegins, WaitIsStalled, WaitsAreSeen};

/// A command or an expression with ground imports is not stalled when it begins, nor where it waits for no answer.
pub fn progress()
    ensures begin { ProgramsBegin }
    ensures runs { RunsGoOn }
    ensures unasked { UnaskedRunsGoOn }
{}

/// A plan that realises a command or an expression has a joint at its result.
pub fn realisers()
    ensures { RealisersAreJoined }
{}

/// Small programs that begin, and others that can only wait.
pub fn small_progress()
    ensures skip { SkipBegins }
    ensures wait { WaitIsStalled }
    ensures function { FunctionImportWaits }
    ensures waits { WaitsAreSeen }
{}
