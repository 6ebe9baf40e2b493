// Laws of the definitions. Each is the contract of a function that does nothing.
ghost use Rattle.gos_witness.specs.Find.{ExplainedIsNotRefused, OneIsNotTrace};
ghost use Rattle.gos_witness.specs.SmallFinds.{DoneIsNotFirst, FirstIsRight, RunIsNotSecond, SkipIsNotLarge, SkipIsNotRefused, SkipIsNotSpent, SkipTakesNoSteps};
ghost use Rattle.gos_witness.specs.SmallLines.{OneIsLeft, SharedCountsTwice, SharedIsSeen, SkipIsExplained, SkipMakesNoStep};
ghost use Rattle.gos_witness.specs.SmallSteps.{FirstIsRead, FirstIsWritten, IndexIsReached, IndexIsRead, IndexIsWritten, LeastIsTaken};
ghost use Rattle.gos_witness.specs.Verify.{AlwaysOneAnswer, ExplainedIsTrace};

/// Where lines explain labels, the labels are a trace of the program, whoever wrote the lines.
pub fn explained_is_trace()
    ensures { ExplainedIsTrace }
{}

/// Of any lines and labels one answer of `verify` is right at most: they explain the labels, or there is one fault.
pub fn one_answer_of_lines()
    ensures { AlwaysOneAnswer }
{}

/// Small lists of lines: two lines explain what `export skip : com` shows, one leaves a label, and `skip` makes no step. And a
/// term of two nodes of which one stands in it twice has three.
pub fn small_lines()
    ensures skip { SkipIsExplained }
    ensures left { OneIsLeft }
    ensures no_step { SkipMakesNoStep }
    ensures seen { SharedIsSeen }
    ensures counts { SharedCountsTwice }
{}

/// Small computation steps: of a variable's location the number at index 0 is read and written, and no other. A location that the
/// store lacks, or that has no number, is neither read nor written. Of an array the number at the index is, once a line at 0, 1 has
/// evaluated it; outside the array there is none. A new variable or array takes the least location that is new.
pub fn small_steps()
    ensures read { FirstIsRead }
    ensures written { FirstIsWritten }
    ensures least { LeastIsTaken }
    ensures index_reached { IndexIsReached }
    ensures index_read { IndexIsRead }
    ensures index_written { IndexIsWritten }
{}

/// Of any labels one at most is the first that can't come behind those before it; and where lines explain the labels there is none.
pub fn one_is_not_trace()
    ensures one { OneIsNotTrace }
    ensures explained { ExplainedIsNotRefused }
{}

/// Small lists of labels of `export skip : com`. An answer is no first label, and a second request is none behind the first; but the
/// first request is right. No label of the trace is refused: none takes a step, and no term is too large.
pub fn small_finds()
    ensures first { DoneIsNotFirst }
    ensures second { RunIsNotSecond }
    ensures right { FirstIsRight }
    ensures refused { SkipIsNotRefused }
    ensures steps { SkipTakesNoSteps }
    ensures spent { SkipIsNotSpent }
    ensures large { SkipIsNotLarge }
{}
