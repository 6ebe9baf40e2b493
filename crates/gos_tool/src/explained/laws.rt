// What the definitions give for all files. Each theorem is the contract of a function that does nothing.

ghost use Rattle.gos_tool.specs.explained.Complete.{EmptyIsNotExplained, EmptyIsNotRight, ExplainedIsNotRejected, ExplainedIsRight, VerifiedIsNotRejected};
ghost use Rattle.gos_tool.specs.explained.Headlines.{VerifiesTheHeadline};
ghost use Rattle.gos_tool.specs.explained.Repeated.{VerifyMakesOne};
ghost use Rattle.gos_tool.specs.explained.SmallLinked.{NamesItsFiles, OneIsLinked, OtherIsFree, UnboundIsNotLinked};
ghost use Rattle.gos_tool.specs.explained.SmallRuns.{CallHasLabels, InputIsNotFirst};
ghost use Rattle.gos_tool.specs.explained.Traces.{BuiltTraceIsRead, VerifiesTheRun};

use crate::circuits::right_links;
use crate::objects::accepted_sources;
use gos_link::{one_build, one_face};
use gos_witness::{one_answer, one_answer_of_lines};

/// Files that are right for `verify` are not rejected, nor are those that are right for `explain`. Where the build file or the moves are
/// empty they are not right. What `explain` leaves is right for `verify`, which tells the same.
pub fn right_moves()
    ensures rejected { VerifiedIsNotRejected }
    ensures explained { ExplainedIsNotRejected }
    ensures left { ExplainedIsRight }
    ensures empty { EmptyIsNotRight }
    ensures empty_too { EmptyIsNotExplained }
{
    right_links();
    one_build();
    accepted_sources();
    one_face();
    one_answer();
    one_answer_of_lines();
}

/// Where `verify` is done twice with the same files, it writes nothing and tells the same.
pub fn one_verification()
    ensures { VerifyMakesOne }
{
    one_build();
    accepted_sources();
    one_face();
    one_answer();
}

/// Where the build file and the sources are those of a build that was done, the program whose trace `verify` explains is that of the
/// headline.
pub fn verified_headline()
    ensures { VerifiesTheHeadline }
{
    one_build();
    accepted_sources();
}

/// The trace that `build` writes is the text of a trace of its program's ports, with the labels of its run. Where the build file, the
/// sources and that trace are the same, these are the labels that `verify` has explained.
pub fn built_trace()
    ensures read { BuiltTraceIsRead }
    ensures verified { VerifiesTheRun }
{
    one_build();
    accepted_sources();
    one_answer();
}

/// A small build whose modules are linked, and one that leaves an instance out; and the files that one names.
pub fn small_modules()
    ensures linked { OneIsLinked }
    ensures unbound { UnboundIsNotLinked }
    ensures named { NamesItsFiles }
    ensures free { OtherIsFree }
{
    gos_link::small_links();
    gos_witness::small_links();
    one_face();
}

/// The labels of a small run, in which an output and an input come in one cycle.
pub fn small_runs()
    ensures labels { CallHasLabels }
    ensures first { InputIsNotFirst }
{}
