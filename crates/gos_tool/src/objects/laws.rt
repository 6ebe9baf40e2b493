// What the definitions give for all sources. Each theorem is the contract of a function that does nothing.

ghost use Rattle.gos_tool.specs.objects.Complete.{AcceptedIsNotRejected, SaysOneProgram, SaysOneTerm};
ghost use Rattle.gos_tool.specs.objects.Repeated.{CheckTellsOne, CompileMakesOne, SaysOnePlan};

use gos_check::{found_exactly, one_term};
use gos_compile::one_plan;
use gos_lex::one_reading;
use gos_syntax::one_answer;

/// A source that says a module that is accepted is not rejected, says one program, and has one typed term.
pub fn accepted_sources()
    ensures rejected { AcceptedIsNotRejected }
    ensures program { SaysOneProgram }
    ensures term { SaysOneTerm }
{
    one_reading();
    one_answer();
    found_exactly();
    one_term();
}

/// The modules that a text says have one plan. Where `check` or `compile` is done twice with the same source, it writes the same
/// and tells the same.
pub fn one_object()
    ensures plan { SaysOnePlan }
    ensures check { CheckTellsOne }
    ensures compile { CompileMakesOne }
{
    accepted_sources();
    one_plan();
}
