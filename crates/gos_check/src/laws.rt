// Laws of the definitions. Each is the contract of a function that does nothing.

ghost use Rattle.std.specs.Prelude.{◌≡◌, ◌≤◌, length, None};
ghost use Rattle.gos_types.specs.declared.widths.TheConstants.{GREATEST_NUMBER};
ghost use Rattle.gos_lex.specs.declared.numeral.TheConstants.{GREATEST_NUMERAL};
ghost use Rattle.gos_lex.specs.Tokens.{Reads};
ghost use Rattle.gos_syntax.specs.ParsedModules.{IsParsed};
ghost use Rattle.gos_check.specs.Sizes.{IsCountableModule};
ghost use Rattle.gos_check.specs.Lengths.{OtherLengthsAreRefused, FourIsTaken};
ghost use Rattle.gos_check.specs.Accepted.{FoundExactly};
ghost use Rattle.gos_check.specs.OneTerm.{TermIsOne};
ghost use Rattle.gos_check.specs.SmallTerms.{TwiceIsSplit, TurnedIsNotTyped, SameIsNumbered, NextIsNotTyped};

use gos_lex::Token;
use gos_model::types_of_terms;
use gos_syntax::Module;

/// No fault is found exactly in a module that is typed and keeps the limits, and what is found then is its weight.
pub fn found_exactly()
    ensures { FoundExactly }
{
    types_of_terms();
}

/// The module of a text that `scan` and `parse` read may be checked.
pub fn parsed_is_countable(text: &[u8], tokens: &[Token], program: &Module)
    requires short { length text.now ≤ 65536 }
    requires scanned { Reads text.now 0 tokens.now None }
    requires parsed { IsParsed text.now tokens.now program.now }
    ensures { IsCountableModule program.now }
{}

/// The greatest number that a numeral may write is that of the greatest width.
pub fn greatest_numeral()
    ensures { GREATEST_NUMBER ≡ GREATEST_NUMERAL }
{}

/// A block with an array whose length is not 2, 4, 8 or 16 has its length as its first fault, whatever else is wrong with
/// it; the length 4 is taken.
pub fn lengths()
    ensures others { OtherLengthsAreRefused }
    ensures four { FourIsTaken }
{}

/// Modules that are one but for their boxes have one typed term.
pub fn one_term()
    ensures { TermIsOne }
{}

/// The typed terms of `c ; c` with an import and of `fun a : com . a`, and that no other numbers stand in these.
pub fn small_terms()
    ensures twice { TwiceIsSplit }
    ensures turned { TurnedIsNotTyped }
    ensures same { SameIsNumbered }
    ensures next { NextIsNotTyped }
{}
