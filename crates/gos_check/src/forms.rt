// The forms of one part and of two parts: what each makes of what is known of its parts.

ghost use Rattle.std.specs.Prelude.{◌≡◌, Ok, IfOk, IfErr};
ghost use Rattle.gos_types.specs.Types.{type_of, Fun};
ghost use Rattle.gos_check.specs.Faults.{Refuses};
ghost use Rattle.gos_check.specs.inner.Rules.{rule_of_one, rule_of_two, names_of_two};

use crate::demands;
use crate::fault::CheckFault;
use crate::free::{Occurrence, apart};
use gos_lex::Span;
use gos_syntax::Op;
use gos_types::{Ty, copy};
use std::alloc::Global;

/// A form of one part, of terms and of nodes. Which it is among those of `Numbered` says `one_form`, in `specs/Nodes.antt`.
#[derive(Clone, Copy)]
pub enum OnePart {
    /// `fst pair`
    First,
    /// `snd pair`
    Second,
    /// `! variable`
    Reading,
    /// `not operand`
    Negation,
}

/// A form of two parts, of terms and of nodes; `two_form` says the same of these.
#[derive(Clone, Copy)]
pub enum TwoParts {
    /// A function, and its argument.
    Application,
    /// `( first , second )`
    Product,
    /// `first ; second`
    Sequence,
    /// `left || right`
    Parallel,
    /// `while test do body`
    Loop,
    /// `variable := value`
    Assignment,
    /// An operator between its operands.
    Operation(Op),
}

// The type of a function.
pub(crate) fn function_type(alloc: Global, argument: &Ty, outcome: Ty) -> Result<Ty, CheckFault>
    ensures ok { IfOk result (λ ty. type_of ty ≡ Fun (type_of argument.now) (type_of outcome)) }
    ensures err { IfErr result (λ e. e ≡ CheckFault.NoMemory) }
{
    let argument = Box::new(alloc, copy(alloc, argument)?)?;
    Ok(Ty::Fun(argument, Box::new(alloc, outcome)?))
}

impl OnePart {
    // The type of the form.
    pub(crate) fn outcome(self, s: Span, a: Ty) -> Result<Ty, CheckFault>
        ensures ok { IfOk result (λ ty. rule_of_one self s (type_of a) ≡ Ok (type_of ty)) }
        ensures err { IfErr result (λ e. Refuses (rule_of_one self s (type_of a)) e) }
    {
        match self {
            OnePart::First => demands::first_side(s, a),
            OnePart::Second => demands::second_side(s, a),
            OnePart::Reading => demands::reading(s, a),
            OnePart::Negation => demands::negation(s, a),
        }
    }
}

impl TwoParts {
    // Whether the parts share no name, where they may not.
    pub(crate) fn separate(
        self,
        alloc: Global,
        left: &[Occurrence],
        right: &[Occurrence],
    ) -> Result<(), CheckFault>
        ensures ok { IfOk result (λ _. names_of_two self left.now right.now ≡ Ok tt) }
        ensures err { IfErr result (λ e. Refuses (names_of_two self left.now right.now) e) }
    {
        match self {
            TwoParts::Application | TwoParts::Parallel => apart(alloc, left, right),
            _ => Ok(()),
        }
    }

    // The type of the form, where nothing is demanded of the names.
    pub(crate) fn outcome(
        self,
        alloc: Global,
        s: Span,
        a: Ty,
        t: Span,
        b: Ty,
    ) -> Result<Ty, CheckFault>
        ensures ok { IfOk result (λ ty. rule_of_two self s (type_of a) t (type_of b) ≡ Ok (type_of ty)) }
        ensures err { IfErr result (λ e. Refuses (rule_of_two self s (type_of a) t (type_of b)) e) }
    {
        match self {
            TwoParts::Application => demands::application(s, a, t, b),
            TwoParts::Product => Ok(Ty::Pair(Box::new(alloc, a)?, Box::new(alloc, b)?)),
            TwoParts::Sequence => demands::sequence(s, a, t, b),
            TwoParts::Parallel => demands::parallel(s, a, t, b),
            TwoParts::Loop => demands::looping(s, a, t, b),
            TwoParts::Assignment => demands::assignment(s, a, t, b),
            TwoParts::Operation(op) => demands::operation(op, s, a, t, b),
        }
    }
}
