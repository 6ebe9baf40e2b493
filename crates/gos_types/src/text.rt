// The source text of a type.
ghost use Rattle.std.specs.Prelude.{◌≡◌, ◌++◌, [], if◌then◌else◌, IfOk, OnOk};
ghost use Rattle.std.specs.String.{string_bytes};
ghost use Rattle.gos_types.specs.Types.{type_of};
ghost use Rattle.gos_types.specs.TypeText.{type_text, text_at, brackets_product, brackets_function};

use crate::fault::NoMemory;
use crate::types::Ty;
use std::alloc::{AllocError, Global};

// The rule of the grammar that is due at a place of the text.
#[derive(Clone, Copy)]
enum Rule {
    Whole,
    Prod,
    Base,
}

impl Rule {
    // Whether a product needs brackets here.
    fn brackets_product(self) -> bool
        ensures { result ≡ brackets_product self }
    {
        match self {
            Rule::Whole | Rule::Prod => false,
            Rule::Base => true,
        }
    }

    // Whether a function needs brackets here.
    fn brackets_function(self) -> bool
        ensures { result ≡ brackets_function self }
    {
        match self {
            Rule::Whole => false,
            Rule::Prod | Rule::Base => true,
        }
    }
}

/// The source text of a type: one space around `->` and `*` and before a width, brackets only where the grammar
/// needs them. `Err` is want of memory alone.
pub fn print_ty(alloc: Global, ty: &Ty) -> Result<Vec<u8>, NoMemory>
    ensures { IfOk result (λ text. text.items ≡ type_text (type_of ty.now)) }
{
    let mut text = String::new(alloc);
    add_text(&mut text, Rule::Whole, ty)?;
    Ok(text.into_bytes())
}

// Adds the text of a type at a place where this rule is due.
fn add_text(text: &mut String, rule: Rule, ty: &Ty) -> Result<(), AllocError>
    ensures { OnOk result (string_bytes text.new ≡ string_bytes text.old ++ text_at rule (type_of ty.now)) }
{
    match ty {
        Ty::Com => text.push_str("com"),
        Ty::Exp(w) => write!(text, "exp {w}"),
        Ty::Var(w) => write!(text, "var {w}"),
        Ty::Pair(a, b) => {
            let brackets = rule.brackets_product();
            add_if(text, brackets, "(")?;
            add_text(text, Rule::Base, a)?;
            text.push_str(" * ")?;
            add_text(text, Rule::Prod, b)?;
            add_if(text, brackets, ")")
        }
        Ty::Fun(a, b) => {
            let brackets = rule.brackets_function();
            add_if(text, brackets, "(")?;
            add_text(text, Rule::Prod, a)?;
            text.push_str(" -> ")?;
            add_text(text, Rule::Whole, b)?;
            add_if(text, brackets, ")")
        }
    }
}

// Adds a bracket where one is needed.
fn add_if(text: &mut String, needed: bool, bracket: &str) -> Result<(), AllocError>
    ensures { OnOk result (string_bytes text.new ≡ string_bytes text.old ++ (if needed then bracket.now else [])) }
{
    if needed {
        text.push_str(bracket)
    } else {
        Ok(())
    }
}
