// The binders around a term of the source, by their names.
ghost use Rattle.std.specs.Prelude.{◌≡◌, IfOk};
ghost use Rattle.gos_model.specs.Sources.{binder_of, one_further};
ghost use Rattle.gos_witness.specs.inner.Adding.{names_of};

use gos_lex::Name;
use gos_types::NoMemory;

// The binders around a term: none, or an innermost one and those outside it.
#[derive(Clone, Copy)]
pub(crate) enum Binders<'a> {
    Outermost,
    Binder {
        name: &'a Name,
        outer: &'a Binders<'a>,
    },
}

impl<'a> Binders<'a> {
    // How many binders are between a name and its own, if it has one. No memory holds 2^32 binders.
    pub fn find(&self, name: &Name) -> Result<Option<u32>, NoMemory>
        ensures { IfOk result (λ number. number ≡ binder_of (names_of self.now) name.now) }
    {
        match self {
            Binders::Outermost => Ok(None),
            Binders::Binder { name: bound, outer } => {
                if *bound == name {
                    return Ok(Some(0));
                }
                further(outer.find(name)?)
            }
        }
    }
}

// The number of a binder, seen from one binder further in.
fn further(number: Option<u32>) -> Result<Option<u32>, NoMemory>
    ensures { IfOk result (λ next. next ≡ one_further number) }
{
    match number {
        None => Ok(None),
        Some(u32::MAX) => Err(NoMemory),
        Some(number) => Ok(Some(number + 1)),
    }
}
