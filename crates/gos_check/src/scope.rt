// The binders around a term, and the type of a name under them.

ghost use Rattle.std.specs.Prelude.{◌≡◌, None, Some, map, MatchOption};
ghost use Rattle.gos_types.specs.Types.{type_of};
ghost use Rattle.gos_model.specs.Typing.{import_type};
ghost use Rattle.gos_model.specs.Sources.{import_of};
ghost use Rattle.gos_check.specs.Scopes.{type_at};
ghost use Rattle.gos_check.specs.inner.Seen.{binders_of};

use gos_lex::Name;
use gos_syntax::Import;
use gos_types::Ty;

// The binders around a term: none, or an innermost one and those outside it.
#[derive(Clone, Copy)]
pub(crate) enum Scope<'a> {
    Outermost,
    Binder {
        name: &'a Name,
        ty: &'a Ty,
        outer: &'a Scope<'a>,
    },
}

impl<'a> Scope<'a> {
    // The type of a name: of its innermost binder, or else of the import.
    pub fn find(&self, imports: &'a [Import], name: &Name) -> Option<&'a Ty>
        ensures { MatchOption result (type_at (map import_of imports.now) (binders_of self.now) name.now ≡ None) (λ ty.
            type_at (map import_of imports.now) (binders_of self.now) name.now ≡ Some (type_of ty.now)) }
    {
        match self {
            Scope::Outermost => find_import(imports, name),
            Scope::Binder {
                name: bound,
                ty,
                outer,
            } => {
                if *bound == name {
                    Some(ty)
                } else {
                    outer.find(imports, name)
                }
            }
        }
    }
}

// The type of the first import of a name.
fn find_import<'a>(imports: &'a [Import], name: &Name) -> Option<&'a Ty>
    ensures { MatchOption result (import_type (map import_of imports.now) name.now ≡ None) (λ ty.
        import_type (map import_of imports.now) name.now ≡ Some (type_of ty.now)) }
{
    for import in imports {
        if import.name == *name {
            return Some(&import.ty);
        }
    }
    None
}
