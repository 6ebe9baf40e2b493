// The imports of a module: their names differ, and their types are of the sizes that are allowed.

ghost use Rattle.std.specs.Prelude.{◌≡◌, ◌+◌, ◌*◌, ◌^◌, ◌<◌, ◌≤◌, [], Ok, map, length, sum_by, IfOk, IfErr};
ghost use Rattle.gos_model.specs.Weight.{count};
ghost use Rattle.gos_model.specs.Sources.{import_of};
ghost use Rattle.gos_check.specs.Sizes.{AreCountable};
ghost use Rattle.gos_check.specs.Faults.{Refuses};
ghost use Rattle.gos_check.specs.Judgements.{import_place, new_name, imports_judged};
ghost use Rattle.gos_check.specs.Copies.{plain_import};

use crate::fault::CheckFault;
use crate::written::written;
use gos_lex::{Name, Span};
use gos_syntax::Import;
use gos_types::copy;
use std::alloc::Global;

// How many handshakes all imports have together, or the first fault of the imports.
pub(crate) fn judge_imports(alloc: Global, imports: &[Import]) -> Result<u64, CheckFault>
    requires few { length imports.now < 2 ^ 32 }
    requires types { AreCountable imports.now }
    ensures ok { IfOk result (λ _. imports_judged [] imports.now ≡ Ok tt) }
    ensures sum { IfOk result (λ n. n ≡ sum_by (λ x. count x.ty) (map import_of imports.now)) }
    ensures bound { IfOk result (λ n. n ≤ 64 * length imports.now) }
    ensures err { IfErr result (λ e. Refuses (imports_judged [] imports.now) e) }
{
    let mut handshakes = 0;
    for (i, import) in imports.iter().enumerate() {
        new_name(alloc, &imports[..i], import)?;
        handshakes += written(import.ty_span, &import.ty)?;
    }
    Ok(handshakes)
}

// Whether no import before has this one's name.
fn new_name(alloc: Global, before: &[Import], import: &Import) -> Result<(), CheckFault>
    ensures ok { IfOk result (λ _. new_name import.now (import_place before.now import.now.name) ≡ Ok tt) }
    ensures err { IfErr result (λ e. Refuses (new_name import.now (import_place before.now import.now.name)) e) }
{
    match import_place(before, &import.name) {
        Some(first) => Err(CheckFault::Repeated {
            name: Name::new(alloc, import.name.bytes())?,
            first,
            second: import.name_span,
        }),
        None => Ok(()),
    }
}

// The place of the first import of this name.
fn import_place(imports: &[Import], name: &Name) -> Option<Span>
    ensures { result ≡ import_place imports.now name.now }
{
    for import in imports {
        if import.name == *name {
            return Some(import.name_span);
        }
    }
    None
}

// The same imports again.
pub(crate) fn copy_imports(alloc: Global, imports: &[Import]) -> Result<Vec<Import>, CheckFault>
    ensures ok { IfOk result (λ copies. map plain_import copies.items ≡ map plain_import imports.now) }
    ensures err { IfErr result (λ e. e ≡ CheckFault.NoMemory) }
{
    let mut copies = Vec::new(alloc);
    for import in imports {
        copies.push(copy_import(alloc, import)?)?;
    }
    Ok(copies)
}

// The same import again.
fn copy_import(alloc: Global, import: &Import) -> Result<Import, CheckFault>
    ensures ok { IfOk result (λ copied. plain_import copied ≡ plain_import import.now) }
    ensures err { IfErr result (λ e. e ≡ CheckFault.NoMemory) }
{
    Ok(Import {
        name: Name::new(alloc, import.name.bytes())?,
        name_span: import.name_span,
        ty: copy(alloc, &import.ty)?,
        ty_span: import.ty_span,
    })
}
