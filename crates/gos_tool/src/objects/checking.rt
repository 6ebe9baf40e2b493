// The command `check`: a source file is read, scanned, parsed and checked.

ghost use Rattle.std.specs.Prelude.{◌≡◌, ◌≤◌, ◌∷◌, [], length, IfOk, IfErr, IfSome, IsErrOf};
ghost use Rattle.gos_outside.specs.FileName.{IsFileName};
ghost use Rattle.gos_outside.specs.Files.{bytes_at};
ghost use Rattle.gos_outside.specs.Faults.{CountsFaults, ReadFault};
ghost use Rattle.gos_outside.specs.Calls.{AreMade};
ghost use Rattle.gos_check.specs.Sizes.{IsCountableModule};
ghost use Rattle.gos_command.specs.Ends.{IfStopped, IsRealCause, IsTold, ending};
ghost use Rattle.gos_tool.specs.Causes.{OfSource, kind_of, StopsFor, TellsWeight};
ghost use Rattle.gos_tool.specs.Calls.{read_source};
ghost use Rattle.gos_tool.specs.objects.Checked.{IsSource, IsChecked, IsSourceCause, IsSourceFault};
ghost use Rattle.gos_tool.specs.objects.Typed.{IsTypedAs};

use gos_check::{Linear, check, parsed_is_countable};
use gos_command::{Cause, Report, Stop, read_start, reject};
use gos_lex::scan;
use gos_outside::Store;
use gos_syntax::{Module, parse};
use std::alloc::Global;

/// The longest source file, in bytes.
pub const SOURCE_LIMIT: usize = 65_536;

/// Reads a source file, and tells the weight of its module.
///
/// The source is rejected with its first fault: it has no tokens, they are no module, or the module is not typed or
/// passes a limit.
pub fn check_source<S: Store>(alloc: Global, source: &[u8], store: &mut S) -> Result<Report, Stop>
    requires { IsFileName source.now }
    ensures done { IfOk result (λ report. IfSome (S.contents store.old) (λ files. IsChecked files source.now report)) }
    ensures rejected { IfErr result (λ stop. IfStopped stop (λ fault line.
        IfSome (S.contents store.old) (λ files. IsSourceFault files source.now fault line))) }
    ensures told { IfErr result (λ stop. IfStopped stop IsTold) }
    ensures file { IfErr result (λ stop. IfStopped stop (λ fault line. fault.file ≡ source.now)) }
    ensures tells { IfOk result TellsWeight }
    ensures kind { IfErr result (StopsFor (OfSource ∷ [])) }
    ensures calls { AreMade (ending result) (read_source source.now ∷ []) (S.calls store.old) (S.calls store.new) }
    ensures counts { CountsFaults (IsErrOf result Stop.StoreFailed) (S.faults store.old) (S.faults store.new) }
    ensures failed_call { IsErrOf result Stop.StoreFailed → S.last_fault store.new ≡ ReadFault source.now }
    ensures same_files { S.contents store.new ≡ S.contents store.old }
{
    let linear = module_in(alloc, source, store)?;
    Ok(Report::Weight(linear.weight()))
}

/// Reads a source file and checks its module, which has at most 64 imports.
///
/// The source is rejected as `check_source` rejects it.
pub fn module_in<S: Store>(alloc: Global, source: &[u8], store: &mut S) -> Result<Linear, Stop>
    requires { IsFileName source.now }
    ensures typed { IfOk result (λ linear. IfSome (S.contents store.old) (λ files. IsTypedAs (bytes_at files source.now) linear)) }
    ensures few_imports { IfOk result (λ linear. length linear.imports ≤ 64) }
    ensures rejected { IfErr result (λ stop. IfStopped stop (λ fault line.
        IfSome (S.contents store.old) (λ files. IsSourceFault files source.now fault line))) }
    ensures told { IfErr result (λ stop. IfStopped stop IsTold) }
    ensures file { IfErr result (λ stop. IfStopped stop (λ fault line. fault.file ≡ source.now)) }
    ensures kind { IfErr result (StopsFor (OfSource ∷ [])) }
    ensures calls { AreMade (ending result) (read_source source.now ∷ []) (S.calls store.old) (S.calls store.new) }
    ensures counts { CountsFaults (IsErrOf result Stop.StoreFailed) (S.faults store.old) (S.faults store.new) }
    ensures failed_call { IsErrOf result Stop.StoreFailed → S.last_fault store.new ≡ ReadFault source.now }
    ensures same_files { S.contents store.new ≡ S.contents store.old }
{
    let text = read_start(alloc, store, source, SOURCE_LIMIT + 1)?;
    match typed_module(alloc, text.as_slice()) {
        Ok(linear) => Ok(linear),
        Err(cause) => Err(reject(alloc, source, cause, None)),
    }
}

// The checked module of a text, or why it has none.
fn typed_module(alloc: Global, text: &[u8]) -> Result<Linear, Cause>
    ensures typed { IfOk result (IsTypedAs text.now) }
    ensures kind { IfErr result (λ cause. kind_of cause ≡ OfSource) }
    ensures refused { IfErr result (λ cause. IsRealCause cause → IsSourceCause text.now cause) }
{
    let module = match module_of(alloc, text) {
        Ok(module) => module,
        Err(cause) => return Err(cause),
    };
    match check(alloc, &module) {
        Ok(linear) => Ok(linear),
        Err(fault) => Err(Cause::Check(fault)),
    }
}

/// The module of a text, or why it is none.
pub fn module_of(alloc: Global, text: &[u8]) -> Result<Module, Cause>
    ensures source { IfOk result (IsSource text.now) }
    ensures countable { IfOk result IsCountableModule }
    ensures kind { IfErr result (λ cause. kind_of cause ≡ OfSource) }
    ensures refused { IfErr result (λ cause. IsRealCause cause → IsSourceCause text.now cause) }
{
    let tokens = match scan(alloc, text) {
        Ok(tokens) => tokens,
        Err(fault) => return Err(Cause::Lex(fault)),
    };
    match parse(alloc, text, tokens.as_slice()) {
        Ok(module) => {
            parsed_is_countable(text, tokens.as_slice(), &module);
            Ok(module)
        }
        Err(fault) => Err(Cause::Syntax(fault)),
    }
}
