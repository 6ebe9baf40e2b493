// The build file is read.

ghost use Rattle.std.specs.Prelude.{◌≡◌, ◌≤◌, ◌∷◌, [], ℕ, List, length, IfOk, IfErr, IfSome, IsErrOf};
ghost use Rattle.gos_outside.specs.FileName.{IsFileName};
ghost use Rattle.gos_outside.specs.Files.{bytes_at};
ghost use Rattle.gos_outside.specs.Faults.{CountsFaults, ReadFault};
ghost use Rattle.gos_outside.specs.Calls.{AreMade};
ghost use Rattle.gos_link.specs.BuildFile.{IsBuildFile};
ghost use Rattle.gos_command.specs.Ends.{IfStopped, IsTold, ending};
ghost use Rattle.gos_tool.specs.Causes.{IsFileFault, OfBuild, StopsFor};
ghost use Rattle.gos_tool.specs.Calls.{read_build_file};
ghost use Rattle.gos_tool.specs.circuits.Linked.{SaysBuild, IsFormCause};

use gos_command::{Cause, Stop, read_file, reject};
use gos_link::{Build, read_build};
use gos_outside::Store;
use std::alloc::Global;

/// The longest build file, in bytes.
const BUILD_LIMIT: usize = 65_536;

/// Reads the build file `own`. It is rejected with its first wrong line.
pub fn build_in<S: Store>(alloc: Global, own: &[u8], store: &mut S) -> Result<Build, Stop>
    requires { IsFileName own.now }
    ensures read { IfOk result (λ build. (text : List ℕ) × IsBuildFile text own.now build) }
    ensures says { IfOk result (λ build. IfSome (S.contents store.old) (λ files. SaysBuild files own.now build)) }
    ensures few_instances { IfOk result (λ build. length build.instances.items ≤ 65536) }
    ensures few_binds { IfOk result (λ build. length build.binds.items ≤ 65536) }
    ensures rejected { IfErr result (λ stop. IfStopped stop (λ fault line. IfSome (S.contents store.old) (λ files.
        IsFileFault own.now (IsFormCause (bytes_at files own.now) own.now) fault line))) }
    ensures told { IfErr result (λ stop. IfStopped stop IsTold) }
    ensures kind { IfErr result (StopsFor (OfBuild ∷ [])) }
    ensures calls { AreMade (ending result) (read_build_file own.now ∷ []) (S.calls store.old) (S.calls store.new) }
    ensures counts { CountsFaults (IsErrOf result Stop.StoreFailed) (S.faults store.old) (S.faults store.new) }
    ensures failed_call { IsErrOf result Stop.StoreFailed → S.last_fault store.new ≡ ReadFault own.now }
    ensures same_files { S.contents store.new ≡ S.contents store.old }
{
    let text = read_file(alloc, store, own, BUILD_LIMIT)?;
    match read_build(alloc, text.as_slice(), own) {
        Ok(build) => Ok(build),
        Err(fault) => Err(reject(alloc, own, Cause::Link(fault), None)),
    }
}
