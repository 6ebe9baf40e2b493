// The command `demo N`: the files of the demo are written, and then built.

ghost use Rattle.std.specs.Prelude.{◌≡◌, ◌∷◌, [], None, IfOk, IfErr, IfSome, IsErrOf};
ghost use Rattle.gos_outside.specs.OtherFiles.{OthersSame};
ghost use Rattle.gos_outside.specs.Faults.{CountsFaults};
ghost use Rattle.gos_command.specs.Ends.{IfStopped, IsTold, ending};
ghost use Rattle.gos_tool.specs.Causes.{OfSource, OfBuild, OfWeight, OfPulses, StopsFor, TellsBoth};
ghost use Rattle.gos_tool.specs.demo.DemoFiles.{IsLevelCount};
ghost use Rattle.gos_tool.specs.demo.Demo.{IsDemoDone, IsDemoCall, IsDemoCutShort, CallsOfDemo, written_by};

use crate::build::{build, right_builds};
use crate::demo::files::{demo_files, write_files};
use gos_check::found_exactly;
use gos_command::{Report, Stop};
use gos_link::few_joints;
use gos_outside::Store;
use std::alloc::Global;

/// Writes the files of the demo of so many levels, and then does what `build demo.txt` does.
pub fn demo<S: Store>(alloc: Global, levels: u64, store: &mut S) -> Result<Report, Stop>
    requires { IsLevelCount levels }
    ensures done { IfOk result (λ report. IfSome (S.contents store.old) (λ files. IsDemoDone files (S.contents store.new) levels report)) }

    // No file is rejected where the store tells its contents; where it doesn't, a file that is rejected has a cause.
    ensures never_rejected { IfErr result (λ stop. IfStopped stop (λ _ _. S.contents store.old ≡ None)) }
    ensures told { IfErr result (λ stop. IfStopped stop IsTold) }
    ensures tells { IfOk result TellsBoth }
    ensures kind { IfErr result (StopsFor (OfSource ∷ OfBuild ∷ OfWeight ∷ OfPulses ∷ [])) }
    ensures calls { CallsOfDemo (ending result) (S.contents store.old) levels (S.calls store.old) (S.calls store.new) }

    // The store is blamed only for a call that failed, and that the command makes then.
    ensures counts { CountsFaults (IsErrOf result Stop.StoreFailed) (S.faults store.old) (S.faults store.new) }
    ensures failed_call { IsErrOf result Stop.StoreFailed →
        IsDemoCall (S.contents store.old) (S.contents store.new) levels (S.last_fault store.new) }
    ensures memory_files { IsErrOf result Stop.NoMemory → IfSome (S.contents store.old) (λ files.
        IsDemoCutShort files (S.contents store.new) levels) }
    ensures others { OthersSame (written_by levels) (S.contents store.old) (S.contents store.new) }
{
    found_exactly();
    few_joints();
    right_builds();
    let files = demo_files(alloc, levels)?;
    write_files(alloc, files.as_slice(), store)?;
    build(alloc, b"demo.txt", store)
}
