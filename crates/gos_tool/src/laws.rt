// What the definitions give for all commands. The theorem is the contract of a function that does nothing.

ghost use Rattle.gos_tool.specs.Complete.{RightIsNotRejected};
ghost use Rattle.gos_tool.specs.Repeated.{CommandMakesOne};
ghost use Rattle.gos_tool.specs.SmallAgreement.{LeaveOne, OldBytesAreNot, OtherBytesAreNot, SameBytesAre};
ghost use Rattle.gos_tool.specs.SmallCalls.{BuildFileMayFail, NoFaultIsNoCall, VerifyWritesNothing};
ghost use Rattle.gos_tool.specs.SmallCauses.{LinkMayBeTooLarge, BuildIsNeverTooLarge, DemoIsNeverTooLarge, BuildMayBeTooHeavy, ExplainedIsNeverTooHeavy};

use crate::build::{one_circuit, right_builds};
use crate::circuits::{one_link, right_links};
use crate::explained::{one_verification, right_moves};
use crate::netlists::right_netlists;
use crate::objects::{accepted_sources, one_object};
use crate::simulate::{one_trace, right_runs};
use gos_link::one_build;

/// A command rejects no file where the files are right for it.
pub fn right_commands()
    ensures { RightIsNotRejected }
{
    accepted_sources();
    right_links();
    right_runs();
    right_builds();
    right_netlists();
    right_moves();
}

/// Where a command but `tidy`, `gates` or `explain` is done twice, and the files that it reads are the same, it writes the same texts into
/// the same files, and tells the same.
pub fn same_files()
    ensures { CommandMakesOne }
{
    one_build();
    one_object();
    one_link();
    one_trace();
    one_circuit();
    one_verification();
}

/// Whatever two stores held, the same bytes in a file are the same. Other bytes are not, nor is it to leave what differed. Over one
/// store what is written the same leaves one.
pub fn small_agreement()
    ensures same { SameBytesAre }
    ensures others { OtherBytesAreNot }
    ensures old { OldBytesAreNot }
    ensures one { LeaveOne }
{}

/// The size of a build is a cause that `link` may have, and `build` and `demo` never have. Its weight is one that `build` may have, and
/// `explain` and `verify` never have.
pub fn small_causes()
    ensures link { LinkMayBeTooLarge }
    ensures build { BuildIsNeverTooLarge }
    ensures demo { DemoIsNeverTooLarge }
    ensures heavy { BuildMayBeTooHeavy }
    ensures explained { ExplainedIsNeverTooHeavy }
{}

/// Whatever the store tells, the build file may be what could not be read. No command is stopped for no call, and `verify` for none that
/// writes.
pub fn small_calls()
    ensures build_file { BuildFileMayFail }
    ensures no_fault { NoFaultIsNoCall }
    ensures verify { VerifyWritesNothing }
{}
