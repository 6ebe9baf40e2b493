// What a build asks of a checked module before its weight: the imports and the result, as a plan of no part and no joint.

ghost use Rattle.std.specs.Prelude.{◌≡◌, ◌≤◌, [], length, IfOk};
ghost use Rattle.gos_types.specs.Types.{type_of};
ghost use Rattle.gos_check.specs.Checked.{program_in};
ghost use Rattle.gos_plan.specs.ObjectText.{IsSmallPlan};
ghost use Rattle.gos_plan.specs.Seen.{plan_of};
ghost use Rattle.gos_compile.specs.Shells.{shell_of};

use crate::plans::plan_imports;
use gos_check::Linear;
use gos_plan::{ObjectFault, Plan, make};
use gos_types::{NoMemory, copy};
use std::alloc::Global;

/// The shell of a checked module: a plan that has the module's imports and its result, and no part and no joint. It weighs
/// nothing. Of a module with at most 64 imports, as those of `parse` have, it is within the limits of object files. `Err` is want
/// of memory alone.
pub fn shell(alloc: Global, program: &Linear) -> Result<Plan, NoMemory>
    ensures shell { IfOk result (λ plan. plan_of plan ≡ shell_of (program_in program.now).imports (type_of program.now.result)) }
    ensures small { IfOk result (λ plan. length program.now.imports ≤ 64 → IsSmallPlan (plan_of plan)) }
{
    let _checked = program.term();
    let imports = plan_imports(alloc, program.imports())?;
    let outcome = copy(alloc, program.result())?;
    match make(alloc, 0, imports, outcome, Vec::new(alloc), Vec::new(alloc)) {
        Ok(plan) => Ok(plan),
        Err(fault) => Err(only_memory(fault)),
    }
}

// A plan without joints is refused for want of memory alone.
fn only_memory(fault: ObjectFault) -> NoMemory
    requires { fault ≡ ObjectFault.NoMemory }
{
    match fault {
        ObjectFault::NoMemory => NoMemory,
        _ => unreachable!(),
    }
}
