// The one call of the checker.

ghost use Rattle.std.specs.Prelude.{◌≡◌, ◌+◌, ◌*◌, ◌≤◌, Ok, map, length, IfOk, IfErr};
ghost use Rattle.gos_types.specs.Types.{type_of};
ghost use Rattle.gos_model.specs.Sources.{program_of};
ghost use Rattle.gos_syntax.specs.Sizes.{size};
ghost use Rattle.gos_check.specs.Sizes.{IsCountableModule};
ghost use Rattle.gos_check.specs.Faults.{Refuses};
ghost use Rattle.gos_check.specs.Judgements.{light, module_judged};
ghost use Rattle.gos_check.specs.Accepted.{IsAccepted, IsRefused, weighed};
ghost use Rattle.gos_check.specs.Linearity.{StandsFor};
ghost use Rattle.gos_check.specs.Numbering.{typed_term};
ghost use Rattle.gos_check.specs.Checked.{program_in};
ghost use Rattle.gos_check.specs.Nodes.{node_seen};
ghost use Rattle.gos_check.specs.Copies.{plain_import};
ghost use Rattle.gos_check.specs.inner.Walked.{tree};

use crate::demands::demanded;
use crate::fault::CheckFault;
use crate::imports::{copy_imports, judge_imports};
use crate::judging::judge;
use crate::laws::found_exactly;
use crate::linear::Linear;
use crate::numbering::number_module;
use crate::scope::Scope;
use crate::written::written;
use gos_syntax::Module;
use gos_types::copy;
use std::alloc::Global;

// How much a module may weigh.
const MAX_WEIGHT: u64 = 8192;

/// Whether a module is typed and keeps the limits; `Err` has its first fault, or is want of memory.
///
/// Limits are 64 handshakes for a type and a weight of 8,192. The module is countable where `parse` answered it:
/// `parsed_is_countable`.
pub fn check(alloc: Global, program: &Module) -> Result<Linear, CheckFault>
    requires { IsCountableModule program.now }

    // `Ok` exactly where the module is typed and keeps the limits.
    ensures accepted { IfOk result (λ _. IsAccepted program.now) }
    ensures refused { IfErr result (IsRefused program.now) }

    // What is answered stands for the module, and has its program.
    ensures program { IfOk result (λ linear. program_in linear ≡ program_of program.now) }
    ensures weight { IfOk result (λ linear. linear.weight ≡ weighed program.now) }
    ensures imports { IfOk result (λ linear. map plain_import linear.imports ≡ map plain_import program.now.imports) }
    ensures outcome { IfOk result (λ linear. type_of linear.result ≡ type_of program.now.result) }
    ensures term { IfOk result (λ linear. StandsFor (program_of program.now) (node_seen linear.term)) }
    ensures one { IfOk result (λ linear. node_seen linear.term ≡ typed_term program.now) }

    // Each fault exactly where it is the first one.
    ensures none { IfOk result (λ linear. module_judged program.now ≡ Ok linear.weight) }
    ensures fault { IfErr result (λ e. Refuses (module_judged program.now) e) }
{
    found_exactly();
    let weight = judge_module(alloc, program)?;
    let term = number_module(alloc, program)?;
    Ok(Linear {
        weight,
        imports: copy_imports(alloc, program.imports.as_slice())?,
        result: copy(alloc, &program.result)?,
        term,
    })
}

// The weight of a module, or its first fault.
fn judge_module(alloc: Global, program: &Module) -> Result<u64, CheckFault>
    requires { IsCountableModule program.now }
    ensures ok { IfOk result (λ weight. module_judged program.now ≡ Ok weight) }
    ensures size { IfOk result (λ weight. length program.now.imports + 4 * size (tree program.now.body) ≤ weight) }
    ensures within { IfOk result (λ weight. weight ≤ 8192) }
    ensures err { IfErr result (λ e. Refuses (module_judged program.now) e) }
{
    let imports = program.imports.as_slice();
    let handshakes = judge_imports(alloc, imports)?;
    written(program.result_span, &program.result)?;
    let body = judge(alloc, imports, &Scope::Outermost, &program.body)?;
    demanded(program.body.span, copy(alloc, &program.result)?, body.ty)?;
    let weight = light(body.weight + handshakes)?;
    Ok(weight)
}

// A weight, where it is no greater than is allowed.
fn light(weight: u64) -> Result<u64, CheckFault>
    ensures ok { IfOk result (λ found. light weight ≡ Ok found) }
    ensures same { IfOk result (λ found. found ≡ weight) }
    ensures within { IfOk result (λ found. found ≤ 8192) }
    ensures err { IfErr result (λ e. Refuses (light weight) e) }
    ensures sure { IfErr result (λ e. e ≡ CheckFault.TooHeavy weight) }
{
    if weight > MAX_WEIGHT {
        Err(CheckFault::TooHeavy { weight })
    } else {
        Ok(weight)
    }
}
