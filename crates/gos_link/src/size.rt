// The size of a plan, which bounds the cells of its netlist, and the number of its ports.

ghost use Rattle.std.specs.Prelude.{◌≡◌, ◌≢◌, ◌*◌, ◌<◌, ◌≤◌, ◌^◌, All, length, map, IfOk, IfErr};
ghost use Rattle.gos_plan.specs.Ranges.{IsInRange};
ghost use Rattle.gos_plan.specs.Seen.{part_of, plan_of};
ghost use Rattle.gos_plan.specs.Size.{shakes_of, numbers_in, numbers_of, plan_size};
ghost use Rattle.gos_link.specs.Linked.{count_ports};
ghost use Rattle.gos_link.specs.inner.Counts.{IsCountable};
ghost use Rattle.gos_link.specs.inner.Judged.{IsTooLarge};

use crate::fault::LinkFault;
use gos_plan::{Kind, Plan, part_contacts};
use gos_types::NoMemory;
use std::alloc::Global;

/// The greatest size of a linked plan, and the most ports.
const MAX_SIZE: u64 = 5_000_000;

const MAX_PORTS: u64 = 65_536;

// How many handshakes parts have together: at most 192 each, those of a Share.
#[tactic(auto, using(crate::proofs::CountedLemmas::shakes_few))]
fn shakes_of(alloc: Global, parts: &[Kind]) -> Result<u64, NoMemory>
    requires few { length parts.now < 2 ^ 32 }
    requires in_range { All IsInRange parts.now }
    ensures sum { IfOk result (λ n. n ≡ shakes_of (map part_of parts.now)) }
    ensures small { IfOk result (λ n. n ≤ 192 * length parts.now) }
{
    let mut shakes: u64 = 0;
    for kind in parts {
        shakes += part_contacts(alloc, kind)?.len() as u64;
    }
    Ok(shakes)
}

// How many numbers the arrays among parts have together: at most 16 each.
#[tactic(auto, using(crate::proofs::CountedLemmas::numbers_few))]
fn numbers_of(parts: &[Kind]) -> u64
    requires few { length parts.now < 2 ^ 32 }
    requires in_range { All IsInRange parts.now }
    ensures sum { result ≡ numbers_of (map part_of parts.now) }
    ensures small { result ≤ 16 * length parts.now }
{
    let mut numbers: u64 = 0;
    for kind in parts {
        numbers += length_of(kind);
    }
    numbers
}

// How many numbers an array has; another kind has none.
fn length_of(kind: &Kind) -> u64
    ensures { result ≡ numbers_in (part_of kind.now) }
{
    match kind {
        Kind::Array { n, .. } => u64::from(*n),
        _ => 0,
    }
}

// The size of a plan.
fn size_of(alloc: Global, plan: &Plan) -> Result<u64, NoMemory>
    requires { IsCountable (plan_of plan.now) }
    ensures { IfOk result (λ n. n ≡ plan_size (plan_of plan.now)) }
{
    let parts = plan.parts();
    let shakes = shakes_of(alloc, parts)?;
    let of_parts = 26 * (parts.len() as u64 + shakes);
    let of_numbers = 8 * numbers_of(parts);
    let of_joints = 4 * plan.joints().len() as u64;
    let of_ports = 12 * (plan.imports().len() as u64 + 1);
    Ok(of_parts + of_numbers + of_joints + of_ports)
}

/// Finds that a plan is neither too large nor has too many ports.
pub(crate) fn check_size(alloc: Global, plan: &Plan) -> Result<(), LinkFault>
    requires { IsCountable (plan_of plan.now) }
    ensures small { IfOk result (λ _. (plan_size (plan_of plan.now) ≤ 5000000) × (count_ports (plan_of plan.now) ≤ 65536)) }
    ensures fault { IfErr result (λ fault. fault ≢ LinkFault.NoMemory → IsTooLarge (plan_of plan.now) fault) }
{
    let size = size_of(alloc, plan)?;
    let ports = plan.imports().len() as u64 + 1;
    if size > MAX_SIZE || ports > MAX_PORTS {
        Err(LinkFault::TooLarge { size, ports })
    } else {
        Ok(())
    }
}
