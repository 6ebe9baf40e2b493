// For which order of its handshakes the gates of each part of a plan are made.
ghost use Rattle.std.specs.Prelude.{◌≡◌, Some, slice_get, IfOk};
ghost use Rattle.std.specs.Option.{option_copied};
ghost use Rattle.gos_plan.specs.Ranges.{IsInRange};
ghost use Rattle.gos_plan.specs.Seen.{plan_of, part_of};
ghost use Rattle.gos_expand.specs.Gates.{ForEach};
ghost use Rattle.gos_expand.specs.Fast.{numbers_from, making_by_number};
ghost use Rattle.gos_expand.specs.inner.Orders.{kept_order, making_of, making_in};

use crate::places::shakes;
use gos_plan::{Kind, Plan};
use gos_types::NoMemory;
use std::alloc::Global;

// By part the order of its handshakes, by their numbers, that its gates are made for. A part that has none has gates that
// are made for no order.
#[derive(Drop)]
pub(crate) struct Orders {
    pub parts: Vec<Option<Vec<u32>>>,
}

impl Orders {
    // No order for any part.
    pub(crate) fn none(alloc: Global) -> Orders
        ensures { making_in result ≡ (λ i. ForEach) }
    {
        Orders {
            parts: Vec::new(alloc),
        }
    }

    // For each Share of a plan the numbers of its handshakes, and no order for any other part.
    pub(crate) fn by_number(alloc: Global, plan: &Plan) -> Result<Orders, NoMemory>
        ensures { IfOk result (λ orders. making_in orders ≡ (λ i. making_by_number (slice_get (plan_of plan.now).parts i))) }
    {
        let mut parts = Vec::new(alloc);
        for kind in plan.parts() {
            parts.push(shake_numbers(alloc, kind)?)?;
        }
        Ok(Orders { parts })
    }

    // The order of a part, if it has one.
    pub(crate) fn get(&self, part: usize) -> Option<&[u32]>
        ensures { option_copied result ≡ kept_order (slice_get self.now.parts.items part) }
    {
        match self.parts.get(part) {
            Some(Some(order)) => Some(order.as_slice()),
            _ => None,
        }
    }
}

// The numbers of the handshakes of a Share, and none for another part.
fn shake_numbers(alloc: Global, kind: &Kind) -> Result<Option<Vec<u32>>, NoMemory>
    requires { IsInRange kind.now }
    ensures { IfOk result (λ order. making_of (kept_order (Some order)) ≡ making_by_number (Some (part_of kind.now))) }
{
    match kind {
        Kind::Share(_) => Ok(Some(numbers(alloc, shakes(kind))?)),
        _ => Ok(None),
    }
}

// So many numbers, from 0 on.
fn numbers(alloc: Global, count: u32) -> Result<Vec<u32>, NoMemory>
    ensures { IfOk result (λ numbers. numbers.items ≡ numbers_from 0 count) }
{
    let mut numbers = Vec::new(alloc);
    for number in 0..count {
        numbers.push(number)?;
    }
    Ok(numbers)
}
