// An array, settled cycle by cycle over worked accesses. Each takes four cycles: the access, the request for its index, the
// index, and the answer.
ghost use Rattle.std.specs.Prelude.{◌≤◌};

use crate::trial::{Cycle, PULSE, QUIET, runs};
use gos_data::Arith;
use gos_plan::Kind;
use std::test::Fail;

// Nothing but this at one handshake.
fn only(handshake: usize, number: Option<u64>) -> [Option<u64>; 6]
    requires { handshake ≤ 5 }
{
    let mut all = QUIET;
    all[handshake] = number;
    all
}

// The array is entered, and asks the body.
fn entry() -> [Cycle; 2] {
    [(only(4, PULSE), QUIET), (QUIET, only(0, PULSE))]
}

// A number is read at an index.
fn read(index: u64, number: u64) -> [Cycle; 4] {
    [
        (only(2, PULSE), QUIET),
        (QUIET, only(1, PULSE)),
        (only(1, Some(index)), QUIET),
        (QUIET, only(2, Some(number))),
    ]
}

// A number is written at an index.
fn write(index: u64, number: u64) -> [Cycle; 4] {
    [
        (only(3, Some(number)), QUIET),
        (QUIET, only(1, PULSE)),
        (only(1, Some(index)), QUIET),
        (QUIET, only(3, PULSE)),
    ]
}

#[test]
fn array_keeps_a_number_at_each_index(rt: HostRuntime) -> Result<(), Fail> {
    let mut cycles = Vec::new(rt.alloc());
    cycles.extend_from_slice(&entry())?;
    cycles.extend_from_slice(&write(1, 5))?;
    cycles.extend_from_slice(&write(0, 7))?;
    cycles.extend_from_slice(&read(1, 5))?;
    cycles.extend_from_slice(&read(0, 7))?;
    cycles.push((only(0, PULSE), only(4, PULSE)))?;
    let part = Arith(Kind::Array { w: 8, n: 2, v: 0 });
    runs(rt.alloc(), &part, 5, [1, 1, 1, 8, 1, 1], &cycles)
}

// The last number is set; then the body ends and begins again in one cycle, and reads 0.
#[test]
fn array_begins_with_zeros(rt: HostRuntime) -> Result<(), Fail> {
    let mut cycles = Vec::new(rt.alloc());
    cycles.extend_from_slice(&entry())?;
    cycles.extend_from_slice(&write(15, 9))?;
    cycles.extend_from_slice(&read(15, 9))?;
    let mut again = only(4, PULSE);
    again[0] = Some(17);
    cycles.push((again, only(4, Some(17))))?;
    cycles.push((QUIET, only(0, PULSE)))?;
    cycles.extend_from_slice(&read(15, 0))?;
    let part = Arith(Kind::Array { w: 4, n: 16, v: 5 });
    runs(rt.alloc(), &part, 5, [5, 4, 1, 4, 1, 1], &cycles)
}
