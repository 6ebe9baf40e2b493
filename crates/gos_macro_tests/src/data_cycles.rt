// Each kind that gives, computes, reads or writes numbers, settled cycle by cycle over the worked steps of its firing rule.
use crate::trial::{NO, PULSE, ShortCycle, runs_short};
use gos_data::Arith;
use gos_plan::{Kind, Op2};
use std::alloc::Global;
use std::test::Fail;

#[test]
fn literal_answers_its_number(rt: HostRuntime) -> Result<(), Fail> {
    let cycles: &[ShortCycle] = &[
        ([PULSE, NO, NO, NO], [Some(9), NO, NO, NO]),
        ([NO, NO, NO, NO], [NO, NO, NO, NO]),
        ([PULSE, NO, NO, NO], [Some(9), NO, NO, NO]),
    ];
    runs_short(
        rt.alloc(),
        &Arith(Kind::Lit { w: 4, k: 9 }),
        1,
        [1; 6],
        cycles,
    )
}

// The right number is asked for in the cycle of the left one. The answer and the next request come in one cycle.
#[test]
fn comparison_holds_the_left_number(rt: HostRuntime) -> Result<(), Fail> {
    let cycles: &[ShortCycle] = &[
        ([NO, NO, PULSE, NO], [PULSE, NO, NO, NO]),
        ([Some(3), NO, NO, NO], [NO, PULSE, NO, NO]),
        ([NO, NO, NO, NO], [NO, NO, NO, NO]),
        ([NO, Some(5), PULSE, NO], [PULSE, NO, Some(1), NO]),
        ([Some(5), NO, NO, NO], [NO, PULSE, NO, NO]),
        ([NO, Some(3), NO, NO], [NO, NO, PULSE, NO]),
    ];
    runs_short(
        rt.alloc(),
        &Arith(Kind::Op {
            op: Op2::Less,
            w: 8,
        }),
        3,
        [8, 8, 1, 1, 1, 1],
        cycles,
    )
}

// The right number comes with the next request and the next left number. The answer is of the left number that is
// held, and the next right number is asked for at once.
#[test]
fn subtraction_keeps_two_left_numbers_apart(rt: HostRuntime) -> Result<(), Fail> {
    let cycles: &[ShortCycle] = &[
        ([Some(9), NO, PULSE, NO], [PULSE, PULSE, NO, NO]),
        ([Some(30), Some(2), PULSE, NO], [PULSE, PULSE, Some(7), NO]),
        ([NO, NO, NO, NO], [NO, NO, NO, NO]),
        ([NO, Some(5), NO, NO], [NO, NO, Some(25), NO]),
    ];
    runs_short(
        rt.alloc(),
        &Arith(Kind::Op { op: Op2::Sub, w: 8 }),
        3,
        [8, 8, 1, 1, 1, 1],
        cycles,
    )
}

// Both numbers come in one cycle: the answer is of the left one that comes, and not of the one that was held for the answer
// before. A left number that comes alone afterwards is held as before.
#[test]
fn subtraction_takes_a_left_number_as_it_comes(rt: HostRuntime) -> Result<(), Fail> {
    let cycles: &[ShortCycle] = &[
        ([Some(9), NO, PULSE, NO], [PULSE, PULSE, NO, NO]),
        ([NO, Some(2), NO, NO], [NO, NO, Some(7), NO]),
        ([Some(30), Some(4), PULSE, NO], [PULSE, PULSE, Some(26), NO]),
        ([NO, NO, PULSE, NO], [PULSE, NO, NO, NO]),
        ([Some(8), Some(3), NO, NO], [NO, PULSE, Some(5), NO]),
        ([Some(50), NO, PULSE, NO], [PULSE, PULSE, NO, NO]),
        ([NO, Some(1), NO, NO], [NO, NO, Some(49), NO]),
    ];
    runs_short(
        rt.alloc(),
        &Arith(Kind::Op { op: Op2::Sub, w: 8 }),
        3,
        [8, 8, 1, 1, 1, 1],
        cycles,
    )
}

// An operator gives this number of two numbers of 8 bits.
fn computes(alloc: Global, op: Op2, left: u64, right: u64, wanted: u64) -> Result<(), Fail> {
    let cycles: [ShortCycle; 5] = [
        ([NO, NO, PULSE, NO], [PULSE, NO, NO, NO]),
        ([Some(left), NO, NO, NO], [NO, PULSE, NO, NO]),
        ([NO, Some(right), NO, NO], [NO, NO, Some(wanted), NO]),
        ([NO, NO, PULSE, NO], [PULSE, NO, NO, NO]),
        (
            [Some(left), Some(right), NO, NO],
            [NO, PULSE, Some(wanted), NO],
        ),
    ];
    runs_short(
        alloc,
        &Arith(Kind::Op { op, w: 8 }),
        3,
        [8, 8, 1, 1, 1, 1],
        &cycles,
    )
}

// Sums and differences are without carry and borrow.
#[test]
fn operators_compute(rt: HostRuntime) -> Result<(), Fail> {
    let rows: &[(Op2, u64, u64, u64)] = &[
        (Op2::Add, 200, 100, 44),
        (Op2::Sub, 100, 200, 156),
        (Op2::And, 12, 10, 8),
        (Op2::Or, 12, 10, 14),
        (Op2::Xor, 12, 10, 6),
        (Op2::Eq, 7, 7, 1),
        (Op2::Eq, 7, 8, 0),
        (Op2::Less, 7, 7, 0),
    ];
    for (op, left, right, wanted) in rows.iter() {
        computes(rt.alloc(), *op, *left, *right, *wanted)?;
    }
    Ok(())
}

// Without a number nothing goes out, though all its bits are turned.
#[test]
fn complement_turns_all_bits(rt: HostRuntime) -> Result<(), Fail> {
    let cycles: &[ShortCycle] = &[
        ([NO, PULSE, NO, NO], [PULSE, NO, NO, NO]),
        ([NO, NO, NO, NO], [NO, NO, NO, NO]),
        ([Some(5), PULSE, NO, NO], [PULSE, Some(250), NO, NO]),
        ([PULSE, NO, NO, NO], [NO, Some(255), NO, NO]),
    ];
    runs_short(
        rt.alloc(),
        &Arith(Kind::Not { w: 8 }),
        2,
        [8, 1, 1, 1, 1, 1],
        cycles,
    )
}

#[test]
fn assignment_writes_the_number(rt: HostRuntime) -> Result<(), Fail> {
    let cycles: &[ShortCycle] = &[
        ([NO, NO, PULSE, NO], [PULSE, NO, NO, NO]),
        ([Some(7), NO, NO, NO], [NO, Some(7), NO, NO]),
        ([NO, NO, NO, NO], [NO, NO, NO, NO]),
        ([NO, PULSE, PULSE, NO], [PULSE, NO, PULSE, NO]),
    ];
    runs_short(
        rt.alloc(),
        &Arith(Kind::Assign { w: 8 }),
        3,
        [8, 1, 1, 1, 1, 1],
        cycles,
    )
}

#[test]
fn read_passes_the_number_on(rt: HostRuntime) -> Result<(), Fail> {
    let cycles: &[ShortCycle] = &[
        ([NO, PULSE, NO, NO], [PULSE, NO, NO, NO]),
        ([Some(900), PULSE, NO, NO], [PULSE, Some(900), NO, NO]),
        ([PULSE, NO, NO, NO], [NO, PULSE, NO, NO]),
    ];
    runs_short(
        rt.alloc(),
        &Arith(Kind::Deref { w: 16 }),
        2,
        [16, 1, 1, 1, 1, 1],
        cycles,
    )
}

// The variable is 0 at first and is set to 5; then the body ends and begins again in one cycle, and reads 0.
#[test]
fn local_begins_with_0(rt: HostRuntime) -> Result<(), Fail> {
    let cycles: &[ShortCycle] = &[
        ([NO, NO, NO, PULSE], [NO, NO, NO, NO]),
        ([NO, NO, NO, NO], [PULSE, NO, NO, NO]),
        ([NO, PULSE, NO, NO], [NO, PULSE, NO, NO]),
        ([NO, NO, Some(5), NO], [NO, NO, NO, NO]),
        ([NO, NO, NO, NO], [NO, NO, PULSE, NO]),
        ([NO, PULSE, NO, NO], [NO, Some(5), NO, NO]),
        ([Some(17), NO, NO, PULSE], [NO, NO, NO, Some(17)]),
        ([NO, NO, NO, NO], [PULSE, NO, NO, NO]),
        ([NO, PULSE, NO, NO], [NO, PULSE, NO, NO]),
    ];
    runs_short(
        rt.alloc(),
        &Arith(Kind::Local { w: 8, v: 5 }),
        4,
        [5, 1, 8, 1, 1, 1],
        cycles,
    )
}

// A read that comes with a write gives the number before it. The body's end has no number.
#[test]
fn local_of_a_command_is_written(rt: HostRuntime) -> Result<(), Fail> {
    let cycles: &[ShortCycle] = &[
        ([NO, NO, NO, PULSE], [NO, NO, NO, NO]),
        ([NO, NO, NO, NO], [PULSE, NO, NO, NO]),
        ([NO, PULSE, Some(5), NO], [NO, PULSE, NO, NO]),
        ([NO, PULSE, Some(6), NO], [NO, Some(5), PULSE, NO]),
        ([NO, PULSE, NO, NO], [NO, Some(6), PULSE, NO]),
        ([PULSE, NO, NO, NO], [NO, NO, NO, PULSE]),
    ];
    runs_short(
        rt.alloc(),
        &Arith(Kind::Local { w: 8, v: 0 }),
        4,
        [1, 1, 8, 1, 1, 1],
        cycles,
    )
}
