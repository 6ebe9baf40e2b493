// A Share of each sort of type, settled cycle by cycle over the worked steps of its firing rule.
use crate::trial::{Cycle, NO, PULSE, QUIET, runs};
use gos_share::Sharing;
use gos_types::Ty;
use std::test::Fail;

#[test]
fn a_shared_command_answers_the_caller_who_asked(rt: HostRuntime) -> Result<(), Fail> {
    let cycles: &[Cycle] = &[
        // Caller 0 asks; the request is passed on a cycle later.
        ([NO, PULSE, NO, NO, NO, NO], QUIET),
        (QUIET, [PULSE, NO, NO, NO, NO, NO]),
        ([PULSE, NO, NO, NO, NO, NO], [NO, PULSE, NO, NO, NO, NO]),
        // Caller 1 asks, and the source answers it while caller 0 asks again.
        ([NO, NO, PULSE, NO, NO, NO], QUIET),
        (QUIET, [PULSE, NO, NO, NO, NO, NO]),
        ([PULSE, PULSE, NO, NO, NO, NO], [NO, NO, PULSE, NO, NO, NO]),
        // The source answers in the cycle in which it is asked.
        ([PULSE, NO, NO, NO, NO, NO], [PULSE, PULSE, NO, NO, NO, NO]),
        (QUIET, QUIET),
    ];
    runs(rt.alloc(), &Sharing(&Ty::Com), 3, [1; 6], cycles)
}

#[test]
fn a_shared_expression_answers_its_number_to_one_caller(rt: HostRuntime) -> Result<(), Fail> {
    let cycles: &[Cycle] = &[
        ([NO, PULSE, NO, NO, NO, NO], QUIET),
        (
            [Some(200), NO, NO, NO, NO, NO],
            [PULSE, Some(200), NO, NO, NO, NO],
        ),
        ([NO, NO, PULSE, NO, NO, NO], QUIET),
        (
            [Some(7), NO, NO, NO, NO, NO],
            [PULSE, NO, Some(7), NO, NO, NO],
        ),
        (QUIET, QUIET),
    ];
    runs(
        rt.alloc(),
        &Sharing(&Ty::Exp(8)),
        3,
        [8, 1, 1, 1, 1, 1],
        cycles,
    )
}

#[test]
fn a_shared_variable_passes_a_written_number_a_cycle_later(rt: HostRuntime) -> Result<(), Fail> {
    let cycles: &[Cycle] = &[
        // Caller 0 writes 9, and caller 1 reads it.
        ([NO, NO, NO, Some(9), NO, NO], QUIET),
        (
            [NO, PULSE, NO, NO, NO, NO],
            [NO, Some(9), NO, PULSE, NO, NO],
        ),
        ([NO, NO, NO, NO, PULSE, NO], QUIET),
        (
            [Some(9), NO, NO, NO, NO, NO],
            [PULSE, NO, NO, NO, Some(9), NO],
        ),
        // Caller 1 writes 3.
        ([NO, NO, NO, NO, NO, Some(3)], QUIET),
        (QUIET, [NO, Some(3), NO, NO, NO, NO]),
        ([NO, PULSE, NO, NO, NO, NO], [NO, NO, NO, NO, NO, PULSE]),
    ];
    runs(
        rt.alloc(),
        &Sharing(&Ty::Var(8)),
        6,
        [8, 1, 1, 8, 1, 8],
        cycles,
    )
}

#[test]
fn a_shared_product_answers_both_sides_to_one_caller(rt: HostRuntime) -> Result<(), Fail> {
    let ty = Ty::Pair(
        Box::new(rt.alloc(), Ty::Com)?,
        Box::new(rt.alloc(), Ty::Com)?,
    );
    let cycles: &[Cycle] = &[
        // Caller 0 asks for the first side, and caller 1 for the second one.
        ([NO, NO, PULSE, NO, NO, NO], QUIET),
        ([PULSE, NO, NO, NO, NO, NO], [PULSE, NO, PULSE, NO, NO, NO]),
        ([NO, NO, NO, NO, NO, PULSE], QUIET),
        ([NO, PULSE, NO, NO, NO, NO], [NO, PULSE, NO, NO, NO, PULSE]),
        (QUIET, QUIET),
    ];
    runs(rt.alloc(), &Sharing(&ty), 6, [1; 6], cycles)
}

#[test]
fn a_shared_function_asks_the_caller_who_runs_it(rt: HostRuntime) -> Result<(), Fail> {
    let ty = Ty::Fun(
        Box::new(rt.alloc(), Ty::Exp(8))?,
        Box::new(rt.alloc(), Ty::Com)?,
    );
    let cycles: &[Cycle] = &[
        // Caller 1 runs it, and is asked for the argument, which is 42.
        ([NO, NO, NO, NO, NO, PULSE], QUIET),
        ([PULSE, NO, NO, NO, NO, NO], [NO, PULSE, NO, NO, NO, NO]),
        (
            [NO, NO, NO, NO, Some(42), NO],
            [Some(42), NO, NO, NO, PULSE, NO],
        ),
        ([NO, PULSE, NO, NO, NO, NO], [NO, NO, NO, NO, NO, PULSE]),
        // Caller 0 runs it with 5.
        ([NO, NO, NO, PULSE, NO, NO], QUIET),
        ([PULSE, NO, NO, NO, NO, NO], [NO, PULSE, NO, NO, NO, NO]),
        (
            [NO, NO, Some(5), NO, NO, NO],
            [Some(5), NO, PULSE, NO, NO, NO],
        ),
        ([NO, PULSE, NO, NO, NO, NO], [NO, NO, NO, PULSE, NO, NO]),
        (QUIET, QUIET),
    ];
    runs(rt.alloc(), &Sharing(&ty), 6, [1, 1, 8, 1, 8, 1], cycles)
}
