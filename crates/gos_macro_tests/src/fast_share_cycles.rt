// Shares by order, settled cycle by cycle over the worked steps of their firing rule. A request goes on in the cycle in which
// it comes.
use crate::trial::{Cycle, NO, PULSE, QUIET, runs};
use gos_fast_share::FastSharing;
use gos_types::Ty;
use std::test::Fail;

#[test]
fn command_answers_the_caller_who_asked_at_once(rt: HostRuntime) -> Result<(), Fail> {
    let cycles: &[Cycle] = &[
        ([NO, PULSE, NO, NO, NO, NO], [PULSE, NO, NO, NO, NO, NO]),
        (QUIET, QUIET),
        ([PULSE, NO, NO, NO, NO, NO], [NO, PULSE, NO, NO, NO, NO]),
        // The source answers in the cycle in which caller 1 asks.
        (
            [PULSE, NO, PULSE, NO, NO, NO],
            [PULSE, NO, PULSE, NO, NO, NO],
        ),
        (
            [PULSE, PULSE, NO, NO, NO, NO],
            [PULSE, PULSE, NO, NO, NO, NO],
        ),
        (QUIET, QUIET),
    ];
    let share = FastSharing {
        ty: &Ty::Com,
        order: &[1, 2, 0],
    };
    runs(rt.alloc(), &share, 3, [1; 6], cycles)
}

#[test]
fn answer_that_comes_first_is_the_first_callers(rt: HostRuntime) -> Result<(), Fail> {
    let cycles: &[Cycle] = &[
        ([NO, PULSE, NO, NO, NO, NO], [PULSE, NO, NO, NO, NO, NO]),
        // Caller 1 asks in the cycle in which the source answers caller 0.
        (
            [PULSE, NO, PULSE, NO, NO, NO],
            [PULSE, PULSE, NO, NO, NO, NO],
        ),
        ([PULSE, NO, NO, NO, NO, NO], [NO, NO, PULSE, NO, NO, NO]),
        (QUIET, QUIET),
    ];
    let share = FastSharing {
        ty: &Ty::Com,
        order: &[0, 1, 2],
    };
    runs(rt.alloc(), &share, 3, [1; 6], cycles)
}

#[test]
fn variable_passes_a_written_number_at_once(rt: HostRuntime) -> Result<(), Fail> {
    let cycles: &[Cycle] = &[
        // Caller 0 writes 9, and caller 1 reads it.
        ([NO, NO, NO, Some(9), NO, NO], [NO, Some(9), NO, NO, NO, NO]),
        ([NO, PULSE, NO, NO, NO, NO], [NO, NO, NO, PULSE, NO, NO]),
        (
            [Some(9), NO, NO, NO, PULSE, NO],
            [PULSE, NO, NO, NO, Some(9), NO],
        ),
        (QUIET, QUIET),
    ];
    let share = FastSharing {
        ty: &Ty::Var(8),
        order: &[2, 3, 4, 5, 0, 1],
    };
    runs(rt.alloc(), &share, 6, [8, 1, 1, 8, 1, 8], cycles)
}
