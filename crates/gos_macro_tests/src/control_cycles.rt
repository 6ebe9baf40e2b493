// Each kind that passes control on, settled cycle by cycle over the worked steps of its firing rule.
use crate::trial::{NO, PULSE, ShortCycle, first_wrong, runs_short, widened};
use gos_control::Control;
use gos_plan::Kind;
use std::test::Fail;

// The answers of a test.
const HOLDS: Option<u64> = Some(1);

const FAILS: Option<u64> = Some(0);

#[test]
fn a_skip_answers_at_once(rt: HostRuntime) -> Result<(), Fail> {
    let cycles: &[ShortCycle] = &[
        ([PULSE, NO, NO, NO], [PULSE, NO, NO, NO]),
        ([NO, NO, NO, NO], [NO, NO, NO, NO]),
        ([PULSE, NO, NO, NO], [PULSE, NO, NO, NO]),
    ];
    runs_short(rt.alloc(), &Control(Kind::Skip), 1, [1; 6], cycles)
}

#[test]
fn a_sequence_runs_one_part_after_the_other(rt: HostRuntime) -> Result<(), Fail> {
    let cycles: &[ShortCycle] = &[
        ([NO, NO, PULSE, NO], [PULSE, NO, NO, NO]),
        ([PULSE, NO, NO, NO], [NO, PULSE, NO, NO]),
        // The end of a run, and the next run.
        ([NO, PULSE, PULSE, NO], [PULSE, NO, PULSE, NO]),
        ([PULSE, NO, NO, NO], [NO, PULSE, NO, NO]),
        ([NO, PULSE, NO, NO], [NO, NO, PULSE, NO]),
    ];
    runs_short(rt.alloc(), &Control(Kind::Seq), 3, [1; 6], cycles)
}

#[test]
fn a_sequence_ends_with_the_number_of_its_second_part(rt: HostRuntime) -> Result<(), Fail> {
    let cycles: &[ShortCycle] = &[
        ([NO, NO, PULSE, NO], [PULSE, NO, NO, NO]),
        ([PULSE, NO, NO, NO], [NO, PULSE, NO, NO]),
        ([NO, Some(200), NO, NO], [NO, NO, Some(200), NO]),
        ([NO, NO, NO, NO], [NO, NO, NO, NO]),
    ];
    runs_short(
        rt.alloc(),
        &Control(Kind::SeqExp { w: 8 }),
        3,
        [1, 8, 1, 1, 1, 1],
        cycles,
    )
}

#[test]
fn a_par_answers_when_both_are_done(rt: HostRuntime) -> Result<(), Fail> {
    let cycles: &[ShortCycle] = &[
        ([NO, NO, PULSE, NO], [PULSE, PULSE, NO, NO]),
        ([NO, PULSE, NO, NO], [NO, NO, NO, NO]),
        // The left answer, and the next run.
        ([PULSE, NO, PULSE, NO], [PULSE, PULSE, PULSE, NO]),
        ([PULSE, NO, NO, NO], [NO, NO, NO, NO]),
        ([NO, PULSE, NO, NO], [NO, NO, PULSE, NO]),
        // Both answers in one cycle.
        ([NO, NO, PULSE, NO], [PULSE, PULSE, NO, NO]),
        ([PULSE, PULSE, NO, NO], [NO, NO, PULSE, NO]),
    ];
    runs_short(rt.alloc(), &Control(Kind::Par), 3, [1; 6], cycles)
}

#[test]
fn a_par_keeps_the_first_answer_of_the_next_run(rt: HostRuntime) -> Result<(), Fail> {
    let cycles: &[ShortCycle] = &[
        ([NO, NO, PULSE, NO], [PULSE, PULSE, NO, NO]),
        ([PULSE, NO, NO, NO], [NO, NO, NO, NO]),
        // The right answer, the next run, and its left answer.
        ([PULSE, PULSE, PULSE, NO], [PULSE, PULSE, PULSE, NO]),
        ([NO, PULSE, NO, NO], [NO, NO, PULSE, NO]),
        // The same with the sides exchanged.
        ([NO, NO, PULSE, NO], [PULSE, PULSE, NO, NO]),
        ([NO, PULSE, NO, NO], [NO, NO, NO, NO]),
        ([PULSE, PULSE, PULSE, NO], [PULSE, PULSE, PULSE, NO]),
        ([PULSE, NO, NO, NO], [NO, NO, PULSE, NO]),
    ];
    runs_short(rt.alloc(), &Control(Kind::Par), 3, [1; 6], cycles)
}

#[test]
fn a_choice_runs_the_part_that_its_test_chooses(rt: HostRuntime) -> Result<(), Fail> {
    let cycles: &[ShortCycle] = &[
        ([NO, NO, NO, PULSE], [PULSE, NO, NO, NO]),
        ([HOLDS, NO, NO, NO], [NO, PULSE, NO, NO]),
        // The end of a run, and the next run.
        ([NO, PULSE, NO, PULSE], [PULSE, NO, NO, PULSE]),
        ([FAILS, NO, NO, NO], [NO, NO, PULSE, NO]),
        ([NO, NO, PULSE, NO], [NO, NO, NO, PULSE]),
        // The test is answered in the cycle in which it is asked.
        ([FAILS, NO, NO, PULSE], [PULSE, NO, PULSE, NO]),
        ([NO, NO, PULSE, NO], [NO, NO, NO, PULSE]),
        // A whole run in one cycle.
        ([HOLDS, PULSE, NO, PULSE], [PULSE, PULSE, NO, PULSE]),
        ([NO, NO, NO, NO], [NO, NO, NO, NO]),
    ];
    runs_short(rt.alloc(), &Control(Kind::If), 4, [1; 6], cycles)
}

#[test]
fn a_choice_answers_the_number_of_its_part(rt: HostRuntime) -> Result<(), Fail> {
    let cycles: &[ShortCycle] = &[
        ([NO, NO, NO, PULSE], [PULSE, NO, NO, NO]),
        ([HOLDS, NO, NO, NO], [NO, PULSE, NO, NO]),
        ([NO, Some(3), NO, PULSE], [PULSE, NO, NO, Some(3)]),
        ([FAILS, NO, NO, NO], [NO, NO, PULSE, NO]),
        ([NO, NO, Some(250), NO], [NO, NO, NO, Some(250)]),
        // A whole run in one cycle.
        ([FAILS, NO, Some(17), PULSE], [PULSE, NO, PULSE, Some(17)]),
        ([NO, NO, NO, NO], [NO, NO, NO, NO]),
    ];
    runs_short(
        rt.alloc(),
        &Control(Kind::IfExp { w: 8 }),
        4,
        [1, 8, 8, 1, 1, 1],
        cycles,
    )
}

#[test]
fn a_repeated_command_runs_until_its_test_fails(rt: HostRuntime) -> Result<(), Fail> {
    let cycles: &[ShortCycle] = &[
        ([NO, NO, PULSE, NO], [PULSE, NO, NO, NO]),
        ([HOLDS, NO, NO, NO], [NO, PULSE, NO, NO]),
        // Behind the command's end the test is asked for a cycle later.
        ([NO, PULSE, NO, NO], [NO, NO, NO, NO]),
        // The test is answered in the cycle in which it is asked.
        ([FAILS, NO, NO, NO], [PULSE, NO, PULSE, NO]),
        // A run without its command, in one cycle.
        ([FAILS, NO, PULSE, NO], [PULSE, NO, PULSE, NO]),
        // A request, its test and the command, all in one cycle.
        ([HOLDS, PULSE, PULSE, NO], [PULSE, PULSE, NO, NO]),
        ([FAILS, NO, NO, NO], [PULSE, NO, PULSE, NO]),
        ([NO, NO, NO, NO], [NO, NO, NO, NO]),
    ];
    runs_short(rt.alloc(), &Control(Kind::While), 3, [1; 6], cycles)
}

#[test]
fn a_wrong_cycle_is_told(rt: HostRuntime) -> Result<(), Fail> {
    let cycles: &[ShortCycle] = &[
        ([NO, NO, NO, NO], [NO, NO, NO, NO]),
        ([PULSE, NO, NO, NO], [NO, NO, NO, NO]),
    ];
    let cycles = widened(rt.alloc(), cycles)?;
    let wrong = first_wrong(rt.alloc(), &Control(Kind::Skip), 1, [1; 6], &cycles)?;
    assert!(rt; wrong == Some(1));
    Ok(())
}
