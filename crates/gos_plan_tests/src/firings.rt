// Small plans, fired step by step by the slow program.
ghost use Rattle.std.specs.Prelude.{IsTrue};
ghost use Rattle.gos_plan.specs.Ranges.{HasBranch};

use gos_plan::{
    End, Firing, Kind, ObjectFault, Phase, Plan, Puts, Slot, State, Token, fire, read_object,
};
use gos_types::NoMemory;
use std::alloc::{AllocError, Global};
use std::test::Fail;

// What comes next at a bench.
#[derive(Clone, Copy, PartialEq, Eq)]
enum Step {
    // A part took a token by this slot.
    Fired { part: u32, takes: Slot },
    // Every token waits for the outside.
    Quiet,
    // A part doesn't take a token that waits for it.
    Stuck,
}

// A token on a joint, which is named by its end that asks, on its way to this end.
#[derive(Clone, Copy)]
struct Lying {
    to: End,
    slot_asks: bool,
    value: u64,
}

// The states of a plan's parts, and the tokens on its joints.
#[derive(Drop)]
struct Bench {
    states: Vec<State>,
    tokens: Vec<Lying>,
}

// A bench with each part at rest, and no token.
fn at_rest(alloc: Global, plan: &Plan) -> Result<Bench, AllocError> {
    let rest = State {
        phase: Phase::Rest,
        number: 7,
    };
    let mut states = Vec::new(alloc);
    for _ in 0..plan.parts().len() {
        states.push(rest)?;
    }
    Ok(Bench {
        states,
        tokens: Vec::new(alloc),
    })
}

// The end to which a token goes that is put at this end, as a request or as an answer.
fn other_end(plan: &Plan, end: End) -> Option<End> {
    for joint in plan.joints() {
        if joint.asks == end {
            return Some(joint.serves);
        }
        if joint.serves == end {
            return Some(joint.asks);
        }
    }
    None
}

// Puts a token at an end. At an end without a joint it is lost.
fn put(bench: &mut Bench, plan: &Plan, end: End, asks: bool, value: u64) -> Result<(), AllocError> {
    if let Some(to) = other_end(plan, end) {
        bench.tokens.push(Lying {
            to,
            slot_asks: asks,
            value,
        })?;
    }
    Ok(())
}

// Puts a token of a part.
fn put_token(bench: &mut Bench, plan: &Plan, part: u32, token: Token) -> Result<(), AllocError> {
    match token.slot {
        Slot::Req(shake) => put(bench, plan, part_end(part, shake), true, token.value),
        Slot::Ans(shake) => put(bench, plan, part_end(part, shake), false, token.value),
    }
}

fn part_end(part: u32, shake: u64) -> End {
    if shake < 1_000 {
        End::Part {
            part,
            shake: shake as u32,
        }
    } else {
        End::Result { shake: 1_000 }
    }
}

// What a part does with a token.
fn fired(
    alloc: Global,
    plan: &Plan,
    part: u32,
    state: State,
    slot: Slot,
    value: u64,
) -> Result<Option<Firing>, NoMemory> {
    let parts = plan.parts();
    let at = part as usize;
    if at < parts.len() && has_branch(&parts[at], state.number) {
        fire(alloc, &parts[at], state, slot, value)
    } else {
        Ok(None)
    }
}

// Whether the number is that of a branch, where the part is a Share.
fn has_branch(kind: &Kind, number: u64) -> bool
    ensures { IsTrue result → HasBranch kind.now number }
{
    match kind {
        Kind::Share(_) => number < 2,
        _ => true,
    }
}

// Fires the part for which the token of this number waits.
fn fire_at(
    alloc: Global,
    plan: &Plan,
    bench: &mut Bench,
    token: Lying,
    part: u32,
    shake: u32,
) -> Result<Step, NoMemory> {
    let takes = if token.slot_asks {
        Slot::Req(u64::from(shake))
    } else {
        Slot::Ans(u64::from(shake))
    };
    let at = part as usize;
    if at >= bench.states.len() {
        return Ok(Step::Stuck);
    }
    match fired(alloc, plan, part, bench.states[at], takes, token.value)? {
        Some(firing) => {
            bench.states[at] = firing.next;
            match firing.puts {
                Puts::Nothing => {}
                Puts::One(one) => put_token(bench, plan, part, one)?,
                Puts::Two(one, two) => {
                    put_token(bench, plan, part, one)?;
                    put_token(bench, plan, part, two)?;
                }
            }
            Ok(Step::Fired { part, takes })
        }
        None => Ok(Step::Stuck),
    }
}

// Fires the first part for which a token waits.
fn go_on(alloc: Global, plan: &Plan, bench: &mut Bench) -> Result<Step, NoMemory> {
    for index in 0..bench.tokens.len() {
        let token = bench.tokens[index];
        if let End::Part { part, shake } = token.to {
            bench.tokens.remove(index);
            return fire_at(alloc, plan, bench, token, part, shake);
        }
    }
    Ok(Step::Quiet)
}

// How often a part takes a token at a slot until all is quiet; no answer where it is stuck, or runs too long.
fn count(
    alloc: Global,
    plan: &Plan,
    bench: &mut Bench,
    wanted: Step,
) -> Result<Option<u32>, NoMemory> {
    let mut times = 0u32;
    for _ in 0..1_000 {
        match go_on(alloc, plan, bench)? {
            Step::Quiet => return Ok(Some(times)),
            Step::Stuck => return Ok(None),
            fired => {
                if fired == wanted && times < 1_000 {
                    times += 1;
                }
            }
        }
    }
    Ok(None)
}

// Runs the result, and counts how often a part takes a token at a slot. Then the answer alone lies on the joints.
fn runs(
    alloc: Global,
    plan: &Plan,
    bench: &mut Bench,
    wanted: Step,
) -> Result<Option<u32>, NoMemory> {
    put(bench, plan, End::Result { shake: 0 }, true, 0)?;
    let times = count(alloc, plan, bench, wanted)?;
    let answered = match bench.tokens.pop() {
        Some(token) => token.to == End::Result { shake: 0 } && bench.tokens.is_empty(),
        None => false,
    };
    if answered { Ok(times) } else { Ok(None) }
}

// `skip ; skip`.
const SEQUENCE: &[u8] =
    b"gosobj 1\nweight 15\nimports 0\nresult com\nparts 3\nseq\nskip\nskip\njoints 3\nr.0 p0.2\np0.0 p1.0\np0.1 p2.0\nend\n";

// `new x : 1 in while !x = 0:1 do x := 1:1`.
const LOOP: &[u8] =
    b"gosobj 1\nweight 49\nimports 0\nresult com\nparts 7\nlocal 1 com\nwhile\neq 1\nderef 1\nlit 1 0\nassign 1\nlit 1 1\njoints 9\nr.0 p0.3\np0.0 p1.2\np1.0 p2.2\np2.0 p3.1\np3.0 p0.1\np2.1 p4.0\np1.1 p5.2\np5.0 p6.0\np5.1 p0.2\nend\n";

// Each part of a sequence runs once, each time that the sequence runs.
#[test]
fn a_sequence_fires(rt: HostRuntime) -> Result<(), Fail> {
    let alloc = rt.alloc();
    let plan = read_object(alloc, SEQUENCE)?;
    let mut bench = at_rest(alloc, &plan)?;
    for part in [1u32, 2] {
        let wanted = Step::Fired {
            part,
            takes: Slot::Req(0),
        };
        assert!(rt; runs(alloc, &plan, &mut bench, wanted)? == Some(1));
    }
    Ok(())
}

// The body of the loop runs once, since it changes the variable, and so it does at each entry: the variable begins at 0.
#[test]
fn a_loop_with_a_variable_fires(rt: HostRuntime) -> Result<(), Fail> {
    let alloc = rt.alloc();
    let plan = read_object(alloc, LOOP)?;
    let mut bench = at_rest(alloc, &plan)?;
    let body = Step::Fired {
        part: 5,
        takes: Slot::Req(2),
    };
    for _ in 0..3 {
        assert!(rt; runs(alloc, &plan, &mut bench, body)? == Some(1));
    }
    Ok(())
}

// Fires an array of four numbers, and tells the one token that it puts.
fn stepped(
    alloc: Global,
    state: &mut State,
    slot: Slot,
    value: u64,
) -> Result<Option<Token>, NoMemory> {
    let kind = Kind::Array { w: 8, n: 4, v: 0 };
    match fire(alloc, &kind, *state, slot, value)? {
        Some(
            Firing {
                next,
                puts: Puts::One(token),
            },
        ) => {
            *state = next;
            Ok(Some(token))
        }
        _ => Ok(None),
    }
}

// A write at 2 is read there and nowhere else, the last of two at one index counts, and each entry begins with zeros.
#[test]
fn an_array_answers_what_was_written(rt: HostRuntime) -> Result<(), Fail> {
    let alloc = rt.alloc();
    let mut state = State {
        phase: Phase::Rest,
        number: 9,
    };
    let steps = [
        (Slot::Req(4), 0, Slot::Req(0), 0),
        (Slot::Req(3), 7, Slot::Req(1), 0),
        (Slot::Ans(1), 2, Slot::Ans(3), 0),
        (Slot::Req(3), 5, Slot::Req(1), 0),
        (Slot::Ans(1), 2, Slot::Ans(3), 0),
        (Slot::Req(2), 0, Slot::Req(1), 0),
        (Slot::Ans(1), 2, Slot::Ans(2), 5),
        (Slot::Req(2), 0, Slot::Req(1), 0),
        (Slot::Ans(1), 3, Slot::Ans(2), 0),
        (Slot::Ans(0), 0, Slot::Ans(4), 0),
        (Slot::Req(4), 0, Slot::Req(0), 0),
        (Slot::Req(2), 0, Slot::Req(1), 0),
        (Slot::Ans(1), 2, Slot::Ans(2), 0),
    ];
    for (takes, value, slot, answer) in steps {
        let put = Token {
            slot,
            value: answer,
        };
        assert!(rt; stepped(alloc, &mut state, takes, value)? == Some(put));
    }
    assert!(rt; stepped(alloc, &mut state, Slot::Ans(1), 0)?.is_none());
    Ok(())
}
