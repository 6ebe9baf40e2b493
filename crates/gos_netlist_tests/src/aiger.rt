// Circuits of gates and their texts.
use gos_gates::{AagFault, one_answer, print_aag, read_aag, reads_back, small_circuits};
use std::alloc::Global;
use std::test::Fail;

// Two latches that hold 1 from the cycle on in which the input was 1 before.
const KEEPER: &str = "aag 4 1 2 1 1\n2\n4 9\n6 9\n6\n8 5 3\n";

#[test]
fn reads_gates_and_prints_them_again(rt: HostRuntime) -> Result<(), Fail> {
    let alloc = rt.alloc();
    let aig = read_aag(alloc, KEEPER.as_bytes())?;
    assert!(rt; aig.inputs == 1);
    assert!(rt; aig.latches.as_slice() == [9, 9].as_slice());
    assert!(rt; aig.outputs.as_slice() == [6].as_slice());
    assert!(rt; aig.gates.as_slice() == [(5, 3)].as_slice());
    let text = print_aag(alloc, &aig)?;
    assert!(rt; text.as_slice() == KEEPER.as_bytes());
    Ok(())
}

// Constants, a latch that holds a gate, and gates of equal literals.
#[test]
fn reads_all_that_literals_may_be(rt: HostRuntime) -> Result<(), Fail> {
    let alloc = rt.alloc();
    let text = "aag 4 1 1 3 2\n2\n4 9\n0\n1\n8\n6 1 0\n8 7 7\n";
    let aig = read_aag(alloc, text.as_bytes())?;
    assert!(rt; aig.gates.as_slice() == [(1, 0), (7, 7)].as_slice());
    let empty = read_aag(alloc, b"aag 0 0 0 0 0\n")?;
    assert!(rt; empty.outputs.is_empty());
    Ok(())
}

// Whether a text breaks off at this place.
fn breaks_off(alloc: Global, text: &str, place: usize) -> bool {
    match read_aag(alloc, text.as_bytes()) {
        Err(AagFault::Form { at }) => at == place,
        Err(AagFault::NoMemory) | Ok(_) => false,
    }
}

// Texts that are of no circuit, and where each breaks off.
const REFUSED: [(&str, usize); 13] = [
    ("", 0),
    ("aag 02", 5),
    ("aag 2147483648", 13),
    ("aag 2 3", 6),
    ("aag 2 1 1 1 1", 12),
    ("aag 2147483647 0 0 4294967295 2147483647\n", 41),
    ("aag 2 1 1 1 0\n2\n4 6", 18),
    ("aag 2 1 1 1 0\n2\n6", 16),
    ("aag 2 1 1 1 0\n2\n4 2\n4", 21),
    ("aag 2 1 1 1 0\n2\n4 2\n4\ni0 run\n", 22),
    ("aag 2 1 1 1 0\r\n", 13),
    ("aag 2 1 0 0 1\n2\n4 4 2\n", 18),
    ("aag 2 1 0 0 1\n2\n4 2 3\n", 20),
];

#[test]
fn refuses_texts_where_they_break_off(rt: HostRuntime) {
    for (text, place) in REFUSED.iter() {
        assert!(rt; breaks_off(rt.alloc(), text, *place));
    }
}

#[test]
fn laws_return() {
    small_circuits();
    one_answer();
    reads_back();
}
