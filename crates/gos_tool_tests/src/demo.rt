// The files of the demo, and words that ask for none.
use crate::running::{Left, events, ran};
use crate::texts::USAGE;
use std::alloc::{AllocError, Global};
use std::test::Fail;

/// The build file of three levels.
const THREE: &[u8] =
    b"gosbuild 1\ninst main demo_main.gos demo_main.obj\ninst l1 demo_twice.gos demo_l1.obj\ninst l2 demo_pair.gos demo_l2.obj\ninst l3 demo_pass.gos demo_l3.obj\ninst leaf demo_id.gos demo_leaf.obj\nbind main f l1\nbind l1 f l2\nbind l2 f l3\nbind l3 f leaf\nroot main\nnet demo.net\nverilog demo.v\npulses demo.pls\ntrace demo.trc\n";

const PULSES: &[u8] = b"cycles 33600\nnext 0 main.run\nnext 0 c.done\nnext 0 c.done\n";

// Runs `demo` with this word over a store without files.
fn demo(alloc: Global, number: &str) -> Result<Left, AllocError> {
    ran(alloc, &["demo", number], &[])
}

#[test]
fn files_of_three_levels_are_written(rt: HostRuntime) -> Result<(), Fail> {
    let left = demo(rt.alloc(), "3")?;
    let pair = b"import f : com -> com export fun a : com . f (fst (a, skip)) : com -> com\n";
    assert!(rt; left.has_code(0) && left.holds(b"demo.txt", THREE));
    assert!(rt; left.holds(b"demo.pls", PULSES) && left.holds(b"demo_pair.gos", pair));
    Ok(())
}

// Numbers of levels, and the line that each is told.
const LEVELS: [(&str, &str); 3] = [
    ("1", "ok weight 75 cycles 19200 pulses 6 unused 0\n"),
    ("4", "ok weight 179 cycles 40800 pulses 6 unused 0\n"),
    ("12", "ok weight 435 cycles 98400 pulses 6 unused 0\n"),
];

/// The pulses of each run, in their order.
const ORDER: &[u8] = b"main.run\nc.run\nc.done\nc.run\nc.done\nmain.done\ncycles ";

// The command is run twice, since the first level calls the second twice.
#[test]
fn each_number_of_levels_is_run(rt: HostRuntime) -> Result<(), Fail> {
    for (number, line) in LEVELS.iter() {
        let left = demo(rt.alloc(), number)?;
        assert!(rt; left.ended(0, line.as_bytes()));
        let order = events(rt.alloc(), left.file(b"demo.trc").unwrap_or(b""))?;
        assert!(rt; order.starts_with(ORDER));
    }
    Ok(())
}

const NO_LEVELS: [&str; 5] = ["0", "13", "01", "1.", "x"];

#[test]
fn other_numbers_are_no_demo(rt: HostRuntime) -> Result<(), Fail> {
    for number in NO_LEVELS.iter() {
        let left = demo(rt.alloc(), number)?;
        assert!(rt; left.ended(1, USAGE) && !left.has(b"demo.txt"));
    }
    Ok(())
}
