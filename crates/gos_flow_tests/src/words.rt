// Words that are no command.
use crate::running::ran;
use std::test::Fail;

const USAGE: &[u8] = b"usage: gos_flow verilog NET OUT | netlist VER OUT\n";

/// Words that are no command: too few, too many, another verb, no name of a file, and an output that is the input.
const WRONG: [&[&str]; 9] = [
    &[],
    &["verilog"],
    &["verilog", "a.net"],
    &["verilog", "a.net", "a.v", "b.v"],
    &["Verilog", "a.net", "a.v"],
    &["tidy", "a.net", "a.v"],
    &["verilog", "a net", "a.v"],
    &["netlist", "a.v", ""],
    &["netlist", "a.net", "a.net"],
];

#[test]
fn other_words_are_answered_with_the_usage_line(rt: HostRuntime) -> Result<(), Fail> {
    for words in WRONG.iter() {
        let left = ran(rt.alloc(), words, &[(b"a.net", b"text")])?;
        assert!(rt; left.ended(1, USAGE));
        assert!(rt; left.holds(b"a.net", b"text") && !left.has(b"a.v"));
    }
    Ok(())
}
