// Commands of whose calls one fails: what is told and left.
use crate::running::{held, ran, words_of};
use gos_flow::flow;
use gos_outside::{Call, MemorySink, MemoryStore, SureSink};
use std::alloc::{AllocError, Global};
use std::test::Fail;

const NET: &[u8] = b"gosnet 1\ncells 2\ninput 1\nreg 1 0\nports 1\ngive main com 0 1\nend\n";

const VERILOG: &[u8] =
    b"module gos_main(clk, rst, main__run, main__done);\n  input clk;\n  input rst;\n  input [0:0] main__run;\n  output [0:0] main__done;\n  wire [0:0] n0;\n  reg [0:0] n1;\n  assign n0 = main__run;\n  always @(posedge clk) if (rst) n1 <= 1'd0; else n1 <= n0;\n  assign main__done = n1;\nendmodule\n";

/// Each command: its verb, what is in the file that it reads, and what it writes.
const COMMANDS: [(&str, &[u8], &[u8]); 2] = [("verilog", NET, VERILOG), ("netlist", VERILOG, NET)];

// Whether a command of whose calls the first fails tells the read and writes nothing.
fn tells_its_read(alloc: Global, verb: &str, text: &[u8]) -> Result<bool, AllocError> {
    let mut store = MemoryStore::new(held(alloc, &[(b"in", text)])?, vec![in alloc; 1]?);
    let mut out = SureSink::new(alloc);
    let words = words_of(alloc, &[verb, "in", "out"])?;
    let code = flow(alloc, words.as_slice(), &mut store, &mut out).code();
    let name: &[u8] = b"in";
    Ok(
        code == 3
            && out.bytes().is_empty()
            && store.last_fault() == Some((Call::Read, name))
            && store.get(b"out").is_none(),
    )
}

// Whether one of whose calls the second fails tells the write.
fn tells_its_write(alloc: Global, verb: &str, text: &[u8]) -> Result<bool, AllocError> {
    let mut store = MemoryStore::new(held(alloc, &[(b"in", text)])?, vec![in alloc; 2]?);
    let mut out = SureSink::new(alloc);
    let words = words_of(alloc, &[verb, "in", "out"])?;
    let code = flow(alloc, words.as_slice(), &mut store, &mut out).code();
    let name: &[u8] = b"out";
    Ok(
        code == 3
            && out.bytes().is_empty()
            && store.last_fault() == Some((Call::Write, name))
            && store.get(b"in") == Some(text),
    )
}

// Whether one whose line can't be printed has written its file.
fn writes_unsaid(
    alloc: Global,
    verb: &str,
    text: &[u8],
    written: &[u8],
) -> Result<bool, AllocError> {
    let mut store = MemoryStore::new(held(alloc, &[(b"in", text)])?, Vec::new(alloc));
    let mut broken = MemorySink::new(alloc, vec![in alloc; 1]?);
    let words = words_of(alloc, &[verb, "in", "out"])?;
    let code = flow(alloc, words.as_slice(), &mut store, &mut broken).code();
    Ok(code == 4 && broken.bytes().is_empty() && store.get(b"out") == Some(written))
}

#[test]
fn a_call_that_fails_is_told(rt: HostRuntime) -> Result<(), Fail> {
    for (verb, text, written) in COMMANDS.iter() {
        assert!(rt; tells_its_read(rt.alloc(), verb, text)?);
        assert!(rt; tells_its_write(rt.alloc(), verb, text)?);
        assert!(rt; writes_unsaid(rt.alloc(), verb, text, written)?);
    }
    Ok(())
}

#[test]
fn a_missing_file_is_told_where_the_store_tells_it(rt: HostRuntime) -> Result<(), Fail> {
    let alloc = rt.alloc();
    let mut store = MemoryStore::new(Vec::new(alloc), Vec::new(alloc));
    let mut out = SureSink::new(alloc);
    let words = words_of(alloc, &["netlist", "none.v", "a.net"])?;
    let code = flow(alloc, words.as_slice(), &mut store, &mut out).code();
    let name: &[u8] = b"none.v";
    assert!(rt; code == 3 && out.bytes().is_empty());
    assert!(rt; store.last_fault() == Some((Call::Read, name)));
    // Such a file counts as empty elsewhere.
    let left = ran(alloc, &["netlist", "none.v", "a.net"], &[])?;
    assert!(rt; left.ended(2, b"none.v: V1 at 0\n"));
    Ok(())
}
