// Worked rows of both commands: texts, and what is written and printed.
use crate::running::{Left, ran};
use std::alloc::{AllocError, Global};
use std::test::Fail;

/// What `build` writes of `import c : com export c ; c : com`: its netlist.
const BUILT: &str =
    "gosnet 1\ncells 17\ninput 1\nreg 1 16\nreg 1 10\ninput 1\nreg 1 13\nnot 1 4\nconst 1 0\nmux 1 14 6 4\nor 1 6 15\nor 1 14 15\nreg 1 9\nand 1 3 5\nand 1 3 4\nor 1 7 8\nor 1 0 0\nor 1 11 11\nor 1 12 12\nports 2\ngive main com 0 1\ntake c com 2 3\nend\n";

/// Its Verilog text.
const BUILT_VERILOG: &str =
    "module gos_main(clk, rst, main__run, main__done, c__run, c__done);\n  input clk;\n  input rst;\n  input [0:0] main__run;\n  output [0:0] main__done;\n  output [0:0] c__run;\n  input [0:0] c__done;\n  wire [0:0] n0;\n  reg [0:0] n1;\n  reg [0:0] n2;\n  wire [0:0] n3;\n  reg [0:0] n4;\n  wire [0:0] n5;\n  wire [0:0] n6;\n  wire [0:0] n7;\n  wire [0:0] n8;\n  wire [0:0] n9;\n  reg [0:0] n10;\n  wire [0:0] n11;\n  wire [0:0] n12;\n  wire [0:0] n13;\n  wire [0:0] n14;\n  wire [0:0] n15;\n  wire [0:0] n16;\n  assign n0 = main__run;\n  always @(posedge clk) if (rst) n1 <= 1'd0; else n1 <= n16;\n  always @(posedge clk) if (rst) n2 <= 1'd0; else n2 <= n10;\n  assign n3 = c__done;\n  always @(posedge clk) if (rst) n4 <= 1'd0; else n4 <= n13;\n  assign n5 = ~n4;\n  assign n6 = 1'd0;\n  assign n7 = n14 ? n6 : n4;\n  assign n8 = n6 | n15;\n  assign n9 = n14 | n15;\n  always @(posedge clk) if (rst) n10 <= 1'd0; else n10 <= n9;\n  assign n11 = n3 & n5;\n  assign n12 = n3 & n4;\n  assign n13 = n7 | n8;\n  assign n14 = n0 | n0;\n  assign n15 = n11 | n11;\n  assign n16 = n12 | n12;\n  assign main__done = n1;\n  assign c__run = n2;\nendmodule\n";

/// What `tidy` makes of it.
const TIDIED: &str =
    "gosnet 1\ncells 14\ninput 1\nreg 1 12\nreg 1 10\ninput 1\nreg 1 13\nnot 1 4\nconst 1 0\nmux 1 0 6 4\nor 1 6 11\nor 1 0 11\nreg 1 9\nand 1 3 5\nand 1 3 4\nor 1 7 8\nports 2\ngive main com 0 1\ntake c com 2 3\nend\n";

/// Its Verilog text.
const TIDIED_VERILOG: &str =
    "module gos_main(clk, rst, main__run, main__done, c__run, c__done);\n  input clk;\n  input rst;\n  input [0:0] main__run;\n  output [0:0] main__done;\n  output [0:0] c__run;\n  input [0:0] c__done;\n  wire [0:0] n0;\n  reg [0:0] n1;\n  reg [0:0] n2;\n  wire [0:0] n3;\n  reg [0:0] n4;\n  wire [0:0] n5;\n  wire [0:0] n6;\n  wire [0:0] n7;\n  wire [0:0] n8;\n  wire [0:0] n9;\n  reg [0:0] n10;\n  wire [0:0] n11;\n  wire [0:0] n12;\n  wire [0:0] n13;\n  assign n0 = main__run;\n  always @(posedge clk) if (rst) n1 <= 1'd0; else n1 <= n12;\n  always @(posedge clk) if (rst) n2 <= 1'd0; else n2 <= n10;\n  assign n3 = c__done;\n  always @(posedge clk) if (rst) n4 <= 1'd0; else n4 <= n13;\n  assign n5 = ~n4;\n  assign n6 = 1'd0;\n  assign n7 = n0 ? n6 : n4;\n  assign n8 = n6 | n11;\n  assign n9 = n0 | n11;\n  always @(posedge clk) if (rst) n10 <= 1'd0; else n10 <= n9;\n  assign n11 = n3 & n5;\n  assign n12 = n3 & n4;\n  assign n13 = n7 | n8;\n  assign main__done = n1;\n  assign c__run = n2;\nendmodule\n";

/// A latch, by hand.
const LATCH: &str =
    "gosnet 1\ncells 4\ninput 1\nor 1 0 2\nreg 1 1\nreg 1 1\nports 1\ngive main com 0 3\nend\n";

/// Its Verilog text.
const LATCH_VERILOG: &str =
    "module gos_main(clk, rst, main__run, main__done);\n  input clk;\n  input rst;\n  input [0:0] main__run;\n  output [0:0] main__done;\n  wire [0:0] n0;\n  wire [0:0] n1;\n  reg [0:0] n2;\n  reg [0:0] n3;\n  assign n0 = main__run;\n  assign n1 = n0 | n2;\n  always @(posedge clk) if (rst) n2 <= 1'd0; else n2 <= n1;\n  always @(posedge clk) if (rst) n3 <= 1'd0; else n3 <= n1;\n  assign main__done = n3;\nendmodule\n";

/// The texts of a netlist in both forms, and the line that is printed.
const BOTH: [(&str, &str, &str); 3] = [
    (BUILT, BUILT_VERILOG, "ok cells 17\n"),
    (TIDIED, TIDIED_VERILOG, "ok cells 14\n"),
    (LATCH, LATCH_VERILOG, "ok cells 4\n"),
];

// Runs `verilog` on this netlist file.
fn to_verilog(alloc: Global, net: &[u8]) -> Result<Left, AllocError> {
    ran(alloc, &["verilog", "a.net", "out"], &[(b"a.net", net)])
}

// Runs `netlist` on this Verilog file.
fn to_netlist(alloc: Global, ver: &[u8]) -> Result<Left, AllocError> {
    ran(alloc, &["netlist", "a.v", "out"], &[(b"a.v", ver)])
}

#[test]
fn each_form_is_written_of_the_other(rt: HostRuntime) -> Result<(), Fail> {
    for (net, ver, line) in BOTH.iter() {
        let there = to_verilog(rt.alloc(), net.as_bytes())?;
        assert!(rt; there.ended(0, line.as_bytes()) && there.holds(b"out", ver.as_bytes()));
        assert!(rt; there.holds(b"a.net", net.as_bytes()));
        let back = to_netlist(rt.alloc(), ver.as_bytes())?;
        assert!(rt; back.ended(0, line.as_bytes()) && back.holds(b"out", net.as_bytes()));
        assert!(rt; back.holds(b"a.v", ver.as_bytes()));
    }
    Ok(())
}

/// Netlist files that are rejected, and the line: an empty one, one that breaks off, one with a blank more, a Verilog text, a net that
/// isn't there, a wrong width, no port, and a combinational cycle.
const WRONG_NETS: [(&str, &str); 8] = [
    ("", "a.net: N1 at 0\n"),
    ("gosnet 1\ncells 4\ninput 1\n", "a.net: N1 at 25\n"),
    (
        "gosnet 1\ncells 2\ninput 1\nreg 1 0\nports 1\ngive main com 0 1\nend\n ",
        "a.net: N1 at 63\n",
    ),
    (LATCH_VERILOG, "a.net: N1 at 0\n"),
    (
        "gosnet 1\ncells 2\ninput 1\nreg 1 2\nports 1\ngive main com 0 1\nend\n",
        "a.net: K3 cell 1\n",
    ),
    (
        "gosnet 1\ncells 2\ninput 1\nreg 2 0\nports 1\ngive main com 0 1\nend\n",
        "a.net: K2 cell 1\n",
    ),
    (
        "gosnet 1\ncells 2\ninput 1\nreg 1 0\nports 0\nend\n",
        "a.net: K4 port 0\n",
    ),
    (
        "gosnet 1\ncells 4\ninput 1\nor 1 0 2\nand 1 1 0\nreg 1 1\nports 1\ngive main com 0 3\nend\n",
        "a.net: K1 cycle 1 2\n",
    ),
];

#[test]
fn wrong_netlists_are_rejected(rt: HostRuntime) -> Result<(), Fail> {
    for (net, line) in WRONG_NETS.iter() {
        let left = to_verilog(rt.alloc(), net.as_bytes())?;
        assert!(rt; left.ended(2, line.as_bytes()) && !left.has(b"out"));
    }
    Ok(())
}

/// The Verilog text of a register, up to what it holds next; and from there on.
const FRONT: &str =
    "module gos_main(clk, rst, main__run, main__done);\n  input clk;\n  input rst;\n  input [0:0] main__run;\n  output [0:0] main__done;\n  wire [0:0] n0;\n  reg [0:0] n1;\n  assign n0 = main__run;\n  always @(posedge clk) if (rst) n1 <= 1'd0; else n1 <= ";

const BACK: &str = ";\n  assign main__done = n1;\nendmodule\n";

// Runs `netlist` on the text of a register that holds next what a net of this name shows.
fn register(alloc: Global, net: &str, more: &str) -> Result<Left, AllocError> {
    let mut text = FRONT.as_bytes().to_vec(alloc)?;
    for part in [net, BACK, more] {
        text.extend_from_slice(part.as_bytes())?;
    }
    to_netlist(alloc, text.as_slice())
}

#[test]
fn wrong_verilog_is_rejected(rt: HostRuntime) -> Result<(), Fail> {
    let alloc = rt.alloc();
    assert!(rt; register(alloc, "n0", "")?.ended(0, b"ok cells 2\n"));
    assert!(rt; register(alloc, "m0", "")?.ended(2, b"a.v: V1 at 242\n"));
    assert!(rt; register(alloc, "n0", " ")?.ended(2, b"a.v: V1 at 282\n"));
    assert!(rt; register(alloc, "n2", "")?.ended(2, b"a.v: K3 cell 1\n"));
    assert!(rt; to_netlist(alloc, b"")?.ended(2, b"a.v: V1 at 0\n"));
    assert!(rt; to_netlist(alloc, LATCH.as_bytes())?.ended(2, b"a.v: V1 at 0\n"));
    assert!(rt; !register(alloc, "n2", "")?.has(b"out"));
    Ok(())
}
