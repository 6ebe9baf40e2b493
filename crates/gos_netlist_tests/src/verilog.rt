// The texts of two circuits, written by hand.
ghost use Rattle.std.specs.Prelude.{◌≡◌, ◌≤◌, ◌<◌, ◌^◌, IfOk, length};

use crate::samples::{bit, latch, port};
use gos_lex::LexFault;
use gos_netcheck::accept;
use gos_netlist::{Cell, Gate, Ground, NetId, Netlist, Port, Side};
use gos_verilog::{VFault, read_verilog, write_verilog};
use std::alloc::{AllocError, Global};
use std::test::Fail;

// The text of the latch.
const LATCH: &str = "module gos_main(clk, rst, main__run, main__done);
  input clk;
  input rst;
  input [0:0] main__run;
  output [0:0] main__done;
  wire [0:0] n0;
  wire [0:0] n1;
  reg [0:0] n2;
  reg [0:0] n3;
  assign n0 = main__run;
  assign n1 = n0 | n2;
  always @(posedge clk) if (rst) n2 <= 1'd0; else n2 <= n1;
  always @(posedge clk) if (rst) n3 <= 1'd0; else n3 <= n1;
  assign main__done = n3;
endmodule
";

// The text of a circuit with a cell of each sort, which gives an expression and takes a variable.
const SORTS: &str =
    "module gos_main(clk, rst, main__ask, main__ans, main__ansvalue, v__read, v__ans, v__ansvalue, v__write, v__writevalue, v__done);
  input clk;
  input rst;
  input [0:0] main__ask;
  output [0:0] main__ans;
  output [63:0] main__ansvalue;
  output [0:0] v__read;
  input [0:0] v__ans;
  input [63:0] v__ansvalue;
  output [0:0] v__write;
  output [63:0] v__writevalue;
  input [0:0] v__done;
  wire [0:0] n0;
  wire [0:0] n1;
  wire [63:0] n2;
  wire [0:0] n3;
  wire [63:0] n4;
  wire [63:0] n5;
  wire [63:0] n6;
  wire [63:0] n7;
  wire [63:0] n8;
  wire [63:0] n9;
  wire [63:0] n10;
  wire [63:0] n11;
  wire [0:0] n12;
  wire [0:0] n13;
  wire [63:0] n14;
  reg [0:0] n15;
  reg [63:0] n16;
  assign n0 = v__done;
  assign n1 = v__ans;
  assign n2 = v__ansvalue;
  assign n3 = main__ask;
  assign n4 = 64'd18446744073709551615;
  assign n5 = ~n2;
  assign n6 = n2 & n4;
  assign n7 = n2 | n4;
  assign n8 = n2 ^ n4;
  assign n9 = n0 ? n5 : n6;
  assign n10 = n2 + n4;
  assign n11 = n2 - n4;
  assign n12 = n2 == n4;
  assign n13 = n2 < n4;
  assign n14 = n0 ? n2 : 64'd0;
  always @(posedge clk) if (rst) n15 <= 1'd0; else n15 <= n12;
  always @(posedge clk) if (rst) n16 <= 64'd0; else n16 <= n9;
  assign main__ans = n15;
  assign main__ansvalue = n16;
  assign v__read = n15;
  assign v__write = n15;
  assign v__writevalue = n16;
endmodule
";

fn latch_text() -> &'static [u8] {
    LATCH.as_bytes()
}

fn sorts_text() -> &'static [u8] {
    SORTS.as_bytes()
}

// The text of a netlist that is accepted.
fn written(alloc: Global, net: Netlist) -> Result<Vec<u8>, Fail>
    requires { length net.cells < 2 ^ 32 }
{
    let net = accept(alloc, net)?;
    Ok(write_verilog(alloc, &net)?)
}

#[test]
fn writes_the_latch(rt: HostRuntime) -> Result<(), Fail> {
    let text = written(rt.alloc(), latch(rt.alloc())?)?;
    assert!(rt; text.as_slice() == latch_text());
    Ok(())
}

fn wide(gate: Gate) -> Cell {
    Cell { width: 64, gate }
}

// A cell of each sort. The Input cells and the nets of ports stand in different orders.
fn sorted_cells() -> [Cell; 17] {
    let a = NetId(2);
    let b = NetId(4);
    [
        bit(Gate::Input),
        bit(Gate::Input),
        wide(Gate::Input),
        bit(Gate::Input),
        wide(Gate::Const(u64::MAX)),
        wide(Gate::Not(a)),
        wide(Gate::And(a, b)),
        wide(Gate::Or(a, b)),
        wide(Gate::Xor(a, b)),
        wide(Gate::Mux(NetId(0), NetId(5), NetId(6))),
        wide(Gate::Add(a, b)),
        wide(Gate::Sub(a, b)),
        bit(Gate::Eq(a, b)),
        bit(Gate::Less(a, b)),
        wide(Gate::Gate(NetId(0), a)),
        bit(Gate::Reg(NetId(12))),
        wide(Gate::Reg(NetId(9))),
    ]
}

// The ports of these cells: an expression that is given, and a variable that is taken.
fn sorted_ports(alloc: Global) -> Result<Vec<Port>, LexFault> {
    let given = [NetId(3), NetId(15), NetId(16)];
    let taken = [
        NetId(15),
        NetId(1),
        NetId(2),
        NetId(15),
        NetId(16),
        NetId(0),
    ];
    let main = port(alloc, b"main", Side::Give, Ground::Exp(64), &given)?;
    let v = port(alloc, b"v", Side::Take, Ground::Var(64), &taken)?;
    Ok(vec![in alloc; main, v]?)
}

fn sorts(alloc: Global) -> Result<Netlist, LexFault>
    ensures { IfOk result (λ net. length net.cells ≡ 17) }
{
    let ports = sorted_ports(alloc)?;
    let cells = sorted_cells().as_slice().to_vec(alloc)?;
    Ok(Netlist { cells, ports })
}

#[test]
fn writes_each_sort(rt: HostRuntime) -> Result<(), Fail> {
    let text = written(rt.alloc(), sorts(rt.alloc())?)?;
    assert!(rt; text.as_slice() == sorts_text());
    Ok(())
}

// The text of what is read from this one.
fn read_and_written(alloc: Global, text: &[u8]) -> Result<Vec<u8>, Fail> {
    written(alloc, read_verilog(alloc, text)?)
}

#[test]
fn reads_the_latch(rt: HostRuntime) -> Result<(), Fail> {
    let written = read_and_written(rt.alloc(), latch_text())?;
    assert!(rt; written.as_slice() == latch_text());
    Ok(())
}

#[test]
fn reads_each_sort(rt: HostRuntime) -> Result<(), Fail> {
    let written = read_and_written(rt.alloc(), sorts_text())?;
    assert!(rt; written.as_slice() == sorts_text());
    Ok(())
}

// Where a text is refused.
fn refused_at(alloc: Global, text: &[u8]) -> Option<usize> {
    match read_verilog(alloc, text) {
        Err(VFault::Form { at }) => Some(at),
        _ => None,
    }
}

// Whether a text is refused at this place.
fn is_refused_at(alloc: Global, text: &[u8], place: usize) -> bool {
    match refused_at(alloc, text) {
        Some(at) => at == place,
        None => false,
    }
}

#[test]
fn tells_where_a_text_ends(rt: HostRuntime) {
    let text = latch_text();
    for end in 0..text.len() {
        assert!(rt; is_refused_at(rt.alloc(), &text[..end], end));
    }
}

#[test]
fn tells_what_stands_behind_a_text(rt: HostRuntime) -> Result<(), Fail> {
    let mut longer = latch_text().to_vec(rt.alloc())?;
    let end = longer.len();
    longer.push(b' ')?;
    assert!(rt; is_refused_at(rt.alloc(), &longer, end));
    Ok(())
}

// The text with another byte at a place.
fn with_byte(alloc: Global, text: &[u8], at: usize, byte: u8) -> Result<Vec<u8>, AllocError>
    requires { at < length text.now }
{
    let mut changed = text.to_vec(alloc)?;
    changed[at] = byte;
    Ok(changed)
}

// Whether another byte at any place of a text is told there.
fn tells_each_byte(alloc: Global, text: &[u8]) -> Result<bool, AllocError> {
    for at in 0..text.len() {
        let changed = with_byte(alloc, text, at, b'#')?;
        if !is_refused_at(alloc, &changed, at) {
            return Ok(false);
        }
    }
    Ok(true)
}

#[test]
fn tells_a_wrong_byte(rt: HostRuntime) -> Result<(), Fail> {
    assert!(rt; tells_each_byte(rt.alloc(), latch_text())?);
    assert!(rt; tells_each_byte(rt.alloc(), sorts_text())?);
    Ok(())
}

// Starts, and where each is refused.
const STARTS: [(&[u8], usize); 3] = [
    (b"module gas_main", 8),
    (b"module gos_1ab", 11),
    (b"module gos_main(clk; rst", 19),
];

#[test]
fn tells_a_wrong_start(rt: HostRuntime) {
    for (text, place) in STARTS.iter() {
        assert!(rt; is_refused_at(rt.alloc(), text, *place));
    }
}

// The 256th byte of a name can't belong to one.
#[test]
fn tells_a_long_start(rt: HostRuntime) -> Result<(), Fail> {
    let mut long = b"module gos_".as_slice().to_vec(rt.alloc())?;
    push_letters(&mut long, 300)?;
    assert!(rt; is_refused_at(rt.alloc(), &long, 266));
    Ok(())
}

// Adds so many letters.
fn push_letters(text: &mut Vec<u8>, count: usize) -> Result<(), Fail> {
    for _ in 0..count {
        text.push(b'a')?;
    }
    Ok(())
}

// Whether a head breaks off at this place of what stands behind the module's name, the clock and the reset.
fn breaks_at(alloc: Global, behind: &[u8], place: usize) -> Result<bool, AllocError> {
    let mut text = b"module gos_main(clk, rst".as_slice().to_vec(alloc)?;
    let start = text.len();
    text.extend_from_slice(behind)?;
    match refused_at(alloc, &text) {
        Some(at) => Ok(at.checked_sub(start) == Some(place)),
        None => Ok(false),
    }
}

// Heads behind the reset, and where each breaks off.
const HEADS: [(&[u8], usize); 8] = [
    // There is a port, and it is named as the module.
    (b");\n", 0),
    (b", mane__run", 4),
    (b", main_run", 7),
    // The first net is none that comes later, and all nets of a port stand in order.
    (b", main__done", 8),
    (b", main__run);\n", 11),
    (b", main__run, main__ans", 19),
    (b", main__read, main__ans, main__done", 31),
    (b", main__ask, main__ans, main__ansvalue, a__x", 44),
];

#[test]
fn tells_where_a_head_breaks_off(rt: HostRuntime) -> Result<(), Fail> {
    for (behind, place) in HEADS.iter() {
        assert!(rt; breaks_at(rt.alloc(), behind, *place)?);
    }
    Ok(())
}

// The nets of the first port.
const FIRST: &[u8] = b", main__run, main__done";

// Whether a head breaks off at this place of what stands behind the first port.
fn breaks_behind_first(alloc: Global, behind: &[u8], place: usize) -> Result<bool, AllocError>
    requires { place ≤ 4294967295 }
{
    let mut text = FIRST.to_vec(alloc)?;
    text.extend_from_slice(behind)?;
    breaks_at(alloc, &text, FIRST.len() + place)
}

// Names of a second port, and where each breaks off.
const SECONDS: [(&[u8], u32); 5] = [
    // A name without a role, with one of a later net, or without a name breaks off at its end.
    (b", v, v__ans", 3),
    (b", v__done, v__run", 9),
    (b", __run, __done", 7),
    // So does one that a port has before, since it may go on.
    (b", main__run, main__done", 11),
    (b", main__run__run, main__run__done);\n  output", 38),
];

#[test]
fn tells_a_wrong_name_of_a_port(rt: HostRuntime) -> Result<(), Fail> {
    for (behind, place) in SECONDS.iter() {
        assert!(rt; breaks_behind_first(rt.alloc(), behind, *place as usize)?);
    }
    Ok(())
}

// Adds the two nets of a command of this name.
fn add_command(text: &mut Vec<u8>, name: &[u8]) -> Result<(), Fail> {
    text.extend_from_slice(b", ")?;
    text.extend_from_slice(name)?;
    text.extend_from_slice(b"__run, ")?;
    text.extend_from_slice(name)?;
    text.extend_from_slice(b"__done")?;
    Ok(())
}

// A name of so many letters.
fn so_many(alloc: Global, count: usize) -> Result<Vec<u8>, Fail> {
    let mut name = Vec::new(alloc);
    push_letters(&mut name, count)?;
    Ok(name)
}

// The 256th byte has to be the suffix's.
#[test]
fn tells_where_a_long_name_breaks_off(rt: HostRuntime) -> Result<(), Fail> {
    let mut text = b", ".as_slice().to_vec(rt.alloc())?;
    push_letters(&mut text, 300)?;
    assert!(rt; breaks_behind_first(rt.alloc(), &text, 257)?);
    Ok(())
}

// The longest name, a second time.
#[test]
fn tells_where_the_longest_name_breaks_off(rt: HostRuntime) -> Result<(), Fail> {
    let name = so_many(rt.alloc(), 255)?;
    let mut text = FIRST.to_vec(rt.alloc())?;
    add_command(&mut text, &name)?;
    let second = text.len();
    add_command(&mut text, &name)?;
    assert!(rt; breaks_at(rt.alloc(), &text, second.saturating_add(256))?);
    Ok(())
}

// Commands of a name of 254 bytes, and of each that is a byte longer.
fn all_names(alloc: Global) -> Result<Vec<u8>, Fail> {
    let mut text = FIRST.to_vec(alloc)?;
    let mut name = so_many(alloc, 254)?;
    add_command(&mut text, &name)?;
    for b in 0..128u8 {
        if b.is_ascii_alphanumeric() || b == b'_' {
            name.push(b)?;
            add_command(&mut text, &name)?;
            name.truncate(254);
        }
    }
    Ok(text)
}

#[test]
fn tells_where_no_name_is_free(rt: HostRuntime) -> Result<(), Fail> {
    let mut text = all_names(rt.alloc())?;
    let last = text.len();
    add_command(&mut text, &so_many(rt.alloc(), 254)?)?;
    assert!(rt; breaks_at(rt.alloc(), &text, last.saturating_add(255))?);
    Ok(())
}

// But a shorter one may go on with its role.
#[test]
fn tells_where_a_shorter_name_breaks_off(rt: HostRuntime) -> Result<(), Fail> {
    let mut text = all_names(rt.alloc())?;
    let last = text.len();
    text.extend_from_slice(b", ")?;
    push_letters(&mut text, 253)?;
    text.extend_from_slice(b"_a")?;
    assert!(rt; breaks_at(rt.alloc(), &text, last.saturating_add(257))?);
    Ok(())
}

// Where the word first stands in the text, or its end.
fn place_of(text: &[u8], word: &[u8]) -> usize
    ensures { result ≤ length text.now }
{
    for at in 0..text.len() {
        if text[at..].starts_with(word) {
            return at;
        }
    }
    text.len()
}

// The text up to the word, and another end behind it.
fn with_end(alloc: Global, text: &[u8], word: &[u8], end: &[u8]) -> Result<Vec<u8>, Fail> {
    let mut changed = text[..place_of(text, word)].to_vec(alloc)?;
    changed.extend_from_slice(end)?;
    Ok(changed)
}

// Whether a text is refused so many bytes before its end, where it has this end in place of a word and what follows it.
fn ends_refused(
    alloc: Global,
    text: &[u8],
    word: &[u8],
    end: &[u8],
    before: usize,
) -> Result<bool, Fail> {
    let text = with_end(alloc, text, word, end)?;
    match text.len().checked_sub(before) {
        Some(place) => Ok(is_refused_at(alloc, &text, place)),
        None => Ok(false),
    }
}

// An output is no input.
#[test]
fn tells_an_output_for_an_input(rt: HostRuntime) -> Result<(), Fail> {
    let refused = ends_refused(
        rt.alloc(),
        latch_text(),
        b"run;\n  assign n1",
        b"done;\n",
        6,
    )?;
    assert!(rt; refused);
    Ok(())
}

// Words of the second circuit's text, an end in place of each, and how long before it the text is refused.
const ENDS: [(&[u8], &[u8], usize); 3] = [
    // This input has more bits.
    (b";\n  assign n2", b"value;\n", 7),
    // 2^64 has more than 64 bits, and there are no 65.
    (b"5;\n  assign n5", b"6;\n", 3),
    (b"0:0] n0", b"64:0] n0", 7),
];

#[test]
fn tells_where_a_line_breaks_off(rt: HostRuntime) -> Result<(), Fail> {
    for (word, end, before) in ENDS.iter() {
        let refused = ends_refused(rt.alloc(), sorts_text(), word, end, *before)?;
        assert!(rt; refused);
    }
    Ok(())
}

// The latch's text with the same input for the second cell.
fn text_of_one_input(alloc: Global) -> Result<Vec<u8>, Fail> {
    let latch = latch_text();
    let mut text = with_end(alloc, latch, b"n0 | n2;", b"main__run;")?;
    text.extend_from_slice(&latch[place_of(latch, b"\n  always")..])?;
    Ok(text)
}

#[test]
fn tells_last_that_two_cells_read_one_input(rt: HostRuntime) -> Result<(), Fail> {
    let text = text_of_one_input(rt.alloc())?;
    assert!(rt; is_refused_at(rt.alloc(), &text, text.len()));
    Ok(())
}
