// The lines that drive the nets of cells, but those of Input cells. `Err` is the place of the first byte that can't go on
// as the line, or the end of the text.
ghost use Rattle.std.specs.Prelude.{◌≡◌, ◌≤◌, [], IfOk, IfErr, get_or, length, codes};
ghost use Rattle.gos_lex.specs.Items.{Misses};
ghost use Rattle.std.specs.List.{AllByRecursion};
ghost use Rattle.gos_netlist.specs.Nets.{pins};
ghost use Rattle.gos_netlist.specs.Seen.{function_of};
ghost use Rattle.gos_netlist.specs.Writable.{IsNumber};
ghost use Rattle.gos_types.specs.Widths.{IsWidth};
ghost use Rattle.gos_lex.specs.ItemTexts.{Passed};
ghost use Rattle.gos_verilog.specs.Lines.{driver_of};
ghost use Rattle.gos_verilog.specs.inner.Slots.{FitSlots, line_text, IsLine};
ghost use Rattle.gos_verilog.specs.inner.CellLines as lines;
ghost use Rattle.gos_verilog.specs.inner.CellLines.{HasKind};

use crate::slots::{LAST_NET, Numbers, Slot, line};
use gos_lex::Cursor;
use gos_netlist::{Gate, NetId};
use gos_types::greatest;
use std::alloc::Global;

/// What kind of function drives a net.
#[derive(Clone, Copy)]
pub enum Kind {
    Const,
    Not,
    And,
    Or,
    Xor,
    Mux,
    Add,
    Sub,
    Eq,
    Less,
    Gate,
    Reg,
}

/// Passes the line of a cell of this kind, and gives its gate.
pub fn kind_line(
    alloc: Global,
    cursor: &mut Cursor,
    kind: Kind,
    i: u32,
    width: u32,
) -> Result<Gate, usize>
    requires width { IsWidth width }
    requires within { cursor.now.at ≤ length cursor.now.text }
    ensures kind { IfOk result (λ gate. HasKind kind width (function_of gate)) }
    ensures passed { IfOk result (λ gate. Passed cursor.old cursor.new (driver_of i width [] (function_of gate))) }
    ensures wrong { IfErr result (Misses (lines.IsKindLine kind i width) cursor.old.text cursor.old.at) }
{
    let numbers = numbers(alloc, cursor, kind, i, width)?;
    Ok(gate(kind, &numbers))
}

// Passes the line of a cell of this kind, and gives its numbers.
fn numbers(
    alloc: Global,
    cursor: &mut Cursor,
    kind: Kind,
    i: u32,
    width: u32,
) -> Result<Numbers, usize>
    requires width { IsWidth width }
    requires within { cursor.now.at ≤ length cursor.now.text }
    ensures fit { IfOk result (λ numbers. FitSlots (lines.kind_slots kind i width) numbers.items) }
    ensures passed { IfOk result (λ numbers. Passed cursor.old cursor.new (line_text (lines.kind_slots kind i width) (lines.kind_tail kind) numbers.items)) }
    ensures wrong { IfErr result (Misses (IsLine (lines.kind_slots kind i width) (lines.kind_tail kind)) cursor.old.text cursor.old.at) }
{
    match kind {
        Kind::Const => constant(alloc, cursor, i, width),
        Kind::Not => complement(alloc, cursor, i),
        Kind::Mux => mux(alloc, cursor, i),
        Kind::Gate => gated(alloc, cursor, i, width),
        Kind::Reg => register(alloc, cursor, i, width),
        Kind::And => binary(alloc, cursor, i, b"& n"),
        Kind::Or => binary(alloc, cursor, i, b"| n"),
        Kind::Xor => binary(alloc, cursor, i, b"^ n"),
        Kind::Add => binary(alloc, cursor, i, b"+ n"),
        Kind::Sub => binary(alloc, cursor, i, b"- n"),
        Kind::Eq => binary(alloc, cursor, i, b"== n"),
        Kind::Less => binary(alloc, cursor, i, b"< n"),
    }
}

// Passes the line of a constant.
fn constant(alloc: Global, cursor: &mut Cursor, i: u32, width: u32) -> Result<Numbers, usize>
    requires width { IsWidth width }
    requires within { cursor.now.at ≤ length cursor.now.text }
    ensures fit { IfOk result (λ numbers. FitSlots (lines.const_slots i width) numbers.items) }
    ensures passed { IfOk result (λ numbers. Passed cursor.old cursor.new (line_text (lines.const_slots i width) (codes "\n") numbers.items)) }
    ensures wrong { IfErr result (Misses (IsLine (lines.const_slots i width) (codes "\n")) cursor.old.text cursor.old.at) }
{
    let slots = [
        target(i),
        exactly(b"= ", width, b'\''),
        Slot {
            before: b"d",
            low: 0,
            high: greatest(width),
            end: b';',
        },
    ];
    line(alloc, cursor, &slots, b"\n")
}

// Passes the line of a complement.
fn complement(alloc: Global, cursor: &mut Cursor, i: u32) -> Result<Numbers, usize>
    requires within { cursor.now.at ≤ length cursor.now.text }
    ensures fit { IfOk result (λ numbers. FitSlots (lines.not_slots i) numbers.items) }
    ensures passed { IfOk result (λ numbers. Passed cursor.old cursor.new (line_text (lines.not_slots i) (codes "\n") numbers.items)) }
    ensures wrong { IfErr result (Misses (IsLine (lines.not_slots i) (codes "\n")) cursor.old.text cursor.old.at) }
{
    let slots = [target(i), net_behind(b"= ~n", b';')];
    line(alloc, cursor, &slots, b"\n")
}

// Passes the line of a gate of two nets, with this word before the second.
fn binary(alloc: Global, cursor: &mut Cursor, i: u32, word: &[u8]) -> Result<Numbers, usize>
    requires within { cursor.now.at ≤ length cursor.now.text }
    ensures fit { IfOk result (λ numbers. FitSlots (lines.binary_slots i word.now) numbers.items) }
    ensures passed { IfOk result (λ numbers. Passed cursor.old cursor.new (line_text (lines.binary_slots i word.now) (codes "\n") numbers.items)) }
    ensures wrong { IfErr result (Misses (IsLine (lines.binary_slots i word.now) (codes "\n")) cursor.old.text cursor.old.at) }
{
    let slots = [target(i), net_behind(b"= n", b' '), net_behind(word, b';')];
    line(alloc, cursor, &slots, b"\n")
}

// Passes the line of a choice between two nets.
fn mux(alloc: Global, cursor: &mut Cursor, i: u32) -> Result<Numbers, usize>
    requires within { cursor.now.at ≤ length cursor.now.text }
    ensures fit { IfOk result (λ numbers. FitSlots (lines.mux_slots i) numbers.items) }
    ensures passed { IfOk result (λ numbers. Passed cursor.old cursor.new (line_text (lines.mux_slots i) (codes "\n") numbers.items)) }
    ensures wrong { IfErr result (Misses (IsLine (lines.mux_slots i) (codes "\n")) cursor.old.text cursor.old.at) }
{
    let slots = [
        target(i),
        net_behind(b"= n", b' '),
        net_behind(b"? n", b' '),
        net_behind(b": n", b';'),
    ];
    line(alloc, cursor, &slots, b"\n")
}

// Passes the line of a net that is let through.
fn gated(alloc: Global, cursor: &mut Cursor, i: u32, width: u32) -> Result<Numbers, usize>
    requires within { cursor.now.at ≤ length cursor.now.text }
    ensures fit { IfOk result (λ numbers. FitSlots (lines.gate_slots i width) numbers.items) }
    ensures passed { IfOk result (λ numbers. Passed cursor.old cursor.new (line_text (lines.gate_slots i width) (codes "d0;\n") numbers.items)) }
    ensures wrong { IfErr result (Misses (IsLine (lines.gate_slots i width) (codes "d0;\n")) cursor.old.text cursor.old.at) }
{
    let slots = [
        target(i),
        net_behind(b"= n", b' '),
        net_behind(b"? n", b' '),
        exactly(b": ", width, b'\''),
    ];
    line(alloc, cursor, &slots, b"d0;\n")
}

// Passes the line of a register.
fn register(alloc: Global, cursor: &mut Cursor, i: u32, width: u32) -> Result<Numbers, usize>
    requires within { cursor.now.at ≤ length cursor.now.text }
    ensures fit { IfOk result (λ numbers. FitSlots (lines.reg_slots i width) numbers.items) }
    ensures passed { IfOk result (λ numbers. Passed cursor.old cursor.new (line_text (lines.reg_slots i width) (codes "\n") numbers.items)) }
    ensures wrong { IfErr result (Misses (IsLine (lines.reg_slots i width) (codes "\n")) cursor.old.text cursor.old.at) }
{
    let slots = [
        exactly(b"  always @(posedge clk) if (rst) n", i, b' '),
        exactly(b"<= ", width, b'\''),
        exactly(b"d0; else n", i, b' '),
        net_behind(b"<= n", b';'),
    ];
    line(alloc, cursor, &slots, b"\n")
}

/// The word for the net that a line assigns.
pub fn target(i: u32) -> Slot<'static>
    ensures { result ≡ lines.target_slot i }
{
    exactly(b"  assign n", i, b' ')
}

/// A word and exactly this number.
pub fn exactly(before: &[u8], n: u32, end: u8) -> Slot
    ensures { result ≡ lines.exactly before.now n end }
{
    let n = u64::from(n);
    Slot {
        before,
        low: n,
        high: n,
        end,
    }
}

// A word and the number of a net.
fn net_behind(before: &[u8], end: u8) -> Slot
    ensures { result ≡ lines.net_behind before.now end }
{
    Slot {
        before,
        low: 0,
        high: LAST_NET,
        end,
    }
}

// The gate of this kind with the numbers of its line.
fn gate(kind: Kind, numbers: &[u64]) -> Gate
    requires { AllByRecursion IsNumber (pins (lines.made kind numbers.now)) }
    ensures { function_of result ≡ lines.made kind numbers.now }
{
    match kind {
        Kind::Const => Gate::Const(number_at(numbers, 2)),
        Kind::Not => Gate::Not(net_at(numbers, 1)),
        Kind::And => Gate::And(net_at(numbers, 1), net_at(numbers, 2)),
        Kind::Or => Gate::Or(net_at(numbers, 1), net_at(numbers, 2)),
        Kind::Xor => Gate::Xor(net_at(numbers, 1), net_at(numbers, 2)),
        Kind::Mux => Gate::Mux(net_at(numbers, 1), net_at(numbers, 2), net_at(numbers, 3)),
        Kind::Add => Gate::Add(net_at(numbers, 1), net_at(numbers, 2)),
        Kind::Sub => Gate::Sub(net_at(numbers, 1), net_at(numbers, 2)),
        Kind::Eq => Gate::Eq(net_at(numbers, 1), net_at(numbers, 2)),
        Kind::Less => Gate::Less(net_at(numbers, 1), net_at(numbers, 2)),
        Kind::Gate => Gate::Gate(net_at(numbers, 1), net_at(numbers, 2)),
        Kind::Reg => Gate::Reg(net_at(numbers, 3)),
    }
}

// The number at this place of a line; 0 where there is none.
fn number_at(numbers: &[u64], place: usize) -> u64
    ensures { result ≡ get_or numbers.now place 0 }
{
    match numbers.get(place) {
        Some(number) => *number,
        None => 0,
    }
}

// The net of the number at this place of a line.
fn net_at(numbers: &[u64], place: usize) -> NetId
    requires { IsNumber (get_or numbers.now place 0) }
    ensures { result.0 ≡ get_or numbers.now place 0 }
{
    NetId(number_at(numbers, place) as u32)
}
