// The lines of a module.
ghost use Rattle.std.specs.Prelude.{◌≡◌, ◌++◌, ◌<◌, ◌^◌, ◌-◌, map, OnOk, length, codes, slice_get};
ghost use Rattle.std.specs.List.{flat_map};
ghost use Rattle.std.specs.Fmt.{decimal};
ghost use Rattle.gos_netlist.specs.Seen.{cell_of, function_of};
ghost use Rattle.gos_verilog.specs.Lines as lines;
ghost use Rattle.gos_verilog.specs.inner.Drivers.{driven, name_of, is_register, target};

use crate::port_net::PortNet;
use gos_netlist::{Cell, Gate, NetId};
use gos_types::NoMemory;
use std::alloc::Global;

/// Adds the head of a module of this name.
pub fn add_head(text: &mut Vec<u8>, name: &[u8], nets: &[PortNet]) -> Result<(), NoMemory>
    ensures { OnOk result (text.new.items ≡ text.old.items ++ lines.module_head name.now nets.now) }
{
    text.extend_from_slice(b"module gos_")?;
    text.extend_from_slice(name)?;
    text.extend_from_slice(b"(clk, rst")?;
    add_names(text, nets)?;
    add_bytes(text, b");\n")
}

/// Adds the declarations of the clock and the reset.
pub fn add_clock(text: &mut Vec<u8>) -> Result<(), NoMemory>
    ensures { OnOk result (text.new.items ≡ text.old.items ++ lines.clock_declarations) }
{
    add_bytes(text, b"  input clk;\n  input rst;\n")
}

// Adds the names of nets, each behind a comma.
fn add_names(text: &mut Vec<u8>, nets: &[PortNet]) -> Result<(), NoMemory>
    ensures { OnOk result (text.new.items ≡ text.old.items ++ flat_map (λ net. codes ", " ++ net.name) nets.now) }
{
    for net in nets {
        text.extend_from_slice(b", ")?;
        text.extend_from_slice(&net.name)?;
    }
    Ok(())
}

/// Adds the declarations of nets of ports.
pub fn add_ports(alloc: Global, text: &mut Vec<u8>, nets: &[PortNet]) -> Result<(), NoMemory>
    ensures { OnOk result (text.new.items ≡ text.old.items ++ flat_map lines.port_declaration nets.now) }
{
    for net in nets {
        add_declaration(alloc, text, direction_word(net.input), net.width)?;
        add_line(text, &net.name)?;
    }
    Ok(())
}

// The word for the direction of a net of a port.
fn direction_word(input: bool) -> &'static [u8]
    ensures { result.now ≡ lines.direction_word input }
{
    if input { b"input" } else { b"output" }
}

// Adds a declaration up to the name.
fn add_declaration(
    alloc: Global,
    text: &mut Vec<u8>,
    kind: &[u8],
    width: u32,
) -> Result<(), NoMemory>
    ensures { OnOk result (text.new.items ≡ text.old.items ++ codes "  " ++ kind.now ++ codes " [" ++ decimal (width - 1) ++ codes ":0] ") }
{
    text.extend_from_slice(b"  ")?;
    text.extend_from_slice(kind)?;
    add_number(alloc, text, b" [", u64::from(width.saturating_sub(1)))?;
    add_bytes(text, b":0] ")
}

// Adds what ends a line.
fn add_line(text: &mut Vec<u8>, last: &[u8]) -> Result<(), NoMemory>
    ensures { OnOk result (text.new.items ≡ text.old.items ++ last.now ++ codes ";\n") }
{
    text.extend_from_slice(last)?;
    add_bytes(text, b";\n")
}

/// Adds the declarations of the nets of cells.
pub fn add_cells(alloc: Global, text: &mut Vec<u8>, cells: &[Cell]) -> Result<(), NoMemory>
    ensures { OnOk result (text.new.items ≡ text.old.items ++ lines.cell_declarations 0 (map cell_of cells.now)) }
{
    for (i, cell) in cells.iter().enumerate() {
        add_cell(alloc, text, i as u64, cell)?;
    }
    Ok(())
}

// Adds the declaration of the net of cell `i`.
fn add_cell(alloc: Global, text: &mut Vec<u8>, i: u64, cell: &Cell) -> Result<(), NoMemory>
    ensures { OnOk result (text.new.items ≡ text.old.items ++ lines.cell_declaration i (cell_of cell.now)) }
{
    add_declaration(alloc, text, kind_word(cell.gate), cell.width)?;
    add_number(alloc, text, b"n", i)?;
    add_bytes(text, b";\n")
}

// The word for the kind of a cell's net.
fn kind_word(gate: Gate) -> &'static [u8]
    ensures { result.now ≡ lines.kind_word (function_of gate) }
{
    match gate {
        Gate::Reg(_) => b"reg",
        _ => b"wire",
    }
}

/// Adds the lines that drive the nets of cells. At the number of an Input cell the table has the place of the net of a
/// port that the cell reads.
pub fn add_drivers(
    alloc: Global,
    text: &mut Vec<u8>,
    nets: &[PortNet],
    table: &[usize],
    cells: &[Cell],
) -> Result<(), NoMemory>
    requires { length table.now ≡ length cells.now }
    ensures { OnOk result (text.new.items ≡ text.old.items ++ driven nets.now table.now 0 (map cell_of cells.now)) }
{
    for (i, cell) in cells.iter().enumerate() {
        let source = source(nets, table[i]);
        add_driver(alloc, text, i as u64, cell, source)?;
    }
    Ok(())
}

// The name of the net at a place.
fn source(nets: &[PortNet], place: usize) -> &[u8]
    ensures { result.now ≡ name_of (slice_get nets.now place) }
{
    match nets.get(place) {
        Some(net) => net.name.as_slice(),
        None => b"",
    }
}

// Adds what drives the net of cell `i`.
fn add_driver(
    alloc: Global,
    text: &mut Vec<u8>,
    i: u64,
    cell: &Cell,
    source: &[u8],
) -> Result<(), NoMemory>
    ensures { OnOk result (text.new.items ≡ text.old.items ++ lines.driver i (cell_of cell.now) source.now) }
{
    add_target(alloc, text, i, cell.width, is_register(cell.gate))?;
    add_expression(alloc, text, cell.width, cell.gate, source)?;
    add_bytes(text, b";\n")
}

// Whether the gate is a register.
fn is_register(gate: Gate) -> bool
    ensures { result ≡ is_register (function_of gate) }
{
    matches!(gate, Gate::Reg(_))
}

// Adds what stands before the expression that drives the net of cell `i`.
fn add_target(
    alloc: Global,
    text: &mut Vec<u8>,
    i: u64,
    width: u32,
    register: bool,
) -> Result<(), NoMemory>
    ensures { OnOk result (text.new.items ≡ text.old.items ++ target i width register) }
{
    if register {
        text.extend_from_slice(b"  always @(posedge clk) if (rst) ")?;
        add_reset(alloc, text, i, width)?;
        text.extend_from_slice(b"; else ")?;
        add_clocked(alloc, text, i)?;
        Ok(())
    } else {
        add_assigned(alloc, text, i)
    }
}

// Adds that the net of cell `i` becomes 0.
fn add_reset(alloc: Global, text: &mut Vec<u8>, i: u64, width: u32) -> Result<(), NoMemory>
    ensures { OnOk result (text.new.items ≡ text.old.items ++ (lines.cell_net i ++ codes " <= " ++ lines.literal width 0)) }
{
    add_clocked(alloc, text, i)?;
    add_literal(alloc, text, width, 0)
}

// Adds what stands before the value that the net of cell `i` becomes.
fn add_clocked(alloc: Global, text: &mut Vec<u8>, i: u64) -> Result<(), NoMemory>
    ensures { OnOk result (text.new.items ≡ text.old.items ++ (lines.cell_net i ++ codes " <= ")) }
{
    add_number(alloc, text, b"n", i)?;
    add_bytes(text, b" <= ")
}

// Adds what stands before the value that is assigned to the net of cell `i`.
fn add_assigned(alloc: Global, text: &mut Vec<u8>, i: u64) -> Result<(), NoMemory>
    ensures { OnOk result (text.new.items ≡ text.old.items ++ (codes "  assign " ++ lines.cell_net i ++ codes " = ")) }
{
    add_number(alloc, text, b"  assign n", i)?;
    add_bytes(text, b" = ")
}

// Adds what a cell computes.
fn add_expression(
    alloc: Global,
    text: &mut Vec<u8>,
    width: u32,
    gate: Gate,
    source: &[u8],
) -> Result<(), NoMemory>
    ensures { OnOk result (text.new.items ≡ text.old.items ++ lines.expression width source.now (function_of gate)) }
{
    match gate {
        Gate::Input => add_bytes(text, source),
        Gate::Const(k) => add_literal(alloc, text, width, k),
        Gate::Not(a) => add_number(alloc, text, b"~n", u64::from(a.0)),
        Gate::And(a, b) => add_binary(alloc, text, a, b"&", b),
        Gate::Or(a, b) => add_binary(alloc, text, a, b"|", b),
        Gate::Xor(a, b) => add_binary(alloc, text, a, b"^", b),
        Gate::Mux(s, a, b) => add_mux(alloc, text, s, a, b),
        Gate::Add(a, b) => add_binary(alloc, text, a, b"+", b),
        Gate::Sub(a, b) => add_binary(alloc, text, a, b"-", b),
        Gate::Eq(a, b) => add_binary(alloc, text, a, b"==", b),
        Gate::Less(a, b) => add_binary(alloc, text, a, b"<", b),
        Gate::Gate(s, a) => add_gated(alloc, text, width, s, a),
        Gate::Reg(a) => add_number(alloc, text, b"n", u64::from(a.0)),
    }
}

// Adds these bytes.
fn add_bytes(text: &mut Vec<u8>, bytes: &[u8]) -> Result<(), NoMemory>
    ensures { OnOk result (text.new.items ≡ text.old.items ++ bytes.now) }
{
    text.extend_from_slice(bytes)?;
    Ok(())
}

// Adds an expression of two nets.
fn add_binary(
    alloc: Global,
    text: &mut Vec<u8>,
    a: NetId,
    sign: &[u8],
    b: NetId,
) -> Result<(), NoMemory>
    ensures { OnOk result (text.new.items ≡ text.old.items ++ lines.binary a.0 sign.now b.0) }
{
    add_number(alloc, text, b"n", u64::from(a.0))?;
    text.extend_from_slice(b" ")?;
    text.extend_from_slice(sign)?;
    add_number(alloc, text, b" n", u64::from(b.0))
}

// Adds a choice between two nets.
fn add_mux(alloc: Global, text: &mut Vec<u8>, s: NetId, a: NetId, b: NetId) -> Result<(), NoMemory>
    ensures { OnOk result (text.new.items ≡ text.old.items ++ lines.conditional s.0 (lines.cell_net a.0) (lines.cell_net b.0)) }
{
    add_number(alloc, text, b"n", u64::from(s.0))?;
    add_number(alloc, text, b" ? n", u64::from(a.0))?;
    add_number(alloc, text, b" : n", u64::from(b.0))
}

// Adds a net that is let through.
fn add_gated(
    alloc: Global,
    text: &mut Vec<u8>,
    width: u32,
    s: NetId,
    a: NetId,
) -> Result<(), NoMemory>
    ensures { OnOk result (text.new.items ≡ text.old.items ++ lines.conditional s.0 (lines.cell_net a.0) (lines.literal width 0)) }
{
    add_number(alloc, text, b"n", u64::from(s.0))?;
    add_number(alloc, text, b" ? n", u64::from(a.0))?;
    text.extend_from_slice(b" : ")?;
    add_literal(alloc, text, width, 0)
}

/// Adds the assignments of the nets of ports that are outputs, and the module's end.
pub fn add_outputs(alloc: Global, text: &mut Vec<u8>, nets: &[PortNet]) -> Result<(), NoMemory>
    ensures { OnOk result (text.new.items ≡ text.old.items ++ flat_map lines.output_assignment nets.now ++ codes "endmodule\n") }
{
    for net in nets {
        if !net.input {
            add_output(alloc, text, net)?;
        }
    }
    add_bytes(text, b"endmodule\n")
}

// Adds the assignment of an output.
fn add_output(alloc: Global, text: &mut Vec<u8>, net: &PortNet) -> Result<(), NoMemory>
    ensures { OnOk result (text.new.items ≡ text.old.items ++ lines.assignment net.now.name (lines.cell_net net.now.cell)) }
{
    text.extend_from_slice(b"  assign ")?;
    text.extend_from_slice(&net.name)?;
    add_number(alloc, text, b" = n", u64::from(net.cell.0))?;
    add_bytes(text, b";\n")
}

// Adds a number of so many bits.
fn add_literal(alloc: Global, text: &mut Vec<u8>, width: u32, k: u64) -> Result<(), NoMemory>
    ensures { OnOk result (text.new.items ≡ text.old.items ++ lines.literal width k) }
{
    add_number(alloc, text, b"", u64::from(width))?;
    add_number(alloc, text, b"'d", k)
}

// Adds a word and a number.
fn add_number(alloc: Global, text: &mut Vec<u8>, word: &[u8], number: u64) -> Result<(), NoMemory>
    ensures { OnOk result (text.new.items ≡ text.old.items ++ word.now ++ decimal number) }
{
    let digits = number.to_string(alloc)?;
    text.extend_from_slice(word)?;
    add_bytes(text, digits.as_bytes())
}
