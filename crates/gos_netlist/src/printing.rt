// The text of a netlist, line by line.
ghost use Rattle.std.specs.Prelude.{◌≡◌, ◌++◌, ◌∷◌, [], map, IfOk, OnOk};
ghost use Rattle.std.specs.List.{flat_map};
ghost use Rattle.gos_types.specs.TypeText.{type_text};
ghost use Rattle.gos_netlist.specs.Seen.{number_of, function_of, cell_of, side_of, ground_type};
ghost use Rattle.gos_netlist.specs.NetText.{spaced, word_of, operands, cell_text, side_word, port_head, port_text, count_line, text_of};

use crate::nets::{Cell, Gate, Ground, NetId, Netlist, Port, Side};
use gos_types::NoMemory;
use std::alloc::Global;

/// The text of a netlist. `Err` is want of memory alone.
pub fn print_net(alloc: Global, net: &Netlist) -> Result<Vec<u8>, NoMemory>
    ensures { IfOk result (λ text. text.items ≡ text_of net.now) }
{
    let mut text = Vec::new(alloc);
    text.extend_from_slice(b"gosnet 1\n")?;
    add_count(alloc, &mut text, b"cells", net.cells.len())?;
    add_cells(alloc, &mut text, &net.cells)?;
    add_count(alloc, &mut text, b"ports", net.ports.len())?;
    add_ports(alloc, &mut text, &net.ports)?;
    text.extend_from_slice(b"end\n")?;
    Ok(text)
}

// Adds a line with a count.
fn add_count(alloc: Global, text: &mut Vec<u8>, word: &[u8], count: usize) -> Result<(), NoMemory>
    ensures { OnOk result (text.new.items ≡ text.old.items ++ count_line word.now count) }
{
    text.extend_from_slice(word)?;
    add_number(alloc, text, count as u64)?;
    text.extend_from_slice(b"\n")?;
    Ok(())
}

// Adds the lines of cells.
fn add_cells(alloc: Global, text: &mut Vec<u8>, cells: &[Cell]) -> Result<(), NoMemory>
    ensures { OnOk result (text.new.items ≡ text.old.items ++ flat_map cell_text (map cell_of cells.now)) }
{
    for cell in cells {
        add_cell(alloc, text, cell)?;
    }
    Ok(())
}

// Adds the line of a cell.
fn add_cell(alloc: Global, text: &mut Vec<u8>, cell: &Cell) -> Result<(), NoMemory>
    ensures { OnOk result (text.new.items ≡ text.old.items ++ cell_text (cell_of cell.now)) }
{
    text.extend_from_slice(word(cell.gate))?;
    add_number(alloc, text, u64::from(cell.width))?;
    add_operands(alloc, text, cell.gate)?;
    text.extend_from_slice(b"\n")?;
    Ok(())
}

// The word for a gate.
fn word(gate: Gate) -> &'static [u8]
    ensures { result.now ≡ word_of (function_of gate) }
{
    match gate {
        Gate::Input => b"input",
        Gate::Const(_) => b"const",
        Gate::Not(_) => b"not",
        Gate::And(_, _) => b"and",
        Gate::Or(_, _) => b"or",
        Gate::Xor(_, _) => b"xor",
        Gate::Mux(_, _, _) => b"mux",
        Gate::Add(_, _) => b"add",
        Gate::Sub(_, _) => b"sub",
        Gate::Eq(_, _) => b"eq",
        Gate::Less(_, _) => b"less",
        Gate::Gate(_, _) => b"gate",
        Gate::Reg(_) => b"reg",
    }
}

// Adds the constant of a gate, or the nets that it names.
fn add_operands(alloc: Global, text: &mut Vec<u8>, gate: Gate) -> Result<(), NoMemory>
    ensures { OnOk result (text.new.items ≡ text.old.items ++ spaced (operands (function_of gate))) }
{
    match gate {
        Gate::Input => Ok(()),
        Gate::Const(k) => add_number(alloc, text, k),
        Gate::Not(a) | Gate::Reg(a) => add_nets(alloc, text, &[a]),
        Gate::And(a, b)
        | Gate::Or(a, b)
        | Gate::Xor(a, b)
        | Gate::Add(a, b)
        | Gate::Sub(a, b)
        | Gate::Eq(a, b)
        | Gate::Less(a, b)
        | Gate::Gate(a, b) => add_nets(alloc, text, &[a, b]),
        Gate::Mux(s, a, b) => add_nets(alloc, text, &[s, a, b]),
    }
}

// Adds the lines of ports.
fn add_ports(alloc: Global, text: &mut Vec<u8>, ports: &[Port]) -> Result<(), NoMemory>
    ensures { OnOk result (text.new.items ≡ text.old.items ++ flat_map port_text ports.now) }
{
    for port in ports {
        add_port(alloc, text, port)?;
    }
    Ok(())
}

// Adds the line of a port.
fn add_port(alloc: Global, text: &mut Vec<u8>, port: &Port) -> Result<(), NoMemory>
    ensures { OnOk result (text.new.items ≡ text.old.items ++ port_text port.now) }
{
    add_head(text, port.side, port.name.bytes())?;
    add_type(alloc, text, port.ground)?;
    add_nets(alloc, text, &port.nets)?;
    text.extend_from_slice(b"\n")?;
    Ok(())
}

// Adds a side and a name, each with a space behind it.
fn add_head(text: &mut Vec<u8>, side: Side, name: &[u8]) -> Result<(), NoMemory>
    ensures { OnOk result (text.new.items ≡ text.old.items ++ port_head (side_of side) name.now) }
{
    text.extend_from_slice(side_text(side))?;
    text.extend_from_slice(b" ")?;
    text.extend_from_slice(name)?;
    text.extend_from_slice(b" ")?;
    Ok(())
}

// The word for a side.
fn side_text(side: Side) -> &'static [u8]
    ensures { result.now ≡ side_word (side_of side) }
{
    match side {
        Side::Give => b"give",
        Side::Take => b"take",
    }
}

// Adds the type of a port.
fn add_type(alloc: Global, text: &mut Vec<u8>, ty: Ground) -> Result<(), NoMemory>
    ensures { OnOk result (text.new.items ≡ text.old.items ++ type_text (ground_type ty)) }
{
    match ty {
        Ground::Com => {
            text.extend_from_slice(b"com")?;
            Ok(())
        }
        Ground::Exp(w) => {
            text.extend_from_slice(b"exp")?;
            add_number(alloc, text, u64::from(w))
        }
        Ground::Var(w) => {
            text.extend_from_slice(b"var")?;
            add_number(alloc, text, u64::from(w))
        }
    }
}

// Adds nets, each behind a space.
fn add_nets(alloc: Global, text: &mut Vec<u8>, nets: &[NetId]) -> Result<(), NoMemory>
    ensures { OnOk result (text.new.items ≡ text.old.items ++ spaced (map number_of nets.now)) }
{
    for net in nets {
        add_number(alloc, text, u64::from(net.0))?;
    }
    Ok(())
}

// Adds a number behind a space.
fn add_number(alloc: Global, text: &mut Vec<u8>, number: u64) -> Result<(), NoMemory>
    ensures { OnOk result (text.new.items ≡ text.old.items ++ spaced (number ∷ [])) }
{
    let digits = number.to_string(alloc)?;
    text.extend_from_slice(b" ")?;
    text.extend_from_slice(digits.as_bytes())?;
    Ok(())
}
