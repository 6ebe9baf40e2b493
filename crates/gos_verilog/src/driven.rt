// The lines that drive the nets of cells.
ghost use Rattle.std.specs.Prelude.{◌≡◌, ◌≤◌, ◌<◌, [], ℕ, List, false, true, IfOk, IfErr, IfSome, MatchResult, length, map, drop};
ghost use Rattle.std.specs.List.{AllByRecursion};
ghost use Rattle.gos_types.specs.Widths.{IsWidth};
ghost use Rattle.gos_netlist.specs.Nets.{Function, Input, Cell as NetCell};
ghost use Rattle.gos_netlist.specs.Seen.{cell_of, function_of};
ghost use Rattle.gos_netlist.specs.Writable.{IsWritableCell};
ghost use Rattle.gos_verilog.specs.PortNets.{PortNet as Net};
ghost use Rattle.gos_verilog.specs.Lines.{driver_of};
ghost use Rattle.gos_verilog.specs.inner.Drivers.{is_register};
ghost use Rattle.gos_verilog.specs.inner.Stages.{IsWant, declared_net, shape_of};
ghost use Rattle.gos_lex.specs.Items.{IsJust, Misses};
ghost use Rattle.gos_netlist.specs.declared.nets.Gate.TheVariants.{Input as Input'};
ghost use Rattle.gos_verilog.specs.inner.CellLines.{HasKind, IsKindLine, is_wire};
ghost use Rattle.gos_verilog.specs.inner.Breaks.{FaultFrom, LeadsOn, PassedIn};
ghost use Rattle.gos_verilog.specs.inner.Left.{HaveNetNames, IsDriver, IsDriverLine, IsSource, IsWireLine, LeftDrivers, LeftOutputs};
ghost use Rattle.gos_verilog.specs.inner.Noted.{AreAllNoted, HasPlaces, IsLineOf, IsNoLine, IsKnown, IsNotedBy, AreDriven};

use crate::cell_line::{Kind, kind_line, target};
use crate::declared::{Shape, further};
use crate::fault::VFault;
use crate::head::name_at;
use crate::inputs::Inputs;
use crate::port_net::PortNet;
use crate::slots::{line, pass};
use gos_lex::Cursor;
use gos_netlist::{Cell, Gate};
use std::alloc::Global;

/// Reads the lines that drive the nets of cells of these shapes, from `at` on. The numbers of Input cells are noted at
/// the nets of ports that they read. It gives the cells and the place behind the lines.
#[tactic(auto, using(crate::proofs::ListLemmas::cells_snoc))]
pub fn drivers(
    alloc: Global,
    text: &[u8],
    at: usize,
    shapes: &[Shape],
    nets: &[PortNet],
    inputs: &mut Inputs,
) -> Result<(Vec<Cell>, usize), VFault>
    requires within { at ≤ length text.now }
    requires few { length shapes.now ≤ 4294967295 }
    requires widths { AllByRecursion (λ shape. IsWidth shape.width) shapes.now }
    ensures cells { IfOk result (λ both. AllByRecursion IsWritableCell (map cell_of both.0.items)) }
    ensures count { IfOk result (λ both. length both.0.items ≡ length shapes.now) }
    ensures within { IfOk result (λ both. both.1 ≤ length text.now) }
    ensures left { HaveNetNames nets.now → IfOk result (λ both. LeadsOn (LeftDrivers nets.now 0 shapes.now) (LeftOutputs nets.now)
        (record { text = text.now; at = at }) (record { text = text.now; at = both.1 })) }
    ensures wrong { HaveNetNames nets.now → IfErr result (FaultFrom (LeftDrivers nets.now 0 shapes.now) (record { text = text.now; at = at })) }
    ensures stands { (known : List Net) (all : List NetCell) (x : List ℕ) → nets.now ≡ map declared_net known → shapes.now ≡ map shape_of all
        → HasPlaces known (length known) inputs.old.places → length inputs.old.cells.items ≡ length known → AreDriven (drop at text.now) known all x
        → MatchResult result (λ both. (map cell_of both.0.items ≡ all) × (drop both.1 text.now ≡ x) × AreAllNoted known inputs.new.cells.items) IsWant }
{
    let mut cells = Vec::new(alloc);
    let mut at = at;
    for (i, shape) in shapes.iter().enumerate() {
        match driver(alloc, &text[at..], i as u32, *shape, nets, inputs) {
            Ok((gate, len)) => {
                cells.push(Cell {
                    width: shape.width,
                    gate,
                })?;
                at += len;
            }
            Err(place) => return Err(VFault::Form { at: at + place }),
        }
    }
    Ok((cells, at))
}

// Reads the line that drives the net of cell `i`, with its length.
fn driver(
    alloc: Global,
    rest: &[u8],
    i: u32,
    shape: Shape,
    nets: &[PortNet],
    inputs: &mut Inputs,
) -> Result<(Gate, usize), usize>
    requires { IsWidth shape.width }
    ensures cell { IfOk result (λ both. IsWritableCell (cell_of (record { width = shape.width; gate = both.0 }))) }
    ensures within { IfOk result (λ both. both.1 ≤ length rest.now) }
    ensures driven { IfOk result (λ both. (source : List ℕ) × IsDriver nets.now shape (function_of both.0, source)
        × PassedIn rest.now 0 both.1 (driver_of i shape.width source (function_of both.0))) }
    ensures wrong { IfErr result (Misses (IsDriverLine nets.now i shape) rest.now 0) }
    ensures stands { (f : Function) (name x : List ℕ) → is_register f ≡ shape.register → IsLineOf rest.now i shape.width f name x
        → (f ≡ Input → IsKnown nets.now inputs.old shape.width name)
        → MatchResult result (λ both. (function_of both.0 ≡ f) × (drop both.1 rest.now ≡ x) × IsNotedBy inputs.old inputs.new i f name) (λ _. ⊥) }
{
    if shape.register {
        kind_line_of(alloc, rest, Kind::Reg, i, shape.width)
    } else {
        wire(alloc, rest, i, shape.width, nets, inputs)
    }
}

// Reads the line that drives the wire of cell `i`, with its length.
fn wire(
    alloc: Global,
    rest: &[u8],
    i: u32,
    width: u32,
    nets: &[PortNet],
    inputs: &mut Inputs,
) -> Result<(Gate, usize), usize>
    requires { IsWidth width }
    ensures cell { IfOk result (λ both. IsWritableCell (cell_of (record { width = width; gate = both.0 }))) }
    ensures within { IfOk result (λ both. both.1 ≤ length rest.now) }
    ensures driven { IfOk result (λ both. (source : List ℕ) × IsDriver nets.now (record { width = width; register = false }) (function_of both.0, source)
        × PassedIn rest.now 0 both.1 (driver_of i width source (function_of both.0))) }
    ensures wrong { IfErr result (Misses (IsDriverLine nets.now i (record { width = width; register = false })) rest.now 0) }
    ensures stands { (f : Function) (name x : List ℕ) → is_register f ≡ false → IsLineOf rest.now i width f name x
        → (f ≡ Input → IsKnown nets.now inputs.old width name)
        → MatchResult result (λ both. (function_of both.0 ≡ f) × (drop both.1 rest.now ≡ x) × IsNotedBy inputs.old inputs.new i f name) (λ _. ⊥) }
{
    let place = match any_line(alloc, rest, i, width) {
        Ok(both) => return Ok(both),
        Err(at) => at,
    };
    if let Ok((name, len)) = source(alloc, rest, i) {
        if inputs.note(nets, name, width, i) {
            return Ok((Gate::Input, len));
        }
    }
    any_source(alloc, rest, i, width, nets, inputs, place)
}

// Reads the line of an Input cell that no name led to, net by net of the ports. `Err` is the place where the line of
// a cell breaks off, of which those of other kinds do at `place`.
fn any_source(
    alloc: Global,
    rest: &[u8],
    i: u32,
    width: u32,
    nets: &[PortNet],
    inputs: &mut Inputs,
    place: usize,
) -> Result<(Gate, usize), usize>
    requires { Misses (IsWireLine i width) rest.now 0 place }
    ensures input { IfOk result (λ both. both.0 ≡ Input') }
    ensures within { IfOk result (λ both. both.1 ≤ length rest.now) }
    ensures driven { IfOk result (λ both. (source : List ℕ) × IsSource nets.now width source
        × PassedIn rest.now 0 both.1 (driver_of i width source Input)) }
    ensures wrong { IfErr result (Misses (IsDriverLine nets.now i (record { width = width; register = false })) rest.now 0) }
{
    let mut furthest = place;
    for (k, net) in nets.iter().enumerate() {
        if net.input && net.width == width {
            match input_line(alloc, rest, i, &net.name) {
                Ok(len) => {
                    inputs.put(k, i);
                    return Ok((Gate::Input, len));
                }
                Err(at) => furthest = further(furthest, at),
            }
        }
    }
    Err(furthest)
}

// Reads the line of an Input cell, and gives the name of the net of a port that it reads, with its length.
fn source(alloc: Global, rest: &[u8], i: u32) -> Result<(&[u8], usize), usize>
    ensures within { IfOk result (λ both. both.1 ≤ length rest.now) }
    ensures passed { IfOk result (λ both. (w : ℕ) → PassedIn rest.now 0 both.1 (driver_of i w both.0.now Input)) }
    ensures stands { (name x : List ℕ) → IsLineOf rest.now i 1 Input name x
        → MatchResult result (λ both. (both.0.now ≡ name) × (drop both.1 rest.now ≡ x)) (λ _. ⊥) }
{
    let name = source_name(rest, i)?;
    let len = input_line(alloc, rest, i, name)?;
    Ok((name, len))
}

// The name of the net of a port that the line of an Input cell reads, where such a line stands.
fn source_name(rest: &[u8], i: u32) -> Result<&[u8], usize>
    ensures stands { (name x : List ℕ) → IsLineOf rest.now i 1 Input name x → MatchResult result (λ found. found.now ≡ name) (λ _. ⊥) }
{
    let mut cursor = Cursor::new(rest);
    pass(&mut cursor, b"  assign n")?;
    cursor.ended_number(i as u64, i as u64, b' ')?;
    pass(&mut cursor, b"= ")?;
    Ok(name_at(rest, cursor.at()))
}

// Reads the line of an Input cell that reads the net of a port of this name, and gives its length.
fn input_line(alloc: Global, rest: &[u8], i: u32, name: &[u8]) -> Result<usize, usize>
    ensures within { IfOk result (λ len. len ≤ length rest.now) }
    ensures passed { IfOk result (λ len. (w : ℕ) → PassedIn rest.now 0 len (driver_of i w name.now Input)) }
    ensures wrong { IfErr result (λ place. (w : ℕ) → Misses (IsJust (driver_of i w name.now Input)) rest.now 0 place) }
{
    let mut cursor = Cursor::new(rest);
    let slots = [target(i)];
    line(alloc, &mut cursor, &slots, b"= ")?;
    pass(&mut cursor, name)?;
    pass(&mut cursor, b";\n")?;
    Ok(cursor.at())
}

// Reads the line of a cell of some kind but a register, with its length. The likely kind is tried first.
fn any_line(alloc: Global, rest: &[u8], i: u32, width: u32) -> Result<(Gate, usize), usize>
    requires { IsWidth width }
    ensures cell { IfOk result (λ both. IsWritableCell (cell_of (record { width = width; gate = both.0 }))) }
    ensures within { IfOk result (λ both. both.1 ≤ length rest.now) }
    ensures no_input { IfOk result (λ both. function_of both.0 ≡ Input → ⊥) }
    ensures wire { IfOk result (λ both. is_register (function_of both.0) ≡ false) }
    ensures passed { IfOk result (λ both. PassedIn rest.now 0 both.1 (driver_of i width [] (function_of both.0))) }
    ensures misses { IfErr result (Misses (IsWireLine i width) rest.now 0) }
    ensures reads { IfOk result (λ both. (f : Function) (name x : List ℕ) → IsLineOf rest.now i width f name x
        → (function_of both.0 ≡ f) × (drop both.1 rest.now ≡ x)) }
    ensures wrong { IfErr result (λ _. (f : Function) (name x : List ℕ) → is_register f ≡ false → (f ≡ Input → ⊥) → IsLineOf rest.now i width f name x → ⊥) }
{
    let kinds = [
        likely(rest),
        Kind::Const,
        Kind::Not,
        Kind::And,
        Kind::Or,
        Kind::Xor,
        Kind::Mux,
        Kind::Add,
        Kind::Sub,
        Kind::Eq,
        Kind::Less,
        Kind::Gate,
    ];
    let mut furthest = 0;
    for kind in &kinds {
        match kind_line_of(alloc, rest, *kind, i, width) {
            Ok(both) => return Ok(both),
            Err(at) => furthest = further(furthest, at),
        }
    }
    Err(furthest)
}

// Reads the line of a cell of this kind, with its length.
fn kind_line_of(
    alloc: Global,
    rest: &[u8],
    kind: Kind,
    i: u32,
    width: u32,
) -> Result<(Gate, usize), usize>
    requires { IsWidth width }
    ensures cell { IfOk result (λ both. IsWritableCell (cell_of (record { width = width; gate = both.0 }))) }
    ensures within { IfOk result (λ both. both.1 ≤ length rest.now) }
    ensures no_input { IfOk result (λ both. function_of both.0 ≡ Input → ⊥) }
    ensures reads { IfOk result (λ both. (f : Function) (name x : List ℕ) → IsLineOf rest.now i width f name x
        → (function_of both.0 ≡ f) × (drop both.1 rest.now ≡ x)) }
    ensures kind { IfOk result (λ both. HasKind kind width (function_of both.0)) }
    ensures passed { IfOk result (λ both. PassedIn rest.now 0 both.1 (driver_of i width [] (function_of both.0))) }
    ensures misses { IfErr result (Misses (IsKindLine kind i width) rest.now 0) }
    ensures wrong { IfErr result (λ _. IsNoLine kind i width rest.now) }
{
    let mut cursor = Cursor::new(rest);
    let gate = kind_line(alloc, &mut cursor, kind, i, width)?;
    Ok((gate, cursor.at()))
}

// The kind whose sign stands first behind the sign of assignment.
fn likely(rest: &[u8]) -> Kind
    ensures { is_wire result ≡ true }
{
    let mut kind = Kind::Const;
    for b in rest.iter().skip(12) {
        match of_sign(*b) {
            Some(Kind::Mux) => kind = Kind::Mux,
            Some(Kind::Const) => return if matches!(kind, Kind::Mux) {
                Kind::Gate
            } else {
                Kind::Const
            },
            Some(found) => return found,
            None => {
                if *b == b';' {
                    return kind;
                }
            }
        }
    }
    kind
}

// The kind whose lines have this sign.
fn of_sign(b: u8) -> Option<Kind>
    ensures { IfSome result (λ kind. is_wire kind ≡ true) }
{
    match b {
        b'\'' => Some(Kind::Const),
        b'~' => Some(Kind::Not),
        b'&' => Some(Kind::And),
        b'|' => Some(Kind::Or),
        b'^' => Some(Kind::Xor),
        b'?' => Some(Kind::Mux),
        b'+' => Some(Kind::Add),
        b'-' => Some(Kind::Sub),
        b'<' => Some(Kind::Less),
        _ => None,
    }
}
