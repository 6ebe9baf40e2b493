// The declarations of a module: of the nets of its ports, and of its cells.
ghost use Rattle.std.specs.Prelude.{◌≡◌, ◌⊎◌, ◌≤◌, ◌++◌, [], ℕ, Bool, List, IfOk, IfErr, MatchOption, length, map};
ghost use Rattle.std.specs.List.{AllByRecursion, flat_map};
ghost use Rattle.gos_lex.specs.Items.{Misses};
ghost use Rattle.gos_netlist.specs.Nets.{Give};
ghost use Rattle.gos_lex.specs.ItemTexts.{IsInRange};
ghost use Rattle.gos_netlist.specs.Seen.{side_of};
ghost use Rattle.gos_verilog.specs.declared.port_net.Role.{Role as Role'};
ghost use Rattle.gos_verilog.specs.PortNets.{suffix};
ghost use Rattle.gos_verilog.specs.Lines.{port_declaration as line_of};
ghost use Rattle.gos_verilog.specs.inner.Stages.{AreNamesOf, BreaksAt, HaveWidths, IsWant, declared_net};
ghost use Rattle.gos_verilog.specs.inner.Breaks.{FaultFrom, LeadsOn, PassedIn};
ghost use Rattle.gos_verilog.specs.inner.Left as lefts;
ghost use Rattle.gos_verilog.specs.inner.Left.{AreNamed, IsDeclaration, IsDeclared, IsNetOf, IsShape, IsShapeLine, IsShapeOf, LeftCells, LeftNets, NoShape};
ghost use Rattle.gos_verilog.specs.inner.Left.{net_front, net_of, net_text, shape_front, shape_text, shapes_text};

use crate::cell_line::exactly;
use crate::fault::VFault;
use crate::port_net::{PortNet, Role};
use crate::ports_of::ends_with;
use crate::slots::{LAST_BIT, Slot, framed, line};
use gos_lex::Cursor;
use gos_netlist::{NetId, Side};
use std::alloc::Global;

/// What is declared of a cell's net.
#[derive(Clone, Copy)]
pub struct Shape {
    /// Its bits.
    pub width: u32,
    /// Whether it is that of a register.
    pub register: bool,
}

/// Reads the declarations of the nets of ports with these names, from `at` on. It gives the nets and the place behind
/// them.
#[tactic(auto, using(crate::proofs::ListLemmas::all_snoc))]
pub fn port_declarations(
    alloc: Global,
    text: &[u8],
    at: usize,
    names: &[&[u8]],
) -> Result<(Vec<PortNet>, usize), VFault>
    requires within { at ≤ length text.now }
    ensures within { IfOk result (λ both. both.1 ≤ length text.now) }
    ensures wide { IfOk result (λ both. HaveWidths both.0.items) }
    ensures bare { IfOk result (λ both. map declared_net both.0.items ≡ both.0.items) }
    ensures names { IfOk result (λ both. AreNamesOf both.0.items names.now) }
    ensures passed { IfOk result (λ both. PassedIn text.now at both.1 (flat_map line_of both.0.items)) }
    ensures left { (named : List (Role' × List ℕ)) → AreNamed named names.now
        → IfOk result (λ both. LeadsOn (LeftNets [] Give 0 named) (LeftCells both.0.items [])
        (record { text = text.now; at = at }) (record { text = text.now; at = both.1 })) }
    ensures wrong { (named : List (Role' × List ℕ)) → AreNamed named names.now
        → IfErr result (FaultFrom (LeftNets [] Give 0 named) (record { text = text.now; at = at })) }
{
    let mut nets = Vec::new(alloc);
    let mut side = Side::Give;
    let mut last = 0;
    let mut at = at;
    for name in names {
        match role_of(name) {
            Some(role) => match net_declaration(alloc, &text[at..], name, role, side, last) {
                Ok((net, len)) => {
                    side = side_behind(role, side, net.input);
                    last = last_behind(role, last, net.width - 1);
                    nets.push(net)?;
                    at += len;
                }
                Err(VFault::Form { at: place }) => return Err(VFault::Form { at: at + place }),
                Err(VFault::NoMemory) => return Err(VFault::NoMemory),
            },
            None => return Err(VFault::Form { at }),
        }
    }
    Ok((nets, at))
}

// The role of the net of this name.
fn role_of(name: &[u8]) -> Option<Role>
    ensures { (role : Role') (front : List ℕ) → name.now ≡ front ++ suffix role → MatchOption result ⊥ (λ found. found ≡ role) }
{
    if ends_with(name, b"__run") {
        Some(Role::Run)
    } else if ends_with(name, b"__done") {
        Some(Role::Done)
    } else if ends_with(name, b"__ask") {
        Some(Role::Ask)
    } else if ends_with(name, b"__ans") {
        Some(Role::Ans)
    } else if ends_with(name, b"__ansvalue") {
        Some(Role::AnsValue)
    } else if ends_with(name, b"__read") {
        Some(Role::Read)
    } else if ends_with(name, b"__write") {
        Some(Role::Write)
    } else if ends_with(name, b"__writevalue") {
        Some(Role::WriteValue)
    } else {
        None
    }
}

// Whether the net in this role is the first of its port.
fn is_first(role: Role) -> bool
    ensures { result ≡ lefts.is_first role }
{
    matches!(role, Role::Run | Role::Ask | Role::Read)
}

// The side of a port behind a net in this role.
fn side_behind(role: Role, side: Side, input: bool) -> Side
    ensures { side_of result ≡ lefts.side_behind (lefts.is_first role) (side_of side) input }
{
    if is_first(role) {
        if input { Side::Give } else { Side::Take }
    } else {
        side
    }
}

// The last bit of the value of a port, behind a net in this role with this last bit.
fn last_behind(role: Role, last: u32, bit: u32) -> u32
    ensures { result ≡ lefts.last_behind role last bit }
{
    match role {
        Role::AnsValue => bit,
        _ => last,
    }
}

// Reads the declaration of the net of a port in this role, with its length.
fn net_declaration(
    alloc: Global,
    rest: &[u8],
    name: &[u8],
    role: Role,
    side: Side,
    last: u32,
) -> Result<(PortNet, usize), VFault>
    requires { last ≤ LAST_BIT }
    ensures within { IfOk result (λ both. both.1 ≤ length rest.now) }
    ensures declared { IfOk result (λ both. (v : Bool × ℕ) × IsDeclared role (side_of side) last v × (both.0 ≡ net_of name.now v)
        × PassedIn rest.now 0 both.1 (net_text name.now v)) }
    ensures wrong { IfErr result (BreaksAt (IsDeclaration role (side_of side) last name.now) (record { text = rest.now; at = 0 })) }
{
    if !is_first(role) {
        return net_line(alloc, rest, name, role.is_input(side), role, last);
    }
    match net_line(alloc, rest, name, true, role, last) {
        Ok(both) => Ok(both),
        Err(VFault::Form { at: one }) => match net_line(alloc, rest, name, false, role, last) {
            Ok(both) => Ok(both),
            Err(VFault::Form { at: other }) => Err(VFault::Form {
                at: further(one, other),
            }),
            Err(VFault::NoMemory) => Err(VFault::NoMemory),
        },
        Err(VFault::NoMemory) => Err(VFault::NoMemory),
    }
}

// Reads the declaration of a net of this direction, with its length.
fn net_line(
    alloc: Global,
    rest: &[u8],
    name: &[u8],
    input: bool,
    role: Role,
    last: u32,
) -> Result<(PortNet, usize), VFault>
    requires { last ≤ LAST_BIT }
    ensures within { IfOk result (λ both. both.1 ≤ length rest.now) }
    ensures declared { IfOk result (λ both. (n : ℕ) × IsInRange (lefts.least_of role last) (lefts.most_of role last) n × (both.0 ≡ net_of name.now (input, n))
        × PassedIn rest.now 0 both.1 (net_text name.now (input, n))) }
    ensures wrong { IfErr result (BreaksAt (IsNetOf input (lefts.least_of role last) (lefts.most_of role last) name.now) (record { text = rest.now; at = 0 })) }
{
    let tail = framed(alloc, b"0] ", name, b";\n")?;
    let mut cursor = Cursor::new(rest);
    let slots = [Slot {
        before: net_word(input),
        low: least_of(role, last),
        high: most_of(role, last),
        end: b':',
    }];
    match line(alloc, &mut cursor, &slots, &tail) {
        Ok(numbers) => {
            let net = PortNet {
                name: name.to_vec(alloc)?,
                input,
                width: numbers[0] as u32 + 1,
                cell: NetId(0),
            };
            Ok((net, cursor.at()))
        }
        Err(at) => Err(VFault::Form { at }),
    }
}

// The least last bit of a net in this role.
fn least_of(role: Role, last: u32) -> u64
    ensures { result ≡ lefts.least_of role last }
{
    match role {
        Role::WriteValue => u64::from(last),
        _ => 0,
    }
}

// The greatest last bit of a net in this role.
fn most_of(role: Role, last: u32) -> u64
    ensures { result ≡ lefts.most_of role last }
{
    match role {
        Role::AnsValue => LAST_BIT,
        Role::WriteValue => u64::from(last),
        _ => 0,
    }
}

// What stands before the range of a net of a port.
fn net_word(input: bool) -> &'static [u8]
    ensures { result.now ≡ net_front input }
{
    if input { b"  input [" } else { b"  output [" }
}

/// The greater of two places.
pub fn further(one: usize, other: usize) -> usize
    ensures at_least { (one ≤ result) × (other ≤ result) }
    ensures one { (result ≡ one) ⊎ (result ≡ other) }
{
    if one < other { other } else { one }
}

/// Reads declarations of the nets of cells, from `at` on. It gives what they declare, the place behind them, and the
/// place where no further one goes on.
#[tactic(auto, using(crate::proofs::ListLemmas::all_snoc))]
pub fn cell_declarations(
    alloc: Global,
    text: &[u8],
    at: usize,
) -> Result<(Vec<Shape>, usize, usize), VFault>
    requires within { at ≤ length text.now }
    ensures widths { IfOk result (λ found. AllByRecursion IsShape found.0.items) }
    ensures few { IfOk result (λ found. length found.0.items ≤ 4294967295) }
    ensures passed { IfOk result (λ found. PassedIn text.now at found.1 (shapes_text 0 found.0.items)) }
    ensures ends { IfOk result (λ found. NoShape (length found.0.items) text.now found.1 found.2) }
    ensures only { IfErr result IsWant }
{
    let mut shapes = Vec::new(alloc);
    let mut at = at;
    for i in 0..u32::MAX {
        match cell_declaration(alloc, &text[at..], i) {
            Ok((shape, len)) => {
                shapes.push(shape)?;
                at += len;
            }
            Err(place) => return Ok((shapes, at, at + place)),
        }
    }
    Ok((shapes, at, at))
}

// Reads the declaration of the net of cell `i`, with its length.
fn cell_declaration(alloc: Global, rest: &[u8], i: u32) -> Result<(Shape, usize), usize>
    ensures shape { IfOk result (λ both. IsShape both.0) }
    ensures within { IfOk result (λ both. both.1 ≤ length rest.now) }
    ensures passed { IfOk result (λ both. PassedIn rest.now 0 both.1 (shape_text i both.0)) }
    ensures wrong { IfErr result (Misses (IsShapeLine i) rest.now 0) }
{
    match declared_as(alloc, rest, i, false) {
        Ok(both) => Ok(both),
        Err(one) => match declared_as(alloc, rest, i, true) {
            Ok(both) => Ok(both),
            Err(other) => Err(further(one, other)),
        },
    }
}

// Reads the declaration of the net of cell `i`, which is that of a register or a wire, with its length.
fn declared_as(alloc: Global, rest: &[u8], i: u32, register: bool) -> Result<(Shape, usize), usize>
    ensures shape { IfOk result (λ both. IsShape both.0) }
    ensures within { IfOk result (λ both. both.1 ≤ length rest.now) }
    ensures passed { IfOk result (λ both. PassedIn rest.now 0 both.1 (shape_text i both.0)) }
    ensures wrong { IfErr result (Misses (IsShapeOf register i) rest.now 0) }
{
    let mut cursor = Cursor::new(rest);
    let slots = [
        Slot {
            before: shape_word(register),
            low: 0,
            high: LAST_BIT,
            end: b':',
        },
        exactly(b"0] n", i, b';'),
    ];
    let numbers = line(alloc, &mut cursor, &slots, b"\n")?;
    let shape = Shape {
        width: numbers[0] as u32 + 1,
        register,
    };
    Ok((shape, cursor.at()))
}

// What stands before the range of a cell's net.
fn shape_word(register: bool) -> &'static [u8]
    ensures { result.now ≡ shape_front register }
{
    if register { b"  reg [" } else { b"  wire [" }
}
