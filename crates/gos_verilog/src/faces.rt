// Ports by the names of their nets in the head of a module. Places count from the start of what is read.
ghost use Rattle.std.specs.Prelude.{◌≡◌, ◌≤◌, ◌<◌, ◌↔◌, ◌++◌, ◌∷◌, [], ℕ, List, false, IfOk, IfErr, IsTrue, MatchOption, drop, length};
ghost use Rattle.gos_lex.specs.Items.{Begins, IsJust, Misses, StopsAt};
ghost use Rattle.gos_lex.specs.ItemTexts.{ended};
ghost use Rattle.gos_verilog.specs.declared.port_net.Role.TheVariants.{Run, Ask, Read};
ghost use Rattle.gos_verilog.specs.PortNets.{suffix as suffix_of};
ghost use Rattle.gos_verilog.specs.inner.Stages.{BreaksAt};
ghost use Rattle.gos_verilog.specs.inner.Breaks.{PassedIn};
ghost use Rattle.gos_verilog.specs.inner.Left as lefts;
ghost use Rattle.gos_verilog.specs.inner.Faces as texts;
ghost use Rattle.gos_verilog.specs.inner.Faces.{Face', AreKnown, IsFaceOf, IsFirstName, IsFirstNet, IsNoEnd, IsFree, IsFreeFace, IsFreePort, IsPortOf, Grows, roles_from};
ghost use Rattle.gos_verilog.specs.inner.Faces.{behind_text, first_text, IsNoName, IsNameBefore};

use crate::declared::further;
use crate::fault::VFault;
use crate::head::{is_at, name_length};
use crate::port_net::{Role, roles};
use crate::ports_of::ends_with;
use crate::slots::pass;
use gos_lex::{Cursor, NameTable, is_name_or_word};
use gos_netlist::Ground;
use gos_types::NoMemory;
use std::alloc::Global;
use std::marker::Model;

/// A port as the head of a module names it.
#[derive(Drop)]
pub struct Face<'a> {
    /// The role of its first net, which tells what kind of port it is.
    pub first: Role,
    /// Its name.
    pub name: &'a [u8],
}

impl<'a> Model for Face<'a> {
    ghost use Rattle.gos_verilog.specs.inner.Faces.{Face'};

    ghost Value = { Face' };

    ghost view = { λ face. (face.first, face.name.now) };
}

/// Reads the names of the nets of the first port, which is of this name. It gives the port, and how many bytes they are.
pub fn first_port<'a>(
    alloc: Global,
    rest: &[u8],
    name: &'a [u8],
) -> Result<(Face<'a>, usize), VFault>
    ensures face { IfOk result (λ both. IsFaceOf name.now both.0) }
    ensures within { IfOk result (λ both. both.1 ≤ length rest.now) }
    ensures passed { IfOk result (λ both. PassedIn rest.now 0 both.1 (texts.port_text both.0)) }
    ensures wrong { IfErr result (BreaksAt (IsPortOf name.now) (record { text = rest.now; at = 0 })) }
{
    let kinds = [Role::Run, Role::Ask, Role::Read];
    let mut furthest = 0;
    for kind in &kinds {
        let text = port_text(alloc, name, *kind)?;
        match pass_at(rest, 0, &text) {
            Ok(end) => return Ok((Face { first: *kind, name }, end)),
            Err(at) => furthest = further(furthest, at),
        }
    }
    Err(VFault::Form { at: furthest })
}

/// Reads the names of the nets of a port whose name none of these has. It gives the port, and how many bytes they are.
pub fn free_port<'a>(
    alloc: Global,
    rest: &'a [u8],
    faces: &[Face],
    places: &NameTable,
) -> Result<(Face<'a>, usize), VFault>
    requires known { AreKnown faces.now places.now }
    requires few { length faces.now < 4294967296 }
    ensures face { IfOk result (λ both. IsFreeFace places.now both.0) }
    ensures within { IfOk result (λ both. both.1 ≤ length rest.now) }
    ensures passed { IfOk result (λ both. PassedIn rest.now 0 both.1 (texts.port_text both.0)) }
    ensures wrong { IfErr result (BreaksAt (IsFreePort places.now) (record { text = rest.now; at = 0 })) }
{
    let mid = match pass_at(rest, 0, b", ") {
        Ok(end) => end,
        Err(at) => return Err(VFault::Form { at }),
    };
    let (face, len) = match first_net(alloc, &rest[mid..], faces, places) {
        Ok(both) => both,
        Err(VFault::Form { at: place }) => return Err(VFault::Form { at: mid + place }),
        Err(VFault::NoMemory) => return Err(VFault::NoMemory),
    };
    let behind = behind_first(alloc, &face)?;
    match pass_at(rest, mid + len, &behind) {
        Ok(end) => Ok((face, end)),
        Err(at) => Err(VFault::Form { at }),
    }
}

/// Passes exactly these bytes from `at` on, and gives the place behind them.
pub fn pass_at(text: &[u8], at: usize, bytes: &[u8]) -> Result<usize, usize>
    requires { at ≤ length text.now }
    ensures within { IfOk result (λ end. end ≤ length text.now) }
    ensures passed { IfOk result (λ end. PassedIn text.now at end bytes.now) }
    ensures wrong { IfErr result (Misses (IsJust bytes.now) text.now at) }
{
    let mut cursor = Cursor::new(&text[at..]);
    match pass(&mut cursor, bytes) {
        Ok(()) => Ok(at + cursor.at()),
        Err(place) => Err(at + place),
    }
}

// Reads the name of the first net of a port and the comma behind it. It gives the port, and how many bytes these are.
fn first_net<'a>(
    alloc: Global,
    rest: &'a [u8],
    faces: &[Face],
    places: &NameTable,
) -> Result<(Face<'a>, usize), VFault>
    requires known { AreKnown faces.now places.now }
    requires few { length faces.now < 4294967296 }
    ensures face { IfOk result (λ both. IsFreeFace places.now both.0) }
    ensures within { IfOk result (λ both. both.1 ≤ length rest.now) }
    ensures passed { IfOk result (λ both. PassedIn rest.now 0 both.1 (ended 44 (first_text both.0))) }
    ensures wrong { IfErr result (BreaksAt (IsFirstNet places.now) (record { text = rest.now; at = 0 })) }
{
    let len = name_length(rest);
    match whole_name(rest, len, places) {
        Some(face) => Ok((face, len + 1)),
        None => Err(VFault::Form {
            at: reach(alloc, rest, faces, places)?,
        }),
    }
}

// The port whose first net has the first `len` bytes as its name, if its own name is free and a comma stands behind them.
fn whole_name<'a>(rest: &'a [u8], len: usize, places: &NameTable) -> Option<Face<'a>>
    requires { len ≤ length rest.now }
    ensures { MatchOption result (IsNoName places.now rest.now len) (IsNameBefore places.now rest.now len) }
{
    if is_at(rest, len, b',') {
        face_of(&rest[..len], places)
    } else {
        None
    }
}

// The port whose first net has this name, if its own name is free.
fn face_of<'a>(name: &'a [u8], places: &NameTable) -> Option<Face<'a>>
    ensures { MatchOption result ((v : Face') → IsFreeFace places.now v → name.now ≡ first_text v → ⊥)
        (λ v. IsFreeFace places.now v × (name.now ≡ first_text v)) }
{
    if free_before(name, b"__run", places) {
        Some(face_in(name, Role::Run))
    } else if free_before(name, b"__ask", places) {
        Some(face_in(name, Role::Ask))
    } else if free_before(name, b"__read", places) {
        Some(face_in(name, Role::Read))
    } else {
        None
    }
}

// The port whose net in this role, its first one, has this name.
fn face_in<'a>(name: &'a [u8], first: Role) -> Face<'a>
    ensures { (front : List ℕ) → name.now ≡ front ++ suffix_of first → result ≡ (first, front) }
{
    Face {
        first,
        name: &name[..name.len().saturating_sub(first.suffix().len())],
    }
}

// Whether the bytes are a free name and these.
fn free_before(bytes: &[u8], end: &[u8], places: &NameTable) -> bool
    ensures is { IsTrue result → (front : List ℕ) × IsFree places.now front × (bytes.now ≡ front ++ end.now) }
    ensures only { (front : List ℕ) → IsFree places.now front → bytes.now ≡ front ++ end.now → IsTrue result }
{
    ends_with(bytes, end) && is_free(&bytes[..bytes.len().saturating_sub(end.len())], places)
}

// Whether it is a name that no port has so far.
fn is_free(name: &[u8], places: &NameTable) -> bool
    ensures { IsTrue result ↔ IsFree places.now name.now }
{
    is_name_or_word(name) && places.get(name).is_none()
}

// How many bytes can go on as the name of the first net of a port whose name is free.
fn reach(alloc: Global, rest: &[u8], faces: &[Face], places: &NameTable) -> Result<usize, NoMemory>
    requires known { AreKnown faces.now places.now }
    requires few { length faces.now < 4294967296 }
    ensures { IfOk result (StopsAt (IsFirstName places.now) rest.now 0) }
{
    let mut n = most(rest);
    while n > 0 {
        if may_begin(alloc, &rest[..n], faces, places)? {
            return Ok(n);
        }
        n -= 1;
    }
    Ok(0)
}

// The count of these bytes, or 262: a port's name has 255 bytes at most, and a first net's suffix 6.
fn most(rest: &[u8]) -> usize
    ensures within { result ≤ length rest.now }
    ensures all { result < length rest.now → result ≡ 262 }
{
    if rest.len() < 262 { rest.len() } else { 262 }
}

// Whether the name of the first net of a port whose name is free may begin with these bytes.
fn may_begin(
    alloc: Global,
    bytes: &[u8],
    faces: &[Face],
    places: &NameTable,
) -> Result<bool, NoMemory>
    requires { AreKnown faces.now places.now }
    ensures { IfOk result (λ is. IsTrue is ↔ Begins (IsFirstName places.now) bytes.now) }
{
    if ends_in_role(bytes, places) {
        return Ok(true);
    }
    may_grow(alloc, bytes, faces, places)
}

// Whether the bytes are a free name and a front of the suffix of a first net.
fn ends_in_role(bytes: &[u8], places: &NameTable) -> bool
    ensures is { IsTrue result → Begins (IsFirstName places.now) bytes.now }
    ensures none { result ≡ false → IsNoEnd places.now bytes.now Run × IsNoEnd places.now bytes.now Ask × IsNoEnd places.now bytes.now Read }
{
    if ends_as(bytes, Role::Run, places) {
        true
    } else if ends_as(bytes, Role::Ask, places) {
        true
    } else {
        ends_as(bytes, Role::Read, places)
    }
}

// Whether the bytes are a free name and a front of the role's suffix.
fn ends_as(bytes: &[u8], role: Role, places: &NameTable) -> bool
    ensures is { IsTrue result → (front end more : List ℕ) × IsFree places.now front × (bytes.now ≡ front ++ end) × (suffix_of role ≡ end ++ more) }
    ensures only { (front end more : List ℕ) → IsFree places.now front → bytes.now ≡ front ++ end → suffix_of role ≡ end ++ more → IsTrue result }
{
    let suffix = role.suffix();
    for k in 0..suffix.len() + 1 {
        if free_before(bytes, &suffix[..k], places) {
            return true;
        }
    }
    false
}

// Whether a free name begins with these bytes.
fn may_grow(
    alloc: Global,
    bytes: &[u8],
    faces: &[Face],
    places: &NameTable,
) -> Result<bool, NoMemory>
    requires { AreKnown faces.now places.now }
    ensures { IfOk result (λ is. IsTrue is ↔ Begins (IsFree places.now) bytes.now) }
{
    if is_free(bytes, places) {
        return Ok(true);
    }
    if grows(alloc, bytes, places)? {
        return Ok(true);
    }
    for face in faces {
        if grows_behind(alloc, bytes, face.name, places)? {
            return Ok(true);
        }
    }
    Ok(false)
}

// Whether the name begins with the bytes, and is a free one with one more byte.
fn grows_behind(
    alloc: Global,
    bytes: &[u8],
    name: &[u8],
    places: &NameTable,
) -> Result<bool, NoMemory>
    ensures is { IfOk result (λ is. IsTrue is → (more : List ℕ) × (name.now ≡ bytes.now ++ more) × Grows places.now name.now) }
    ensures none { IfOk result (λ is. is ≡ false → (more : List ℕ) → name.now ≡ bytes.now ++ more → Grows places.now name.now → ⊥) }
{
    if name.starts_with(bytes) {
        grows(alloc, name, places)
    } else {
        Ok(false)
    }
}

// Whether these bytes and one more are a free name.
fn grows(alloc: Global, bytes: &[u8], places: &NameTable) -> Result<bool, NoMemory>
    ensures { IfOk result (λ is. IsTrue is ↔ Grows places.now bytes.now) }
{
    for b in 0..128 {
        let longer = one_more(alloc, bytes, b)?;
        if is_free(&longer, places) {
            return Ok(true);
        }
    }
    Ok(false)
}

// The bytes and one more.
fn one_more(alloc: Global, bytes: &[u8], b: u8) -> Result<Vec<u8>, NoMemory>
    ensures { IfOk result (λ longer. longer.items ≡ bytes.now ++ b ∷ []) }
{
    let mut longer = bytes.to_vec(alloc)?;
    longer.push(b)?;
    Ok(longer)
}

// The names of the nets of a port of this name, whose first net is in this role.
fn port_text(alloc: Global, name: &[u8], first: Role) -> Result<Vec<u8>, NoMemory>
    ensures { IfOk result (λ text. text.items ≡ texts.port_text (first, name.now)) }
{
    let roles = roles_behind(alloc, first)?;
    names_in(alloc, name, &roles)
}

// What stands behind the name of the first net of a port and its comma.
fn behind_first(alloc: Global, face: &Face) -> Result<Vec<u8>, NoMemory>
    ensures { IfOk result (λ text. text.items ≡ behind_text face.now) }
{
    let roles = roles_behind(alloc, face.first)?;
    let text = names_in(alloc, face.name, without_first(&roles))?;
    Ok(without_first(&text).to_vec(alloc)?)
}

// All but the first.
fn without_first<T>(items: &[T]) -> &[T]
    ensures { result.now ≡ drop 1 items.now }
{
    match items {
        [_, rest @ ..] => rest,
        [] => items,
    }
}

// The names of the nets of a port in these roles, each behind a comma.
fn names_in(alloc: Global, name: &[u8], roles: &[Role]) -> Result<Vec<u8>, NoMemory>
    ensures { IfOk result (λ text. text.items ≡ texts.names_in name.now roles.now) }
{
    let mut text = Vec::new(alloc);
    for role in roles {
        text.extend_from_slice(b", ")?;
        text.extend_from_slice(name)?;
        text.extend_from_slice(role.suffix())?;
    }
    Ok(text)
}

// The roles of a port whose first net is in this one, which is that of a first net.
fn roles_behind(alloc: Global, first: Role) -> Result<Vec<Role>, NoMemory>
    ensures { IfOk result (λ list. list.items ≡ roles_from first) }
{
    match first {
        Role::Run => roles(alloc, Ground::Com),
        Role::Ask => roles(alloc, Ground::Exp(1)),
        Role::Read => roles(alloc, Ground::Var(1)),
        _ => Ok(Vec::new(alloc)),
    }
}
