// The head of a module, judged: whether it names the nets of ports, and where it breaks off.
ghost use Rattle.std.specs.Prelude.{◌≡◌, ◌≤◌, ◌++◌, ◌∷◌, [], IfOk, IfErr, OnOk, drop, length};
ghost use Rattle.gos_lex.specs.Names.{IsNameOrWord};
ghost use Rattle.gos_verilog.specs.Place.{HasHead, IsFormedText};
ghost use Rattle.gos_verilog.specs.inner.Stages.{IsWant};
ghost use Rattle.gos_verilog.specs.inner.Breaks.{FaultFrom};
ghost use Rattle.gos_verilog.specs.inner.Faces.{AreKnown, HasMore, HasPorts, LeftFirst};

use crate::declared::further;
use crate::faces::{Face, first_port, free_port, pass_at};
use crate::fault::VFault;
use crate::head::{name_at, start};
use gos_lex::{Cursor, NameTable};
use gos_types::NoMemory;
use std::alloc::Global;

/// Whether the text begins with a head, which names the nets of ports, and the declarations of the clock and the reset.
/// `Err` is the place where it breaks off, or want of memory.
pub fn judge(alloc: Global, text: &[u8]) -> Result<(), VFault>
    ensures head { IfOk result (λ _. HasHead text.now) }
    ensures wrong { IfErr result (FaultFrom IsFormedText (record { text = text.now; at = 0 })) }
{
    let mut cursor = Cursor::new(text);
    start(&mut cursor)?;
    // The module's name stands behind `module gos_`.
    let name = name_at(text, 11);
    ports(alloc, text, cursor.at(), name)
}

// Judges the names of the nets of ports from `at` on, of which the first has this name, and the two declarations.
fn ports(alloc: Global, text: &[u8], at: usize, name: &[u8]) -> Result<(), VFault>
    requires { at ≤ length text.now }
    ensures ports { IfOk result (λ _. HasPorts name.now (drop at text.now)) }
    ensures wrong { IsNameOrWord name.now → IfErr result (FaultFrom (LeftFirst name.now) (record { text = text.now; at = at })) }
{
    let (first, len) = match first_port(alloc, &text[at..], name) {
        Ok(both) => both,
        Err(VFault::Form { at: place }) => return Err(VFault::Form { at: at + place }),
        Err(VFault::NoMemory) => return Err(VFault::NoMemory),
    };
    let (end, stopped) = further_ports(alloc, text, at + len, first)?;
    match pass_at(text, end, b");\n  input clk;\n  input rst;\n") {
        Ok(_) => Ok(()),
        Err(place) => Err(VFault::Form {
            at: further(stopped, place),
        }),
    }
}

// Passes the names of the nets of ports behind the first, from `at` on. It gives the place behind them, and the place where
// no further one goes on.
fn further_ports<'a>(
    alloc: Global,
    text: &'a [u8],
    at: usize,
    first: Face<'a>,
) -> Result<(usize, usize), VFault>
    requires { at ≤ length text.now }
    ensures more { IfOk result (λ found. HasMore first.entry text.now at found.0 found.1) }
    ensures only { IfErr result IsWant }
{
    let mut places = NameTable::new(alloc);
    let mut faces = Vec::new(alloc);
    add(alloc, &mut faces, &mut places, first)?;
    let mut at = at;
    for _ in 0..u32::MAX - 1 {
        match free_port(alloc, &text[at..], &faces, &places) {
            Ok((face, len)) => {
                add(alloc, &mut faces, &mut places, face)?;
                at += len;
            }
            Err(VFault::Form { at: place }) => return Ok((at, at + place)),
            Err(VFault::NoMemory) => return Err(VFault::NoMemory),
        }
    }
    Ok((at, at))
}

// Adds a port, and its name to those that are known.
fn add<'a>(
    alloc: Global,
    faces: &mut Vec<Face<'a>>,
    places: &mut NameTable,
    face: Face<'a>,
) -> Result<(), NoMemory>
    ensures faces { OnOk result (faces.new.items ≡ faces.old.items ++ face.entry ∷ []) }
    ensures known { AreKnown faces.old.items places.old → OnOk result (AreKnown faces.new.items places.new) }
{
    places.add(face.name.to_vec(alloc)?, 0)?;
    faces.push(face)?;
    Ok(())
}
