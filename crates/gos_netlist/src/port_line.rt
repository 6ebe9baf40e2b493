// The line of a port: its side, its name, its type and its nets.
ghost use Rattle.std.specs.Prelude.{◌≡◌, IfOk, IfErr, map};
ghost use Rattle.gos_types.specs.TypeText.{type_text};
ghost use Rattle.gos_lex.specs.Items.{Misses};
ghost use Rattle.gos_lex.specs.Names.{IsNameOrWord};
ghost use Rattle.gos_netlist.specs.Seen.{ground_type, number_of};
ghost use Rattle.gos_netlist.specs.NetText.{port_text};
ghost use Rattle.gos_netlist.specs.Writable.{IsPortType, IsWritablePort};
ghost use Rattle.gos_netlist.specs.Events.{net_count};
ghost use Rattle.gos_lex.specs.ItemTexts.{Passed, ended};
ghost use Rattle.gos_netlist.specs.inner.NetLines.{BreaksOff, AreNets, tail_text, IsNameText, IsTypeText, IsTailText, IsPortText};

use crate::fault::NetTextFault;
use crate::items::{LAST_WIDTH, LineNets, so_many_nets};
use crate::nets::{Ground, NetId, Port};
use crate::word::{TypeWord, side_word, type_word};
use gos_lex::{Cursor, Name};
use std::alloc::{AllocError, Global};

/// Passes the line of a port of this text, whose cursor it is.
pub fn port(alloc: Global, text: &[u8], cursor: &mut Cursor) -> Result<Port, NetTextFault>
    requires { cursor.now.text ≡ text.now }
    ensures port { IfOk result IsWritablePort }
    ensures passed { IfOk result (λ port. Passed cursor.old cursor.new (port_text port)) }
    ensures wrong { IfErr result (BreaksOff IsPortText cursor.old.text cursor.old.at) }
{
    let side = match side_word(cursor) {
        Ok(side) => side,
        Err(at) => return Err(NetTextFault::Form { at }),
    };
    let name = name(alloc, text, cursor)?;
    let (ground, nets) = type_and_nets(alloc, cursor)?;
    Ok(Port {
        name,
        side,
        ground,
        nets,
    })
}

// Passes a name and the space behind it.
fn name(alloc: Global, text: &[u8], cursor: &mut Cursor) -> Result<Name, NetTextFault>
    requires { cursor.now.text ≡ text.now }
    ensures name { IfOk result IsNameOrWord }
    ensures passed { IfOk result (λ name. Passed cursor.old cursor.new (ended 32 name)) }
    ensures wrong { IfErr result (BreaksOff IsNameText cursor.old.text cursor.old.at) }
{
    let span = match cursor.name() {
        Ok(span) => span,
        Err(at) => return Err(NetTextFault::Form { at }),
    };
    match cursor.word(b" ") {
        Ok(()) => match Name::new(alloc, &text[span.from..span.to]) {
            Ok(name) => Ok(name),
            Err(_) => Err(NetTextFault::NoMemory),
        },
        Err(at) => Err(NetTextFault::Form { at }),
    }
}

// Passes a type and its nets.
fn type_and_nets(alloc: Global, cursor: &mut Cursor) -> Result<(Ground, Vec<NetId>), NetTextFault>
    ensures ty { IfOk result (λ both. IsPortType (ground_type both.0)) }
    ensures nets { IfOk result (λ both. AreNets (net_count (ground_type both.0)) (map number_of both.1.items)) }
    ensures passed { IfOk result (λ both. Passed cursor.old cursor.new (tail_text (ground_type both.0) (map number_of both.1.items))) }
    ensures wrong { IfErr result (BreaksOff IsTailText cursor.old.text cursor.old.at) }
{
    let ty = match port_type(cursor) {
        Ok(ty) => ty,
        Err(at) => return Err(NetTextFault::Form { at }),
    };
    let nets = match so_many_nets(alloc, cursor, ty.net_count()) {
        Ok(nets) => nets,
        Err(at) => return Err(NetTextFault::Form { at }),
    };
    Ok((ty, listed(alloc, &nets)?))
}

// The nets as a list.
fn listed(alloc: Global, nets: &LineNets) -> Result<Vec<NetId>, AllocError>
    ensures { IfOk result (λ list. list.items ≡ nets.now.items) }
{
    nets.as_slice().to_vec(alloc)
}

// Passes a type and the space behind it.
fn port_type(cursor: &mut Cursor) -> Result<Ground, usize>
    ensures ty { IfOk result (λ ty. IsPortType (ground_type ty)) }
    ensures passed { IfOk result (λ ty. Passed cursor.old cursor.new (ended 32 (type_text (ground_type ty)))) }
    ensures wrong { IfErr result (Misses IsTypeText cursor.old.text cursor.old.at) }
{
    match type_word(cursor)? {
        TypeWord::Com => Ok(Ground::Com),
        TypeWord::Exp => Ok(Ground::Exp(cursor.ended_number(1, LAST_WIDTH, b' ')? as u32)),
        TypeWord::Var => Ok(Ground::Var(cursor.ended_number(1, LAST_WIDTH, b' ')? as u32)),
    }
}
