// Reading a netlist from its text.
ghost use Rattle.std.specs.Prelude.{◌≡◌, ◌<◌, IfOk, IfErr, length};
ghost use Rattle.gos_netlist.specs.NetFaults.{IsRead, HasFault};
ghost use Rattle.gos_lex.specs.ItemTexts.{Passed, IsFixed};
ghost use Rattle.gos_netlist.specs.inner.NetLines.{BreaksOff};

use crate::fault::NetTextFault;
use crate::nets::Netlist;
use crate::sections::{cells, ports};
use gos_lex::Cursor;
use std::alloc::Global;

// The longest text, in bytes.
const LONGEST_TEXT: usize = 268_435_456;

/// The netlist that this text is the text of. `print_net` is the way back. A text above the limit takes no memory.
pub fn read_net(alloc: Global, text: &[u8]) -> Result<Netlist, NetTextFault>
    ensures read { IfOk result (IsRead text.now) }
    ensures fault { IfErr result (HasFault text.now) }
    ensures long { 268435456 < length text.now → IfErr result (λ e. e ≡ NetTextFault.Limit 268435456) }
{
    if text.len() > LONGEST_TEXT {
        return Err(NetTextFault::Limit { at: LONGEST_TEXT });
    }
    let mut cursor = Cursor::new(text);
    word(&mut cursor, b"gosnet 1\ncells ")?;
    let cells = cells(alloc, &mut cursor)?;
    word(&mut cursor, b"ports ")?;
    let ports = ports(alloc, text, &mut cursor)?;
    word(&mut cursor, b"end\n")?;
    if cursor.finished() {
        Ok(Netlist { cells, ports })
    } else {
        Err(NetTextFault::Form { at: cursor.at() })
    }
}

// Passes exactly these bytes.
fn word(cursor: &mut Cursor, bytes: &[u8]) -> Result<(), NetTextFault>
    ensures passed { IfOk result (λ _. Passed cursor.old cursor.new bytes.now) }
    ensures wrong { IfErr result (BreaksOff (IsFixed bytes.now) cursor.old.text cursor.old.at) }
{
    match cursor.word(bytes) {
        Ok(()) => Ok(()),
        Err(at) => Err(NetTextFault::Form { at }),
    }
}
