// All cells of a command's Share by order, alone in a pool with room for exactly these and one region.
use crate::trial::{place_alone, text_alone};
use gos_fast_share::FastSharing;
use gos_types::Ty;
use std::test::Fail;

// The nets that come in at three handshakes and at six.
const THREE: [(u32, u32); 3] = [(100, 101), (102, 103), (104, 105)];

const SIX: [(u32, u32); 6] = [
    (100, 101),
    (102, 103),
    (104, 105),
    (106, 107),
    (108, 109),
    (110, 111),
];

// Both callers' requests come first, and cell 3 is the branch behind them.
const REQUESTS_FIRST: &[u8] =
    b"gosnet 1\ncells 7\nconst 1 0\nreg 1 3\nmux 1 102 0 1\nor 1 2 104\nor 1 102 104\nmux 1 3 0 100\nand 1 100 3\nports 0\nend\n";

// The source's answer comes first, and cell 1 is the branch before.
const ANSWER_FIRST: &[u8] =
    b"gosnet 1\ncells 7\nconst 1 0\nreg 1 3\nmux 1 102 0 1\nor 1 2 104\nor 1 102 104\nmux 1 1 0 100\nand 1 100 1\nports 0\nend\n";

// Caller 1's request comes before caller 0's.
const SECOND_CALLER_FIRST: &[u8] =
    b"gosnet 1\ncells 7\nconst 1 0\nreg 1 3\nor 1 1 104\nmux 1 102 0 2\nor 1 102 104\nmux 1 3 0 100\nand 1 100 3\nports 0\nend\n";

#[test]
fn command_has_these_cells_where_requests_come_first(rt: HostRuntime) -> Result<(), Fail> {
    let share = FastSharing {
        ty: &Ty::Com,
        order: &[1, 2, 0],
    };
    let text = text_alone(rt.alloc(), &share, &THREE)?;
    assert!(rt; text.as_slice() == REQUESTS_FIRST);
    Ok(())
}

#[test]
fn command_has_these_cells_where_the_answer_comes_first(rt: HostRuntime) -> Result<(), Fail> {
    let share = FastSharing {
        ty: &Ty::Com,
        order: &[0, 1, 2],
    };
    let text = text_alone(rt.alloc(), &share, &THREE)?;
    assert!(rt; text.as_slice() == ANSWER_FIRST);
    Ok(())
}

#[test]
fn thread_follows_the_order_of_the_callers(rt: HostRuntime) -> Result<(), Fail> {
    let share = FastSharing {
        ty: &Ty::Com,
        order: &[2, 1, 0],
    };
    let text = text_alone(rt.alloc(), &share, &THREE)?;
    assert!(rt; text.as_slice() == SECOND_CALLER_FIRST);
    Ok(())
}

#[test]
fn variable_has_one_register(rt: HostRuntime) -> Result<(), Fail> {
    let share = FastSharing {
        ty: &Ty::Var(8),
        order: &[2, 3, 4, 5, 0, 1],
    };
    let placed = place_alone(rt.alloc(), &share, &SIX)?;
    assert!(rt; placed.cells.len() == 16 && placed.registers() == 1);
    assert!(rt; placed.pulse_at(0) == 6 && placed.shows(1, 11, 13));
    assert!(rt; placed.shows(2, 7, 9) && placed.shows(4, 8, 10));
    assert!(rt; placed.pulse_at(3) == 14 && placed.pulse_at(5) == 15);
    Ok(())
}
