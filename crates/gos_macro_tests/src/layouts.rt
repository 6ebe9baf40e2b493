// All cells of the kinds whose requests go on in the cycle in which they come, each part alone: an operator, choices, and a
// repeated command.
use crate::trial::text_alone;
use gos_control::Control;
use gos_data::Arith;
use gos_plan::{Kind, Op2};
use std::test::Fail;

// The nets that come in at three handshakes and at four.
const THREE: [(u32, u32); 3] = [(100, 101), (102, 103), (104, 105)];

const FOUR: [(u32, u32); 4] = [(100, 101), (102, 103), (104, 105), (106, 107)];

// Cell 6 says whether the right number is awaited, and cell 9 is the left number of an answer.
const SUBTRACTION: &[u8] =
    b"gosnet 1\ncells 12\nor 1 104 104\nmux 8 100 101 2\nreg 8 1\nor 1 100 100\nand 1 100 102\nor 1 102 4\nreg 1 8\nxor 1 6 100\nxor 1 7 102\nmux 8 6 2 101\nsub 8 9 103\ngate 8 102 10\nports 0\nend\n";

// Its result alone has one bit.
const COMPARISON: &[u8] =
    b"gosnet 1\ncells 12\nor 1 104 104\nmux 8 100 101 2\nreg 8 1\nor 1 100 100\nand 1 100 102\nor 1 102 4\nreg 1 8\nxor 1 6 100\nxor 1 7 102\nmux 8 6 2 101\nless 1 9 103\ngate 1 102 10\nports 0\nend\n";

// Its request asks for the test, and no cell is a register.
const CHOICE: &[u8] =
    b"gosnet 1\ncells 5\nor 1 106 106\nand 1 100 101\nnot 1 101\nand 1 100 2\nor 1 102 104\nports 0\nend\n";

const CHOICE_OF_NUMBERS: &[u8] =
    b"gosnet 1\ncells 7\nor 1 106 106\nand 1 100 101\nnot 1 101\nand 1 100 2\nor 1 102 104\ngate 8 102 103\nmux 8 104 105 5\nports 0\nend\n";

// The command's end alone waits in a register. That or the caller's request asks for the test.
const REPEATED: &[u8] =
    b"gosnet 1\ncells 5\nreg 1 102\nor 1 0 104\nand 1 100 101\nnot 1 101\nand 1 100 3\nports 0\nend\n";

#[test]
fn subtraction_has_these_cells(rt: HostRuntime) -> Result<(), Fail> {
    let part = Arith(Kind::Op { op: Op2::Sub, w: 8 });
    let text = text_alone(rt.alloc(), &part, &THREE)?;
    assert!(rt; text.as_slice() == SUBTRACTION);
    Ok(())
}

#[test]
fn comparison_has_these_cells(rt: HostRuntime) -> Result<(), Fail> {
    let part = Arith(Kind::Op {
        op: Op2::Less,
        w: 8,
    });
    let text = text_alone(rt.alloc(), &part, &THREE)?;
    assert!(rt; text.as_slice() == COMPARISON);
    Ok(())
}

#[test]
fn choice_of_commands_has_these_cells(rt: HostRuntime) -> Result<(), Fail> {
    let text = text_alone(rt.alloc(), &Control(Kind::If), &FOUR)?;
    assert!(rt; text.as_slice() == CHOICE);
    Ok(())
}

#[test]
fn choice_of_numbers_has_these_cells(rt: HostRuntime) -> Result<(), Fail> {
    let text = text_alone(rt.alloc(), &Control(Kind::IfExp { w: 8 }), &FOUR)?;
    assert!(rt; text.as_slice() == CHOICE_OF_NUMBERS);
    Ok(())
}

#[test]
fn repeated_command_has_these_cells(rt: HostRuntime) -> Result<(), Fail> {
    let text = text_alone(rt.alloc(), &Control(Kind::While), &THREE)?;
    assert!(rt; text.as_slice() == REPEATED);
    Ok(())
}
