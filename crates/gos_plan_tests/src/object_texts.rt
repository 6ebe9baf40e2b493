// Texts of plans: read, printed, and refused.
use gos_plan::{ObjectFault, one_answer, print_object, read_object};
use std::alloc::{AllocError, Global};
use std::test::Fail;

// The fault of a text, if it has one.
fn fault_of(alloc: Global, text: &[u8]) -> Option<ObjectFault> {
    match read_object(alloc, text) {
        Ok(_) => None,
        Err(fault) => Some(fault),
    }
}

// Whether a text reads and prints back.
fn prints_back(alloc: Global, text: &[u8]) -> Result<bool, ObjectFault> {
    let plan = read_object(alloc, text)?;
    let printed = print_object(alloc, &plan)?;
    Ok(printed.as_slice() == text)
}

// The text of `skip ; skip`.
const SEQUENCE: &[u8] =
    b"gosobj 2\nweight 15\nimports 0\nresult com\nparts 3\nseq\nskip\nskip\njoints 3\nr.0 p0.2\np0.0 p1.0\np0.1 p2.0\nend\n";

#[test]
fn a_sequence_reads_and_prints_back(rt: HostRuntime) -> Result<(), Fail> {
    assert!(rt; prints_back(rt.alloc(), SEQUENCE)?);
    one_answer();
    Ok(())
}

// Every kind of part, an import, and types in prefix order.
#[test]
fn each_kind_reads_and_prints_back(rt: HostRuntime) -> Result<(), Fail> {
    let text =
        b"gosobj 2\nweight 8192\nimports 2\nimport fun fun exp 8 com\nimport v pair var 64 com\nresult exp 1\nparts 20\nskip\nlit 64 18446744073709551615\nseq\nseqexp 1\npar\nif\nifexp 64\nwhile\nadd 8\nsub 8\nand 8\nor 8\nxor 8\neq 8\nless 8\nnot 8\nassign 8\nderef 8\nlocal 8 com\nlocal 8 exp 64\njoints 1\np18.1 p19.1\nend\n";
    match fault_of(rt.alloc(), text) {
        Some(fault) => assert_eq!(rt; fault, ObjectFault::Joint { index: 0 }),
        None => assert!(rt; false, "both ends of the joint serve"),
    }
    let text =
        b"gosobj 2\nweight 8192\nimports 2\nimport fun fun exp 8 com\nimport v pair var 64 com\nresult exp 1\nparts 20\nskip\nlit 64 18446744073709551615\nseq\nseqexp 1\npar\nif\nifexp 64\nwhile\nadd 8\nsub 8\nand 8\nor 8\nxor 8\neq 8\nless 8\nnot 8\nassign 8\nderef 8\nshare pair com exp 3\nlocal 8 exp 64\njoints 3\np17.0 p19.1\nr.0 p13.2\np16.0 i0.0\nend\n";
    match fault_of(rt.alloc(), text) {
        Some(fault) => assert_eq!(rt; fault, ObjectFault::Joint { index: 2 }),
        None => assert!(rt; false, "both ends of the last joint ask"),
    }
    let text =
        b"gosobj 2\nweight 8192\nimports 2\nimport fun fun exp 8 com\nimport v pair var 64 com\nresult exp 1\nparts 20\nskip\nlit 64 18446744073709551615\nseq\nseqexp 1\npar\nif\nifexp 64\nwhile\nadd 8\nsub 8\nand 8\nor 8\nxor 8\neq 8\nless 8\nnot 8\nassign 8\nderef 8\nshare pair com exp 3\nlocal 8 exp 64\njoints 3\np17.0 p19.1\nr.0 p13.2\ni0.0 p15.1\nend\n";
    assert!(rt; prints_back(rt.alloc(), text)?);
    Ok(())
}

// The text of a plan of an array of 64 bits, whose line goes on in this way.
fn array_text(alloc: Global, line: &[u8]) -> Result<Vec<u8>, AllocError> {
    let mut text = b"gosobj 2\nweight 20\nimports 0\nresult com\nparts 2\narray 64 "
        .as_slice()
        .to_vec(alloc)?;
    text.extend_from_slice(line)?;
    text.extend_from_slice(b"\nskip\njoints 2\nr.0 p0.4\np0.0 p1.0\nend\n")?;
    Ok(text)
}

// An array has 2, 4, 8 or 16 numbers, and runs a command or an expression.
#[test]
fn arrays_read_and_print_back(rt: HostRuntime) -> Result<(), Fail> {
    let alloc = rt.alloc();
    for line in [b"2 com".as_slice(), b"4 com", b"8 com", b"16 com"] {
        let text = array_text(alloc, line)?;
        assert!(rt; prints_back(alloc, &text)?);
    }
    let head = 57;
    let three = array_text(alloc, b"3 com")?;
    assert!(rt; fault_of(alloc, &three) == Some(ObjectFault::Form { at: head }));
    let one = array_text(alloc, b"1 com")?;
    assert!(rt; fault_of(alloc, &one) == Some(ObjectFault::Form { at: head + 1 }));
    let longer = array_text(alloc, b"160 com")?;
    assert!(rt; fault_of(alloc, &longer) == Some(ObjectFault::Form { at: head + 2 }));
    let runs = array_text(alloc, b"4 exp 8")?;
    assert!(rt; fault_of(alloc, &runs) == Some(ObjectFault::Joint { index: 0 }));
    Ok(())
}

// Format 1 has no word `array`, which ends at its second letter, and no wider numbers. What is read is printed in format 2.
#[test]
fn the_first_format_reads_and_prints_as_the_second(rt: HostRuntime) -> Result<(), Fail> {
    let alloc = rt.alloc();
    let plan = read_object(
        alloc,
        b"gosobj 1\nweight 5\nimports 0\nresult com\nparts 1\nskip\njoints 1\nr.0 p0.0\nend\n",
    )?;
    let printed = print_object(alloc, &plan)?;
    assert!(rt;
        printed.as_slice()
            == b"gosobj 2\nweight 5\nimports 0\nresult com\nparts 1\nskip\njoints 1\nr.0 p0.0\nend\n".as_slice()
    );
    let array = b"gosobj 1\nweight 5\nimports 0\nresult com\nparts 1\narray 8 4 com\n";
    assert!(rt; fault_of(alloc, array) == Some(ObjectFault::Form { at: 48 }));
    let and = b"gosobj 1\nweight 5\nimports 0\nresult com\nparts 1\nand 33\n";
    assert!(rt; fault_of(alloc, and) == Some(ObjectFault::Form { at: 52 }));
    let and = b"gosobj 2\nweight 5\nimports 0\nresult com\nparts 1\nand 65\n";
    assert!(rt; fault_of(alloc, and) == Some(ObjectFault::Form { at: 52 }));
    Ok(())
}

// An end that stands in an earlier joint, and a joint the wrong way.
#[test]
fn the_first_wrong_joint_of_a_text_is_told(rt: HostRuntime) -> Result<(), Fail> {
    let alloc = rt.alloc();
    let twice =
        b"gosobj 2\nweight 15\nimports 0\nresult com\nparts 3\nseq\nskip\nskip\njoints 3\nr.0 p0.2\np0.0 p1.0\np0.1 p1.0\nend\n";
    assert!(rt; fault_of(alloc, twice) == Some(ObjectFault::Joint { index: 2 }));
    let one =
        b"gosobj 2\nweight 5\nimports 0\nresult com\nparts 1\nskip\njoints 1\nr.0 p0.0\nend\n";
    assert!(rt; prints_back(alloc, one)?);
    let turned =
        b"gosobj 2\nweight 5\nimports 0\nresult com\nparts 1\nskip\njoints 1\np0.0 r.0\nend\n";
    assert!(rt; fault_of(alloc, turned) == Some(ObjectFault::Joint { index: 0 }));
    Ok(())
}

// The first byte that can't go on, or the end of the text.
#[test]
fn the_place_is_told_where_a_text_breaks_off(rt: HostRuntime) -> Result<(), Fail> {
    let alloc = rt.alloc();
    assert!(rt; fault_of(alloc, b"") == Some(ObjectFault::Form { at: 0 }));
    assert!(rt; fault_of(alloc, b"gosobj 3") == Some(ObjectFault::Form { at: 7 }));
    assert!(rt; fault_of(alloc, b"gosobj 2\nweight 0") == Some(ObjectFault::Form { at: 16 }));
    assert!(rt; fault_of(alloc, b"gosobj 2\nweight 8193\n") == Some(ObjectFault::Form { at: 19 }));
    assert!(rt;
        fault_of(alloc, b"gosobj 2\nweight 5\nimports 0\nresult con")
            == Some(ObjectFault::Form { at: 37 })
    );
    assert!(rt;
        fault_of(alloc, b"gosobj 2\nweight 5\nimports 0\nresult exp 65\n")
            == Some(ObjectFault::Form { at: 40 })
    );
    let short = b"gosobj 2\nweight 5\nimports 0\nresult com\nparts 1\nseq";
    assert!(rt; fault_of(alloc, short) == Some(ObjectFault::Form { at: short.len() }));
    let longer = b"gosobj 2\nweight 5\nimports 0\nresult com\nparts 0\njoints 0\nend\n\n";
    assert!(rt;
        fault_of(alloc, longer)
            == Some(ObjectFault::Form {
                at: longer.len() - 1
            })
    );
    Ok(())
}

// A text whose result has this many words `pair` before a command.
fn paired(alloc: Global, pairs: usize, last: &[u8]) -> Result<Vec<u8>, AllocError> {
    let mut text = b"gosobj 2\nweight 5\nimports 0\nresult "
        .as_slice()
        .to_vec(alloc)?;
    for _ in 0..pairs {
        text.extend_from_slice(b"pair ")?;
    }
    text.extend_from_slice(last)?;
    Ok(text)
}

// A count above its limit, a type with more than 64 handshakes, and a text that is too long.
#[test]
fn limits_are_told_at_their_places(rt: HostRuntime) -> Result<(), Fail> {
    let alloc = rt.alloc();
    let imports = b"gosobj 2\nweight 5\nimports 65x";
    assert!(rt; fault_of(alloc, imports) == Some(ObjectFault::Limit { at: 26 }));
    let parts = b"gosobj 2\nweight 5\nimports 0\nresult com\nparts 16385\n";
    assert!(rt; fault_of(alloc, parts) == Some(ObjectFault::Limit { at: 45 }));
    let joints = b"gosobj 2\nweight 5\nimports 0\nresult com\nparts 0\njoints 65537\n";
    assert!(rt; fault_of(alloc, joints) == Some(ObjectFault::Limit { at: 54 }));
    let head = 35;
    let fits = paired(alloc, 63, b"com")?;
    assert!(rt; fault_of(alloc, &fits) == Some(ObjectFault::Form { at: fits.len() }));
    let deep = paired(alloc, 64, b"com")?;
    assert!(rt; fault_of(alloc, &deep) == Some(ObjectFault::Limit { at: head + 63 * 5 }));
    let wide = paired(alloc, 63, b"var 8 com")?;
    assert!(rt; fault_of(alloc, &wide) == Some(ObjectFault::Limit { at: head + 63 * 5 }));
    Ok(())
}
