// Netlists that are made tidy. The expected texts are written by hand.
use gos_netcheck::{Checked, accept};
use gos_netlist::{print_net, read_net};
use gos_tidy::tidy;
use std::alloc::Global;
use std::process::Abort;
use std::test::Fail;

// The accepted netlist of a text.
fn checked(alloc: Global, text: &str) -> Result<Checked, Fail> {
    let net = read_net(alloc, text.as_bytes())?;
    if net.cells.len() > 1_000_000 {
        return Err("too many cells".into());
    }
    Ok(accept(alloc, net)?)
}

// The tidy netlist of a text, as a text.
fn tidied(alloc: Global, text: &str) -> Result<Vec<u8>, Fail> {
    match tidy(alloc, checked(alloc, text)?) {
        Ok(tidy) => Ok(print_net(alloc, tidy.netlist())?),
        Err(_) => Err("out of memory".into()),
    }
}

// That a netlist becomes another one, which stays as it is.
fn becomes(rt: &impl Abort, alloc: Global, text: &str, tidy: &str) -> Result<(), Fail> {
    assert!(rt; tidied(alloc, text)?.as_slice() == tidy.as_bytes());
    assert!(rt; tidied(alloc, tidy)?.as_slice() == tidy.as_bytes());
    Ok(())
}

#[test]
fn equal_registers_are_merged(rt: HostRuntime) -> Result<(), Fail> {
    becomes(
        &rt,
        rt.alloc(),
        "gosnet 1\ncells 4\ninput 1\nor 1 0 2\nreg 1 1\nreg 1 1\nports 1\ngive main com 0 3\nend\n",
        "gosnet 1\ncells 3\ninput 1\nor 1 0 2\nreg 1 1\nports 1\ngive main com 0 2\nend\n",
    )
}

#[test]
fn a_gate_of_constants_opens_another(rt: HostRuntime) -> Result<(), Fail> {
    becomes(
        &rt,
        rt.alloc(),
        "gosnet 1\ncells 6\ninput 1\nconst 1 1\nand 1 1 1\ngate 1 2 0\nreg 1 3\nreg 1 0\nports 1\ngive main com 0 4\nend\n",
        "gosnet 1\ncells 2\ninput 1\nreg 1 0\nports 1\ngive main com 0 1\nend\n",
    )
}

// The first of two equal cells leads nowhere, and stays all the same, at its place before the register.
#[test]
fn the_earlier_of_equal_cells_stays(rt: HostRuntime) -> Result<(), Fail> {
    becomes(
        &rt,
        rt.alloc(),
        "gosnet 1\ncells 4\ninput 1\nand 1 0 2\nreg 1 3\nand 1 0 2\nports 1\ngive main com 0 2\nend\n",
        "gosnet 1\ncells 3\ninput 1\nand 1 0 2\nreg 1 1\nports 1\ngive main com 0 2\nend\n",
    )
}

// The gate becomes the constant in its own place, before the register, and the equal one behind it goes.
#[test]
fn a_later_constant_goes(rt: HostRuntime) -> Result<(), Fail> {
    becomes(
        &rt,
        rt.alloc(),
        "gosnet 1\ncells 8\ninput 1\nconst 1 0\nnot 1 1\nreg 1 2\nconst 1 1\nreg 1 4\nxor 1 3 5\nreg 1 6\nports 1\ngive main com 0 7\nend\n",
        "gosnet 1\ncells 5\ninput 1\nconst 1 1\nreg 1 1\nxor 1 2 2\nreg 1 3\nports 1\ngive main com 0 4\nend\n",
    )
}

#[test]
fn shift_registers_are_merged_stage_by_stage(rt: HostRuntime) -> Result<(), Fail> {
    becomes(
        &rt,
        rt.alloc(),
        "gosnet 1\ncells 9\ninput 1\nreg 1 0\nreg 1 0\nreg 1 1\nreg 1 2\nreg 1 3\nreg 1 4\nxor 1 5 6\nreg 1 7\nports 1\ngive main com 0 8\nend\n",
        "gosnet 1\ncells 6\ninput 1\nreg 1 0\nreg 1 1\nreg 1 2\nxor 1 3 3\nreg 1 4\nports 1\ngive main com 0 5\nend\n",
    )
}

#[test]
fn an_unread_input_and_a_register_of_a_constant_stay(rt: HostRuntime) -> Result<(), Fail> {
    becomes(
        &rt,
        rt.alloc(),
        "gosnet 1\ncells 3\ninput 1\nconst 1 1\nreg 1 1\nports 1\ngive main com 0 2\nend\n",
        "gosnet 1\ncells 3\ninput 1\nconst 1 1\nreg 1 1\nports 1\ngive main com 0 2\nend\n",
    )
}

// A Mux, a gate, a complement twice, and equal pins.
#[test]
fn short_gates_go(rt: HostRuntime) -> Result<(), Fail> {
    becomes(
        &rt,
        rt.alloc(),
        "gosnet 1\ncells 12\ninput 1\nconst 1 0\nconst 1 1\nmux 1 1 2 0\ngate 1 2 3\nnot 1 4\nnot 1 5\nor 1 6 6\nand 1 7 7\nmux 1 2 8 1\ngate 1 1 9\nreg 1 9\nports 1\ngive main com 0 11\nend\n",
        "gosnet 1\ncells 2\ninput 1\nreg 1 0\nports 1\ngive main com 0 1\nend\n",
    )?;
    becomes(
        &rt,
        rt.alloc(),
        "gosnet 1\ncells 5\ninput 1\nconst 1 0\ngate 1 1 0\nxor 1 0 2\nreg 1 3\nports 1\ngive main com 0 4\nend\n",
        "gosnet 1\ncells 4\ninput 1\nconst 1 0\nxor 1 0 1\nreg 1 2\nports 1\ngive main com 0 3\nend\n",
    )?;
    becomes(
        &rt,
        rt.alloc(),
        "gosnet 1\ncells 5\ninput 1\nconst 1 1\nnot 1 1\ngate 1 2 0\nreg 1 3\nports 1\ngive main com 0 4\nend\n",
        "gosnet 1\ncells 3\ninput 1\nconst 1 0\nreg 1 1\nports 1\ngive main com 0 2\nend\n",
    )
}

// What comes through a Xor twice is left, in each order of its nets.
#[test]
fn a_xor_of_a_xor_goes(rt: HostRuntime) -> Result<(), Fail> {
    becomes(
        &rt,
        rt.alloc(),
        "gosnet 1\ncells 13\ninput 1\nreg 1 0\nxor 1 0 1\nxor 1 0 2\nxor 1 3 0\nxor 1 4 0\nxor 1 1 0\nxor 1 0 6\nxor 1 2 0\nand 1 5 7\nand 1 9 8\nand 1 10 3\nreg 1 11\nports 1\ngive main com 0 12\nend\n",
        "gosnet 1\ncells 3\ninput 1\nreg 1 0\nreg 1 1\nports 1\ngive main com 0 2\nend\n",
    )
}

// A register that reads itself through an And, two that read each other, and one that reads a constant 0.
#[test]
fn registers_that_stay_0_go(rt: HostRuntime) -> Result<(), Fail> {
    becomes(
        &rt,
        rt.alloc(),
        "gosnet 1\ncells 5\ninput 1\nreg 1 2\nand 1 1 0\nor 1 0 1\nreg 1 3\nports 1\ngive main com 0 4\nend\n",
        "gosnet 1\ncells 4\ninput 1\nconst 1 0\nor 1 0 1\nreg 1 2\nports 1\ngive main com 0 3\nend\n",
    )?;
    becomes(
        &rt,
        rt.alloc(),
        "gosnet 1\ncells 8\ninput 1\nreg 1 2\nreg 1 1\nconst 1 0\nreg 1 3\nxor 1 1 4\nmux 1 5 3 0\nreg 1 6\nports 1\ngive main com 0 7\nend\n",
        "gosnet 1\ncells 2\ninput 1\nreg 1 0\nports 1\ngive main com 0 1\nend\n",
    )
}

// The register stays 0 only where two others are one, which a Xor of a Xor shows.
#[test]
fn a_register_stays_0_once_others_are_one(rt: HostRuntime) -> Result<(), Fail> {
    becomes(
        &rt,
        rt.alloc(),
        "gosnet 1\ncells 8\ninput 1\nreg 1 0\nreg 1 0\nreg 1 5\nxor 1 3 1\nxor 1 4 2\nmux 1 3 3 1\nreg 1 6\nports 1\ngive main com 0 7\nend\n",
        "gosnet 1\ncells 3\ninput 1\nreg 1 0\nreg 1 1\nports 1\ngive main com 0 2\nend\n",
    )
}

// One that reads itself through an Or is 1 from a pulse on, one that reads 1 is 1 from the second cycle on, and an output is a
// register though it stays 0.
#[test]
fn other_registers_stay(rt: HostRuntime) -> Result<(), Fail> {
    becomes(
        &rt,
        rt.alloc(),
        "gosnet 1\ncells 7\ninput 1\nreg 1 2\nor 1 1 0\nconst 1 1\nreg 1 3\nand 1 1 4\nreg 1 5\nports 1\ngive main com 0 6\nend\n",
        "gosnet 1\ncells 7\ninput 1\nreg 1 2\nor 1 1 0\nconst 1 1\nreg 1 3\nand 1 1 4\nreg 1 5\nports 1\ngive main com 0 6\nend\n",
    )?;
    becomes(
        &rt,
        rt.alloc(),
        "gosnet 1\ncells 4\ninput 1\nreg 1 2\nand 1 1 0\nreg 1 1\nports 1\ngive main com 0 1\nend\n",
        "gosnet 1\ncells 3\ninput 1\nreg 1 2\nand 1 1 0\nports 1\ngive main com 0 1\nend\n",
    )
}

// The cells of two constants and a gate that folds, whose number is shown by an Exp port of so many bits.
fn folds(rt: &impl Abort, alloc: Global, gate: &str, shown: &str) -> Result<(), Fail> {
    let text = format!(in alloc;
        "gosnet 1\ncells 8\ninput 1\nconst 64 18446744073709551615\nconst 64 2\n{gate}\nreg 64 3\nreg 1 0\nconst 1 1\nconst 1 0\nports 1\ngive main exp 64 0 5 4\nend\n"
    )?;
    let tidy = format!(in alloc;
        "gosnet 1\ncells 4\ninput 1\n{shown}\nreg 64 1\nreg 1 0\nports 1\ngive main exp 64 0 3 2\nend\n"
    )?;
    becomes(rt, alloc, text.as_str(), tidy.as_str())
}

#[test]
fn each_kind_folds(rt: HostRuntime) -> Result<(), Fail> {
    let alloc = rt.alloc();
    folds(&rt, alloc, "not 64 2", "const 64 18446744073709551613")?;
    folds(&rt, alloc, "and 64 1 2", "const 64 2")?;
    folds(&rt, alloc, "or 64 1 2", "const 64 18446744073709551615")?;
    folds(&rt, alloc, "xor 64 1 2", "const 64 18446744073709551613")?;
    folds(&rt, alloc, "add 64 1 2", "const 64 1")?;
    folds(&rt, alloc, "sub 64 2 1", "const 64 3")?;
    folds(&rt, alloc, "mux 64 6 1 2", "const 64 18446744073709551615")?;
    folds(&rt, alloc, "gate 64 6 2", "const 64 2")?;
    folds(&rt, alloc, "gate 64 7 2", "const 64 0")
}
