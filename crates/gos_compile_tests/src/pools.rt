// A plan that is laid out in one pool twice.
use gos_expand::{Policy, expand_into};
use gos_lex::Name;
use gos_netlist::{Netlist, print_net};
use gos_plan::{End, Joint, Kind, make};
use gos_pool::NetPool;
use gos_types::Ty;
use std::test::Fail;

/// The plan of `skip`, and once more behind its five cells.
const TWICE: &[u8] =
    b"gosnet 1\ncells 10\ninput 1\nreg 1 3\nreg 1 0\nreg 1 4\nor 1 2 2\ninput 1\nreg 1 8\nreg 1 5\nreg 1 9\nor 1 7 7\nports 2\ngive main com 0 1\ngive main com 5 6\nend\n";

#[test]
#[tactic(auto, using(crate::proofs::NameLemmas::one_name))]
fn the_second_plan_names_its_own_cells(rt: HostRuntime) -> Result<(), Fail> {
    let alloc = rt.alloc();
    let parts = vec![in alloc; Kind::Skip]?;
    let asks = End::Result { shake: 0 };
    let serves = End::Part { part: 0, shake: 0 };
    let joints = vec![in alloc; Joint { asks, serves }]?;
    let plan = make(alloc, 5, Vec::new(alloc), Ty::Com, parts, joints)?;
    let root = Name::new(alloc, b"main")?;
    let mut pool = NetPool::new(alloc);
    let mut ports = expand_into(alloc, &mut pool, &plan, &root, Policy::All)?;
    for port in expand_into(alloc, &mut pool, &plan, &root, Policy::All)? {
        ports.push(port)?;
    }
    let cells = pool.into_cells();
    let text = print_net(alloc, &Netlist { cells, ports })?;
    assert!(rt; text.as_slice() == TWICE);
    Ok(())
}
