// The registers of joints: which directions keep them by each policy, and by a choice of one's own.
ghost use Rattle.std.specs.Prelude.{◌∷◌, ◌≤◌, ◌+◌, map, length, All};
ghost use Rattle.gos_types.specs.Types.{type_of, IsGround, IsDone};
ghost use Rattle.gos_plan.specs.Seen.{plan_of};
ghost use Rattle.gos_plan.specs.Size.{plan_size};
ghost use Rattle.gos_expand.specs.Acceptance.{AreDifferent};

use gos_expand::{Policy, expand, expand_with};
use gos_lex::Name;
use gos_netcheck::accept;
use gos_netlist::{Gate, Netlist};
use gos_plan::{End, Joint, Kind, Plan, make};
use gos_types::{NoMemory, Ty};
use std::alloc::Global;
use std::test::Fail;

// How many cells a netlist has, and how many of these are registers.
#[derive(Debug, PartialEq, Clone, Copy)]
struct Count {
    cells: usize,
    registers: usize,
}

fn joint(asks: End, serves: End) -> Joint {
    Joint { asks, serves }
}

fn sizes(net: &Netlist) -> Count {
    let mut registers = 0_usize;
    for cell in &net.cells {
        if matches!(cell.gate, Gate::Reg(_)) {
            registers = registers.saturating_add(1);
        }
    }
    Count {
        cells: net.cells.len(),
        registers,
    }
}

// The count of an accepted netlist.
fn accepted(alloc: Global, net: Netlist) -> Option<Count>
    requires { length net.cells ≤ 5000000 }
{
    let counted = sizes(&net);
    match accept(alloc, net) {
        Ok(_) => Some(counted),
        Err(_) => None,
    }
}

// The netlists of a plan by both policies.
fn by_policies(alloc: Global, plan: &Plan, root: &Name) -> Result<[Option<Count>; 2], NoMemory>
    requires result { IsDone (type_of plan.now.outcome) }
    requires ground { All (λ i. IsGround (type_of i.ty)) plan.now.imports }
    requires names { AreDifferent (root.now ∷ map (λ i. i.name) plan.now.imports) }
    requires size { plan_size (plan_of plan.now) ≤ 5000000 }
    requires ports { length plan.now.imports + 1 ≤ 65536 }
{
    let all = expand(alloc, plan, root, Policy::All)?;
    let few = expand(alloc, plan, root, Policy::Few)?;
    Ok([accepted(alloc, all), accepted(alloc, few)])
}

// The plan of `skip`: the result is answered at once.
#[test]
#[tactic(auto, using(crate::proofs::NameLemmas::one_name))]
fn a_skip_needs_no_register_of_a_joint(rt: HostRuntime) -> Result<(), Fail> {
    let alloc = rt.alloc();
    let parts = vec![in alloc; Kind::Skip]?;
    let end = End::Part { part: 0, shake: 0 };
    let joints = vec![in alloc; joint(End::Result { shake: 0 }, end)]?;
    let plan = make(alloc, 5, Vec::new(alloc), Ty::Com, parts, joints)?;
    let root = Name::new(alloc, b"main")?;
    let all = Some(Count {
        cells: 5,
        registers: 3,
    });
    let few = Some(Count {
        cells: 3,
        registers: 1,
    });
    assert_eq!(rt; by_policies(alloc, &plan, &root)?, [all, few]);
    let kept = expand_with(alloc, &plan, &root, &[true, true])?;
    assert_eq!(rt; accepted(alloc, kept), all);
    let left_out = expand_with(alloc, &plan, &root, &[false, false])?;
    assert_eq!(rt; accepted(alloc, left_out), few);
    Ok(())
}

// What runs a sequence is its own first request. Without its register that would be a ring.
#[test]
#[tactic(auto, using(crate::proofs::NameLemmas::one_name))]
fn a_sequence_that_runs_itself_keeps_its_request(rt: HostRuntime) -> Result<(), Fail> {
    let alloc = rt.alloc();
    let parts = vec![in alloc; Kind::Seq]?;
    let asks = End::Part { part: 0, shake: 0 };
    let serves = End::Part { part: 0, shake: 2 };
    let joints = vec![in alloc; joint(asks, serves)]?;
    let plan = make(alloc, 5, Vec::new(alloc), Ty::Com, parts, joints)?;
    let root = Name::new(alloc, b"main")?;
    let all = Some(Count {
        cells: 9,
        registers: 3,
    });
    let few = Some(Count {
        cells: 8,
        registers: 2,
    });
    assert_eq!(rt; by_policies(alloc, &plan, &root)?, [all, few]);
    let request = expand_with(alloc, &plan, &root, &[true, false])?;
    assert_eq!(rt; accepted(alloc, request), few);
    let none = expand_with(alloc, &plan, &root, &[false, true])?;
    assert_eq!(rt; accepted(alloc, none), None);
    Ok(())
}
