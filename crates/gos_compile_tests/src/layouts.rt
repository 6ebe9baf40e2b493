// The netlists of small plans: how many cells they have, and that they are accepted.
ghost use Rattle.std.specs.Prelude.{◌∷◌, ◌≤◌, ◌+◌, map, length, All};
ghost use Rattle.gos_types.specs.Types.{type_of, IsGround, IsDone};
ghost use Rattle.gos_plan.specs.Seen.{plan_of};
ghost use Rattle.gos_plan.specs.Size.{plan_size};
ghost use Rattle.gos_expand.specs.Acceptance.{AreDifferent};

use gos_expand::{Policy, expand, expand_fast};
use gos_lex::Name;
use gos_netcheck::accept;
use gos_plan::{End, Joint, Kind, Plan, PlanImport, make};
use gos_types::{NoMemory, Ty};
use std::alloc::Global;
use std::test::Fail;

fn part(part: u32, shake: u32) -> End {
    End::Part { part, shake }
}

fn joint(asks: End, serves: End) -> Joint {
    Joint { asks, serves }
}

// How many cells the fast circuit of a plan has.
fn fast_cells(alloc: Global, plan: &Plan, root: &Name) -> Result<usize, NoMemory>
    requires result { IsDone (type_of plan.now.outcome) }
    requires ground { All (λ i. IsGround (type_of i.ty)) plan.now.imports }
    requires names { AreDifferent (root.now ∷ map (λ i. i.name) plan.now.imports) }
    requires size { plan_size (plan_of plan.now) ≤ 5000000 }
    requires ports { length plan.now.imports + 1 ≤ 65536 }
{
    let net = expand_fast(alloc, plan, root)?;
    Ok(net.cells.len())
}

// How many cells the netlist of a plan has, if it is accepted.
fn cells(alloc: Global, plan: &Plan, root: &Name) -> Result<Option<usize>, NoMemory>
    requires result { IsDone (type_of plan.now.outcome) }
    requires ground { All (λ i. IsGround (type_of i.ty)) plan.now.imports }
    requires names { AreDifferent (root.now ∷ map (λ i. i.name) plan.now.imports) }
    requires size { plan_size (plan_of plan.now) ≤ 5000000 }
    requires ports { length plan.now.imports + 1 ≤ 65536 }
{
    let net = expand(alloc, plan, root, Policy::All)?;
    let count = net.cells.len();
    match accept(alloc, net) {
        Ok(_) => Ok(Some(count)),
        Err(_) => Ok(None),
    }
}

#[test]
#[tactic(auto, using(crate::proofs::NameLemmas::one_name))]
fn a_skip_has_five_cells(rt: HostRuntime) -> Result<(), Fail> {
    let alloc = rt.alloc();
    let parts = vec![in alloc; Kind::Skip]?;
    let joints = vec![in alloc; joint(End::Result { shake: 0 }, part(0, 0))]?;
    let plan = make(alloc, 5, Vec::new(alloc), Ty::Com, parts, joints)?;
    let root = Name::new(alloc, b"main")?;
    assert_eq!(rt; cells(alloc, &plan, &root)?, Some(5));
    Ok(())
}

#[test]
#[tactic(auto, using(crate::proofs::NameLemmas::one_name))]
fn a_sequence_has_registers_in_each_direction(rt: HostRuntime) -> Result<(), Fail> {
    let alloc = rt.alloc();
    let parts = vec![in alloc; Kind::Seq, Kind::Skip, Kind::Skip]?;
    let joints = vec![in alloc;
        joint(End::Result { shake: 0 }, part(0, 2)),
        joint(part(0, 0), part(1, 0)),
        joint(part(0, 1), part(2, 0)),
    ]?;
    let plan = make(alloc, 15, Vec::new(alloc), Ty::Com, parts, joints)?;
    let root = Name::new(alloc, b"main")?;
    assert_eq!(rt; cells(alloc, &plan, &root)?, Some(13));
    Ok(())
}

#[test]
#[tactic(auto, using(crate::proofs::NameLemmas::two_names))]
fn an_import_is_the_result(rt: HostRuntime) -> Result<(), Fail> {
    let alloc = rt.alloc();
    let imports = vec![in alloc;
        PlanImport {
            name: Name::new(alloc, b"go")?,
            ty: Ty::Com,
        },
    ]?;
    let joints = vec![in alloc;
        joint(
            End::Result { shake: 0 },
            End::Import {
                import: 0,
                shake: 0
            }
        ),
    ]?;
    let plan = make(alloc, 5, imports, Ty::Com, Vec::new(alloc), joints)?;
    let root = Name::new(alloc, b"main")?;
    assert_eq!(rt; cells(alloc, &plan, &root)?, Some(6));
    Ok(())
}

#[test]
#[tactic(auto, using(crate::proofs::NameLemmas::one_name))]
fn two_callers_share_a_command(rt: HostRuntime) -> Result<(), Fail> {
    let alloc = rt.alloc();
    let parts = vec![in alloc; Kind::Seq, Kind::Share(Ty::Com), Kind::Skip]?;
    let joints = vec![in alloc;
        joint(End::Result { shake: 0 }, part(0, 2)),
        joint(part(0, 0), part(1, 1)),
        joint(part(0, 1), part(1, 2)),
        joint(part(1, 0), part(2, 0)),
    ]?;
    let plan = make(alloc, 15, Vec::new(alloc), Ty::Com, parts, joints)?;
    let root = Name::new(alloc, b"main")?;
    assert_eq!(rt; cells(alloc, &plan, &root)?, Some(24));
    assert_eq!(rt; fast_cells(alloc, &plan, &root)?, 14);
    Ok(())
}

#[test]
#[tactic(auto, using(crate::proofs::NameLemmas::one_name))]
fn nothing_comes_in_at_an_end_in_no_joint(rt: HostRuntime) -> Result<(), Fail> {
    let alloc = rt.alloc();
    let parts = vec![in alloc; Kind::Skip, Kind::Skip]?;
    let joints = vec![in alloc; joint(End::Result { shake: 0 }, part(0, 0))]?;
    let plan = make(alloc, 10, Vec::new(alloc), Ty::Com, parts, joints)?;
    let root = Name::new(alloc, b"main")?;
    assert_eq!(rt; cells(alloc, &plan, &root)?, Some(7));
    Ok(())
}
