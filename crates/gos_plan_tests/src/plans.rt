// Plans of few parts, right and wrong.
use gos_plan::{End, Joint, Kind, ObjectFault, make, one_token_each};
use gos_types::Ty;
use std::alloc::{AllocError, Global};
use std::test::Fail;

// A handshake of a part.
fn part(part: u32, shake: u32) -> End {
    End::Part { part, shake }
}

// The joint of two ends.
fn joint(asks: End, serves: End) -> Joint {
    Joint { asks, serves }
}

// The number of joints of the plan of `skip ; skip` with this last joint, or why it is no plan.
fn sequence(alloc: Global, last: Joint) -> Result<Result<usize, ObjectFault>, AllocError> {
    let parts = vec![in alloc; Kind::Seq, Kind::Skip, Kind::Skip]?;
    let joints = vec![in alloc;
        joint(End::Result { shake: 0 }, part(0, 2)),
        joint(part(0, 0), part(1, 0)),
        last,
    ]?;
    match make(alloc, 15, Vec::new(alloc), Ty::Com, parts, joints) {
        Ok(plan) => Ok(Ok(plan.joints().len())),
        Err(fault) => Ok(Err(fault)),
    }
}

#[test]
fn a_sequence_is_a_plan(rt: HostRuntime) -> Result<(), Fail> {
    match sequence(rt.alloc(), joint(part(0, 1), part(2, 0)))? {
        Ok(joints) => assert_eq!(rt; joints, 3),
        Err(_) => assert!(rt; false, "it was no plan"),
    }
    Ok(())
}

// An end that stands in an earlier joint, two ends that ask, a handshake that the part hasn't, and a joint the wrong way.
#[test]
fn the_first_wrong_joint_is_told(rt: HostRuntime) -> Result<(), Fail> {
    let wrong = [
        joint(part(0, 1), part(1, 0)),
        joint(part(0, 1), part(0, 0)),
        joint(part(0, 1), part(2, 1)),
        joint(part(2, 0), part(0, 1)),
    ];
    for last in wrong {
        match sequence(rt.alloc(), last)? {
            Err(fault) => assert_eq!(rt; fault, ObjectFault::Joint { index: 2 }),
            Ok(_) => assert!(rt; false, "it was a plan"),
        }
    }
    Ok(())
}

#[test]
fn a_plan_shows_its_values(rt: HostRuntime) -> Result<(), Fail> {
    let alloc = rt.alloc();
    let parts = vec![in alloc; Kind::Skip]?;
    let joints = vec![in alloc; joint(End::Result { shake: 0 }, part(0, 0))]?;
    let plan = make(alloc, 5, Vec::new(alloc), Ty::Com, parts, joints)?;
    assert_eq!(rt; plan.weight(), 5);
    assert_eq!(rt; plan.imports().len(), 0);
    assert_eq!(rt; plan.parts().len(), 1);
    assert_eq!(rt; plan.joints().len(), 1);
    assert!(rt; gos_types::is_ground(plan.result()));
    one_token_each();
    Ok(())
}
