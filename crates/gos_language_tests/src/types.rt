// Each public function once, at types whose handshakes and texts are written out by hand.
use gos_types::{
    Handshake, NoMemory, Role, Step, Ty, copy, count, difference, fits, greatest, handshakes,
    is_ground, is_width, print_ty, same, sum,
};
use std::alloc::Global;
use std::test::Fail;

fn function(alloc: Global, a: Ty, b: Ty) -> Result<Ty, NoMemory> {
    Ok(Ty::Fun(Box::new(alloc, a)?, Box::new(alloc, b)?))
}

fn product(alloc: Global, a: Ty, b: Ty) -> Result<Ty, NoMemory> {
    Ok(Ty::Pair(Box::new(alloc, a)?, Box::new(alloc, b)?))
}

// `com -> com` and `com * com`.
fn function_of_commands(alloc: Global) -> Result<Ty, NoMemory> {
    function(alloc, Ty::Com, Ty::Com)
}

fn product_of_commands(alloc: Global) -> Result<Ty, NoMemory> {
    product(alloc, Ty::Com, Ty::Com)
}

// Whether a handshake without numbers has this role and stands at the end of this step.
fn is_of_step(shake: Option<&Handshake>, role: Role, step: Step) -> bool {
    match shake {
        Some(shake) => {
            shake.role == role
                && shake.path.as_slice() == [step].as_slice()
                && shake.ask_bits == 0
                && shake.answer_bits == 0
        }
        None => false,
    }
}

// `com -> com` asks its argument, and serves its outcome.
#[test]
fn handshakes_of_a_function(rt: HostRuntime) -> Result<(), Fail> {
    let ty = function_of_commands(rt.alloc())?;
    let shakes = handshakes(rt.alloc(), &ty)?;
    assert!(rt; shakes.len() == 2);
    assert!(rt; is_of_step(shakes.get(0), Role::Ask, Step::Argument));
    assert!(rt; is_of_step(shakes.get(1), Role::Serve, Step::Outcome));
    Ok(())
}

#[test]
fn a_copy_is_the_same(rt: HostRuntime) -> Result<(), Fail> {
    let ty = function_of_commands(rt.alloc())?;
    let copied = copy(rt.alloc(), &ty)?;
    assert!(rt; same(&copied, &ty) && !same(&copied, &Ty::Com));
    Ok(())
}

#[test]
fn a_function_is_not_ground(rt: HostRuntime) -> Result<(), Fail> {
    let ty = function_of_commands(rt.alloc())?;
    assert!(rt; !is_ground(&ty) && is_ground(&Ty::Var(8)));
    Ok(())
}

#[test]
fn counts(rt: HostRuntime) {
    assert!(rt; count(&Ty::Com) == 1 && count(&Ty::Var(8)) == 2);
}

// Whether a type is printed as this text; false where there was no memory for it or for the text.
fn is_printed_as(alloc: Global, ty: Result<Ty, NoMemory>, wanted: &str) -> bool {
    match ty {
        Ok(ty) => match print_ty(alloc, &ty) {
            Ok(text) => text.as_slice() == wanted.as_bytes(),
            Err(_) => false,
        },
        Err(_) => false,
    }
}

fn product_on_the_left(alloc: Global) -> Result<Ty, NoMemory> {
    product(alloc, product(alloc, Ty::Com, Ty::Exp(4))?, Ty::Var(64))
}

fn product_on_the_right(alloc: Global) -> Result<Ty, NoMemory> {
    product(alloc, Ty::Com, product(alloc, Ty::Exp(4), Ty::Var(64))?)
}

#[test]
fn prints_products(rt: HostRuntime) {
    let alloc = rt.alloc();
    assert!(rt; is_printed_as(alloc, Ok(Ty::Exp(4)), "exp 4"));
    assert!(rt; is_printed_as(alloc, product_on_the_left(alloc), "(com * exp 4) * var 64"));
    assert!(rt; is_printed_as(alloc, product_on_the_right(alloc), "com * exp 4 * var 64"));
}

fn function_of_a_function(alloc: Global) -> Result<Ty, NoMemory> {
    function(alloc, function_of_commands(alloc)?, Ty::Exp(1))
}

fn function_of_a_product(alloc: Global) -> Result<Ty, NoMemory> {
    function(
        alloc,
        product_of_commands(alloc)?,
        function_of_commands(alloc)?,
    )
}

fn product_with_a_function(alloc: Global) -> Result<Ty, NoMemory> {
    product(alloc, function_of_commands(alloc)?, Ty::Com)
}

#[test]
fn prints_functions(rt: HostRuntime) {
    let alloc = rt.alloc();
    assert!(rt;
        is_printed_as(
            alloc,
            function_of_a_function(alloc),
            "(com -> com) -> exp 1"
        )
    );
    assert!(rt;
        is_printed_as(
            alloc,
            function_of_a_product(alloc),
            "com * com -> com -> com"
        )
    );
    assert!(rt; is_printed_as(alloc, product_with_a_function(alloc), "(com -> com) * com"));
}

// Widths at both ends of their range, and numbers at both ends of those of 1, 32, 63 and 64 bits.
#[test]
fn numbers_of_widths(rt: HostRuntime) {
    assert!(rt; is_width(1) && is_width(64) && !is_width(0) && !is_width(65));
    assert!(rt; fits(1, 1) && !fits(2, 1) && fits(0, 0) && !fits(1, 0));
    assert!(rt; fits(4_294_967_295, 32) && !fits(4_294_967_296, 32));
    assert!(rt; fits(9_223_372_036_854_775_807, 63) && !fits(9_223_372_036_854_775_808, 63));
    assert!(rt; fits(18_446_744_073_709_551_615, 64) && fits(18_446_744_073_709_551_615, 65));
    assert!(rt; greatest(0) == 0 && greatest(1) == 1 && greatest(32) == 4_294_967_295);
    assert!(rt; greatest(63) == 9_223_372_036_854_775_807);
    assert!(rt; greatest(64) == 18_446_744_073_709_551_615);
}

// A carry and a borrow are dropped at 8, 32 and 64 bits.
#[test]
fn sums_and_differences(rt: HostRuntime) {
    assert!(rt; sum(8, 200, 100) == 44 && difference(8, 100, 200) == 156);
    assert!(rt; sum(32, 4_294_967_295, 2) == 1 && difference(32, 1, 2) == 4_294_967_295);
    assert!(rt; sum(64, 18_446_744_073_709_551_615, 2) == 1);
    assert!(rt; difference(64, 1, 2) == 18_446_744_073_709_551_615);
}
