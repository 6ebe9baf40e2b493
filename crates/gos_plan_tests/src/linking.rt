// Builds that are linked, and builds that are not.

ghost use Rattle.std.specs.Prelude.{IfOk, IfSome};
ghost use Rattle.gos_link.specs.Linked.{AllKeepLimits, plans_of};

use gos_lex::Name;
use gos_link::{LinkFault, Links, judge_links, link, read_build};
use gos_plan::{Plan, print_object, read_object};
use gos_types::{Ty, print_ty};
use std::alloc::{AllocError, Global};
use std::test::Fail;

const TAIL: &str = "root main\nnet out.net\nverilog out.v\npulses in.pls\ntrace out.trc\n";

fn text(alloc: Global, bytes: &[u8]) -> Result<String, AllocError> {
    String::from_utf8_lossy(alloc, bytes)
}

fn name_text(alloc: Global, name: &Name) -> Result<String, AllocError> {
    text(alloc, name.bytes())
}

fn type_text(alloc: Global, ty: &Ty) -> Result<String, AllocError> {
    match print_ty(alloc, ty) {
        Ok(bytes) => text(alloc, &bytes),
        Err(_) => Err(AllocError),
    }
}

// The lines of faults: of a line, of a line with a name, of a line with types, of two lines, and of a name.
fn place_text(alloc: Global, code: &str, line: u64) -> Result<String, AllocError> {
    format!(in alloc; "{code} line {line}")
}

fn named_place_text(
    alloc: Global,
    code: &str,
    line: u64,
    name: &Name,
) -> Result<String, AllocError> {
    let name = name_text(alloc, name)?;
    format!(in alloc; "{code} line {line} {name}")
}

fn types_text(alloc: Global, line: u64, want: &Ty, got: &Ty) -> Result<String, AllocError> {
    let want = type_text(alloc, want)?;
    let got = type_text(alloc, got)?;
    format!(in alloc; "B4 line {line} want {want} got {got}")
}

fn places_text(alloc: Global, code: &str, first: u64, second: u64) -> Result<String, AllocError> {
    format!(in alloc; "{code} lines {first} and {second}")
}

fn code_and_name(alloc: Global, code: &str, name: &Name) -> Result<String, AllocError> {
    let name = name_text(alloc, name)?;
    format!(in alloc; "{code} {name}")
}

fn open_text(
    alloc: Global,
    name: &Name,
    first: &Name,
    second: &Name,
) -> Result<String, AllocError> {
    let name = name_text(alloc, name)?;
    let first = name_text(alloc, first)?;
    let second = name_text(alloc, second)?;
    format!(in alloc; "B9 {name} in {first} and {second}")
}

fn weight_text(alloc: Global, weight: u64) -> Result<String, AllocError> {
    format!(in alloc; "B11 weight {weight}")
}

fn size_text(alloc: Global, size: u64, ports: u64) -> Result<String, AllocError> {
    format!(in alloc; "B12 size {size} ports {ports}")
}

// A fault as its line.
fn line_of(alloc: Global, fault: &LinkFault) -> Result<String, AllocError> {
    match fault {
        LinkFault::Form { line } => place_text(alloc, "B1", *line),
        LinkFault::NoInstance { line, name } => named_place_text(alloc, "B2", *line, name),
        LinkFault::NoImport { line, name } => named_place_text(alloc, "B3", *line, name),
        LinkFault::TypeDiffers { line, want, got } => types_text(alloc, *line, want, got),
        LinkFault::BoundTwice { first, second } => places_text(alloc, "B5", *first, *second),
        LinkFault::UsedTwice { first, second } => places_text(alloc, "B6", *first, *second),
        LinkFault::Loop { line } => place_text(alloc, "B7", *line),
        LinkFault::Unplaced { name } => code_and_name(alloc, "B8", name),
        LinkFault::OpenTwice {
            name,
            first,
            second,
        } => open_text(alloc, name, first, second),
        LinkFault::NotGround { name } => code_and_name(alloc, "B10", name),
        LinkFault::TooHeavy { weight } => weight_text(alloc, *weight),
        LinkFault::TooLarge { size, ports } => size_text(alloc, *size, *ports),
        LinkFault::NoMemory => Err(AllocError),
    }
}

// The plans of objects, if they are some.
fn plans_in(alloc: Global, objects: &[&str]) -> Result<Option<Vec<Plan>>, AllocError>
    ensures { IfOk result (λ found. IfSome found (λ plans. AllKeepLimits (plans_of plans.items))) }
{
    let mut plans = Vec::new(alloc);
    for object in objects {
        match read_object(alloc, object.as_bytes()) {
            Ok(plan) => plans.push(plan)?,
            Err(_) => return Ok(None),
        }
    }
    Ok(Some(plans))
}

// The fault line of a build of these lines whose objects are these, or the object of the linked plan.
fn linked(alloc: Global, lines: &str, objects: &[&str]) -> Result<String, AllocError> {
    let build_text = format!(in alloc; "gosbuild 1\n{lines}{TAIL}")?;
    let Ok(build) = read_build(alloc, build_text.as_bytes(), b"b.txt") else {
        return String::from_str(alloc, "no build");
    };
    let Some(plans) = plans_in(alloc, objects)? else {
        return String::from_str(alloc, "no object");
    };
    if plans.len() != build.instances.len() {
        return String::from_str(alloc, "other objects");
    }
    match link(alloc, &build, &plans) {
        Ok(plan) => object_text(alloc, &plan),
        Err(fault) => line_of(alloc, &fault),
    }
}

// A plan as its object.
fn object_text(alloc: Global, plan: &Plan) -> Result<String, AllocError> {
    match print_object(alloc, plan) {
        Ok(bytes) => text(alloc, &bytes),
        Err(_) => Err(AllocError),
    }
}

// Whether a build is told this.
fn is_linked(
    alloc: Global,
    lines: &str,
    objects: &[&str],
    wanted: &str,
) -> Result<bool, AllocError> {
    Ok(linked(alloc, lines, objects)?.as_str() == wanted)
}

const SKIP: &str =
    "gosobj 2\nweight 5\nimports 0\nresult com\nparts 1\nskip\njoints 1\nr.0 p0.0\nend\n";

const BOTH: &str =
    "gosobj 2\nweight 17\nimports 2\nimport a com\nimport b com\nresult com\nparts 1\nseq\njoints 3\nr.0 p0.2\np0.0 i0.0\np0.1 i1.0\nend\n";

const SAME: &str =
    "gosobj 2\nweight 17\nimports 2\nimport a com\nimport a com\nresult com\nparts 1\nseq\njoints 3\nr.0 p0.2\np0.0 i0.0\np0.1 i1.0\nend\n";

const PASS: &str =
    "gosobj 2\nweight 7\nimports 1\nimport g fun com com\nresult fun com com\nparts 0\njoints 2\ni0.0 r.0\nr.1 i0.1\nend\n";

const CALL: &str =
    "gosobj 2\nweight 9\nimports 1\nimport f fun com com\nresult com\nparts 1\nskip\njoints 2\nr.0 i0.1\ni0.0 p0.0\nend\n";

const GIVE: &str =
    "gosobj 2\nweight 5\nimports 1\nimport a com\nresult com\nparts 0\njoints 1\nr.0 i0.0\nend\n";

const READ: &str =
    "gosobj 2\nweight 2\nimports 1\nimport e exp 4\nresult exp 4\nparts 0\njoints 1\nr.0 i0.0\nend\n";

const THREE: &str =
    "gosobj 2\nweight 5\nimports 0\nresult exp 8\nparts 1\nlit 8 3\njoints 1\nr.0 p0.0\nend\n";

const HELD: &str =
    "gosobj 2\nweight 5\nimports 1\nimport v var 8\nresult var 8\nparts 0\njoints 2\nr.0 i0.0\nr.1 i0.1\nend\n";

const HEAVY: &str =
    "gosobj 2\nweight 8192\nimports 1\nimport a com\nresult com\nparts 0\njoints 1\nr.0 i0.0\nend\n";

const RING: &str =
    "gosobj 2\nweight 5\nimports 1\nimport f fun com com\nresult com\nparts 1\nskip\njoints 2\nr.0 p0.0\ni0.0 i0.1\nend\n";

const TURN: &str =
    "gosobj 2\nweight 5\nimports 0\nresult fun com com\nparts 0\njoints 1\nr.1 r.0\nend\n";

// Lines of builds, their objects, and the object of each linked plan.
const JOINED: [(&str, &[&str], &str); 6] = [
    (
        "inst main m mo\ninst k k ko\nbind main b k\n",
        &[BOTH, SKIP],
        "gosobj 2\nweight 22\nimports 1\nimport a com\nresult com\nparts 2\nseq\nskip\njoints 3\nr.0 p0.2\np0.0 i0.0\np0.1 p1.0\nend\n",
    ),
    // A line means the first of two imports of one name.
    (
        "inst main m mo\ninst k k ko\nbind main a k\n",
        &[SAME, SKIP],
        "gosobj 2\nweight 22\nimports 1\nimport a com\nresult com\nparts 2\nseq\nskip\njoints 3\nr.0 p0.2\np0.0 p1.0\np0.1 i0.0\nend\n",
    ),
    // Two instances of one source, each with an import of the other's name.
    (
        "inst main m mo\ninst k s ko\ninst l s lo\ninst x s xo\ninst y s yo\nbind main a k\nbind main b l\nbind k a x\nbind l a y\n",
        &[BOTH, GIVE, GIVE, SKIP, SKIP],
        "gosobj 2\nweight 37\nimports 0\nresult com\nparts 3\nseq\nskip\nskip\njoints 3\nr.0 p0.2\np0.0 p1.0\np0.1 p2.0\nend\n",
    ),
    // A chain of three functions, passed through one another.
    (
        "inst p p po\ninst main m mo\ninst q q qo\ninst t t to\nbind main f p\nbind p g q\nbind q g t\n",
        &[PASS, CALL, PASS, TURN],
        "gosobj 2\nweight 28\nimports 0\nresult com\nparts 1\nskip\njoints 1\nr.0 p0.0\nend\n",
    ),
    // A ring of joints without ends.
    (
        "inst main m mo\ninst k k ko\nbind main f k\n",
        &[RING, TURN],
        "gosobj 2\nweight 10\nimports 0\nresult com\nparts 1\nskip\njoints 1\nr.0 p0.0\nend\n",
    ),
    // The order of the instances decides the order of the imports.
    (
        "inst k k ko\ninst main m mo\nbind main a k\n",
        &[
            "gosobj 2\nweight 5\nimports 1\nimport c com\nresult com\nparts 0\njoints 1\nr.0 i0.0\nend\n",
            BOTH,
        ],
        "gosobj 2\nweight 22\nimports 2\nimport c com\nimport b com\nresult com\nparts 1\nseq\njoints 3\nr.0 p0.2\np0.0 i0.0\np0.1 i1.0\nend\n",
    ),
];

#[test]
fn joins_along_the_bound_imports(rt: HostRuntime) -> Result<(), Fail> {
    for (lines, objects, wanted) in JOINED.iter() {
        assert!(rt; is_linked(rt.alloc(), lines, objects, wanted)?);
    }
    Ok(())
}

// Lines of builds, their objects, and the fault of each.
const FAULTS: [(&str, &[&str], &str); 17] = [
    (
        "inst main m mo\ninst k k ko\nbind other a k\n",
        &[BOTH, SKIP],
        "B2 line 4 other",
    ),
    (
        "inst main m mo\ninst k k ko\nbind main z other\n",
        &[BOTH, SKIP],
        "B2 line 4 other",
    ),
    ("inst m m mo\n", &[SKIP], "B2 line 3 main"),
    (
        "inst main m mo\ninst k k ko\nbind main z k\n",
        &[BOTH, SKIP],
        "B3 line 4 z",
    ),
    (
        "inst main m mo\ninst k k ko\nbind main e k\n",
        &[READ, THREE],
        "B4 line 4 want exp 4 got exp 8",
    ),
    (
        "inst main m mo\ninst k k ko\nbind main a k\nbind main a k\n",
        &[BOTH, SKIP],
        "B5 lines 4 and 5",
    ),
    (
        "inst main m mo\ninst k k ko\nbind main a k\nbind main b k\n",
        &[BOTH, SKIP],
        "B6 lines 4 and 5",
    ),
    (
        "inst main m mo\ninst p w po\ninst q w qo\nbind p g q\nbind q g p\n",
        &[SKIP, PASS, PASS],
        "B7 line 6",
    ),
    (
        "inst main m mo\ninst p w po\nbind p g p\n",
        &[SKIP, PASS],
        "B7 line 4",
    ),
    (
        "inst main m mo\ninst p w po\ninst q w qo\ninst r w ro\ninst s w so\nbind q g p\nbind p g s\nbind s g r\nbind r g q\n",
        &[SKIP, PASS, PASS, PASS, PASS],
        "B7 line 10",
    ),
    ("inst main m mo\ninst k k ko\n", &[BOTH, SKIP], "B8 k"),
    (
        "inst main m mo\ninst k k ko\nbind main b k\n",
        &[BOTH, GIVE],
        "B9 a in main and k",
    ),
    (
        "inst main m mo\n",
        &[
            "gosobj 2\nweight 5\nimports 1\nimport main com\nresult com\nparts 0\njoints 1\nr.0 i0.0\nend\n",
        ],
        "B9 main in main and main",
    ),
    ("inst main m mo\n", &[SAME], "B9 a in main and main"),
    ("inst main m mo\n", &[HELD], "B10 main"),
    ("inst main m mo\n", &[CALL], "B10 f"),
    (
        "inst main m mo\ninst a m ao\ninst b m bo\ninst c m co\ninst d k do\nbind main a a\nbind a a b\nbind b a c\nbind c a d\n",
        &[HEAVY, HEAVY, HEAVY, HEAVY, SKIP],
        "B11 weight 32773",
    ),
];

#[test]
fn tells_the_first_fault(rt: HostRuntime) -> Result<(), Fail> {
    for (lines, objects, wanted) in FAULTS.iter() {
        assert!(rt; is_linked(rt.alloc(), lines, objects, wanted)?);
    }
    Ok(())
}

// An object without its parts and joints.
fn bare(alloc: Global, object: &str) -> Result<String, AllocError> {
    match object.split_once("parts ") {
        Some((head, _)) => format!(in alloc; "{head}parts 0\njoints 0\nend\n"),
        None => String::from_str(alloc, object),
    }
}

// The plans of objects without their parts and joints, if they are some.
fn bare_plans(alloc: Global, objects: &[&str]) -> Result<Option<Vec<Plan>>, AllocError>
    ensures { IfOk result (λ found. IfSome found (λ plans. AllKeepLimits (plans_of plans.items))) }
{
    let mut plans = Vec::new(alloc);
    for object in objects {
        let text = bare(alloc, object)?;
        match read_object(alloc, text.as_bytes()) {
            Ok(plan) => plans.push(plan)?,
            Err(_) => return Ok(None),
        }
    }
    Ok(Some(plans))
}

// The root of a build and how many services it has.
fn links_text(alloc: Global, links: &Links) -> Result<String, AllocError> {
    let root = links.root();
    let services = links.services().len();
    format!(in alloc; "root {root} services {services}")
}

// What a build of these lines is told before its weight, over objects without parts and joints.
fn judged(alloc: Global, lines: &str, objects: &[&str]) -> Result<String, AllocError> {
    let build_text = format!(in alloc; "gosbuild 1\n{lines}{TAIL}")?;
    let Ok(build) = read_build(alloc, build_text.as_bytes(), b"b.txt") else {
        return String::from_str(alloc, "no build");
    };
    let Some(plans) = bare_plans(alloc, objects)? else {
        return String::from_str(alloc, "no object");
    };
    if plans.len() != build.instances.len() {
        return String::from_str(alloc, "other objects");
    }
    match judge_links(alloc, &build, &plans) {
        Ok(links) => links_text(alloc, &links),
        Err(fault) => line_of(alloc, &fault),
    }
}

// Whether a build is told this before its weight.
fn is_judged(
    alloc: Global,
    lines: &str,
    objects: &[&str],
    wanted: &str,
) -> Result<bool, AllocError> {
    Ok(judged(alloc, lines, objects)?.as_str() == wanted)
}

#[test]
fn objects_without_parts_say_enough_before_the_weight(rt: HostRuntime) -> Result<(), Fail> {
    for (lines, objects, wanted) in FAULTS[..16].iter() {
        assert!(rt; is_judged(rt.alloc(), lines, objects, wanted)?);
    }
    let (lines, objects, _) = FAULTS[16];
    assert!(rt; is_judged(rt.alloc(), lines, objects, "root 0 services 4")?);
    Ok(())
}

// Adds a Share of 64 handshakes.
fn push_share(object: &mut String) -> Result<(), AllocError> {
    object.push_str("share")?;
    for _ in 0..63 {
        object.push_str(" pair")?;
    }
    for _ in 0..64 {
        object.push_str(" com")?;
    }
    object.push_str("\n")?;
    Ok(())
}

// An object of 997 of these.
fn large_object(alloc: Global) -> Result<String, AllocError> {
    let head = "gosobj 2\nweight 5\nimports 1\nimport a com\nresult com\nparts 997\n";
    let mut object = String::from_str(alloc, head)?;
    for _ in 0..997 {
        push_share(&mut object)?;
    }
    object.push_str("joints 1\nr.0 i0.0\nend\n")?;
    Ok(object)
}

// Shares of 64 handshakes each: 26 for each of them, for its 192 handshakes; the ports are two.
#[test]
fn tells_what_is_too_large(rt: HostRuntime) -> Result<(), Fail> {
    let object = large_object(rt.alloc())?;
    let objects = [object.as_str()];
    assert!(rt;
        is_linked(
            rt.alloc(),
            "inst main m mo\n",
            &objects,
            "B12 size 5002974 ports 2"
        )?
    );
    Ok(())
}

// The lines of 64 instances that serve the imports of the first one in the reverse order.
fn lines_of_64(alloc: Global) -> Result<String, AllocError> {
    let mut lines = String::from_str(alloc, "inst main m mo\n")?;
    for k in 0..64_u32 {
        let line = format!(in alloc; "inst k{k} s k{k}.obj\n")?;
        lines.push_str(&line)?;
    }
    for k in 0..64_u32 {
        let giver = 63_u32.saturating_sub(k);
        let bind = format!(in alloc; "bind main i{k} k{giver}\n")?;
        lines.push_str(&bind)?;
    }
    Ok(lines)
}

// The object of 64 imports, each of which a part of its own asks.
fn object_of_64(alloc: Global) -> Result<String, AllocError> {
    let mut object = String::from_str(alloc, "gosobj 2\nweight 100\nimports 64\n")?;
    for k in 0..64_u32 {
        let import = format!(in alloc; "import i{k} com\n")?;
        object.push_str(&import)?;
    }
    object.push_str("result com\nparts 64\n")?;
    for _ in 0..64 {
        object.push_str("par\n")?;
    }
    object.push_str("joints 64\n")?;
    push_joints(alloc, &mut object)?;
    object.push_str("end\n")?;
    Ok(object)
}

// Adds the 64 joints between the parts and the imports.
fn push_joints(alloc: Global, object: &mut String) -> Result<(), AllocError> {
    for k in 0..64_u32 {
        let joint = format!(in alloc; "p{k}.0 i{k}.0\n")?;
        object.push_str(&joint)?;
    }
    Ok(())
}

// 64 imports, whose givers stand in the reverse order.
fn linked_of_64(alloc: Global) -> Result<String, AllocError> {
    let object = object_of_64(alloc)?;
    let mut objects = Vec::new(alloc);
    objects.push(object.as_str())?;
    for _ in 0..64 {
        objects.push(SKIP)?;
    }
    linked(alloc, &lines_of_64(alloc)?, &objects)
}

#[test]
fn binds_64_imports(rt: HostRuntime) -> Result<(), Fail> {
    let found = linked_of_64(rt.alloc())?;
    assert!(rt; found.as_str().contains("\nimports 0\n"));
    assert!(rt; found.as_str().contains("\np3.0 p124.0\n"));
    assert!(rt; found.as_str().contains("\np63.0 p64.0\n"));
    Ok(())
}
