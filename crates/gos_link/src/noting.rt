// What the lines of a build file say together.

ghost use Rattle.std.specs.Prelude.{◌≡◌, IfOk, OnOk, MatchOption};
ghost use Rattle.gos_link.specs.BuildFile.{with_said, with_file as with_one_file, sum_of, nothing, whole};
ghost use Rattle.gos_link.specs.inner.Noting.{sum_noted};

use crate::build::{Bind, Build, Instance};
use crate::file_name::FileName;
use crate::said::{Item, Role, Said};
use gos_lex::Name;
use gos_types::NoMemory;
use std::alloc::Global;

// The root, with the line that names it.
#[derive(Drop)]
pub(crate) struct RootLine {
    pub line: u64,
    pub name: Name,
}

// What is noted of the lines so far.
#[derive(Drop)]
pub(crate) struct Noted {
    pub instances: Vec<Instance>,
    pub binds: Vec<Bind>,
    pub root: Option<RootLine>,
    pub net: Option<FileName>,
    pub verilog: Option<FileName>,
    pub pulses: Option<FileName>,
    pub trace: Option<FileName>,
}

// Notes a file of the build.
fn note_file(noted: &mut Noted, role: Role, name: FileName)
    ensures { sum_noted noted.new ≡ with_one_file role name (sum_noted noted.old) }
{
    match role {
        Role::Net => noted.net = Some(name),
        Role::Verilog => noted.verilog = Some(name),
        Role::Pulses => noted.pulses = Some(name),
        Role::Trace => noted.trace = Some(name),
    }
}

// Notes what a line says.
fn note(noted: &mut Noted, line: u64, said: Said) -> Result<(), NoMemory>
    ensures { OnOk result (sum_noted noted.new ≡ with_said line said (sum_noted noted.old)) }
{
    match said {
        Said::Version => {}
        Said::Inst {
            name,
            source,
            object,
        } => noted.instances.push(Instance {
            line,
            name,
            source,
            object,
        })?,
        Said::Bind {
            user,
            import,
            giver,
        } => noted.binds.push(Bind {
            line,
            user,
            import,
            giver,
        })?,
        Said::Root { name } => noted.root = Some(RootLine { line, name }),
        Said::File { role, name } => note_file(noted, role, name),
    }
    Ok(())
}

// What lines say together.
fn note_all(alloc: Global, items: Vec<Item>) -> Result<Noted, NoMemory>
    ensures { IfOk result (λ noted. sum_noted noted ≡ sum_of nothing items.items) }
{
    let mut noted = Noted {
        instances: Vec::new(alloc),
        binds: Vec::new(alloc),
        root: None,
        net: None,
        verilog: None,
        pulses: None,
        trace: None,
    };
    for item in items {
        note(&mut noted, item.line, item.said)?;
    }
    Ok(noted)
}

/// What lines say together, if that is all of a build. `Err` is want of memory alone.
pub(crate) fn build_of(alloc: Global, items: Vec<Item>) -> Result<Option<Build>, NoMemory>
    ensures { IfOk result (λ found. MatchOption found ((b : Build) → sum_of nothing items.items ≡ whole b → ⊥) (λ b. sum_of nothing items.items ≡ whole b)) }
{
    let noted = note_all(alloc, items)?;
    match (
        noted.root,
        noted.net,
        noted.verilog,
        noted.pulses,
        noted.trace,
    ) {
        (Some(root), Some(net), Some(verilog), Some(pulses), Some(trace)) => Ok(Some(Build {
            instances: noted.instances,
            binds: noted.binds,
            root: root.name,
            root_line: root.line,
            net,
            verilog,
            pulses,
            trace,
        })),
        _ => Ok(None),
    }
}
