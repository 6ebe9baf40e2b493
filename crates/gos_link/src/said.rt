// What one line of a build file says.

ghost use Rattle.std.specs.Prelude.{◌≡◌, ◌∷◌, [], IfOk, OnErr, MatchOption, map, codes};
ghost use Rattle.gos_lex.specs.Names.{IsName};
ghost use Rattle.gos_lex.specs.Lines.{Word};
ghost use Rattle.gos_link.specs.BuildFile.{keyword, Says, sort_of, sort_of_file};

use crate::file_name::FileName;
use gos_lex::{Name, is_name};
use gos_outside::is_file_name;
use gos_types::NoMemory;
use std::alloc::Global;

/// The files of a build besides those of its instances.
#[derive(Clone, Copy)]
pub enum Role {
    Net,
    Verilog,
    Pulses,
    Trace,
}

/// What a line says.
#[derive(Drop)]
pub enum Said {
    Version,
    Inst {
        name: Name,
        source: FileName,
        object: FileName,
    },
    Bind {
        user: Name,
        import: Name,
        giver: Name,
    },
    Root {
        name: Name,
    },
    File {
        role: Role,
        name: FileName,
    },
}

/// A line with its number.
#[derive(Drop)]
pub struct Item {
    pub line: u64,
    pub said: Said,
}

// The file that a keyword speaks of.
fn role_of(word: &[u8]) -> Option<Role>
    ensures { MatchOption result ((role : Role) → word.now ≡ keyword role → ⊥) (λ role. word.now ≡ keyword role) }
{
    if word == b"net".as_slice() {
        Some(Role::Net)
    } else if word == b"verilog".as_slice() {
        Some(Role::Verilog)
    } else if word == b"pulses".as_slice() {
        Some(Role::Pulses)
    } else if word == b"trace".as_slice() {
        Some(Role::Trace)
    } else {
        None
    }
}

// A name of these bytes, which are one. `Err` is want of memory alone.
fn new_name(alloc: Global, bytes: &[u8]) -> Result<Name, NoMemory>
    requires { IsName bytes.now }
    ensures { IfOk result (λ name. name ≡ bytes.now) }
{
    match Name::new(alloc, bytes) {
        Ok(name) => Ok(name),
        Err(_) => Err(NoMemory),
    }
}

// What a line of two words says.
#[tactic(auto, using(crate::proofs::SaidLemmas::none_of_two))]
fn said_by_two(alloc: Global, word: &[u8], name: &[u8]) -> Result<Option<Said>, NoMemory>
    ensures said { IfOk result (λ found. MatchOption found ((said : Said) → Says (word.now ∷ name.now ∷ []) said → ⊥) (Says (word.now ∷ name.now ∷ []))) }
    ensures memory { OnErr result ((said : Said) × Says (word.now ∷ name.now ∷ []) said) }
{
    if word == b"gosbuild".as_slice() {
        return Ok(version(name));
    }
    if word == b"root".as_slice() {
        return said_by_root(alloc, name);
    }
    match role_of(word) {
        Some(role) => said_by_file(alloc, role, name),
        None => Ok(None),
    }
}

// What a line `gosbuild NUMBER` says.
#[tactic(auto, using(crate::proofs::SaidLemmas::none_of_two))]
fn version(number: &[u8]) -> Option<Said>
    ensures { MatchOption result ((said : Said) → Says (codes "gosbuild" ∷ number.now ∷ []) said → ⊥) (Says (codes "gosbuild" ∷ number.now ∷ [])) }
{
    if number == b"1".as_slice() {
        Some(Said::Version)
    } else {
        None
    }
}

// What a line `root NAME` says.
#[tactic(auto, using(crate::proofs::SaidLemmas::none_of_two))]
fn said_by_root(alloc: Global, name: &[u8]) -> Result<Option<Said>, NoMemory>
    ensures said { IfOk result (λ found. MatchOption found ((said : Said) → Says (codes "root" ∷ name.now ∷ []) said → ⊥)
        (Says (codes "root" ∷ name.now ∷ []))) }
    ensures memory { OnErr result ((said : Said) × Says (codes "root" ∷ name.now ∷ []) said) }
{
    if !is_name(name) {
        return Ok(None);
    }
    let name = new_name(alloc, name)?;
    Ok(Some(Said::Root { name }))
}

// What a line of a file of the build says.
#[tactic(auto, using(crate::proofs::SaidLemmas::none_of_two))]
fn said_by_file(alloc: Global, role: Role, name: &[u8]) -> Result<Option<Said>, NoMemory>
    ensures said { IfOk result (λ found. MatchOption found ((said : Said) → Says (keyword role ∷ name.now ∷ []) said → ⊥)
        (Says (keyword role ∷ name.now ∷ []))) }
    ensures memory { OnErr result ((said : Said) × Says (keyword role ∷ name.now ∷ []) said) }
{
    if !is_file_name(name) {
        return Ok(None);
    }
    let name = FileName::new(alloc, name)?;
    Ok(Some(Said::File { role, name }))
}

// What a line of four words says.
fn said_by_four(
    alloc: Global,
    word: &[u8],
    first: &[u8],
    second: &[u8],
    third: &[u8],
) -> Result<Option<Said>, NoMemory>
    ensures said { IfOk result (λ found. MatchOption found ((said : Said)
        → Says (word.now ∷ first.now ∷ second.now ∷ third.now ∷ []) said → ⊥)
        (Says (word.now ∷ first.now ∷ second.now ∷ third.now ∷ []))) }
    ensures memory { OnErr result ((said : Said)
        × Says (word.now ∷ first.now ∷ second.now ∷ third.now ∷ []) said) }
{
    if word == b"inst".as_slice() {
        said_by_inst(alloc, first, second, third)
    } else if word == b"bind".as_slice() {
        said_by_bind(alloc, first, second, third)
    } else {
        Ok(None)
    }
}

// What a line `inst NAME SOURCE OBJECT` says.
fn said_by_inst(
    alloc: Global,
    name: &[u8],
    source: &[u8],
    object: &[u8],
) -> Result<Option<Said>, NoMemory>
    ensures said { IfOk result (λ found. MatchOption found ((said : Said)
        → Says (codes "inst" ∷ name.now ∷ source.now ∷ object.now ∷ []) said → ⊥)
        (Says (codes "inst" ∷ name.now ∷ source.now ∷ object.now ∷ []))) }
    ensures memory { OnErr result ((said : Said)
        × Says (codes "inst" ∷ name.now ∷ source.now ∷ object.now ∷ []) said) }
{
    if !is_name(name) || !is_file_name(source) || !is_file_name(object) {
        return Ok(None);
    }
    let name = new_name(alloc, name)?;
    let source = FileName::new(alloc, source)?;
    let object = FileName::new(alloc, object)?;
    Ok(Some(Said::Inst {
        name,
        source,
        object,
    }))
}

// What a line `bind USER IMPORT GIVER` says.
fn said_by_bind(
    alloc: Global,
    user: &[u8],
    import: &[u8],
    giver: &[u8],
) -> Result<Option<Said>, NoMemory>
    ensures said { IfOk result (λ found. MatchOption found ((said : Said)
        → Says (codes "bind" ∷ user.now ∷ import.now ∷ giver.now ∷ []) said → ⊥)
        (Says (codes "bind" ∷ user.now ∷ import.now ∷ giver.now ∷ []))) }
    ensures memory { OnErr result ((said : Said)
        × Says (codes "bind" ∷ user.now ∷ import.now ∷ giver.now ∷ []) said) }
{
    if !is_name(user) || !is_name(import) || !is_name(giver) {
        return Ok(None);
    }
    let user = new_name(alloc, user)?;
    let import = new_name(alloc, import)?;
    let giver = new_name(alloc, giver)?;
    Ok(Some(Said::Bind {
        user,
        import,
        giver,
    }))
}

// Two words, where there are two.
fn two_words<'a>(words: &[&'a [u8]]) -> Option<(&'a [u8], &'a [u8])>
    ensures { MatchOption result ((a b : Word) → map (λ word. word.now) words.now ≡ a ∷ b ∷ [] → ⊥) (λ pair.
        map (λ word. word.now) words.now ≡ pair.0.now ∷ pair.1.now ∷ []) }
{
    match words {
        [a, b] => Some((*a, *b)),
        _ => None,
    }
}

// Four words, where there are four.
fn four_words<'a>(words: &[&'a [u8]]) -> Option<(&'a [u8], &'a [u8], &'a [u8], &'a [u8])>
    ensures { MatchOption result ((a b c d : Word) → map (λ word. word.now) words.now ≡ a ∷ b ∷ c ∷ d ∷ [] → ⊥) (λ all.
        map (λ word. word.now) words.now ≡ all.0.now ∷ all.1.now ∷ all.2.now ∷ all.3.now ∷ []) }
{
    match words {
        [a, b, c, d] => Some((*a, *b, *c, *d)),
        _ => None,
    }
}

/// What a line of these words says, if it is of one of the forms. `Err` is want of memory alone, and only a line that says
/// something wants any.
#[tactic(auto, using(crate::proofs::SaidLemmas::says_nothing))]
pub(crate) fn said_by(alloc: Global, words: &[&[u8]]) -> Result<Option<Said>, NoMemory>
    ensures said { IfOk result (λ found. MatchOption found ((said : Said) → Says (map (λ word. word.now) words.now) said → ⊥)
        (Says (map (λ word. word.now) words.now))) }
    ensures memory { OnErr result ((said : Said) × Says (map (λ word. word.now) words.now) said) }
{
    if let Some((word, name)) = two_words(words) {
        return said_by_two(alloc, word, name);
    }
    match four_words(words) {
        Some((word, first, second, third)) => said_by_four(alloc, word, first, second, third),
        None => Ok(None),
    }
}

impl Said {
    /// Which sort of line says this, by the order of the sorts in a build file.
    pub fn sort(&self) -> u64
        ensures { result ≡ sort_of self.now }
    {
        match self {
            Said::Version => 1,
            Said::Inst { .. } => 2,
            Said::Bind { .. } => 3,
            Said::Root { .. } => 4,
            Said::File { role, .. } => role.sort(),
        }
    }
}

impl Role {
    // Which sort of line names such a file.
    fn sort(self) -> u64
        ensures { result ≡ sort_of_file self }
    {
        match self {
            Role::Net => 5,
            Role::Verilog => 6,
            Role::Pulses => 7,
            Role::Trace => 8,
        }
    }
}
