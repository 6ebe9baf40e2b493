// The head of a module: the names of its ports' nets.
ghost use Rattle.std.specs.Prelude.{◌≡◌, ◌≤◌, ◌↔◌, ◌++◌, ◌∷◌, ℕ, List, Some, false, IfOk, IfErr, IsTrue, MatchResult, drop, length, slice_get, codes};
ghost use Rattle.std.specs.List.{prefix_len};
ghost use Rattle.gos_lex.specs.Bytes.{continues_name};
ghost use Rattle.gos_lex.specs.Names.{IsNameOrWord};
ghost use Rattle.gos_lex.specs.Items.{IsJust};
ghost use Rattle.gos_lex.specs.ItemTexts.{Passed, ended};
ghost use Rattle.gos_verilog.specs.PortNets.{PortNet};
ghost use Rattle.gos_verilog.specs.inner.Stages.{Rest, BreaksAt, HasStart, IsStart, IsModuleName, IsWant, AreNameBytes, HaveNames, AreNamesOf, listed};

use crate::fault::VFault;
use crate::slots::pass;
use gos_lex::Cursor;
use std::alloc::Global;

/// Passes the head of a module, and gives the names of the nets of its ports.
pub fn head<'a>(alloc: Global, text: &'a [u8], cursor: &mut Cursor) -> Result<Vec<&'a [u8]>, VFault>
    requires { cursor.now.text ≡ text.now }
    ensures text { cursor.new.text ≡ text.now }
    ensures stands { (first : List ℕ) (nets : List PortNet) (x : List ℕ) → IsNameOrWord first → HaveNames nets
        → Rest cursor.old (codes "module gos_" ++ (first ++ (codes "(clk, rst" ++ (listed nets ++ (codes ");\n" ++ x)))))
        → MatchResult result (λ names. AreNamesOf nets names.items × Rest cursor.new x) IsWant }
{
    start(cursor)?;
    let names = names(alloc, text, cursor)?;
    word(cursor, b");\n")?;
    Ok(names)
}

/// Passes the name of a module, the clock and the reset.
pub fn start(cursor: &mut Cursor) -> Result<(), VFault>
    ensures text { cursor.new.text ≡ cursor.old.text }
    ensures stands { (name x : List ℕ) → IsNameOrWord name → Rest cursor.old (codes "module gos_" ++ (ended 40 name ++ (codes "clk, rst" ++ x)))
        → MatchResult result (λ _. Rest cursor.new x) (λ _. ⊥) }
    ensures begun { IfOk result (λ _. HasStart cursor.old) }
    ensures wrong { IfErr result (BreaksAt IsStart cursor.old) }
{
    word(cursor, b"module gos_")?;
    module_name(cursor)?;
    word(cursor, b"clk, rst")?;
    Ok(())
}

// Passes the name of a module and the parenthesis behind it.
fn module_name(cursor: &mut Cursor) -> Result<(), VFault>
    ensures text { cursor.new.text ≡ cursor.old.text }
    ensures stands { (name x : List ℕ) → IsNameOrWord name → Rest cursor.old (ended 40 name ++ x) → MatchResult result (λ _. Rest cursor.new x) (λ _. ⊥) }
    ensures passed { IfOk result (λ _. (name : List ℕ) × IsNameOrWord name × Passed cursor.old cursor.new (ended 40 name)) }
    ensures wrong { IfErr result (BreaksAt IsModuleName cursor.old) }
{
    match cursor.name() {
        Ok(_) => match pass(cursor, b"(") {
            Ok(()) => Ok(()),
            Err(at) => Err(VFault::Form { at }),
        },
        Err(at) => Err(VFault::Form { at }),
    }
}

// Passes names, each behind a comma.
fn names<'a>(alloc: Global, text: &'a [u8], cursor: &mut Cursor) -> Result<Vec<&'a [u8]>, VFault>
    requires { cursor.now.text ≡ text.now }
    ensures text { cursor.new.text ≡ text.now }
    ensures stands { (nets : List PortNet) (x : List ℕ) → HaveNames nets → Rest cursor.old (listed nets ++ (codes ")" ++ x))
        → MatchResult result (λ names. AreNamesOf nets names.items × Rest cursor.new (codes ")" ++ x)) IsWant }
{
    let mut names = Vec::new(alloc);
    while is_at(text, cursor.at(), b',') {
        word(cursor, b", ")?;
        names.push(name(text, cursor)?)?;
    }
    Ok(names)
}

/// Whether the byte stands at this place.
pub fn is_at(text: &[u8], at: usize, byte: u8) -> bool
    ensures { IsTrue result ↔ (slice_get text.now at ≡ Some byte) }
{
    match text.get(at) {
        Some(found) => *found == byte,
        None => false,
    }
}

// Passes the bytes of names at the cursor, as many as there are.
fn name<'a>(text: &'a [u8], cursor: &mut Cursor) -> Result<&'a [u8], VFault>
    requires { cursor.now.text ≡ text.now }
    ensures text { cursor.new.text ≡ text.now }
    ensures forward { cursor.old.at ≤ cursor.new.at }
    ensures stands { (bytes : List ℕ) (end : ℕ) (x : List ℕ) → AreNameBytes bytes → continues_name end ≡ false → Rest cursor.old (bytes ++ (end ∷ x))
        → MatchResult result (λ name. (name.now ≡ bytes) × Rest cursor.new (end ∷ x)) (λ _. ⊥) }
{
    let name = name_at(text, cursor.at());
    word(cursor, name)?;
    Ok(name)
}

/// The bytes of names at this place, as many as there are.
pub fn name_at(text: &[u8], at: usize) -> &[u8]
    requires { at ≤ length text.now }
    ensures { (bytes : List ℕ) (end : ℕ) (x : List ℕ) → AreNameBytes bytes → continues_name end ≡ false → drop at text.now ≡ bytes ++ (end ∷ x)
        → result.now ≡ bytes }
{
    let rest = &text[at..];
    &rest[..name_length(rest)]
}

/// How many bytes at the front of the text a name may go on with.
pub fn name_length(text: &[u8]) -> usize
    ensures { result ≡ prefix_len continues_name text.now }
{
    for (n, b) in text.iter().enumerate() {
        if !continues_name(*b) {
            return n;
        }
    }
    text.len()
}

// Whether a name may go on with the byte.
fn continues_name(b: u8) -> bool
    ensures { result ≡ continues_name b }
{
    b.is_ascii_alphabetic() || b == b'_' || b.is_ascii_digit()
}

/// Passes exactly these bytes.
pub fn word(cursor: &mut Cursor, bytes: &[u8]) -> Result<(), VFault>
    ensures text { cursor.new.text ≡ cursor.old.text }
    ensures forward { cursor.old.at ≤ cursor.new.at }
    ensures passed { IfOk result (λ _. Passed cursor.old cursor.new bytes.now) }
    ensures stands { (x : List ℕ) → Rest cursor.old (bytes.now ++ x) → MatchResult result (λ _. Rest cursor.new x) (λ _. ⊥) }
    ensures wrong { IfErr result (BreaksAt (IsJust bytes.now) cursor.old) }
{
    match pass(cursor, bytes) {
        Ok(()) => Ok(()),
        Err(at) => Err(VFault::Form { at }),
    }
}
