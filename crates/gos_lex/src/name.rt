// Names, as the source language and the machine formats have them.

ghost use Rattle.std.specs.Prelude.{◌≡◌, ℕ, ◌-◌, ◌<◌, ◌≤◌, ◌&&◌, ◌↔◌, length, take, IsTrue, IfOk, IfErr, OnErr};
ghost use Rattle.std.specs.List.{list_all, prefix_len, slice_range};
ghost use Rattle.gos_lex.specs.Bytes.{begins_name, continues_name};
ghost use Rattle.gos_lex.specs.Names.{spells_name, IsSpelled, IsName, IsNameOrWord};
ghost use Rattle.gos_lex.specs.Items.{Passes, StopsAt};

use crate::fault::LexFault;
use crate::word::word_of;
use std::alloc::Global;
use std::hash::{Hash, Hasher};
use std::marker::Model;

// How many bytes a name has at most.
pub(crate) const MAX_NAME: usize = 255;

/// A name, or a word in the place of one: a letter or `_`, then letters, digits and `_`, all ASCII, at most 255 bytes.
#[derive(Debug, Drop)]
pub struct Name {
    bytes: Vec<u8>,
}

impl Model for Name {
    ghost use Rattle.std.specs.Prelude.{List, ℕ};
    ghost use Rattle.gos_lex.specs.Names.{IsNameOrWord};

    ghost Value = { List ℕ };

    ghost view = { λ name. name.bytes.items };

    ghost invariant = { λ name. IsNameOrWord name.bytes.items };
}

impl Name {
    /// The name of these bytes. `Err` is want of memory alone; `is_name_or_word` is the test.
    pub fn new(alloc: Global, bytes: &[u8]) -> Result<Name, LexFault>
        requires { IsNameOrWord bytes.now }
        ensures ok { IfOk result (λ name. name ≡ bytes.now) }
        ensures err { IfErr result (λ fault. fault ≡ LexFault.NoMemory) }
    {
        Ok(Name {
            bytes: bytes.to_vec(alloc)?,
        })
    }

    /// The bytes of the name.
    pub fn bytes(&self) -> &[u8]
        ensures value { result.now ≡ self.now }
        ensures name { IsNameOrWord self.now }
    {
        self.bytes.as_slice()
    }
}

impl PartialEq for Name {
    ghost use Rattle.std.specs.Str.{bytes_eq};
    ghost use Rattle.std.specs.Cmp.{partial_equiv_from_equiv};
    ghost use Rattle.std.specs.Cmp.Lexicographic.{nat_list_eq_equiv};

    ghost eq = { bytes_eq };

    ghost laws = { partial_equiv_from_equiv nat_list_eq_equiv };

    fn eq(&self, other: &Name) -> bool {
        self.bytes() == other.bytes()
    }
}

impl Eq for Name {
    ghost use Rattle.std.specs.Cmp.Lexicographic.{nat_list_eq_equiv};

    ghost laws = { nat_list_eq_equiv };
}

impl Hash for Name {
    ghost use Rattle.std.specs.Hash as fed;
    ghost use Rattle.std.specs.Cmp.Rules.{hashing};
    ghost use Rattle.std.proofs.Common.{rules};

    ghost hash_input = { fed.slice fed.u8 };

    ghost respects_eq = { Prim.search (hashing, rules) };

    fn hash<H: Hasher>(&self, state: &mut H) {
        self.bytes().hash(state);
    }
}

/// Whether the bytes are a name of the source language: of at most 255 bytes, and none of its words.
pub fn is_name(bytes: &[u8]) -> bool
    ensures { IsTrue result ↔ IsName bytes.now }
{
    is_name_or_word(bytes) && word_of(bytes).is_none()
}

/// Whether the bytes are a name of the machine formats, in which words are names too.
pub fn is_name_or_word(bytes: &[u8]) -> bool
    ensures { IsTrue result ↔ IsNameOrWord bytes.now }
{
    bytes.len() <= MAX_NAME && spells_name(bytes)
}

// Where the longest name at `at` ends, if it has at most 255 bytes, and else the first byte that can't belong to one.
pub(crate) fn name_end(text: &[u8], at: usize) -> Result<usize, usize>
    requires { at ≤ length text.now }
    ensures passes { IfOk result (Passes IsSpelled text.now at) }
    ensures name { IfOk result (λ to. IsNameOrWord (slice_range text.now at to)) }
    ensures wrong { IfErr result (StopsAt IsNameOrWord text.now at) }
    ensures none { OnErr result ((to : ℕ) → Passes IsSpelled text.now at to → 255 < to - at) }
{
    let len = name_len(&text[at..]);
    if len == 0 {
        Err(at)
    } else if len <= MAX_NAME {
        Ok(at + len)
    } else {
        Err(at + MAX_NAME)
    }
}

// How many bytes the longest name at the front of the text has, however long it is; 0 where none begins.
fn name_len(text: &[u8]) -> usize
    ensures within { result ≤ length text.now }
    ensures name { 0 < result → IsSpelled (take result text.now) }
    ensures longest { (n : ℕ) → n ≤ length text.now → IsSpelled (take n text.now) → n ≤ result }
{
    match text {
        [first, ..] if begins_name(*first) => name_bytes(text),
        _ => 0,
    }
}

// How many bytes at the front of the text a name may go on with.
pub(crate) fn name_bytes(text: &[u8]) -> usize
    ensures { result ≡ prefix_len continues_name text.now }
{
    text.iter().take_while(|b| continues_name(**b)).count()
}

// Whether the bytes are a letter or `_`, then letters, digits and `_`, of any length.
pub(crate) fn spells_name(bytes: &[u8]) -> bool
    ensures { result ≡ spells_name bytes.now }
{
    match bytes {
        [first, others @ ..] => begins_name(*first) && all_continue(others),
        [] => false,
    }
}

// Whether a name may go on with each of the bytes.
fn all_continue(bytes: &[u8]) -> bool
    ensures { result ≡ list_all continues_name bytes.now }
{
    bytes.iter().all(|b| continues_name(*b))
}

// Whether a name may begin with the byte.
pub(crate) fn begins_name(b: u8) -> bool
    ensures { result ≡ begins_name b }
{
    b.is_ascii_alphabetic() || b == b'_'
}

// Whether a name may go on with the byte.
pub(crate) fn continues_name(b: u8) -> bool
    ensures { result ≡ continues_name b }
{
    begins_name(b) || b.is_ascii_digit()
}
