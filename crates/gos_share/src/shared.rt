// The handshakes of a type, one at a time, and where the nets of each go out of its block.

ghost use Rattle.std.specs.Prelude.{◌≡◌, ◌+◌, ◌*◌, ◌∷◌, ◌≤◌, ◌<◌, ℕ, [], Some, length, slice_get, IfOk, IfErr, MatchOption};
ghost use Rattle.gos_types.specs.Types.{type_of};
ghost use Rattle.gos_types.specs.declared.shakes.Role.TheVariants.{Serve, Ask};
ghost use Rattle.gos_plan.specs.Kinds.{contacts_of, turned_contact};
ghost use Rattle.gos_share.specs.Blocks.{asked_size, answered_size, sent_size, told_size, block_size};
ghost use Rattle.gos_share.specs.Handshakes.{contact_of, all_of, from};
ghost use Rattle.gos_share.specs.inner.Seen.{outgoing_of, side_out, blocks_size};

use gos_types::{Role, Ty};

/// A handshake of a type.
#[derive(Debug, Clone, Copy)]
pub struct Shared {
    /// Who asks: `Role::Serve` where the callers do, and `Role::Ask` where the source does.
    pub role: Role,
    /// The bits of the request.
    pub ask_bits: u32,
    /// The bits of the answer.
    pub answer_bits: u32,
}

// A side of a handshake: the source's, or that of one of both callers.
#[derive(Debug, Clone, Copy)]
pub(crate) enum Side {
    Source,
    First,
    Second,
}

// Where a pulse and a number go out, by the places of their cells, and the number's bits.
#[derive(Debug, Clone, Copy)]
pub(crate) struct Out {
    pub(crate) pulse: u32,
    pub(crate) value: u32,
    pub(crate) bits: u32,
}

// A handshake that the holder of a term answers.
fn served(ask_bits: u32, answer_bits: u32) -> Shared
    ensures { contact_of result ≡ record { role = Serve; ask_bits = ask_bits; answer_bits = answer_bits } }
{
    Shared {
        role: Role::Serve,
        ask_bits,
        answer_bits,
    }
}

// This handshake as the only one.
fn only(shared: Shared, j: u32) -> Result<Shared, u32>
    ensures there { IfOk result (λ k. k ≡ shared) }
    ensures first { IfOk result (λ k. j ≡ 0) }
    ensures behind { IfErr result (λ over. j ≡ over + 1) }
{
    if j == 0 { Ok(shared) } else { Err(j - 1) }
}

// Handshake `j` of a type. `Err` has by how much `j` is behind the last one.
#[tactic(auto, using(crate::proofs::SharedLemmas::pair_first, crate::proofs::SharedLemmas::pair_second, crate::proofs::SharedLemmas::fun_second, crate::proofs::SharedLemmas::pair_behind, crate::proofs::SharedLemmas::fun_behind))]
fn find(ty: &Ty, j: u32) -> Result<Shared, u32>
    ensures there { IfOk result (λ k. slice_get (contacts_of (type_of ty.now)) j ≡ Some (contact_of k)) }
    ensures behind { IfErr result (λ over. j ≡ over + length (contacts_of (type_of ty.now))) }
{
    match ty {
        Ty::Com => only(served(0, 0), j),
        Ty::Exp(w) => only(served(0, *w), j),
        Ty::Var(w) => match only(served(0, *w), j) {
            Ok(read) => Ok(read),
            Err(over) => only(served(*w, 0), over),
        },
        Ty::Pair(a, b) => match find(a, j) {
            Ok(shared) => Ok(shared),
            Err(over) => match find(b, over) {
                Ok(shared) => Ok(shared),
                Err(over) => Err(over),
            },
        },
        Ty::Fun(a, b) => match find(a, j) {
            Ok(shared) => Ok(shared.turned()),
            Err(over) => match find(b, over) {
                Ok(shared) => Ok(shared),
                Err(over) => Err(over),
            },
        },
    }
}

/// Handshake `j` of a type, from 0 on. `None` where it hasn't so many.
#[tactic(auto, using(crate::proofs::SharedLemmas::drop_there, crate::proofs::SharedLemmas::drop_behind))]
pub fn next(ty: &Ty, j: u32) -> Option<Shared>
    ensures { MatchOption result (from j ty.now ≡ []) (λ k. from j ty.now ≡ contact_of k ∷ from (j + 1) ty.now) }
{
    match find(ty, j) {
        Ok(shared) => Some(shared),
        Err(_) => None,
    }
}

// How many cells the blocks of a type have.
pub(crate) fn blocks(ty: &Ty) -> u32
    requires { length (all_of ty.now) ≤ 64 }
    ensures size { result ≡ blocks_size (all_of ty.now) }
    ensures few { result ≤ 11 * length (all_of ty.now) }
{
    let mut total = 0;
    let mut j = 0;
    loop {
        match next(ty, j) {
            Some(shared) => {
                total += shared.size();
                j += 1;
            }
            None => return total,
        }
    }
}

impl Shared {
    // The same, as the other side sees it.
    fn turned(self) -> Shared
        ensures { contact_of result ≡ turned_contact (contact_of self) }
    {
        let role = match self.role {
            Role::Serve => Role::Ask,
            Role::Ask => Role::Serve,
        };
        Shared { role, ..self }
    }

    // How many cells its block has.
    pub(crate) fn size(self) -> u32
        ensures size { result ≡ block_size self.role self.ask_bits self.answer_bits }
        ensures few { result ≤ 11 }
    {
        match self.role {
            Role::Serve => 2 + asked_size(self.ask_bits) + answered_size(self.answer_bits),
            Role::Ask => sent_size(self.ask_bits) + told_size(self.answer_bits),
        }
    }

    // What goes out at a side, where the block begins at this place.
    pub(crate) fn out(self, side: Side, at: u32) -> Out
        requires { at ≤ 4000000000 }
        ensures nets { (b : ℕ) → outgoing_of b result ≡ side_out side self.role self.ask_bits self.answer_bits b at }
        ensures pulse { result.pulse < at + block_size self.role self.ask_bits self.answer_bits }
        ensures value { 0 < result.bits → result.value < at + block_size self.role self.ask_bits self.answer_bits }
    {
        match self.role {
            Role::Serve => self.served_out(side, at + 2),
            Role::Ask => self.asked_out(side, at),
        }
    }

    // The same, where the callers ask.
    fn served_out(self, side: Side, at: u32) -> Out
        requires { at ≤ 4000000002 }
        ensures nets { (b n : ℕ) → at ≡ n + 2 → outgoing_of b result ≡ side_out side Serve self.ask_bits self.answer_bits b n }
        ensures pulse { result.pulse < at + asked_size self.ask_bits + answered_size self.answer_bits }
        ensures value { 0 < result.bits → result.value < at + asked_size self.ask_bits + answered_size self.answer_bits }
    {
        let answered = at + asked_size(self.ask_bits);
        match side {
            Side::Source => outgoing(at + 1, at + 4, self.ask_bits),
            Side::First => outgoing(answered, answered + 2, self.answer_bits),
            Side::Second => outgoing(answered + 1, answered + 3, self.answer_bits),
        }
    }

    // The same, where the source asks.
    fn asked_out(self, side: Side, at: u32) -> Out
        requires { at ≤ 4000000000 }
        ensures nets { (b : ℕ) → outgoing_of b result ≡ side_out side Ask self.ask_bits self.answer_bits b at }
        ensures pulse { result.pulse < at + sent_size self.ask_bits + told_size self.answer_bits }
        ensures value { 0 < result.bits → result.value < at + sent_size self.ask_bits + told_size self.answer_bits }
    {
        let told = at + sent_size(self.ask_bits);
        match side {
            Side::Source => outgoing(told, told + 2, self.answer_bits),
            Side::First => outgoing(at + 2, at + 5, self.ask_bits),
            Side::Second => outgoing(at + 3, at + 6, self.ask_bits),
        }
    }
}

// A pulse and a number at these places.
fn outgoing(pulse: u32, value: u32, bits: u32) -> Out
    ensures { result ≡ record { pulse = pulse; value = value; bits = bits } }
{
    Out { pulse, value, bits }
}

// How many cells there are in each part of a block, where a number of so many bits goes through it.
pub(crate) fn asked_size(bits: u32) -> u32
    ensures size { result ≡ asked_size bits }
    ensures few { result ≤ 5 }
{
    if bits == 0 { 2 } else { 5 }
}

pub(crate) fn answered_size(bits: u32) -> u32
    ensures size { result ≡ answered_size bits }
    ensures few { result ≤ 4 }
{
    if bits == 0 { 2 } else { 4 }
}

pub(crate) fn sent_size(bits: u32) -> u32
    ensures size { result ≡ sent_size bits }
    ensures few { result ≤ 7 }
{
    if bits == 0 { 4 } else { 7 }
}

pub(crate) fn told_size(bits: u32) -> u32
    ensures size { result ≡ told_size bits }
    ensures few { result ≤ 3 }
{
    if bits == 0 { 1 } else { 3 }
}
