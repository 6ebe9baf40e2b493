// The parts and ties of a term while it is walked over.

ghost use Rattle.std.specs.Prelude.{◌≡◌, ◌≤◌, ◌+◌, ◌*◌, ◌++◌, ◌∷◌, [], length, IsTrue, OnOk};
ghost use Rattle.gos_plan.specs.Kinds as kinds;
ghost use Rattle.gos_plan.specs.Seen.{part_of};
ghost use Rattle.gos_compile.specs.inner.Tables.{types_at};
ghost use Rattle.gos_compile.specs.inner.Walked.{seen, is_plain, next_part, with_own, with_share, with_shares};
ghost use Rattle.gos_compile.specs.Wiring.{led, row, share_ties};
ghost use Rattle.gos_compile.specs.inner.Loads.{most, spent, share_load, splits_load};

use crate::points::{lead, lead_row, shakes};
use crate::types::type_at;
use gos_check::Split;
use gos_plan::Kind;
use gos_ties::{Place, Point, Tie};
use gos_types::{NoMemory, Ty};
use std::alloc::Global;

// The parts and the ties so far, and how many nodes were met.
#[derive(Drop)]
pub(crate) struct Wires {
    pub parts: Vec<Kind>,
    pub ties: Vec<Tie>,
    pub nodes: u32,
}

impl Wires {
    // The place of the next part.
    pub fn next(&self) -> u32
        requires { length self.now.parts.items ≤ most }
        ensures { result ≡ next_part (seen self.now) }
    {
        self.parts.len() as u32
    }

    // Adds the own part of a node, whose handshakes it serves from this one on.
    #[tactic(auto, using(crate::proofs::WalkLemmas::plain_more))]
    pub fn own(&mut self, kind: Kind, out: &[Point], from: u32) -> Result<(), NoMemory>
        requires plain { IsTrue (is_plain kind) }
        requires room { spent self.old + from + length out.now ≤ most }
        ensures own { OnOk result (seen self.new ≡ with_own (part_of kind ∷ []) (led out.now (Place.Part (next_part (seen self.old))) from) (seen self.old)) }
        ensures spent { OnOk result (spent self.new ≡ spent self.old + 2) }
    {
        let i = self.next();
        lead(&mut self.ties, out, Place::Part(i), from)?;
        self.parts.push(kind)?;
        self.nodes += 1;
        Ok(())
    }

    // Meets a node that has no part of its own.
    pub fn pass(&mut self)
        requires { spent self.old ≤ most }
        ensures own { seen self.new ≡ with_own [] [] (seen self.old) }
        ensures spent { spent self.new ≡ spent self.old + 1 }
    {
        self.nodes += 1;
    }

    // Meets a node whose handshakes lead to a number.
    pub fn use_number(&mut self, number: u32, out: &[Point]) -> Result<(), NoMemory>
        requires { spent self.old + length out.now ≤ most }
        ensures own { OnOk result (seen self.new ≡ with_own [] (led out.now (Place.Number number) 0) (seen self.old)) }
        ensures spent { OnOk result (spent self.new ≡ spent self.old + 1) }
    {
        lead(&mut self.ties, out, Place::Number(number), 0)?;
        self.nodes += 1;
        Ok(())
    }

    // Adds the part of a block, whose variable has this number, and whose body answers with so many bits.
    #[tactic(auto, using(crate::proofs::WalkLemmas::plain_more))]
    pub fn local(
        &mut self,
        alloc: Global,
        number: u32,
        w: u32,
        v: u32,
        out: &[Point],
    ) -> Result<(), NoMemory>
        requires { spent self.old + length out.now + 3 ≤ most }
        ensures own { OnOk result (seen self.new ≡ with_own (kinds.Local w v ∷ [])
            (led out.now (Place.Part (next_part (seen self.old))) 3
            ++ led (row (Place.Number number) 0 2) (Place.Part (next_part (seen self.old))) 1) (seen self.old)) }
        ensures spent { OnOk result (spent self.new ≡ spent self.old + 2) }
    {
        let part = Place::Part(self.next());
        lead(&mut self.ties, out, part, 3)?;
        lead_row(alloc, &mut self.ties, Place::Number(number), 2, part, 1)?;
        self.parts.push(Kind::Local { w, v })?;
        self.nodes += 1;
        Ok(())
    }

    // Adds the part of a block, whose array of so many numbers of so many bits has this number, and whose body answers
    // with so many bits.
    #[tactic(auto, using(crate::proofs::WalkLemmas::plain_more))]
    pub fn array(
        &mut self,
        alloc: Global,
        number: u32,
        many: (u32, u32),
        v: u32,
        out: &[Point],
    ) -> Result<(), NoMemory>
        requires { spent self.old + length out.now + 4 ≤ most }
        ensures own { OnOk result (seen self.new ≡ with_own (kinds.Array many.1 many.0 v ∷ [])
            (led out.now (Place.Part (next_part (seen self.old))) 4
            ++ led (row (Place.Number number) 0 3) (Place.Part (next_part (seen self.old))) 1) (seen self.old)) }
        ensures spent { OnOk result (spent self.new ≡ spent self.old + 2) }
    {
        let part = Place::Part(self.next());
        lead(&mut self.ties, out, part, 4)?;
        lead_row(alloc, &mut self.ties, Place::Number(number), 3, part, 1)?;
        self.parts.push(Kind::Array {
            w: many.1,
            n: many.0,
            v,
        })?;
        self.nodes += 1;
        Ok(())
    }

    // Adds the Share of a split.
    #[tactic(auto, using(crate::proofs::WalkLemmas::plain_more))]
    fn share(&mut self, alloc: Global, types: &[Ty], split: Split) -> Result<(), NoMemory>
        requires { spent self.old + share_load (types_at types.now) split.of ≤ most }
        ensures share { OnOk result (seen self.new ≡ with_share (types_at types.now) split (seen self.old)) }
        ensures spent { OnOk result (spent self.new ≡ spent self.old + 1) }
    {
        let ty = type_at(alloc, types, split.of)?;
        let n = shakes(&ty);
        let i = self.next();
        self.share_ties(alloc, split, i, n)?;
        self.parts.push(Kind::Share(ty))?;
        Ok(())
    }

    // Ties a Share of n handshakes: its source is what is split, and its callers are the sides.
    fn share_ties(&mut self, alloc: Global, split: Split, i: u32, n: u32) -> Result<(), NoMemory>
        requires { 3 * n ≤ most }
        ensures parts { OnOk result (self.new.parts ≡ self.old.parts) }
        ensures nodes { OnOk result (self.new.nodes ≡ self.old.nodes) }
        ensures ties { OnOk result (self.new.ties.items ≡ self.old.ties.items ++ share_ties i n split) }
    {
        let part = Place::Part(i);
        lead_row(alloc, &mut self.ties, Place::Number(split.of), n, part, 0)?;
        lead_row(alloc, &mut self.ties, Place::Number(split.left), n, part, n)?;
        lead_row(
            alloc,
            &mut self.ties,
            Place::Number(split.right),
            n,
            part,
            n + n,
        )?;
        Ok(())
    }

    // Adds the Shares of splits.
    pub fn shares(&mut self, alloc: Global, types: &[Ty], splits: &[Split]) -> Result<(), NoMemory>
        requires { spent self.old + splits_load splits.now (types_at types.now) ≤ most }
        ensures shares { OnOk result (seen self.new ≡ with_shares (types_at types.now) splits.now (seen self.old)) }
        ensures spent { OnOk result (spent self.new ≤ spent self.old + splits_load splits.now (types_at types.now)) }
    {
        for split in splits {
            self.share(alloc, types, *split)?;
        }
        Ok(())
    }
}
