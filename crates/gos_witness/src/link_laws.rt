// What the definitions of linked programs say. Each theorem is the contract of a function that does nothing.
ghost use Rattle.gos_witness.specs.SmallLinks.{BoundIsGone, GiverIsPutTwice, SmallLinks};
ghost use Rattle.gos_witness.specs.Substituted.{TypedIsNarrow};

/// Small links have their terms, an open import isn't caught by a bound one of its name, and a giver may serve two imports.
pub fn small_links()
    ensures links { SmallLinks }
    ensures bound { BoundIsGone }
    ensures twice { GiverIsPutTwice }
{}

/// A typed body has no literal and no variable of more than 64 bits.
pub fn typed_is_narrow()
    ensures { TypedIsNarrow }
{}
