// What the definitions give. Each theorem is the contract of a function that does nothing.
ghost use Rattle.gos_macro.specs.path_search.Told.{ToldIsKept};
ghost use Rattle.gos_macro.specs.path_search.SmallSearches.{SkipIsTold, SharedIsTold, LateIsToldApart};

/// What a search at the fixed place tells of gates that know nets by name alone is so at every place.
pub fn told_is_kept()
    ensures { ToldIsKept }
{}

/// The search tells which paths lead through the gates of Skip and through those of a Share of a command, and refuses a
/// table that leaves a path out, has one too many, or has one from a late handshake.
pub fn small_searches()
    ensures skip { SkipIsTold }
    ensures shared { SharedIsTold }
    ensures late { LateIsToldApart }
{}
