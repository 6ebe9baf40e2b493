// Laws of what every list to an aim holds. Each is the contract of a function that does nothing.
ghost use Rattle.gos_swaps.specs.needed.Needed.{Residue};
ghost use Rattle.gos_swaps.specs.needed.Blocked.{BlockedStays, AbsentNeverComes};
ghost use Rattle.gos_swaps.specs.needed.SmallNeeded.{SideOfPortIsNeeded, SideInIndexIsNeeded, ImportsHavePorts, ListIsCounted, ListMeetsLabel, StepsAreToward, WaitIsStuck};

/// What happens at a needed place is in every list to the aim, and may as well come first.
pub fn residues()
    ensures { Residue }
{}

/// Where nothing leads on at a needed place, no list comes to the aim, and none shows a label of a port that is absent.
pub fn blocked_places()
    ensures stays { BlockedStays }
    ensures absent { AbsentNeverComes }
{}

/// Small terms with the places that an aim needs, and small lists.
#[tactic(auto, using(crate::proofs::needed::SmallLemmas::wait_is_stuck))]
pub fn small_needed()
    ensures side { SideOfPortIsNeeded }
    ensures index { SideInIndexIsNeeded }
    ensures port { ImportsHavePorts }
    ensures counted { ListIsCounted }
    ensures meets { ListMeetsLabel }
    ensures toward { StepsAreToward }
    ensures stuck { WaitIsStuck }
{}
