// The laws of mending.
ghost use Rattle.tx_mend.specs.LeastRanks.{LeastRanksAreLeast};
ghost use Rattle.tx_mend.specs.Laws.{LeastRanksAreAttained, LeastRanksServe, KeepsWhatCanBeKept, MendedIsMended, MendingIsExact, MendingChangesLeast, CertifiedStays, CausesAreTrue};

/// No ranks of any routes of a network are smaller than its least ranks, and along some routes the
/// least ranks fall. Does nothing: its contract is a law.
pub fn least_ranks_are_least()
    ensures least { LeastRanksAreLeast }
    ensures attained { LeastRanksAreAttained }
{}

/// An exchange has a least rank for a code exactly where some routes of the network can serve it.
/// Does nothing: its contract is a law.
pub fn least_ranks_serve()
    ensures { LeastRanksServe }
{}

/// A code keeps its routes exactly where some ranks certify them. Does nothing: its contract is a
/// law.
pub fn keeps_what_can_be_kept()
    ensures { KeepsWhatCanBeKept }
{}

/// The mended plan is a plan of the same network, with the mended lists, and it is certified
/// wherever any routes of the network are. Does nothing: its contract is a law.
pub fn mending_is_exact()
    ensures mended { MendedIsMended }
    ensures exact { MendingIsExact }
{}

/// A mended plan keeps all groups of its lists that can stay beside each other, adds only what is
/// needed, in order, and leaves the lists to which no calls come. Does nothing: its contract is a
/// law.
pub fn mending_changes_least()
    ensures { MendingChangesLeast }
{}

/// The cause that is told of an exchange that cannot be served is true. Does nothing: its contract
/// is a law.
pub fn causes_are_true()
    ensures { CausesAreTrue }
{}

/// A plan that is certified is its own mended plan. Does nothing: its contract is a law.
pub fn certified_stays()
    ensures { CertifiedStays }
{}
