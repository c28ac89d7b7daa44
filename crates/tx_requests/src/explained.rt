// Every code that is printed is explained, and is in the table once.
ghost use Rattle.tx_requests.specs.Explained.{CodesAreDistinct, PlanFaultsAreExplained, WarningsAreExplained, CertFaultsAreExplained, ScriptFaultsAreExplained, RiskFaultsAreExplained, DoneFaultsAreExplained, RefusalsAreExplained, CausesAreExplained, CheckFaultsAreExplained, FindingsAreExplained, MendingsAreExplained};

use std::alloc::Allocator;

/// The code of an entry asks for that entry alone; a name may be that of several, as `Short`.
///
/// Each code that is printed has an entry. That of a fault of a text, of a warning, of a finding
/// and of what no lists can serve has the name that is printed after the code. A refusal, why a
/// call ended and a fault of a check are printed by the code alone.
pub fn codes_are_explained<A: Allocator>()
    ensures once { CodesAreDistinct }
    ensures plans { PlanFaultsAreExplained }
    ensures warnings { WarningsAreExplained }
    ensures certificates { CertFaultsAreExplained }
    ensures scripts { ScriptFaultsAreExplained }
    ensures risks { RiskFaultsAreExplained }
    ensures done { DoneFaultsAreExplained }
    ensures refusals { RefusalsAreExplained }
    ensures causes { CausesAreExplained }
    ensures checks { CheckFaultsAreExplained }
    ensures findings { FindingsAreExplained A }
    ensures mendings { MendingsAreExplained }
{}
