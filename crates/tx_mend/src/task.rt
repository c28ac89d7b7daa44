// What a plan is mended by.
ghost use Rattle.std.specs.Prelude.{◌≡◌, map, length};
ghost use Rattle.tx_rank.specs.Judged.{AreOrigins};
ghost use Rattle.tx_mend.specs.LeastRanks.{indexes, outgoing};

use crate::outgoing::Outgoing;
use std::alloc::Allocator;
use tx_plan::{Limits, Plan};

/// A plan that is to be mended for some limits, with the groups that each exchange may seize, and
/// whether calls may start there.
#[derive(Drop)]
pub struct Task<'a, A: Allocator> {
    pub plan: &'a Plan<A>,
    pub seizable: &'a [Outgoing<A>],
    pub origins: &'a [bool],
    pub limits: Limits,
    ghost groups: { seizable.now ≡ map (outgoing plan.now) (indexes (length plan.now.exchanges)) },
    ghost starts: { AreOrigins plan.now origins.now },
}
