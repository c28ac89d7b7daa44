// What full lists are made of.
ghost use Rattle.std.specs.Prelude.{◌≡◌, map, length};
ghost use Rattle.tx_mend.specs.LeastRanks.{indexes, outgoing};
ghost use Rattle.tx_mend.specs.inner.CodeRanks.{kept_ranks};

use crate::code_ranks::CodeRanks;
use crate::outgoing::Outgoing;
use std::alloc::Allocator;
use tx_plan::{Limits, Plan};

/// What full lists are made of: the plan, the groups that each exchange may seize, and what the
/// mending of each code goes by.
#[derive(Drop)]
pub struct Basis<'a, A: Allocator> {
    pub plan: &'a Plan<A>,
    pub seizable: &'a [Outgoing<A>],
    pub table: &'a [CodeRanks<A>],
    pub limits: Limits,
    ghost groups: { seizable.now ≡ map (outgoing plan.now) (indexes (length plan.now.exchanges)) },
    ghost ranks: { table.now ≡ map (kept_ranks plan.now limits.limit limits.spare)
        (indexes (length plan.now.codes)) },
}
