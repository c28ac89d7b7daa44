// The judgement on a plan.
ghost use Rattle.std.specs.Prelude.{IfOk};
ghost use Rattle.tx_audit.specs.Audits.{IsRightRanking};

use std::alloc::Allocator;
use tx_check::confirm;
use tx_plan::{Limits, Plan};
use tx_rank::{Ranking, rank};
use tx_text::NoMemory;

/// Ranks a plan. A certificate is given after the checker has said Yes to it. `Err` means out of
/// memory.
pub fn judge<A: Allocator + Copy>(
    alloc: A,
    plan: &Plan<A>,
    limits: Limits,
) -> Result<Ranking<A>, NoMemory>
    ensures { IfOk result (IsRightRanking plan.now limits.limit limits.spare) }
{
    match rank(alloc, plan, limits.limit, limits.spare)? {
        Ranking::Found(cert) => {
            confirm(plan, &cert, limits);
            Ok(Ranking::Found(cert))
        }
        Ranking::Fails(findings) => Ok(Ranking::Fails(findings)),
    }
}
