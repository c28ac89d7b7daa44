// The ranks of the exchanges that calls come to from one.
ghost use Rattle.std.specs.Prelude.{◌<◌, length, IfOk};
ghost use Rattle.tx_trace.specs.inner.Marked.{AreRanksFrom};

use crate::routes_from::RoutesFrom;
use std::alloc::Allocator;
use tx_cert::Cert;
use tx_plan::{CodeId, ExchangeId, Plan};
use tx_rank::rank_code;
use tx_text::NoMemory;

/// The heights of the exchanges that calls for the code come to from one, as ranks, where that has
/// a height.
pub fn ranks_from<A: Allocator + Copy>(
    alloc: A,
    plan: &Plan<A>,
    code: CodeId,
    start: ExchangeId,
) -> Result<Option<Cert<A>>, NoMemory>
    requires code { code < length plan.now.codes }
    requires start { start < length plan.now.exchanges }
    ensures { IfOk result (AreRanksFrom plan.now code start) }
{
    plan.rules();
    let routes = RoutesFrom { plan, code, start };
    let mut cert = Cert::new(alloc, plan)?;
    let mut findings = Vec::new(alloc);
    // No walk is too long for this limit, and only an empty list is too short.
    rank_code(alloc, &routes, code, u8::MAX, 0, &mut cert, &mut findings)?;
    if findings.is_empty() {
        Ok(Some(cert))
    } else {
        Ok(None)
    }
}
