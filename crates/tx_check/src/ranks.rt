// The ranks that a check compares.
ghost use Rattle.std.specs.Prelude.{◌≡◌};
ghost use Rattle.tx_check.specs.Checks.{ranks_for, rank_away, rank_beyond};

use std::alloc::Allocator;
use tx_cert::Cert;
use tx_plan::{CodeId, ExchangeId, GroupId, Plan};

/// The rank of an exchange of the plan for the code.
pub(crate) fn rank_of<A: Allocator>(
    plan: &Plan<A>,
    cert: &Cert<A>,
    code: CodeId,
    exchange: ExchangeId,
) -> Option<u16>
    ensures { result ≡ ranks_for plan.now cert.now code exchange }
{
    if exchange.index() < plan.exchanges() {
        cert.rank(code, exchange)
    } else {
        None
    }
}

/// The rank of an exchange other than the code's home.
pub(crate) fn rank_away<A: Allocator>(
    plan: &Plan<A>,
    cert: &Cert<A>,
    code: CodeId,
    exchange: ExchangeId,
) -> Option<u16>
    ensures { result ≡ rank_away plan.now (ranks_for plan.now cert.now) code exchange }
{
    if exchange == plan.home(code) {
        None
    } else {
        rank_of(plan, cert, code, exchange)
    }
}

/// The rank of the exchange that the group leads to.
pub(crate) fn rank_beyond<A: Allocator>(
    plan: &Plan<A>,
    cert: &Cert<A>,
    code: CodeId,
    exchange: ExchangeId,
    group: GroupId,
) -> Option<u16>
    ensures { result ≡ rank_beyond plan.now (ranks_for plan.now cert.now) code exchange group }
{
    match plan.other_end(group, exchange) {
        Some(to) => rank_of(plan, cert, code, to),
        None => None,
    }
}
