// The limits and the spare numbers with which a code is certified, read off its ranks by height.
ghost use Rattle.std.specs.Prelude.{◌≡◌, ◌<◌, length};
ghost use Rattle.tx_cert.specs.Certificate.{ranks_of};
ghost use Rattle.tx_rank.specs.Walks.{net_of};
ghost use Rattle.tx_rank.specs.Heights.{RanksByHeight};
ghost use Rattle.tx_rank.specs.Nets.{Certifies};
ghost use Rattle.tx_rank.specs.Grades.{AreBounds, CanBeCertifiedFor, Suits};

use crate::bounds::Bounds;
use std::alloc::Allocator;
use tx_cert::Cert;
use tx_plan::{CodeId, ExchangeId, Plan};

/// What one exchange asks for: its rank is the steps of the longest way home.
fn exchange_bounds<A: Allocator>(
    plan: &Plan<A>,
    cert: &Cert<A>,
    code: CodeId,
    exchange: ExchangeId,
) -> Bounds
    requires { Certifies (net_of plan.now code) (ranks_of cert.now code) 255 0 }
    ensures { AreBounds (Suits (net_of plan.now code) (ranks_of cert.now code) exchange) result }
{
    if exchange == plan.home(code) {
        return Bounds::widest();
    }
    match cert.rank(code, exchange) {
        Some(rank) => Bounds {
            limit: rank.saturating_sub(1),
            spare: (plan.list(exchange, code).len() - 1).min(15) as u8,
        },
        None => Bounds::widest(),
    }
}

/// What all exchanges ask for.
pub fn code_bounds<A: Allocator>(plan: &Plan<A>, cert: &Cert<A>, code: CodeId) -> Bounds
    requires exchanges { cert.now.exchanges ≡ length plan.now.exchanges }
    requires heights { RanksByHeight (net_of plan.now code) (ranks_of cert.now code) }
    requires certified { Certifies (net_of plan.now code) (ranks_of cert.now code) 255 0 }
    ensures { AreBounds (CanBeCertifiedFor plan.now code) result }
{
    cert.rules();
    let mut bounds = Bounds::widest();
    for index in 0..plan.exchanges() {
        let exchange = ExchangeId::of(index);
        bounds = bounds.both(exchange_bounds(plan, cert, code, exchange));
    }
    bounds
}
