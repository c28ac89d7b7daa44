// How calls for a code go from an exchange.
ghost use Rattle.std.specs.Prelude.{◌≡◌, ◌<◌, length, IfOk};
ghost use Rattle.tx_trace.specs.Traces.{IsTraceOf, rank_told};

use crate::first_way::first_way;
use crate::meeting::all_met;
use crate::ranks::ranks_from;
use std::alloc::{Allocator, Global};
use tx_cert::Cert;
use tx_plan::{CodeId, ExchangeId, GroupId, Plan};
use tx_text::NoMemory;

/// How calls for a code go from an exchange.
pub struct Trace<A: Allocator = Global> {
    /// The code.
    pub code: CodeId,
    /// Where the calls start.
    pub exchange: ExchangeId,
    /// The steps of the way while all is free, each by a group to an exchange.
    pub first: Vec<(GroupId, ExchangeId), A>,
    /// The exchanges that the calls may come to, in the order in which they are met by breadth.
    pub met: Vec<ExchangeId, A>,
    /// The ranks of these, where the exchange has a height.
    pub ranks: Option<Cert<A>>,
}

impl<A: Allocator> Drop for Trace<A> {
    fn drop(self) {
        let Self {
            code: _,
            exchange: _,
            first,
            met,
            ranks,
        } = self;
        drop(first);
        drop(met);
        drop(ranks);
    }
}

impl<A: Allocator> Trace<A> {
    /// The rank of an exchange, if it is shown.
    pub(crate) fn rank(&self, exchange: ExchangeId) -> Option<u16>
        ensures { result ≡ rank_told self.now.ranks self.now.code exchange }
    {
        match &self.ranks {
            Some(cert) => cert.rank(self.code, exchange),
            None => None,
        }
    }
}

/// Finds how calls for a code go from an exchange. `Err` means out of memory.
pub fn trace_calls<A: Allocator + Copy>(
    alloc: A,
    plan: &Plan<A>,
    code: CodeId,
    exchange: ExchangeId,
) -> Result<Trace<A>, NoMemory>
    requires code { code < length plan.now.codes }
    requires exchange { exchange < length plan.now.exchanges }
    ensures trace { IfOk result (IsTraceOf plan.now) }
    ensures code { IfOk result (λ t. t.code ≡ code) }
    ensures exchange { IfOk result (λ t. t.exchange ≡ exchange) }
{
    let first = first_way(alloc, plan, code, exchange)?;
    let met = all_met(alloc, plan, code, exchange)?;
    let ranks = ranks_from(alloc, plan, code, exchange)?;
    Ok(Trace {
        code,
        exchange,
        first,
        met,
        ranks,
    })
}
