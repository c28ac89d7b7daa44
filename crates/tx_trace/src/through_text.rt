// The writer of the calls that can pass an exchange or a group.
ghost use Rattle.std.specs.Prelude.{◌≡◌};
ghost use Rattle.std.specs.List.{flat_map};
ghost use Rattle.tx_text.specs.Puts.{Puts};
ghost use Rattle.tx_text.specs.Wrote.{Wrote};
ghost use Rattle.tx_trace.specs.Through.{calls_through};
ghost use Rattle.tx_trace.specs.ThroughText.{through_name, call_line, through_text};

use crate::through::Through;
use crate::trace_text::{write_down, write_head};
use std::alloc::Allocator;
use tx_plan::{GroupId, Pair, Plan};
use tx_text::{Sink, WriteFault, finish, put_bytes};

/// Writes the calls that can pass an exchange or a group, in the plan that is left while some
/// groups are down: what was asked, these groups, and a line for each code and each exchange where
/// such calls start.
pub fn write_through<A: Allocator, W: Sink>(
    plan: &Plan<A>,
    down: &[GroupId],
    through: &Through,
    calls: &[Pair],
    sink: &mut W,
) -> Result<(), WriteFault>
    requires { calls.now ≡ calls_through plan.now through.now }
    ensures { Wrote W.taken W.failed sink.old sink.new
        (through_text plan.now down.now through.now) result }
{
    put_bytes(b"TRACE THROUGH ", sink);
    put_bytes(name_of(plan, through), sink);
    put_bytes(b"\n", sink);
    write_down(plan, down, sink);
    write_calls(plan, calls, sink);
    finish(sink)
}

/// The name of the exchange or of the group.
fn name_of<'a, A: Allocator>(plan: &'a Plan<A>, through: &Through) -> &'a [u8]
    ensures { result.now ≡ through_name plan.now through.now }
{
    match through {
        Through::Exchange(exchange) => plan.exchange_name(*exchange),
        Through::Group(group) => plan.group_name(*group),
    }
}

#[tactic(auto, using(tx_text::proofs::Putting::puts_none, tx_text::proofs::Putting::puts_more, tx_text::proofs::Putting::puts_all))]
fn write_calls<A: Allocator, W: Sink>(plan: &Plan<A>, calls: &[Pair], sink: &mut W)
    ensures { Puts W.taken W.failed sink.old sink.new (flat_map (call_line plan.now) calls.now) }
{
    for i in 0..calls.len() {
        let call = calls[i];
        write_head(b"CODE ", plan, call.code, call.exchange, sink);
    }
}
