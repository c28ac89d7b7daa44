// How verdicts are written.
ghost use Rattle.std.specs.Prelude.{◌++◌, ◌∷◌, []};
ghost use Rattle.tx_text.specs.Written.{line_written};
ghost use Rattle.tx_text.specs.Puts.{Puts};
ghost use Rattle.tx_text.specs.Wrote.{Wrote};
ghost use Rattle.tx_plan.specs.Plan.{figures_of, exchange_name, group_name};
ghost use Rattle.tx_check.specs.declared.verdict.Verdict.TheVariants.{No};
ghost use Rattle.tx_check.specs.Verdicts.{verdict_written};

use crate::fault::CheckFault;
use crate::verdict::Verdict;
use std::alloc::Allocator;
use tx_plan::{CodeId, ExchangeId, GroupId, Plan};
use tx_text::{Sink, WriteFault, finish, put_parts, write_bytes};

/// Writes the verdict as one line, as `YES` or `NO K7 24 CENTRAL CENO1`, with its LF. Where the
/// sink fails, a front of the line was taken.
pub fn write_verdict<A: Allocator, W: Sink>(
    verdict: &Verdict,
    plan: &Plan<A>,
    sink: &mut W,
) -> Result<(), WriteFault>
    ensures { Wrote W.taken W.failed sink.old sink.new
        (verdict_written plan.now verdict.now) result }
{
    match *verdict {
        Verdict::Yes => write_bytes(b"YES\n", sink),
        Verdict::No(fault) => {
            write_no(fault, plan, sink);
            finish(sink)
        }
    }
}

/// Writes the line of a No.
fn write_no<A: Allocator, W: Sink>(fault: CheckFault, plan: &Plan<A>, sink: &mut W)
    ensures { Puts W.taken W.failed sink.old sink.new
        (verdict_written plan.now (No fault)) }
{
    match fault {
        CheckFault::Ambiguous(a, b) => {
            let longer = plan.code_figures(b);
            put_parts(
                &[b"NO K1 ", plan.code_figures(a), b" ", longer, b"\n"],
                sink,
            )
        }
        CheckFault::HomeNotZero(code) => {
            put_parts(&[b"NO K2 ", plan.code_figures(code), b"\n"], sink)
        }
        CheckFault::OriginUnranked(code, exchange) => {
            write_exchange(b"NO K3 ", plan, code, exchange, sink)
        }
        CheckFault::TooHigh(code, exchange) => {
            write_exchange(b"NO K4 ", plan, code, exchange, sink)
        }
        CheckFault::Short(code, exchange) => {
            write_exchange(b"NO K5 ", plan, code, exchange, sink)
        }
        CheckFault::TargetUnranked(code, exchange, group) => {
            write_group(b"NO K6 ", plan, code, exchange, group, sink)
        }
        CheckFault::NotLower(code, exchange, group) => {
            write_group(b"NO K7 ", plan, code, exchange, group, sink)
        }
    }
}

/// Writes the front of a line, and its code and exchange.
fn write_exchange<A: Allocator, W: Sink>(
    front: &[u8],
    plan: &Plan<A>,
    code: CodeId,
    exchange: ExchangeId,
    sink: &mut W,
)
    ensures { Puts W.taken W.failed sink.old sink.new (front.now
        ++ line_written (figures_of plan.now code ∷ exchange_name plan.now exchange ∷ [])) }
{
    let name = plan.exchange_name(exchange);
    put_parts(&[front, plan.code_figures(code), b" ", name, b"\n"], sink);
}

/// Writes the front of a line, and its code, exchange and group.
fn write_group<A: Allocator, W: Sink>(
    front: &[u8],
    plan: &Plan<A>,
    code: CodeId,
    exchange: ExchangeId,
    group: GroupId,
    sink: &mut W,
)
    ensures { Puts W.taken W.failed sink.old sink.new (front.now ++ line_written (figures_of
        plan.now code ∷ exchange_name plan.now exchange ∷ group_name plan.now group ∷ [])) }
{
    let code = plan.code_figures(code);
    let exchange = plan.exchange_name(exchange);
    put_parts(
        &[
            front,
            code,
            b" ",
            exchange,
            b" ",
            plan.group_name(group),
            b"\n",
        ],
        sink,
    );
}
