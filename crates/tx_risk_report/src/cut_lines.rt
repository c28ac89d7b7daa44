// The lines of those who are cut off.
ghost use Rattle.std.specs.Prelude.{◌++◌, ◌==◌, [], if◌then◌else◌, length};
ghost use Rattle.std.specs.List.{flat_map, range_with_len};
ghost use Rattle.tx_text.specs.Puts.{Puts};
ghost use Rattle.tx_rank.specs.Report.{step_text};
ghost use Rattle.tx_risk.specs.Outages.{steps_of};
ghost use Rattle.tx_risk_report.specs.OutageReport.{start_text, cut_line, cuts_at};

use std::alloc::Allocator;
use tx_plan::{ExchangeId, Plan};
use tx_risk::{Cut, Leg};
use tx_text::{Sink, put_bytes, put_parts};

/// Writes those who are cut off, by the exchanges where their walks end.
pub(crate) fn write_cuts<A: Allocator, W: Sink>(
    plan: &Plan<A>,
    legs: &[Leg],
    cuts: &[Cut],
    sink: &mut W,
)
    ensures { Puts W.taken W.failed sink.old sink.new
        (flat_map (cuts_at plan.now legs.now cuts.now)
        (range_with_len 0 (length plan.now.exchanges))) }
{
    for index in 0..plan.exchanges() {
        write_cuts_at(plan, legs, cuts, ExchangeId::of(index), sink);
    }
}

/// Writes those of which the walk ends at the exchange.
fn write_cuts_at<A: Allocator, W: Sink>(
    plan: &Plan<A>,
    legs: &[Leg],
    cuts: &[Cut],
    exchange: ExchangeId,
    sink: &mut W,
)
    ensures { Puts W.taken W.failed sink.old sink.new
        (cuts_at plan.now legs.now cuts.now exchange) }
{
    for i in 0..cuts.len() {
        write_cut_at(plan, legs, &cuts[i], exchange, sink);
    }
}

/// Writes one, if its walk ends at the exchange.
fn write_cut_at<A: Allocator, W: Sink>(
    plan: &Plan<A>,
    legs: &[Leg],
    cut: &Cut,
    exchange: ExchangeId,
    sink: &mut W,
)
    ensures { Puts W.taken W.failed sink.old sink.new
        (if cut.now.end == exchange then cut_line plan.now legs.now cut.now else []) }
{
    if cut.end != exchange {
        return;
    }
    write_line(plan, legs, cut, sink);
}

/// Writes whom it cuts off, with the walk.
pub(crate) fn write_line<A: Allocator, W: Sink>(
    plan: &Plan<A>,
    legs: &[Leg],
    cut: &Cut,
    sink: &mut W,
)
    ensures { Puts W.taken W.failed sink.old sink.new (cut_line plan.now legs.now cut.now) }
{
    if cut.stray {
        write_walk(b"STRAY ", plan, legs, cut, sink)
    } else {
        write_walk(b"CUT ", plan, legs, cut, sink)
    }
}

/// Writes the head of a line, a code, where calls start, and the walk from there.
fn write_walk<A: Allocator, W: Sink>(
    head: &[u8],
    plan: &Plan<A>,
    legs: &[Leg],
    cut: &Cut,
    sink: &mut W,
)
    ensures { Puts W.taken W.failed sink.old sink.new
        (head.now ++ start_text plan.now legs.now cut.now) }
{
    let start = plan.exchange_name(cut.start);
    put_bytes(head, sink);
    put_bytes(plan.code_figures(cut.code), sink);
    put_bytes(b" ", sink);
    put_bytes(start, sink);
    put_bytes(b" VIA ", sink);
    put_bytes(start, sink);
    write_steps(plan, legs, cut, sink);
    put_bytes(b"\n", sink);
}

/// Writes the steps of its walk.
fn write_steps<A: Allocator, W: Sink>(plan: &Plan<A>, legs: &[Leg], cut: &Cut, sink: &mut W)
    ensures { Puts W.taken W.failed sink.old sink.new
        (flat_map (step_text plan.now) (steps_of legs.now cut.now)) }
{
    let mut place = cut.first;
    let mut left = cut.steps;
    while left > 0 {
        let Some(leg) = legs.get(place as usize) else {
            return;
        };
        write_step(plan, leg, sink);
        place = leg.next;
        left -= 1;
    }
}

fn write_step<A: Allocator, W: Sink>(plan: &Plan<A>, leg: &Leg, sink: &mut W)
    ensures { Puts W.taken W.failed sink.old sink.new
        (step_text plan.now (leg.now.group, leg.now.to)) }
{
    let group = plan.group_name(leg.group);
    put_parts(&[b" ", group, b" ", plan.exchange_name(leg.to)], sink);
}
