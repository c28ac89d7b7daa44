// Whom an outage cuts off in one of two plans, and not in the other.
ghost use Rattle.std.specs.List.{flat_map};
ghost use Rattle.tx_text.specs.Puts.{Puts};
ghost use Rattle.tx_risk.specs.Compared.{AreInOrder};
ghost use Rattle.tx_risk_report.specs.Comparison.{compared_block, other_line, other_lines};

use crate::comparison::{Comparison, both_cuts, both_legs, is_better, is_worse};
use crate::cut_lines::write_line;
use crate::outage_report::write_outage;
use std::alloc::Allocator;
use tx_plan::Plan;
use tx_risk::{Cut, Leg, Outage, is_other};
use tx_text::{Sink, put_bytes};

/// Writes where the two plans differ, outage by outage.
pub(crate) fn write_compared_blocks<A: Allocator, W: Sink>(
    comparison: &Comparison<'_, A>,
    sink: &mut W,
)
    ensures { Puts W.taken W.failed sink.old sink.new
        (flat_map (compared_block comparison.now) comparison.now.outages.now) }
{
    for i in 0..comparison.outages.len() {
        write_compared_block(comparison, &comparison.outages[i], sink);
    }
}

/// Writes where they differ in what an outage cuts off, if they do.
fn write_compared_block<A: Allocator, W: Sink>(
    comparison: &Comparison<'_, A>,
    outage: &Outage,
    sink: &mut W,
)
    ensures { Puts W.taken W.failed sink.old sink.new
        (compared_block comparison.now outage.now) }
{
    if !is_worse(comparison, outage) && !is_better(comparison, outage) {
        return;
    }
    let (mine, others) = both_cuts(comparison, outage);
    let (legs, other_legs) = both_legs(comparison, outage);
    let (new, old) = (comparison.new.plan(), comparison.old.plan());
    write_outage(comparison.network, comparison.risks, outage, sink);
    put_bytes(b"\n", sink);
    write_others(b"", new, old, legs, mine, others, sink);
    write_others(b"WAS ", old, new, other_legs, others, mine, sink);
}

/// Writes those cuts of a plan that are other ones than what cuts of another plan are for their
/// starts.
fn write_others<A: Allocator, W: Sink>(
    head: &[u8],
    plan: &Plan<A>,
    other: &Plan<A>,
    legs: &[Leg],
    mine: &[Cut],
    others: &[Cut],
    sink: &mut W,
)
    requires { AreInOrder others.now }
    ensures { Puts W.taken W.failed sink.old sink.new
        (other_lines head.now plan.now other.now legs.now mine.now others.now) }
{
    for i in 0..mine.len() {
        write_other(head, plan, other, legs, others, &mine[i], sink);
    }
}

fn write_other<A: Allocator, W: Sink>(
    head: &[u8],
    plan: &Plan<A>,
    other: &Plan<A>,
    legs: &[Leg],
    others: &[Cut],
    cut: &Cut,
    sink: &mut W,
)
    requires { AreInOrder others.now }
    ensures { Puts W.taken W.failed sink.old sink.new
        (other_line head.now plan.now other.now legs.now others.now cut.now) }
{
    if is_other(plan, other, others, cut) {
        put_bytes(head, sink);
        write_line(plan, legs, cut, sink);
    }
}
