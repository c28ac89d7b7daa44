// The writer of what outages cut off.
ghost use Rattle.std.specs.Prelude.{length};
ghost use Rattle.std.specs.List.{flat_map, range_with_len};
ghost use Rattle.tx_text.specs.Puts.{Puts};
ghost use Rattle.tx_text.specs.Wrote.{Wrote};
ghost use Rattle.tx_risk_report.specs.OutageReport.{head_line, unknown_line, head_text, outage_words, block_text, tried_text, survival_text};

use crate::cut_lines::write_cuts;
use crate::totals::{count_all, is_harmless, write_harmless, write_totals, write_verdict};
use itoa::Buffer;
use std::alloc::Allocator;
use tx_plan::Plan;
use tx_rank::write_grade;
use tx_risk::{Outage, Outcome, Risks, Survival};
use tx_text::{Sink, WriteFault, finish, put_bytes, put_parts};

/// Writes how many outages were tried, how many starts each cuts off, which ones, and the verdict;
/// or that the plan has no grade, as its grade is written.
pub fn write_survival<A: Allocator, W: Sink>(
    plan: &Plan<A>,
    risks: &Risks<A>,
    survival: &Survival<A>,
    sink: &mut W,
) -> Result<(), WriteFault>
    ensures { Wrote W.taken W.failed sink.old sink.new
        (survival_text plan.now risks.now survival.now) result }
{
    match survival {
        Survival::Tried(outcomes) => {
            write_tried(plan, risks, outcomes, sink);
            finish(sink)
        }
        Survival::Ungraded(grade) => write_grade(plan, grade, sink),
    }
}

fn write_tried<A: Allocator, W: Sink>(
    plan: &Plan<A>,
    risks: &Risks<A>,
    outcomes: &[Outcome<A>],
    sink: &mut W,
)
    ensures { Puts W.taken W.failed sink.old sink.new
        (tried_text plan.now risks.now outcomes.now) }
{
    write_head(risks, outcomes.len(), sink);
    write_totals(plan, risks, outcomes, sink);
    write_harmless(outcomes, sink);
    write_blocks(plan, risks, outcomes, sink);
    write_verdict(count_all(outcomes), sink);
}

/// Writes how many outages were tried, and each risk that names groups which the plan has not.
pub(crate) fn write_head<A: Allocator, W: Sink>(risks: &Risks<A>, count: usize, sink: &mut W)
    ensures { Puts W.taken W.failed sink.old sink.new (head_text risks.now count) }
{
    write_count(count, sink);
    write_unknown(risks, sink);
}

fn write_count<W: Sink>(count: usize, sink: &mut W)
    ensures { Puts W.taken W.failed sink.old sink.new
        (head_line count) }
{
    let mut buffer = Buffer::new();
    let count = buffer.format(count).as_bytes();
    put_parts(&[b"SURVIVE RISKS ", count, b"\n"], sink);
}

fn write_unknown<A: Allocator, W: Sink>(risks: &Risks<A>, sink: &mut W)
    ensures { Puts W.taken W.failed sink.old sink.new
        (flat_map (unknown_line risks.now) (range_with_len 0 (length risks.now))) }
{
    for index in 0..risks.len() {
        write_unknown_line(risks, index, sink);
    }
}

fn write_unknown_line<A: Allocator, W: Sink>(risks: &Risks<A>, index: usize, sink: &mut W)
    ensures { Puts W.taken W.failed sink.old sink.new (unknown_line risks.now index) }
{
    if risks.has_unknown(index) {
        put_parts(&[b"RISK ", risks.name(index), b" PARTLY KNOWN\n"], sink)
    }
}

/// Writes what fails.
pub(crate) fn write_outage<A: Allocator, W: Sink>(
    plan: &Plan<A>,
    risks: &Risks<A>,
    outage: &Outage,
    sink: &mut W,
)
    ensures { Puts W.taken W.failed sink.old sink.new
        (outage_words plan.now risks.now outage.now) }
{
    match outage {
        Outage::Group(group) => put_parts(&[b"GROUP ", plan.group_name(*group)], sink),
        Outage::Exchange(exchange) => {
            put_parts(&[b"EXCHANGE ", plan.exchange_name(*exchange)], sink)
        }
        Outage::Named(index) => put_parts(&[b"RISK ", risks.name(*index)], sink),
    }
}

/// Writes whom each outage cuts off.
fn write_blocks<A: Allocator, W: Sink>(
    plan: &Plan<A>,
    risks: &Risks<A>,
    outcomes: &[Outcome<A>],
    sink: &mut W,
)
    ensures { Puts W.taken W.failed sink.old sink.new
        (flat_map (block_text plan.now risks.now) outcomes.now) }
{
    for i in 0..outcomes.len() {
        write_block(plan, risks, &outcomes[i], sink);
    }
}

/// Writes whom an outage cuts off, if it does.
fn write_block<A: Allocator, W: Sink>(
    plan: &Plan<A>,
    risks: &Risks<A>,
    outcome: &Outcome<A>,
    sink: &mut W,
)
    ensures { Puts W.taken W.failed sink.old sink.new
        (block_text plan.now risks.now outcome.now) }
{
    if is_harmless(outcome) {
        return;
    }
    write_outage(plan, risks, &outcome.outage, sink);
    put_bytes(b"\n", sink);
    write_cuts(plan, &outcome.legs, &outcome.cuts, sink);
}
