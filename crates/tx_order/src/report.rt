// The writer of the report of an order.
#![tactic(auto, using(tx_text::proofs::Putting::puts_none, tx_text::proofs::Putting::puts_then, tx_text::proofs::Ranges::index_more, tx_text::proofs::Ranges::indexes_done))]

ghost use Rattle.std.specs.Prelude.{◌≡◌, ◌<◌, ◌+◌};
ghost use Rattle.tx_text.specs.Puts.{Puts};
ghost use Rattle.tx_text.specs.Wrote.{Wrote};
ghost use Rattle.tx_plan.specs.Routes.{route_list, is_barred};
ghost use Rattle.tx_plantext.specs.ChangedLists.{line_unless_same};
ghost use Rattle.tx_rank.specs.Report.{findings_of};
ghost use Rattle.tx_order.specs.Ordered.{plan_before, stages_in};
ghost use Rattle.tx_order.specs.OrderText.{pair_line, bar_line, entry_lines, exchange_lines, switched_lines, stage_line, stage_text, stages_text, no_order_text, found_text, verdict_text, order_report};

use crate::judging::OrderVerdict;
use crate::orders::Order;
use itoa::Buffer;
use std::alloc::Allocator;
use tx_change::{write_findings_after, write_verdict_after};
use tx_join::{write_after, write_before, write_list_counts};
use tx_plan::{CodeId, ExchangeId, Limits, Plan};
use tx_plantext::write_new_list;
use tx_rank::{Finding, Ranking, write_asked, write_no};
use tx_text::{Sink, WriteFault, finish, put_bytes, put_parts};

/// Writes the report of the search for an order: what was asked after a word that says which order
/// it is, what is done before, the stages with what each switches, with the old lists, what is done
/// after, how many lists there are, and YES, or what is wrong and NO.
pub fn write_order<A: Allocator, W: Sink>(
    word: &[u8],
    old: &Plan<A>,
    new: &Plan<A>,
    verdict: &OrderVerdict<A>,
    limits: Limits,
    sink: &mut W,
) -> Result<(), WriteFault>
    ensures { Wrote W.taken W.failed sink.old sink.new
        (order_report word.now old.now new.now limits.limit limits.spare verdict.now) result }
{
    write_asked(word, limits, sink);
    write_before(old, new, sink);
    write_found(verdict, sink);
    write_after(old, new, sink);
    write_list_counts(old, new, sink);
    write_verdict(new, verdict, sink);
    finish(sink)
}

/// Writes the stages, if there are any.
fn write_found<A: Allocator, W: Sink>(verdict: &OrderVerdict<A>, sink: &mut W)
    ensures { Puts W.taken W.failed sink.old sink.new (found_text verdict.now) }
{
    match verdict {
        OrderVerdict::Ordered(order) => write_stages(order, sink),
        OrderVerdict::NoOrder(..) | OrderVerdict::NewUnsound(_) => {}
    }
}

/// Writes the lines of the verdict.
fn write_verdict<A: Allocator, W: Sink>(new: &Plan<A>, verdict: &OrderVerdict<A>, sink: &mut W)
    ensures { Puts W.taken W.failed sink.old sink.new (verdict_text new.now verdict.now) }
{
    match verdict {
        OrderVerdict::Ordered(_) => put_bytes(b"VERDICT YES\n", sink),
        OrderVerdict::NoOrder(plans, before, after) => {
            write_no_order(&plans.old, before, after, sink)
        }
        OrderVerdict::NewUnsound(findings) => write_verdict_after(b"NEW ", new, findings, sink),
    }
}

/// Writes the stages of an order.
fn write_stages<A: Allocator, W: Sink>(order: &Order<A>, sink: &mut W)
    ensures { Puts W.taken W.failed sink.old sink.new (stages_text order.now) }
{
    for stage in 0..order.stages() {
        write_stage(order, stage, sink);
    }
}

/// Writes a stage with its number, from 1, and what it switches.
fn write_stage<A: Allocator, W: Sink>(order: &Order<A>, stage: usize, sink: &mut W)
    requires { stage < stages_in order.now }
    ensures { Puts W.taken W.failed sink.old sink.new
        (stage_text order.now stage) }
{
    write_number(order, stage, sink);
    write_exchanges(order, stage, sink);
}

/// Writes the line that begins a stage.
fn write_number<A: Allocator, W: Sink>(order: &Order<A>, stage: usize, sink: &mut W)
    requires { stage < stages_in order.now }
    ensures { Puts W.taken W.failed sink.old sink.new (stage_line stage) }
{
    order.rules();
    let mut buffer = Buffer::new();
    let number = buffer.format(stage + 1).as_bytes();
    put_parts(&[b"STAGE ", number, b"\n"], sink);
}

/// Writes what it switches, exchange by exchange.
fn write_exchanges<A: Allocator, W: Sink>(order: &Order<A>, stage: usize, sink: &mut W)
    requires { stage < stages_in order.now }
    ensures { Puts W.taken W.failed sink.old sink.new
        (switched_lines order.now.transition.new (plan_before order.now stage)
        (plan_before order.now (stage + 1))) }
{
    let plan = order.new_plan();
    for index in 0..plan.exchanges() {
        write_exchange(order, stage, ExchangeId::of(index), sink);
    }
}

/// Writes what it switches at an exchange, code by code.
fn write_exchange<A: Allocator, W: Sink>(
    order: &Order<A>,
    stage: usize,
    exchange: ExchangeId,
    sink: &mut W,
)
    requires { stage < stages_in order.now }
    ensures { Puts W.taken W.failed sink.old sink.new
        (exchange_lines order.now.transition.new (plan_before order.now stage)
        (plan_before order.now (stage + 1)) exchange) }
{
    let plan = order.new_plan();
    for index in 0..plan.codes() {
        write_entry(order, stage, exchange, CodeId::of(index), sink);
    }
}

/// Writes what it switches at an exchange for a code: the bar and the list.
fn write_entry<A: Allocator, W: Sink>(
    order: &Order<A>,
    stage: usize,
    exchange: ExchangeId,
    code: CodeId,
    sink: &mut W,
)
    requires { stage < stages_in order.now }
    ensures { Puts W.taken W.failed sink.old sink.new
        (entry_lines order.now.transition.new (plan_before order.now stage)
        (plan_before order.now (stage + 1)) exchange code) }
{
    write_bar(order, stage, exchange, code, sink);
    write_switched_list(order, stage, exchange, code, sink);
}

/// Writes that a bar is set or lifted, if it is.
fn write_bar<A: Allocator, W: Sink>(
    order: &Order<A>,
    stage: usize,
    exchange: ExchangeId,
    code: CodeId,
    sink: &mut W,
)
    requires { stage < stages_in order.now }
    ensures { Puts W.taken W.failed sink.old sink.new
        (bar_line order.now.transition.new exchange code
        (is_barred (plan_before order.now stage) exchange code)
        (is_barred (plan_before order.now (stage + 1)) exchange code)) }
{
    order.rules();
    let plan = order.new_plan();
    let before = order.is_barred(stage, exchange, code);
    let now = order.is_barred(stage + 1, exchange, code);
    match (before, now) {
        (false, true) => write_pair(plan, b"BAR ", exchange, code, sink),
        (true, false) => write_pair(plan, b"UNBAR ", exchange, code, sink),
        (false, false) | (true, true) => {}
    }
}

/// Writes an exchange and a code after a word.
fn write_pair<A: Allocator, W: Sink>(
    plan: &Plan<A>,
    word: &[u8],
    exchange: ExchangeId,
    code: CodeId,
    sink: &mut W,
)
    ensures { Puts W.taken W.failed sink.old sink.new
        (pair_line plan.now word.now exchange code) }
{
    let name = plan.exchange_name(exchange);
    put_parts(&[word, name, b" ", plan.code_figures(code), b"\n"], sink);
}

/// Writes the list that is set, if it is another one, and the old one.
fn write_switched_list<A: Allocator, W: Sink>(
    order: &Order<A>,
    stage: usize,
    exchange: ExchangeId,
    code: CodeId,
    sink: &mut W,
)
    requires { stage < stages_in order.now }
    ensures { Puts W.taken W.failed sink.old sink.new
        (line_unless_same order.now.transition.new code exchange
        (route_list (plan_before order.now stage) exchange code)
        (route_list (plan_before order.now (stage + 1)) exchange code)) }
{
    order.rules();
    let old = order.list(stage, exchange, code);
    if old == order.list(stage + 1, exchange, code) {
        return;
    }
    write_new_list(order.new_plan(), code, exchange, old, sink);
}

/// Writes the findings of both plans over the joined network, and NO with their number.
fn write_no_order<A: Allocator, W: Sink>(
    plan: &Plan<A>,
    before: &Ranking<A>,
    after: &Ranking<A>,
    sink: &mut W,
)
    ensures { Puts W.taken W.failed sink.old sink.new
        (no_order_text plan.now (findings_of before.now) (findings_of after.now)) }
{
    let before = findings(before);
    let after = findings(after);
    write_findings_after(b"OLD ", plan, before, sink);
    write_findings_after(b"NEW ", plan, after, sink);
    write_no(before.len() + after.len(), sink);
}

/// What a ranking found.
fn findings<A: Allocator>(ranking: &Ranking<A>) -> &[Finding<A>]
    ensures { result.now ≡ findings_of ranking.now }
{
    match ranking {
        Ranking::Found(_) => &[],
        Ranking::Fails(findings) => findings.as_slice(),
    }
}
