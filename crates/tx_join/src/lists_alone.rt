// The writer of the lists and bars for an exchange or a code that one of two plans has alone.
#![tactic(auto, using(tx_text::proofs::Putting::puts_none, crate::proofs::AloneLines::kept_more, crate::proofs::AloneLines::kept_all))]

ghost use Rattle.std.specs.Prelude.{[], ◌∷◌, not, if◌then◌else◌};
ghost use Rattle.tx_text.specs.Puts.{Puts};
ghost use Rattle.tx_text.specs.Written.{line_written};
ghost use Rattle.tx_plan.specs.Routes.{route_list};
ghost use Rattle.tx_plantext.specs.PlanWritten.{route_words, bar_words};
ghost use Rattle.tx_join.specs.Joined.{has_both};
ghost use Rattle.tx_join.specs.Steps.{lists_alone, bans_alone};
ghost use Rattle.tx_join.specs.inner.Alone.{list_at, ban_at};

use crate::naming::has_both;
use std::alloc::Allocator;
use tx_plan::{CodeId, ExchangeId, Plan};
use tx_plantext::write_route;
use tx_text::{Sink, put_parts};

/// Writes each list of a plan for an exchange or a code that the other plan does not have, after a
/// word.
pub(crate) fn write_lists<A: Allocator, W: Sink>(
    word: &[u8],
    plan: &Plan<A>,
    other: &Plan<A>,
    sink: &mut W,
)
    ensures { Puts W.taken W.failed sink.old sink.new
        (lists_alone word.now plan.now other.now) }
{
    for index in 0..plan.routes() {
        write_list_at(word, plan, other, index, sink);
    }
}

/// Writes the list at an index, if it is one of these.
fn write_list_at<A: Allocator, W: Sink>(
    word: &[u8],
    plan: &Plan<A>,
    other: &Plan<A>,
    index: usize,
    sink: &mut W,
)
    ensures { Puts W.taken W.failed sink.old sink.new
        (list_at word.now plan.now other.now index) }
{
    match plan.route_at(index) {
        Some((exchange, code)) => write_list(word, plan, other, exchange, code, sink),
        None => {}
    }
}

/// Writes the list of an exchange for a code after a word, unless the other plan has both.
fn write_list<A: Allocator, W: Sink>(
    word: &[u8],
    plan: &Plan<A>,
    other: &Plan<A>,
    exchange: ExchangeId,
    code: CodeId,
    sink: &mut W,
)
    ensures { Puts W.taken W.failed sink.old sink.new
        (if not (has_both other.now plan.now exchange code)
        then line_written (word.now ∷ route_words plan.now (record {
          exchange = exchange;
          code = code;
          groups = route_list plan.now exchange code;
        })) else []) }
{
    if has_both(other, plan, exchange, code) {
        return;
    }
    put_parts(&[word, b" "], sink);
    write_route(plan, exchange, code, sink);
}

/// Writes each bar of a plan for an exchange or a code that the other plan does not have, after a
/// word.
pub(crate) fn write_bans<A: Allocator, W: Sink>(
    word: &[u8],
    plan: &Plan<A>,
    other: &Plan<A>,
    sink: &mut W,
)
    ensures { Puts W.taken W.failed sink.old sink.new (bans_alone word.now plan.now other.now) }
{
    for index in 0..plan.bars() {
        write_ban_at(word, plan, other, index, sink);
    }
}

/// Writes the bar at an index, if it is one of these.
fn write_ban_at<A: Allocator, W: Sink>(
    word: &[u8],
    plan: &Plan<A>,
    other: &Plan<A>,
    index: usize,
    sink: &mut W,
)
    ensures { Puts W.taken W.failed sink.old sink.new (ban_at word.now plan.now other.now index) }
{
    match plan.bar_at(index) {
        Some((exchange, code)) if !has_both(other, plan, exchange, code) => {
            write_ban(word, plan, exchange, code, sink)
        }
        Some(_) | None => {}
    }
}

/// Writes the bar of an exchange for a code after a word.
fn write_ban<A: Allocator, W: Sink>(
    word: &[u8],
    plan: &Plan<A>,
    exchange: ExchangeId,
    code: CodeId,
    sink: &mut W,
)
    ensures { Puts W.taken W.failed sink.old sink.new
        (line_written (word.now ∷ bar_words plan.now (record {
          exchange = exchange;
          code = code;
        }))) }
{
    let name = plan.exchange_name(exchange);
    let figures = plan.code_figures(code);
    put_parts(&[word, b" BAR ", name, b" ", figures, b"\n"], sink);
}
