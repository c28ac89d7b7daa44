// The writer of traces.
#![tactic(auto, using(tx_text::proofs::Putting::puts_none, tx_text::proofs::Putting::puts_more, tx_text::proofs::Putting::puts_all))]

ghost use Rattle.std.specs.Prelude.{◌++◌, codes, Option};
ghost use Rattle.std.specs.List.{flat_map};
ghost use Rattle.tx_text.specs.Puts.{Puts};
ghost use Rattle.tx_text.specs.Wrote.{Wrote};
ghost use Rattle.tx_plan.specs.Plan.{exchange_name, figures_of};
ghost use Rattle.tx_trace.specs.TraceText.{down_line, bar_line, way_text, home_line, rank_text, place_line, list_lines, met_lines, trace_text};
ghost use Rattle.tx_trace.specs.Traces.{IsTraceOf, rank_told};

use crate::tracing::Trace;
use itoa::Buffer;
use std::alloc::Allocator;
use tx_plan::{CodeId, ExchangeId, GroupId, Plan};
use tx_plantext::write_group_names;
use tx_rank::write_steps;
use tx_text::{Sink, WriteFault, finish, put_bytes, put_parts};

/// Writes a trace, in the plan that is left while some groups are down: what was asked, these
/// groups, the way while all else is free, and for each exchange that is met its list, or that it
/// is the home.
pub fn write_trace<A: Allocator, W: Sink>(
    plan: &Plan<A>,
    down: &[GroupId],
    trace: &Trace<A>,
    sink: &mut W,
) -> Result<(), WriteFault>
    requires { IsTraceOf plan.now trace.now }
    ensures { Wrote W.taken W.failed sink.old sink.new
        (trace_text plan.now down.now trace.now.code trace.now.exchange) result }
{
    write_head(b"TRACE ", plan, trace.code, trace.exchange, sink);
    write_down(plan, down, sink);
    write_bar(plan, trace.code, trace.exchange, sink);
    write_way(b"FIRST ", plan, trace.exchange, &trace.first, sink);
    write_all_met(plan, trace, sink);
    finish(sink)
}

/// Writes what was asked, with the word that the report begins with.
pub fn write_head<A: Allocator, W: Sink>(
    word: &[u8],
    plan: &Plan<A>,
    code: CodeId,
    exchange: ExchangeId,
    sink: &mut W,
)
    ensures { Puts W.taken W.failed sink.old sink.new (word.now
        ++ (figures_of plan.now code ++ (codes " FROM " ++ (exchange_name plan.now exchange
        ++ codes "\n")))) }
{
    let figures = plan.code_figures(code);
    let name = plan.exchange_name(exchange);
    put_parts(&[word, figures, b" FROM ", name, b"\n"], sink);
}

/// Writes the groups that are down, if some are.
pub fn write_down<A: Allocator, W: Sink>(plan: &Plan<A>, down: &[GroupId], sink: &mut W)
    ensures { Puts W.taken W.failed sink.old sink.new (down_line plan.now down.now) }
{
    if down.is_empty() {
        return;
    }
    put_bytes(b"DOWN", sink);
    write_group_names(plan, down, sink);
}

/// Writes that calls for the code may not start at the exchange, if a bar says so.
fn write_bar<A: Allocator, W: Sink>(
    plan: &Plan<A>,
    code: CodeId,
    exchange: ExchangeId,
    sink: &mut W,
)
    ensures { Puts W.taken W.failed sink.old sink.new
        (bar_line plan.now code exchange) }
{
    if !plan.is_barred(exchange, code) {
        return;
    }
    let figures = plan.code_figures(code);
    let name = plan.exchange_name(exchange);
    put_parts(&[b"BARRED ", name, b" ", figures, b"\n"], sink);
}

/// Writes a word, and a way behind it.
pub(crate) fn write_way<A: Allocator, W: Sink>(
    word: &[u8],
    plan: &Plan<A>,
    start: ExchangeId,
    way: &[(GroupId, ExchangeId)],
    sink: &mut W,
)
    ensures { Puts W.taken W.failed sink.old sink.new
        (word.now ++ way_text plan.now start way.now) }
{
    put_bytes(word, sink);
    put_bytes(plan.exchange_name(start), sink);
    write_steps(plan, way, sink);
}

fn write_all_met<A: Allocator, W: Sink>(plan: &Plan<A>, trace: &Trace<A>, sink: &mut W)
    ensures { Puts W.taken W.failed sink.old sink.new
        (flat_map (met_lines plan.now trace.now.code (rank_told trace.now.ranks trace.now.code))
        trace.now.met.items) }
{
    let met = trace.met.as_slice();
    for i in 0..met.len() {
        write_met(plan, trace, met[i], sink);
    }
}

/// Writes the list of an exchange, or that it is the home.
fn write_met<A: Allocator, W: Sink>(
    plan: &Plan<A>,
    trace: &Trace<A>,
    exchange: ExchangeId,
    sink: &mut W,
)
    ensures { Puts W.taken W.failed sink.old sink.new
        (met_lines plan.now trace.now.code (rank_told trace.now.ranks trace.now.code) exchange) }
{
    if exchange == plan.home(trace.code) {
        write_home(plan, exchange, sink)
    } else {
        write_list(plan, trace, exchange, sink)
    }
}

fn write_home<A: Allocator, W: Sink>(plan: &Plan<A>, exchange: ExchangeId, sink: &mut W)
    ensures { Puts W.taken W.failed sink.old sink.new
        (home_line plan.now exchange) }
{
    put_parts(&[b"HOME ", plan.exchange_name(exchange), b"\n"], sink);
}

/// Writes a line for each group of a list.
fn write_list<A: Allocator, W: Sink>(
    plan: &Plan<A>,
    trace: &Trace<A>,
    exchange: ExchangeId,
    sink: &mut W,
)
    ensures { Puts W.taken W.failed sink.old sink.new
        (list_lines plan.now trace.now.code (rank_told trace.now.ranks trace.now.code) exchange) }
{
    let list = plan.list(exchange, trace.code);
    for i in 0..list.len() {
        write_place(plan, trace, exchange, i + 1, list[i], sink);
    }
}

/// Writes the line of the group at a place in the list of an exchange.
fn write_place<A: Allocator, W: Sink>(
    plan: &Plan<A>,
    trace: &Trace<A>,
    exchange: ExchangeId,
    place: usize,
    group: GroupId,
    sink: &mut W,
)
    ensures { Puts W.taken W.failed sink.old sink.new
        (place_line plan.now (rank_told trace.now.ranks trace.now.code) exchange place group) }
{
    let Some(to) = plan.other_end(group, exchange) else {
        return;
    };
    let mut buffer = Buffer::new();
    let place = buffer.format(place).as_bytes();
    let name = plan.exchange_name(exchange);
    let group = plan.group_name(group);
    let far = plan.exchange_name(to);
    put_parts(&[b"LIST ", name, b" ", place, b" ", group, b" ", far], sink);
    write_rank(trace.rank(to), sink);
}

/// Writes a rank, if there is one, and the end of the line.
fn write_rank<W: Sink>(rank: Option<u16>, sink: &mut W)
    ensures { Puts W.taken W.failed sink.old sink.new
        (rank_text rank ++ codes "\n") }
{
    let Some(rank) = rank else {
        put_bytes(b"\n", sink);
        return;
    };
    let mut buffer = Buffer::new();
    put_parts(&[b" RANK ", buffer.format(rank).as_bytes(), b"\n"], sink);
}
