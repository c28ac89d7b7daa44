// The writer of plan texts.
#![tactic(auto, using(crate::proofs::Texts::putting))]

ghost use Rattle.std.specs.Prelude.{codes, decimal, ◌++◌};
ghost use Rattle.std.specs.List.{flat_map};
ghost use Rattle.tx_text.specs.Written.{line_written};
ghost use Rattle.tx_text.specs.Puts.{Puts};
ghost use Rattle.tx_text.specs.Wrote.{Wrote};
ghost use Rattle.tx_plan.specs.Plan.{group_name};
ghost use Rattle.tx_plan.specs.Routes.{route_list};
ghost use Rattle.tx_plantext.specs.PlanWritten.{plan_written, head_of, exchange_words, code_words, range_words, group_words, route_words, bar_words, direction_word, line_at, lines_of_list};

use itoa::Buffer;
use std::alloc::Allocator;
use tx_plan::{CodeId, Direction, ExchangeId, GroupId, Plan};
use tx_text::{Sink, WriteFault, finish, put_bytes, put_parts};

/// Writes the text of a plan: the header, a line for each entry of the six lists in order of
/// declaration, and END.
///
/// The header is `PLAN 2` where the plan has a bar, and else `PLAN 1`. What went out before a
/// failure is a front of the text.
pub fn write_plan<A: Allocator, W: Sink>(plan: &Plan<A>, sink: &mut W) -> Result<(), WriteFault>
    ensures { Wrote W.taken W.failed sink.old sink.new (plan_written plan.now) result }
{
    write_head(plan.bars() > 0, sink);
    write_numbering(plan, sink);
    write_routing(plan, sink);
    put_bytes(b"END\n", sink);
    finish(sink)
}

/// Writes the exchanges, the codes and the ranges of lines.
fn write_numbering<A: Allocator, W: Sink>(plan: &Plan<A>, sink: &mut W)
    ensures { Puts W.taken W.failed sink.old sink.new
        (lines_of_list exchange_words plan.now.exchanges ++ (lines_of_list (code_words plan.now)
        plan.now.codes ++ lines_of_list (range_words plan.now) plan.now.ranges)) }
{
    write_exchanges(plan, sink);
    write_codes(plan, sink);
    write_ranges(plan, sink);
}

/// Writes the groups, the routes and the bars.
fn write_routing<A: Allocator, W: Sink>(plan: &Plan<A>, sink: &mut W)
    ensures { Puts W.taken W.failed sink.old sink.new (lines_of_list (group_words plan.now)
        plan.now.groups ++ (lines_of_list (route_words plan.now) plan.now.routes
        ++ lines_of_list (bar_words plan.now) plan.now.bars)) }
{
    write_groups(plan, sink);
    write_routes(plan, sink);
    write_bars(plan, sink);
}

fn write_head<W: Sink>(bars: bool, sink: &mut W)
    ensures { Puts W.taken W.failed sink.old sink.new (line_written (head_of bars)) }
{
    if bars {
        put_bytes(b"PLAN 2\n", sink)
    } else {
        put_bytes(b"PLAN 1\n", sink)
    }
}

// LISTS

fn write_exchanges<A: Allocator, W: Sink>(plan: &Plan<A>, sink: &mut W)
    ensures { Puts W.taken W.failed sink.old sink.new
        (lines_of_list exchange_words plan.now.exchanges) }
{
    for index in 0..plan.exchanges() {
        write_exchange(plan, index, sink);
    }
}

fn write_codes<A: Allocator, W: Sink>(plan: &Plan<A>, sink: &mut W)
    ensures { Puts W.taken W.failed sink.old sink.new
        (lines_of_list (code_words plan.now) plan.now.codes) }
{
    for index in 0..plan.codes() {
        write_code(plan, index, sink);
    }
}

fn write_ranges<A: Allocator, W: Sink>(plan: &Plan<A>, sink: &mut W)
    ensures { Puts W.taken W.failed sink.old sink.new
        (lines_of_list (range_words plan.now) plan.now.ranges) }
{
    for index in 0..plan.ranges() {
        write_range(plan, index, sink);
    }
}

fn write_groups<A: Allocator, W: Sink>(plan: &Plan<A>, sink: &mut W)
    ensures { Puts W.taken W.failed sink.old sink.new
        (lines_of_list (group_words plan.now) plan.now.groups) }
{
    for index in 0..plan.groups() {
        write_group(plan, index, sink);
    }
}

fn write_routes<A: Allocator, W: Sink>(plan: &Plan<A>, sink: &mut W)
    ensures { Puts W.taken W.failed sink.old sink.new
        (lines_of_list (route_words plan.now) plan.now.routes) }
{
    for index in 0..plan.routes() {
        write_route_at(plan, index, sink);
    }
}

fn write_bars<A: Allocator, W: Sink>(plan: &Plan<A>, sink: &mut W)
    ensures { Puts W.taken W.failed sink.old sink.new
        (lines_of_list (bar_words plan.now) plan.now.bars) }
{
    for index in 0..plan.bars() {
        write_bar(plan, index, sink);
    }
}

// LINES: that of the entry at an index, if there is one

fn write_exchange<A: Allocator, W: Sink>(plan: &Plan<A>, index: usize, sink: &mut W)
    ensures { Puts W.taken W.failed sink.old sink.new
        (line_at exchange_words plan.now.exchanges index) }
{
    match plan.exchange_at(index) {
        Some(exchange) => put_parts(&[b"EXCHANGE ", plan.exchange_name(exchange), b"\n"], sink),
        None => {}
    }
}

fn write_code<A: Allocator, W: Sink>(plan: &Plan<A>, index: usize, sink: &mut W)
    ensures { Puts W.taken W.failed sink.old sink.new
        (line_at (code_words plan.now) plan.now.codes index) }
{
    match plan.code_at(index) {
        Some(code) => {
            let home = plan.exchange_name(plan.home(code));
            put_parts(
                &[b"CODE ", plan.code_figures(code), b" ", home, b"\n"],
                sink,
            )
        }
        None => {}
    }
}

fn write_range<A: Allocator, W: Sink>(plan: &Plan<A>, index: usize, sink: &mut W)
    ensures { Puts W.taken W.failed sink.old sink.new
        (line_at (range_words plan.now) plan.now.ranges index) }
{
    match plan.range_at(index) {
        Some(range) => {
            let code = plan.code_figures(range.code);
            put_parts(
                &[
                    b"LINES ",
                    code,
                    b" ",
                    range.low.bytes(),
                    b" ",
                    range.high.bytes(),
                    b"\n",
                ],
                sink,
            )
        }
        None => {}
    }
}

fn write_group<A: Allocator, W: Sink>(plan: &Plan<A>, index: usize, sink: &mut W)
    ensures { Puts W.taken W.failed sink.old sink.new
        (line_at (group_words plan.now) plan.now.groups index) }
{
    match plan.group_at(index) {
        Some(group) => {
            let name = plan.group_name(group);
            let (a, b) = plan.ends(group);
            let first = plan.exchange_name(a);
            let second = plan.exchange_name(b);
            put_parts(&[b"GROUP ", name, b" ", first, b" ", second, b" "], sink);
            write_direction(plan.direction(group), sink);
            write_count(plan.group_count(group), sink);
        }
        None => {}
    }
}

fn write_direction<W: Sink>(direction: Direction, sink: &mut W)
    ensures { Puts W.taken W.failed sink.old sink.new (direction_word direction) }
{
    match direction {
        Direction::OneWay => put_bytes(b"ONEWAY", sink),
        Direction::BothWay => put_bytes(b"BOTHWAY", sink),
    }
}

/// Writes a space and a number, and the end of the line.
fn write_count<W: Sink>(count: u32, sink: &mut W)
    ensures { Puts W.taken W.failed sink.old sink.new
        (codes " " ++ decimal count ++ codes "\n") }
{
    let mut buffer = Buffer::new();
    let figures = buffer.format(count).as_bytes();
    put_parts(&[b" ", figures, b"\n"], sink);
}

fn write_route_at<A: Allocator, W: Sink>(plan: &Plan<A>, index: usize, sink: &mut W)
    ensures { Puts W.taken W.failed sink.old sink.new
        (line_at (route_words plan.now) plan.now.routes index) }
{
    match plan.route_at(index) {
        Some((exchange, code)) => write_route(plan, exchange, code, sink),
        None => {}
    }
}

/// Writes the route of an exchange for a code, as a line of the plan.
pub fn write_route<A: Allocator, W: Sink>(
    plan: &Plan<A>,
    exchange: ExchangeId,
    code: CodeId,
    sink: &mut W,
)
    ensures { Puts W.taken W.failed sink.old sink.new
        (line_written (route_words plan.now (record {
          exchange = exchange;
          code = code;
          groups = route_list plan.now exchange code;
        }))) }
{
    put_parts(
        &[
            b"ROUTE ",
            plan.exchange_name(exchange),
            b" ",
            plan.code_figures(code),
        ],
        sink,
    );
    write_group_names(plan, plan.list(exchange, code), sink);
}

/// Writes a space and a name for each group, and the end of the line.
pub fn write_group_names<A: Allocator, W: Sink>(plan: &Plan<A>, groups: &[GroupId], sink: &mut W)
    ensures { Puts W.taken W.failed sink.old sink.new
        (flat_map (λ g. codes " " ++ group_name plan.now g) groups.now ++ codes "\n") }
{
    for i in 0..groups.len() {
        put_bytes(b" ", sink);
        put_bytes(plan.group_name(groups[i]), sink);
    }
    put_bytes(b"\n", sink);
}

fn write_bar<A: Allocator, W: Sink>(plan: &Plan<A>, index: usize, sink: &mut W)
    ensures { Puts W.taken W.failed sink.old sink.new
        (line_at (bar_words plan.now) plan.now.bars index) }
{
    match plan.bar_at(index) {
        Some((exchange, code)) => {
            let exchange = plan.exchange_name(exchange);
            put_parts(
                &[b"BAR ", exchange, b" ", plan.code_figures(code), b"\n"],
                sink,
            )
        }
        None => {}
    }
}
