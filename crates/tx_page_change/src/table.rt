// A table of what is switched.
ghost use Rattle.std.specs.Prelude.{◌<◌, ◌++◌};
ghost use Rattle.tx_html.specs.Shows.{Sets};
ghost use Rattle.tx_order.specs.Ordered.{stages_in};
ghost use Rattle.tx_page_change.specs.ChangeTexts.{exchange_texts, table_texts, stage_title};
ghost use Rattle.tx_page_change.specs.inner.Between.{before_of, after_of, title_of, IsThere};

use crate::between::{Between, entry_of};
use crate::entry::write_switched;
use std::alloc::Allocator;
use tx_html::{PageSink, Part, set};
use tx_order::Order;
use tx_plan::{CodeId, ExchangeId, Plan};

const TABLE: &str = "<div class=\"t\"><table><thead><tr><th scope=\"colgroup\" colspan=\"5\"><h3>";

const HEAD: &str = "</h3></th></tr><tr><th scope=\"col\">Exchange</th>\
<th scope=\"col\">Code</th><th scope=\"col\">Old list</th><th scope=\"col\">New list</th>\
<th scope=\"col\">Bar</th></tr></thead><tbody>";

/// Writes what differs between two plans, by the names of one of them, in a table whose head has its
/// title, so that each sheet has it.
pub fn write_table<A: Allocator, W: PageSink>(
    plan: &Plan<A>,
    between: &Between<'_, A>,
    sink: &mut W,
)
    requires { IsThere between.now }
    ensures { Sets W.seen sink.old sink.new (title_of between.now
        ++ table_texts plan.now (before_of between.now) (after_of between.now)) }
{
    write_title(between, sink);
    set(&[Part::Own(HEAD)], sink);
    write_rows(plan, between, sink);
    set(&[Part::Own("</tbody></table></div>")], sink);
}

/// What a table is about, but for its numbers.
fn words_of<A: Allocator>(between: &Between<'_, A>) -> &'static str {
    match *between {
        Between::Stage(_, _) => "Stage ",
        Between::Plans(_, _) => "What differs",
        Between::New(_, _) => "Before the switching",
        Between::Gone(_, _) => "After the switching",
    }
}

/// Begins a table with its title, in its head.
pub(crate) fn write_title<A: Allocator, W: PageSink>(between: &Between<'_, A>, sink: &mut W)
    requires { IsThere between.now }
    ensures { Sets W.seen sink.old sink.new (title_of between.now) }
{
    set(&[Part::Own(TABLE), Part::Own(words_of(between))], sink);
    write_numbers(between, sink);
}

/// Writes the numbers in its title, if it is of a stage.
fn write_numbers<A: Allocator, W: PageSink>(between: &Between<'_, A>, sink: &mut W)
    requires { IsThere between.now }
    ensures { Sets W.seen sink.old sink.new (title_of between.now) }
{
    match *between {
        Between::Stage(order, stage) => write_stage(order, stage, sink),
        Between::Plans(_, _) | Between::New(_, _) | Between::Gone(_, _) => {}
    }
}

/// Writes the number of a stage, and how many there are.
fn write_stage<A: Allocator, W: PageSink>(order: &Order<A>, stage: usize, sink: &mut W)
    requires { stage < stages_in order.now }
    ensures { Sets W.seen sink.old sink.new (stage_title order.now stage) }
{
    order.rules();
    set(
        &[
            Part::Count(stage as u64 + 1),
            Part::Own(" of "),
            Part::Count(order.stages() as u64),
        ],
        sink,
    );
}

/// Writes what differs at an exchange, in a table that has its title.
pub(crate) fn write_exchange_table<A: Allocator, W: PageSink>(
    plan: &Plan<A>,
    between: &Between<'_, A>,
    exchange: ExchangeId,
    sink: &mut W,
)
    requires { IsThere between.now }
    ensures { Sets W.seen sink.old sink.new
        (exchange_texts plan.now (before_of between.now) (after_of between.now) exchange) }
{
    set(&[Part::Own(HEAD)], sink);
    write_exchange(plan, between, exchange, sink);
    set(&[Part::Own("</tbody></table></div>")], sink);
}

/// Writes its rows, exchange by exchange.
fn write_rows<A: Allocator, W: PageSink>(plan: &Plan<A>, between: &Between<'_, A>, sink: &mut W)
    requires { IsThere between.now }
    ensures { Sets W.seen sink.old sink.new
        (table_texts plan.now (before_of between.now) (after_of between.now)) }
{
    for index in 0..plan.exchanges() {
        write_exchange(plan, between, ExchangeId::of(index), sink);
    }
}

/// Writes the rows of an exchange, code by code.
fn write_exchange<A: Allocator, W: PageSink>(
    plan: &Plan<A>,
    between: &Between<'_, A>,
    exchange: ExchangeId,
    sink: &mut W,
)
    requires { IsThere between.now }
    ensures { Sets W.seen sink.old sink.new
        (exchange_texts plan.now (before_of between.now) (after_of between.now) exchange) }
{
    for index in 0..plan.codes() {
        let entry = entry_of(between, exchange, CodeId::of(index));
        write_switched(plan, &entry, sink);
    }
}
