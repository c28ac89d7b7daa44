// The work at each exchange.
ghost use Rattle.std.specs.Prelude.{◌≡◌, ◌∷◌, ◌++◌, length};
ghost use Rattle.tx_html.specs.Shows.{Sets};
ghost use Rattle.tx_order.specs.Ordered.{stages_in};
ghost use Rattle.tx_order.specs.Switchings.{plans_of};
ghost use Rattle.tx_plan.specs.Plan.{exchange_name};
ghost use Rattle.tx_svg.specs.Indexed.{texts_below};
ghost use Rattle.tx_page_change.specs.ChangeTexts.{exchange_texts};
ghost use Rattle.tx_page_change.specs.CrewTexts.{has_work_for, has_work, work_texts, named_work_texts, stage_work_texts, switched_work_texts, crew_texts, crews_texts};
ghost use Rattle.tx_page_change.specs.inner.Between.{before_of, after_of, title_of, IsThere};

use crate::between::{Between, entry_of};
use crate::change::Change;
use crate::entry::is_switched;
use crate::table::{write_exchange_table, write_title};
use std::alloc::Allocator;
use tx_html::{PageSink, Part, set};
use tx_order::{Order, Switching};
use tx_plan::{CodeId, ExchangeId, Plan};

/// Whether an exchange has another list or bar for a code.
fn has_work_for<A: Allocator>(between: &Between<'_, A>, exchange: ExchangeId, code: CodeId) -> bool
    requires { IsThere between.now }
    ensures { result ≡ has_work_for (before_of between.now) (after_of between.now) exchange code }
{
    is_switched(&entry_of(between, exchange, code))
}

/// Whether it has for some code.
fn has_work<A: Allocator>(plan: &Plan<A>, between: &Between<'_, A>, exchange: ExchangeId) -> bool
    requires { IsThere between.now }
    ensures { result ≡ has_work plan.now (before_of between.now) (after_of between.now) exchange }
{
    for index in 0..plan.codes() {
        if has_work_for(between, exchange, CodeId::of(index)) {
            return true;
        }
    }
    false
}

/// Writes what is done at an exchange, if something is.
fn write_work<A: Allocator, W: PageSink>(
    plan: &Plan<A>,
    between: &Between<'_, A>,
    exchange: ExchangeId,
    sink: &mut W,
)
    requires { IsThere between.now }
    ensures { Sets W.seen sink.old sink.new (work_texts (title_of between.now) plan.now
        (before_of between.now) (after_of between.now) exchange) }
{
    if has_work(plan, between, exchange) {
        write_done(plan, between, exchange, sink);
    }
}

/// Writes what is done at an exchange, in a table of its own.
fn write_done<A: Allocator, W: PageSink>(
    plan: &Plan<A>,
    between: &Between<'_, A>,
    exchange: ExchangeId,
    sink: &mut W,
)
    requires { IsThere between.now }
    ensures { Sets W.seen sink.old sink.new (title_of between.now
        ++ (exchange_name plan.now exchange ∷ exchange_texts plan.now (before_of between.now)
        (after_of between.now) exchange)) }
{
    write_title(between, sink);
    set(
        &[Part::Own(", "), Part::Text(plan.exchange_name(exchange))],
        sink,
    );
    write_exchange_table(plan, between, exchange, sink);
}

/// Writes it at the exchange of this name, if the plan has it.
fn write_named_work<A: Allocator, W: PageSink>(
    plan: &Plan<A>,
    between: &Between<'_, A>,
    name: &[u8],
    sink: &mut W,
)
    requires { IsThere between.now }
    ensures { Sets W.seen sink.old sink.new (named_work_texts (title_of between.now) plan.now
        (before_of between.now) (after_of between.now) name.now) }
{
    match plan.exchange_named(name) {
        Some(exchange) => write_work(plan, between, exchange, sink),
        None => {}
    }
}

/// Writes what each stage switches at an exchange.
fn write_stages<A: Allocator, W: PageSink>(order: &Order<A>, exchange: ExchangeId, sink: &mut W)
    ensures { Sets W.seen sink.old sink.new
        (texts_below (stages_in order.now) (stage_work_texts order.now exchange)) }
{
    for stage in 0..order.stages() {
        write_work(
            order.new_plan(),
            &Between::Stage(order, stage),
            exchange,
            sink,
        );
    }
}

/// Writes what is switched at an exchange, stage by stage, or all that differs there.
fn write_switched<A: Allocator, W: PageSink>(
    change: &Change<'_, A>,
    safe: bool,
    exchange: ExchangeId,
    sink: &mut W,
)
    ensures { Sets W.seen sink.old sink.new
        (switched_work_texts safe change.now.switching.now exchange) }
{
    match change.switching {
        Switching::Ordered(order) if safe => write_stages(order, exchange, sink),
        Switching::Ordered(_) | Switching::NoOrder(_, _, _) => {
            let (old, new) = change.switching.plans();
            write_work(new, &Between::Plans(old, new), exchange, sink)
        }
    }
}

/// Writes what is done at an exchange before the stages, in each, and after them.
fn write_crew<A: Allocator, W: PageSink>(
    change: &Change<'_, A>,
    safe: bool,
    exchange: ExchangeId,
    sink: &mut W,
)
    ensures { Sets W.seen sink.old sink.new (crew_texts safe change.now exchange) }
{
    let (_, network) = change.switching.plans();
    let name = network.exchange_name(exchange);
    let (old, new) = (change.old.plan, change.new.plan);
    set(&[Part::Own("<section class=\"crew\">")], sink);
    write_named_work(new, &Between::New(new, old), name, sink);
    write_switched(change, safe, exchange, sink);
    write_named_work(old, &Between::Gone(old, new), name, sink);
    set(&[Part::Own("</section>")], sink);
}

/// Writes the work at each exchange.
fn write_each<A: Allocator, W: PageSink>(change: &Change<'_, A>, safe: bool, sink: &mut W)
    ensures { Sets W.seen sink.old sink.new
        (texts_below (length (plans_of change.now.switching.now).new.exchanges)
        (crew_texts safe change.now)) }
{
    let (_, network) = change.switching.plans();
    for index in 0..network.exchanges() {
        write_crew(change, safe, ExchangeId::of(index), sink);
    }
}

/// Writes the work at each exchange, if it is asked for.
pub fn write_crews<A: Allocator, W: PageSink>(change: &Change<'_, A>, safe: bool, sink: &mut W)
    ensures { Sets W.seen sink.old sink.new (crews_texts safe change.now) }
{
    if change.by_exchange {
        set(&[Part::Own(HEAD)], sink);
        write_each(change, safe, sink);
    }
}

const HEAD: &str =
    "<h2 class=\"crews\">The work at each exchange</h2><p>What is done at an exchange, \
from before the switching until after it.</p>";
