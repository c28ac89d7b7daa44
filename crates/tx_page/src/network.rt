// The exchanges and groups of a plan.
ghost use Rattle.std.specs.Prelude.{◌≡◌, length};
ghost use Rattle.tx_html.specs.Shows.{Sets};
ghost use Rattle.tx_svg.specs.Indexed.{texts_below};
ghost use Rattle.tx_page.specs.NetworkTexts.{home_texts, exchange_texts, seized_from, group_texts, network_texts};

use std::alloc::Allocator;
use tx_html::{PageSink, Part, set};
use tx_plan::{CodeId, Direction, ExchangeId, GroupId, Plan};
use tx_svg::write_ring;

const EXCHANGES: &str = "<div class=\"t\"><table><thead><tr><th scope=\"col\">\
Exchange</th><th scope=\"col\">Home of</th></tr></thead><tbody>";

const GROUPS: &str = "</tbody></table><table><thead><tr><th scope=\"col\">Group</th>\
<th scope=\"col\">From</th><th scope=\"col\">To</th><th scope=\"col\">Seized from</th>\
<th scope=\"col\" class=\"k\">Circuits</th></tr></thead><tbody>";

/// Writes the tables of exchanges and of groups.
pub fn write_network<A: Allocator, W: PageSink>(plan: &Plan<A>, sink: &mut W)
    ensures { Sets W.seen sink.old sink.new (network_texts plan.now) }
{
    set(&[Part::Own("<h2>The network</h2>")], sink);
    write_ring(plan, sink);
    set(&[Part::Own(EXCHANGES)], sink);
    write_exchanges(plan, sink);
    set(&[Part::Own(GROUPS)], sink);
    write_groups(plan, sink);
    set(&[Part::Own("</tbody></table></div>")], sink);
}

fn write_exchanges<A: Allocator, W: PageSink>(plan: &Plan<A>, sink: &mut W)
    ensures { Sets W.seen sink.old sink.new
        (texts_below (length plan.now.exchanges) (exchange_texts plan.now)) }
{
    for index in 0..plan.exchanges() {
        write_exchange(plan, ExchangeId::of(index), sink);
    }
}

fn write_groups<A: Allocator, W: PageSink>(plan: &Plan<A>, sink: &mut W)
    ensures { Sets W.seen sink.old sink.new
        (texts_below (length plan.now.groups) (group_texts plan.now)) }
{
    for index in 0..plan.groups() {
        write_group(plan, GroupId::of(index), sink);
    }
}

fn write_exchange<A: Allocator, W: PageSink>(plan: &Plan<A>, exchange: ExchangeId, sink: &mut W)
    ensures { Sets W.seen sink.old sink.new (exchange_texts plan.now exchange) }
{
    set(
        &[
            Part::Own("<tr><th scope=\"row\">"),
            Part::Text(plan.exchange_name(exchange)),
            Part::Own("</th><td>"),
        ],
        sink,
    );
    write_codes(plan, exchange, sink);
    set(&[Part::Own("</td></tr>")], sink);
}

/// Writes the codes that are at home at an exchange.
fn write_codes<A: Allocator, W: PageSink>(plan: &Plan<A>, exchange: ExchangeId, sink: &mut W)
    ensures { Sets W.seen sink.old sink.new
        (texts_below (length plan.now.codes) (home_texts plan.now exchange)) }
{
    for index in 0..plan.codes() {
        write_home(plan, exchange, CodeId::of(index), sink);
    }
}

/// Writes a code, if it is at home at an exchange.
fn write_home<A: Allocator, W: PageSink>(
    plan: &Plan<A>,
    exchange: ExchangeId,
    code: CodeId,
    sink: &mut W,
)
    ensures { Sets W.seen sink.old sink.new (home_texts plan.now exchange code) }
{
    if plan.home(code) == exchange {
        set(&[Part::Text(plan.code_figures(code)), Part::Own(" ")], sink);
    }
}

/// From where a group is seized.
fn seized_from(direction: Direction) -> &'static [u8]
    ensures { result.now ≡ seized_from direction }
{
    match direction {
        Direction::OneWay => b"its first end",
        Direction::BothWay => b"both ends",
    }
}

fn write_group<A: Allocator, W: PageSink>(plan: &Plan<A>, group: GroupId, sink: &mut W)
    ensures { Sets W.seen sink.old sink.new (group_texts plan.now group) }
{
    let (from, to) = plan.ends(group);
    set(
        &[
            Part::Own("<tr><th scope=\"row\">"),
            Part::Text(plan.group_name(group)),
            Part::Own("</th><td>"),
            Part::Text(plan.exchange_name(from)),
            Part::Own("</td><td>"),
            Part::Text(plan.exchange_name(to)),
            Part::Own("</td><td>"),
            Part::Text(seized_from(plan.direction(group))),
            Part::Own("</td><td class=\"k\">"),
            Part::Amount(u64::from(plan.group_count(group))),
            Part::Own("</td></tr>"),
        ],
        sink,
    );
}
