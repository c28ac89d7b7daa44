// The way from an old plan to a new one, in numbers.
ghost use Rattle.std.specs.Prelude.{◌≡◌, ◌<◌, ◌≤◌, [], ◌∷◌};
ghost use Rattle.tx_html.specs.Amounts.{amount};
ghost use Rattle.tx_html.specs.Shows.{Sets};
ghost use Rattle.tx_order.specs.Ordered.{stages_in};
ghost use Rattle.tx_svg.specs.Indexed.{texts_below};
ghost use Rattle.tx_page_change.specs.ChangeTexts.{order_word};
ghost use Rattle.tx_page_change.specs.WayTexts.{is_other_list, lists_differing_at, lists_differing, stage_lists, lists_put, lists_gone, way_texts, asked_way_texts};
ghost use Rattle.tx_page_change.specs.inner.Between.{before_of, after_of, IsThere};

use crate::between::{Between, entry_of};
use crate::change::Change;
use crate::entry::is_other_list;
use crate::stages::order_word;
use std::alloc::Allocator;
use tx_html::{PageSink, Part, set};
use tx_order::{Order, Switching};
use tx_plan::{CodeId, ExchangeId, Plan};

/// Whether an exchange has another list for a code.
fn has_other_list<A: Allocator>(
    between: &Between<'_, A>,
    exchange: ExchangeId,
    code: CodeId,
) -> bool
    requires { IsThere between.now }
    ensures { result ≡ is_other_list (before_of between.now) (after_of between.now) exchange code }
{
    is_other_list(&entry_of(between, exchange, code))
}

/// How many lists differ at an exchange.
#[tactic(auto, using(tx_join::proofs::Sums::count_more, tx_join::proofs::Sums::count_few))]
fn lists_differing_at<A: Allocator>(
    plan: &Plan<A>,
    between: &Between<'_, A>,
    exchange: ExchangeId,
) -> u64
    requires { IsThere between.now }
    ensures count { result ≡ lists_differing_at plan.now (before_of between.now)
        (after_of between.now) exchange }
    ensures few { result ≤ 1100 }
{
    let mut count: u64 = 0;
    for index in 0..plan.codes() {
        if has_other_list(between, exchange, CodeId::of(index)) {
            count += 1;
        }
    }
    count
}

/// How many lists differ between two plans, by the exchanges and codes of one of them.
#[tactic(auto, using(tx_join::proofs::Sums::range_sum_more))]
fn lists_differing<A: Allocator>(plan: &Plan<A>, between: &Between<'_, A>) -> u64
    requires { IsThere between.now }
    ensures { result ≡ lists_differing plan.now (before_of between.now) (after_of between.now) }
{
    let mut count: u64 = 0;
    for index in 0..plan.exchanges() {
        count += lists_differing_at(plan, between, ExchangeId::of(index));
    }
    count
}

const NO_ORDER: &str =
    "<tr><th scope=\"row\">Stages of the change</th><td colspan=\"3\" class=\"warn\">";

/// Writes in which stages the lists are switched, and how many; or that there is no order.
pub fn write_way<A: Allocator, W: PageSink>(change: &Change<'_, A>, safe: bool, sink: &mut W)
    ensures { Sets W.seen sink.old sink.new
        (asked_way_texts safe change.now change.now.switching.now) }
{
    match change.switching {
        Switching::Ordered(order) if safe => {
            write_ordered(change.old.plan, change.new.plan, order, sink)
        }
        Switching::Ordered(_) | Switching::NoOrder(_, _, _) => set(
            &[
                Part::Own(NO_ORDER),
                Part::Text(order_word(false)),
                Part::Own("</td></tr></tbody></table></div>"),
            ],
            sink,
        ),
    }
}

/// Whether there is an order that leads to a safe plan.
pub fn has_way<A: Allocator>(change: &Change<'_, A>, safe: bool) -> bool {
    match change.switching {
        Switching::Ordered(_) => safe,
        Switching::NoOrder(_, _, _) => false,
    }
}

fn write_ordered<A: Allocator, W: PageSink>(
    old: &Plan<A>,
    new: &Plan<A>,
    order: &Order<A>,
    sink: &mut W,
)
    ensures { Sets W.seen sink.old sink.new (way_texts old.now new.now order.now) }
{
    let put = lists_differing(new, &Between::New(new, old));
    set(
        &[
            Part::Own("<tr><th scope=\"row\">Stages of the change</th><td colspan=\"3\">"),
            Part::Amount(order.stages() as u64),
            Part::Own(
                "</td></tr><tr><th scope=\"row\">Lists to install before</th><td colspan=\"3\">",
            ),
            Part::Amount(put),
            Part::Own(
                "</td></tr><tr><th scope=\"row\">Lists to switch, stage by stage</th><td \
                 colspan=\"3\">",
            ),
        ],
        sink,
    );
    write_stages(order, sink);
    write_gone(old, new, sink);
}

/// Writes how many lists each stage switches.
fn write_stages<A: Allocator, W: PageSink>(order: &Order<A>, sink: &mut W)
    ensures { Sets W.seen sink.old sink.new
        (texts_below (stages_in order.now) (stage_lists order.now)) }
{
    for stage in 0..order.stages() {
        write_stage(order, stage, sink);
    }
}

/// Writes how many lists a stage switches.
fn write_stage<A: Allocator, W: PageSink>(order: &Order<A>, stage: usize, sink: &mut W)
    requires { stage < stages_in order.now }
    ensures { Sets W.seen sink.old sink.new (stage_lists order.now stage) }
{
    order.rules();
    let lists = lists_differing(order.new_plan(), &Between::Stage(order, stage));
    set(
        &[
            Part::Own(if stage > 0 { ", " } else { "" }),
            Part::Amount(lists),
        ],
        sink,
    );
}

fn write_gone<A: Allocator, W: PageSink>(old: &Plan<A>, new: &Plan<A>, sink: &mut W)
    ensures { Sets W.seen sink.old sink.new (amount (lists_gone old.now new.now) ∷ []) }
{
    let gone = lists_differing(old, &Between::Gone(old, new));
    set(
        &[
            Part::Own(
                "</td></tr><tr><th scope=\"row\">Lists to take away after</th><td colspan=\"3\">",
            ),
            Part::Amount(gone),
            Part::Own("</td></tr></tbody></table></div>"),
            Part::Own(BACK),
        ],
        sink,
    );
}

const BACK: &str = "<p>Until something is taken away one may go back at any time, down to the plan \
before: what a stage has switched is switched back in any order, and once no call that was keyed \
before that is still being set up, so is the stage before it; on the whole way there and back no call \
passes an exchange twice or more transit exchanges than the limit.</p>";
