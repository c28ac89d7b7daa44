// The stages of a change, on a page.
ghost use Rattle.std.specs.Prelude.{◌≡◌, ◌<◌};
ghost use Rattle.tx_html.specs.Shows.{Sets};
ghost use Rattle.tx_svg.specs.Indexed.{texts_below};
ghost use Rattle.tx_order.specs.Ordered.{stages_in};
ghost use Rattle.tx_page_change.specs.ChangeTexts.{order_word, difference_texts, stage_texts, stages_texts};

use crate::between::Between;
use crate::table::write_table;
use std::alloc::Allocator;
use tx_html::{PageSink, Part, set};
use tx_order::Order;
use tx_plan::Plan;

const ORDERED: &str =
    " in which the lists and bars of the old plan can be switched to those of this \
one. What is in one stage may be switched in any order, with calls up. A stage begins when all of the \
one before is switched, and no call that was keyed before that is still being set up. Where there is \
no stage, no list and no bar is switched.</p>";

const NO_ORDER: &str =
    " of switching: for these numbers the old plan or this one is not safe, alone \
or in the network of both. Below are the lists and bars that would be switched.</p>";

/// Writes that there is no order, and all lists and bars that would be switched.
pub fn write_difference<A: Allocator, W: PageSink>(old: &Plan<A>, new: &Plan<A>, sink: &mut W)
    ensures { Sets W.seen sink.old sink.new (difference_texts old.now new.now) }
{
    set(
        &[
            Part::Own("<p>There is "),
            Part::Text(order_word(false)),
            Part::Own(NO_ORDER),
        ],
        sink,
    );
    write_table(new, &Between::Plans(old, new), sink);
}

/// Writes that there is an order, and its stages.
pub fn write_stages<A: Allocator, W: PageSink>(order: &Order<A>, sink: &mut W)
    ensures { Sets W.seen sink.old sink.new (stages_texts order.now) }
{
    set(
        &[
            Part::Own("<p>For these numbers there is "),
            Part::Text(order_word(true)),
            Part::Own(ORDERED),
        ],
        sink,
    );
    write_all(order, sink);
}

/// Whether there is an order, in words.
pub(crate) fn order_word(ordered: bool) -> &'static [u8]
    ensures { result.now ≡ order_word ordered }
{
    if ordered {
        b"a safe order"
    } else {
        b"no safe order"
    }
}

fn write_all<A: Allocator, W: PageSink>(order: &Order<A>, sink: &mut W)
    ensures { Sets W.seen sink.old sink.new
        (texts_below (stages_in order.now) (stage_texts order.now)) }
{
    for stage in 0..order.stages() {
        write_stage(order, stage, sink);
    }
}

/// Writes a stage with its title in the head of its table, so that each sheet has it.
fn write_stage<A: Allocator, W: PageSink>(order: &Order<A>, stage: usize, sink: &mut W)
    requires { stage < stages_in order.now }
    ensures { Sets W.seen sink.old sink.new (stage_texts order.now stage) }
{
    order.rules();
    set(&[Part::Own("<section class=\"stage\">")], sink);
    write_table(order.new_plan(), &Between::Stage(order, stage), sink);
    set(&[Part::Own("</section>")], sink);
}
