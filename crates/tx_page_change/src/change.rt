// The change from an old plan, on a page.
ghost use Rattle.tx_html.specs.Shows.{Sets};
ghost use Rattle.tx_page_change.specs.StepTexts.{switching_texts, steps_texts, change_texts};

use crate::outlook::Outlook;
use crate::stages::{write_difference, write_stages};
use crate::steps::{write_after, write_before};
use std::alloc::Allocator;
use tx_html::{PageSink, Part, set};
use tx_join::differ;
use tx_order::Switching;

/// The change of an old plan into the plan of a page.
#[derive(Drop)]
pub struct Change<'a, A: Allocator> {
    /// The name of the old plan's file, and the SHA-256 of its text.
    pub name: &'a [u8],
    pub digest: [u8; 32],
    /// When the change was judged, if the clock tells.
    pub date: Option<[u8; 29]>,
    /// Both plans as they are.
    pub old: Outlook<'a, A>,
    pub new: Outlook<'a, A>,
    /// After how many outages somebody is worse off than in the old plan, and after how many
    /// better, if both have a grade.
    pub worse: Option<u64>,
    pub better: Option<u64>,
    /// The order of switching over their joined network, or what is wrong.
    pub switching: &'a Switching<A>,
    /// The work at each exchange is shown too.
    pub by_exchange: bool,
}

/// Writes the stages of the order of switching; or, where there is none or the new plan is not safe,
/// all lists and bars that differ. If the plans differ beside lists and bars, what is done before and
/// after stands before and after that.
pub fn write_change<A: Allocator, W: PageSink>(change: &Change<'_, A>, safe: bool, sink: &mut W)
    ensures { Sets W.seen sink.old sink.new (change_texts safe change.now) }
{
    set(&[Part::Own("<h2>The change</h2>")], sink);
    if differ(change.old.plan, change.new.plan) {
        write_steps(change, safe, sink);
    } else {
        write_switching(change, safe, sink);
    }
}

/// Writes what is done before the stages, the stages, and what is done after them.
fn write_steps<A: Allocator, W: PageSink>(change: &Change<'_, A>, safe: bool, sink: &mut W)
    ensures { Sets W.seen sink.old sink.new (steps_texts safe change.now) }
{
    set(
        &[
            Part::Own("<p>Beside lists and bars these plans "),
            Part::Text(b"differ"),
            Part::Own(BESIDE_LISTS),
        ],
        sink,
    );
    write_before(change.old.plan, change.new.plan, sink);
    write_switching(change, safe, sink);
    write_after(change.old.plan, change.new.plan, sink);
}

const BESIDE_LISTS: &str = " in what they declare: something is \
done before the switching, or after it.</p>";

/// Writes the stages, or all that differs.
fn write_switching<A: Allocator, W: PageSink>(change: &Change<'_, A>, safe: bool, sink: &mut W)
    ensures { Sets W.seen sink.old sink.new
        (switching_texts safe change.now.switching.now) }
{
    match change.switching {
        Switching::Ordered(order) if safe => write_stages(order, sink),
        Switching::Ordered(_) | Switching::NoOrder(_, _, _) => {
            let (old, new) = change.switching.plans();
            write_difference(old, new, sink)
        }
    }
}
