// The names of groups.
ghost use Rattle.std.specs.Prelude.{map};
ghost use Rattle.tx_plan.specs.Plan.{group_name};
ghost use Rattle.tx_html.specs.Shows.{Sets};

use std::alloc::Allocator;
use tx_html::{PageSink, Part, set};
use tx_plan::{GroupId, Plan};

/// Writes the names of groups.
pub fn write_groups<A: Allocator, W: PageSink>(plan: &Plan<A>, groups: &[GroupId], sink: &mut W)
    ensures { Sets W.seen sink.old sink.new
        (map (group_name plan.now) groups.now) }
{
    for i in 0..groups.len() {
        let between = if i == 0 { "" } else { ", " };
        set(
            &[Part::Own(between), Part::Text(plan.group_name(groups[i]))],
            sink,
        );
    }
}
