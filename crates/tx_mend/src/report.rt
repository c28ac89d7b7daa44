// The writer of reports of mendings.
ghost use Rattle.tx_text.specs.Puts.{Puts};
ghost use Rattle.tx_text.specs.Wrote.{Wrote};
ghost use Rattle.tx_mend.specs.MendText.{mended_text, mend_report};

use crate::mending::Mending;
use crate::unserved::write_unserved;
use std::alloc::Allocator;
use tx_plan::{Limits, Plan, Routes};
use tx_plantext::write_changes;
use tx_rank::write_asked;
use tx_text::{Sink, WriteFault, finish, put_bytes};

/// Writes the report of a mending: the lists that change, with the old ones, and YES, or what cannot
/// be served and NO.
pub fn write_mending<A: Allocator, W: Sink>(
    mending: &Mending<A>,
    limits: Limits,
    sink: &mut W,
) -> Result<(), WriteFault>
    ensures { Wrote W.taken W.failed sink.old sink.new
        (mend_report limits.limit limits.spare mending.now) result }
{
    match mending {
        Mending::Mended(plan, before, _) => write_mended(before, plan, limits, sink),
        Mending::NoRouting(plan, unserved, missing, pair) => {
            write_unserved(plan, limits, unserved, missing, pair, sink)
        }
    }
    finish(sink)
}

/// Writes what was asked, each list of a plan that is another one than before, with the one before,
/// and YES.
fn write_mended<A: Allocator, W: Sink>(
    before: &Routes<A>,
    plan: &Plan<A>,
    limits: Limits,
    sink: &mut W,
)
    ensures { Puts W.taken W.failed sink.old sink.new
        (mended_text before.now plan.now limits.limit limits.spare) }
{
    write_asked(b"MEND", limits, sink);
    write_changes(before, plan, sink);
    put_bytes(b"VERDICT YES\n", sink);
}
