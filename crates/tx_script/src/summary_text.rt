// The lines of a summary.
ghost use Rattle.std.specs.Prelude.{◌≡◌, ◌<◌, length};
ghost use Rattle.std.specs.List.{flat_map, range_with_len};
ghost use Rattle.tx_text.specs.Puts.{Puts};
ghost use Rattle.tx_machine.specs.Causes.{causes};
ghost use Rattle.tx_tickets.specs.Texts.{cause_text};
ghost use Rattle.tx_script.specs.Summaries.{calls_line, peak_line};
ghost use Rattle.tx_script.specs.inner.Counting.{count_for, counts_text, use_at};

use crate::counts::Counts;
use itoa::Buffer;
use std::alloc::Allocator;
use tx_machine::Cause;
use tx_plan::{GroupId, Plan};
use tx_text::{Sink, put_bytes, put_parts};
use tx_tickets::cause_word;

/// Writes what was counted of a run, and how many calls are open.
pub(crate) fn write_summary<A: Allocator, B: Allocator, W: Sink>(
    counts: &Counts<A>,
    open_calls: u64,
    plan: &Plan<B>,
    sink: &mut W,
)
    ensures { Puts W.taken W.failed sink.old sink.new
        (counts_text plan.now counts.now open_calls) }
{
    write_ended(counts, sink);
    write_calls(b"OPEN", open_calls, sink);
    write_peaks(counts, plan, sink);
    put_bytes(b"END SUMMARY\n", sink);
}

/// Writes how many calls ended by each cause.
fn write_ended<A: Allocator, W: Sink>(counts: &Counts<A>, sink: &mut W)
    ensures { Puts W.taken W.failed sink.old sink.new (flat_map
        (λ cause. calls_line (cause_text cause) (count_for counts.now.calls cause)) causes) }
{
    for cause in Cause::ALL {
        write_calls(cause_word(cause), counts.ended_by(cause), sink);
    }
}

/// Writes the peak of each group that was used.
#[tactic(auto, using(tx_text::proofs::Putting::puts_none, tx_text::proofs::Ranges::index_more, tx_text::proofs::Ranges::indexes_done))]
fn write_peaks<A: Allocator, B: Allocator, W: Sink>(
    counts: &Counts<A>,
    plan: &Plan<B>,
    sink: &mut W,
)
    ensures { Puts W.taken W.failed sink.old sink.new (flat_map (λ g. peak_line plan.now g
        (use_at counts.now.groups g).most) (range_with_len 0 (length plan.now.groups))) }
{
    for index in 0..plan.groups() {
        let group = GroupId::of(index);
        write_peak(group, counts.most_of(group), plan, sink);
    }
}

/// Writes how many calls there are of a kind, where there are some.
fn write_calls<W: Sink>(word: &[u8], count: u64, sink: &mut W)
    ensures { Puts W.taken W.failed sink.old sink.new
        (calls_line word.now count) }
{
    if count == 0 {
        return;
    }
    let mut digits = Buffer::new();
    let figures = digits.format(count).as_bytes();
    put_parts(&[b"CALLS ", word, b" ", figures, b"\n"], sink);
}

/// Writes the most circuits of a group that were taken at once, where it was used.
fn write_peak<B: Allocator, W: Sink>(group: GroupId, most: u32, plan: &Plan<B>, sink: &mut W)
    ensures { Puts W.taken W.failed sink.old sink.new
        (peak_line plan.now group most) }
{
    if most == 0 {
        return;
    }
    let mut digits = Buffer::new();
    let mut circuits = Buffer::new();
    let taken = digits.format(most).as_bytes();
    let all = circuits.format(plan.group_count(group)).as_bytes();
    put_parts(
        &[
            b"PEAK ",
            plan.group_name(group),
            b" ",
            taken,
            b" OF ",
            all,
            b"\n",
        ],
        sink,
    );
}
