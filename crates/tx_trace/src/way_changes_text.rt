// The writer of the calls that go another way than in an old plan.
#![tactic(auto, using(tx_text::proofs::Putting::puts_none, tx_text::proofs::Putting::puts_more, tx_text::proofs::Putting::puts_all))]

ghost use Rattle.std.specs.Prelude.{map};
ghost use Rattle.std.specs.List.{AllByRecursion, flat_map};
ghost use Rattle.tx_text.specs.Puts.{Puts};
ghost use Rattle.tx_text.specs.Wrote.{Wrote};
ghost use Rattle.tx_trace.specs.WayChanges.{AreWaysIn, calls_of};
ghost use Rattle.tx_trace.specs.WayChangesText.{was_line, only_line, change_of, count_line, changes_text};

use crate::trace_text::{write_head, write_way};
use crate::way_changes::{WayChange, is_named, is_same_way};
use itoa::Buffer;
use std::alloc::Allocator;
use tx_plan::{ExchangeId, Plan};
use tx_text::{Sink, WriteFault, finish, put_parts};

/// Writes how many calls go another way in a plan than in an old one, and each of them: its first
/// way, that in the old plan, and the exchanges to which it may come in one of them alone.
pub fn write_way_changes<A: Allocator, W: Sink>(
    plan: &Plan<A>,
    old: &Plan<A>,
    changes: &[WayChange<A>],
    sink: &mut W,
) -> Result<(), WriteFault>
    requires { AllByRecursion (AreWaysIn plan.now old.now) changes.now }
    ensures { Wrote W.taken W.failed sink.old sink.new
        (changes_text plan.now old.now (map calls_of changes.now)) result }
{
    write_count(changes.len(), sink);
    write_changes(plan, old, changes, sink);
    finish(sink)
}

/// Writes how many there are.
fn write_count<W: Sink>(count: usize, sink: &mut W)
    ensures { Puts W.taken W.failed sink.old sink.new (count_line count) }
{
    let mut buffer = Buffer::new();
    let count = buffer.format(count).as_bytes();
    put_parts(&[b"TRACE CHANGES ", count, b"\n"], sink);
}

fn write_changes<A: Allocator, W: Sink>(
    plan: &Plan<A>,
    old: &Plan<A>,
    changes: &[WayChange<A>],
    sink: &mut W,
)
    requires { AllByRecursion (AreWaysIn plan.now old.now) changes.now }
    ensures { Puts W.taken W.failed sink.old sink.new
        (flat_map (change_of plan.now old.now) (map calls_of changes.now)) }
{
    for i in 0..changes.len() {
        write_change(plan, old, &changes[i], sink);
    }
}

fn write_change<A: Allocator, W: Sink>(
    plan: &Plan<A>,
    old: &Plan<A>,
    change: &WayChange<A>,
    sink: &mut W,
)
    requires { AreWaysIn plan.now old.now change.now }
    ensures { Puts W.taken W.failed sink.old sink.new
        (change_of plan.now old.now (calls_of change.now)) }
{
    let (ways, were) = (&change.ways, &change.were);
    write_head(b"CODE ", plan, ways.calls.code, ways.calls.exchange, sink);
    write_way(b"FIRST ", plan, ways.calls.exchange, &ways.first, sink);
    write_was(plan, old, change, sink);
    write_only(b"GAINS ", plan, old, &ways.met, &were.met, sink);
    write_only(b"LOSES ", old, plan, &were.met, &ways.met, sink);
}

/// Writes the first way in the old plan, if it is another one.
fn write_was<A: Allocator, W: Sink>(
    plan: &Plan<A>,
    old: &Plan<A>,
    change: &WayChange<A>,
    sink: &mut W,
)
    requires { AreWaysIn plan.now old.now change.now }
    ensures { Puts W.taken W.failed sink.old sink.new
        (was_line plan.now old.now change.now.ways.calls change.now.were.calls) }
{
    let were = &change.were;
    if !is_same_way(plan, old, &change.ways.first, &were.first) {
        write_way(b"WAS ", old, were.calls.exchange, &were.first, sink);
    }
}

/// Writes the exchanges of which none of the other plan has the name, each behind a word.
fn write_only<A: Allocator, W: Sink>(
    word: &[u8],
    plan: &Plan<A>,
    other: &Plan<A>,
    met: &[ExchangeId],
    others: &[ExchangeId],
    sink: &mut W,
)
    ensures { Puts W.taken W.failed sink.old sink.new
        (flat_map (only_line word.now plan.now other.now others.now) met.now) }
{
    for i in 0..met.len() {
        write_if_only(word, plan, other, met[i], others, sink);
    }
}

/// Writes an exchange behind a word, if none of the other plan has its name.
fn write_if_only<A: Allocator, W: Sink>(
    word: &[u8],
    plan: &Plan<A>,
    other: &Plan<A>,
    exchange: ExchangeId,
    others: &[ExchangeId],
    sink: &mut W,
)
    ensures { Puts W.taken W.failed sink.old sink.new
        (only_line word.now plan.now other.now others.now exchange) }
{
    let name = plan.exchange_name(exchange);
    if !is_named(other, others, name) {
        put_parts(&[word, name, b"\n"], sink);
    }
}
