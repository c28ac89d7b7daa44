// The writer of what calls came to that were set up one after another.
ghost use Rattle.std.specs.Prelude.{◌++◌, codes};
ghost use Rattle.std.specs.List.{flat_map};
ghost use Rattle.tx_text.specs.Puts.{Puts};
ghost use Rattle.tx_text.specs.Wrote.{Wrote};
ghost use Rattle.tx_fill.specs.FillText.{calls_line, next_line, full_line, fill_text};

use crate::filling::Fill;
use itoa::Buffer;
use std::alloc::Allocator;
use tx_machine::Cause;
use tx_plan::{CodeId, ExchangeId, GroupId, Plan};
use tx_text::{Sink, WriteFault, finish, put_bytes, put_parts};
use tx_tickets::cause_word;
use tx_trace::{write_down, write_head};

/// Writes what was asked, how many calls stand, how the next one was answered, and the groups that
/// are full.
pub fn write_fill<A: Allocator, W: Sink>(
    plan: &Plan<A>,
    down: &[GroupId],
    code: CodeId,
    exchange: ExchangeId,
    found: &Fill<A>,
    sink: &mut W,
) -> Result<(), WriteFault>
    ensures { Wrote W.taken W.failed sink.old sink.new
        (fill_text plan.now down.now code exchange found.now) result }
{
    write_head(b"FILL ", plan, code, exchange, sink);
    write_down(plan, down, sink);
    write_calls(found.calls, sink);
    write_next(plan, found.next, sink);
    write_all_full(plan, &found.full, sink);
    finish(sink)
}

fn write_calls<W: Sink>(calls: u64, sink: &mut W)
    ensures { Puts W.taken W.failed sink.old sink.new
        (calls_line calls) }
{
    let mut buffer = Buffer::new();
    let calls = buffer.format(calls).as_bytes();
    put_parts(&[b"CALLS ", calls, b"\n"], sink);
}

/// Writes how the next call was answered, and where; or that no line was left for it.
fn write_next<A: Allocator, W: Sink>(
    plan: &Plan<A>,
    next: Option<(Cause, ExchangeId)>,
    sink: &mut W,
)
    ensures { Puts W.taken W.failed sink.old sink.new (next_line plan.now next) }
{
    match next {
        Some((cause, exchange)) => {
            write_answer(cause_word(cause), plan.exchange_name(exchange), sink)
        }
        None => put_bytes(b"NO LINE\n", sink),
    }
}

/// Writes an answer, and the name of the exchange where it was given.
fn write_answer<'a, W: Sink>(answer: &'a [u8], name: &'a [u8], sink: &mut W)
    ensures { Puts W.taken W.failed sink.old sink.new (codes "ANSWERED "
        ++ (answer.entry.now ++ (codes " AT " ++ (name.entry.now ++ codes "\n")))) }
{
    put_parts(&[b"ANSWERED ", answer, b" AT ", name, b"\n"], sink);
}

#[tactic(auto, using(tx_text::proofs::Putting::puts_none, tx_text::proofs::Putting::puts_more, tx_text::proofs::Putting::puts_all))]
fn write_all_full<A: Allocator, W: Sink>(plan: &Plan<A>, full: &[GroupId], sink: &mut W)
    ensures { Puts W.taken W.failed sink.old sink.new
        (flat_map (full_line plan.now) full.now) }
{
    for i in 0..full.len() {
        put_parts(&[b"FULL ", plan.group_name(full[i]), b"\n"], sink);
    }
}
