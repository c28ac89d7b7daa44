// The lines of codes for which something cannot be served.
#![tactic(auto, using(tx_text::proofs::Putting::puts_none, tx_text::proofs::Putting::puts_then, tx_text::proofs::Putting::puts_more, tx_text::proofs::Putting::puts_all, tx_text::proofs::Ranges::index_more, tx_text::proofs::Ranges::indexes_done))]

ghost use Rattle.std.specs.Prelude.{◌≡◌, ◌==◌, length, filter};
ghost use Rattle.std.specs.List.{flat_map};
ghost use Rattle.tx_text.specs.Puts.{Puts};
ghost use Rattle.tx_mend.specs.MendText.{missing_text, missing_for_code, missing_word, missing_of, code_line, code_lines};

use crate::cause::{Missing, Unserved};
use itoa::Buffer;
use std::alloc::Allocator;
use tx_plan::{CodeId, Plan};
use tx_text::{Sink, put_bytes, put_parts};

/// Writes a line for each code of which an origin cannot be served.
pub fn write_codes<A: Allocator, W: Sink>(
    plan: &Plan<A>,
    unserved: &[Unserved],
    missing: &[Missing],
    sink: &mut W,
)
    ensures { Puts W.taken W.failed sink.old sink.new
        (code_lines plan.now unserved.now missing.now) }
{
    for index in 0..plan.codes() {
        write_code(plan, unserved, missing, CodeId::of(index), sink);
    }
}

/// How many of these are of a code.
fn count_of(unserved: &[Unserved], code: CodeId) -> usize
    ensures { result ≡ length (filter (λ u. u.code == code) unserved.now) }
{
    unserved.iter().filter(|one| one.code == code).count()
}

/// Writes the line of one code, if it has one.
fn write_code<A: Allocator, W: Sink>(
    plan: &Plan<A>,
    unserved: &[Unserved],
    missing: &[Missing],
    code: CodeId,
    sink: &mut W,
)
    ensures { Puts W.taken W.failed sink.old sink.new
        (code_line plan.now unserved.now missing.now code) }
{
    let count = count_of(unserved, code);
    if count == 0 {
        return;
    }
    let mut buffer = Buffer::new();
    put_bytes(b"CODE ", sink);
    put_bytes(plan.code_figures(code), sink);
    put_bytes(b" UNSERVED ", sink);
    put_bytes(buffer.format(count).as_bytes(), sink);
    write_missing(plan, missing, code, sink);
    put_bytes(b"\n", sink);
}

/// Writes where groups are missing for a code, and how many.
fn write_missing<A: Allocator, W: Sink>(
    plan: &Plan<A>,
    missing: &[Missing],
    code: CodeId,
    sink: &mut W,
)
    ensures { Puts W.taken W.failed sink.old sink.new
        (missing_of plan.now missing.now code) }
{
    write_word(missing, code, sink);
    write_groups(plan, missing, code, sink);
}

/// Writes the word before them, if there are any.
fn write_word<W: Sink>(missing: &[Missing], code: CodeId, sink: &mut W)
    ensures { Puts W.taken W.failed sink.old sink.new (missing_word missing.now code) }
{
    if missing.iter().any(|one| one.code == code) {
        put_bytes(b" MISSING", sink);
    }
}

fn write_groups<A: Allocator, W: Sink>(
    plan: &Plan<A>,
    missing: &[Missing],
    code: CodeId,
    sink: &mut W,
)
    ensures { Puts W.taken W.failed sink.old sink.new
        (flat_map (missing_for_code plan.now code) missing.now) }
{
    for i in 0..missing.len() {
        write_for_code(plan, missing[i], code, sink);
    }
}

fn write_for_code<A: Allocator, W: Sink>(
    plan: &Plan<A>,
    missing: Missing,
    code: CodeId,
    sink: &mut W,
)
    ensures { Puts W.taken W.failed sink.old sink.new
        (missing_for_code plan.now code missing) }
{
    if missing.code == code {
        write_one(plan, missing, sink);
    }
}

fn write_one<A: Allocator, W: Sink>(plan: &Plan<A>, missing: Missing, sink: &mut W)
    ensures { Puts W.taken W.failed sink.old sink.new (missing_text plan.now missing) }
{
    let mut buffer = Buffer::new();
    put_bytes(b" ", sink);
    put_bytes(plan.exchange_name(missing.exchange), sink);
    put_bytes(b" ", sink);
    put_bytes(buffer.format(missing.groups).as_bytes(), sink);
}
