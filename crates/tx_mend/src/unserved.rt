// The report of a plan for which no routes can be certified.
#![tactic(auto, using(tx_text::proofs::Putting::puts_none, tx_text::proofs::Putting::puts_more, tx_text::proofs::Putting::puts_all))]

ghost use Rattle.std.specs.Prelude.{◌≡◌, ◌+◌};
ghost use Rattle.std.specs.List.{flat_map};
ghost use Rattle.tx_text.specs.Puts.{Puts};
ghost use Rattle.tx_mend.specs.MendText.{pair_line, pair_count, unserved_line, unserved_text};

use crate::cause::{Cause, Missing, Unserved};
use crate::code_lines::write_codes;
use itoa::Buffer;
use std::alloc::Allocator;
use tx_plan::{CodeId, Limits, Plan};
use tx_rank::{Finding, write_asked, write_finding, write_no};
use tx_text::{Sink, put_parts};

/// Writes what was asked, the ambiguous pair of codes, each code with the origins that cannot be
/// served for it, a line for each of these codes, and NO with the number of the lines before those.
pub fn write_unserved<A: Allocator, W: Sink>(
    plan: &Plan<A>,
    limits: Limits,
    unserved: &[Unserved],
    missing: &[Missing],
    pair: &Option<(CodeId, CodeId)>,
    sink: &mut W,
)
    ensures { Puts W.taken W.failed sink.old sink.new (unserved_text plan.now
        limits.limit limits.spare unserved.now missing.now pair.now) }
{
    write_asked(b"MEND", limits, sink);
    write_pair(plan, pair, sink);
    write_each(plan, unserved, sink);
    write_codes(plan, unserved, missing, sink);
    write_no(pair_count(pair) + unserved.len(), sink);
}

fn write_pair<A: Allocator, W: Sink>(plan: &Plan<A>, pair: &Option<(CodeId, CodeId)>, sink: &mut W)
    ensures { Puts W.taken W.failed sink.old sink.new
        (pair_line plan.now pair.now) }
{
    match pair {
        Some((shorter, longer)) => {
            let finding: Finding<A> = Finding::Ambiguous(*shorter, *longer);
            write_finding(plan, &finding, sink)
        }
        None => {}
    }
}

fn write_each<A: Allocator, W: Sink>(plan: &Plan<A>, unserved: &[Unserved], sink: &mut W)
    ensures { Puts W.taken W.failed sink.old sink.new
        (flat_map (unserved_line plan.now) unserved.now) }
{
    for i in 0..unserved.len() {
        write_one(plan, unserved[i], sink);
    }
}

fn write_one<A: Allocator, W: Sink>(plan: &Plan<A>, unserved: Unserved, sink: &mut W)
    ensures { Puts W.taken W.failed sink.old sink.new
        (unserved_line plan.now unserved) }
{
    let figures = plan.code_figures(unserved.code);
    let name = plan.exchange_name(unserved.exchange);
    let mut buffer = Buffer::new();
    match unserved.cause {
        Cause::Rank(rank) => {
            let rank = buffer.format(rank).as_bytes();
            put_parts(
                &[b"F5 UNSERVED ", figures, b" ", name, b" RANK ", rank, b"\n"],
                sink,
            )
        }
        Cause::Groups(groups) => {
            let groups = buffer.format(groups).as_bytes();
            put_parts(
                &[
                    b"F5 UNSERVED ",
                    figures,
                    b" ",
                    name,
                    b" GROUPS ",
                    groups,
                    b"\n",
                ],
                sink,
            )
        }
    }
}

/// How many lines the ambiguous pair has.
fn pair_count(pair: &Option<(CodeId, CodeId)>) -> usize
    ensures { result ≡ pair_count pair.now }
{
    match pair {
        Some(_) => 1,
        None => 0,
    }
}
