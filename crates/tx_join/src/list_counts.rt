// How many lists are new, change and go.
ghost use Rattle.std.specs.Prelude.{◌≡◌, ◌≤◌, false, not, length, slice_get};
ghost use Rattle.std.specs.Option.{option_map_or};
ghost use Rattle.tx_text.specs.Puts.{Puts};
ghost use Rattle.tx_join.specs.Joined.{has_both, routes_alone};
ghost use Rattle.tx_join.specs.ListCounts.{have_same_names, is_same_list, is_changed, changed_at, changed_in, counts_line, lists_line};

use crate::naming::{code_in, exchange_in, has_both};
use itoa::Buffer;
use std::alloc::Allocator;
use tx_plan::{CodeId, ExchangeId, GroupId, Plan};
use tx_text::{Sink, put_parts};

/// Writes the line that counts the lists which are new, change and go.
pub fn write_list_counts<A: Allocator, W: Sink>(old: &Plan<A>, new: &Plan<A>, sink: &mut W)
    ensures { Puts W.taken W.failed sink.old sink.new (lists_line old.now new.now) }
{
    let put = count_alone(new, old);
    let changed = count_changed(old, new);
    let gone = count_alone(old, new);
    write_counts(put, changed, gone, sink);
}

/// Writes the line that has these counts.
fn write_counts<W: Sink>(put: usize, changed: usize, gone: usize, sink: &mut W)
    ensures { Puts W.taken W.failed sink.old sink.new (counts_line put changed gone) }
{
    let mut buffers = (Buffer::new(), Buffer::new(), Buffer::new(), Buffer::new());
    let all = put as u128 + changed as u128 + gone as u128;
    let all = buffers.0.format(all).as_bytes();
    let put = buffers.1.format(put).as_bytes();
    let changed = buffers.2.format(changed).as_bytes();
    let gone = buffers.3.format(gone).as_bytes();
    put_parts(
        &[
            b"LISTS ",
            all,
            b" NEW ",
            put,
            b" CHANGED ",
            changed,
            b" GONE ",
            gone,
            b"\n",
        ],
        sink,
    );
}

/// How many lists a plan has for an exchange or a code that the other plan does not have.
fn count_alone<A: Allocator>(plan: &Plan<A>, other: &Plan<A>) -> usize
    ensures { result ≡ length (routes_alone plan.now other.now) }
{
    let mut count = 0;
    for index in 0..plan.routes() {
        if is_alone_at(plan, other, index) {
            count += 1;
        }
    }
    count
}

/// Whether the list at an index is one of these.
fn is_alone_at<A: Allocator>(plan: &Plan<A>, other: &Plan<A>, index: usize) -> bool
    ensures { result ≡ option_map_or (λ r. not (has_both other.now plan.now r.exchange r.code))
        (slice_get plan.now.routes index) false }
{
    match plan.route_at(index) {
        Some((exchange, code)) => !has_both(other, plan, exchange, code),
        None => false,
    }
}

/// How many lists change from a plan to another one.
fn count_changed<A: Allocator>(plan: &Plan<A>, other: &Plan<A>) -> usize
    ensures { result ≡ changed_in plan.now other.now }
{
    let mut count = 0;
    for index in 0..plan.exchanges() {
        count += count_changed_at(plan, other, ExchangeId::of(index));
    }
    count
}

/// How many change at an exchange.
fn count_changed_at<A: Allocator>(plan: &Plan<A>, other: &Plan<A>, exchange: ExchangeId) -> usize
    ensures count { result ≡ changed_at plan.now other.now exchange }
    ensures few { result ≤ 1100 }
{
    let mut count = 0;
    for index in 0..plan.codes() {
        if is_changed(plan, other, exchange, CodeId::of(index)) {
            count += 1;
        }
    }
    count
}

/// Whether both plans have an exchange and a code, with other lists.
fn is_changed<A: Allocator>(
    plan: &Plan<A>,
    other: &Plan<A>,
    exchange: ExchangeId,
    code: CodeId,
) -> bool
    ensures { result ≡ is_changed plan.now other.now exchange code }
{
    has_both(other, plan, exchange, code) && !is_same_list(plan, other, exchange, code)
}

/// Whether the list of an exchange for a code has the same groups in another plan.
fn is_same_list<A: Allocator>(
    plan: &Plan<A>,
    other: &Plan<A>,
    exchange: ExchangeId,
    code: CodeId,
) -> bool
    ensures { result ≡ is_same_list plan.now other.now exchange code }
{
    let now = other.list(
        exchange_in(other, plan, exchange),
        code_in(other, plan, code),
    );
    have_same_names(plan, other, plan.list(exchange, code), now)
}

/// Whether groups of two plans have the same names.
fn have_same_names<A: Allocator>(
    plan: &Plan<A>,
    other: &Plan<A>,
    groups: &[GroupId],
    others: &[GroupId],
) -> bool
    ensures { result ≡ have_same_names plan.now other.now groups.now others.now }
{
    match groups {
        [] => others.is_empty(),
        [group, groups @ ..] => match others {
            [] => false,
            [same, others @ ..] => {
                plan.group_name(*group) == other.group_name(*same)
                    && have_same_names(plan, other, groups, others)
            }
        },
    }
}
