// The writers of lists that are other ones than before.
#![tactic(auto, using(crate::proofs::Texts::putting))]

ghost use Rattle.std.specs.Prelude.{◌<◌, ◌++◌, codes};
ghost use Rattle.tx_text.specs.Puts.{Puts};
ghost use Rattle.tx_plan.specs.Routes.{route_list};
ghost use Rattle.tx_plantext.specs.ChangedLists.{list_line, was_line, change_line, code_changes, changes};

use crate::plan_writer::{write_group_names, write_route};
use std::alloc::Allocator;
use tx_plan::{CodeId, ExchangeId, GroupId, Pair, Plan, Routes};
use tx_text::{Sink, put_bytes, put_parts};

/// Writes each list of a plan that is another one than before, with the one before if that is asked
/// for.
pub fn write_changes<A: Allocator, W: Sink>(before: &Routes<A>, plan: &Plan<A>, sink: &mut W)
    ensures { Puts W.taken W.failed sink.old sink.new
        (changes before.now plan.now) }
{
    for index in 0..plan.codes() {
        write_code_changes(before, plan, CodeId::of(index), sink);
    }
}

/// Those of one code.
fn write_code_changes<A: Allocator, W: Sink>(
    before: &Routes<A>,
    plan: &Plan<A>,
    code: CodeId,
    sink: &mut W,
)
    ensures { Puts W.taken W.failed sink.old sink.new
        (code_changes before.now plan.now code) }
{
    for index in 0..plan.exchanges() {
        write_change(before, plan, code, ExchangeId::of(index), sink);
    }
}

/// Writes the list of an exchange for a code, if it is another one than before.
fn write_change<A: Allocator, W: Sink>(
    before: &Routes<A>,
    plan: &Plan<A>,
    code: CodeId,
    exchange: ExchangeId,
    sink: &mut W,
)
    ensures { Puts W.taken W.failed sink.old sink.new
        (change_line before.now plan.now code exchange) }
{
    let old = before.list(&Pair { exchange, code });
    if old == plan.list(exchange, code) {
        return;
    }
    write_new_list(plan, code, exchange, old, sink);
}

/// Writes the list of an exchange for a code, or that it needs none, and the list that it replaces.
pub fn write_new_list<A: Allocator, W: Sink>(
    plan: &Plan<A>,
    code: CodeId,
    exchange: ExchangeId,
    old: &[GroupId],
    sink: &mut W,
)
    ensures { Puts W.taken W.failed sink.old sink.new
        (list_line plan.now code exchange (route_list plan.now exchange code)
        ++ was_line plan.now old.now) }
{
    write_list(plan, code, exchange, sink);
    write_was(plan, old, sink);
}

/// Writes the list of an exchange for a code, or that it needs none.
fn write_list<A: Allocator, W: Sink>(
    plan: &Plan<A>,
    code: CodeId,
    exchange: ExchangeId,
    sink: &mut W,
)
    ensures { Puts W.taken W.failed sink.old sink.new
        (list_line plan.now code exchange (route_list plan.now exchange code)) }
{
    if plan.list(exchange, code).is_empty() {
        let name = plan.exchange_name(exchange);
        let figures = plan.code_figures(code);
        put_parts(&[b"DROP ", name, b" ", figures, b"\n"], sink)
    } else {
        write_route(plan, exchange, code, sink)
    }
}

/// Writes the list that was there before.
fn write_was<A: Allocator, W: Sink>(plan: &Plan<A>, groups: &[GroupId], sink: &mut W)
    ensures { Puts W.taken W.failed sink.old sink.new (was_line plan.now groups.now) }
{
    put_bytes(b"WAS", sink);
    write_group_names(plan, groups, sink);
}
