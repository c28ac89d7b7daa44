// The writer of what the outages of two plans cut off.
ghost use Rattle.std.specs.Prelude.{◌≡◌, count_by};
ghost use Rattle.std.specs.List.{flat_map};
ghost use Rattle.tx_text.specs.Puts.{Puts};
ghost use Rattle.tx_text.specs.Wrote.{Wrote};
ghost use Rattle.tx_risk.specs.Compared.{AreInOrder};
ghost use Rattle.tx_risk_report.specs.Comparison.{change_word, is_lower, bounds_words, grades_line, cuts_of, legs_of, is_worse, is_better, is_free, compared_total, free_of, free_text, worse_count, compared_text, comparison_text, is_against};

use crate::differing::write_compared_blocks;
use crate::outage_report::{write_head, write_outage};
use crate::totals::{Kind, is_of, write_counts, write_harmless_line, write_verdict};
use itoa::Buffer;
use std::alloc::Allocator;
use tx_plan::Plan;
use tx_rank::{Bounds, Grade, write_grade};
use tx_risk::{Cut, Leg, Outage, Risks, Side, has_worse};
use tx_text::{Sink, WriteFault, finish, put_bytes, put_parts, write_bytes};

/// Two plans, a network that has what either of them has, named risks over it, and the outages of
/// both.
#[derive(Drop)]
pub struct Comparison<'a, A: Allocator> {
    pub network: &'a Plan<A>,
    pub risks: &'a Risks<A>,
    pub outages: &'a [Outage],
    pub new: Side<'a, A>,
    pub old: Side<'a, A>,
}

/// Writes both grades, how many starts each outage cuts off in the new plan and in the old one,
/// where the two differ, and the verdict; or the grade of a plan that has none.
pub fn write_comparison<A: Allocator, W: Sink>(
    comparison: &Comparison<'_, A>,
    new: &Grade<A>,
    old: &Grade<A>,
    sink: &mut W,
) -> Result<(), WriteFault>
    ensures { Wrote W.taken W.failed sink.old sink.new
        (comparison_text comparison.now new.now old.now) result }
{
    match (new.plan, old.plan) {
        (Some(bounds), Some(before)) => {
            write_compared(comparison, bounds, before, sink);
            finish(sink)
        }
        (Some(_), None) => {
            write_bytes(b"WAS ", sink)?;
            write_grade(comparison.old.plan(), old, sink)
        }
        (None, _) => write_grade(comparison.new.plan(), new, sink),
    }
}

/// Whether something is worse in the new plan, or one of the plans has no grade.
pub fn is_against<A: Allocator>(
    comparison: &Comparison<'_, A>,
    new: Option<Bounds>,
    old: Option<Bounds>,
) -> bool
    ensures { result ≡ is_against comparison.now new old }
{
    match (new, old) {
        (Some(new), Some(old)) => count_worse(comparison, new, old) != 0,
        _ => true,
    }
}

fn write_compared<A: Allocator, W: Sink>(
    comparison: &Comparison<'_, A>,
    new: Bounds,
    old: Bounds,
    sink: &mut W,
)
    ensures { Puts W.taken W.failed sink.old sink.new (compared_text comparison.now new old) }
{
    write_head(comparison.risks, comparison.outages.len(), sink);
    write_grades(new, old, sink);
    write_compared_totals(comparison, sink);
    write_free(comparison, sink);
    write_compared_blocks(comparison, sink);
    write_verdict(count_worse(comparison, new, old), sink);
}

/// Writes how the new plan stands to the old one.
fn write_change<W: Sink>(worse: bool, better: bool, sink: &mut W)
    ensures { Puts W.taken W.failed sink.old sink.new (change_word worse better) }
{
    if worse {
        put_bytes(b"WORSE ", sink)
    } else if better {
        put_bytes(b"BETTER ", sink)
    } else {
        put_bytes(b"SAME ", sink)
    }
}

/// Whether a grade is lower than another one.
fn is_lower(a: Bounds, b: Bounds) -> bool
    ensures { result ≡ is_lower a b }
{
    b.limit < a.limit || a.spare < b.spare
}

/// Writes both grades.
fn write_grades<W: Sink>(new: Bounds, old: Bounds, sink: &mut W)
    ensures { Puts W.taken W.failed sink.old sink.new (grades_line new old) }
{
    write_change(is_lower(new, old), is_lower(old, new), sink);
    put_bytes(b"GRADE", sink);
    write_bounds(new, sink);
    put_bytes(b" WAS", sink);
    write_bounds(old, sink);
    put_bytes(b"\n", sink);
}

fn write_bounds<W: Sink>(bounds: Bounds, sink: &mut W)
    ensures { Puts W.taken W.failed sink.old sink.new (bounds_words bounds) }
{
    let mut limit = Buffer::new();
    let mut spare = Buffer::new();
    let limit = limit.format(bounds.limit).as_bytes();
    let spare = spare.format(bounds.spare).as_bytes();
    put_parts(&[b" LIMIT ", limit, b" SPARE ", spare], sink);
}

/// Whether somebody is worse off in the new plan.
pub(crate) fn is_worse<A: Allocator>(comparison: &Comparison<'_, A>, outage: &Outage) -> bool
    ensures { result ≡ is_worse comparison.now outage.now }
{
    let (new, old) = both_cuts(comparison, outage);
    has_worse(comparison.new.plan(), comparison.old.plan(), new, old)
}

/// Whether somebody was worse off in the old plan.
pub(crate) fn is_better<A: Allocator>(comparison: &Comparison<'_, A>, outage: &Outage) -> bool
    ensures { result ≡ is_better comparison.now outage.now }
{
    let (new, old) = both_cuts(comparison, outage);
    has_worse(comparison.old.plan(), comparison.new.plan(), old, new)
}

/// Whether an outage cuts nobody off in either plan.
fn is_free<A: Allocator>(comparison: &Comparison<'_, A>, outage: &Outage) -> bool
    ensures { result ≡ is_free comparison.now outage.now }
{
    let (new, old) = both_cuts(comparison, outage);
    new.is_empty() && old.is_empty()
}

/// Whom an outage cuts off in the new plan, and in the old one.
pub(crate) fn both_cuts<'a, A: Allocator>(
    comparison: &'a Comparison<'_, A>,
    outage: &Outage,
) -> (&'a [Cut], &'a [Cut])
    ensures new { result.0.now ≡ cuts_of comparison.now comparison.now.new outage.now }
    ensures new_order { AreInOrder result.0.now }
    ensures old { result.1.now ≡ cuts_of comparison.now comparison.now.old outage.now }
    ensures old_order { AreInOrder result.1.now }
{
    let (network, risks) = (comparison.network, comparison.risks);
    let new = comparison.new.cuts(network, risks, outage);
    let old = comparison.old.cuts(network, risks, outage);
    (new, old)
}

/// The legs of their walks.
pub(crate) fn both_legs<'a, A: Allocator>(
    comparison: &'a Comparison<'_, A>,
    outage: &Outage,
) -> (&'a [Leg], &'a [Leg])
    ensures new { result.0.now ≡ legs_of comparison.now comparison.now.new outage.now }
    ensures old { result.1.now ≡ legs_of comparison.now comparison.now.old outage.now }
{
    let (network, risks) = (comparison.network, comparison.risks);
    let new = comparison.new.legs(network, risks, outage);
    let old = comparison.old.legs(network, risks, outage);
    (new, old)
}

/// Writes how many starts each outage cuts off, of those that cut somebody off.
fn write_compared_totals<A: Allocator, W: Sink>(comparison: &Comparison<'_, A>, sink: &mut W)
    ensures { Puts W.taken W.failed sink.old sink.new
        (flat_map (compared_total comparison.now) comparison.now.outages.now) }
{
    for i in 0..comparison.outages.len() {
        write_compared_total(comparison, &comparison.outages[i], sink);
    }
}

fn write_compared_total<A: Allocator, W: Sink>(
    comparison: &Comparison<'_, A>,
    outage: &Outage,
    sink: &mut W,
)
    ensures { Puts W.taken W.failed sink.old sink.new
        (compared_total comparison.now outage.now) }
{
    if is_free(comparison, outage) {
        return;
    }
    let (new, old) = both_cuts(comparison, outage);
    let (worse, better) = (is_worse(comparison, outage), is_better(comparison, outage));
    write_change(worse, better, sink);
    write_outage(comparison.network, comparison.risks, outage, sink);
    write_counts(new, sink);
    put_bytes(b" WAS", sink);
    write_counts(old, sink);
    put_bytes(b"\n", sink);
}

/// Writes how many outages of each kind cut nobody off in either plan.
fn write_free<A: Allocator, W: Sink>(comparison: &Comparison<'_, A>, sink: &mut W)
    ensures { Puts W.taken W.failed sink.old sink.new (free_text comparison.now) }
{
    write_harmless_line(Kind::Risks, count_free(comparison, Kind::Risks), sink);
    write_harmless_line(Kind::Groups, count_free(comparison, Kind::Groups), sink);
    write_harmless_line(
        Kind::Exchanges,
        count_free(comparison, Kind::Exchanges),
        sink,
    );
}

fn count_free<A: Allocator>(comparison: &Comparison<'_, A>, kind: Kind) -> usize
    ensures { result ≡ free_of comparison.now kind }
{
    comparison
        .outages
        .iter()
        .filter(|outage| is_of(kind, outage) && is_free(comparison, outage))
        .count()
}

/// After how many outages somebody is worse off in the new plan.
pub fn count_worse_outages<A: Allocator>(comparison: &Comparison<'_, A>) -> usize
    ensures { result ≡ count_by (is_worse comparison.now) comparison.now.outages.now }
{
    comparison
        .outages
        .iter()
        .filter(|outage| is_worse(comparison, outage))
        .count()
}

/// After how many somebody was worse off in the old one.
pub fn count_better_outages<A: Allocator>(comparison: &Comparison<'_, A>) -> usize
    ensures { result ≡ count_by (is_better comparison.now) comparison.now.outages.now }
{
    comparison
        .outages
        .iter()
        .filter(|outage| is_better(comparison, outage))
        .count()
}

/// How many lines say that the new plan is worse.
fn count_worse<A: Allocator>(comparison: &Comparison<'_, A>, new: Bounds, old: Bounds) -> u128
    ensures { result ≡ worse_count comparison.now new old }
{
    count_worse_outages(comparison) as u128 + u128::from(is_lower(new, old))
}
