// How many starts each outage cuts off, and all of them.
ghost use Rattle.std.specs.Prelude.{◌≡◌};
ghost use Rattle.std.specs.List.{flat_map};
ghost use Rattle.tx_text.specs.Puts.{Puts};
ghost use Rattle.tx_rank.specs.Report.{verdict_line};
ghost use Rattle.tx_risk_report.specs.OutageReport.{is_of, is_harmless, kind_word, harmless_line, harmless_of, harmless_text, cut_off, astray, counts_text, total_text, count_of};

use crate::outage_report::write_outage;
use itoa::Buffer;
use std::alloc::Allocator;
use tx_plan::Plan;
use tx_risk::{Cut, Outage, Outcome, Risks};
use tx_text::{Sink, put_bytes, put_parts};

/// Writes the totals of each outage that cuts somebody off.
pub(crate) fn write_totals<A: Allocator, W: Sink>(
    plan: &Plan<A>,
    risks: &Risks<A>,
    outcomes: &[Outcome<A>],
    sink: &mut W,
)
    ensures { Puts W.taken W.failed sink.old sink.new
        (flat_map (total_text plan.now risks.now) outcomes.now) }
{
    for i in 0..outcomes.len() {
        write_total(plan, risks, &outcomes[i], sink);
    }
}

fn write_total<A: Allocator, W: Sink>(
    plan: &Plan<A>,
    risks: &Risks<A>,
    outcome: &Outcome<A>,
    sink: &mut W,
)
    ensures { Puts W.taken W.failed sink.old sink.new
        (total_text plan.now risks.now outcome.now) }
{
    if is_harmless(outcome) {
        return;
    }
    write_outage(plan, risks, &outcome.outage, sink);
    write_counts(&outcome.cuts, sink);
    put_bytes(b"\n", sink);
}

/// Writes how many starts are cut off, without a way home and with one.
pub(crate) fn write_counts<W: Sink>(cuts: &[Cut], sink: &mut W)
    ensures { Puts W.taken W.failed sink.old sink.new (counts_text cuts.now) }
{
    let mut cut = Buffer::new();
    let mut stray = Buffer::new();
    let cut = cut.format(count_cut(cuts)).as_bytes();
    let stray = stray.format(count_stray(cuts)).as_bytes();
    put_parts(&[b" CUT ", cut, b" STRAY ", stray], sink);
}

/// How many starts are cut off without a way home.
pub fn count_cut(cuts: &[Cut]) -> usize
    ensures { result ≡ cut_off cuts.now }
{
    cuts.iter().filter(|cut| !cut.stray).count()
}

/// How many with one.
pub fn count_stray(cuts: &[Cut]) -> usize
    ensures { result ≡ astray cuts.now }
{
    cuts.iter().filter(|cut| cut.stray).count()
}

/// Writes how many outages of each kind cut nobody off.
pub(crate) fn write_harmless<A: Allocator, W: Sink>(outcomes: &[Outcome<A>], sink: &mut W)
    ensures { Puts W.taken W.failed sink.old sink.new
        (harmless_text outcomes.now) }
{
    write_harmless_line(Kind::Risks, count_harmless(outcomes, Kind::Risks), sink);
    write_harmless_line(Kind::Groups, count_harmless(outcomes, Kind::Groups), sink);
    write_harmless_line(
        Kind::Exchanges,
        count_harmless(outcomes, Kind::Exchanges),
        sink,
    );
}

/// The word for outages of a kind, and its blank.
fn kind_word(kind: Kind) -> &'static [u8]
    ensures { result.now ≡ kind_word kind }
{
    match kind {
        Kind::Risks => b"RISKS ",
        Kind::Groups => b"GROUPS ",
        Kind::Exchanges => b"EXCHANGES ",
    }
}

/// Writes how many outages of a kind cut nobody off, if some do not.
pub(crate) fn write_harmless_line<W: Sink>(kind: Kind, count: usize, sink: &mut W)
    ensures { Puts W.taken W.failed sink.old sink.new
        (harmless_line kind count) }
{
    if count == 0 {
        return;
    }
    let mut buffer = Buffer::new();
    let count = buffer.format(count).as_bytes();
    put_parts(&[kind_word(kind), count, b" CUT 0\n"], sink);
}

/// How many outages of a kind cut nobody off.
pub(crate) fn count_harmless<A: Allocator>(outcomes: &[Outcome<A>], kind: Kind) -> usize
    ensures { result ≡ harmless_of kind outcomes.now }
{
    outcomes
        .iter()
        .filter(|outcome| is_of(kind, &outcome.outage) && is_harmless(outcome))
        .count()
}

/// A kind of outages.
#[derive(Clone, Copy)]
pub enum Kind {
    Risks,
    Groups,
    Exchanges,
}

/// Whether an outage is of a kind.
pub(crate) fn is_of(kind: Kind, outage: &Outage) -> bool
    ensures { result ≡ is_of kind outage.now }
{
    match outage {
        Outage::Named(_) => matches!(kind, Kind::Risks),
        Outage::Group(_) => matches!(kind, Kind::Groups),
        Outage::Exchange(_) => matches!(kind, Kind::Exchanges),
    }
}

/// Whether an outage cuts nobody off.
pub fn is_harmless<A: Allocator>(outcome: &Outcome<A>) -> bool
    ensures { result ≡ is_harmless outcome.now }
{
    outcome.cuts.is_empty()
}

/// How many starts all outages cut off.
pub(crate) fn count_all<A: Allocator>(outcomes: &[Outcome<A>]) -> u128
    ensures { result ≡ count_of outcomes.now }
{
    let mut count: u128 = 0;
    for i in 0..outcomes.len() {
        count += outcomes[i].cuts.len() as u128;
    }
    count
}

/// Writes the verdict: YES, or NO with a number that is not zero.
pub(crate) fn write_verdict<W: Sink>(count: u128, sink: &mut W)
    ensures { Puts W.taken W.failed sink.old sink.new (verdict_line count) }
{
    if count == 0 {
        put_bytes(b"VERDICT YES\n", sink)
    } else {
        let mut buffer = Buffer::new();
        let count = buffer.format(count).as_bytes();
        put_parts(&[b"VERDICT NO ", count, b"\n"], sink)
    }
}
