// What outages cut off.
ghost use Rattle.std.specs.Prelude.{◌≡◌, length, count_by};
ghost use Rattle.std.specs.List.{flat_map};
ghost use Rattle.tx_html.specs.Shows.{Sets};
ghost use Rattle.tx_svg.specs.Indexed.{texts_below};
ghost use Rattle.tx_risk_report.specs.OutageReport.{is_harmless};
ghost use Rattle.tx_page.specs.OutageTexts.{outage_kind, outage_name, unknown_texts, cut_texts, outcome_texts, shown_texts, total_texts, tried_texts, outages_texts};

use std::alloc::Allocator;
use tx_html::{PageSink, Part, set};
use tx_plan::Plan;
use tx_risk::{Cut, Outage, Outcome, Risks};
use tx_risk_report::{count_cut, count_stray, is_harmless};

/// Writes each outage that cuts somebody off, with those that it cuts off, and how many do not; or
/// that the plan has no grade.
pub fn write_outages<A: Allocator, W: PageSink>(
    plan: &Plan<A>,
    risks: &Risks<A>,
    outcomes: &[Outcome<A>],
    graded: bool,
    sink: &mut W,
)
    ensures { Sets W.seen sink.old sink.new
        (outages_texts plan.now risks.now outcomes.now graded) }
{
    if graded {
        write_graded(plan, risks, outcomes, sink)
    } else {
        set(&[Part::Own(UNGRADED)], sink)
    }
}

/// Writes the outages of a plan that has a grade.
fn write_graded<A: Allocator, W: PageSink>(
    plan: &Plan<A>,
    risks: &Risks<A>,
    outcomes: &[Outcome<A>],
    sink: &mut W,
)
    ensures { Sets W.seen sink.old sink.new
        (tried_texts plan.now risks.now outcomes.now) }
{
    write_tried(outcomes, sink);
    write_unknown(risks, sink);
    write_outcomes(plan, risks, outcomes, sink);
}

const TRIED: &str =
    " outages were tried: each group, each exchange and each named risk alone. Outages \
that cut nobody off and lead nobody astray: ";

const OTHERS: &str = ". Below are the others. Cut off: no way home is left from where calls start. \
Astray: one is left, and also one to an exchange that has no group left. Calls that start at an exchange \
that fails, and calls for codes at home there, are not counted.</p>";

const PARTLY: &str = "</b> names groups that the plan has not.</p>";

const UNGRADED: &str = "<h2>Outages</h2><p>The plan has no grade: it is safe for no limit and no \
spare number. So no outage was tried.</p>";

fn write_tried<A: Allocator, W: PageSink>(outcomes: &[Outcome<A>], sink: &mut W)
    ensures { Sets W.seen sink.old sink.new (total_texts outcomes.now) }
{
    set(
        &[
            Part::Own("<h2>Outages</h2><p>"),
            Part::Amount(outcomes.len() as u64),
            Part::Own(TRIED),
            Part::Amount(count_harmless(outcomes) as u64),
            Part::Own(OTHERS),
        ],
        sink,
    );
}

/// How many cut nobody off.
fn count_harmless<A: Allocator>(outcomes: &[Outcome<A>]) -> usize
    ensures { result ≡ count_by is_harmless outcomes.now }
{
    outcomes
        .iter()
        .filter(|outcome| is_harmless(outcome))
        .count()
}

/// Writes each risk that names groups which the plan has not.
fn write_unknown<A: Allocator, W: PageSink>(risks: &Risks<A>, sink: &mut W)
    ensures { Sets W.seen sink.old sink.new
        (texts_below (length risks.now) (unknown_texts risks.now)) }
{
    for index in 0..risks.len() {
        write_unknown_risk(risks, index, sink);
    }
}

fn write_unknown_risk<A: Allocator, W: PageSink>(risks: &Risks<A>, index: usize, sink: &mut W)
    ensures { Sets W.seen sink.old sink.new (unknown_texts risks.now index) }
{
    if risks.has_unknown(index) {
        let name = risks.name(index);
        set(
            &[
                Part::Own("<p>Risk <b>"),
                Part::Text(name),
                Part::Own(PARTLY),
            ],
            sink,
        );
    }
}

/// Writes each outcome that is shown.
fn write_outcomes<A: Allocator, W: PageSink>(
    plan: &Plan<A>,
    risks: &Risks<A>,
    outcomes: &[Outcome<A>],
    sink: &mut W,
)
    ensures { Sets W.seen sink.old sink.new
        (flat_map (shown_texts plan.now risks.now) outcomes.now) }
{
    for i in 0..outcomes.len() {
        write_shown(plan, risks, &outcomes[i], sink);
    }
}

/// What kind of thing fails.
pub(crate) fn kind_of(outage: &Outage) -> &'static [u8]
    ensures { result.now ≡ outage_kind outage.now }
{
    match outage {
        Outage::Group(_) => b"Group",
        Outage::Exchange(_) => b"Exchange",
        Outage::Named(_) => b"Risk",
    }
}

/// The name of what fails.
pub(crate) fn name_of<'a, A: Allocator>(
    plan: &'a Plan<A>,
    risks: &'a Risks<A>,
    outage: &Outage,
) -> &'a [u8]
    ensures { result.now ≡ outage_name plan.now risks.now outage.now }
{
    match outage {
        Outage::Group(group) => plan.group_name(*group),
        Outage::Exchange(exchange) => plan.exchange_name(*exchange),
        Outage::Named(index) => risks.name(*index),
    }
}

/// Writes an outcome, if it cuts somebody off.
fn write_shown<'a, A: Allocator, W: PageSink>(
    plan: &'a Plan<A>,
    risks: &'a Risks<A>,
    outcome: &Outcome<A>,
    sink: &mut W,
)
    ensures { Sets W.seen sink.old sink.new
        (shown_texts plan.now risks.now outcome.now) }
{
    if !is_harmless(outcome) {
        write_outcome(plan, risks, outcome, sink);
    }
}

/// Writes an outage with its cuts.
fn write_outcome<'a, A: Allocator, W: PageSink>(
    plan: &'a Plan<A>,
    risks: &'a Risks<A>,
    outcome: &Outcome<A>,
    sink: &mut W,
)
    ensures { Sets W.seen sink.old sink.new
        (outcome_texts plan.now risks.now outcome.now) }
{
    set(
        &[
            Part::Own("<details><summary>"),
            Part::Text(kind_of(&outcome.outage)),
            Part::Own(" <b>"),
            Part::Text(name_of(plan, risks, &outcome.outage)),
            Part::Own("</b>: "),
            Part::Amount(count_cut(&outcome.cuts) as u64),
            Part::Own(" cut off, "),
            Part::Amount(count_stray(&outcome.cuts) as u64),
            Part::Own(" astray</summary><ul class=\"c\">"),
        ],
        sink,
    );
    write_cuts(plan, &outcome.cuts, sink);
    set(&[Part::Own("</ul></details>")], sink);
}

/// Writes the cuts of an outage.
fn write_cuts<A: Allocator, W: PageSink>(plan: &Plan<A>, cuts: &[Cut], sink: &mut W)
    ensures { Sets W.seen sink.old sink.new
        (flat_map (cut_texts plan.now) cuts.now) }
{
    for i in 0..cuts.len() {
        write_cut(plan, &cuts[i], sink);
    }
}

fn write_cut<A: Allocator, W: PageSink>(plan: &Plan<A>, cut: &Cut, sink: &mut W)
    ensures { Sets W.seen sink.old sink.new (cut_texts plan.now cut.now) }
{
    set(
        &[
            Part::Own(if cut.stray {
                "<li class=\"s\">"
            } else {
                "<li>"
            }),
            Part::Text(plan.code_figures(cut.code)),
            Part::Own(" from "),
            Part::Text(plan.exchange_name(cut.start)),
            Part::Own(" "),
            Part::Text(if cut.stray { b"astray" } else { b"cut off" }),
            Part::Own("</li>"),
        ],
        sink,
    );
}
