// The first sheet of the page of a change.
ghost use Rattle.std.specs.Prelude.{◌≡◌, [], ◌∷◌, option_map};
ghost use Rattle.hex.specs.Hex.{encode_lower};
ghost use Rattle.tx_html.specs.Shows.{Sets};
ghost use Rattle.tx_page_change.specs.Counts.{circuits_in};
ghost use Rattle.tx_page.specs.Decision.{sizes_texts, measures_texts, summary_texts, date_texts, worst_texts, both_worst_texts, is_worse_in, compared_texts, sources_texts, decision_texts};
ghost use Rattle.tx_page_change.specs.Numbers.{numbers_of, most_cut};

use crate::heading::{
    write_figures, write_promise, write_start, write_verdict, write_version, write_warning,
};
use crate::outages::{kind_of, name_of};
use crate::subject::Subject;
use std::alloc::Allocator;
use tx_html::{PageSink, Part, set};
use tx_page_change::{
    Change, Numbers, are_worse, count_circuits, count_lines, count_origins, has_way, is_any,
    numbers_of, worst_of, write_label, write_measure, write_outcomes, write_pair, write_way,
};
use tx_plan::Plan;
use tx_risk::{Outcome, Risks};

const TABLE: &str = "<div class=\"t d\"><table><thead><tr><th scope=\"col\">The plans</th><th \
scope=\"col\" class=\"k\">Before</th><th scope=\"col\" class=\"k\">After</th><th \
scope=\"col\">After is</th></tr></thead><tbody>";

/// Writes the first sheet of a change: both names, the verdict, what each plan comes to, the way from
/// the one to the other, and what was judged.
pub fn write_decision<A: Allocator, W: PageSink>(
    subject: &Subject<'_, A>,
    change: &Change<'_, A>,
    safe: bool,
    sink: &mut W,
)
    ensures { Sets W.seen sink.old sink.new (decision_texts subject.now change.now safe) }
{
    let (old, new) = (numbers_of(&change.old), numbers_of(&change.new));
    let worse = is_worse_in(change, old, new);
    write_start(subject.name, safe, sink);
    write_replaced(change.name, sink);
    write_warning(count_lines(subject.plan), sink);
    write_verdict(
        class_of(safe, !worse && has_way(change, safe)),
        safe,
        subject.limits,
        sink,
    );
    write_promise(safe, subject.limits, sink);
    write_summary(worse, sink);
    write_compared(subject.risks, change, old, new, safe, sink);
    write_sources(subject, change, sink);
}

/// Whether something is worse than in the old plan.
fn is_worse_in<A: Allocator>(change: &Change<'_, A>, old: Numbers, new: Numbers) -> bool
    requires old { old ≡ numbers_of change.now.old }
    requires new { new ≡ numbers_of change.now.new }
    ensures { result ≡ is_worse_in change.now }
{
    are_worse(old, new) || is_any(change.worse)
}

/// How the verdict looks: as one to agree to only if all is well.
fn class_of(safe: bool, well: bool) -> &'static str {
    if !safe {
        "no"
    } else if well {
        "yes"
    } else {
        "but"
    }
}

/// Writes which plan is in force.
fn write_replaced<W: PageSink>(name: &[u8], sink: &mut W)
    ensures { Sets W.seen sink.old sink.new (name.now ∷ []) }
{
    set(
        &[
            Part::Own("<p>In place of <b>"),
            Part::Text(name),
            Part::Own("</b>, the plan before</p>"),
        ],
        sink,
    );
}

/// Writes whether the new plan is worse in something.
fn write_summary<W: PageSink>(worse: bool, sink: &mut W)
    ensures { Sets W.seen sink.old sink.new (summary_texts worse) }
{
    set(
        &[
            Part::Own(if worse { "<p class=\"warn\">" } else { "<p>" }),
            Part::Own("By this table the plan is "),
            Part::Text(if worse { b"worse" } else { b"not worse" }),
            Part::Own(" than the plan before.</p>"),
        ],
        sink,
    );
}

/// Writes what each plan comes to, and the way.
fn write_compared<A: Allocator, W: PageSink>(
    risks: &Risks<A>,
    change: &Change<'_, A>,
    old: Numbers,
    new: Numbers,
    safe: bool,
    sink: &mut W,
)
    requires old { old ≡ numbers_of change.now.old }
    requires new { new ≡ numbers_of change.now.new }
    ensures { Sets W.seen sink.old sink.new (compared_texts safe risks.now change.now) }
{
    write_sizes(change.old.plan, change.new.plan, sink);
    write_measures(old, new, sink);
    write_both_worst(risks, change, old, new, sink);
    write_outcomes(change.worse, change.better, sink);
    write_way(change, safe, sink);
}

fn write_sizes<A: Allocator, W: PageSink>(old: &Plan<A>, new: &Plan<A>, sink: &mut W)
    ensures { Sets W.seen sink.old sink.new (sizes_texts old.now new.now) }
{
    set(&[Part::Own(TABLE)], sink);
    write_pair(
        "Exchanges",
        old.exchanges() as u64,
        new.exchanges() as u64,
        sink,
    );
    write_pair("Codes", old.codes() as u64, new.codes() as u64, sink);
    write_pair("Groups", old.groups() as u64, new.groups() as u64, sink);
    write_pair("Circuits", count_circuits(old), count_circuits(new), sink);
    write_pair("Lists", old.routes() as u64, new.routes() as u64, sink);
    write_pair("Lines", count_lines(old), count_lines(new), sink);
    write_pair(
        "Exchanges where calls start",
        count_origins(old),
        count_origins(new),
        sink,
    );
}

fn write_measures<W: PageSink>(old: Numbers, new: Numbers, sink: &mut W)
    ensures { Sets W.seen sink.old sink.new (measures_texts old new) }
{
    write_measure("Least transit limit", true, old.limit, new.limit, sink);
    write_measure("Greatest spare number", false, old.spare, new.spare, sink);
    write_measure(
        "Outages that cut somebody off",
        true,
        old.cutting,
        new.cutting,
        sink,
    );
    write_measure(
        "Outages that lead somebody astray",
        true,
        old.straying,
        new.straying,
        sink,
    );
}

/// Writes the worst outage of both plans, with the lines that it cuts off.
fn write_both_worst<A: Allocator, W: PageSink>(
    risks: &Risks<A>,
    change: &Change<'_, A>,
    old: Numbers,
    new: Numbers,
    sink: &mut W,
)
    requires old { old ≡ numbers_of change.now.old }
    requires new { new ≡ numbers_of change.now.new }
    ensures { Sets W.seen sink.old sink.new
        (both_worst_texts risks.now change.now.old change.now.new) }
{
    write_label("The worst outage", sink);
    write_worst(
        change.old.plan,
        risks,
        worst_of(&change.old, old.lines),
        sink,
    );
    write_worst(
        change.new.plan,
        risks,
        worst_of(&change.new, new.lines),
        sink,
    );
    set(&[Part::Own("<td></td></tr>")], sink);
    write_measure(
        "Lines that it cuts off from some code",
        true,
        old.lines,
        new.lines,
        sink,
    );
}

/// Writes the worst outage of a plan, or that there is none.
fn write_worst<'a, A: Allocator, W: PageSink>(
    plan: &'a Plan<A>,
    risks: &'a Risks<A>,
    worst: Option<&'a Outcome<A>>,
    sink: &mut W,
)
    ensures { Sets W.seen sink.old sink.new
        (worst_texts plan.now risks.now (option_map (λ o. o.now) worst.entry)) }
{
    match worst {
        Some(outcome) => set(
            &[
                Part::Own("<td class=\"k\">"),
                Part::Text(kind_of(&outcome.outage)),
                Part::Own(" "),
                Part::Text(name_of(plan, risks, &outcome.outage)),
                Part::Own("</td>"),
            ],
            sink,
        ),
        None => set(
            &[
                Part::Own("<td class=\"k\">"),
                Part::Text(b"none"),
                Part::Own("</td>"),
            ],
            sink,
        ),
    }
}

/// Writes the digests of both texts, when they were judged, and the version of the program.
fn write_sources<A: Allocator, W: PageSink>(
    subject: &Subject<'_, A>,
    change: &Change<'_, A>,
    sink: &mut W,
)
    ensures { Sets W.seen sink.old sink.new (sources_texts subject.now change.now) }
{
    write_figures(
        "<p class=\"m\">SHA-256 of the plan before <code>",
        &change.digest,
        sink,
    );
    write_figures(
        "</code><br>SHA-256 of this plan <code>",
        &subject.digest,
        sink,
    );
    write_date(change.date, sink);
    write_version(" by telexplan ", subject.version, sink);
}

fn write_date<W: PageSink>(date: Option<[u8; 29]>, sink: &mut W)
    ensures { Sets W.seen sink.old sink.new (date_texts date) }
{
    match date {
        Some(date) => set(&[Part::Own("</code><br>judged "), Part::Text(&date)], sink),
        None => set(
            &[
                Part::Own("</code><br>judged at a time that is "),
                Part::Text(b"unknown"),
            ],
            sink,
        ),
    }
}
