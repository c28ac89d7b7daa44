// What is wrong with a plan.
ghost use Rattle.std.specs.Prelude.{[], ◌∷◌, map};
ghost use Rattle.tx_plan.specs.Plan.{figures_of, group_name};
ghost use Rattle.tx_html.specs.Shows.{Sets};
ghost use Rattle.tx_page.specs.WrongTexts.{step_texts, steps_texts, walk_texts, loop_texts, short_texts, long_texts, finding_texts, findings_texts, wrong_texts};

use crate::walks::{listed_before, start_of, steps_of};
use std::alloc::Allocator;
use tx_html::{PageSink, Part, set};
use tx_plan::{CodeId, ExchangeId, GroupId, Limits, Plan};
use tx_rank::{Finding, Ranking, Walk};
use tx_svg::write_groups;

/// Writes what is wrong, if anything is.
pub fn write_wrong<A: Allocator, W: PageSink>(
    plan: &Plan<A>,
    ranking: &Ranking<A>,
    limits: Limits,
    sink: &mut W,
)
    ensures { Sets W.seen sink.old sink.new
        (wrong_texts plan.now limits.spare ranking.now) }
{
    match ranking {
        Ranking::Found(_) => {}
        Ranking::Fails(findings) => write_findings(plan, findings, limits, sink),
    }
}

/// Writes each finding in a sentence, with its walk.
fn write_findings<A: Allocator, W: PageSink>(
    plan: &Plan<A>,
    findings: &[Finding<A>],
    limits: Limits,
    sink: &mut W,
)
    ensures { Sets W.seen sink.old sink.new
        (findings_texts plan.now limits.spare findings.now) }
{
    set(&[Part::Own("<h2>What is wrong</h2><ol class=\"f\">")], sink);
    write_all(plan, findings, limits, sink);
    set(&[Part::Own("</ol>")], sink);
}

fn write_all<A: Allocator, W: PageSink>(
    plan: &Plan<A>,
    findings: &[Finding<A>],
    limits: Limits,
    sink: &mut W,
)
    ensures { Sets W.seen sink.old sink.new
        (findings_texts plan.now limits.spare findings.now) }
{
    for i in 0..findings.len() {
        write_finding(plan, &findings[i], limits, sink);
    }
}

fn write_finding<A: Allocator, W: PageSink>(
    plan: &Plan<A>,
    finding: &Finding<A>,
    limits: Limits,
    sink: &mut W,
)
    ensures { Sets W.seen sink.old sink.new
        (finding_texts plan.now limits.spare finding.now) }
{
    match finding {
        Finding::Ambiguous(shorter, longer) => write_pair(plan, *shorter, *longer, sink),
        Finding::Loop(code, walk) => write_loop(plan, *code, walk, sink),
        Finding::Short(code, walk) => write_short(plan, *code, walk, limits.spare, sink),
        Finding::Long(code, walk) => write_long(plan, *code, walk, sink),
    }
}

fn write_pair<A: Allocator, W: PageSink>(
    plan: &Plan<A>,
    shorter: CodeId,
    longer: CodeId,
    sink: &mut W,
)
    ensures { Sets W.seen sink.old sink.new
        (figures_of plan.now shorter ∷ figures_of plan.now longer ∷ []) }
{
    set(
        &[
            Part::Own("<li>Code "),
            Part::Text(plan.code_figures(shorter)),
            Part::Own(" begins code "),
            Part::Text(plan.code_figures(longer)),
            Part::Own(", so a call for the first may be taken for one for the second.</li>"),
        ],
        sink,
    );
}

fn write_loop<A: Allocator, W: PageSink>(plan: &Plan<A>, code: CodeId, walk: &Walk<A>, sink: &mut W)
    ensures { Sets W.seen sink.old sink.new (loop_texts plan.now code walk.now) }
{
    set(
        &[
            Part::Own("<li>A call for "),
            Part::Text(plan.code_figures(code)),
            Part::Own(" can come back to "),
            Part::Text(plan.exchange_name(walk.end())),
            Part::Own("."),
        ],
        sink,
    );
    write_walk(plan, code, walk, &[], sink);
}

fn write_short<A: Allocator, W: PageSink>(
    plan: &Plan<A>,
    code: CodeId,
    walk: &Walk<A>,
    spare: u8,
    sink: &mut W,
)
    ensures { Sets W.seen sink.old sink.new
        (short_texts plan.now spare code walk.now) }
{
    let end = walk.end();
    let list = plan.list(end, code);
    set(
        &[
            Part::Own("<li>A call for "),
            Part::Text(plan.code_figures(code)),
            Part::Own(" can come to "),
            Part::Text(plan.exchange_name(end)),
            Part::Own(", which does not have more groups to try than are to spare: it has "),
            Part::Count(list.len() as u64),
            Part::Own(", and the spare number is "),
            Part::Count(u64::from(spare)),
            Part::Own("."),
        ],
        sink,
    );
    write_walk(plan, code, walk, list, sink);
}

fn write_long<A: Allocator, W: PageSink>(plan: &Plan<A>, code: CodeId, walk: &Walk<A>, sink: &mut W)
    ensures { Sets W.seen sink.old sink.new (long_texts plan.now code walk.now) }
{
    set(
        &[
            Part::Own("<li>A call for "),
            Part::Text(plan.code_figures(code)),
            Part::Own(" can pass more transits than the limit. Groups on its way: "),
            Part::Count(steps_of(walk).len() as u64),
            Part::Own(". Then it is at "),
            Part::Text(plan.exchange_name(walk.end())),
            Part::Own(", and not yet at the home "),
            Part::Text(plan.exchange_name(plan.home(code))),
            Part::Own("."),
        ],
        sink,
    );
    write_walk(plan, code, walk, &[], sink);
}

/// Writes a walk as boxes with arrows. Below each exchange are the groups that have no free circuit
/// while the call stands there: those before the one by which it goes on, and where it ends these.
fn write_walk<A: Allocator, W: PageSink>(
    plan: &Plan<A>,
    code: CodeId,
    walk: &Walk<A>,
    full: &[GroupId],
    sink: &mut W,
)
    ensures { Sets W.seen sink.old sink.new
        (walk_texts plan.now code walk.now full.now) }
{
    set(&[Part::Own("<ol class=\"w\">")], sink);
    write_steps(plan, code, start_of(walk), steps_of(walk), sink);
    write_full(plan, full, sink);
    set(&[Part::Own("</li></ol></li>")], sink);
}

/// Writes the steps of a walk, and the exchange where it ends.
fn write_steps<A: Allocator, W: PageSink>(
    plan: &Plan<A>,
    code: CodeId,
    start: ExchangeId,
    steps: &[(GroupId, ExchangeId)],
    sink: &mut W,
)
    ensures { Sets W.seen sink.old sink.new
        (steps_texts plan.now code start steps.now) }
{
    let mut at = start;
    for i in 0..steps.len() {
        let step = steps[i];
        write_step(plan, code, at, step.0, sink);
        at = step.1;
    }
    set(
        &[
            Part::Own("<li><b>"),
            Part::Text(plan.exchange_name(at)),
            Part::Own("</b>"),
        ],
        sink,
    );
}

fn write_step<A: Allocator, W: PageSink>(
    plan: &Plan<A>,
    code: CodeId,
    from: ExchangeId,
    group: GroupId,
    sink: &mut W,
)
    ensures { Sets W.seen sink.old sink.new
        (step_texts plan.now code from group) }
{
    set(
        &[
            Part::Own("<li><b>"),
            Part::Text(plan.exchange_name(from)),
            Part::Own("</b><span>"),
            Part::Text(plan.group_name(group)),
            Part::Own("</span>"),
        ],
        sink,
    );
    write_full(plan, listed_before(plan.list(from, code), group), sink);
    set(&[Part::Own("</li>")], sink);
}

/// Writes that these groups have no free circuit, if there are any.
fn write_full<A: Allocator, W: PageSink>(plan: &Plan<A>, groups: &[GroupId], sink: &mut W)
    ensures { Sets W.seen sink.old sink.new
        (map (group_name plan.now) groups.now) }
{
    if groups.is_empty() {
        return;
    }
    set(&[Part::Own("<small>without a free circuit: ")], sink);
    write_groups(plan, groups, sink);
    set(&[Part::Own("</small>")], sink);
}
