// The writer of the report of a change.
#![tactic(auto, using(tx_text::proofs::Putting::puts_none, tx_text::proofs::Putting::puts_then, tx_text::proofs::Putting::puts_more, tx_text::proofs::Putting::puts_all))]

ghost use Rattle.std.specs.Prelude.{codes};
ghost use Rattle.tx_text.specs.Puts.{Puts};
ghost use Rattle.tx_text.specs.Wrote.{Wrote};
ghost use Rattle.tx_join.specs.Differences.{differ};
ghost use Rattle.tx_join.specs.Steps.{part};
ghost use Rattle.tx_change.specs.ChangeReport.{switched_lists, finding_after, findings_after, verdict_after, verdict_text, change_report};

use crate::judging::ChangeVerdict;
use std::alloc::Allocator;
use tx_join::{Joined, differ, write_after, write_before, write_list_counts};
use tx_plan::{Limits, Plan};
use tx_plantext::write_changes;
use tx_rank::{Finding, write_asked, write_finding, write_verdict};
use tx_text::{Sink, WriteFault, finish, put_bytes};

/// Writes the report of a change: what was asked, what is done before, the lists that are switched
/// with those that they replace, what is done after, how many lists there are, a line for each
/// finding, and the verdict. The findings of the new plan as it is come after the
/// word NEW.
pub fn write_change<A: Allocator, W: Sink>(
    old: &Plan<A>,
    new: &Plan<A>,
    joined: &Joined<A>,
    verdict: &ChangeVerdict<A>,
    limits: Limits,
    sink: &mut W,
) -> Result<(), WriteFault>
    ensures { Wrote W.taken W.failed sink.old sink.new (change_report old.now new.now
        joined.now.old joined.now.new limits.limit limits.spare verdict.now) result }
{
    write_asked(b"CHANGE", limits, sink);
    write_before(old, new, sink);
    write_switched_lists(old, new, joined, sink);
    write_after(old, new, sink);
    write_list_counts(old, new, sink);
    write_found(new, joined, verdict, sink);
    finish(sink)
}

/// Writes each list that is switched, and the list that it replaces.
fn write_switched_lists<A: Allocator, W: Sink>(
    old: &Plan<A>,
    new: &Plan<A>,
    joined: &Joined<A>,
    sink: &mut W,
)
    ensures { Puts W.taken W.failed sink.old sink.new
        (switched_lists old.now new.now joined.now.old joined.now.new) }
{
    write_switch(old, new, sink);
    write_changes(joined.old.all_routes(), &joined.new, sink);
}

/// Writes the word that begins them, if a part comes before it.
fn write_switch<A: Allocator, W: Sink>(old: &Plan<A>, new: &Plan<A>, sink: &mut W)
    ensures { Puts W.taken W.failed sink.old sink.new
        (part (differ old.now new.now) (codes "SWITCH\n")) }
{
    if differ(old, new) {
        put_bytes(b"SWITCH\n", sink);
    }
}

/// Writes a line for each finding, and the verdict.
fn write_found<A: Allocator, W: Sink>(
    new: &Plan<A>,
    joined: &Joined<A>,
    verdict: &ChangeVerdict<A>,
    sink: &mut W,
)
    ensures { Puts W.taken W.failed sink.old sink.new
        (verdict_text joined.now.old new.now verdict.now) }
{
    match verdict {
        ChangeVerdict::Sound(_) => write_verdict(0, sink),
        ChangeVerdict::Unsound(findings) => write_verdict_after(b"", &joined.old, findings, sink),
        ChangeVerdict::NewUnsound(findings) => write_verdict_after(b"NEW ", new, findings, sink),
    }
}

/// Writes the line of each finding after a word, and the verdict.
pub fn write_verdict_after<A: Allocator, W: Sink>(
    word: &[u8],
    plan: &Plan<A>,
    findings: &[Finding<A>],
    sink: &mut W,
)
    ensures { Puts W.taken W.failed sink.old sink.new
        (verdict_after word.now plan.now findings.now) }
{
    write_findings_after(word, plan, findings, sink);
    write_verdict(findings.len(), sink);
}

/// Writes the line of each finding after a word.
pub fn write_findings_after<A: Allocator, W: Sink>(
    word: &[u8],
    plan: &Plan<A>,
    findings: &[Finding<A>],
    sink: &mut W,
)
    ensures { Puts W.taken W.failed sink.old sink.new
        (findings_after word.now plan.now findings.now) }
{
    for i in 0..findings.len() {
        write_finding_after(word, plan, &findings[i], sink);
    }
}

/// Writes the line of a finding after a word.
fn write_finding_after<A: Allocator, W: Sink>(
    word: &[u8],
    plan: &Plan<A>,
    finding: &Finding<A>,
    sink: &mut W,
)
    ensures { Puts W.taken W.failed sink.old sink.new
        (finding_after word.now plan.now finding.now) }
{
    put_bytes(word, sink);
    write_finding(plan, finding, sink);
}
