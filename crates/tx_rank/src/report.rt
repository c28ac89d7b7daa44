// The writer of reports.
#![tactic(auto, using(tx_text::proofs::Putting::puts_none, tx_text::proofs::Putting::puts_then, tx_text::proofs::Putting::puts_more, tx_text::proofs::Putting::puts_all))]

ghost use Rattle.std.specs.Prelude.{◌++◌, codes};
ghost use Rattle.std.specs.List.{flat_map};
ghost use Rattle.tx_text.specs.Puts.{Puts};
ghost use Rattle.tx_text.specs.Wrote.{Wrote};
ghost use Rattle.tx_rank.specs.Report.{findings_of, asked_line, step_text, walk_text, finding_line, no_line, verdict_line, findings_text, report};

use crate::finding::Finding;
use crate::ranking::Ranking;
use crate::walk::Walk;
use itoa::Buffer;
use std::alloc::Allocator;
use tx_plan::{CodeId, ExchangeId, GroupId, Limits, Plan};
use tx_text::{Sink, WriteFault, finish, put_bytes, put_parts};

/// Writes the report of a ranking: what was asked, with the word that it begins with, a line for
/// each finding, and the verdict.
pub fn write_report<A: Allocator, W: Sink>(
    word: &[u8],
    plan: &Plan<A>,
    ranking: &Ranking<A>,
    limits: Limits,
    sink: &mut W,
) -> Result<(), WriteFault>
    ensures { Wrote W.taken W.failed sink.old sink.new
        (report word.now plan.now limits.limit limits.spare (findings_of ranking.now)) result }
{
    write_asked(word, limits, sink);
    match ranking {
        Ranking::Found(_) => write_verdict(0, sink),
        Ranking::Fails(findings) => write_findings(plan, findings, sink),
    }
    finish(sink)
}

/// Writes the first line of a report: its word, and the limits that were asked.
pub fn write_asked<W: Sink>(word: &[u8], limits: Limits, sink: &mut W)
    ensures { Puts W.taken W.failed sink.old sink.new
        (asked_line word.now limits.limit limits.spare) }
{
    let mut transits = Buffer::new();
    let mut groups = Buffer::new();
    let limit = transits.format(limits.limit).as_bytes();
    let spare = groups.format(limits.spare).as_bytes();
    put_parts(&[word, b" LIMIT ", limit, b" SPARE ", spare, b"\n"], sink);
}

/// Writes YES, or NO with the number of findings.
pub fn write_verdict<W: Sink>(count: usize, sink: &mut W)
    ensures { Puts W.taken W.failed sink.old sink.new (verdict_line count) }
{
    if count == 0 {
        put_bytes(b"VERDICT YES\n", sink)
    } else {
        write_no(count, sink)
    }
}

/// Writes NO with the number of the lines before.
pub fn write_no<W: Sink>(count: usize, sink: &mut W)
    ensures { Puts W.taken W.failed sink.old sink.new (no_line count) }
{
    let mut buffer = Buffer::new();
    let count = buffer.format(count).as_bytes();
    put_parts(&[b"VERDICT NO ", count, b"\n"], sink);
}

/// Writes a line for each finding, and the verdict.
pub(crate) fn write_findings<A: Allocator, W: Sink>(
    plan: &Plan<A>,
    findings: &[Finding<A>],
    sink: &mut W,
)
    ensures { Puts W.taken W.failed sink.old sink.new
        (findings_text plan.now findings.now) }
{
    for i in 0..findings.len() {
        write_finding(plan, &findings[i], sink);
    }
    write_verdict(findings.len(), sink);
}

/// Writes the line of a finding.
pub fn write_finding<A: Allocator, W: Sink>(plan: &Plan<A>, finding: &Finding<A>, sink: &mut W)
    ensures { Puts W.taken W.failed sink.old sink.new (finding_line plan.now finding.now) }
{
    match finding {
        Finding::Ambiguous(shorter, longer) => {
            let shorter = plan.code_figures(*shorter);
            let longer = plan.code_figures(*longer);
            put_parts(&[b"F1 AMBIGUOUS ", shorter, b" ", longer, b"\n"], sink)
        }
        Finding::Loop(code, walk) => write_walk(b"F2 LOOP ", plan, *code, walk, sink),
        Finding::Short(code, walk) => write_walk(b"F3 SHORT ", plan, *code, walk, sink),
        Finding::Long(code, walk) => write_walk(b"F4 LONG ", plan, *code, walk, sink),
    }
}

/// Writes the head of a line, a code and the exchanges of a walk with the groups between them, and
/// the end of the line.
fn write_walk<A: Allocator, W: Sink>(
    head: &[u8],
    plan: &Plan<A>,
    code: CodeId,
    walk: &Walk<A>,
    sink: &mut W,
)
    ensures { Puts W.taken W.failed sink.old sink.new
        (head.now ++ walk_text plan.now code walk.now) }
{
    put_bytes(head, sink);
    put_bytes(plan.code_figures(code), sink);
    put_bytes(b" VIA ", sink);
    put_bytes(plan.exchange_name(walk.start), sink);
    write_steps(plan, &walk.steps, sink);
}

/// Writes the steps of a walk, and the end of the line.
pub fn write_steps<A: Allocator, W: Sink>(
    plan: &Plan<A>,
    steps: &[(GroupId, ExchangeId)],
    sink: &mut W,
)
    ensures { Puts W.taken W.failed sink.old sink.new
        (flat_map (step_text plan.now) steps.now ++ codes "\n") }
{
    for i in 0..steps.len() {
        write_step(plan, steps[i], sink);
    }
    put_bytes(b"\n", sink);
}

fn write_step<A: Allocator, W: Sink>(plan: &Plan<A>, step: (GroupId, ExchangeId), sink: &mut W)
    ensures { Puts W.taken W.failed sink.old sink.new (step_text plan.now step) }
{
    let group = plan.group_name(step.0);
    put_parts(&[b" ", group, b" ", plan.exchange_name(step.1)], sink);
}
