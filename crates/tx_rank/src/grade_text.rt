// The writer of grades.
#![tactic(auto, using(tx_text::proofs::Putting::puts_none, tx_text::proofs::Putting::puts_more, tx_text::proofs::Putting::puts_all))]

ghost use Rattle.std.specs.Prelude.{◌++◌};
ghost use Rattle.std.specs.List.{flat_map};
ghost use Rattle.tx_text.specs.Puts.{Puts};
ghost use Rattle.tx_text.specs.Wrote.{Wrote};
ghost use Rattle.tx_rank.specs.GradeText.{bounds_text, code_line, why_text, grade_text};

use crate::bounds::Bounds;
use crate::finding::Finding;
use crate::plan_grade::Grade;
use crate::report::write_findings;
use itoa::Buffer;
use std::alloc::Allocator;
use tx_plan::{CodeId, Plan};
use tx_text::{Sink, WriteFault, finish, put_parts};

/// Writes the bounds of a plan and of each of its codes, or that there are none; and why, if the
/// plan has none.
pub fn write_grade<A: Allocator, W: Sink>(
    plan: &Plan<A>,
    grade: &Grade<A>,
    sink: &mut W,
) -> Result<(), WriteFault>
    ensures { Wrote W.taken W.failed sink.old sink.new
        (grade_text plan.now grade.now) result }
{
    write_bounds(b"GRADE", b"", grade.plan, sink);
    write_codes(plan, &grade.codes, sink);
    write_why(plan, grade.plan, &grade.findings, sink);
    finish(sink)
}

/// Writes the head of a line, a name, and a limit and a spare number, or that there are none.
fn write_bounds<W: Sink>(head: &[u8], name: &[u8], bounds: Option<Bounds>, sink: &mut W)
    ensures { Puts W.taken W.failed sink.old sink.new
        (head.now ++ (name.now ++ bounds_text bounds)) }
{
    match bounds {
        Some(bounds) => {
            let mut transits = Buffer::new();
            let mut groups = Buffer::new();
            let limit = transits.format(bounds.limit).as_bytes();
            let spare = groups.format(bounds.spare).as_bytes();
            put_parts(
                &[head, name, b" LIMIT ", limit, b" SPARE ", spare, b"\n"],
                sink,
            )
        }
        None => put_parts(&[head, name, b" NONE\n"], sink),
    }
}

fn write_codes<A: Allocator, W: Sink>(
    plan: &Plan<A>,
    codes: &[(CodeId, Option<Bounds>)],
    sink: &mut W,
)
    ensures { Puts W.taken W.failed sink.old sink.new
        (flat_map (code_line plan.now) codes.now) }
{
    for i in 0..codes.len() {
        write_code(plan, codes[i], sink);
    }
}

fn write_code<A: Allocator, W: Sink>(plan: &Plan<A>, code: (CodeId, Option<Bounds>), sink: &mut W)
    ensures { Puts W.taken W.failed sink.old sink.new
        (code_line plan.now code) }
{
    write_bounds(b"CODE ", plan.code_figures(code.0), code.1, sink);
}

fn write_why<A: Allocator, W: Sink>(
    plan: &Plan<A>,
    bounds: Option<Bounds>,
    findings: &[Finding<A>],
    sink: &mut W,
)
    ensures { Puts W.taken W.failed sink.old sink.new
        (why_text plan.now bounds findings.now) }
{
    match bounds {
        Some(_) => {}
        None => write_findings(plan, findings, sink),
    }
}
