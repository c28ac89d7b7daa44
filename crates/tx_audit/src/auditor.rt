// The auditor.
ghost use Rattle.std.specs.Prelude.{◌≡◌, ◌≤◌, IfOk};
ghost use Rattle.std.specs.List.{AllByRecursion};
ghost use Rattle.tx_text.specs.Calls.{CallsAtMost, source_calls};
ghost use Rattle.tx_text.specs.Ends.{input, output};
ghost use Rattle.tx_rank.specs.Findings.{IsTrueOf};
ghost use Rattle.tx_audit.specs.Audits.{AuditAnswers, OnUnsound, mark_after};

use crate::audited::{AuditFault, Audited};
use crate::judging::judge;
use std::alloc::Allocator;
use tx_plan::Limits;
use tx_plantext::read_plan_from;
use tx_rank::write_report;
use tx_text::{Sink, Source};

/// Reads a plan, and writes the report on it: YES where some certificate certifies it for at most
/// `limit` transits (0 to 62) and `spare` groups to spare (0 to 15), or what is wrong with it, with
/// walks that show it.
///
/// Nothing is written where the plan is refused or memory runs out. The report says YES only where
/// the checker says Yes to the certificate that is returned.
pub fn audit<A: Allocator + Copy, R: Source, W: Sink>(
    alloc: A,
    source: &mut R,
    limit: u8,
    spare: u8,
    out: &mut W,
) -> Result<Audited<A>, AuditFault>
    requires limit { limit ≤ 62 }
    requires spare { spare ≤ 15 }
    ensures answers { AuditAnswers limit spare
        (input R.rest R.failed R.called source.old source.new)
        (output W.taken out.old out.new) result }
    ensures each { IfOk result
        (OnUnsound (λ p findings. AllByRecursion (IsTrueOf p limit spare) findings)) }
    ensures mark { W.failed out.new ≡ mark_after (W.failed out.old) result }
    ensures calls { CallsAtMost R.called source_calls source.old source.new }
{
    let plan = read_plan_from(alloc, source)?;
    let limits = Limits { limit, spare };
    let ranking = judge(alloc, &plan, limits)?;
    write_report(b"AUDIT", &plan, &ranking, limits, out)?;
    Ok(Audited::of(plan, ranking))
}
