// The grading of a plan.
ghost use Rattle.std.specs.Prelude.{◌≡◌, ◌≢◌, ◌<◌, ℕ, length, [], None, IfOk, IfSome, IfNone};
ghost use Rattle.std.specs.List.{AllByRecursion};
ghost use Rattle.tx_plan.specs.Rules.{IsPlan};
ghost use Rattle.tx_plan.specs.Certified.{IsCertified};
ghost use Rattle.tx_cert.specs.Certificate.{rank_at as ranked_at, ranks_of};
ghost use Rattle.tx_rank.specs.Walks.{net_of};
ghost use Rattle.tx_rank.specs.Heights.{RanksByHeight};
ghost use Rattle.tx_rank.specs.Findings.{IsTrueOf};
ghost use Rattle.tx_rank.specs.Judged.{AreOrigins, IsJudged};
ghost use Rattle.tx_rank.specs.Grades.{IsGrade, CanBeCertified, CanBeCertifiedFor, NothingIsWrong, AreCodeGrades, AreRanksOfGrades, AreUnmended};

use crate::bounds::{Bounds, both};
use crate::code_bounds::code_bounds;
use crate::code_ranking::rank_code;
use crate::code_routes::{CodeRoutes, origins_of};
use crate::finding::Finding;
use crate::plan_grade::Grade;
use crate::ranking::pair_found;
use std::alloc::Allocator;
use tx_cert::Cert;
use tx_plan::{CodeId, Plan};
use tx_text::NoMemory;

/// Returns the grade of a code, or adds what no limit and no spare number mends.
fn code_grade<A: Allocator + Copy>(
    alloc: A,
    plan: &Plan<A>,
    origins: &[bool],
    code: CodeId,
    cert: &mut Cert<A>,
    findings: &mut Vec<Finding<A>, A>,
) -> Result<Option<Bounds>, NoMemory>
    requires rules { IsPlan plan.now }
    requires code { code < length plan.now.codes }
    requires origins { AreOrigins plan.now origins.now }
    requires codes { cert.old.codes ≡ length plan.now.codes }
    requires exchanges { cert.old.exchanges ≡ length plan.now.exchanges }
    requires blank { (x : ℕ) → ranked_at cert.old code x ≡ None }
    ensures grade { IfOk result (IsGrade (CanBeCertifiedFor plan.now code)) }
    ensures judged { IfOk result (λ _. IsJudged (net_of plan.now code) code 255 0
        findings.old.items findings.new.items (ranked_at cert.new code)) }
    ensures heights { IfOk result (λ alone. IfSome alone (λ _.
        RanksByHeight (net_of plan.now code) (ranked_at cert.new code))) }
    ensures others { IfOk result (λ _. (d x : ℕ) → d ≢ code
        → ranked_at cert.new d x ≡ ranked_at cert.old d x) }
    ensures codes { cert.new.codes ≡ cert.old.codes }
    ensures exchanges { cert.new.exchanges ≡ cert.old.exchanges }
{
    let net = CodeRoutes {
        plan,
        origins,
        code,
    };
    let before = findings.len();
    // No walk is too long for this limit, and only an empty list is too short.
    rank_code(alloc, &net, code, u8::MAX, 0, cert, findings)?;
    if findings.len() > before {
        return Ok(None);
    }
    Ok(Some(code_bounds(plan, cert, code)))
}

/// Returns with which limits, and which spare numbers up to 15, some ranks certify the plan, and
/// each of its codes alone; and if they certify the plan with none, what no limit and no spare
/// number mends. `Err` means out of memory.
pub fn grade<A: Allocator + Copy>(alloc: A, plan: &Plan<A>) -> Result<Grade<A>, NoMemory>
    // The grade of the plan says with which limits and spare numbers some ranks certify it, and so
    // for which no finding is true.
    ensures plan { IfOk result (λ g. IsGrade (CanBeCertified plan.now) g.plan) }
    ensures clear { IfOk result (λ g. IsGrade (NothingIsWrong A plan.now) g.plan) }
    ensures codes { IfOk result (λ g. AreCodeGrades plan.now g.codes.items) }
    ensures ranks { IfOk result (λ g. IfSome g.plan (λ b.
        IsCertified plan.now (ranks_of g.ranks) b.limit b.spare)) }
    ensures heights { IfOk result (λ g.
        AreRanksOfGrades plan.now (ranks_of g.ranks) g.codes.items) }

    // Something is found exactly where the plan has no grade.
    ensures fails { IfOk result (λ g. IfNone g.plan (g.findings.items ≢ [])) }
    ensures clean { IfOk result (λ g. IfSome g.plan (λ _. g.findings.items ≡ [])) }
    ensures each { IfOk result (λ g. (limit spare : ℕ)
        → AllByRecursion (IsTrueOf plan.now limit spare) g.findings.items) }
    ensures listed { IfOk result (λ g. AreUnmended plan.now g.findings.items) }
{
    let origins = origins_of(alloc, plan)?;
    let mut cert = Cert::new(alloc, plan)?;
    let mut findings = pair_found(alloc, plan)?;
    let mut codes = Vec::with_capacity(alloc, plan.codes())?;
    let mut together = if findings.is_empty() {
        Some(Bounds::widest())
    } else {
        None
    };
    for index in 0..plan.codes() {
        let code = CodeId::of(index);
        let alone = code_grade(alloc, plan, &origins, code, &mut cert, &mut findings)?;
        together = both(together, alone);
        codes.push_reserved((code, alone));
    }
    Ok(Grade {
        plan: together,
        codes,
        findings,
        ranks: cert,
    })
}
