// The ranking of a plan.
ghost use Rattle.std.specs.Prelude.{◌≡◌, ◌≢◌, ◌≤◌, ◌↔◌, ℕ, length, [], IfOk, OnOk};
ghost use Rattle.std.specs.List.{AllByRecursion};
ghost use Rattle.tx_plan.specs.Certified.{Ranks, IsCertified};
ghost use Rattle.tx_plan.specs.Ambiguous.{ambiguous_of};
ghost use Rattle.tx_cert.specs.Certificate.{ranks_of, no_ranks_for, IsCertificateOf};
ghost use Rattle.tx_rank.specs.Heights.{AreHeights};
ghost use Rattle.tx_rank.specs.Findings.{IsTrueOf, AreFindings, pair_findings};
ghost use Rattle.tx_rank.specs.Rankings.{IsFound, OnFound, OnFails};
ghost use Rattle.tx_rank.specs.Judged.{AreOrigins};
ghost use Rattle.tx_rank.specs.inner.Judged.{IsRankedBelow};

use crate::code_ranking::rank_code;
use crate::code_routes::{CodeRoutes, origins_of};
use crate::finding::Finding;
use std::alloc::{Allocator, Global};
use tx_cert::Cert;
use tx_plan::{CodeId, Limits, Plan};
use tx_text::NoMemory;
use tx_trie::CodeTrie;

/// What the ranking of a plan comes to.
#[derive(Drop)]
pub enum Ranking<A: Allocator = Global> {
    /// A certificate, by which the plan is certified.
    Found(Cert<A>),
    /// What is wrong with the plan: the ambiguous pair, and for each code a loop, or a walk to each
    /// short exchange and then a long one.
    Fails(Vec<Finding<A>, A>),
}

/// The ambiguous pair, as a finding.
pub fn pair_found<A: Allocator + Copy>(
    alloc: A,
    plan: &Plan<A>,
) -> Result<Vec<Finding<A>, A>, NoMemory>
    ensures { IfOk result (λ findings. findings.items
        ≡ pair_findings (ambiguous_of plan.now.codes)) }
{
    let mut findings = Vec::new(alloc);
    let trie = CodeTrie::build(alloc, plan)?;
    if let Some((shorter, longer)) = trie.ambiguous() {
        findings.push(Finding::Ambiguous(shorter, longer))?;
    }
    Ok(findings)
}

/// Ranks the exchanges for each code, or adds what is wrong with it.
pub fn rank_codes<A: Allocator + Copy>(
    alloc: A,
    plan: &Plan<A>,
    limits: Limits,
    findings: &mut Vec<Finding<A>, A>,
) -> Result<Cert<A>, NoMemory>
    requires { findings.old.items ≡ pair_findings (ambiguous_of plan.now.codes) }
    ensures listed { IfOk result (λ _.
        AreFindings plan.now limits.limit limits.spare findings.new.items) }
    ensures codes { IfOk result (λ cert. cert.codes ≡ length plan.now.codes) }
    ensures exchanges { IfOk result (λ cert. cert.exchanges ≡ length plan.now.exchanges) }
    ensures heights { IfOk result (λ cert. findings.new.items ≡ []
        → AreHeights plan.now (ranks_of cert)) }
    ensures certified { IfOk result (λ cert. findings.new.items ≡ []
        → IsCertified plan.now (ranks_of cert) limits.limit limits.spare) }
{
    let origins = origins_of(alloc, plan)?;
    let mut cert = Cert::new(alloc, plan)?;
    rank_each(alloc, plan, &origins, limits, &mut cert, findings)?;
    Ok(cert)
}

/// The same, into a certificate without ranks, where it is known at which exchanges calls may
/// start.
fn rank_each<A: Allocator + Copy>(
    alloc: A,
    plan: &Plan<A>,
    origins: &[bool],
    limits: Limits,
    cert: &mut Cert<A>,
    findings: &mut Vec<Finding<A>, A>,
) -> Result<(), NoMemory>
    requires origins { AreOrigins plan.now origins.now }
    requires blank { cert.old ≡ no_ranks_for plan.now }
    requires pair { findings.old.items ≡ pair_findings (ambiguous_of plan.now.codes) }
    ensures { IfOk result (λ _. IsRankedBelow plan.now limits.limit limits.spare
        (length plan.now.codes) cert.new findings.new.items) }
{
    let Limits { limit, spare } = limits;
    for index in 0..plan.codes() {
        let code = CodeId::of(index);
        let net = CodeRoutes {
            plan,
            origins,
            code,
        };
        rank_code(alloc, &net, code, limit, spare, cert, findings)?;
    }
    Ok(())
}

/// Ranks the exchanges for each code by their heights above its home, for at most `limit` transits
/// (0 to 62, ITU-T F.68) and `spare` groups to spare (0 to 15), or says what is wrong. `Err` means
/// out of memory.
pub fn rank<A: Allocator + Copy>(
    alloc: A,
    plan: &Plan<A>,
    limit: u8,
    spare: u8,
) -> Result<Ranking<A>, NoMemory>
    requires limit { limit ≤ 62 }
    requires spare { spare ≤ 15 }

    // A certificate is found exactly where no finding is true, and so wherever any certificate
    // certifies the plan.
    ensures found { IfOk result (λ r. IsFound r
        ↔ ((f : Finding A) → IsTrueOf plan.now limit spare f → ⊥)) }
    ensures wherever { IfOk result (λ r. (ranks : Ranks)
        → IsCertified plan.now ranks limit spare → IsFound r) }

    ensures certified { IfOk result
        (OnFound (λ cert. IsCertified plan.now (ranks_of cert) limit spare)) }
    ensures heights { IfOk result (OnFound (λ cert. AreHeights plan.now (ranks_of cert))) }
    ensures fits { IfOk result (OnFound (IsCertificateOf plan.now)) }

    ensures fails { IfOk result (OnFails (λ findings. findings ≢ [])) }
    ensures each { IfOk result (OnFails (AllByRecursion (IsTrueOf plan.now limit spare))) }
    ensures listed { IfOk result (OnFails (AreFindings plan.now limit spare)) }
{
    let mut findings = pair_found(alloc, plan)?;
    let cert = rank_codes(alloc, plan, Limits { limit, spare }, &mut findings)?;
    if findings.is_empty() {
        cert.rules();
        return Ok(Ranking::Found(cert));
    }
    Ok(Ranking::Fails(findings))
}
