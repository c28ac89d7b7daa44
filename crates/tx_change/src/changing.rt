// The ranking of a change.
ghost use Rattle.std.specs.Prelude.{◌≡◌, ◌≢◌, ◌<◌, ◌+◌, ◌↔◌, length, [], IfOk};
ghost use Rattle.std.specs.List.{AllByRecursion};
ghost use Rattle.tx_plan.specs.Ambiguous.{ambiguous_of};
ghost use Rattle.tx_cert.specs.Certificate.{ranks_of, no_ranks_for, IsCertificateOf};
ghost use Rattle.tx_rank.specs.Findings.{pair_findings};
ghost use Rattle.tx_rank.specs.Grades.{CanBeCertified};
ghost use Rattle.tx_rank.specs.Rankings.{IsFound, OnFound, OnFails};
ghost use Rattle.tx_rank.specs.Judged.{AreOrigins};
ghost use Rattle.tx_plan.specs.Mixtures.{SameNetwork, EachMixture, AreCommon};
ghost use Rattle.tx_machine.specs.ChangingRuns.{IsSoundChange};
ghost use Rattle.tx_change.specs.ChangeNets.{IsTrueOfChange};
ghost use Rattle.tx_change.specs.ChangeFindings.{AreChangeFindings, AreChangeHeights};
ghost use Rattle.tx_change.specs.ChangeAnswers.{IsCleared};
ghost use Rattle.tx_change.specs.Shown.{IsShown};
ghost use Rattle.tx_change.specs.inner.Changed.{IsChangedBelow};
ghost use Rattle.tx_change.specs.inner.OneNetwork.{AreOfOneNetwork};

use crate::change_routes::ChangeRoutes;
use crate::joined::joined_lists;
use std::alloc::Allocator;
use tx_cert::Cert;
use tx_check::confirm;
use tx_plan::{CodeId, Limits, Plan};
use tx_rank::{Finding, Ranking, origins_of, pair_found, rank_code};
use tx_text::NoMemory;

/// Ranks the exchanges for one code, or adds what is wrong with it.
fn change_code<A: Allocator + Copy>(
    alloc: A,
    old: &Plan<A>,
    new: &Plan<A>,
    origins: &[bool],
    code: CodeId,
    limits: Limits,
    cert: &mut Cert<A>,
    findings: &mut Vec<Finding<A>, A>,
) -> Result<(), NoMemory>
    requires network { AreOfOneNetwork old.now new.now }
    requires origins { AreOrigins old.now origins.now }
    requires code { code < length old.now.codes }
    requires below { IsChangedBelow old.now new.now limits.limit limits.spare code
        cert.old findings.old.items }
    ensures { IfOk result (λ _. IsChangedBelow old.now new.now limits.limit limits.spare (code + 1)
        cert.new findings.new.items) }
{
    let lists = joined_lists(alloc, old, new, code)?;
    let net = ChangeRoutes {
        plan: old,
        origins,
        lists: &lists,
        code,
    };
    let Limits { limit, spare } = limits;
    rank_code(alloc, &net, code, limit, spare, cert, findings)
}

/// Ranks the exchanges for each code, into a certificate without ranks, or adds what is wrong.
fn change_each<A: Allocator + Copy>(
    alloc: A,
    old: &Plan<A>,
    new: &Plan<A>,
    origins: &[bool],
    limits: Limits,
    cert: &mut Cert<A>,
    findings: &mut Vec<Finding<A>, A>,
) -> Result<(), NoMemory>
    requires network { AreOfOneNetwork old.now new.now }
    requires origins { AreOrigins old.now origins.now }
    requires blank { cert.old ≡ no_ranks_for old.now }
    requires pair { findings.old.items ≡ pair_findings (ambiguous_of old.now.codes) }
    ensures { IfOk result (λ _. IsChangedBelow old.now new.now limits.limit limits.spare
        (length old.now.codes) cert.new findings.new.items) }
{
    for index in 0..old.codes() {
        let code = CodeId::of(index);
        change_code(alloc, old, new, origins, code, limits, cert, findings)?;
    }
    Ok(())
}

/// A certificate with the ranks for all codes; what is wrong is added to the findings.
fn change_codes<A: Allocator + Copy>(
    alloc: A,
    old: &Plan<A>,
    new: &Plan<A>,
    limits: Limits,
    findings: &mut Vec<Finding<A>, A>,
) -> Result<Cert<A>, NoMemory>
    requires network { AreOfOneNetwork old.now new.now }
    requires pair { findings.old.items ≡ pair_findings (ambiguous_of old.now.codes) }
    ensures listed { IfOk result (λ _. AreChangeFindings old.now new.now limits.limit limits.spare
        findings.new.items) }
    ensures codes { IfOk result (λ cert. cert.codes ≡ length old.now.codes) }
    ensures exchanges { IfOk result (λ cert. cert.exchanges ≡ length old.now.exchanges) }
    ensures heights { IfOk result (λ cert. findings.new.items ≡ []
        → AreChangeHeights old.now new.now (ranks_of cert)) }
    ensures common { IfOk result (λ cert. findings.new.items ≡ []
        → AreCommon old.now new.now (ranks_of cert) limits.limit limits.spare) }
{
    let origins = origins_of(alloc, old)?;
    let mut cert = Cert::new(alloc, old)?;
    change_each(alloc, old, new, &origins, limits, &mut cert, findings)?;
    Ok(cert)
}

/// Ranks that certify, for the limits, every plan that may be in force while a plan is changed into
/// another one of the same network, list by list; or what is wrong with some of these plans. `Err`
/// means out of memory.
pub fn change<A: Allocator + Copy>(
    alloc: A,
    old: &Plan<A>,
    new: &Plan<A>,
    limits: Limits,
) -> Result<Ranking<A>, NoMemory>
    requires network { SameNetwork old.now new.now }

    // Ranks are found exactly if each mixture is certified by some ranks, which may differ from
    // mixture to mixture.
    ensures exactly { IfOk result (λ r. IsFound r
        ↔ EachMixture old.now new.now (λ m. CanBeCertified m limits.limit limits.spare)) }
    ensures found { IfOk result (λ r. IsFound r
        ↔ ((f : Finding A) → IsTrueOfChange old.now new.now limits.limit limits.spare f → ⊥)) }

    // They certify both plans, as the checker confirms, and so the change is sound with calls up.
    ensures common { IfOk result (OnFound (λ cert.
        AreCommon old.now new.now (ranks_of cert) limits.limit limits.spare)) }
    ensures cleared { IfOk result (OnFound
        (IsCleared old.now new.now limits.limit limits.spare)) }
    ensures sound { IfOk result (OnFound (λ cert.
        IsSoundChange old.now new.now limits.limit limits.spare)) }
    ensures heights { IfOk result (OnFound (λ cert.
        AreChangeHeights old.now new.now (ranks_of cert))) }
    ensures fits { IfOk result (OnFound (IsCertificateOf old.now)) }

    // Each finding is true of the mixture that it shows.
    ensures fails { IfOk result (OnFails (λ findings. findings ≢ [])) }
    ensures shown { IfOk result (OnFails (AllByRecursion
        (IsShown old.now new.now limits.limit limits.spare))) }
    ensures listed { IfOk result (OnFails
        (AreChangeFindings old.now new.now limits.limit limits.spare)) }
{
    old.rules();
    new.rules();
    let mut findings = pair_found(alloc, old)?;
    let cert = change_codes(alloc, old, new, limits, &mut findings)?;
    if findings.is_empty() {
        cert.rules();
        confirm(old, &cert, limits);
        confirm(new, &cert, limits);
        return Ok(Ranking::Found(cert));
    }
    Ok(Ranking::Fails(findings))
}
