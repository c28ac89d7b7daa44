// The checker.
ghost use Rattle.std.specs.Prelude.{◌≡◌, ◌≤◌};
ghost use Rattle.tx_plan.specs.Certified.{IsCertified};
ghost use Rattle.tx_cert.specs.Certificate.{IsCertificateOf, ranks_of};
ghost use Rattle.tx_machine.specs.Sound.{IsSound, HasFewRoutes};
ghost use Rattle.tx_check.specs.Checks.{ranks_for, check_faults, foremost, verdict_of};
ghost use Rattle.tx_check.specs.Confirmed.{IsConfirmed};

use crate::ambiguity::ambiguous;
use crate::fault::CheckFault;
use crate::lists::list_faults;
use crate::passes::{height_fault, home_fault, origin_fault};
use crate::verdict::Verdict;
use std::alloc::Allocator;
use tx_cert::Cert;
use tx_plan::{Limits, Plan};

/// Whether the plan is certified by the ranks of the certificate, for at most `limit` transits (0
/// to 62, ITU-T F.68) and `spare` groups to spare (0 to 15).
///
/// After a Yes the plan is sound: in every run, whatever the events, every state is safe, and NC is
/// answered only after a second head-on collision, or where more than `spare` groups are listed and
/// each of them is down or has no free circuit. And at most twice `limit` and three Routes of one
/// call are accepted. A No reports the first fault. Takes no memory.
pub fn check<A: Allocator>(plan: &Plan<A>, cert: &Cert<A>, limit: u8, spare: u8) -> Verdict
    requires limit { limit ≤ 62 }
    requires spare { spare ≤ 15 }
    ensures verdict { result ≡ verdict_of
        (check_faults plan.now (ranks_for plan.now cert.now) limit spare) }
    ensures certified { result ≡ Verdict.Yes
        → IsCertified plan.now (ranks_for plan.now cert.now) limit spare }
    ensures yes { IsCertified plan.now (ranks_for plan.now cert.now) limit spare
        → result ≡ Verdict.Yes }
    ensures sound { result ≡ Verdict.Yes → IsSound plan.now limit spare }
    ensures few_routes { result ≡ Verdict.Yes → HasFewRoutes plan.now limit }
{
    plan.rules();
    match first_fault(plan, cert, Limits { limit, spare }) {
        None => Verdict::Yes,
        Some(fault) => Verdict::No(fault),
    }
}

/// Asks the checker, who says Yes to ranks that certify the plan.
pub fn confirm<A: Allocator>(plan: &Plan<A>, cert: &Cert<A>, limits: Limits)
    requires fits { IsCertificateOf plan.now cert.now }
    requires certified { IsCertified plan.now (ranks_of cert.now) limits.limit limits.spare }
    ensures { IsConfirmed plan.now cert.now limits.limit limits.spare }
{
    match check(plan, cert, limits.limit, limits.spare) {
        Verdict::Yes => {}
        Verdict::No(_) => unreachable!(),
    }
}

/// The first fault, by the number of its clause.
fn first_fault<A: Allocator>(plan: &Plan<A>, cert: &Cert<A>, limits: Limits) -> Option<CheckFault>
    ensures { result ≡ foremost
        (check_faults plan.now (ranks_for plan.now cert.now) limits.limit limits.spare) }
{
    if let Some(pair) = ambiguous(plan) {
        return Some(CheckFault::Ambiguous(pair.0, pair.1));
    }
    if let Some(fault) = home_fault(plan, cert) {
        return Some(fault);
    }
    if let Some(fault) = origin_fault(plan, cert) {
        return Some(fault);
    }
    if let Some(fault) = height_fault(plan, cert, limits.limit) {
        return Some(fault);
    }
    let lists = list_faults(plan, cert, limits.spare);
    lists.short.or(lists.unranked).or(lists.not_lower)
}
