// The ranking of a code while some of its levels are switched.
ghost use Rattle.std.specs.Prelude.{◌≡◌, ◌≢◌, ◌<◌, ℕ, length, None, IfOk};
ghost use Rattle.tx_cert.specs.Certificate.{rank_at as ranked_at};
ghost use Rattle.tx_rank.specs.Judged.{AreOrigins, IsJudged};
ghost use Rattle.tx_change.specs.ChangeNets.{change_net};
ghost use Rattle.tx_change.specs.inner.Joined.{AreJoined};
ghost use Rattle.tx_order.specs.Transitions.{plan_front};

use crate::transition::Transition;
use std::alloc::Allocator;
use tx_cert::Cert;
use tx_change::{ChangeRoutes, JoinedLists};
use tx_plan::{CodeId, ExchangeId};
use tx_rank::{Finding, rank_code};
use tx_text::NoMemory;

/// The lists of all exchanges for a code at two fronts, joined.
pub fn joined_lists<A: Allocator + Copy>(
    alloc: A,
    transition: &Transition<A>,
    code: CodeId,
    from: u16,
    to: u16,
) -> Result<Vec<JoinedLists<A>, A>, NoMemory>
    ensures { IfOk result (λ lists. AreJoined (plan_front transition.now from)
        (plan_front transition.now to) code lists.items) }
{
    let mut lists = Vec::new(alloc);
    for index in 0..transition.exchanges() {
        let exchange = ExchangeId::of(index);
        let barred = transition.is_barred(from, exchange, code)
            && transition.is_barred(to, exchange, code);
        let before = transition.list(from, exchange, code);
        let after = transition.list(to, exchange, code);
        lists.push(JoinedLists::of(alloc, before, after, barred)?)?;
    }
    Ok(lists)
}

/// Writes ranks that certify a code at both of two fronts into the certificate, or adds what is
/// wrong.
pub fn rank_between<A: Allocator + Copy>(
    alloc: A,
    transition: &Transition<A>,
    origins: &[bool],
    code: CodeId,
    from: u16,
    to: u16,
    cert: &mut Cert<A>,
    findings: &mut Vec<Finding<A>, A>,
) -> Result<(), NoMemory>
    requires origins { AreOrigins transition.now.old origins.now }
    requires code { code < length transition.now.old.codes }
    requires blank { (x : ℕ) → ranked_at cert.old code x ≡ None }
    requires codes { cert.old.codes ≡ length transition.now.old.codes }
    requires exchanges { cert.old.exchanges ≡ length transition.now.old.exchanges }
    ensures judged { IfOk result (λ _. IsJudged
        (change_net (plan_front transition.now from) (plan_front transition.now to) code)
        code transition.now.limit transition.now.spare findings.old.items findings.new.items
        (ranked_at cert.new code)) }
    ensures others { IfOk result (λ _. (d x : ℕ)
        → d ≢ code → ranked_at cert.new d x ≡ ranked_at cert.old d x) }
    ensures codes { cert.new.codes ≡ cert.old.codes }
    ensures exchanges { cert.new.exchanges ≡ cert.old.exchanges }
{
    transition.rules();
    let lists = joined_lists(alloc, transition, code, from, to)?;
    let net = ChangeRoutes {
        plan: transition.old_plan(),
        origins,
        lists: &lists,
        code,
    };
    let limits = transition.limits();
    rank_code(
        alloc,
        &net,
        code,
        limits.limit,
        limits.spare,
        cert,
        findings,
    )
}
