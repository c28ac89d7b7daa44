// The certificates of the stages of an order.
ghost use Rattle.std.specs.Prelude.{◌≡◌, ◌≢◌, ◌+◌, ◌<◌, ◌≤◌, ℕ, length, None, IfOk};
ghost use Rattle.tx_plan.specs.Rules.{IsPlan};
ghost use Rattle.tx_plan.specs.Mixed.{rerouted};
ghost use Rattle.tx_plan.specs.Mixtures.{AreCommon};
ghost use Rattle.tx_cert.specs.Certificate.{rank_at as ranked_at, ranks_of, IsCertificateOf};
ghost use Rattle.tx_rank.specs.Judged.{AreOrigins};
ghost use Rattle.tx_rank.specs.Nets.{Certifies};
ghost use Rattle.tx_change.specs.ChangeNets.{change_net};
ghost use Rattle.tx_order.specs.Ordered.{fronts_before, plan_before, stages_in};
ghost use Rattle.tx_order.specs.Stopped.{target_of};
ghost use Rattle.tx_order.specs.Transitions.{plan_front};

use crate::between::rank_between;
use crate::orders::Order;
use crate::transition::Transition;
use std::alloc::Allocator;
use tx_cert::Cert;
use tx_change::Lists;
use tx_plan::{CodeId, Plan};
use tx_rank::origins_of;
use tx_text::NoMemory;

/// Writes the ranks of a code that certify it before a stage and after it into a certificate.
fn certify<A: Allocator + Copy>(
    alloc: A,
    order: &Order<A>,
    origins: &[bool],
    stage: usize,
    code: CodeId,
    cert: &mut Cert<A>,
) -> Result<(), NoMemory>
    requires origins { AreOrigins order.now.transition.old origins.now }
    requires stage { stage ≤ stages_in order.now }
    requires code { code < length order.now.transition.old.codes }
    requires blank { (x : ℕ) → ranked_at cert.old code x ≡ None }
    requires codes { cert.old.codes ≡ length order.now.transition.old.codes }
    requires exchanges { cert.old.exchanges ≡ length order.now.transition.old.exchanges }
    ensures certified { IfOk result (λ _. Certifies
        (change_net (plan_front order.now.transition (fronts_before order.now stage code))
        (plan_front order.now.transition (fronts_before order.now (stage + 1) code)) code)
        (ranked_at cert.new code) order.now.transition.limit order.now.transition.spare) }
    ensures others { IfOk result (λ _. (d x : ℕ)
        → d ≢ code → ranked_at cert.new d x ≡ ranked_at cert.old d x) }
    ensures codes { cert.new.codes ≡ cert.old.codes }
    ensures exchanges { cert.new.exchanges ≡ cert.old.exchanges }
{
    order.rules();
    let from = order.front(stage, code);
    let to = order.front(stage + 1, code);
    let mut findings = Vec::new(alloc);
    rank_between(
        alloc,
        order.transition(),
        origins,
        code,
        from,
        to,
        cert,
        &mut findings,
    )
}

impl<A: Allocator + Copy> Order<A> {
    /// A certificate for the plan before a stage, from 0, the plan after it, and all mixtures of
    /// both. `Err` means out of memory.
    pub(crate) fn cert(&self, alloc: A, stage: usize) -> Result<Cert<A>, NoMemory>
        requires { stage ≤ stages_in self.now }
        ensures common { IfOk result (λ cert. AreCommon (plan_before self.now stage)
            (plan_before self.now (stage + 1)) (ranks_of cert)
            self.now.transition.limit self.now.transition.spare) }
        ensures fits { IfOk result (IsCertificateOf self.now.transition.old) }
    {
        self.rules();
        let old = self.old_plan();
        let origins = origins_of(alloc, old)?;
        let mut cert = Cert::new(alloc, old)?;
        for index in 0..old.codes() {
            certify(alloc, self, &origins, stage, CodeId::of(index), &mut cert)?;
        }
        cert.rules();
        Ok(cert)
    }

    /// The old plan with other lists, and the plan to which an order leads on or back from there.
    pub(crate) fn with_lists(self, lists: Lists<A>, back: bool) -> (Plan<A>, Plan<A>)
        requires { IsPlan (rerouted self.transition.old lists.routes lists.bars) }
        ensures plan { result.0 ≡ rerouted self.transition.old lists.routes lists.bars }
        ensures target { result.1 ≡ target_of back self.transition.old self.transition.new }
    {
        self.rules();
        let Order { transition, .. } = self;
        let Transition { old, new, .. } = transition;
        if back {
            (new.rerouted(lists.routes, lists.bars), old)
        } else {
            (old.rerouted(lists.routes, lists.bars), new)
        }
    }
}
