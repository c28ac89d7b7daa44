// The search for an order.
ghost use Rattle.std.specs.Prelude.{◌≡◌, ◌↔◌, ◌<◌, ℕ, length, IfOk};
ghost use Rattle.tx_plan.specs.Mixtures.{SameNetwork};
ghost use Rattle.tx_audit.specs.Audits.{IsRightRanking};
ghost use Rattle.tx_order.specs.Orders.{CanBothBeCertified};
ghost use Rattle.tx_order.specs.Ordered.{stages_in, AreStagesBelow, IsOrderKept};
ghost use Rattle.tx_order.specs.Switchings.{HasCleared, IsOrderFound, IsRightSwitching, plans_of};
ghost use Rattle.tx_order.specs.inner.Asked.{IsAsked};

use crate::fronts::Fronts;
use crate::joining::stages_of_code;
use crate::lists::lists_before;
use crate::orders::Order;
use crate::transition::Transition;
use std::alloc::{Allocator, Global};
use tx_audit::judge;
use tx_cert::Cert;
use tx_change::Lists;
use tx_check::confirm;
use tx_join::Joined;
use tx_plan::{CodeId, Limits, Plan};
use tx_rank::{Ranking, origins_of};
use tx_text::NoMemory;

/// What the search for an order comes to.
#[derive(Drop)]
pub enum Switching<A: Allocator = Global> {
    /// An order.
    Ordered(Order<A>),
    /// There is none: both plans, and what the ranking of the old one came to and that of the new
    /// one. One of them has findings.
    NoOrder(Joined<A>, Ranking<A>, Ranking<A>),
}

impl<A: Allocator> Switching<A> {
    /// The old plan and the new one.
    pub fn plans(&self) -> (&Plan<A>, &Plan<A>)
        ensures old { result.0.now ≡ (plans_of self.now).old }
        ensures new { result.1.now ≡ (plans_of self.now).new }
    {
        match self {
            Switching::Ordered(order) => (order.old_plan(), order.new_plan()),
            Switching::NoOrder(plans, _, _) => (&plans.old, &plans.new),
        }
    }
}

/// The stages of each code.
fn stages_of<A: Allocator + Copy>(
    alloc: A,
    transition: &Transition<A>,
) -> Result<Vec<Fronts<A>, A>, NoMemory>
    ensures { IfOk result (λ ends. AreStagesBelow transition.now
        (length transition.now.old.codes) ends.items) }
{
    let origins = origins_of(alloc, transition.old_plan())?;
    let mut ends = Vec::new(alloc);
    for index in 0..transition.codes() {
        let code = CodeId::of(index);
        ends.push(stages_of_code(alloc, transition, &origins, code)?)?;
    }
    Ok(ends)
}

/// What the checker is asked about a stage: its certificate, the lists of the plans before and
/// after it, and those of the old plan.
#[derive(Drop)]
struct Asked<A: Allocator> {
    cert: Cert<A>,
    before: Lists<A>,
    after: Lists<A>,
    old: Lists<A>,
}

fn asked_of<A: Allocator + Copy>(
    alloc: A,
    order: &Order<A>,
    stage: usize,
) -> Result<Asked<A>, NoMemory>
    requires { stage < stages_in order.now }
    ensures { IfOk result (λ a. IsAsked order.now stage a) }
{
    order.rules();
    let cert = order.cert(alloc, stage)?;
    let before = lists_before(alloc, order, stage)?;
    let after = lists_before(alloc, order, stage + 1)?;
    let old = lists_before(alloc, order, 0)?;
    Ok(Asked {
        cert,
        before,
        after,
        old,
    })
}

/// Asks the checker about the certificate of a stage, for the plan before it and the plan after it.
fn confirm_stage<A: Allocator>(order: Order<A>, stage: usize, asked: Asked<A>) -> Order<A>
    requires { IsAsked order stage asked }
    ensures same { result ≡ order }
    ensures cleared { HasCleared order stage }
{
    order.rules();
    let Order { transition, ends } = order;
    let Transition {
        old,
        new,
        before,
        after,
        limits,
    } = transition;
    let plan = old.rerouted(asked.before.routes, asked.before.bars);
    confirm(&plan, &asked.cert, limits);
    let plan = plan.rerouted(asked.after.routes, asked.after.bars);
    confirm(&plan, &asked.cert, limits);
    let old = plan.rerouted(asked.old.routes, asked.old.bars);
    let transition = Transition {
        old,
        new,
        before,
        after,
        limits,
    };
    Order { transition, ends }
}

/// Asks it about each stage.
fn confirm_stages<A: Allocator + Copy>(alloc: A, order: Order<A>) -> Result<Order<A>, NoMemory>
    ensures same { IfOk result (λ o. o ≡ order) }
    ensures cleared { IfOk result (λ o. (s : ℕ) → s < stages_in order → HasCleared order s) }
{
    let mut order = order;
    for stage in 0..order.stages() {
        let asked = asked_of(alloc, &order, stage)?;
        order = confirm_stage(order, stage, asked);
    }
    Ok(order)
}

/// The order of two plans that are certified.
fn order_of<A: Allocator + Copy>(alloc: A, transition: Transition<A>) -> Result<Order<A>, NoMemory>
    ensures same { IfOk result (λ o. o.transition ≡ transition) }
    ensures cleared { IfOk result (λ o. (s : ℕ) → s < stages_in o → HasCleared o s) }
    ensures kept { IfOk result IsOrderKept }
{
    let ends = stages_of(alloc, &transition)?;
    let order = confirm_stages(alloc, Order { transition, ends })?;
    order.rules();
    Ok(order)
}

/// What the search comes to by the judgements on both plans.
fn order_by<A: Allocator + Copy>(
    alloc: A,
    plans: Joined<A>,
    before: Ranking<A>,
    after: Ranking<A>,
    limits: Limits,
) -> Result<Switching<A>, NoMemory>
    requires network { SameNetwork plans.old plans.new }
    requires before { IsRightRanking plans.old limits.limit limits.spare before }
    requires after { IsRightRanking plans.new limits.limit limits.spare after }
    ensures exactly { IfOk result (λ s. IsOrderFound s
        ↔ CanBothBeCertified plans.old plans.new limits.limit limits.spare) }
    ensures right { IfOk result
        (IsRightSwitching plans.old plans.new limits.limit limits.spare) }
{
    plans.old.rules();
    plans.new.rules();
    match before {
        Ranking::Found(before) => match after {
            Ranking::Found(after) => {
                let Joined { old, new } = plans;
                let transition = Transition {
                    old,
                    new,
                    before,
                    after,
                    limits,
                };
                Ok(Switching::Ordered(order_of(alloc, transition)?))
            }
            after => Ok(Switching::NoOrder(plans, Ranking::Found(before), after)),
        },
        before => Ok(Switching::NoOrder(plans, before, after)),
    }
}

/// An order in which the lists and the bars of a plan are switched to those of another one of the
/// same network, so that each stage is safe for the limits in whatever order its lists and bars are
/// switched, with calls up. It is given after the checker has said Yes to a certificate of each
/// stage. Else it says what is wrong with both plans. `Err` means out of memory.
pub fn order<A: Allocator + Copy>(
    alloc: A,
    plans: Joined<A>,
    limits: Limits,
) -> Result<Switching<A>, NoMemory>
    requires network { SameNetwork plans.old plans.new }

    // An order is found exactly where some ranks certify the old plan and some the new one.
    ensures exactly { IfOk result (λ s. IsOrderFound s
        ↔ CanBothBeCertified plans.old plans.new limits.limit limits.spare) }
    ensures right { IfOk result
        (IsRightSwitching plans.old plans.new limits.limit limits.spare) }
{
    let before = judge(alloc, &plans.old, limits)?;
    let after = judge(alloc, &plans.new, limits)?;
    order_by(alloc, plans, before, after, limits)
}
