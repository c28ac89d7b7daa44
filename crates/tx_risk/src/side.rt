// What outages cut off in one of two plans, beside the other one.
ghost use Rattle.std.specs.Prelude.{◌≡◌};
ghost use Rattle.std.specs.List.{AllByRecursion};
ghost use Rattle.tx_risk.specs.Compared.{AreInOrder, place_in, cuts_in, legs_in, stray_at, stray_named, stray_in, is_worse_than, is_other_than, has_worse};
ghost use Rattle.tx_risk.specs.inner.InOrder.{comes_before, stray_of};

use crate::cut::{Cut, Leg, Outcome};
use crate::outage::Outage;
use crate::risks::Risks;
use std::alloc::Allocator;
use std::marker::Model;
use tx_plan::{CodeId, ExchangeId, Plan};

/// One of two plans, and what its outages come to.
#[derive(Drop)]
pub struct Side<'a, A: Allocator> {
    plan: &'a Plan<A>,
    outcomes: &'a [Outcome<A>],
}

impl<'a, A: Allocator> Model for Side<'a, A> {
    ghost use Rattle.std.specs.List.{AllByRecursion};
    ghost use Rattle.tx_risk.specs.Compared.{Side, AreInOrder};

    ghost Value = { Side A };

    ghost view = { λ s. record { plan = s.plan.now; outcomes = s.outcomes.now } };

    ghost invariant = { λ s. AllByRecursion (λ t. AreInOrder t.cuts.items) s.outcomes.now };
}

impl<'a, A: Allocator> Side<'a, A> {
    /// A plan, and what its outages come to.
    pub fn new(plan: &'a Plan<A>, outcomes: &'a [Outcome<A>]) -> Side<'a, A>
        requires { AllByRecursion (λ t. AreInOrder t.cuts.items) outcomes.now }
        ensures { result ≡ record { plan = plan.now; outcomes = outcomes.now } }
    {
        Side { plan, outcomes }
    }

    /// The plan.
    pub fn plan(&self) -> &Plan<A>
        ensures { result.now ≡ self.now.plan }
    {
        self.plan
    }

    /// The place here of an outage of a network, by its name.
    fn place(&self, network: &Plan<A>, risks: &Risks<A>, outage: &Outage) -> Option<usize>
        ensures { result ≡ place_in network.now self.now.plan risks.now outage.now }
    {
        let named = risks.len();
        match outage {
            Outage::Named(index) if *index < named => Some(*index),
            Outage::Named(_) => None,
            Outage::Group(group) => {
                let group = self.plan.group_named(network.group_name(*group))?;
                Some(named + group.index())
            }
            Outage::Exchange(exchange) => {
                let exchange = self.plan.exchange_named(network.exchange_name(*exchange))?;
                Some(named + self.plan.groups() + exchange.index())
            }
        }
    }

    /// Whom an outage of a network cuts off here: nobody, if the plan does not have it.
    pub fn cuts(&self, network: &Plan<A>, risks: &Risks<A>, outage: &Outage) -> &[Cut]
        ensures cuts { result.now ≡ cuts_in network.now risks.now self.now outage.now }
        ensures order { AreInOrder result.now }
    {
        let Some(place) = self.place(network, risks, outage) else {
            return &[];
        };
        match self.outcomes.get(place) {
            Some(outcome) => outcome.cuts.as_slice(),
            None => &[],
        }
    }

    /// The legs of their walks.
    pub fn legs(&self, network: &Plan<A>, risks: &Risks<A>, outage: &Outage) -> &[Leg]
        ensures { result.now ≡ legs_in network.now risks.now self.now outage.now }
    {
        let Some(place) = self.place(network, risks, outage) else {
            return &[];
        };
        match self.outcomes.get(place) {
            Some(outcome) => outcome.legs.as_slice(),
            None => &[],
        }
    }
}

/// Whether a cut comes before a code and a start.
fn comes_before(cut: &Cut, code: CodeId, start: ExchangeId) -> bool
    ensures { result ≡ comes_before code start cut.now }
{
    cut.code.index() < code.index() || (cut.code == code && cut.start.index() < start.index())
}

/// The cut of a code from a start: whether it is stray, if there is one.
fn stray_at(cuts: &[Cut], code: CodeId, start: ExchangeId) -> Option<bool>
    requires { AreInOrder cuts.now }
    ensures { result ≡ stray_at cuts.now code start }
{
    let place = cuts.partition_point(|cut| comes_before(cut, code, start));
    match cuts.get(place) {
        Some(cut) => stray_of(cut, code, start),
        None => None,
    }
}

/// Whether a cut is stray, if it is of a code and a start.
fn stray_of(cut: &Cut, code: CodeId, start: ExchangeId) -> Option<bool>
    ensures { result ≡ stray_of code start cut.now }
{
    if cut.code == code && cut.start == start {
        Some(cut.stray)
    } else {
        None
    }
}

/// The cut of a code from a start, by their names: whether it is stray, if there is one.
fn stray_named<A: Allocator>(
    plan: &Plan<A>,
    cuts: &[Cut],
    figures: &[u8],
    start: &[u8],
) -> Option<bool>
    requires { AreInOrder cuts.now }
    ensures { result ≡ stray_named plan.now cuts.now figures.now start.now }
{
    let code = plan.code_named(figures)?;
    let start = plan.exchange_named(start)?;
    stray_at(cuts, code, start)
}

/// What cuts of another plan are for the code and the start of a cut, by their names.
fn stray_in<A: Allocator>(plan: &Plan<A>, other: &Plan<A>, cuts: &[Cut], cut: &Cut) -> Option<bool>
    requires { AreInOrder cuts.now }
    ensures { result ≡ stray_in plan.now other.now cuts.now cut.now }
{
    let figures = plan.code_figures(cut.code);
    stray_named(other, cuts, figures, plan.exchange_name(cut.start))
}

/// Whether a cut is worse than what cuts of another plan are for its start: than none, or a stray
/// one if it is not stray.
fn is_worse<A: Allocator>(plan: &Plan<A>, other: &Plan<A>, cuts: &[Cut], cut: &Cut) -> bool
    requires { AreInOrder cuts.now }
    ensures { result ≡ is_worse_than (stray_in plan.now other.now cuts.now cut.now) cut.now }
{
    match stray_in(plan, other, cuts, cut) {
        Some(stray) => stray && !cut.stray,
        None => true,
    }
}

/// Whether a cut is another one than what cuts of another plan are for its start.
pub fn is_other<A: Allocator>(plan: &Plan<A>, other: &Plan<A>, cuts: &[Cut], cut: &Cut) -> bool
    requires { AreInOrder cuts.now }
    ensures { result ≡ is_other_than (stray_in plan.now other.now cuts.now cut.now) cut.now }
{
    match stray_in(plan, other, cuts, cut) {
        Some(stray) => stray != cut.stray,
        None => true,
    }
}

/// Whether somebody is worse off by some cuts of a plan than by those of another one.
pub fn has_worse<A: Allocator>(
    plan: &Plan<A>,
    other: &Plan<A>,
    mine: &[Cut],
    others: &[Cut],
) -> bool
    requires { AreInOrder others.now }
    ensures { result ≡ has_worse plan.now other.now mine.now others.now }
{
    mine.iter().any(|cut| is_worse(plan, other, others, cut))
}
