// An order of switching.
ghost use Rattle.std.specs.Prelude.{◌≡◌};
ghost use Rattle.tx_order.specs.Fronts.{count_of};

use crate::fronts::Fronts;
use crate::level::levels;
use crate::transition::Transition;
use std::alloc::{Allocator, Global};
use std::marker::Model;
use tx_plan::{CodeId, ExchangeId, GroupId, Plan};

/// An order in which the lists and the bars of an old plan are switched to those of a new one, in
/// stages.
#[derive(Drop)]
pub struct Order<A: Allocator = Global> {
    pub(crate) transition: Transition<A>,
    pub(crate) ends: Vec<Fronts<A>, A>,
}

impl<A: Allocator> Model for Order<A> {
    ghost use Rattle.std.specs.Coded.{codes};
    ghost use Rattle.tx_cert.specs.inner.Table.{certificate_code};
    ghost use Rattle.tx_order.specs.Ordered.{Order, IsOrderKept};

    ghost Value = { Order };

    ghost coded = { Prim.hlevel (codes, certificate_code) };

    ghost view = { λ o. record { transition = o.transition; codes = o.ends.items } };

    ghost invariant = { λ o. IsOrderKept (record {
      transition = o.transition;
      codes = o.ends.items;
    }) };
}

impl<A: Allocator> Order<A> {
    ghost use Rattle.std.specs.Prelude.{◌≡◌, ◌≤◌};
    ghost use Rattle.tx_plan.specs.Routes.{route_list, is_barred};
    ghost use Rattle.tx_order.specs.Ordered.{stages_in, fronts_before, plan_before, IsOrderKept};

    /// Both plans are certified, and each code has its stages, which are few. Does nothing: its
    /// callers' proofs name it.
    pub fn rules(&self)
        ensures kept { IsOrderKept self.now }
        ensures few { stages_in self.now ≤ 128 }
    {
        let _ = self.transition.limits();
    }

    /// The plans and their certificates.
    pub(crate) fn transition(&self) -> &Transition<A>
        ensures { result.now ≡ self.now.transition }
    {
        &self.transition
    }

    /// The old plan.
    pub(crate) fn old_plan(&self) -> &Plan<A>
        ensures { result.now ≡ self.now.transition.old }
    {
        self.transition.old_plan()
    }

    /// The new plan.
    pub fn new_plan(&self) -> &Plan<A>
        ensures { result.now ≡ self.now.transition.new }
    {
        self.transition.new_plan()
    }

    /// How many stages there are.
    pub fn stages(&self) -> usize
        ensures { result ≡ stages_in self.now }
    {
        most(&self.ends)
    }

    /// The front of a code before a stage.
    pub(crate) fn front(&self, stage: usize, code: CodeId) -> u16
        ensures { result ≡ fronts_before self.now stage code }
    {
        let limit = self.transition.limits.limit;
        match self.ends.get(code.index()) {
            Some(fronts) => fronts.front(limit, stage),
            None if stage == 0 => 0,
            None => levels(limit),
        }
    }

    /// The list of an exchange for a code before a stage.
    pub fn list(&self, stage: usize, exchange: ExchangeId, code: CodeId) -> &[GroupId]
        ensures { result.now ≡ route_list (plan_before self.now stage) exchange code }
    {
        self.transition
            .list(self.front(stage, code), exchange, code)
    }

    /// Whether the exchange is barred for the code before it.
    pub fn is_barred(&self, stage: usize, exchange: ExchangeId, code: CodeId) -> bool
        ensures { result ≡ is_barred (plan_before self.now stage) exchange code }
    {
        self.transition
            .is_barred(self.front(stage, code), exchange, code)
    }
}

/// How many stages the code has that has the most.
fn most<A: Allocator>(codes: &[Fronts<A>]) -> usize
    ensures { result ≡ count_of codes.now }
{
    match codes {
        [] => 0,
        [fronts, rest @ ..] => fronts.len().max(most(rest)),
    }
}
