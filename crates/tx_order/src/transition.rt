// A transition from one plan to another.
use crate::level::{bar_level, level_of, levels};
use std::alloc::Allocator;
use std::marker::Model;
use tx_cert::Cert;
use tx_plan::{CodeId, ExchangeId, GroupId, Limits, Plan};

/// An old plan and a new one of the same network, a certificate of each, and the limits for which
/// they certify the plans.
#[derive(Drop)]
pub struct Transition<A: Allocator> {
    pub old: Plan<A>,
    pub new: Plan<A>,
    pub before: Cert<A>,
    pub after: Cert<A>,
    pub limits: Limits,
}

impl<A: Allocator> Model for Transition<A> {
    ghost use Rattle.std.specs.Coded.{codes};
    ghost use Rattle.tx_cert.specs.inner.Table.{certificate_code};
    ghost use Rattle.tx_order.specs.Transitions.{Transition, IsTransition};

    ghost Value = { Transition };

    ghost coded = { Prim.hlevel (codes, certificate_code) };

    ghost view = { λ w. record {
      old = w.old;
      new = w.new;
      before = w.before;
      after = w.after;
      limit = w.limits.limit;
      spare = w.limits.spare;
    } };

    ghost invariant = { λ w. IsTransition (record {
      old = w.old;
      new = w.new;
      before = w.before;
      after = w.after;
      limit = w.limits.limit;
      spare = w.limits.spare;
    }) };
}

impl<A: Allocator> Transition<A> {
    ghost use Rattle.std.specs.Prelude.{◌≡◌, ◌≤◌, length};
    ghost use Rattle.tx_plan.specs.Routes.{route_list, is_barred};
    ghost use Rattle.tx_cert.specs.Certificate.{ranks_of};
    ghost use Rattle.tx_order.specs.Levels.{levels_of, level_at};
    ghost use Rattle.tx_order.specs.Transitions.{IsTransition, plan_front, has_list, has_bar};

    /// Both plans are certified. Does nothing: its callers' proofs name it.
    pub fn rules(&self)
        ensures { IsTransition self.now }
    {
        let _ = &self.limits;
    }

    /// The old plan.
    pub fn old_plan(&self) -> &Plan<A>
        ensures { result.now ≡ self.now.old }
    {
        &self.old
    }

    /// The new plan.
    pub fn new_plan(&self) -> &Plan<A>
        ensures { result.now ≡ self.now.new }
    {
        &self.new
    }

    /// For what the plans are certified.
    pub fn limits(&self) -> Limits
        ensures limit { result.limit ≡ self.now.limit }
        ensures spare { result.spare ≡ self.now.spare }
        ensures few { result.limit ≤ 62 }
    {
        self.limits
    }

    /// How many levels there are.
    pub fn levels(&self) -> u16
        ensures { result ≡ levels_of self.now.limit }
    {
        levels(self.limits.limit)
    }

    /// How many exchanges.
    pub fn exchanges(&self) -> usize
        ensures count { result ≡ length self.now.old.exchanges }
        ensures few { result ≤ 256 }
    {
        self.old.exchanges()
    }

    /// How many codes.
    pub fn codes(&self) -> usize
        ensures count { result ≡ length self.now.old.codes }
        ensures few { result ≤ 1100 }
    {
        self.old.codes()
    }

    /// The level of a list.
    fn level(&self, exchange: ExchangeId, code: CodeId) -> u16
        ensures { result ≡ level_at (ranks_of self.now.before) (ranks_of self.now.after)
            self.now.limit exchange code }
    {
        let before = self.before.rank(code, exchange);
        let after = self.after.rank(code, exchange);
        level_of(self.limits.limit, before, after)
    }

    /// Whether a list is switched at a front.
    pub fn has_list(&self, front: u16, exchange: ExchangeId, code: CodeId) -> bool
        ensures { result ≡ has_list self.now front exchange code }
    {
        self.level(exchange, code) < front
    }

    /// Whether a bar is, or that there is none.
    pub fn has_bar(&self, front: u16, exchange: ExchangeId, code: CodeId) -> bool
        ensures { result ≡ has_bar self.now front exchange code }
    {
        bar_level(self.limits.limit, self.new.is_barred(exchange, code)) < front
    }

    /// The list that is in force at a front.
    pub fn list(&self, front: u16, exchange: ExchangeId, code: CodeId) -> &[GroupId]
        ensures { result.now ≡ route_list (plan_front self.now front) exchange code }
    {
        if self.has_list(front, exchange, code) {
            self.new.list(exchange, code)
        } else {
            self.old.list(exchange, code)
        }
    }

    /// Whether an exchange is barred for a code at a front.
    pub fn is_barred(&self, front: u16, exchange: ExchangeId, code: CodeId) -> bool
        ensures { result ≡ is_barred (plan_front self.now front) exchange code }
    {
        if self.has_bar(front, exchange, code) {
            self.new.is_barred(exchange, code)
        } else {
            self.old.is_barred(exchange, code)
        }
    }
}
