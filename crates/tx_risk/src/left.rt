// What a risk leaves of a plan.
ghost use Rattle.std.specs.Prelude.{◌≡◌};
ghost use Rattle.std.specs.List.{list_all};
ghost use Rattle.tx_plan.specs.Routes.{route_list};
ghost use Rattle.tx_risk.specs.inner.Marked.{marked};
ghost use Rattle.tx_risk.specs.inner.Left.{IsLeft, gone, left_net};

use std::alloc::Allocator;
use std::marker::Model;
use tx_plan::{CodeId, ExchangeId, GroupId, Plan};

/// The routes for one code, without the groups that are marked.
#[derive(Drop)]
pub struct Left<'a, A: Allocator> {
    pub plan: &'a Plan<A>,
    pub gone: &'a [bool],
    pub code: CodeId,
}

impl<'a, A: Allocator> Model for Left<'a, A> {
    ghost use Rattle.tx_risk.specs.inner.Left.{Left, IsLeft};

    ghost Value = { Left };

    ghost view = { λ l. record { plan = l.plan.now; marks = l.gone.now; code = l.code } };

    ghost invariant = { λ l. IsLeft
        (record { plan = l.plan.now; marks = l.gone.now; code = l.code }) };
}

impl<'a, A: Allocator> Left<'a, A> {
    /// How many exchanges.
    pub fn exchanges(&self) -> usize
        ensures count { result ≡ (left_net self.now).exchanges }
        ensures rules { IsLeft self.now }
    {
        self.plan.exchanges()
    }

    /// The home of the code.
    pub fn home(&self) -> ExchangeId
        ensures { result ≡ (left_net self.now).home }
    {
        self.plan.home(self.code)
    }

    /// The groups that an exchange tries, with those that go.
    pub fn list(&self, exchange: ExchangeId) -> &[GroupId]
        ensures value { result.now ≡ route_list self.now.plan exchange self.now.code }
        ensures rules { IsLeft self.now }
    {
        self.plan.list(exchange, self.code)
    }

    /// Where a group leads from an exchange.
    pub fn far(&self, group: GroupId, exchange: ExchangeId) -> Option<ExchangeId>
        ensures { result ≡ (left_net self.now).far group exchange }
    {
        self.plan.other_end(group, exchange)
    }

    /// Whether a group goes.
    pub fn is_gone(&self, group: GroupId) -> bool
        ensures { result ≡ gone self.now group }
    {
        is_marked(self.gone, group)
    }

    /// Whether all groups of a list go.
    pub fn are_gone(&self, list: &[GroupId]) -> bool
        ensures { result ≡ list_all (gone self.now) list.now }
    {
        list.iter().all(|group| self.is_gone(*group))
    }
}

/// Whether a group is marked.
pub fn is_marked(marks: &[bool], group: GroupId) -> bool
    ensures { result ≡ marked marks.now group }
{
    match marks.get(group.index()) {
        Some(mark) => *mark,
        None => false,
    }
}
