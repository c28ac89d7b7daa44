// Which exchanges may follow those that are ranked.
ghost use Rattle.std.specs.Prelude.{◌≡◌, ◌<◌, ◌≤◌, ℕ, Option, Bool, map, length, filter};
ghost use Rattle.std.specs.List.{list_all};
ghost use Rattle.tx_mend.specs.LeastRanks.{indexes, outgoing, leads_on, can_follow, does_follow};
ghost use Rattle.tx_mend.specs.inner.CodeRanks.{rank_list};
ghost use Rattle.tx_mend.specs.inner.Local.{IsLocal};

use crate::across::leads_on;
use crate::outgoing::{Outgoing, groups_at};
use std::alloc::Allocator;
use tx_plan::{CodeId, ExchangeId, GroupId, Plan};

/// A rule that says which exchanges may follow those that are ranked.
pub trait Rule {
    ghost exchanges: { Self → ℕ };

    ghost follows: { Self → (ℕ → Option ℕ) → ℕ → Bool };

    /// How many exchanges there are.
    fn exchanges(&self) -> usize
        ensures count { result ≡ exchanges self.now }
        ensures few { result ≤ 256 };

    /// Whether an exchange may follow those that are ranked.
    fn follows(&self, ranks: &[Option<u8>], exchange: ExchangeId) -> bool
        requires long { length ranks.now ≡ exchanges self.now }
        requires exchange { exchange < exchanges self.now }
        ensures { (of : ℕ → Option ℕ) → ranks.now ≡ map of (indexes (exchanges self.now))
            → result ≡ follows self.now of exchange };

    // Which exchanges may follow hangs on the ranks of the network's exchanges alone.
    ghost local: { (rule : Self) → IsLocal (exchanges rule) (follows rule) };
}

/// Whatever the routes: an exchange that may seize more than `spare` groups that lead to ranked
/// exchanges.
#[derive(Drop)]
pub struct AnyRoutes<'a, A: Allocator> {
    pub plan: &'a Plan<A>,
    pub seizable: &'a [Outgoing<A>],
    pub spare: u8,
    ghost right: { seizable.now ≡ map (outgoing plan.now) (indexes (length plan.now.exchanges)) },
    ghost local: { IsLocal (length plan.now.exchanges) (can_follow plan.now spare) },
}

/// How many of the groups lead to ranked exchanges.
pub fn count_on<A: Allocator>(
    plan: &Plan<A>,
    ranks: &[Option<u8>],
    exchange: ExchangeId,
    groups: &[GroupId],
) -> usize
    requires { length ranks.now ≡ length plan.now.exchanges }
    ensures { (of : ℕ → Option ℕ) → ranks.now ≡ rank_list plan.now of
        → result ≡ length (filter (λ g. leads_on plan.now of exchange g) groups.now) }
{
    let mut count: usize = 0;
    for group in groups {
        count += usize::from(leads_on(plan, ranks, exchange, *group));
    }
    count
}

/// Whether an exchange may seize more than `spare` groups that lead to ranked exchanges.
pub fn can_follow<A: Allocator>(
    plan: &Plan<A>,
    seizable: &[Outgoing<A>],
    spare: u8,
    ranks: &[Option<u8>],
    exchange: ExchangeId,
) -> bool
    requires seizable { seizable.now
        ≡ map (outgoing plan.now) (indexes (length plan.now.exchanges)) }
    requires long { length ranks.now ≡ length plan.now.exchanges }
    requires exchange { exchange < length plan.now.exchanges }
    ensures { (of : ℕ → Option ℕ) → ranks.now ≡ rank_list plan.now of
        → result ≡ can_follow plan.now spare of exchange }
{
    count_on(plan, ranks, exchange, groups_at(seizable, exchange)) > usize::from(spare)
}

impl<'a, A: Allocator> Rule for AnyRoutes<'a, A> {
    ghost exchanges = { λ r. length r.plan.now.exchanges };

    ghost follows = { λ r. can_follow r.plan.now r.spare };

    fn exchanges(&self) -> usize {
        self.plan.exchanges()
    }

    fn follows(&self, ranks: &[Option<u8>], exchange: ExchangeId) -> bool {
        can_follow(self.plan, self.seizable, self.spare, ranks, exchange)
    }

    ghost local = { λ rule. rule.local };
}

/// By the present routes for a code: an exchange whose list has more than `spare` groups, all of
/// which lead to ranked exchanges.
#[derive(Drop)]
pub struct PresentRoutes<'a, A: Allocator> {
    pub plan: &'a Plan<A>,
    pub code: CodeId,
    pub spare: u8,
    ghost local: { IsLocal (length plan.now.exchanges) (does_follow plan.now code spare) },
}

/// Whether all groups lead to ranked exchanges.
fn all_on<A: Allocator>(
    plan: &Plan<A>,
    ranks: &[Option<u8>],
    exchange: ExchangeId,
    groups: &[GroupId],
) -> bool
    requires { length ranks.now ≡ length plan.now.exchanges }
    ensures { (of : ℕ → Option ℕ) → ranks.now ≡ rank_list plan.now of
        → result ≡ list_all (λ g. leads_on plan.now of exchange g) groups.now }
{
    for group in groups {
        if !leads_on(plan, ranks, exchange, *group) {
            return false;
        }
    }
    true
}

impl<'a, A: Allocator> Rule for PresentRoutes<'a, A> {
    ghost exchanges = { λ r. length r.plan.now.exchanges };

    ghost follows = { λ r. does_follow r.plan.now r.code r.spare };

    fn exchanges(&self) -> usize {
        self.plan.exchanges()
    }

    fn follows(&self, ranks: &[Option<u8>], exchange: ExchangeId) -> bool {
        let list = self.plan.list(exchange, self.code);
        list.len() > usize::from(self.spare) && all_on(self.plan, ranks, exchange, list)
    }

    ghost local = { λ rule. rule.local };
}
