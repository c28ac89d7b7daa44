// What the walk of a finding takes from the new plan.
ghost use Rattle.std.specs.Prelude.{◌≡◌, ◌==◌, ◌&&◌};
ghost use Rattle.tx_change.specs.Shown.{is_listed, at_end_of, listed_by, barred_by};

use crate::mixing::Mixing;
use std::alloc::Allocator;
use tx_plan::{CodeId, ExchangeId, GroupId, Plan};
use tx_rank::Walk;

/// The walk of a finding, of one code, and the spare number if the list at its end is short.
#[derive(Drop)]
pub struct Taking<'a, A: Allocator> {
    pub old: &'a Plan<A>,
    pub code: CodeId,
    pub walk: &'a Walk<A>,
    pub spare: Option<u8>,
}

impl<'a, A: Allocator> Mixing for Taking<'a, A> {
    ghost listed = { λ t x c. (c == t.code) && listed_by t.old.now t.code t.spare t.walk.now x };

    ghost barred = { λ t x c. (c == t.code) && barred_by t.old.now t.code t.walk.now x };

    fn has_list(&self, exchange: ExchangeId, code: CodeId) -> bool {
        code == self.code && takes_list(self.old, self.code, self.walk, self.spare, exchange)
    }

    fn has_bar(&self, exchange: ExchangeId, code: CodeId) -> bool {
        code == self.code && takes_bar(self.old, self.code, self.walk, exchange)
    }
}

/// Whether the walk takes the new list of an exchange.
fn takes_list<A: Allocator>(
    old: &Plan<A>,
    code: CodeId,
    walk: &Walk<A>,
    spare: Option<u8>,
    exchange: ExchangeId,
) -> bool
    ensures { result ≡ listed_by old.now code spare walk.now exchange }
{
    let mut at = walk.start;
    let steps = walk.steps.as_slice();
    for i in 0..steps.len() {
        let (group, to) = steps[i];
        if at == exchange {
            return !is_listed(old, code, at, group);
        }
        at = to;
    }
    at == exchange && is_long_before(old, code, spare, at)
}

/// Whether the old list at the end of the walk is long enough, where one is to be short.
fn is_long_before<A: Allocator>(
    old: &Plan<A>,
    code: CodeId,
    spare: Option<u8>,
    exchange: ExchangeId,
) -> bool
    ensures { result ≡ at_end_of old.now code spare exchange }
{
    match spare {
        Some(spare) => old.list(exchange, code).len() > usize::from(spare),
        None => false,
    }
}

/// Whether it takes the new bar, or that there is none, at an exchange.
fn takes_bar<A: Allocator>(
    old: &Plan<A>,
    code: CodeId,
    walk: &Walk<A>,
    exchange: ExchangeId,
) -> bool
    ensures { result ≡ barred_by old.now code walk.now exchange }
{
    walk.start == exchange && !old.is_origin_for(walk.start, code)
}

/// Whether a group is in the list of an exchange.
fn is_listed<A: Allocator>(
    plan: &Plan<A>,
    code: CodeId,
    exchange: ExchangeId,
    group: GroupId,
) -> bool
    ensures { result ≡ is_listed plan.now code exchange group }
{
    plan.list(exchange, code)
        .iter()
        .any(|other| *other == group)
}
