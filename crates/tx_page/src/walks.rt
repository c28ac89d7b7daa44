// Which steps the findings take.
ghost use Rattle.std.specs.Prelude.{◌≡◌};
ghost use Rattle.tx_page.specs.WrongTexts.{listed_before};

use std::alloc::Allocator;
use tx_plan::{ExchangeId, GroupId};
use tx_rank::Walk;

/// Where a walk starts.
pub fn start_of<A: Allocator>(walk: &Walk<A>) -> ExchangeId
    ensures { result ≡ walk.now.start }
{
    walk.start
}

/// The steps of a walk.
pub fn steps_of<A: Allocator>(walk: &Walk<A>) -> &[(GroupId, ExchangeId)]
    ensures { result.now ≡ walk.now.steps }
{
    &walk.steps
}

/// The groups that a list has before one of them.
pub fn listed_before(list: &[GroupId], group: GroupId) -> &[GroupId]
    ensures { result.now ≡ listed_before group list.now }
{
    for i in 0..list.len() {
        if list[i] == group {
            return &list[..i];
        }
    }
    list
}
