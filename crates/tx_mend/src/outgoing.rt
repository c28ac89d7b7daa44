// The groups that exchanges may seize.
ghost use Rattle.std.specs.Prelude.{◌≡◌, [], map, length, unwrap_or, slice_get, IfOk};
ghost use Rattle.tx_mend.specs.LeastRanks.{indexes, outgoing};

use std::alloc::{Allocator, Global};
use std::marker::Model;
use tx_plan::{ExchangeId, GroupId, Plan};
use tx_text::NoMemory;

/// The groups that an exchange may seize, in order of declaration.
#[derive(Drop)]
pub struct Outgoing<A: Allocator = Global> {
    groups: Vec<GroupId, A>,
}

impl<A: Allocator> Model for Outgoing<A> {
    ghost use Rattle.std.specs.Prelude.{ℕ, List};

    ghost Value = { List ℕ };

    ghost view = { λ s. s.groups.items };
}

impl<A: Allocator> Outgoing<A> {
    /// The groups.
    pub fn groups(&self) -> &[GroupId]
        ensures { result.now ≡ self.now }
    {
        &self.groups
    }
}

/// Those of an exchange; none for one that the list does not have.
pub fn groups_at<A: Allocator>(seizable: &[Outgoing<A>], exchange: ExchangeId) -> &[GroupId]
    ensures { result.now ≡ unwrap_or (slice_get seizable.now exchange) [] }
{
    match seizable.get(exchange.index()) {
        Some(groups) => groups.groups(),
        None => &[],
    }
}

/// Those of one exchange.
fn outgoing_of<A: Allocator + Copy>(
    alloc: A,
    plan: &Plan<A>,
    exchange: ExchangeId,
) -> Result<Outgoing<A>, NoMemory>
    ensures { IfOk result (λ groups. groups ≡ outgoing plan.now exchange) }
{
    let mut groups = Vec::new(alloc);
    for index in 0..plan.groups() {
        let group = GroupId::of(index);
        if plan.may_seize(group, exchange) {
            groups.push(group)?;
        }
    }
    Ok(Outgoing { groups })
}

/// Those of each exchange.
pub fn all_outgoing<A: Allocator + Copy>(
    alloc: A,
    plan: &Plan<A>,
) -> Result<Vec<Outgoing<A>, A>, NoMemory>
    ensures { IfOk result (λ lists. lists.items
        ≡ map (outgoing plan.now) (indexes (length plan.now.exchanges))) }
{
    let mut lists = Vec::new(alloc);
    for index in 0..plan.exchanges() {
        lists.push(outgoing_of(alloc, plan, ExchangeId::of(index))?)?;
    }
    Ok(lists)
}
