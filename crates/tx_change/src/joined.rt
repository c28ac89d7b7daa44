// The lists of an exchange for a code in two plans, joined.
ghost use Rattle.std.specs.Prelude.{◌≡◌, IfOk};
ghost use Rattle.tx_change.specs.inner.Joined.{joined_of, AreJoined};

use std::alloc::{Allocator, Global};
use std::marker::Model;
use tx_plan::{CodeId, ExchangeId, GroupId, Plan};
use tx_text::NoMemory;

/// The groups of two lists of an exchange, how many the shorter one has, and whether the exchange
/// is barred with both.
#[derive(Drop)]
pub struct JoinedLists<A: Allocator = Global> {
    groups: Vec<GroupId, A>,
    fewest: usize,
    barred: bool,
}

impl<A: Allocator> Model for JoinedLists<A> {
    ghost use Rattle.tx_change.specs.inner.Joined.{Joined};

    ghost Value = { Joined };

    ghost view = { λ j. record {
      groups = j.groups.items;
      fewest = j.fewest;
      barred = j.barred;
    } };
}

impl<A: Allocator> JoinedLists<A> {
    /// Those of two lists.
    pub fn of(
        alloc: A,
        before: &[GroupId],
        after: &[GroupId],
        barred: bool,
    ) -> Result<JoinedLists<A>, NoMemory>
        ensures { IfOk result (λ j. j ≡ joined_of before.now after.now barred) }
    {
        let mut groups = Vec::new(alloc);
        groups.extend_from_slice(before)?;
        groups.extend_from_slice(after)?;
        let fewest = before.len().min(after.len());
        Ok(JoinedLists {
            groups,
            fewest,
            barred,
        })
    }

    /// The groups of both.
    pub fn groups(&self) -> &[GroupId]
        ensures { result.now ≡ self.now.groups }
    {
        self.groups.as_slice()
    }

    /// How many the shorter one has.
    pub fn fewest(&self) -> usize
        ensures { result ≡ self.now.fewest }
    {
        self.fewest
    }

    /// Whether the exchange is barred with both.
    pub fn is_barred(&self) -> bool
        ensures { result ≡ self.now.barred }
    {
        self.barred
    }
}

/// Those of all exchanges for a code.
pub fn joined_lists<A: Allocator + Copy>(
    alloc: A,
    old: &Plan<A>,
    new: &Plan<A>,
    code: CodeId,
) -> Result<Vec<JoinedLists<A>, A>, NoMemory>
    ensures { IfOk result (λ lists. AreJoined old.now new.now code lists.items) }
{
    let mut lists = Vec::new(alloc);
    for index in 0..old.exchanges() {
        let exchange = ExchangeId::of(index);
        let barred = old.is_barred(exchange, code) && new.is_barred(exchange, code);
        let before = old.list(exchange, code);
        let after = new.list(exchange, code);
        lists.push(JoinedLists::of(alloc, before, after, barred)?)?;
    }
    Ok(lists)
}
