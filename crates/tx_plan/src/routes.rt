// The routes of a plan, the lists of groups that they name, and what is barred.
ghost use Rattle.std.specs.Prelude.{◌≡◌, ◌++◌, ◌∷◌, ◌&&◌, ◌==◌, [], false, find, OnOk, OnErr, length, slice_get, ◌≤◌};
ghost use Rattle.std.specs.List.{list_any};
ghost use Rattle.std.specs.Option.{option_map, option_map_or};
ghost use Rattle.tx_plan.specs.inner.Distinct.{differ};

use crate::ids::{ByWord, GroupId, Pair};
use arrayvec::ArrayVec;
use indexmap::{IndexMap, IndexSet};
use std::alloc::{Allocator, Global};
use std::marker::Model;
use tx_text::NoMemory;

/// At most 16 groups, in order.
pub type GroupList = ArrayVec<GroupId, 16>;

/// Whether no group is there twice.
pub(crate) fn none_twice(groups: &[GroupId]) -> bool
    ensures { result ≡ differ groups.now }
{
    match groups {
        [] => true,
        [group, rest @ ..] => !rest.contains(group) && none_twice(rest),
    }
}

/// Pairs of an exchange and a code, and the groups that the exchange tries for the code.
pub struct Routes<A: Allocator = Global> {
    rows: IndexMap<Pair, GroupList, ByWord, A>,
}

impl<A: Allocator> Drop for Routes<A> {
    fn drop(self) {
        let Self { rows } = self;
        drop(rows);
    }
}

impl<A: Allocator> Model for Routes<A> {
    ghost use Rattle.std.specs.Prelude.{List, map};
    ghost use Rattle.tx_plan.specs.Plan.{Route};
    ghost use Rattle.tx_plan.specs.inner.Tables.{route_of_row};

    ghost Value = { List Route };

    ghost view = { λ t. map route_of_row t.rows.entries };
}

impl<A: Allocator + Copy> Routes<A> {
    /// None. Takes no memory.
    pub fn new(alloc: A) -> Self
        ensures { result ≡ [] }
    {
        Routes {
            rows: IndexMap::with_hasher(alloc, ByWord),
        }
    }
}

impl<A: Allocator> Routes<A> {
    /// How many routes.
    pub fn len(&self) -> usize
        ensures { result ≡ length self.now }
    {
        self.rows.len()
    }

    /// Whether there is a route for the pair.
    pub fn has(&self, pair: &Pair) -> bool
        ensures { result ≡ list_any
            (λ r. (r.exchange == pair.now.exchange) && (r.code == pair.now.code)) self.now }
    {
        self.rows.contains_key(pair)
    }

    /// The groups of the pair's route.
    pub fn list(&self, pair: &Pair) -> &[GroupId]
        ensures value { result.now ≡ option_map_or (λ r. r.groups) (find
            (λ r. (r.exchange == pair.now.exchange) && (r.code == pair.now.code)) self.now) [] }
        ensures few { length result.now ≤ 16 }
    {
        match self.rows.get(pair) {
            Some(groups) => groups.as_slice(),
            None => &[],
        }
    }

    /// The pair of the route at an index.
    pub fn pair_at(&self, index: usize) -> Option<Pair>
        ensures { result ≡ option_map (λ r. record { exchange = r.exchange; code = r.code })
            (slice_get self.now index) }
    {
        let (pair, _) = self.rows.get_index(index)?;
        Some(*pair)
    }

    /// Appends a route.
    pub fn add(&mut self, pair: Pair, groups: GroupList) -> Result<(), NoMemory>
        requires { list_any (λ r. (r.exchange == pair.exchange) && (r.code == pair.code)) self.old
            ≡ false }
        ensures ok { OnOk result (self.new ≡ self.old
            ++ record { exchange = pair.exchange; code = pair.code; groups = groups.items } ∷ []) }
        ensures err { OnErr result (self.new ≡ self.old) }
    {
        self.rows.insert(pair, groups)?;
        Ok(())
    }
}

/// Pairs of an exchange and a code: calls that start there for that code are not admitted.
pub struct Bars<A: Allocator = Global> {
    pairs: IndexSet<Pair, ByWord, A>,
}

impl<A: Allocator> Drop for Bars<A> {
    fn drop(self) {
        let Self { pairs } = self;
        drop(pairs);
    }
}

impl<A: Allocator> Model for Bars<A> {
    ghost use Rattle.std.specs.Prelude.{List};
    ghost use Rattle.tx_plan.specs.declared.ids.Pair.{Pair};

    ghost Value = { List Pair };

    ghost view = { λ t. t.pairs.keys };
}

impl<A: Allocator + Copy> Bars<A> {
    /// None. Takes no memory.
    pub fn new(alloc: A) -> Self
        ensures { result ≡ [] }
    {
        Bars {
            pairs: IndexSet::with_hasher(alloc, ByWord),
        }
    }
}

impl<A: Allocator> Bars<A> {
    /// How many bars.
    pub fn len(&self) -> usize
        ensures { result ≡ length self.now }
    {
        self.pairs.len()
    }

    /// Whether the pair is barred.
    pub fn has(&self, pair: &Pair) -> bool
        ensures { result ≡ list_any
            (λ b. (b.exchange == pair.now.exchange) && (b.code == pair.now.code)) self.now }
    {
        self.pairs.contains(pair)
    }

    /// The pair at an index.
    pub fn at(&self, index: usize) -> Option<Pair>
        ensures { result ≡ slice_get self.now index }
    {
        self.pairs.get_index(index).copied()
    }

    /// Appends a bar.
    pub fn add(&mut self, pair: Pair) -> Result<(), NoMemory>
        requires { list_any (λ b. (b.exchange == pair.exchange) && (b.code == pair.code)) self.old
            ≡ false }
        ensures ok { OnOk result (self.new ≡ self.old ++ pair ∷ []) }
        ensures err { OnErr result (self.new ≡ self.old) }
    {
        self.pairs.insert(pair)?;
        Ok(())
    }
}
