// What the words of a route's groups come to, in one pass over them.
ghost use Rattle.std.specs.Prelude.{◌≡◌, ◌||◌, ◌++◌, ◌∷◌, [], not, false, nat_le};
ghost use Rattle.arrayvec.specs.ArrayVec.{array_vec_len};
ghost use Rattle.tx_text.specs.Words.{is_name};
ghost use Rattle.tx_plan.specs.Declaring.{has_group, is_not_outgoing, group_at};
ghost use Rattle.tx_plan.specs.inner.RouteScan.{IsScanOf};

use crate::ids::{GroupId, Pair};
use crate::plan::Plan;
use crate::routes::GroupList;
use std::alloc::Allocator;
use tx_text::{Words, is_name};

/// What a route's words come to.
#[derive(Drop)]
pub(crate) struct RouteScan {
    /// One is no name.
    pub bad: bool,
    /// One names no group.
    pub unknown: bool,
    /// The exchange may not seize one of the groups.
    pub not_outgoing: bool,
    /// There are more than 16.
    pub many: bool,
    /// The groups of the first 16.
    pub list: GroupList,
}

impl RouteScan {
    /// Takes in the next word.
    #[tactic(auto, using(crate::proofs::Lists::found_any))]
    fn note<A: Allocator>(&mut self, plan: &Plan<A>, pair: &Option<Pair>, word: &[u8])
        ensures bad { self.new.bad ≡ (self.old.bad || not (is_name word.now)) }
        ensures unknown { self.new.unknown
            ≡ (self.old.unknown || not (has_group plan.now word.now)) }
        ensures not_outgoing { self.new.not_outgoing
            ≡ (self.old.not_outgoing || is_not_outgoing plan.now pair.now word.now) }
        ensures many { self.new.many ≡ (self.old.many || nat_le 16 (array_vec_len self.old.list)) }
        ensures list { self.new.many ≡ false
            → self.new.list.items ≡ self.old.list.items ++ group_at plan.now word.now ∷ [] }
    {
        let group = match plan.group_named(word) {
            Some(group) => {
                // It is a name. Tested again, `codes` of the largest plan takes 1.3 times as long.
                plan.rules();
                if let Some(pair) = pair {
                    if !plan.may_seize(group, pair.exchange) {
                        self.not_outgoing = true;
                    }
                }
                group
            }
            None => {
                self.unknown = true;
                self.bad = self.bad || !is_name(word);
                GroupId::of(0)
            }
        };
        if self.list.try_push(group).is_err() {
            self.many = true;
        }
    }
}

/// What the words come to for a pair.
pub(crate) fn scan<A: Allocator>(
    plan: &Plan<A>,
    pair: &Option<Pair>,
    mut words: Words<'_>,
) -> RouteScan
    ensures { IsScanOf plan.now pair.now words.entry result }
{
    let mut scan = RouteScan {
        bad: false,
        unknown: false,
        not_outgoing: false,
        many: false,
        list: GroupList::new(),
    };
    while let Some(word) = words.next() {
        scan.note(plan, pair, word);
    }
    scan
}
