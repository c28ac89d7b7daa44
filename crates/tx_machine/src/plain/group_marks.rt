// A mark for each group.
ghost use Rattle.std.specs.Prelude.{◌≡◌, ◌<◌, IfOk};
ghost use Rattle.std.specs.FinSet as set;

use std::alloc::{Allocator, Global};
use std::marker::Model;
use tx_plan::GroupId;
use tx_text::NoMemory;

/// Groups that are marked, of so many.
#[derive(Drop)]
pub(crate) struct GroupMarks<A: Allocator = Global> {
    bits: Vec<bool, A>,
    groups: usize,
}

impl<A: Allocator> Model for GroupMarks<A> {
    ghost use Rattle.std.specs.Prelude.{◌≡◌, length};
    ghost use Rattle.tx_machine.specs.inner.Marks.{Groups, groups_of, groups_code};

    ghost Value = { Groups };

    ghost coded = { groups_code };

    ghost view = { λ m. record { marked = groups_of m.bits.items; groups = m.groups } };

    ghost invariant = { λ m. length m.bits.items ≡ m.groups };
}

impl<A: Allocator> GroupMarks<A> {
    /// No mark, among so many groups.
    #[tactic(auto, using(crate::proofs::Bits::no_groups))]
    pub(crate) fn new(alloc: A, groups: usize) -> Result<GroupMarks<A>, NoMemory>
        ensures { IfOk result (λ m. m ≡ record { marked = set.empty; groups = groups }) }
    {
        let bits = Vec::from_elem(alloc, false, groups)?;
        Ok(GroupMarks { bits, groups })
    }

    /// Whether the group is marked.
    #[tactic(auto, using(crate::proofs::Bits::in_groups))]
    pub(crate) fn has(&self, group: GroupId) -> bool
        ensures { result ≡ set.contains self.now.marked group }
    {
        group.index() < self.groups && self.bits[group.index()]
    }

    /// Marks the group.
    pub(crate) fn set(&mut self, group: GroupId)
        requires { group < self.old.groups }
        ensures { self.new ≡ record self.old { marked = set.insert self.old.marked group } }
    {
        self.bits[group.index()] = true;
    }

    /// Takes the group's mark away.
    pub(crate) fn clear(&mut self, group: GroupId)
        requires { group < self.old.groups }
        ensures { self.new ≡ record self.old { marked = set.remove self.old.marked group } }
    {
        self.bits[group.index()] = false;
    }
}
