// The marks of groups and circuits.
ghost use Rattle.std.specs.Prelude.{◌≡◌, ◌<◌, ◌≤◌, ◌^◌, IfOk, not, ◌==◌};
ghost use Rattle.std.specs.FinSet as set;
ghost use Rattle.tx_machine.specs.inner.Marked.{no_marks};

use crate::plain::circuit_marks::CircuitMarks;
use crate::plain::group_marks::GroupMarks;
use std::alloc::{Allocator, Global};
use tx_plan::GroupId;
use tx_text::NoMemory;

/// Which groups are failed or blocked, and which circuits are releasing or out of service.
pub(crate) struct Marks<A: Allocator = Global> {
    pub(crate) failed: GroupMarks<A>,
    pub(crate) blocked: GroupMarks<A>,
    pub(crate) releasing: CircuitMarks<A>,
    pub(crate) out: CircuitMarks<A>,
}

impl<A: Allocator> Drop for Marks<A> {
    fn drop(self) {
        let Self {
            failed,
            blocked,
            releasing,
            out,
        } = self;
        drop(failed);
        drop(blocked);
        drop(releasing);
        drop(out);
    }
}

impl<A: Allocator + Copy> Marks<A> {
    /// No mark, among so many groups.
    pub(crate) fn new(alloc: A, groups: usize) -> Result<Marks<A>, NoMemory>
        requires { groups ≤ 2 ^ 16 }
        ensures { IfOk result (λ m. m ≡ no_marks groups) }
    {
        let failed = GroupMarks::new(alloc, groups)?;
        let blocked = GroupMarks::new(alloc, groups)?;
        let releasing = CircuitMarks::new(alloc, groups)?;
        let out = CircuitMarks::new(alloc, groups)?;
        Ok(Marks {
            failed,
            blocked,
            releasing,
            out,
        })
    }
}

impl<A: Allocator> Marks<A> {
    /// A group fails, and none of its circuits is releasing any longer.
    pub(crate) fn fail(&mut self, group: GroupId)
        requires failed { group < self.old.failed.groups }
        requires releasing { group < self.old.releasing.groups }
        ensures { self.new ≡ record self.old {
          failed = record self.old.failed {
            marked = set.insert
                self.old.failed.marked group;
          };
          releasing = record self.old.releasing
              { marked = set.retain self.old.releasing.marked (λ x. not (x.group == group)) };
        } }
    {
        self.failed.set(group);
        self.releasing.clear_group(group);
    }
}
