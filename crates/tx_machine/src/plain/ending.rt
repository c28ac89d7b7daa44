// Ending calls.
ghost use Rattle.tx_machine.specs.declared.open_call.Party.TheVariants.{Caller, Called};
ghost use Rattle.std.specs.Prelude.{◌≡◌, ◌<◌, ◌+◌, ◌-◌, ◌^◌, filter, length};
ghost use Rattle.tx_machine.specs.Step.{accepted};
ghost use Rattle.tx_machine.specs.InUse.{uses_group};
ghost use Rattle.tx_machine.specs.Ending.{end_calls};
ghost use Rattle.tx_machine.specs.inner.GivenUp.{ends_by};
ghost use Rattle.tx_machine.specs.declared.event.Event.TheVariants.{Fail, Clear};

use crate::plain::Plain;
use crate::plain::ended_calls::{Ends, count_ending, give_up, take_out};
use crate::{Cause, Party, Reply};
use std::alloc::Allocator;
use tx_plan::GroupId;

impl<'p, A: Allocator + Copy> Plain<'p, A> {
    /// A call is cleared.
    pub(crate) fn clear(&mut self, number: u32, party: Party) -> Reply
        requires { self.old.state.events < 2 ^ 64 - 1 }
        ensures step { accepted self.old.plan self.old.state (Clear number party)
            ≡ (result, self.new.state) }
        ensures plan { self.new.plan ≡ self.old.plan }
    {
        let cause = match party {
            Party::Caller => Cause::ClearedByCaller,
            Party::Called => Cause::ClearedByCalled,
        };
        self.end(&Ends::Numbered(number), cause);
        Reply::Cleared
    }

    /// A group fails.
    pub(crate) fn fail(&mut self, group: GroupId) -> Reply
        requires events { self.old.state.events < 2 ^ 64 - 1 }
        requires group { group < length self.old.plan.groups }
        ensures step { accepted self.old.plan self.old.state (Fail group)
            ≡ (result, self.new.state) }
        ensures plan { self.new.plan ≡ self.old.plan }
    {
        let lost = self.count_on(group);
        self.end(&Ends::OnGroup(group), Cause::Lost);
        self.marks.fail(group);
        Reply::Lost(lost)
    }

    /// How many calls are on the group.
    pub(crate) fn count_on(&self, group: GroupId) -> u64
        ensures { result ≡ length (filter (uses_group group) self.now.state.calls) }
    {
        count_ending(self.calls.as_slice(), &Ends::OnGroup(group)) as u64
    }

    /// An event ends calls, with one cause.
    pub(crate) fn end(&mut self, ends: &Ends, cause: Cause)
        requires { self.old.state.events < 2 ^ 64 - 1 }
        ensures { self.new ≡ record self.old
            { state = end_calls self.old.plan cause (ends_by ends.now) self.old.state } }
    {
        give_up(self.calls.as_slice(), ends, &mut self.marks.releasing);
        take_out(
            self.plan,
            &mut self.calls,
            &mut self.tickets,
            ends,
            cause,
            self.events + 1,
        );
    }
}
