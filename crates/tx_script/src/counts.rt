// What is counted of a run for its summary.
ghost use Rattle.std.specs.Prelude.{◌≡◌, ◌+◌, ◌<◌, ◌^◌, true, false, IfOk};
ghost use Rattle.tx_plan.specs.Circuits.{count_of};
ghost use Rattle.tx_script.specs.inner.Counting.{change_at, no_marks, count_for, with_most, uses_after, with_mark, nothing_counted, one_counted, use_at, uses_counted};

use crate::group_use::GroupUse;
use crate::runner::is_refused;
use std::alloc::Allocator;
use std::marker::Model;
use tx_machine::{Cause, Event, Reply};
use tx_plan::{Circuit, GroupId, Plan};
use tx_text::NoMemory;

/// How many calls ended by each cause, and how the circuits of each group were used.
#[derive(Drop)]
pub(crate) struct Counts<A: Allocator> {
    /// By the indexes of the causes.
    calls: [u64; 9],
    groups: Vec<GroupUse, A>,
}

impl<A: Allocator> Model for Counts<A> {
    ghost use Rattle.tx_script.specs.inner.Counting.{Counted};

    ghost Value = { Counted };

    ghost view = { λ c. record { calls = c.calls; groups = c.groups.items } };
}

impl<A: Allocator> Counts<A> {
    /// Nothing was counted yet.
    pub(crate) fn new<B: Allocator>(alloc: A, plan: &Plan<B>) -> Result<Counts<A>, NoMemory>
        ensures { IfOk result (λ c. c ≡ nothing_counted plan.now) }
    {
        let groups = Vec::from_elem(alloc, GroupUse::new(), plan.groups())?;
        Ok(Counts {
            calls: [0; 9],
            groups,
        })
    }

    /// How many calls ended by a cause.
    pub(crate) fn ended_by(&self, cause: Cause) -> u64
        ensures { result ≡ count_for self.now.calls cause }
    {
        self.calls[cause.index()]
    }

    /// The most circuits of a group that were taken at once.
    pub(crate) fn most_of(&self, group: GroupId) -> u32
        ensures { result ≡ (use_at self.now.groups group).most }
    {
        match self.groups.get(group.index()) {
            Some(group) => group.most,
            None => 0,
        }
    }

    /// A call ended.
    pub(crate) fn ended(&mut self, cause: Cause)
        requires { count_for self.old.calls cause + 1 < 2 ^ 64 }
        ensures { self.new ≡ one_counted cause self.old }
    {
        self.calls[cause.index()] += 1;
    }

    /// An event was answered.
    pub(crate) fn answered<B: Allocator>(&mut self, plan: &Plan<B>, event: &Event, reply: &Reply)
        ensures { self.new ≡ uses_counted plan.now event.now reply.now self.old }
    {
        match event {
            Event::Route(_) => {
                if let Reply::Seized(circuit) = reply {
                    self.seize(plan, circuit);
                }
            }
            Event::Released(circuit) => {
                if !is_refused(reply) {
                    self.release(circuit);
                }
            }
            Event::Fail(group) => {
                if !is_refused(reply) {
                    self.clear(*group);
                }
            }
            Event::Key { .. }
            | Event::Confirm(_)
            | Event::Clear { .. }
            | Event::Restore(_)
            | Event::Block(_)
            | Event::Unblock(_)
            | Event::CircuitOut(_)
            | Event::CircuitIn(_)
            | Event::LineFault(_)
            | Event::LineMend(_)
            | Event::LineAway(_)
            | Event::LineBack(_) => {}
        }
    }

    fn seize<B: Allocator>(&mut self, plan: &Plan<B>, circuit: &Circuit)
        ensures { self.new ≡ record self.old {
          groups = change_at circuit.now.group
              (λ u. with_most (count_of plan.now circuit.now.group)
              (with_mark circuit.now.number true u)) self.old.groups;
        } }
    {
        let index = circuit.group.index();
        if index < self.groups.len() {
            let group = &mut self.groups[index];
            group.seize(circuit.number, plan.group_count(circuit.group));
        }
    }

    fn release(&mut self, circuit: &Circuit)
        ensures { self.new ≡ record self.old {
          groups = change_at circuit.now.group
              (with_mark circuit.now.number false) self.old.groups;
        } }
    {
        let index = circuit.group.index();
        if index < self.groups.len() {
            let group = &mut self.groups[index];
            group.mark(circuit.number, false);
        }
    }

    fn clear(&mut self, group: GroupId)
        ensures { self.new ≡ record self.old { groups = change_at group no_marks self.old.groups } }
    {
        let index = group.index();
        if index < self.groups.len() {
            let group = &mut self.groups[index];
            group.clear();
        }
    }
}
