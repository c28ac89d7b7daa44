// A network over lists.
ghost use Rattle.std.specs.Prelude.{◌≡◌, ◌<◌, ◌+◌, ◌-◌, IfOk, OnErr, Some, None, true, not, filter};
ghost use Rattle.tx_machine.specs.Step.{takes_memory, accepted};
ghost use Rattle.tx_machine.specs.State.{opening};
ghost use Rattle.tx_machine.specs.Refusals.{refusal};
ghost use Rattle.tx_plan.specs.Orders.{same_line};

mod calls;
mod changing;
mod circuit_marks;
mod confirm;
mod ended_calls;
mod ending;
mod facts;
mod group_marks;
mod keyed;
mod keying;
mod looking;
mod marks;
mod route;

use crate::plain::marks::Marks;
use crate::{Event, Network, OpenCall, Reply, Ticket, refusal_of};
use std::alloc::{Allocator, Global};
use std::marker::Model;
use tx_plan::{Line, Plan};
use tx_text::NoMemory;

/// The plain network: it keeps lists and marks, as the definitions do, and goes through them. The
/// marks have their room from the start.
pub struct Plain<'p, A: Allocator = Global> {
    pub(crate) plan: &'p Plan<A>,
    pub(crate) alloc: A,
    pub(crate) calls: Vec<OpenCall<A>, A>,
    pub(crate) marks: Marks<A>,
    pub(crate) faulty: Vec<Line, A>,
    pub(crate) away: Vec<Line, A>,
    pub(crate) numbers: u32,
    pub(crate) events: u64,
    pub(crate) tickets: Vec<Ticket<A>, A>,
}

impl<A: Allocator> Drop for Plain<'_, A> {
    fn drop(self) {
        let Self {
            plan: _,
            alloc: _,
            calls,
            marks,
            faulty,
            away,
            numbers: _,
            events: _,
            tickets,
        } = self;
        drop(calls);
        drop(marks);
        drop(faulty);
        drop(away);
        drop(tickets);
    }
}

impl<'p, A: Allocator> Model for Plain<'p, A> {
    ghost use Rattle.tx_machine.specs.State.{Net};

    ghost Value = { Net };

    ghost use Rattle.std.specs.FinSet as set;
    ghost use Rattle.std.specs.Ordering.{nat_cmp};
    ghost use Rattle.std.specs.Coded.{coded_ℕ, codes};
    ghost use Rattle.tx_plan.specs.Orders.{coded_circuit, coded_line, circuit_cmp, line_cmp};

    ghost coded = { Prim.hlevel (
      codes,
      set.code {R = nat_cmp} coded_ℕ,
      set.code
          {R = circuit_cmp} coded_circuit,
      set.code {R = line_cmp} coded_line,
    ) };

    ghost use Rattle.tx_machine.specs.inner.Whole.{net_of, IsWhole};

    ghost view = { λ n. net_of n.plan.now n.calls.items
        n.marks n.faulty.items n.away.items n.numbers n.events n.tickets.items };

    ghost invariant = { λ n. IsWhole n.plan.now n.calls n.tickets n.marks n.numbers };
}

impl<'p, A: Allocator + Copy> Plain<'p, A> {
    /// The network in the opening state in which no number was given and no event accepted.
    pub fn new(alloc: A, plan: &'p Plan<A>) -> Result<Self, NoMemory>
        ensures { IfOk result (λ n. n ≡ record { plan = plan.now; state = opening 0 0 }) }
    {
        Plain::starting_at(alloc, plan, 0, 0)
    }

    /// The network in the opening state with so many call numbers given and so many events
    /// accepted.
    pub fn starting_at(
        alloc: A,
        plan: &'p Plan<A>,
        numbers: u32,
        events: u64,
    ) -> Result<Self, NoMemory>
        ensures { IfOk result
            (λ n. n ≡ record { plan = plan.now; state = opening numbers events }) }
    {
        let groups = plan.groups();
        let marks = Marks::new(alloc, groups)?;
        Ok(Plain {
            plan,
            alloc,
            calls: Vec::new(alloc),
            marks,
            faulty: Vec::new(alloc),
            away: Vec::new(alloc),
            numbers,
            events,
            tickets: Vec::new(alloc),
        })
    }

    /// One event that is not refused, before it is counted.
    fn accept(&mut self, event: &Event) -> Result<Reply, NoMemory>
        requires open { refusal self.old.plan self.old.state event.now ≡ None }
        ensures plan { self.new.plan ≡ self.old.plan }
        ensures ok { IfOk result (λ reply. accepted self.old.plan self.old.state event.now
            ≡ (reply, self.new.state)) }
        ensures err { OnErr result (self.new ≡ self.old) }
        ensures memory { OnErr result (takes_memory event.now ≡ true) }
    {
        match event {
            Event::Key { line, keyed } => return self.key(*line, *keyed),
            Event::Route(number) => return self.route(*number),
            Event::Confirm(number) => return Ok(self.confirm(*number)),
            Event::Clear { call, party } => return Ok(self.clear(*call, *party)),
            Event::Fail(group) => return Ok(self.fail(*group)),
            Event::Released(circuit) => self.marks.releasing.clear(circuit),
            Event::Restore(group) => self.marks.failed.clear(*group),
            Event::Block(group) => self.marks.blocked.set(*group),
            Event::Unblock(group) => self.marks.blocked.clear(*group),
            Event::CircuitOut(circuit) => self.marks.out.set(circuit),
            Event::CircuitIn(circuit) => self.marks.out.clear(circuit),
            Event::LineFault(line) => self.faulty.push(*line)?,
            Event::LineMend(line) => take_line(&mut self.faulty, line),
            Event::LineAway(line) => self.away.push(*line)?,
            Event::LineBack(line) => take_line(&mut self.away, line),
        }
        Ok(Reply::Done)
    }
}

impl<'p, A: Allocator + Copy> Network for Plain<'p, A> {
    type A = A;

    ghost plan = { λ n. n.plan };

    ghost state = { λ n. n.state };

    fn apply(&mut self, event: Event) -> Result<Reply, NoMemory> {
        match refusal_of(self, &event) {
            Some(refusal) => Ok(Reply::Refused(refusal)),
            None => {
                let reply = self.accept(&event)?;
                self.events += 1;
                Ok(reply)
            }
        }
    }

    fn next_ticket(&mut self) -> Option<Ticket<A>> {
        if self.tickets.is_empty() {
            None
        } else {
            Some(self.tickets.remove(0))
        }
    }

    fn open_calls(&self) -> u64 {
        self.calls.len() as u64
    }

    fn events(&self) -> u64 {
        self.events
    }
}

/// Takes a line out of the list.
fn take_line<A: Allocator>(lines: &mut Vec<Line, A>, line: &Line)
    ensures { lines.new.items ≡ filter (λ m. not (same_line m line.now)) lines.old.items }
{
    lines.retain(|other| other != line);
}
