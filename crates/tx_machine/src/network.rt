// What every network promises.
ghost use Rattle.std.specs.Prelude.{◌≡◌, None, true, OnErr, IfOk, slice_get, length};
ghost use Rattle.tx_plan.specs.Plan.{Plan};
ghost use Rattle.tx_machine.specs.State.{State, ticket_taken};
ghost use Rattle.tx_machine.specs.Refusals.{refusal};
ghost use Rattle.tx_machine.specs.Step.{step, takes_memory};

use crate::event::Event;
use crate::reply::Reply;
use crate::ticket::Ticket;
use std::alloc::Allocator;
use tx_text::NoMemory;

/// A network of exchanges, seen as its plan and its state.
pub trait Network {
    /// Whose memory it takes.
    type A: Allocator;

    ghost plan: { Self → Plan };

    ghost state: { Self → State };

    /// Applies one event: the reply and the change are those of the step. Where no memory is left
    /// nothing changes, nothing would have been refused, and the event is a Key, a Route, a
    /// LineFault or a LineAway.
    fn apply(&mut self, event: Event) -> Result<Reply, NoMemory>
        ensures plan { plan self.new ≡ plan self.old }
        ensures step { IfOk result
            (λ reply. step (plan self.old) (state self.old) event ≡ (reply, state self.new)) }
        ensures err { OnErr result (state self.new ≡ state self.old) }
        ensures memory { OnErr result ((takes_memory event ≡ true)
            × (refusal (plan self.old) (state self.old) event ≡ None)) };

    /// Takes out the oldest ticket.
    fn next_ticket(&mut self) -> Option<Ticket<Self::A>>
        ensures plan { plan self.new ≡ plan self.old }
        ensures first { result ≡ slice_get (state self.old).tickets 0 }
        ensures rest { state self.new ≡ ticket_taken (state self.old) };

    /// How many calls are open.
    fn open_calls(&self) -> u64
        ensures { result ≡ length (state self.now).calls };

    /// How many events were accepted, those before an opening state included.
    fn events(&self) -> u64
        ensures { result ≡ (state self.now).events };
}
