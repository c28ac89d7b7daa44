// Lists of events, played on the engine.
ghost use Rattle.std.specs.Prelude.{◌≡◌, IfOk, OnOk, []};
ghost use Rattle.tx_machine.specs.Drained.{drained};
ghost use Rattle.tx_machine.specs.Runs.{replies as replies_to, state_after};
ghost use Rattle.tx_machine.specs.State.{opening};

use std::alloc::{Allocator, Global};
use tx_engine::Engine;
use tx_machine::{Event, Network, Reply, Ticket, drive};
use tx_plan::Plan;
use tx_text::NoMemory;

/// What a list of events came to.
pub struct Played<'p, A: Allocator = Global> {
    /// The reply to each event.
    pub replies: Vec<Reply, A>,
    /// The tickets of the calls that ended, the oldest first.
    pub tickets: Vec<Ticket<A>, A>,
    /// The network after the events, with its tickets taken.
    pub network: Engine<'p, A>,
}

impl<A: Allocator> Drop for Played<'_, A> {
    fn drop(self) {
        let Self {
            replies,
            tickets,
            network,
        } = self;
        drop(replies);
        drop(tickets);
        drop(network);
    }
}

/// Plays events on the engine of a plan, from the opening state with so many numbers given and so
/// many events accepted. The replies, the tickets and the state after them are those of the run,
/// whatever the plan, the two numbers and the events are. `Err` means out of memory.
pub fn play<'p, A: Allocator + Copy>(
    alloc: A,
    plan: &'p Plan<A>,
    numbers: u32,
    accepted: u64,
    events: &[Event],
) -> Result<Played<'p, A>, NoMemory>
    ensures replies { IfOk result (λ played. played.replies.items
        ≡ replies_to plan.now (opening numbers accepted) events.now) }
    ensures tickets { IfOk result (λ played. played.tickets.items
        ≡ (state_after plan.now (opening numbers accepted) events.now).tickets) }
    ensures network { IfOk result (λ played. played.network ≡ record {
      plan = plan.now;
      state = drained (state_after plan.now (opening numbers accepted) events.now) [];
    }) }
{
    let mut network = Engine::starting_at(alloc, plan, numbers, accepted)?;
    let mut replies = Vec::new(alloc);
    drive(&mut network, events, &mut replies)?;
    let tickets = take_tickets(alloc, &mut network)?;
    Ok(Played {
        replies,
        tickets,
        network,
    })
}

/// Takes all tickets out of a network.
fn take_tickets<A: Allocator + Copy>(
    alloc: A,
    network: &mut Engine<'_, A>,
) -> Result<Vec<Ticket<A>, A>, NoMemory>
    ensures tickets { IfOk result (λ tickets. tickets.items ≡ network.old.state.tickets) }
    ensures network { OnOk result (network.new
        ≡ record network.old { state = drained network.old.state [] }) }
{
    let mut tickets = Vec::new(alloc);
    while let Some(ticket) = network.next_ticket() {
        tickets.push(ticket)?;
    }
    Ok(tickets)
}
