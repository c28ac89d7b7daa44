// Calls that are carried as far as they come.
ghost use Rattle.std.specs.Prelude.{◌≡◌, [], slice_get, IfOk, OnOk};
ghost use Rattle.tx_machine.specs.State.{ticket_taken};
ghost use Rattle.tx_fill.specs.CallLines.{line_pairs};
ghost use Rattle.tx_fill.specs.Fills.{is_seized, carried, called, filled};

use crate::call_lines::{full_number, pair_at};
use std::alloc::Allocator;
use tx_engine::Engine;
use tx_machine::{Event, Network, Reply, Ticket};
use tx_plan::{CodeId, ExchangeId, Line, Plan};
use tx_text::NoMemory;

/// Lines at home at the exchange call lines of the code in turn, until a call has ended: its
/// ticket. None where no line is left to call or to be called.
pub(crate) fn call_in_turn<A: Allocator + Copy>(
    plan: &Plan<A>,
    network: &mut Engine<'_, A>,
    exchange: ExchangeId,
    code: CodeId,
) -> Result<Option<Ticket<A>>, NoMemory>
    requires plan { network.old.plan ≡ plan.now }
    requires fresh { network.old.state.tickets ≡ [] }
    ensures plan { OnOk result (network.new.plan ≡ network.old.plan) }
    ensures ended { IfOk result (λ ended. ended ≡ slice_get (filled plan.now
        (line_pairs plan.now exchange code) network.old.state).tickets 0) }
    ensures state { OnOk result (network.new.state ≡ ticket_taken (filled plan.now
        (line_pairs plan.now exchange code) network.old.state)) }
{
    let mut index: u64 = 0;
    while let Some((line, other)) = pair_at(plan, exchange, code, index) {
        call(plan, network, line, &other)?;
        if let Some(ticket) = network.next_ticket() {
            return Ok(Some(ticket));
        }
        index += 1;
    }
    Ok(None)
}

/// A line calls another one, and the call is carried as far as it comes.
fn call<A: Allocator + Copy>(
    plan: &Plan<A>,
    network: &mut Engine<'_, A>,
    line: Line,
    other: &Line,
) -> Result<(), NoMemory>
    requires plan { network.old.plan ≡ plan.now }
    ensures plan { OnOk result (network.new.plan ≡ network.old.plan) }
    ensures state { OnOk result (network.new.state
        ≡ called plan.now (line, other.now) network.old.state) }
{
    let keyed = full_number(plan, other);
    match network.apply(Event::Key { line, keyed })? {
        Reply::Keyed(number) => carry(network, number, 240 * plan.groups() + 1),
        _ => Ok(()),
    }
}

/// Carries a call: routes it, and while it seizes a circuit confirms this and routes it again, over
/// so many circuits at most.
fn carry<A: Allocator + Copy>(
    network: &mut Engine<'_, A>,
    call: u32,
    most: usize,
) -> Result<(), NoMemory>
    ensures plan { OnOk result (network.new.plan ≡ network.old.plan) }
    ensures state { OnOk result (network.new.state
        ≡ carried network.old.plan call most network.old.state) }
{
    for _ in 0..most {
        let reply = network.apply(Event::Route(call))?;
        if !is_seized(&reply) {
            return Ok(());
        }
        network.apply(Event::Confirm(call))?;
    }
    Ok(())
}

fn is_seized(reply: &Reply) -> bool
    ensures { result ≡ is_seized reply.now }
{
    matches!(reply, Reply::Seized(_))
}
