// Calls that are set up one after another.
ghost use Rattle.std.specs.Prelude.{◌≡◌, ◌<◌, length, map, filter, IfOk, OnOk};
ghost use Rattle.std.specs.List.{range_with_len};
ghost use Rattle.std.specs.Option.{option_map};
ghost use Rattle.tx_machine.specs.Call.{last_exchange};
ghost use Rattle.tx_machine.specs.InUse.{is_down};
ghost use Rattle.tx_machine.specs.State.{opening};
ghost use Rattle.tx_machine.specs.Runs.{state_after};
ghost use Rattle.tx_machine.specs.declared.event.Event.TheVariants.{Block};
ghost use Rattle.tx_fill.specs.Fills.{IsFill, end_of, release_of, releases, is_full};

use crate::carrying::call_in_turn;
use std::alloc::{Allocator, Global};
use tx_engine::Engine;
use tx_machine::{Cause, Event, Facts, Hop, Network, Ticket};
use tx_plan::{CodeId, ExchangeId, GroupId, Plan};
use tx_text::NoMemory;

/// What calls that are set up one after another come to.
#[derive(Drop)]
pub struct Fill<A: Allocator = Global> {
    /// How many calls stand.
    pub calls: u64,
    /// How the next call ended, and where. None where no line was left to call or to be called.
    pub next: Option<(Cause, ExchangeId)>,
    /// The groups without a free circuit, but for those that are down.
    pub full: Vec<GroupId, A>,
}

/// Sets up calls for a code from an exchange while some groups are down, from the opening state and
/// one after another: the first line there calls the first line of the code, and so on. Each call
/// is carried as far as it comes. Stops at the first that ends, and releases its circuits. All is
/// that of the run of these events. `Err` means out of memory.
pub fn set_up_calls<A: Allocator + Copy>(
    alloc: A,
    plan: &Plan<A>,
    down: &[GroupId],
    exchange: ExchangeId,
    code: CodeId,
) -> Result<Fill<A>, NoMemory>
    ensures { IfOk result (IsFill plan.now down.now exchange code) }
{
    let mut network = Engine::new(alloc, plan)?;
    fill_network(alloc, plan, &mut network, down, exchange, code)
}

/// The same over a network in its opening state.
fn fill_network<A: Allocator + Copy>(
    alloc: A,
    plan: &Plan<A>,
    network: &mut Engine<'_, A>,
    down: &[GroupId],
    exchange: ExchangeId,
    code: CodeId,
) -> Result<Fill<A>, NoMemory>
    requires { network.old ≡ record { plan = plan.now; state = opening 0 0 } }
    ensures { IfOk result (IsFill plan.now down.now exchange code) }
{
    block(network, down)?;
    let ended = call_in_turn(plan, network, exchange, code)?;
    let calls = network.open_calls();
    let next = settle(network, ended)?;
    let full = full_groups(alloc, plan, network)?;
    Ok(Fill { calls, next, full })
}

/// Blocks groups.
fn block<A: Allocator + Copy>(
    network: &mut Engine<'_, A>,
    groups: &[GroupId],
) -> Result<(), NoMemory>
    ensures plan { OnOk result (network.new.plan ≡ network.old.plan) }
    ensures state { OnOk result (network.new.state
        ≡ state_after network.old.plan network.old.state (map Block groups.now)) }
{
    for group in groups {
        network.apply(Event::Block(*group))?;
    }
    Ok(())
}

/// Releases the circuits of a call that has ended, if one has. Answers how it ended, and where.
fn settle<A: Allocator + Copy>(
    network: &mut Engine<'_, A>,
    ended: Option<Ticket<A>>,
) -> Result<Option<(Cause, ExchangeId)>, NoMemory>
    ensures plan { OnOk result (network.new.plan ≡ network.old.plan) }
    ensures next { IfOk result (λ next. next ≡ option_map end_of ended) }
    ensures state { OnOk result (network.new.state
        ≡ state_after network.old.plan network.old.state (releases ended)) }
{
    let Some(ticket) = ended else {
        return Ok(None);
    };
    let hops = ticket.path.as_slice();
    release(network, hops)?;
    Ok(Some((ticket.cause, last_exchange(ticket.start, hops))))
}

/// Releases circuits.
fn release<A: Allocator + Copy>(network: &mut Engine<'_, A>, hops: &[Hop]) -> Result<(), NoMemory>
    ensures plan { OnOk result (network.new.plan ≡ network.old.plan) }
    ensures state { OnOk result (network.new.state
        ≡ state_after network.old.plan network.old.state (map release_of hops.now)) }
{
    for hop in hops {
        network.apply(Event::Released(hop.circuit))?;
    }
    Ok(())
}

/// The exchange that the hops lead to from the start.
fn last_exchange(start: ExchangeId, hops: &[Hop]) -> ExchangeId
    ensures { result ≡ last_exchange start hops.now }
{
    match hops.last() {
        Some(hop) => hop.far,
        None => start,
    }
}

/// The groups that are full.
fn full_groups<A: Allocator + Copy>(
    alloc: A,
    plan: &Plan<A>,
    network: &Engine<'_, A>,
) -> Result<Vec<GroupId, A>, NoMemory>
    requires { network.now.plan ≡ plan.now }
    ensures { IfOk result (λ full. full.items ≡ filter (is_full plan.now network.now.state)
        (range_with_len 0 (length plan.now.groups))) }
{
    let mut full = Vec::new(alloc);
    for index in 0..plan.groups() {
        let group = GroupId::of(index);
        if is_full(plan, network, group) {
            full.push(group)?;
        }
    }
    Ok(full)
}

/// Whether a group is full: it is not down, and its first end finds no circuit free.
fn is_full<A: Allocator + Copy>(plan: &Plan<A>, network: &Engine<'_, A>, group: GroupId) -> bool
    requires plan { network.now.plan ≡ plan.now }
    requires group { group < length plan.now.groups }
    ensures { result ≡ is_full plan.now network.now.state group }
{
    let (end, _) = plan.ends(group);
    !is_down(network, group) && network.first_free(group, end).is_none()
}

fn is_down<A: Allocator + Copy>(network: &Engine<'_, A>, group: GroupId) -> bool
    ensures { result ≡ is_down network.now.state group }
{
    network.is_failed(group) || network.is_blocked(group)
}
