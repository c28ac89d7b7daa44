// Lists of events that are driven where memory is refused.
use crate::cases::{Refusing, Told, tell_broken};
use crate::runs::{Over, Script};
use std::alloc::{Allocator, Global};
use tx_engine::Engine;
use tx_machine::{Event, Network, Plain, Reply, drive};
use tx_plan::Plan;
use tx_plantext::read_plan;
use tx_text::NoMemory;

/// How many replies are to accepted events.
fn accepted(replies: &[Reply]) -> u64 {
    let mut count = 0u64;
    for reply in replies {
        if !matches!(reply, Reply::Refused(_)) {
            count = count.saturating_add(1);
        }
    }
    count
}

/// Drives the events, and where memory ran out the rest of them again. Returns whether the replies
/// were those of the events that were applied.
fn drive_on<A: Allocator, N: Network>(
    net: &mut N,
    events: &[Event],
    replies: &mut Vec<Reply, A>,
) -> Result<bool, NoMemory> {
    if drive(net, events, replies).is_ok() {
        return Ok(true);
    }
    if net.events() != accepted(replies.as_slice()) {
        return Ok(false);
    }
    let (_, rest) = events.split_at(replies.len().min(events.len()));
    drive(net, rest, replies).and(Ok(true))
}

/// Drives the events through a network, and returns whether the replies are those of a network that
/// never runs out of memory.
fn drives_on<A: Allocator + Copy, N: Network>(
    alloc: A,
    net: &mut N,
    events: &[Event],
    whole: &[Reply],
) -> Result<bool, NoMemory> {
    let mut replies = Vec::new(alloc);
    Ok(drive_on(net, events, &mut replies)? && replies.as_slice() == whole)
}

/// Drives the events through a new network of the plan.
fn drives_over<A: Allocator + Copy>(
    alloc: A,
    over: Over,
    plan: &Plan<A>,
    events: &[Event],
    whole: &[Reply],
) -> Result<bool, NoMemory> {
    match over {
        Over::Plain => {
            let mut net = Plain::new(alloc, plan)?;
            drives_on(alloc, &mut net, events, whole)
        }
        Over::Engine => {
            let mut net = Engine::new(alloc, plan)?;
            drives_on(alloc, &mut net, events, whole)
        }
    }
}

/// Reads the plan and drives the events over it, all with the allocator. `None` is out of memory.
fn reads_and_drives<A: Allocator + Copy>(
    alloc: A,
    text: Script<'_>,
    events: &[Event],
    whole: &[Reply],
) -> Option<bool> {
    match read_plan(alloc, text.plan) {
        Ok(plan) => drives_over(alloc, text.over, &plan, events, whole).ok(),
        Err(_) => None,
    }
}

/// Refuses each request for memory in turn: the replies pushed are those of the events applied, and
/// the rest of the events given again have their replies.
pub(crate) fn try_drives(
    alloc: Global,
    text: Script<'_>,
    events: &[Event],
    whole: &[Reply],
    out: &mut Told,
) {
    for request in 1..1_000_000u64 {
        let refusing = Refusing::new(alloc, request);
        let did = reads_and_drives(&refusing, text, events, whole);
        let came = refusing.has_refused();
        let keeps = did.unwrap_or(came);
        if !keeps {
            tell_broken(b"driven, refused request", request, out);
        }
        if !came || !keeps {
            break;
        }
    }
}
