// The events of the steps of a walk.
ghost use Rattle.std.specs.Prelude.{◌≡◌, ◌++◌, map, IfOk};
ghost use Rattle.tx_machine.specs.declared.event.Event.TheVariants.{Block, Unblock};
ghost use Rattle.tx_audit.specs.Counter.{listed_before, step_events, walk_events, shut_events};

use std::alloc::Allocator;
use tx_machine::Event;
use tx_plan::{CodeId, ExchangeId, GroupId, Plan};
use tx_text::NoMemory;

/// The groups that a list has before one of them.
fn listed_before(list: &[GroupId], group: GroupId) -> &[GroupId]
    ensures { result.now ≡ listed_before group list.now }
{
    for i in 0..list.len() {
        if list[i] == group {
            return &list[..i];
        }
    }
    list
}

/// Blocks the groups.
fn push_blocks<A: Allocator>(groups: &[GroupId], events: &mut Vec<Event, A>) -> Result<(), NoMemory>
    ensures { IfOk result (λ _. events.new.items ≡ events.old.items ++ map Block groups.now) }
{
    for group in groups {
        events.push(Event::Block(*group))?;
    }
    Ok(())
}

/// Unblocks the groups.
fn push_unblocks<A: Allocator>(
    groups: &[GroupId],
    events: &mut Vec<Event, A>,
) -> Result<(), NoMemory>
    ensures { IfOk result (λ _. events.new.items ≡ events.old.items ++ map Unblock groups.now) }
{
    for group in groups {
        events.push(Event::Unblock(*group))?;
    }
    Ok(())
}

/// The call goes on by the group: those listed before it are blocked while it is routed.
fn push_step<A: Allocator>(
    list: &[GroupId],
    group: GroupId,
    events: &mut Vec<Event, A>,
) -> Result<(), NoMemory>
    ensures { IfOk result (λ _. events.new.items ≡ events.old.items ++ step_events list.now group) }
{
    let front = listed_before(list, group);
    push_blocks(front, events)?;
    events.push(Event::Route(1))?;
    push_unblocks(front, events)?;
    events.push(Event::Confirm(1))?;
    Ok(())
}

/// The call goes along the steps, from the exchange where it starts.
pub(crate) fn push_walk<A: Allocator>(
    plan: &Plan<A>,
    code: CodeId,
    start: ExchangeId,
    steps: &[(GroupId, ExchangeId)],
    events: &mut Vec<Event, A>,
) -> Result<(), NoMemory>
    ensures { IfOk result (λ _. events.new.items
        ≡ events.old.items ++ walk_events plan.now code start steps.now) }
{
    let mut at = start;
    for step in steps {
        push_step(plan.list(at, code), step.0, events)?;
        at = step.1;
    }
    Ok(())
}

/// All groups that the exchange lists for the code are blocked, and the call is routed.
pub(crate) fn push_block_all<A: Allocator>(
    plan: &Plan<A>,
    code: CodeId,
    exchange: ExchangeId,
    events: &mut Vec<Event, A>,
) -> Result<(), NoMemory>
    ensures { IfOk result (λ _. events.new.items
        ≡ events.old.items ++ shut_events plan.now code exchange) }
{
    push_blocks(plan.list(exchange, code), events)?;
    events.push(Event::Route(1))?;
    Ok(())
}
