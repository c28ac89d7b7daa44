// Calls that end.
ghost use Rattle.std.specs.Prelude.{◌≡◌, ◌≤◌, ◌+◌, ◌++◌, ◌∷◌, [], not, ◌&&◌, ◌||◌, ◌==◌, map, filter, length, vec_len, vec_capacity, if◌then◌else◌};
ghost use Rattle.std.specs.List.{list_any, flat_map};
ghost use Rattle.tx_machine.specs.Ending.{ticket_of};
ghost use Rattle.tx_machine.specs.InUse.{seizes, circuits_used};
ghost use Rattle.tx_machine.specs.Call.{circuit_called};
ghost use Rattle.tx_plan.specs.Among.{Among};
ghost use Rattle.tx_machine.specs.inner.Marks.{HasMark};
ghost use Rattle.tx_machine.specs.Seen.{call_seen};
ghost use Rattle.tx_machine.specs.inner.GivenUp.{ends_by, with_more, is_given, AreMarked};

use crate::plain::calls::seizes;
use crate::plain::circuit_marks::CircuitMarks;
use crate::{Cause, Hop, OpenCall, Phase, Ticket};
use std::alloc::Allocator;
use tx_plan::{Circuit, GroupId, Plan};

/// The calls that end.
#[derive(Clone, Copy)]
pub(crate) enum Ends {
    /// The call of a number.
    Numbered(u32),
    /// Of two calls that collide, those that had collided before.
    Collided {
        a: u32,
        a_ends: bool,
        b: u32,
        b_ends: bool,
    },
    /// The calls on a group.
    OnGroup(GroupId),
}

/// Whether the call ends.
fn is_ended<A: Allocator>(call: &OpenCall<A>, ends: &Ends) -> bool
    ensures { result ≡ ends_by ends.now (call_seen call.now) }
{
    match ends {
        Ends::Numbered(number) => call.number == *number,
        Ends::Collided {
            a,
            a_ends,
            b,
            b_ends,
        } => (call.number == *a && *a_ends) || (call.number == *b && *b_ends),
        Ends::OnGroup(group) => uses_group(call, *group),
    }
}

/// Whether the call carries or seizes a circuit of the group.
fn uses_group<A: Allocator>(call: &OpenCall<A>, group: GroupId) -> bool
    ensures { result ≡ list_any (λ x. x.group == group) (circuits_used (call_seen call.now)) }
{
    let carried = hops_use(&call.hops, group);
    let called = phase_uses(&call.phase, group);
    carried || called
}

/// Whether the phase calls on a circuit of the group.
fn phase_uses(phase: &Phase, group: GroupId) -> bool
    ensures { result ≡ list_any (λ x. x.group == group) (circuit_called phase.now) }
{
    match phase {
        Phase::Calling(circuit) => circuit.group == group,
        Phase::Standing | Phase::Connected(_) => false,
    }
}

/// Whether one of the hops goes over the group.
fn hops_use(hops: &[Hop], group: GroupId) -> bool
    ensures { result ≡ list_any (λ h. h.circuit.group == group) hops.now }
{
    hops.iter().any(|hop| hop.circuit.group == group)
}

/// Whether one of the calls that go on seizes the circuit.
fn kept<A: Allocator>(calls: &[OpenCall<A>], ends: &Ends, circuit: &Circuit) -> bool
    ensures { result ≡ list_any (λ c. not (ends_by ends.now (call_seen c))
        && seizes (call_seen c) circuit.now) calls.now }
{
    calls
        .iter()
        .any(|call| !is_ended(call, ends) && seizes(call, circuit))
}

/// Gives up one circuit.
fn give<A: Allocator>(
    calls: &[OpenCall<A>],
    ends: &Ends,
    circuit: &Circuit,
    releasing: &mut CircuitMarks<A>,
)
    requires { HasMark releasing.old.groups circuit.now }
    ensures { releasing.new ≡ with_more releasing.old
        (filter (is_given ends.now (map call_seen calls.now)) (circuit.now ∷ [])) }
{
    let is_kept = kept(calls, ends, circuit);
    if is_kept {
        return;
    }
    releasing.set(circuit);
}

/// Gives up the circuits of hops.
fn give_hops<A: Allocator>(
    calls: &[OpenCall<A>],
    ends: &Ends,
    hops: &[Hop],
    releasing: &mut CircuitMarks<A>,
)
    requires { AreMarked releasing.old.groups (map (λ h. h.circuit) hops.now) }
    ensures { releasing.new ≡ with_more releasing.old
        (filter (is_given ends.now (map call_seen calls.now)) (map (λ h. h.circuit) hops.now)) }
{
    let mut at = 0;
    while at < hops.len() {
        give(calls, ends, &hops[at].circuit, releasing);
        at += 1;
    }
}

/// Gives up the circuit that a phase calls on.
fn give_phase<A: Allocator>(
    calls: &[OpenCall<A>],
    ends: &Ends,
    phase: &Phase,
    releasing: &mut CircuitMarks<A>,
)
    requires { AreMarked releasing.old.groups (circuit_called phase.now) }
    ensures { releasing.new ≡ with_more releasing.old
        (filter (is_given ends.now (map call_seen calls.now)) (circuit_called phase.now)) }
{
    match phase {
        Phase::Calling(circuit) => give(calls, ends, circuit, releasing),
        Phase::Standing => {}
        Phase::Connected(_) => {}
    }
}

/// Gives up the circuits of one call, if it ends.
fn give_if<A: Allocator>(
    calls: &[OpenCall<A>],
    ends: &Ends,
    call: &OpenCall<A>,
    releasing: &mut CircuitMarks<A>,
)
    requires { AreMarked releasing.old.groups (circuits_used (call_seen call.now)) }
    ensures { releasing.new ≡ with_more releasing.old
        (filter (is_given ends.now (map call_seen calls.now)) (if ends_by ends.now
        (call_seen call.now) then circuits_used (call_seen call.now) else [])) }
{
    let ended = is_ended(call, ends);
    if ended {
        give_hops(calls, ends, &call.hops, releasing);
        give_phase(calls, ends, &call.phase, releasing);
    }
}

/// Gives up the circuits of the calls that end.
pub(crate) fn give_up<A: Allocator>(
    calls: &[OpenCall<A>],
    ends: &Ends,
    releasing: &mut CircuitMarks<A>,
)
    requires { (c : _) → Among c calls.now
        → AreMarked releasing.old.groups (circuits_used (call_seen c)) }
    ensures { releasing.new ≡ with_more releasing.old
        (filter (is_given ends.now (map call_seen calls.now))
        (flat_map circuits_used (filter (ends_by ends.now) (map call_seen calls.now)))) }
{
    let mut at = 0;
    while at < calls.len() {
        give_if(calls, ends, &calls[at], releasing);
        at += 1;
    }
}

/// The ticket of a call that ends.
fn ticket<A: Allocator>(plan: &Plan<A>, call: OpenCall<A>, cause: Cause, event: u64) -> Ticket<A>
    ensures { result ≡ ticket_of plan.now cause event (call_seen call) }
{
    let OpenCall {
        number,
        line,
        keyed,
        keyed_at,
        hops,
        ..
    } = call;
    Ticket {
        number,
        line,
        start: plan.home(line.code),
        keyed,
        cause,
        keyed_at,
        ended_at: event,
        path: hops,
    }
}

/// Takes out the calls that end, and writes their tickets.
pub(crate) fn take_out<A: Allocator>(
    plan: &Plan<A>,
    calls: &mut Vec<OpenCall<A>, A>,
    tickets: &mut Vec<Ticket<A>, A>,
    ends: &Ends,
    cause: Cause,
    event: u64,
)
    requires { vec_len tickets.old + vec_len calls.old ≤ vec_capacity tickets.old }
    ensures calls { calls.new.items
        ≡ filter (λ c. not (ends_by ends.now (call_seen c))) calls.old.items }
    ensures tickets { tickets.new.items ≡ tickets.old.items ++ map (ticket_of plan.now cause event)
        (filter (ends_by ends.now) (map call_seen calls.old.items)) }
    ensures room { vec_len tickets.new + vec_len calls.new ≤ vec_capacity tickets.new }
{
    let mut at = 0;
    while at < calls.len() {
        if is_ended(&calls[at], ends) {
            let call = calls.remove(at);
            let made = ticket(plan, call, cause, event);
            tickets.push_reserved(made);
        } else {
            at += 1;
        }
    }
}

/// How many calls end.
pub(crate) fn count_ending<A: Allocator>(calls: &[OpenCall<A>], ends: &Ends) -> usize
    ensures { result ≡ length (filter (ends_by ends.now) (map call_seen calls.now)) }
{
    let mut count = 0;
    let mut at = 0;
    while at < calls.len() {
        if is_ended(&calls[at], ends) {
            count += 1;
        }
        at += 1;
    }
    count
}
