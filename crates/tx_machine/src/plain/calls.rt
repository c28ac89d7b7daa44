// What is seen in a list of open calls.
ghost use Rattle.std.specs.Prelude.{◌≡◌, ◌<◌, ◌==◌, not, ◌&&◌, MatchOption, Some, None, find, map};
ghost use Rattle.std.specs.List.{list_any};
ghost use Rattle.tx_plan.specs.Orders.{same_line, same_circuit};
ghost use Rattle.tx_machine.specs.InUse.{seizes_from, carries, seizes};
ghost use Rattle.tx_machine.specs.Lines.{takes_part};
ghost use Rattle.tx_machine.specs.Call.{exchange_of, call_of};
ghost use Rattle.tx_machine.specs.Seen.{call_seen};

use crate::{OpenCall, Phase, exchange_of};
use std::alloc::Allocator;
use tx_plan::{Circuit, ExchangeId, Line, Plan};

/// Whether the line takes part in the call.
fn takes_part<A: Allocator>(call: &OpenCall<A>, line: &Line) -> bool
    ensures { result ≡ takes_part (call_seen call.now) line.now }
{
    if call.line == *line {
        return true;
    }
    match &call.phase {
        Phase::Connected(other) => other == line,
        Phase::Standing | Phase::Calling(_) => false,
    }
}

/// Whether the line takes part in one of the calls.
pub(crate) fn engaged_in<A: Allocator>(calls: &[OpenCall<A>], line: &Line) -> bool
    ensures { result ≡ list_any (λ c. takes_part (call_seen c) line.now) calls.now }
{
    calls.iter().any(|call| takes_part(call, line))
}

/// Whether the call carries the circuit.
fn carries<A: Allocator>(call: &OpenCall<A>, circuit: &Circuit) -> bool
    ensures { result ≡ carries (call_seen call.now) circuit.now }
{
    call.hops.iter().any(|hop| hop.circuit == *circuit)
}

/// Whether one of the calls carries the circuit.
pub(crate) fn carried_by<A: Allocator>(calls: &[OpenCall<A>], circuit: &Circuit) -> bool
    ensures { result ≡ list_any (λ c. carries (call_seen c) circuit.now) calls.now }
{
    calls.iter().any(|call| carries(call, circuit))
}

/// Whether the call seizes the circuit.
pub(crate) fn seizes<A: Allocator>(call: &OpenCall<A>, circuit: &Circuit) -> bool
    ensures { result ≡ seizes (call_seen call.now) circuit.now }
{
    match &call.phase {
        Phase::Calling(other) => other == circuit,
        Phase::Standing | Phase::Connected(_) => false,
    }
}

/// Whether the call seizes the circuit from the exchange.
fn seizes_from<A: Allocator>(
    plan: &Plan<A>,
    call: &OpenCall<A>,
    circuit: &Circuit,
    exchange: ExchangeId,
) -> bool
    ensures { result ≡ (seizes (call_seen call.now) circuit.now
        && (exchange_of plan.now (call_seen call.now) == exchange)) }
{
    seizes(call, circuit) && exchange_of(plan, call) == exchange
}

/// Whether one of the calls seizes the circuit from the exchange.
pub(crate) fn seized_from<A: Allocator>(
    plan: &Plan<A>,
    calls: &[OpenCall<A>],
    circuit: &Circuit,
    exchange: ExchangeId,
) -> bool
    ensures { result ≡ list_any (λ c. seizes (call_seen c) circuit.now
        && (exchange_of plan.now (call_seen c) == exchange)) calls.now }
{
    calls
        .iter()
        .any(|call| seizes_from(plan, call, circuit, exchange))
}

/// Another call than that of the number that seizes the circuit from the exchange.
pub(crate) fn rival_of<'c, A: Allocator>(
    plan: &Plan<A>,
    calls: &'c [OpenCall<A>],
    number: u32,
    circuit: &Circuit,
    exchange: ExchangeId,
) -> Option<&'c OpenCall<A>>
    ensures { MatchOption result (find (λ d. not (d.number == number)
        && seizes_from plan.now d circuit.now exchange) (map call_seen calls.now) ≡ None)
        (λ c. find (λ d. not (d.number == number) && seizes_from plan.now d circuit.now exchange)
        (map call_seen calls.now) ≡ Some (call_seen c.now)) }
{
    let mut at = 0;
    while at < calls.len() {
        if is_rival(plan, &calls[at], number, circuit, exchange) {
            return Some(&calls[at]);
        }
        at += 1;
    }
    None
}

/// Whether it is another call that seizes the circuit from the exchange.
fn is_rival<A: Allocator>(
    plan: &Plan<A>,
    call: &OpenCall<A>,
    number: u32,
    circuit: &Circuit,
    exchange: ExchangeId,
) -> bool
    ensures { result ≡ (not (call.now.number == number)
        && seizes_from plan.now (call_seen call.now) circuit.now exchange) }
{
    call.number != number && seizes_from(plan, call, circuit, exchange)
}

/// The call with the number.
pub(crate) fn call_of<A: Allocator>(calls: &[OpenCall<A>], number: u32) -> Option<&OpenCall<A>>
    ensures { MatchOption result (call_of number (map call_seen calls.now) ≡ None)
        (λ c. call_of number (map call_seen calls.now) ≡ Some (call_seen c.now)) }
{
    let mut at = 0;
    while at < calls.len() {
        if calls[at].number == number {
            return Some(&calls[at]);
        }
        at += 1;
    }
    None
}
