// Which events are refused, and why.
ghost use Rattle.std.specs.Prelude.{◌≡◌, ◌-◌, ◌^◌, ◌∷◌, [], ◌&&◌, not, nat_le};
ghost use Rattle.tx_plan.specs.Lines.{is_line};
ghost use Rattle.tx_plan.specs.Circuits.{is_circuit};
ghost use Rattle.tx_plan.specs.Declaring.{first_true};
ghost use Rattle.tx_machine.specs.declared.event.Event.TheVariants.{Key, Route, Confirm, Clear, Released};
ghost use Rattle.tx_machine.specs.declared.open_call.Party.TheVariants.{Caller, Called};
ghost use Rattle.tx_machine.specs.declared.refusal.Refusal.TheVariants.{UnknownLine, UnknownCircuit, Exhausted};
ghost use Rattle.tx_machine.specs.Refusals.{refusal, is_group};
ghost use Rattle.tx_machine.specs.inner.Facts.{is_already, no_change};

use crate::facts::Facts;
use crate::{Event, Party, Phase, Refusal};
use tx_plan::{Circuit, GroupId, Line};
use tx_text::Figures;

/// The refusal of an event, if one applies: of several the one of the least number.
pub fn refusal_of<N: Facts>(network: &N, event: &Event) -> Option<Refusal>
    ensures { result ≡ refusal (N.plan network.now) (N.state network.now) event.now }
{
    match event {
        Event::Key { line, keyed } => of_key(network, line, keyed),
        Event::Route(number) => of_route(network, *number),
        Event::Confirm(number) => of_confirm(network, *number),
        Event::Clear { call, party } => match party {
            Party::Caller => of_clear_by_caller(network, *call),
            Party::Called => of_clear_by_called(network, *call),
        },
        Event::Released(circuit) => of_released(network, circuit),
        Event::CircuitOut(circuit) => of_circuit(network, circuit, network.is_out(circuit), true),
        Event::CircuitIn(circuit) => of_circuit(network, circuit, network.is_out(circuit), false),
        Event::Fail(group) => of_group(network, *group, network.is_failed(*group), true),
        Event::Restore(group) => of_group(network, *group, network.is_failed(*group), false),
        Event::Block(group) => of_group(network, *group, network.is_blocked(*group), true),
        Event::Unblock(group) => of_group(network, *group, network.is_blocked(*group), false),
        Event::LineFault(line) => of_line(network, line, network.status(line).faulty, true),
        Event::LineMend(line) => of_line(network, line, network.status(line).faulty, false),
        Event::LineAway(line) => of_line(network, line, network.status(line).away, true),
        Event::LineBack(line) => of_line(network, line, network.status(line).away, false),
    }
}

/// The refusal of a Key.
fn of_key<N: Facts>(network: &N, line: &Line, keyed: &Figures) -> Option<Refusal>
    ensures { result ≡ refusal (N.plan network.now) (N.state network.now) (Key line.now keyed.now) }
{
    if !network.has_line(line) {
        return Some(Refusal::UnknownLine);
    }
    let status = network.status(line);
    if status.engaged {
        Some(Refusal::LineEngaged)
    } else if status.faulty {
        Some(Refusal::LineOutOfOrder)
    } else if network.numbers_given() == u32::MAX {
        Some(Refusal::Exhausted)
    } else {
        exhausted(network)
    }
}

/// The refusal of a Route.
fn of_route<N: Facts>(network: &N, number: u32) -> Option<Refusal>
    ensures { result ≡ refusal (N.plan network.now) (N.state network.now) (Route number) }
{
    match network.phase_of(number) {
        None => Some(Refusal::UnknownCall),
        Some(Phase::Standing) => exhausted(network),
        Some(_) => Some(Refusal::NotStanding),
    }
}

/// The refusal of a Confirm.
fn of_confirm<N: Facts>(network: &N, number: u32) -> Option<Refusal>
    ensures { result ≡ refusal (N.plan network.now) (N.state network.now) (Confirm number) }
{
    match network.phase_of(number) {
        None => Some(Refusal::UnknownCall),
        Some(Phase::Calling(_)) => exhausted(network),
        Some(_) => Some(Refusal::NotCalling),
    }
}

/// The refusal of a Clear by the caller.
fn of_clear_by_caller<N: Facts>(network: &N, number: u32) -> Option<Refusal>
    ensures { result ≡ refusal (N.plan network.now) (N.state network.now) (Clear number Caller) }
{
    match network.phase_of(number) {
        None => Some(Refusal::UnknownCall),
        Some(_) => exhausted(network),
    }
}

/// The refusal of a Clear by the called party.
fn of_clear_by_called<N: Facts>(network: &N, number: u32) -> Option<Refusal>
    ensures { result ≡ refusal (N.plan network.now) (N.state network.now) (Clear number Called) }
{
    match network.phase_of(number) {
        None => Some(Refusal::UnknownCall),
        Some(Phase::Connected(_)) => exhausted(network),
        Some(_) => Some(Refusal::NotConnected),
    }
}

/// The refusal of a Released.
fn of_released<N: Facts>(network: &N, circuit: &Circuit) -> Option<Refusal>
    ensures { result ≡ refusal (N.plan network.now) (N.state network.now) (Released circuit.now) }
{
    if !network.has_circuit(circuit) {
        Some(Refusal::UnknownCircuit)
    } else if !network.is_releasing(circuit) {
        Some(Refusal::NotReleasing)
    } else {
        exhausted(network)
    }
}

/// The refusal of an event that makes a fact of a circuit so, or no longer so, by whether it is.
fn of_circuit<N: Facts>(network: &N, circuit: &Circuit, is: bool, will: bool) -> Option<Refusal>
    ensures { result ≡ first_true ((
      is_circuit (N.plan network.now) circuit.now && is_already
          is will,
      no_change will,
    ) ∷ (not (is_circuit (N.plan network.now) circuit.now), UnknownCircuit)
        ∷ (nat_le (2 ^ 64 - 1) (N.state network.now).events, Exhausted) ∷ []) }
{
    if !network.has_circuit(circuit) {
        Some(Refusal::UnknownCircuit)
    } else {
        of_fact(network, is, will)
    }
}

/// The refusal of an event that makes a fact of a group so, or no longer so, by whether it is.
fn of_group<N: Facts>(network: &N, group: GroupId, is: bool, will: bool) -> Option<Refusal>
    ensures { result ≡ first_true ((
      is_group (N.plan network.now) group
          && is_already is will,
      no_change will,
    ) ∷ (not (is_group (N.plan network.now) group), UnknownCircuit)
        ∷ (nat_le (2 ^ 64 - 1) (N.state network.now).events, Exhausted) ∷ []) }
{
    if group.index() >= network.plan().groups() {
        Some(Refusal::UnknownCircuit)
    } else {
        of_fact(network, is, will)
    }
}

/// The refusal of an event that makes a fact of a line so, or no longer so, by whether it is.
fn of_line<N: Facts>(network: &N, line: &Line, is: bool, will: bool) -> Option<Refusal>
    ensures { result ≡ first_true
        ((not (is_line (N.plan network.now) line.now), UnknownLine) ∷ (is_already is will, no_change will)
        ∷ (nat_le (2 ^ 64 - 1) (N.state network.now).events, Exhausted) ∷ []) }
{
    if !network.has_line(line) {
        Some(Refusal::UnknownLine)
    } else {
        of_fact(network, is, will)
    }
}

/// The refusal of an event that makes a fact so, or no longer so, of what the plan has.
fn of_fact<N: Facts>(network: &N, is: bool, will: bool) -> Option<Refusal>
    ensures { result ≡ first_true ((is_already is will, no_change will)
        ∷ (nat_le (2 ^ 64 - 1) (N.state network.now).events, Exhausted) ∷ []) }
{
    match (is, will) {
        (true, true) => Some(Refusal::AlreadySo),
        (false, false) => Some(Refusal::NotSo),
        (true, false) | (false, true) => exhausted(network),
    }
}

/// The refusal of any event, where all events were counted.
fn exhausted<N: Facts>(network: &N) -> Option<Refusal>
    ensures { result ≡ first_true
        ((nat_le (2 ^ 64 - 1) (N.state network.now).events, Exhausted) ∷ []) }
{
    if network.events_accepted() == u64::MAX {
        Some(Refusal::Exhausted)
    } else {
        None
    }
}
