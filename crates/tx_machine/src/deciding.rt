// What becomes of a call that is routed.
ghost use Rattle.std.specs.Prelude.{◌≡◌, true, false, MatchOption};
ghost use Rattle.std.specs.Option.{option_map};
ghost use Rattle.tx_plan.specs.Codes.{after};
ghost use Rattle.tx_plan.specs.Lines.{is_line};
ghost use Rattle.tx_machine.specs.Call.{Call};
ghost use Rattle.tx_machine.specs.InUse.{choice};
ghost use Rattle.tx_machine.specs.Lines.{line_answer};
ghost use Rattle.tx_machine.specs.Routing.{at_line, line_of, routed};
ghost use Rattle.tx_machine.specs.Seen.{call_seen};
ghost use Rattle.tx_machine.specs.inner.Decided.{carried_out};

use crate::{Facts, OpenCall, Service, exchange_of};
use tx_plan::{Circuit, CodeId, ExchangeId, Line, National};

/// What becomes of a call that is routed.
#[derive(Clone, Copy)]
pub enum Decision {
    /// It is answered with a service code, and ends.
    Answer(Service),
    /// It is connected to the line.
    Connect(Line),
    /// It seizes the circuit.
    Seize(Circuit),
}

/// What becomes of the call where it is routed.
pub fn decide<N: Facts>(network: &N, call: &OpenCall<N::A>) -> Decision
    ensures { routed (N.plan network.now) (N.state network.now) (call_seen call.now)
        ≡ carried_out (N.plan network.now) (N.state network.now) call.now.number result }
{
    let plan = network.plan();
    let keyed = call.keyed.bytes();
    let Some(code) = network.code_of(keyed) else {
        return Decision::Answer(Service::Np);
    };
    let here = exchange_of(plan, call);
    if call.hops.is_empty() && plan.is_barred(here, code) {
        return Decision::Answer(Service::Na);
    }
    if plan.home(code) == here {
        return at_home(network, code, keyed);
    }
    match choice(network, here, code) {
        Some(circuit) => Decision::Seize(circuit),
        None => Decision::Answer(Service::Nc),
    }
}

/// What the home of the code decides: its line answers.
fn at_home<N: Facts>(network: &N, code: CodeId, keyed: &[u8]) -> Decision
    ensures { (c : Call) → at_line (N.plan network.now) (N.state network.now) c
        (line_of (N.plan network.now) code keyed.now) (line_answer (N.plan network.now)
        (N.state network.now) (line_of (N.plan network.now) code keyed.now))
        ≡ carried_out (N.plan network.now) (N.state network.now) c.number result }
{
    let Some(line) = line_keyed(network, code, keyed) else {
        return Decision::Answer(Service::Np);
    };
    let status = network.status(&line);
    if status.faulty {
        Decision::Answer(Service::Der)
    } else if status.away {
        Decision::Answer(Service::Abs)
    } else if status.engaged {
        Decision::Answer(Service::Occ)
    } else {
        Decision::Connect(line)
    }
}

/// The line of the code whose number was keyed after it, if the plan has that line.
fn line_keyed<N: Facts>(network: &N, code: CodeId, keyed: &[u8]) -> Option<Line>
    ensures { MatchOption result
        (is_line (N.plan network.now) (line_of (N.plan network.now) code keyed.now) ≡ false)
        (λ line. (line ≡ line_of (N.plan network.now) code keyed.now)
        × (is_line (N.plan network.now) line ≡ true)) }
{
    let number = after(network.plan().code_figures(code), keyed)?;
    let national = National::read(number)?;
    let line = Line { code, national };
    if network.has_line(&line) {
        Some(line)
    } else {
        None
    }
}

/// What is left of the text after the front, if it begins with it.
pub(crate) fn after<'t>(front: &[u8], text: &'t [u8]) -> Option<&'t [u8]>
    ensures { option_map (λ rest. rest.now) result ≡ after front.now text.now }
{
    text.strip_prefix(front)
}

/// The first circuit that the exchange finds in its groups for the code.
fn choice<N: Facts>(network: &N, here: ExchangeId, code: CodeId) -> Option<Circuit>
    ensures { result ≡ choice (N.plan network.now) (N.state network.now) here code }
{
    let plan = network.plan();
    let groups = plan.list(here, code);
    for group in groups {
        let circuit = network.first_free(*group, here);
        if circuit.is_some() {
            return circuit;
        }
    }
    None
}
