// What a network is asked before an event.
ghost use Rattle.std.specs.Prelude.{◌≡◌, true};
ghost use Rattle.std.specs.Option.{option_map};
ghost use Rattle.std.specs.FinSet as set;
ghost use Rattle.tx_plan.specs.Plan.{Plan};
ghost use Rattle.tx_plan.specs.Lines.{is_line};
ghost use Rattle.tx_plan.specs.Circuits.{is_circuit, may_seize};
ghost use Rattle.tx_plan.specs.Codes.{code_of};
ghost use Rattle.tx_machine.specs.Call.{call_of};
ghost use Rattle.tx_machine.specs.State.{State};
ghost use Rattle.tx_machine.specs.InUse.{first_free};
ghost use Rattle.tx_machine.specs.Lines.{is_engaged};

use crate::Phase;
use std::alloc::Allocator;
use tx_plan::{Circuit, CodeId, ExchangeId, GroupId, Line, Plan};

/// What is known of a line.
#[derive(Clone, Copy)]
pub struct LineStatus {
    /// It is out of order.
    pub faulty: bool,
    /// Its subscriber is absent.
    pub away: bool,
    /// It takes part in an open call.
    pub engaged: bool,
}

/// What a network knows of a call, a line, a circuit and a group. Its refusals follow from this,
/// and what becomes of a call that is routed.
pub trait Facts {
    /// Whose memory the plan takes.
    type A: Allocator;

    ghost plan: { Self → Plan };

    ghost state: { Self → State };

    /// The plan.
    fn plan(&self) -> &Plan<Self::A>
        ensures { result.now ≡ plan self.now };

    /// The phase of the open call of a number.
    fn phase_of(&self, number: u32) -> Option<Phase>
        ensures { result ≡ option_map (λ c. c.phase) (call_of number (state self.now).calls) };

    /// The longest destination code that begins the figures (ITU-T F.69).
    fn code_of(&self, keyed: &[u8]) -> Option<CodeId>
        ensures { result ≡ code_of (plan self.now) keyed.now };

    /// Whether the plan has the line.
    fn has_line(&self, line: &Line) -> bool
        ensures { result ≡ is_line (plan self.now) line.now };

    /// What is known of the line.
    fn status(&self, line: &Line) -> LineStatus
        ensures faulty { result.faulty ≡ set.contains (state self.now).faulty line.now }
        ensures away { result.away ≡ set.contains (state self.now).away line.now }
        ensures engaged { result.engaged ≡ is_engaged (state self.now) line.now };

    /// Whether the plan has the circuit.
    fn has_circuit(&self, circuit: &Circuit) -> bool
        ensures { result ≡ is_circuit (plan self.now) circuit.now };

    /// Whether the circuit is releasing.
    fn is_releasing(&self, circuit: &Circuit) -> bool
        ensures { result ≡ set.contains (state self.now).releasing circuit.now };

    /// Whether the circuit is out of service.
    fn is_out(&self, circuit: &Circuit) -> bool
        ensures { result ≡ set.contains (state self.now).out circuit.now };

    /// Whether the group has failed.
    fn is_failed(&self, group: GroupId) -> bool
        ensures { result ≡ set.contains (state self.now).failed group };

    /// Whether the group is blocked.
    fn is_blocked(&self, group: GroupId) -> bool
        ensures { result ≡ set.contains (state self.now).blocked group };

    /// The circuit of the group that the exchange would seize.
    fn first_free(&self, group: GroupId, exchange: ExchangeId) -> Option<Circuit>
        requires { may_seize (plan self.now) group exchange ≡ true }
        ensures { result ≡ first_free (plan self.now) (state self.now) exchange group };

    /// How many call numbers were given.
    fn numbers_given(&self) -> u32
        ensures { result ≡ (state self.now).numbers };

    /// How many events were accepted.
    fn events_accepted(&self) -> u64
        ensures { result ≡ (state self.now).events };
}
