// What goes into the files that a command makes.
ghost use Rattle.tx_files.specs.Writables.{AreWritable, AreWritable-prop};

use std::alloc::{Allocator, Global};
use tx_cert::Cert;
use tx_change::ShownMixture;
use tx_machine::Event;
use tx_plan::Plan;

/// A plan, and events that can be written as a script for it.
#[derive(Drop)]
pub struct CounterScript<A: Allocator = Global> {
    pub plan: Plan<A>,
    pub events: Vec<Event, A>,
    ghost writable: { AreWritable plan events.items } by { AreWritable-prop plan events.items },
}

/// A plan, with the script of a call over it, if there is one.
#[derive(Drop)]
pub enum Shown<A: Allocator = Global> {
    Plan(Plan<A>),
    Script(CounterScript<A>),
}

impl<A: Allocator> Shown<A> {
    ghost use Rattle.std.specs.Prelude.{◌≡◌};
    ghost use Rattle.std.specs.Option.{option_map, IfSome};
    ghost use Rattle.tx_files.specs.Made.{shown_plan, shown_events};

    /// A mixture that is shown, with its events as a script.
    pub fn of(shown: ShownMixture<A>) -> Shown<A>
        requires { IfSome shown.events (λ events. AreWritable shown.plan events.items) }
        ensures plan { shown_plan result ≡ shown.plan }
        ensures events { shown_events result ≡ option_map (λ events. events.items) shown.events }
    {
        let plan = shown.plan;
        match shown.events {
            Some(events) => Shown::Script(CounterScript { plan, events }),
            None => Shown::Plan(plan),
        }
    }

    /// The plan.
    pub fn plan(&self) -> &Plan<A>
        ensures { result.now ≡ shown_plan self.now }
    {
        match self {
            Shown::Plan(plan) => plan,
            Shown::Script(script) => &script.plan,
        }
    }
}

/// The text of a plan that was made.
#[derive(Drop)]
pub enum MadeText<A: Allocator = Global> {
    /// The text of the plan of which it was made, revised for it.
    Revised(Vec<u8, A>),
    /// The plan as it is written.
    Written,
}

/// A plan, and what goes into files: its script, its text and a certificate of it, each if there is
/// one.
#[derive(Drop)]
pub struct Made<A: Allocator = Global> {
    pub shown: Shown<A>,
    pub text: Option<MadeText<A>>,
    pub cert: Option<Cert<A>>,
}
