// What a run counts, and what it can print beside replies and tickets.
ghost use Rattle.std.specs.Prelude.{◌≡◌, ◌+◌, ◌<◌, ◌^◌, IfOk, OnErr, IfSome, None, true, false, option_map, ◌≤◌, cond};
ghost use Rattle.tx_text.specs.Puts.{Puts};
ghost use Rattle.tx_text.specs.Wrote.{Wrote};
ghost use Rattle.tx_script.specs.inner.Counting.{count_for, counts_for, one_counted, uses_counted};
ghost use Rattle.tx_script.specs.Telling.{echo_asked, echo_text, number_text};

use crate::counts::Counts;
use crate::event_text::write_any_event;
use crate::run_cause::RunCause;
use crate::run_fault::RunFault;
use crate::runner::Answered;
use itoa::Buffer;
use std::alloc::Allocator;
use tx_machine::{Cause, Event, Reply};
use tx_plan::Plan;
use tx_text::{NoMemory, Sink, WriteFault, finish, put_parts};

/// What a run prints beside replies and tickets, where it is asked for.
#[derive(Clone, Copy)]
pub struct Telling {
    /// The line of each event, with its number, before its reply.
    pub echo: bool,
    /// What was counted, after the line END EVENTS.
    pub summary: bool,
}

/// What was counted of the events answered so far.
#[derive(Clone, Copy)]
pub(crate) struct Tally {
    pub answered: u64,
    pub refused: u64,
    pub tickets: u64,
}

impl Tally {
    /// Nothing was answered yet.
    pub(crate) fn new() -> Tally
        ensures { result ≡ record { answered = 0; refused = 0; tickets = 0 } }
    {
        Tally {
            answered: 0,
            refused: 0,
            tickets: 0,
        }
    }

    /// One event more was answered.
    pub(crate) fn count(&mut self, event: Answered)
        requires answered { self.old.answered < 2 ^ 63 }
        requires refused { self.old.refused ≤ self.old.answered }
        requires tickets { self.old.tickets + event.tickets < 2 ^ 64 }
        ensures { self.new ≡ record {
          answered = self.old.answered + 1;
          refused = self.old.refused
              + cond event.refused 1 0;
          tickets = self.old.tickets + event.tickets;
        } }
    {
        self.answered += 1;
        self.refused += u64::from(event.refused);
        self.tickets += event.tickets;
    }

    /// The number of the next event, from 1.
    pub(crate) fn next_number(&self) -> u64
        requires { self.now.answered < 2 ^ 63 }
        ensures { result ≡ self.now.answered + 1 }
    {
        self.answered + 1
    }

    /// The run stopped in the next event.
    pub(crate) fn stopped(&self, cause: RunCause) -> RunFault
        requires { self.now.answered < 2 ^ 63 }
        ensures { result ≡ record { event = self.now.answered + 1; cause = cause } }
    {
        RunFault {
            event: self.answered + 1,
            cause,
        }
    }
}

/// Whether the line of each event is printed, and what is counted for the summary, where that is
/// asked for.
#[derive(Drop)]
pub(crate) struct Teller<A: Allocator> {
    pub echo: bool,
    pub counts: Option<Counts<A>>,
}

impl<A: Allocator> Teller<A> {
    /// Nothing more is printed.
    pub(crate) fn silent() -> Teller<A>
        ensures { result ≡ record { echo = false; counts = None } }
    {
        Teller {
            echo: false,
            counts: None,
        }
    }

    /// Returns what is asked for. Nothing was counted yet.
    pub(crate) fn new<B: Allocator>(
        alloc: A,
        telling: Telling,
        plan: &Plan<B>,
    ) -> Result<Teller<A>, NoMemory>
        ensures ok { IfOk result (λ t. t
            ≡ record { echo = telling.echo; counts = counts_for plan.now telling.summary }) }
        ensures err { OnErr result (telling.summary ≡ true) }
    {
        let counts = if telling.summary {
            Some(Counts::new(alloc, plan)?)
        } else {
            None
        };
        Ok(Teller {
            echo: telling.echo,
            counts,
        })
    }

    /// A call ended.
    pub(crate) fn ended(&mut self, cause: Cause)
        requires { IfSome self.old.counts (λ c. count_for c.calls cause + 1 < 2 ^ 64) }
        ensures echo { self.new.echo ≡ self.old.echo }
        ensures counts { self.new.counts ≡ option_map (one_counted cause) self.old.counts }
    {
        if let Some(counts) = &mut self.counts {
            counts.ended(cause);
        }
    }

    /// An event was answered.
    pub(crate) fn answered<B: Allocator>(&mut self, plan: &Plan<B>, event: &Event, reply: &Reply)
        ensures echo { self.new.echo ≡ self.old.echo }
        ensures counts { self.new.counts
            ≡ option_map (uses_counted plan.now event.now reply.now) self.old.counts }
    {
        if let Some(counts) = &mut self.counts {
            counts.answered(plan, event, reply);
        }
    }
}

/// Writes the number of an event and its line, as `EVENT 2 ROUTE 1`, where that is asked for.
pub(crate) fn write_asked_echo<A: Allocator, W: Sink>(
    asked: bool,
    number: u64,
    event: &Event,
    plan: &Plan<A>,
    sink: &mut W,
) -> Result<(), WriteFault>
    ensures { Wrote W.taken W.failed sink.old sink.new
        (echo_asked asked plan.now number event.now) result }
{
    if asked {
        write_echo(number, event, plan, sink)
    } else {
        Ok(())
    }
}

fn write_echo<A: Allocator, W: Sink>(
    number: u64,
    event: &Event,
    plan: &Plan<A>,
    sink: &mut W,
) -> Result<(), WriteFault>
    ensures { Wrote W.taken W.failed sink.old sink.new
        (echo_text plan.now number event.now) result }
{
    write_number(number, sink);
    write_any_event(event, plan, sink);
    finish(sink)
}

/// Writes the number of an event, as `EVENT 2 `.
fn write_number<W: Sink>(number: u64, sink: &mut W)
    ensures { Puts W.taken W.failed sink.old sink.new (number_text number) }
{
    let mut digits = Buffer::new();
    put_parts(&[b"EVENT ", digits.format(number).as_bytes(), b" "], sink);
}
