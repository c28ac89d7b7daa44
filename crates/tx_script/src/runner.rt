// The run of a script over a network: the loop over its lines, and the answer to each.
ghost use Rattle.std.specs.Prelude.{◌≡◌, codes, if◌then◌else◌, true, ◌+◌, ◌<◌, ◌^◌, [], OnOk, OnErr, IfOk, length, option_map};
ghost use Rattle.std.specs.List.{flat_map};
ghost use Rattle.std.specs.Io.KnownBytes.{append_known};
ghost use Rattle.tx_text.specs.Calls.{CallsAtMost, source_calls};
ghost use Rattle.tx_text.specs.Ends.{input, output};
ghost use Rattle.tx_text.specs.inner.Framing.{frame_start};
ghost use Rattle.tx_text.specs.Frame.{is_read};
ghost use Rattle.tx_machine.specs.Drained.{drained};
ghost use Rattle.tx_machine.specs.Runs.{moment};
ghost use Rattle.tx_machine.specs.Sound.{is_refused};
ghost use Rattle.tx_tickets.specs.Texts.{ticket_text};
ghost use Rattle.tx_script.specs.Answers.{RunAnswers, IsFresh, states, mark_after};
ghost use Rattle.tx_script.specs.TellingAnswers.{NoneReleasing, TellingAnswers};
ghost use Rattle.tx_script.specs.inner.Counting.{AreNew, asked_of, AreFew, counted_on, ends_counted};
ghost use Rattle.tx_script.specs.Untold.{StopsAtTicket};
ghost use Rattle.tx_script.specs.inner.LineAnswers.{EventTold, LineTold, mark_with};

use crate::ending::finish;
use crate::event_words::event_of;
use crate::run_cause::RunCause;
use crate::run_fault::RunFault;
use crate::script_word::{ScriptKind, ScriptWord};
use crate::summary::Summary;
use crate::teller::{Tally, Teller, Telling, write_asked_echo};
use std::alloc::Allocator;
use tx_machine::{Event, Network, Reply};
use tx_plan::Plan;
use tx_text::{
    FaultAt, FaultKind, FrameFault, FrameReader, FrameStep, FrameStop, Sink, Source, WriteFault,
};
use tx_tickets::{write_reply, write_ticket};

const KEY: &[u8] = b"SCRIPT";

/// What is counted of an answer.
#[derive(Clone, Copy)]
pub(crate) struct Answered {
    pub refused: bool,
    pub tickets: u64,
}

/// Runs the script that comes from a source over a network of the plan that has no open call and no
/// ticket. Writes the reply and the tickets of each event, and at the script's end the line END
/// EVENTS. `Err` says at which event the run stopped, and why.
///
/// Each event is answered before the source is asked for a line that is not yet there: no clause
/// says so, and the worked examples, which count the reads, show it.
pub fn run<A: Allocator, B: Allocator, N: Network, R: Source, W: Sink>(
    alloc: A,
    plan: &Plan<B>,
    net: &mut N,
    source: &mut R,
    sink: &mut W,
) -> Result<Summary, RunFault>
    requires plan { N.plan net.old ≡ plan.now }
    requires fresh { IsFresh (N.state net.old) }
    ensures plan { N.plan net.new ≡ plan.now }
    ensures answers { RunAnswers plan.now
        (input R.rest R.failed R.called source.old source.new)
        (states N.state net.old net.new) (output W.taken sink.old sink.new) result }
    ensures mark { W.failed sink.new ≡ mark_after (W.failed sink.old) result }
    ensures calls { CallsAtMost R.called source_calls source.old source.new }
{
    let mut teller = Teller::silent();
    let ran = run_script(alloc, &mut teller, plan, net, source, sink);
    drop(teller);
    ran
}

/// Runs a script as `run` does. Where the lines of events are asked for, the line of each comes
/// before its reply, with its number, as `EVENT 2 ROUTE 1`. Numbers begin at 1, and refused events
/// have one too. Where the summary is asked for, it follows the line END EVENTS, and no circuit
/// may be releasing before the run.
pub fn run_telling<A: Allocator + Copy, B: Allocator, N: Network, R: Source, W: Sink>(
    alloc: A,
    telling: Telling,
    plan: &Plan<B>,
    net: &mut N,
    source: &mut R,
    sink: &mut W,
) -> Result<Summary, RunFault>
    requires plan { N.plan net.old ≡ plan.now }
    requires fresh { IsFresh (N.state net.old) }
    requires released { telling.summary ≡ true → NoneReleasing (N.state net.old) }
    ensures plan { N.plan net.new ≡ plan.now }
    ensures answers { TellingAnswers plan.now telling
        (input R.rest R.failed R.called source.old source.new)
        (states N.state net.old net.new) (output W.taken sink.old sink.new) result }
    ensures mark { W.failed sink.new ≡ mark_after (W.failed sink.old) result }
    ensures calls { CallsAtMost R.called source_calls source.old source.new }
{
    match Teller::new(alloc, telling, plan) {
        Ok(mut teller) => {
            let ran = run_script(alloc, &mut teller, plan, net, source, sink);
            drop(teller);
            ran
        }
        Err(error) => Err(RunFault {
            event: 1,
            cause: RunCause::from(error),
        }),
    }
}

/// Runs a script, where a teller says what is asked for, and nothing was counted yet.
fn run_script<A: Allocator, B: Allocator, N: Network, R: Source, W: Sink>(
    alloc: A,
    teller: &mut Teller<A>,
    plan: &Plan<B>,
    net: &mut N,
    source: &mut R,
    sink: &mut W,
) -> Result<Summary, RunFault>
    requires plan { N.plan net.old ≡ plan.now }
    requires fresh { IsFresh (N.state net.old) }
    requires counts { AreNew plan.now (N.state net.old) teller.old.counts }
    ensures plan { N.plan net.new ≡ plan.now }
    ensures answers { TellingAnswers plan.now (asked_of teller.old.echo teller.old.counts)
        (input R.rest R.failed R.called source.old source.new)
        (states N.state net.old net.new) (output W.taken sink.old sink.new) result }
    ensures mark { W.failed sink.new ≡ mark_after (W.failed sink.old) result }
    ensures calls { CallsAtMost R.called source_calls source.old source.new }
{
    match FrameReader::new(alloc, KEY, 1) {
        Ok(frame) => run_lines(frame, teller, plan, net, source, sink),
        Err(stop) => Err(RunFault {
            event: 1,
            cause: frame_cause(stop),
        }),
    }
}

/// Answers the lines that the frame leaves to it, one after another.
fn run_lines<A: Allocator, B: Allocator, N: Network, R: Source, W: Sink>(
    frame: FrameReader<'_, A>,
    teller: &mut Teller<A>,
    plan: &Plan<B>,
    net: &mut N,
    source: &mut R,
    sink: &mut W,
) -> Result<Summary, RunFault>
    requires start { frame ≡ frame_start (codes "SCRIPT") 1 source_calls }
    requires plan { N.plan net.old ≡ plan.now }
    requires fresh { IsFresh (N.state net.old) }
    requires counts { AreNew plan.now (N.state net.old) teller.old.counts }
    ensures plan { N.plan net.new ≡ plan.now }
    ensures answers { TellingAnswers plan.now (asked_of teller.old.echo teller.old.counts)
        (input R.rest R.failed R.called source.old source.new)
        (states N.state net.old net.new) (output W.taken sink.old sink.new) result }
    ensures mark { W.failed sink.new ≡ mark_after (W.failed sink.old) result }
    ensures calls { CallsAtMost R.called source_calls source.old source.new }
{
    plan.rules();
    let mut frame = frame;
    let mut tally = Tally::new();
    'lines: loop {
        match frame.advance(source) {
            Ok(FrameStep::Header(_)) => {}
            Ok(FrameStep::Line) => {
                let said = event_of(frame.words(), plan);
                let number = tally.next_number();
                match teller.answer_line(frame.number(), &said, number, plan, net, sink) {
                    Ok(answered) => tally.count(answered),
                    Err(cause) => {
                        drop(frame);
                        return Err(tally.stopped(cause));
                    }
                }
            }
            Ok(FrameStep::End) => {
                drop(frame);
                return finish(&tally, &teller.counts, plan, net, sink);
            }
            Err(stop) => {
                drop(frame);
                return Err(tally.stopped(frame_cause(stop)));
            }
        }
    }
}

/// Whether the event was refused.
pub(crate) fn is_refused(reply: &Reply) -> bool
    ensures { result ≡ is_refused reply.now }
{
    matches!(reply, Reply::Refused(_))
}

impl<A: Allocator> Teller<A> {
    /// Answers a line of this number, whose words say an event or have a fault, over a network
    /// whose tickets were taken. The event has a number of its own.
    fn answer_line<B: Allocator, N: Network, W: Sink>(
        &mut self,
        line: u64,
        said: &Result<Event, ScriptWord>,
        number: u64,
        plan: &Plan<B>,
        net: &mut N,
        sink: &mut W,
    ) -> Result<Answered, RunCause>
        requires plan { N.plan net.old ≡ plan.now }
        requires taken { (N.state net.old).tickets ≡ [] }
        requires few { length (N.state net.old).calls < 2 ^ 63 }
        requires counted { AreFew self.old.counts }
        ensures plan { N.plan net.new ≡ plan.now }
        ensures answers { LineTold plan.now self.old.echo line number said.now
            (N.state net.old) (N.state net.new) (W.taken sink.old) (W.taken sink.new) result }
        ensures echo { self.new.echo ≡ self.old.echo }
        ensures counts { IfOk said.now (λ e. OnOk result (self.new.counts ≡ option_map
            (counted_on plan.now (moment plan.now (N.state net.old) e)) self.old.counts)) }
        ensures mark { W.failed sink.new ≡ mark_with (W.failed sink.old) result }
    {
        match said {
            Ok(event) => self.answer(number, event, plan, net, sink),
            Err(word) => {
                let kind = FaultKind::Word(*word);
                Err(RunCause::Script(FaultAt { line, kind }))
            }
        }
    }

    /// Applies the event of this number to a network whose tickets were taken. Then writes its
    /// line, if that is asked for, the reply and the tickets.
    fn answer<B: Allocator, N: Network, W: Sink>(
        &mut self,
        number: u64,
        event: &Event,
        plan: &Plan<B>,
        net: &mut N,
        sink: &mut W,
    ) -> Result<Answered, RunCause>
        requires plan { N.plan net.old ≡ plan.now }
        requires taken { (N.state net.old).tickets ≡ [] }
        requires few { length (N.state net.old).calls < 2 ^ 63 }
        requires counted { AreFew self.old.counts }
        ensures plan { N.plan net.new ≡ plan.now }
        ensures answers { EventTold plan.now self.old.echo number event.now
            (N.state net.old) (N.state net.new) (W.taken sink.old) (W.taken sink.new) result }
        ensures echo { self.new.echo ≡ self.old.echo }
        ensures counts { OnOk result (self.new.counts ≡ option_map
            (counted_on plan.now (moment plan.now (N.state net.old) event.now)) self.old.counts) }
        ensures mark { W.failed sink.new ≡ mark_with (W.failed sink.old) result }
    {
        let reply = net.apply(*event)?;
        write_asked_echo(self.echo, number, event, plan, sink)?;
        write_reply(&reply, plan, sink)?;
        self.answered(plan, event, &reply);
        let tickets = self.write_tickets(plan, net, sink)?;
        Ok(Answered {
            refused: is_refused(&reply),
            tickets,
        })
    }

    /// Takes the tickets out of a network and writes them, the oldest first. Returns how many there
    /// were.
    fn write_tickets<B: Allocator, N: Network, W: Sink>(
        &mut self,
        plan: &Plan<B>,
        net: &mut N,
        sink: &mut W,
    ) -> Result<u64, WriteFault>
        requires few { length (N.state net.old).tickets < 2 ^ 63 + 1 }
        requires counted { AreFew self.old.counts }
        ensures plan { N.plan net.new ≡ N.plan net.old }
        ensures count { IfOk result (λ n. n ≡ length (N.state net.old).tickets) }
        ensures echo { self.new.echo ≡ self.old.echo }
        ensures counts { OnOk result (self.new.counts
            ≡ option_map (ends_counted (N.state net.old).tickets) self.old.counts) }
        ensures ok { OnOk result (W.taken sink.new ≡ append_known
            (W.taken sink.old) (flat_map (ticket_text plan.now) (N.state net.old).tickets)) }
        ensures taken { OnOk result (N.state net.new ≡ drained (N.state net.old) []) }
        ensures err { OnErr result (StopsAtTicket plan.now (N.state net.old).tickets
            (N.state net.old) (N.state net.new) (W.taken sink.old) (W.taken sink.new)) }
        ensures mark { OnErr result (W.failed sink.new ≡ true) }
        ensures unmarked { OnOk result (W.failed sink.new ≡ W.failed sink.old) }
    {
        let mut count = 0;
        while let Some(ticket) = net.next_ticket() {
            write_ticket(&ticket, plan, sink)?;
            self.ended(ticket.cause);
            count += 1;
        }
        Ok(count)
    }
}

fn script_fault(line: u64, kind: ScriptKind) -> RunCause
    ensures { result ≡ RunCause.Script (record { line = line; kind = kind }) }
{
    RunCause::Script(FaultAt { line, kind })
}

/// A failure to read is a cause of its own.
fn frame_cause(stop: FrameStop) -> RunCause
    ensures { result ≡ (if is_read stop.fault then RunCause.Read
        else RunCause.Script (record { line = stop.line; kind = FaultKind.Frame stop.fault })) }
{
    match stop.fault {
        FrameFault::Read => RunCause::Read,
        fault => script_fault(stop.line, FaultKind::Frame(fault)),
    }
}
