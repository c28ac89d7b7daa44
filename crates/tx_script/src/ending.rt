// The last lines of a run.
ghost use Rattle.std.specs.Prelude.{◌≡◌, ◌+◌, ◌++◌, ◌<◌, ◌^◌, OnOk, OnErr, IfOk, IfErr, length};
ghost use Rattle.std.specs.Io.KnownBytes.{append_known};
ghost use Rattle.tx_text.specs.Ends.{StopsIn};
ghost use Rattle.tx_text.specs.Puts.{Puts};
ghost use Rattle.tx_text.specs.Wrote.{Wrote};
ghost use Rattle.tx_script.specs.Answers.{mark_after};
ghost use Rattle.tx_script.specs.Output.{end_line};
ghost use Rattle.tx_script.specs.inner.Counting.{asked_text, last_lines};

use crate::counts::Counts;
use crate::run_cause::RunCause;
use crate::run_fault::RunFault;
use crate::summary::Summary;
use crate::summary_text::write_summary;
use crate::teller::Tally;
use itoa::Buffer;
use std::alloc::Allocator;
use tx_machine::Network;
use tx_plan::Plan;
use tx_text::{Sink, WriteFault, put_parts};

/// Writes the line END EVENTS and, where it is asked for, the summary. Returns what was counted.
pub(crate) fn finish<A: Allocator, B: Allocator, N: Network, W: Sink>(
    tally: &Tally,
    counts: &Option<Counts<A>>,
    plan: &Plan<B>,
    net: &N,
    sink: &mut W,
) -> Result<Summary, RunFault>
    requires { tally.now.answered < 2 ^ 63 }
    ensures summary { IfOk result
        (λ s. s ≡ record {
          events = (N.state net.now).events;
          refused = tally.now.refused;
          tickets = tally.now.tickets;
          open_calls = length (N.state net.now).calls;
        }) }
    ensures ok { OnOk result (W.taken sink.new
        ≡ append_known (W.taken sink.old) (last_lines plan.now counts.now (N.state net.now))) }
    ensures fault { IfErr result
        (λ f. f ≡ record { event = tally.now.answered + 1; cause = RunCause.Write }) }
    ensures err { OnErr result (StopsIn (W.taken sink.old)
        (W.taken sink.new) (last_lines plan.now counts.now (N.state net.now))) }
    ensures mark { W.failed sink.new ≡ mark_after (W.failed sink.old) result }
{
    let events = net.events();
    let open_calls = net.open_calls();
    match write_last_lines(events, open_calls, counts, plan, sink) {
        Ok(()) => Ok(Summary {
            events,
            refused: tally.refused,
            tickets: tally.tickets,
            open_calls,
        }),
        Err(WriteFault) => Err(tally.stopped(RunCause::Write)),
    }
}

fn write_last_lines<A: Allocator, B: Allocator, W: Sink>(
    events: u64,
    open_calls: u64,
    counts: &Option<Counts<A>>,
    plan: &Plan<B>,
    sink: &mut W,
) -> Result<(), WriteFault>
    ensures { Wrote W.taken W.failed sink.old sink.new
        (end_line events open_calls ++ asked_text plan.now counts.now open_calls) result }
{
    write_end(events, open_calls, sink);
    if let Some(counts) = counts {
        write_summary(counts, open_calls, plan, sink);
    }
    tx_text::finish(sink)
}

fn write_end<W: Sink>(events: u64, open_calls: u64, sink: &mut W)
    ensures { Puts W.taken W.failed sink.old sink.new (end_line events open_calls) }
{
    let mut accepted = Buffer::new();
    let mut open = Buffer::new();
    let events = accepted.format(events).as_bytes();
    let calls = open.format(open_calls).as_bytes();
    put_parts(&[b"END EVENTS ", events, b" OPEN ", calls, b"\n"], sink);
}
