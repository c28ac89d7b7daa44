// The line of an event.
ghost use Rattle.std.specs.Prelude.{◌≡◌, ◌++◌, [], true, Ok, codes, decimal, get_or};
ghost use Rattle.tx_text.specs.Words.{are_figures};
ghost use Rattle.tx_text.specs.Puts.{Puts};
ghost use Rattle.tx_text.specs.Wrote.{Wrote};
ghost use Rattle.tx_plan.specs.Plan.{Plan as PlanValue, group_name};
ghost use Rattle.tx_plan.specs.Rules.{is_national};
ghost use Rattle.tx_tickets.specs.Texts.{line_text};
ghost use Rattle.tx_script.specs.Events.{IsWritable, event_in, event_line, event_text, event_words, party_word};

use itoa::Buffer;
use std::alloc::Allocator;
use tx_machine::{Event, Party};
use tx_plan::{GroupId, Line, Plan};
use tx_text::{Figures, Sink, WriteFault, finish, put_parts};
use tx_tickets::write_circuit;

/// Writes the line of an event, as `KEY 41 10001 4110002`, with its LF. The plan has the event's
/// ids, and its circuit has a number from 1 to 240. The line reads back as the event. Where the
/// sink fails, a front of the line was taken.
pub fn write_event<A: Allocator, W: Sink>(
    event: &Event,
    plan: &Plan<A>,
    sink: &mut W,
) -> Result<(), WriteFault>
    requires { IsWritable plan.now event.now }
    ensures says { event_in plan.now (event_line plan.now event.now) ≡ Ok event.now }
    ensures wrote { Wrote W.taken W.failed sink.old sink.new
        (event_text plan.now event.now) result }
{
    plan.rules();
    write_any_event(event, plan, sink);
    finish(sink)
}

/// Writes the line of any event: of an id that the plan does not have, no name is written.
pub fn write_any_event<A: Allocator, W: Sink>(event: &Event, plan: &Plan<A>, sink: &mut W)
    ensures { Puts W.taken W.failed sink.old sink.new
        (event_text plan.now event.now) }
{
    let first = first_word(event);
    match event {
        Event::Key { line, keyed } => write_key(first, line, keyed, plan, sink),
        Event::Route(call) | Event::Confirm(call) => write_call(first, *call, b"\n", sink),
        Event::Clear { call, party } => write_call(first, *call, party_end(*party), sink),
        Event::Fail(group) | Event::Restore(group) | Event::Block(group) | Event::Unblock(group) =>
            write_group(first, *group, plan, sink),
        Event::Released(circuit) | Event::CircuitOut(circuit) | Event::CircuitIn(circuit) => {
            write_circuit(first, circuit, plan, sink)
        }
        Event::LineFault(line)
        | Event::LineMend(line)
        | Event::LineAway(line)
        | Event::LineBack(line) => write_line(first, line, plan, sink),
    }
}

/// The first word of an event's line, with its space.
fn first_word(event: &Event) -> &'static [u8]
    ensures { (p : PlanValue) → result.now ≡ get_or (event_words p event.now) 0 [] ++ codes " " }
{
    match event {
        Event::Key { .. } => b"KEY ",
        Event::Route(_) => b"ROUTE ",
        Event::Confirm(_) => b"CONFIRM ",
        Event::Clear { .. } => b"CLEAR ",
        Event::Released(_) => b"RELEASED ",
        Event::Fail(_) => b"FAIL ",
        Event::Restore(_) => b"RESTORE ",
        Event::Block(_) => b"BLOCK ",
        Event::Unblock(_) => b"UNBLOCK ",
        Event::CircuitOut(_) => b"OUT ",
        Event::CircuitIn(_) => b"IN ",
        Event::LineFault(_) => b"FAULT ",
        Event::LineMend(_) => b"MEND ",
        Event::LineAway(_) => b"AWAY ",
        Event::LineBack(_) => b"BACK ",
    }
}

/// Writes a first word, given with its space, a calling line and what is keyed.
fn write_key<A: Allocator, W: Sink>(
    first: &[u8],
    line: &Line,
    keyed: &Figures,
    plan: &Plan<A>,
    sink: &mut W,
)
    ensures national { is_national line.now.national ≡ true }
    ensures keyed { are_figures 1 12 keyed.now ≡ true }
    ensures puts { Puts W.taken W.failed sink.old sink.new (first.now
        ++ (line_text plan.now line.now ++ (codes " " ++ (keyed.now ++ codes "\n")))) }
{
    put_parts(
        &[
            first,
            plan.code_figures(line.code),
            b" ",
            line.national.bytes(),
            b" ",
            keyed.bytes(),
            b"\n",
        ],
        sink,
    );
}

/// Writes a first word, given with its space, a call's number, and what ends the line.
fn write_call<W: Sink>(first: &[u8], call: u32, end: &[u8], sink: &mut W)
    ensures { Puts W.taken W.failed sink.old sink.new
        (first.now ++ (decimal call ++ end.now)) }
{
    let mut digits = Buffer::new();
    put_parts(&[first, digits.format(call).as_bytes(), end, b""], sink);
}

/// The party that clears, with what comes before it and after it.
fn party_end<'a>(party: Party) -> &'a [u8]
    ensures { result.now ≡ codes " " ++ (party_word party ++ codes "\n") }
{
    match party {
        Party::Caller => b" CALLER\n",
        Party::Called => b" CALLED\n",
    }
}

/// Writes a first word, given with its space, and a group.
fn write_group<A: Allocator, W: Sink>(first: &[u8], group: GroupId, plan: &Plan<A>, sink: &mut W)
    ensures { Puts W.taken W.failed sink.old sink.new
        (first.now ++ (group_name plan.now group ++ codes "\n")) }
{
    put_parts(&[first, plan.group_name(group), b"\n"], sink);
}

/// Writes a first word, given with its space, and a line.
fn write_line<A: Allocator, W: Sink>(first: &[u8], line: &Line, plan: &Plan<A>, sink: &mut W)
    ensures national { is_national line.now.national ≡ true }
    ensures puts { Puts W.taken W.failed sink.old sink.new
        (first.now ++ (line_text plan.now line.now ++ codes "\n")) }
{
    put_parts(
        &[
            first,
            plan.code_figures(line.code),
            b" ",
            line.national.bytes(),
            b"\n",
        ],
        sink,
    );
}
