// The line of a ticket.
ghost use Rattle.std.specs.Prelude.{◌≡◌, ◌≤◌, ◌++◌, [], codes, length};
ghost use Rattle.std.specs.List.{flat_map};
ghost use Rattle.arrayvec.specs.ArrayVec.{array_vec_len};
ghost use Rattle.tx_text.specs.Puts.{Puts};
ghost use Rattle.tx_text.specs.Wrote.{Wrote};
ghost use Rattle.tx_tickets.specs.Texts.{hop_text, caller_text, events_text, why_text, ticket_text};

use crate::reply::{cause_word, put, put_number};
use arrayvec::ArrayVec;
use std::alloc::Allocator;
use tx_machine::{Hop, Ticket};
use tx_plan::Plan;
use tx_text::{Sink, WriteFault, finish, put_bytes};

/// Room for the line of a ticket, or for a part of it.
type Room = ArrayVec<u8, 192>;

/// A line of more bytes may have no room for one more hop and an LF.
const FULL: usize = 152;

/// Writes the line of a ticket, with its LF: the call's number, its line, what was keyed, the
/// events by which it was keyed and ended, why it ended, and its way. Where the sink fails, a front
/// of the line was taken.
pub fn write_ticket<A: Allocator, B: Allocator, W: Sink>(
    ticket: &Ticket<A>,
    plan: &Plan<B>,
    sink: &mut W,
) -> Result<(), WriteFault>
    ensures { Wrote W.taken W.failed sink.old sink.new (ticket_text plan.now ticket.now) result }
{
    let mut text = Room::new();
    put_caller(ticket, plan, &mut text);
    put_events(ticket, &mut text);
    put_why(ticket, plan, &mut text);
    write_path(&ticket.path, plan, &mut text, sink);
    finish(sink)
}

/// Puts the call's number, its line and what was keyed.
fn put_caller<A: Allocator, B: Allocator>(ticket: &Ticket<A>, plan: &Plan<B>, text: &mut Room)
    requires { text.old.items ≡ [] }
    ensures text { text.new.items ≡ caller_text plan.now ticket.now }
    ensures width { array_vec_len text.new ≤ 66 }
{
    put(text, b"T ");
    put_number(text, u64::from(ticket.number));
    put(text, b" FROM ");
    put(text, plan.code_figures(ticket.line.code));
    put(text, b" ");
    put(text, ticket.line.national.bytes());
    put(text, b" TO ");
    put(text, ticket.keyed.bytes());
    put(text, b" EV ");
}

/// Puts the events of the call's start and its end.
fn put_events<A: Allocator>(ticket: &Ticket<A>, text: &mut Room)
    requires { array_vec_len text.old ≤ 66 }
    ensures text { text.new.items ≡ text.old.items ++ events_text ticket.now }
    ensures width { array_vec_len text.new ≤ 111 }
{
    put_number(text, ticket.keyed_at);
    put(text, b" ");
    put_number(text, ticket.ended_at);
    put(text, b" BY ");
}

/// Puts why the call ended, and where it started.
fn put_why<A: Allocator, B: Allocator>(ticket: &Ticket<A>, plan: &Plan<B>, text: &mut Room)
    requires { array_vec_len text.old ≤ 111 }
    ensures text { text.new.items ≡ text.old.items ++ why_text plan.now ticket.now }
    ensures width { array_vec_len text.new ≤ 128 }
{
    put(text, cause_word(ticket.cause));
    put(text, b" VIA ");
    put(text, plan.exchange_name(ticket.start));
}

/// Writes a line that has begun, with each hop after it and an LF. Where the next hop may have no
/// room, what is there goes out before it.
fn write_path<A: Allocator, W: Sink>(hops: &[Hop], plan: &Plan<A>, text: &mut Room, sink: &mut W)
    requires { array_vec_len text.old ≤ 128 }
    ensures { Puts W.taken W.failed sink.old sink.new
        (text.old.items ++ (flat_map (hop_text plan.now) hops.now ++ codes "\n")) }
{
    for hop in hops {
        put_hop(hop, plan, text);
        if text.len() <= FULL {
            continue;
        }
        put_bytes(text.as_slice(), sink);
        text.clear();
    }
    put(text, b"\n");
    put_bytes(text.as_slice(), sink);
}

/// Puts a hop: its circuit, and the exchange that it leads to.
fn put_hop<A: Allocator>(hop: &Hop, plan: &Plan<A>, text: &mut Room)
    requires { array_vec_len text.old ≤ 152 }
    ensures text { text.new.items ≡ text.old.items ++ hop_text plan.now hop.now }
    ensures width { array_vec_len text.new ≤ 191 }
{
    put(text, b" ");
    put(text, plan.group_name(hop.circuit.group));
    put(text, b".");
    put_number(text, u64::from(hop.circuit.number));
    put(text, b" ");
    put(text, plan.exchange_name(hop.far));
}
