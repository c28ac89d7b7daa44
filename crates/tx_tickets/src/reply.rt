// The line of a reply, in room of its own, and the words that replies and tickets share.
ghost use Rattle.std.specs.Prelude.{◌≡◌, ◌+◌, ◌≤◌, ◌++◌, [], codes, decimal, length, ◌<◌};
ghost use Rattle.arrayvec.specs.ArrayVec.{array_vec_len};
ghost use Rattle.tx_text.specs.Puts.{Puts};
ghost use Rattle.tx_text.specs.Wrote.{Wrote};
ghost use Rattle.tx_plan.specs.Plan.{exchange_name};
ghost use Rattle.tx_machine.specs.declared.reply.Reply.TheVariants.{Lost};
ghost use Rattle.tx_tickets.specs.Texts.{circuit_text, line_text, stands_text, reply_text, service_text, cause_text, refusal_text};

use arrayvec::ArrayVec;
use itoa::Buffer;
use std::alloc::Allocator;
use tx_machine::{Cause, Refusal, Reply, Service};
use tx_plan::{Circuit, ExchangeId, Line, Plan};
use tx_text::{Sink, WriteFault, put_parts, write_bytes};

/// Appends bytes to a line.
pub(crate) fn put<const N: usize>(text: &mut ArrayVec<u8, N>, bytes: &[u8])
    requires { array_vec_len text.old + length bytes.now ≤ N }
    ensures text { text.new.items ≡ text.old.items ++ bytes.now }
    ensures width { array_vec_len text.new ≡ array_vec_len text.old + length bytes.now }
{
    match text.try_extend_from_slice(bytes) {
        Ok(()) => {}
        Err(_) => unreachable!(),
    }
}

/// Appends the figures of a number to a line.
pub(crate) fn put_number<const N: usize>(text: &mut ArrayVec<u8, N>, number: u64)
    requires { array_vec_len text.old + 20 ≤ N }
    ensures text { text.new.items ≡ text.old.items ++ decimal number }
    ensures width { array_vec_len text.new ≤ array_vec_len text.old + 20 }
{
    let mut figures = Buffer::new();
    put(text, figures.format(number).as_bytes());
}

/// A service code, as it is printed.
pub(crate) fn service_word(service: Service) -> &'static [u8]
    ensures text { result.now ≡ service_text service }
    ensures width { length result.now ≤ 4 }
{
    match service {
        Service::Occ => b"OCC",
        Service::Nc => b"NC",
        Service::Np => b"NP",
        Service::Der => b"DER",
        Service::Abs => b"ABS",
        Service::Na => b"NA",
    }
}

/// The word of a cause, after BY.
pub fn cause_word(cause: Cause) -> &'static [u8]
    ensures text { result.now ≡ cause_text cause }
    ensures width { length result.now ≤ 4 }
{
    match cause {
        Cause::Service(service) => service_word(service),
        Cause::ClearedByCaller => b"CLRA",
        Cause::ClearedByCalled => b"CLRB",
        Cause::Lost => b"LOST",
    }
}

pub(crate) fn refusal_word(refusal: Refusal) -> &'static [u8]
    ensures text { result.now ≡ refusal_text refusal }
    ensures width { length result.now ≤ 4 }
{
    match refusal {
        Refusal::UnknownCall => b"M1",
        Refusal::NotStanding => b"M2",
        Refusal::NotCalling => b"M3",
        Refusal::NotConnected => b"M4",
        Refusal::UnknownLine => b"M5",
        Refusal::LineEngaged => b"M6",
        Refusal::LineOutOfOrder => b"M7",
        Refusal::AlreadySo => b"M8",
        Refusal::NotSo => b"M9",
        Refusal::NotReleasing => b"M10",
        Refusal::UnknownCircuit => b"M11",
        Refusal::Exhausted => b"M12",
    }
}

pub(crate) fn stands_word(stands: bool) -> &'static [u8]
    ensures text { result.now ≡ stands_text stands }
    ensures width { length result.now ≤ 7 }
{
    if stands { b" STANDS" } else { b" NC" }
}

/// Room for the line of a reply, which has at most 64 bytes.
type Room = ArrayVec<u8, 64>;

/// Writes the line of a reply, as `CONNECTED 41 10002`, with its LF. Where the sink fails, a front
/// of the line was taken.
pub fn write_reply<A: Allocator, W: Sink>(
    reply: &Reply,
    plan: &Plan<A>,
    sink: &mut W,
) -> Result<(), WriteFault>
    ensures { Wrote W.taken W.failed sink.old sink.new (reply_text plan.now reply.now) result }
{
    let mut text = Room::new();
    put_reply(reply, plan, &mut text);
    write_bytes(text.as_slice(), sink)
}

/// Puts a reply on an empty line.
fn put_reply<A: Allocator>(reply: &Reply, plan: &Plan<A>, text: &mut Room)
    requires { text.old.items ≡ [] }
    ensures { text.new.items ≡ reply_text plan.now reply.now }
{
    match reply {
        Reply::Keyed(n) => put_count(b"KEYED ", u64::from(*n), text),
        Reply::Seized(circuit) => put_circuit(circuit, plan, text),
        Reply::At(exchange) => put_at(*exchange, plan, text),
        Reply::Connected(called) => put_connected(*called, plan, text),
        Reply::Answered(service) => put_word(b"ANSWERED ", service_word(*service), text),
        Reply::HeadOn {
            a,
            b,
            a_stands,
            b_stands,
        } => put_head_on(*a, *a_stands, *b, *b_stands, text),
        Reply::Cleared => put(text, b"CLEARED\n"),
        Reply::Done => put(text, b"DONE\n"),
        Reply::Lost(n) => put_count(b"LOST ", *n, text),
        Reply::Refused(refusal) => put_word(b"REFUSED ", refusal_word(*refusal), text),
    }
}

/// Puts a first word, given with its space, and another.
fn put_word(first: &[u8], word: &[u8], text: &mut Room)
    requires first { length first.now ≤ 10 }
    requires word { length word.now ≤ 20 }
    requires text { text.old.items ≡ [] }
    ensures { text.new.items ≡ first.now ++ (word.now ++ codes "\n") }
{
    put(text, first);
    put(text, word);
    put(text, b"\n");
}

/// Puts the exchange that a call came to.
fn put_at<A: Allocator>(exchange: ExchangeId, plan: &Plan<A>, text: &mut Room)
    requires { text.old.items ≡ [] }
    ensures { text.new.items ≡ codes "AT " ++ (exchange_name plan.now exchange ++ codes "\n") }
{
    put(text, b"AT ");
    put(text, plan.exchange_name(exchange));
    put(text, b"\n");
}

/// Puts a first word, given with its space, and a number.
fn put_count(first: &[u8], count: u64, text: &mut Room)
    requires first { length first.now ≤ 10 }
    requires text { text.old.items ≡ [] }
    ensures { text.new.items ≡ first.now ++ (decimal count ++ codes "\n") }
{
    put(text, first);
    put_number(text, count);
    put(text, b"\n");
}

fn put_circuit<A: Allocator>(circuit: &Circuit, plan: &Plan<A>, text: &mut Room)
    requires { text.old.items ≡ [] }
    ensures { text.new.items
        ≡ codes "SEIZED " ++ (circuit_text plan.now circuit.now ++ codes "\n") }
{
    put(text, b"SEIZED ");
    put(text, plan.group_name(circuit.group));
    put(text, b".");
    put_number(text, u64::from(circuit.number));
    put(text, b"\n");
}

fn put_connected<A: Allocator>(called: Line, plan: &Plan<A>, text: &mut Room)
    requires { text.old.items ≡ [] }
    ensures { text.new.items ≡ codes "CONNECTED " ++ (line_text plan.now called ++ codes "\n") }
{
    put(text, b"CONNECTED ");
    put(text, plan.code_figures(called.code));
    put(text, b" ");
    put(text, called.national.bytes());
    put(text, b"\n");
}

/// Puts the two calls of a head-on collision.
fn put_head_on(a: u32, a_stands: bool, b: u32, b_stands: bool, text: &mut Room)
    requires { text.old.items ≡ [] }
    ensures { text.new.items ≡ codes "HEADON " ++ (decimal a ++ (stands_text a_stands
        ++ (codes " " ++ (decimal b ++ (stands_text b_stands ++ codes "\n"))))) }
{
    put(text, b"HEADON ");
    put_number(text, u64::from(a));
    put(text, stands_word(a_stands));
    put(text, b" ");
    put_number(text, u64::from(b));
    put(text, stands_word(b_stands));
    put(text, b"\n");
}

/// Writes a first word, given with its space, and a circuit, as `SEIZED G1.12`, with its LF.
pub fn write_circuit<A: Allocator, W: Sink>(
    first: &[u8],
    circuit: &Circuit,
    plan: &Plan<A>,
    sink: &mut W,
)
    ensures { Puts W.taken W.failed sink.old sink.new
        (first.now ++ (circuit_text plan.now circuit.now ++ codes "\n")) }
{
    let mut digits = Buffer::new();
    let number = digits.format(circuit.number).as_bytes();
    let group = plan.group_name(circuit.group);
    put_parts(
        &[first, group, b".".as_slice(), number, b"\n".as_slice()],
        sink,
    );
}
