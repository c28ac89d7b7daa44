// Events that are driven through a network after a Yes of the checker. Its memory is of the type
// that can refuse a request, so that each network is built once.
use crate::cases::{
    Refusing, Told, says_no_event, tell, tell_broken, tell_count, two_texts, without_lf,
};
use crate::driven::try_drives;
use crate::runs::{Over, Script};
use std::alloc::{Allocator, Global};
use tx_audit::play;
use tx_cert::read_cert;
use tx_check::{Verdict, check};
use tx_machine::{Event, Network, Plain, Reply, drive};
use tx_plan::Plan;
use tx_plantext::read_plan;
use tx_script::read_event;
use tx_text::NoMemory;
use tx_tickets::{write_reply, write_ticket};

/// Adds the events of a script.
fn put_events<A: Allocator>(
    plan: &Plan<A>,
    script: &[u8],
    events: &mut Vec<Event>,
    out: &mut Told,
) {
    for line in script.split_inclusive(|byte| *byte == b'\n') {
        let line = without_lf(line);
        let is_put = match read_event(line, plan) {
            Ok(event) => events.push(event).is_ok(),
            Err(_) => says_no_event(line),
        };
        if !is_put {
            tell_broken(line, 0, out);
        }
    }
}

fn tell_replies<A: Allocator>(plan: &Plan<A>, replies: &[Reply], out: &mut Told) {
    for reply in replies {
        let _ = write_reply(reply, plan, out);
    }
}

/// Writes how many events a network accepted and calls are open.
fn tell_end<N: Network>(net: &N, out: &mut Told) {
    tell_count(b"END EVENTS ", net.events(), b"", out);
    tell_count(b" OPEN ", net.open_calls(), b"\n", out);
}

/// Takes the oldest ticket and writes it. Returns whether there was one.
fn tell_ticket<A: Allocator, N: Network>(plan: &Plan<A>, net: &mut N, out: &mut Told) -> bool {
    match net.next_ticket() {
        Some(ticket) => {
            let _ = write_ticket(&ticket, plan, out);
            true
        }
        None => false,
    }
}

/// Drives the events through a new plain network of the plan. Writes the replies, then the tickets,
/// and then how many events were accepted and calls are open.
fn drive_plain<A: Allocator + Copy>(
    memory: A,
    plan: &Plan<A>,
    events: &[Event],
    replies: &mut Vec<Reply>,
    out: &mut Told,
) -> Result<(), NoMemory> {
    let mut net = Plain::new(memory, plan)?;
    drive(&mut net, events, replies)?;
    tell_replies(plan, replies.as_slice(), out);
    for _ in 0..=replies.len() {
        if !tell_ticket(plan, &mut net, out) {
            break;
        }
    }
    tell_end(&net, out);
    Ok(())
}

/// Plays the events on the engine, and writes the same.
fn play_engine<A: Allocator + Copy>(
    memory: A,
    plan: &Plan<A>,
    events: &[Event],
    replies: &mut Vec<Reply>,
    out: &mut Told,
) -> Result<(), NoMemory> {
    let played = play(memory, plan, 0, 0, events)?;
    replies.extend_from_slice(played.replies.as_slice())?;
    tell_replies(plan, replies.as_slice(), out);
    for ticket in &played.tickets {
        let _ = write_ticket(ticket, plan, out);
    }
    tell_end(&played.network, out);
    Ok(())
}

/// Drives the events of the script, and again where memory is refused.
fn drive_script<A: Allocator + Copy>(
    alloc: Global,
    memory: A,
    plan: &Plan<A>,
    text: Script<'_>,
    out: &mut Told,
) {
    let mut events = Vec::new(alloc);
    put_events(plan, text.script, &mut events, out);
    let events = events.as_slice();
    let mut replies = Vec::new(alloc);
    let told = match text.over {
        Over::Plain => drive_plain(memory, plan, events, &mut replies, out),
        Over::Engine => play_engine(memory, plan, events, &mut replies, out),
    };
    match told {
        Ok(()) => try_drives(alloc, text, events, replies.as_slice(), out),
        Err(_) => tell_broken(b"no memory", 0, out),
    }
}

/// Whether the checker says Yes to a certificate of the plan.
fn is_certified<A: Allocator + Copy>(
    memory: A,
    plan: &Plan<A>,
    cert: &[u8],
    numbers: (u8, u8),
) -> bool {
    match read_cert(memory, cert, plan) {
        Ok(cert) => {
            let verdict = check(plan, &cert, numbers.0.min(62), numbers.1.min(15));
            matches!(verdict, Verdict::Yes)
        }
        Err(_) => false,
    }
}

/// Writes whether the checker says Yes to a certificate of the plan, and drives the events of the
/// script after a Yes.
fn check_and_drive<A: Allocator + Copy>(
    alloc: Global,
    memory: A,
    plan: &Plan<A>,
    numbers: (u8, u8),
    text: Script<'_>,
    out: &mut Told,
) {
    let (cert, script) = two_texts(text.script);
    if is_certified(memory, plan, cert, numbers) {
        let mut text = text;
        text.script = script;
        tell(b"YES\n", out);
        drive_script(alloc, memory, plan, text, out);
    } else {
        tell(b"NO\n", out);
    }
}

/// Checks the certificate that stands before a script, with a limit and a spare number, and after a
/// Yes drives the events of the script.
pub(crate) fn play_certified(alloc: Global, numbers: (u8, u8), text: Script<'_>, out: &mut Told) {
    let memory = Refusing::new(alloc, 0);
    match read_plan(&memory, text.plan) {
        Ok(plan) => check_and_drive(alloc, &memory, &plan, numbers, text, out),
        Err(_) => tell_broken(b"no plan", 0, out),
    }
}
