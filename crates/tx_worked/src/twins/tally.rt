// Counts of events, by their replies, and of tickets, by their causes.
use crate::cases::{Told, tell, tell_count, tell_parts};
use crate::twins::twins::Differs;
use tx_machine::{Cause, Event, Refusal, Reply};

/// The names of what is counted, in the order in which the counts are told.
static REPLIES: &str = "keyed seized at connected head_on_both_stand head_on_one_stands \
    head_on_none_stands cleared done lost_none lost_one lost_several";

static SERVICES: &str = "occ nc np der abs na";

static REFUSALS: &str = "unknown_call not_standing not_calling not_connected unknown_line \
    line_engaged line_out_of_order already_so not_so not_releasing unknown_circuit exhausted";

static CAUSES: &str = "answered cleared_by_caller cleared_by_called lost";

/// Which events met a request for memory that was refused. The last are those that have no need of
/// memory.
static WANTS: &str = "key route line_fault line_away other";

/// Counts of events and of tickets, each at the index of its name.
#[derive(Clone, Copy)]
pub struct EventTally {
    pub events: u64,
    pub accepted: u64,
    replies: [u64; 12],
    answers: [u64; 6],
    refusals: [u64; 12],
    causes: [u64; 4],
    wants: [u64; 5],
    /// How the networks differ, where they do.
    pub differs: Option<Differs>,
}

/// Counts of the scripts that are played with all memory there, and of those that are played with
/// memory refused.
#[derive(Clone, Copy)]
pub struct Tallies {
    pub whole: EventTally,
    pub refusing: EventTally,
}

fn add_one(count: &mut u64) {
    *count = count.saturating_add(1);
}

/// Adds one to the count at an index, if there is one.
fn count_at(counts: &mut [u64], index: usize) {
    if let Some(count) = counts.get_mut(index) {
        add_one(count);
    }
}

/// The index of a reply in `REPLIES`, of which an answer and a refusal have none: these are counted
/// by what they say.
fn reply_index(reply: &Reply) -> usize {
    match reply {
        Reply::Keyed(_) => 0,
        Reply::Seized(_) => 1,
        Reply::At(_) => 2,
        Reply::Connected(_) => 3,
        Reply::HeadOn {
            a_stands,
            b_stands,
            ..
        } => match (*a_stands, *b_stands) {
            (true, true) => 4,
            (true, false) | (false, true) => 5,
            (false, false) => 6,
        },
        Reply::Cleared => 7,
        Reply::Done => 8,
        Reply::Lost(0) => 9,
        Reply::Lost(1) => 10,
        Reply::Lost(_) => 11,
        Reply::Answered(_) | Reply::Refused(_) => usize::MAX,
    }
}

/// The index of a refusal in `REFUSALS`.
fn refusal_index(refusal: Refusal) -> usize {
    match refusal {
        Refusal::UnknownCall => 0,
        Refusal::NotStanding => 1,
        Refusal::NotCalling => 2,
        Refusal::NotConnected => 3,
        Refusal::UnknownLine => 4,
        Refusal::LineEngaged => 5,
        Refusal::LineOutOfOrder => 6,
        Refusal::AlreadySo => 7,
        Refusal::NotSo => 8,
        Refusal::NotReleasing => 9,
        Refusal::UnknownCircuit => 10,
        Refusal::Exhausted => 11,
    }
}

/// The index of a cause in `CAUSES`.
fn cause_index(cause: Cause) -> usize {
    match cause {
        Cause::Service(_) => 0,
        Cause::ClearedByCaller => 1,
        Cause::ClearedByCalled => 2,
        Cause::Lost => 3,
    }
}

/// The index of an event in `WANTS`.
fn want_index(event: &Event) -> usize {
    match event {
        Event::Key { .. } => 0,
        Event::Route(_) => 1,
        Event::LineFault(_) => 2,
        Event::LineAway(_) => 3,
        _ => 4,
    }
}

impl EventTally {
    fn new() -> EventTally {
        EventTally {
            events: 0,
            accepted: 0,
            replies: [0; 12],
            answers: [0; 6],
            refusals: [0; 12],
            causes: [0; 4],
            wants: [0; 5],
            differs: None,
        }
    }

    pub fn note_reply(&mut self, reply: &Reply) {
        add_one(&mut self.events);
        match reply {
            Reply::Refused(refusal) => {
                return count_at(&mut self.refusals, refusal_index(*refusal));
            }
            Reply::Answered(service) => {
                count_at(&mut self.answers, Cause::Service(*service).index())
            },
            _ => count_at(&mut self.replies, reply_index(reply)),
        }
        add_one(&mut self.accepted);
    }

    pub fn note_cause(&mut self, cause: Cause) {
        count_at(&mut self.causes, cause_index(cause));
    }

    /// Takes in that an event met a request for memory that was refused.
    pub fn note_want(&mut self, event: &Event) {
        count_at(&mut self.wants, want_index(event));
    }
}

impl Tallies {
    pub fn new() -> Tallies {
        Tallies {
            whole: EventTally::new(),
            refusing: EventTally::new(),
        }
    }

    /// How the networks differ, where they do.
    pub fn difference(&self) -> Option<Differs> {
        match self.whole.differs {
            Some(differs) => Some(differs),
            None => self.refusing.differs,
        }
    }
}

/// Tells counts under a title, or only of which there were any.
fn tell_counts(title: &[u8], names: &str, counts: &[u64], are_told: bool, out: &mut Told) {
    tell_parts(&[title, b" {\n"], out);
    for (name, count) in names.split_whitespace().zip(counts) {
        tell_parts(&[b"    ", name.as_bytes(), b": "], out);
        match *count {
            count if are_told => tell_count(b"", count, b",\n", out),
            0 => tell(b"false,\n", out),
            _ => tell(b"true,\n", out),
        }
    }
    tell(b"}\n", out);
}

/// Writes how many events there were, and how many of them were accepted.
pub fn tell_events(events: u64, accepted: u64, out: &mut Told) {
    tell_count(b"", events, b" events, ", out);
    tell_count(b"", accepted, b" of them accepted\n", out);
}

/// Writes what was counted, and which events met a refused request.
pub fn tell_tallies(tallies: &Tallies, out: &mut Told) {
    let tally = &tallies.whole;
    tell(b"in all: ", out);
    tell_events(tally.events, tally.accepted, out);
    tell_counts(b"Replies", REPLIES, &tally.replies, true, out);
    tell_counts(b"Services", SERVICES, &tally.answers, true, out);
    tell_counts(b"Refusals", REFUSALS, &tally.refusals, true, out);
    tell_counts(b"Causes", CAUSES, &tally.causes, true, out);
    tell_counts(b"Wants", WANTS, &tallies.refusing.wants, false, out);
}
