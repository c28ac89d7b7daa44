// Two networks, and one event after another.
use crate::cases::{Refusing, Told, tell_broken, tell_count};
use std::alloc::{Allocator, Global};
use tx_machine::{Event, Network, Reply, Ticket};

/// In what two networks differ after an event.
#[derive(Clone, Copy)]
pub enum Mismatch {
    Reply,
    /// How many calls are open, or how many events were accepted.
    Counts,
    /// The oldest ticket that waits, or that there is none.
    Ticket,
    /// Memory was refused, and then the counts were other ones than before.
    ChangedByRefusal,
    /// Memory ran out again, where no request was refused any more.
    NoMemory,
    /// Memory ran out where no request was refused, or a refused request was passed over.
    Wanting,
}

impl Mismatch {
    /// The law that is broken.
    pub fn law(self) -> &'static [u8] {
        match self {
            Mismatch::Reply => b"the replies are the same, event",
            Mismatch::Counts => b"the counts are the same, event",
            Mismatch::Ticket => b"the tickets are the same, event",
            Mismatch::ChangedByRefusal => b"refused memory changes nothing, event",
            Mismatch::NoMemory => b"memory is refused once, event",
            Mismatch::Wanting => b"memory is wanting where it is refused, event",
        }
    }
}

/// After which event of which script the networks differ, and in what.
#[derive(Clone, Copy)]
pub struct Differs {
    pub seed: u64,
    /// The index of the event, from 0.
    pub index: u32,
    pub difference: Mismatch,
}

impl Differs {
    pub fn tell(&self, out: &mut Told) {
        tell_broken(self.difference.law(), u64::from(self.index), out);
        tell_count(b"of the script of seed ", self.seed, b"\n", out);
    }
}

/// A reply, and whether memory was refused before it came.
#[derive(Clone, Copy)]
pub struct Answer {
    pub reply: Reply,
    pub was_refused: bool,
}

/// Applies an event to the engine, and again where memory was refused, which must have changed
/// nothing.
fn apply<E: Network>(engine: &mut E, event: &Event) -> Result<Answer, Mismatch> {
    let (open_calls, events) = (engine.open_calls(), engine.events());
    if let Ok(reply) = engine.apply(*event) {
        let was_refused = false;
        return Ok(Answer { reply, was_refused });
    }
    if engine.open_calls() != open_calls || engine.events() != events {
        return Err(Mismatch::ChangedByRefusal);
    }
    match engine.apply(*event) {
        Ok(reply) => {
            let was_refused = true;
            Ok(Answer { reply, was_refused })
        }
        Err(_) => Err(Mismatch::NoMemory),
    }
}

/// Applies an event to both networks, and compares their replies and counts. The answer is that of
/// the engine, which has to run out of memory exactly where a request is refused.
pub fn apply_to_both<P: Network, E: Network>(
    plain: &mut P,
    engine: &mut E,
    memory: &Refusing<Global>,
    event: &Event,
) -> Result<Answer, Mismatch> {
    let Ok(wanted) = plain.apply(*event) else {
        return Err(Mismatch::Wanting);
    };
    let was_over = memory.has_refused();
    let answer = apply(engine, event)?;
    if answer.was_refused != (memory.has_refused() && !was_over) {
        return Err(Mismatch::Wanting);
    }
    if answer.reply != wanted {
        return Err(Mismatch::Reply);
    }
    if engine.open_calls() != plain.open_calls() || engine.events() != plain.events() {
        return Err(Mismatch::Counts);
    }
    Ok(answer)
}

/// Whether two tickets say the same.
fn is_same<A: Allocator, B: Allocator>(ticket: &Ticket<A>, other: &Ticket<B>) -> bool {
    ticket.number == other.number
        && ticket.line == other.line
        && ticket.start == other.start
        && ticket.keyed == other.keyed
        && ticket.cause == other.cause
        && ticket.keyed_at == other.keyed_at
        && ticket.ended_at == other.ended_at
        && ticket.path.as_slice() == other.path.as_slice()
}

/// Compares the oldest tickets of two networks, if there are any.
pub fn compare_tickets<A: Allocator, B: Allocator>(
    wanted: Option<&Ticket<A>>,
    ticket: Option<&Ticket<B>>,
) -> Result<(), Mismatch> {
    let is_right = match (wanted, ticket) {
        (Some(wanted), Some(ticket)) => is_same(wanted, ticket),
        (None, None) => true,
        _ => false,
    };
    if is_right {
        Ok(())
    } else {
        Err(Mismatch::Ticket)
    }
}
