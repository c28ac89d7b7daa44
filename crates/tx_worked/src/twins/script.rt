// Scripts that are made from a seed, and played through two networks.
use crate::cases::{Refusing, Stop};
use crate::twins::chance::Chance;
use crate::twins::drawing::next_event;
use crate::twins::picture::Picture;
use crate::twins::tally::EventTally;
use crate::twins::twins::{Differs, Mismatch, apply_to_both, compare_tickets};
use std::alloc::Global;
use tx_machine::{Event, Network};
use tx_plan::Plan;
use tx_text::NoMemory;

/// The mood changes with each so many events.
const MOOD_EVENTS: u32 = 100;

/// A script that is made from a seed.
#[derive(Clone, Copy)]
pub struct SeededScript {
    pub seed: u64,
    /// How many call numbers were given before it.
    pub numbers: u32,
    /// How many events were accepted before it.
    pub events: u64,
    /// How many events it has.
    pub length: u32,
    /// At most so many calls are to be open.
    pub most: usize,
}

/// Why an event is the last one.
#[derive(Clone, Copy)]
enum Halt {
    Differs(Mismatch),
    NoMemory,
}

impl From<Mismatch> for Halt {
    fn from(difference: Mismatch) -> Halt {
        Halt::Differs(difference)
    }
}

impl From<NoMemory> for Halt {
    fn from(_: NoMemory) -> Halt {
        Halt::NoMemory
    }
}

/// Takes the oldest ticket of both networks, which have to be the same, and takes in what it tells.
/// Returns whether there was one.
fn take_ticket<P: Network, E: Network>(
    plain: &mut P,
    engine: &mut E,
    picture: &mut Picture,
    tally: &mut EventTally,
) -> Result<bool, Halt> {
    let wanted = plain.next_ticket();
    let ticket = engine.next_ticket();
    compare_tickets(wanted.as_ref(), ticket.as_ref())?;
    match &wanted {
        Some(ticket) => {
            tally.note_cause(ticket.cause);
            picture.note_ticket(ticket)?;
            Ok(true)
        }
        None => Ok(false),
    }
}

/// Applies an event to both networks, of which the engine takes this memory, and takes all tickets,
/// if it is time for that: else more of them wait.
fn go_on<P: Network, E: Network>(
    plain: &mut P,
    engine: &mut E,
    memory: &Refusing<Global>,
    event: &Event,
    takes_tickets: bool,
    picture: &mut Picture,
    tally: &mut EventTally,
) -> Result<(), Halt> {
    let answer = apply_to_both(plain, engine, memory, event)?;
    if answer.was_refused {
        tally.note_want(event);
    }
    tally.note_reply(&answer.reply);
    picture.note(event, &answer.reply)?;
    if takes_tickets {
        for _ in 0..u64::MAX {
            if !take_ticket(plain, engine, picture, tally)? {
                break;
            }
        }
    }
    Ok(())
}

/// Why a script stops at the event of this index. Where the networks differ there, the tally takes
/// it in.
fn stop_at(halt: Halt, seed: u64, index: u32, tally: &mut EventTally) -> Stop {
    match halt {
        Halt::NoMemory => Stop::NoMemory,
        Halt::Differs(difference) => {
            tally.differs = Some(Differs {
                seed,
                index,
                difference,
            });
            Stop::Differs
        }
    }
}

/// Plays the events.
fn play_events<P: Network, E: Network>(
    plan: &Plan,
    script: SeededScript,
    plain: &mut P,
    engine: &mut E,
    memory: &Refusing<Global>,
    picture: &mut Picture,
    tally: &mut EventTally,
) -> Result<(), Stop> {
    let mut chance = Chance::new(script.seed);
    for index in 0..script.length {
        let mood = script.seed.wrapping_add(u64::from(index / MOOD_EVENTS));
        let event = next_event(plan, picture, &mut chance, mood, script.most);
        let takes_tickets = !chance.one_in(4);
        let played = go_on(plain, engine, memory, &event, takes_tickets, picture, tally);
        if let Err(halt) = played {
            return Err(stop_at(halt, script.seed, index, tally));
        }
    }
    Ok(())
}

/// Plays a script through both networks, of which the engine takes this memory.
pub fn play<P: Network, E: Network>(
    alloc: Global,
    plan: &Plan,
    script: SeededScript,
    plain: &mut P,
    engine: &mut E,
    memory: &Refusing<Global>,
    tally: &mut EventTally,
) -> Result<(), Stop> {
    let mut picture = Picture::new(alloc, script.numbers);
    play_events(plan, script, plain, engine, memory, &mut picture, tally)
}
