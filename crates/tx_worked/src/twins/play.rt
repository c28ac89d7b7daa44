// Plays the scripts of a plan.
use crate::cases::{Head, Stop, Told, tell_stop};
use crate::twins::networks::{PlanOfBoth, play_refusing_each, play_script};
use crate::twins::script::SeededScript;
use crate::twins::tally::{Tallies, tell_events};
use std::alloc::Global;
use tx_plantext::read_plan;

/// How many events a script has that begins in the opening state.
const LENGTH: u32 = 6000;

/// A script from the opening state.
fn opening_script(seed: u64, length: u32, most: usize) -> SeededScript {
    SeededScript {
        seed,
        numbers: 0,
        events: 0,
        length,
        most,
    }
}

/// Plays the scripts of a plan with all memory there, and short ones with memory refused.
fn play_scripts(
    of: PlanOfBoth<'_>,
    most: usize,
    seed: u64,
    tallies: &mut Tallies,
) -> Result<(), Stop> {
    for more in 0..4u64 {
        let seed = seed.wrapping_add(more.wrapping_mul(1000));
        play_script(of, opening_script(seed, LENGTH, most), &mut tallies.whole)?;
    }
    let mut last_number = opening_script(seed, 400, most);
    last_number.numbers = u32::MAX - 60;
    play_script(of, last_number, &mut tallies.whole)?;
    let mut last_event = opening_script(seed, 300, most);
    last_event.events = u64::MAX - 200;
    play_script(of, last_event, &mut tallies.whole)?;
    for seed in 0..4u64 {
        play_refusing_each(of, opening_script(seed, 100, most), &mut tallies.refusing)?;
    }
    Ok(())
}

/// Reads a plan, and plays its scripts.
fn read_and_play(
    alloc: Global,
    text: &[u8],
    most: usize,
    seed: u64,
    tallies: &mut Tallies,
) -> Result<(), Stop> {
    let plan = read_plan(alloc, text)?;
    let of = PlanOfBoth {
        alloc,
        plan: &plan,
        text,
    };
    play_scripts(of, most, seed, tallies)
}

/// Plays the scripts of a plan, whose head says how many calls are to be open at most, and the
/// first seed. Writes how many events they have, and why they stopped where they did.
pub fn play_twins(
    alloc: Global,
    head: Head<'_>,
    text: &[u8],
    tallies: &mut Tallies,
    out: &mut Told,
) {
    let (most, seed) = head.numbers();
    let (events, accepted) = (tallies.whole.events, tallies.whole.accepted);
    let played = read_and_play(alloc, text, most as usize, u64::from(seed), tallies);
    let events = tallies.whole.events.saturating_sub(events);
    let accepted = tallies.whole.accepted.saturating_sub(accepted);
    tell_events(events, accepted, out);
    match (played, tallies.difference()) {
        (Err(Stop::Differs), Some(differs)) => differs.tell(out),
        _ => tell_stop(played, out),
    }
}
