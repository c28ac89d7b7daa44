// The two networks: the plain one, and the engine.
use crate::cases::{Refusing, Stop};
use crate::twins::script::{SeededScript, play};
use crate::twins::tally::EventTally;
use std::alloc::Global;
use tx_engine::Engine;
use tx_machine::Plain;
use tx_plan::Plan;
use tx_plantext::read_plan;

/// A plan and its text, of which the engine reads its own plan with its own memory.
#[derive(Clone, Copy)]
pub struct PlanOfBoth<'a> {
    pub alloc: Global,
    pub plan: &'a Plan,
    pub text: &'a [u8],
}

/// Plays a script through a plain network and a new engine, whose plan says the same and whose
/// memory is another's.
fn play_engine<'m>(
    of: PlanOfBoth<'_>,
    script: SeededScript,
    plain: &mut Plain<'_>,
    memory: &'m Refusing<Global>,
    engine_plan: &Plan<&'m Refusing<Global>>,
    tally: &mut EventTally,
) -> Result<(), Stop> {
    let mut engine = Engine::starting_at(memory, engine_plan, script.numbers, script.events)?;
    play(of.alloc, of.plan, script, plain, &mut engine, memory, tally)
}

/// Plays a script through both networks.
fn play_both(
    of: PlanOfBoth<'_>,
    script: SeededScript,
    memory: &Refusing<Global>,
    tally: &mut EventTally,
) -> Result<(), Stop> {
    let mut plain = Plain::starting_at(of.alloc, of.plan, script.numbers, script.events)?;
    match read_plan(memory, of.text) {
        Ok(engine_plan) => play_engine(of, script, &mut plain, memory, &engine_plan, tally),
        Err(_) => Err(Stop::NoMemory),
    }
}

/// Plays a script through both networks, with no request refused.
pub fn play_script(
    of: PlanOfBoth<'_>,
    script: SeededScript,
    tally: &mut EventTally,
) -> Result<(), Stop> {
    let memory = Refusing::new(of.alloc, 0);
    play_both(of, script, &memory, tally)
}

/// Plays a script with each request for memory refused to the engine in turn, until there are no
/// more.
pub fn play_refusing_each(
    of: PlanOfBoth<'_>,
    script: SeededScript,
    tally: &mut EventTally,
) -> Result<(), Stop> {
    for request in 1..u64::MAX {
        let refusing = Refusing::new(of.alloc, request);
        let played = play_both(of, script, &refusing, tally);
        let came = refusing.has_refused();
        match played {
            Err(Stop::NoMemory) if came => {}
            Err(stop) => return Err(stop),
            Ok(()) if came => {}
            Ok(()) => break,
        }
    }
    Ok(())
}
