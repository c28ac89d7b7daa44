// The event that the words of a line say, from its verb on.
ghost use Rattle.std.specs.Prelude.{◌≡◌, ◌<◌, None, Some, MatchOption, IfSome, length};
ghost use Rattle.std.specs.List.{position};
ghost use Rattle.tx_script.specs.Events.{event_of, event_by, key_event, call_in, clear_event, circuit_in, circuit_of, circuit_number, is_dot, cut_at_dot, group_in, line_in, line_of, party_of, end_event, verb_of};

use crate::script_word::ScriptWord;
use std::alloc::Allocator;
use tx_machine::{Event, Party};
use tx_plan::{Circuit, GroupId, Line, National, Plan};
use tx_text::{Figures, Words, number};

/// What the first word of a line says.
#[derive(Clone, Copy)]
pub(crate) enum Verb {
    Key,
    Route,
    Confirm,
    Clear,
    Released,
    Fail,
    Restore,
    Block,
    Unblock,
    Out,
    In,
    Fault,
    Mend,
    Away,
    Back,
    End,
}

impl Verb {
    /// The verb that a word is.
    pub(crate) fn read(word: &[u8]) -> Option<Verb>
        ensures { result ≡ verb_of word.now }
    {
        match word {
            b"KEY" => Some(Verb::Key),
            b"ROUTE" => Some(Verb::Route),
            b"CONFIRM" => Some(Verb::Confirm),
            b"CLEAR" => Some(Verb::Clear),
            b"RELEASED" => Some(Verb::Released),
            b"FAIL" => Some(Verb::Fail),
            b"RESTORE" => Some(Verb::Restore),
            b"BLOCK" => Some(Verb::Block),
            b"UNBLOCK" => Some(Verb::Unblock),
            b"OUT" => Some(Verb::Out),
            b"IN" => Some(Verb::In),
            b"FAULT" => Some(Verb::Fault),
            b"MEND" => Some(Verb::Mend),
            b"AWAY" => Some(Verb::Away),
            b"BACK" => Some(Verb::Back),
            b"END" => Some(Verb::End),
            _ => None,
        }
    }
}

/// The event of a line's words.
#[tactic(auto, unfolding(crate::specs::Events::event_of))]
pub(crate) fn event_of<A: Allocator>(words: Words<'_>, plan: &Plan<A>) -> Result<Event, ScriptWord>
    ensures { result ≡ event_of plan.now words.entry }
{
    let mut words = words;
    let Some(first) = words.next() else {
        return Err(ScriptWord::UnknownWord);
    };
    match Verb::read(first) {
        Some(verb) => event_by(verb, words, plan),
        None => Err(ScriptWord::UnknownWord),
    }
}

/// The event of a first word and the words that follow it.
fn event_by<A: Allocator>(verb: Verb, words: Words<'_>, plan: &Plan<A>) -> Result<Event, ScriptWord>
    ensures { result ≡ event_by plan.now verb words.entry }
{
    match verb {
        Verb::Key => key_event(words, plan),
        Verb::Route => call_in(words).map(Event::Route),
        Verb::Confirm => call_in(words).map(Event::Confirm),
        Verb::Clear => clear_event(words),
        Verb::Released => circuit_in(words, plan).map(Event::Released),
        Verb::Fail => group_in(words, plan).map(Event::Fail),
        Verb::Restore => group_in(words, plan).map(Event::Restore),
        Verb::Block => group_in(words, plan).map(Event::Block),
        Verb::Unblock => group_in(words, plan).map(Event::Unblock),
        Verb::Out => circuit_in(words, plan).map(Event::CircuitOut),
        Verb::In => circuit_in(words, plan).map(Event::CircuitIn),
        Verb::Fault => line_in(words, plan).map(Event::LineFault),
        Verb::Mend => line_in(words, plan).map(Event::LineMend),
        Verb::Away => line_in(words, plan).map(Event::LineAway),
        Verb::Back => line_in(words, plan).map(Event::LineBack),
        Verb::End => end_event(words),
    }
}

/// A code, a national number and the figures that were keyed.
#[tactic(auto, using(crate::proofs::WordCounts::not_three))]
fn key_event<A: Allocator>(words: Words<'_>, plan: &Plan<A>) -> Result<Event, ScriptWord>
    ensures { result ≡ key_event plan.now words.entry }
{
    let Some((code, national, keyed)) = words.three() else {
        return Err(ScriptWord::WrongCount);
    };
    let keyed = Figures::read(keyed).ok_or(ScriptWord::BadNumber)?;
    let line = line_of(code, national, plan)?;
    Ok(Event::Key { line, keyed })
}

/// A call's number.
#[tactic(auto, using(crate::proofs::WordCounts::not_one))]
fn call_in(words: Words<'_>) -> Result<u32, ScriptWord>
    ensures { result ≡ call_in words.entry }
{
    let Some(call) = words.one() else {
        return Err(ScriptWord::WrongCount);
    };
    number(call, u32::MAX).ok_or(ScriptWord::BadNumber)
}

/// A call's number, and CALLER or CALLED.
#[tactic(auto, using(crate::proofs::WordCounts::not_two))]
fn clear_event(words: Words<'_>) -> Result<Event, ScriptWord>
    ensures { result ≡ clear_event words.entry }
{
    let Some((call, party)) = words.two() else {
        return Err(ScriptWord::WrongCount);
    };
    let party = party_of(party).ok_or(ScriptWord::UnknownWord)?;
    let call = number(call, u32::MAX).ok_or(ScriptWord::BadNumber)?;
    Ok(Event::Clear { call, party })
}

fn party_of(word: &[u8]) -> Option<Party>
    ensures { result ≡ party_of word.now }
{
    match word {
        b"CALLER" => Some(Party::Caller),
        b"CALLED" => Some(Party::Called),
        _ => None,
    }
}

/// A circuit.
#[tactic(auto, using(crate::proofs::WordCounts::not_one))]
fn circuit_in<A: Allocator>(words: Words<'_>, plan: &Plan<A>) -> Result<Circuit, ScriptWord>
    ensures { result ≡ circuit_in plan.now words.entry }
{
    let Some(circuit) = words.one() else {
        return Err(ScriptWord::WrongCount);
    };
    circuit_of(circuit, plan)
}

/// The circuit that a word names, as G1.1.
fn circuit_of<A: Allocator>(word: &[u8], plan: &Plan<A>) -> Result<Circuit, ScriptWord>
    ensures { result ≡ circuit_of plan.now word.now }
{
    let (group, number) = cut_at_dot(word).ok_or(ScriptWord::BadNumber)?;
    let number = circuit_number(number).ok_or(ScriptWord::BadNumber)?;
    let group = plan.group_named(group).ok_or(ScriptWord::UnknownName)?;
    Ok(Circuit { group, number })
}

/// A number from 1 to 240.
fn circuit_number(word: &[u8]) -> Option<u32>
    ensures { result ≡ circuit_number word.now }
{
    match number(word, 240) {
        Some(0) | None => None,
        Some(number) => Some(number),
    }
}

/// What is before the first dot, and what follows it.
fn cut_at_dot(word: &[u8]) -> Option<(&[u8], &[u8])>
    ensures { MatchOption result (cut_at_dot word.now ≡ None)
        (λ c. cut_at_dot word.now ≡ Some (c.0.now, c.1.now)) }
{
    match first_dot(word) {
        Some(dot) => Some((&word[..dot], &word[dot + 1..])),
        None => None,
    }
}

/// Where the first dot is.
fn first_dot(word: &[u8]) -> Option<usize>
    ensures index { result ≡ position is_dot word.now }
    ensures within { IfSome result (λ dot. dot < length word.now) }
{
    word.iter().position(|byte| *byte == b'.')
}

/// A group.
#[tactic(auto, using(crate::proofs::WordCounts::not_one))]
fn group_in<A: Allocator>(words: Words<'_>, plan: &Plan<A>) -> Result<GroupId, ScriptWord>
    ensures { result ≡ group_in plan.now words.entry }
{
    let Some(name) = words.one() else {
        return Err(ScriptWord::WrongCount);
    };
    plan.group_named(name).ok_or(ScriptWord::UnknownName)
}

/// A line: a code and a national number.
#[tactic(auto, using(crate::proofs::WordCounts::not_two))]
fn line_in<A: Allocator>(words: Words<'_>, plan: &Plan<A>) -> Result<Line, ScriptWord>
    ensures { result ≡ line_in plan.now words.entry }
{
    let Some((code, national)) = words.two() else {
        return Err(ScriptWord::WrongCount);
    };
    line_of(code, national, plan)
}

fn line_of<A: Allocator>(code: &[u8], national: &[u8], plan: &Plan<A>) -> Result<Line, ScriptWord>
    ensures { result ≡ line_of plan.now code.now national.now }
{
    let national = National::read(national).ok_or(ScriptWord::BadNumber)?;
    let code = plan.code_named(code).ok_or(ScriptWord::UnknownName)?;
    Ok(Line { code, national })
}

/// END is no event.
fn end_event(words: Words<'_>) -> Result<Event, ScriptWord>
    ensures { result ≡ end_event words.entry }
{
    let mut words = words;
    match words.next() {
        Some(_) => Err(ScriptWord::WrongCount),
        None => Err(ScriptWord::UnknownWord),
    }
}
