// Events that are drawn by chance, most of them such as the network accepts.
use crate::twins::chance::Chance;
use crate::twins::mood::{EventKind, next_kind};
use crate::twins::picture::{KnownCall, Picture};
use crate::twins::stray::stray;
use arrayvec::ArrayVec;
use tx_machine::{Event, Party, Phase};
use tx_plan::{Circuit, GroupId, Line, National, Plan};
use tx_text::Figures;

/// A figure.
fn figure(chance: &mut Chance) -> u8 {
    chance.pick(b"0123456789").unwrap_or(b'0')
}

/// A number that differs from another in its last figure, or in its last two.
fn near(low: &[u8], chance: &mut Chance) -> Option<National> {
    let others = if chance.one_in(3) { 2 } else { 1 };
    let same = low.len().saturating_sub(others);
    let mut text = ArrayVec::<u8, 9>::new();
    for (index, byte) in low.iter().enumerate() {
        let byte = if index < same { *byte } else { figure(chance) };
        let _ = text.try_push(byte);
    }
    National::read(text.as_slice())
}

/// A line near the low end of a range, mostly one of the plan.
fn line(plan: &Plan, chance: &mut Chance) -> Option<Line> {
    let range = plan.range_at(chance.below(plan.ranges()))?;
    let national = near(range.low.bytes(), chance)?;
    Some(Line {
        code: range.code,
        national,
    })
}

/// Any figures.
fn any_figures(chance: &mut Chance) -> Option<Figures> {
    let mut text = ArrayVec::<u8, 12>::new();
    for _ in 0..=chance.below(12) {
        let _ = text.try_push(figure(chance));
    }
    Figures::read(text.as_slice())
}

/// The figures that reach a line, or once in a while one figure more, one less, or the code alone.
fn figures(plan: &Plan, line: &Line, chance: &mut Chance) -> Option<Figures> {
    let mut text = ArrayVec::<u8, 12>::new();
    for byte in plan.code_figures(line.code) {
        let _ = text.try_push(*byte);
    }
    let turn = chance.below(40);
    if turn > 0 {
        for byte in line.national.bytes() {
            let _ = text.try_push(*byte);
        }
    }
    if turn == 1 {
        let _ = text.pop();
    }
    if turn == 2 {
        let _ = text.try_push(b'0');
    }
    Figures::read(text.as_slice())
}

/// The line of a subscriber who calls: mostly one that takes part in no call, but also one that
/// does, or one that is out of order.
fn calling_line(plan: &Plan, picture: &Picture, chance: &mut Chance) -> Option<Line> {
    if chance.one_in(40) {
        let call = chance.pick(picture.calls.as_slice())?;
        return Some(call.line);
    }
    if chance.one_in(40) {
        return chance.pick(picture.faulty.as_slice());
    }
    for _ in 0..4u8 {
        let line = line(plan, chance)?;
        if !picture.is_engaged(&line) {
            return Some(line);
        }
    }
    line(plan, chance)
}

/// The line of a subscriber who is called: mostly one of another code.
fn called_line(plan: &Plan, calling: &Line, chance: &mut Chance) -> Option<Line> {
    let called = line(plan, chance)?;
    if called.code == calling.code {
        line(plan, chance)
    } else {
        Some(called)
    }
}

fn key(plan: &Plan, picture: &Picture, chance: &mut Chance) -> Option<Event> {
    let calling = calling_line(plan, picture, chance)?;
    let called = called_line(plan, &calling, chance)?;
    let keyed = if chance.one_in(40) {
        any_figures(chance)?
    } else {
        figures(plan, &called, chance)?
    };
    Some(Event::Key {
        line: calling,
        keyed,
    })
}

/// Whether an event of this kind is for a call in this phase.
fn is_for(kind: EventKind, call: &KnownCall) -> bool {
    match kind {
        EventKind::Route => matches!(call.phase, Phase::Standing),
        EventKind::Confirm => matches!(call.phase, Phase::Calling(_)),
        _ => true,
    }
}

/// The number of the first call for an event of this kind.
fn first_for(kind: EventKind, calls: &[KnownCall]) -> Option<u32> {
    for call in calls {
        if is_for(kind, call) {
            return Some(call.number);
        }
    }
    None
}

/// The number of a call for an event of this kind: the first from any index on, or else the first.
fn number_for(kind: EventKind, picture: &Picture, chance: &mut Chance) -> Option<u32> {
    let calls = picture.calls.as_slice();
    let start = chance.below(calls.len());
    match first_for(kind, calls.split_at(start.min(calls.len())).1) {
        Some(number) => Some(number),
        None => first_for(kind, calls),
    }
}

/// Mostly the called party clears a connected call, and the caller any other.
fn clear(picture: &Picture, chance: &mut Chance) -> Option<Event> {
    let call = number_for(EventKind::Clear, picture, chance)?;
    let party = if picture.is_connected(call) != chance.one_in(4) {
        Party::Called
    } else {
        Party::Caller
    };
    Some(Event::Clear { call, party })
}

/// A group of the plan.
fn group(plan: &Plan, chance: &mut Chance) -> Option<GroupId> {
    plan.group_at(chance.below(plan.groups()))
}

/// A circuit of the plan.
fn circuit(plan: &Plan, chance: &mut Chance) -> Option<Circuit> {
    let group = group(plan, chance)?;
    let index = chance.below(plan.group_count(group) as usize);
    let number = u32::try_from(index).ok()?.checked_add(1)?;
    Some(Circuit { group, number })
}

/// An event of a kind, if there is a thing for it.
fn event_of(kind: EventKind, plan: &Plan, picture: &Picture, chance: &mut Chance) -> Option<Event> {
    let event = match kind {
        EventKind::Key => key(plan, picture, chance)?,
        EventKind::Route => Event::Route(number_for(kind, picture, chance)?),
        EventKind::Confirm => Event::Confirm(number_for(kind, picture, chance)?),
        EventKind::Clear => clear(picture, chance)?,
        EventKind::Released => Event::Released(chance.pick(picture.given_up.as_slice())?),
        EventKind::Fail => Event::Fail(group(plan, chance)?),
        EventKind::Restore => Event::Restore(chance.pick(picture.failed.as_slice())?),
        EventKind::Block => Event::Block(group(plan, chance)?),
        EventKind::Unblock => Event::Unblock(chance.pick(picture.blocked.as_slice())?),
        EventKind::CircuitOut => Event::CircuitOut(circuit(plan, chance)?),
        EventKind::CircuitIn => Event::CircuitIn(chance.pick(picture.out.as_slice())?),
        EventKind::LineFault => Event::LineFault(line(plan, chance)?),
        EventKind::LineMend => Event::LineMend(chance.pick(picture.faulty.as_slice())?),
        EventKind::LineAway => Event::LineAway(line(plan, chance)?),
        EventKind::LineBack => Event::LineBack(chance.pick(picture.away.as_slice())?),
        EventKind::Stray => stray(plan, picture, chance)?,
    };
    Some(event)
}

/// The next event in a mood, where at most so many calls are to be open.
pub fn next_event(
    plan: &Plan,
    picture: &Picture,
    chance: &mut Chance,
    mood: u64,
    most: usize,
) -> Event {
    let kind = match next_kind(chance, mood) {
        EventKind::Key if picture.calls.len() >= most => EventKind::Clear,
        kind => kind,
    };
    match event_of(kind, plan, picture, chance) {
        Some(event) => event,
        None => key(plan, picture, chance).unwrap_or(Event::Route(0)),
    }
}
