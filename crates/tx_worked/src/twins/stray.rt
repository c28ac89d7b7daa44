// Events of any kind, of any things.
ghost use Rattle.std.specs.Prelude.{◌<◌};

use crate::twins::chance::Chance;
use crate::twins::picture::Picture;
use tx_machine::{Event, Party};
use tx_plan::{Circuit, CodeId, GroupId, Line, National, Plan};
use tx_text::Figures;

/// An index below a count, or one of the two after it.
fn index(count: usize, chance: &mut Chance) -> usize
    ensures { result < 65536 }
{
    chance.below(count.saturating_add(2)).min(65535)
}

/// A call number: one of the last that were given, the next one, or any at all.
fn number(picture: &Picture, chance: &mut Chance) -> u32 {
    let any = u32::try_from(chance.below(1 << 31)).unwrap_or(0);
    if chance.one_in(20) {
        return any;
    }
    picture.last.saturating_add(1).saturating_sub(any % 50)
}

fn group(plan: &Plan, chance: &mut Chance) -> GroupId {
    GroupId::of(index(plan.groups(), chance))
}

fn circuit(plan: &Plan, chance: &mut Chance) -> Circuit {
    let group = group(plan, chance);
    let number = index(plan.group_count(group) as usize, chance);
    Circuit {
        group,
        number: number as u32,
    }
}

fn line(plan: &Plan, chance: &mut Chance) -> Option<Line> {
    let code = CodeId::of(index(plan.codes(), chance));
    let range = plan.range_at(chance.below(plan.ranges()))?;
    let national = if chance.one_in(2) {
        range.low
    } else {
        range.high
    };
    Some(Line { code, national })
}

fn stray_of_calls(picture: &Picture, chance: &mut Chance) -> Event {
    let call = number(picture, chance);
    match chance.below(4) {
        0 => Event::Route(call),
        1 => Event::Confirm(call),
        2 => Event::Clear {
            call,
            party: Party::Caller,
        },
        _ => Event::Clear {
            call,
            party: Party::Called,
        },
    }
}

fn stray_of_trunks(plan: &Plan, chance: &mut Chance) -> Event {
    let group = group(plan, chance);
    let circuit = circuit(plan, chance);
    match chance.below(7) {
        0 => Event::Fail(group),
        1 => Event::Restore(group),
        2 => Event::Block(group),
        3 => Event::Unblock(group),
        4 => Event::Released(circuit),
        5 => Event::CircuitOut(circuit),
        _ => Event::CircuitIn(circuit),
    }
}

fn stray_of_lines(plan: &Plan, chance: &mut Chance) -> Option<Event> {
    let line = line(plan, chance)?;
    let keyed = Figures::read(line.national.bytes())?;
    let event = match chance.below(5) {
        0 => Event::LineFault(line),
        1 => Event::LineMend(line),
        2 => Event::LineAway(line),
        3 => Event::LineBack(line),
        _ => Event::Key { line, keyed },
    };
    Some(event)
}

/// An event of any kind, of any things, also of those that the plan does not have.
pub fn stray(plan: &Plan, picture: &Picture, chance: &mut Chance) -> Option<Event> {
    match chance.below(3) {
        0 => Some(stray_of_calls(picture, chance)),
        1 => Some(stray_of_trunks(plan, chance)),
        _ => stray_of_lines(plan, chance),
    }
}
