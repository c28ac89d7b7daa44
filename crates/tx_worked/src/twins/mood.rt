// How often each kind of event comes.
use crate::twins::chance::Chance;

/// A kind of event.
#[derive(Clone, Copy)]
pub enum EventKind {
    Key,
    Route,
    Confirm,
    Clear,
    Released,
    Fail,
    Restore,
    Block,
    Unblock,
    CircuitOut,
    CircuitIn,
    LineFault,
    LineMend,
    LineAway,
    LineBack,
    /// An event of any kind, of any things, also of those that the plan does not have.
    Stray,
}

/// How often each kind comes in four moods: calls go on as they come; confirmations are late, so
/// that calls meet head on; groups and circuits go in and out of use; many lines are out of order
/// or away.
static MOODS: [(EventKind, [usize; 4]); 16] = [
    (EventKind::Key, [20, 24, 20, 16]),
    (EventKind::Route, [40, 60, 36, 24]),
    (EventKind::Confirm, [25, 9, 16, 8]),
    (EventKind::Clear, [10, 4, 6, 6]),
    (EventKind::Released, [14, 30, 12, 6]),
    (EventKind::Fail, [0, 0, 4, 0]),
    (EventKind::Restore, [2, 4, 5, 2]),
    (EventKind::Block, [0, 0, 4, 0]),
    (EventKind::Unblock, [2, 4, 5, 2]),
    (EventKind::CircuitOut, [0, 1, 6, 0]),
    (EventKind::CircuitIn, [2, 4, 6, 2]),
    (EventKind::LineFault, [1, 1, 2, 12]),
    (EventKind::LineMend, [2, 2, 2, 9]),
    (EventKind::LineAway, [1, 1, 2, 12]),
    (EventKind::LineBack, [2, 2, 2, 9]),
    (EventKind::Stray, [3, 3, 4, 3]),
];

/// The kind of the next event in a mood. The four moods come again and again.
pub fn next_kind(chance: &mut Chance, mood: u64) -> EventKind {
    let mood = (mood % 4) as usize;
    let mut all = 0usize;
    for (_, shares) in &MOODS {
        all = all.saturating_add(shares[mood]);
    }
    let mut number = chance.below(all);
    for (kind, shares) in &MOODS {
        if number < shares[mood] {
            return *kind;
        }
        number = number.saturating_sub(shares[mood]);
    }
    EventKind::Stray
}
