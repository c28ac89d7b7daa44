// Places in the picture of a code, in points.

/// How wide and how high a box is.
pub(crate) const BOX: u64 = 92;

pub(crate) const TALL: u64 = 22;

/// From one column to the next, and from one row to the next.
pub(crate) const COLUMN: u64 = 190;

pub(crate) const ROW: u64 = 32;

/// What is left free at the left, and above the boxes.
pub(crate) const LEFT: u64 = 6;

pub(crate) const TOP: u64 = 30;

/// How far from the middle of a box an arrow passes it.
const PASSING: u64 = 16;

/// Where an exchange stands: its column, counted from the home, and the middle of its box below
/// the top of the column.
#[derive(Clone, Copy)]
pub(crate) struct Spot {
    pub column: u16,
    pub middle: u16,
}

/// The middle of one of the boxes that share a column of this height.
pub(crate) fn middle_of(index: u64, boxes: u64, high: u64) -> u64 {
    let halves = index.saturating_mul(2).saturating_add(1);
    halves.saturating_mul(high) / boxes.saturating_mul(2).max(1)
}

/// How far below the top an arrow passes a column that has so many boxes: as it comes, or beside
/// the box that is in its way.
pub(crate) fn passing(y: u64, boxes: u64, high: u64) -> u64 {
    let nearest = y.saturating_mul(boxes) / high.max(1);
    let middle = middle_of(nearest, boxes, high);
    if y.saturating_add(PASSING) <= middle || middle.saturating_add(PASSING) <= y {
        y
    } else if y < middle {
        middle.saturating_sub(PASSING)
    } else {
        middle.saturating_add(PASSING)
    }
}
