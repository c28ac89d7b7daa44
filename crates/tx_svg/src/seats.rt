// The seats of exchanges in the picture of the network, round a rectangle.
ghost use Rattle.std.specs.Prelude.{◌≤◌};

use crate::spot::{BOX, TALL, middle_of};

/// No more exchanges than these are drawn.
pub(crate) const MOST: usize = 24;

/// How far the boxes above and below keep from the sides, and those at the sides from above and
/// below.
const SIDE: u64 = 122;

const ABOVE: u64 = 60;

/// What one box more takes above and below, and at the sides.
const WIDE: u64 = 130;

const HIGH: u64 = 56;

/// How wide and how high the picture is.
#[derive(Clone, Copy)]
pub(crate) struct Size {
    pub wide: u64,
    pub high: u64,
}

/// Where the box of an exchange has its middle, and where lines to it end.
#[derive(Clone, Copy)]
pub(crate) struct Seat {
    pub x: u64,
    pub y: u64,
    pub end_x: u64,
    pub end_y: u64,
}

/// The size of the picture of so many exchanges.
pub(crate) fn size_of(count: usize) -> Size
    ensures wide { 244 ≤ result.wide }
    ensures high { 120 ≤ result.high }
{
    let count = count.min(MOST) as u64;
    Size {
        wide: 2 * SIDE + (count + 3) / 4 * WIDE,
        high: 2 * ABOVE + ((count + 1) / 4).max(2) * HIGH,
    }
}

/// Where one of so many exchanges is: they stand round the picture, from above on the left.
pub(crate) fn seat_of(index: usize, count: usize) -> Seat {
    let size = size_of(count);
    let (index, count) = (index.min(MOST) as u64, count.min(MOST) as u64);
    let (above, right, below) = ((count + 3) / 4, (count + 1) / 4, (count + 2) / 4);
    let across = size.wide - 2 * SIDE;
    let down = size.high - 2 * ABOVE;
    if index < above {
        above_at(SIDE + middle_of(index, above, across).min(across))
    } else if index < above + right {
        right_at(
            size,
            ABOVE + middle_of(index - above, right, down).min(down),
        )
    } else if index < above + right + below {
        let back = middle_of(index - above - right, below, across).min(across);
        below_at(size, SIDE + (across - back))
    } else {
        let back = middle_of(index - above - right - below, count / 4, down).min(down);
        left_at(ABOVE + (down - back))
    }
}

fn above_at(x: u64) -> Seat {
    Seat {
        x,
        y: TALL / 2 + 2,
        end_x: x,
        end_y: TALL + 2,
    }
}

fn right_at(size: Size, y: u64) -> Seat {
    Seat {
        x: size.wide.saturating_sub(BOX / 2 + 2),
        y,
        end_x: size.wide.saturating_sub(BOX + 2),
        end_y: y,
    }
}

fn below_at(size: Size, x: u64) -> Seat {
    Seat {
        x,
        y: size.high.saturating_sub(TALL / 2 + 2),
        end_x: x,
        end_y: size.high.saturating_sub(TALL + 2),
    }
}

fn left_at(y: u64) -> Seat {
    Seat {
        x: BOX / 2 + 2,
        y,
        end_x: BOX + 2,
        end_y: y,
    }
}
