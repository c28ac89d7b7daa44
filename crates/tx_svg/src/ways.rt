// The ways of arrows in the picture of a code.
use crate::picture::Picture;
use crate::spot::{Spot, TOP, passing};
use std::alloc::Allocator;
use tx_html::{Path, Point, Segment};
use tx_plan::{ExchangeId, Plan};

/// Where an arrow ends. The home is as high as its column, so an arrow comes to it level.
pub(crate) fn head_of<A: Allocator>(
    plan: &Plan<A>,
    picture: &Picture<A>,
    from: ExchangeId,
    to: Option<ExchangeId>,
) -> Option<Spot> {
    let to = to?;
    let head = picture.spot(to)?;
    if to != plan.home(picture.code) {
        return Some(head);
    }
    let tail = picture.spot(from)?;
    Some(Spot {
        column: head.column,
        middle: tail.middle,
    })
}

/// The way of an arrow from one place to another.
#[derive(Drop)]
pub(crate) struct Way<'a, A: Allocator> {
    pub picture: &'a Picture<A>,
    pub tail: Spot,
    pub head: Spot,
}

/// An arrow to another column passes each column between them beside its boxes, and is level there.
/// One to a box of the same column is a curve beside the boxes between them.
impl<'a, A: Allocator> Path for Way<'a, A> {
    fn segments(&self) -> usize {
        usize::from(self.span().max(1)) * 2
    }

    fn segment(&self, index: usize) -> Segment {
        let passed = (index / 2).min(65535) as u16;
        if self.span() == 0 {
            self.segment_aside(index)
        } else if index == 0 {
            Segment::Start(self.exit(0))
        } else if index % 2 == 0 {
            Segment::Level(self.exit(passed).x)
        } else {
            bend(self.exit(passed), self.entry(passed.saturating_add(1)))
        }
    }
}

impl<'a, A: Allocator> Way<'a, A> {
    /// How many columns it goes.
    fn span(&self) -> u16 {
        self.tail.column.abs_diff(self.head.column)
    }

    /// Whether it goes to the left.
    fn goes_back(&self) -> bool {
        self.tail.column < self.head.column
    }

    /// The column to which it comes after so many others.
    fn column_at(&self, passed: u16) -> u16 {
        if self.goes_back() {
            self.tail.column.saturating_add(passed)
        } else {
            self.tail.column.saturating_sub(passed)
        }
    }

    /// How high an end of it is. One to the left is a little lower than one to the right.
    fn level_of(&self, spot: Spot) -> u64 {
        TOP + u64::from(spot.middle) + if self.goes_back() { 6 } else { 0 }
    }

    /// How high it passes a column between its ends.
    fn crossing(&self, column: u16) -> u64 {
        let (tail, head) = (u64::from(self.tail.middle), u64::from(self.head.middle));
        let span = u64::from(self.span()).max(1);
        let done = u64::from(self.tail.column.abs_diff(column)).min(span);
        let straight = (tail * (span - done) + head * done) / span;
        let boxes = self.picture.boxes_in(column);
        passing(straight, boxes, u64::from(self.picture.high)).saturating_add(TOP)
    }

    /// A little beside a column.
    fn beside(&self, column: u16, right: bool) -> u64 {
        if right {
            self.picture.right(column).saturating_add(4)
        } else {
            self.picture.left(column).saturating_sub(4)
        }
    }

    /// Where it comes to a column, or to the box where it ends.
    fn entry(&self, passed: u16) -> Point {
        let column = self.column_at(passed);
        Point {
            x: self.beside(column, self.goes_back()),
            y: if passed < self.span() {
                self.crossing(column)
            } else {
                self.level_of(self.head)
            },
        }
    }

    /// Where it leaves a column that it passes, or the box from which it comes.
    fn exit(&self, passed: u16) -> Point {
        let back = self.goes_back();
        let column = self.column_at(passed);
        if passed > 0 {
            return Point {
                x: self.beside(column, !back),
                y: self.crossing(column),
            };
        }
        Point {
            x: if back {
                self.picture.left(column)
            } else {
                self.picture.right(column)
            },
            y: self.level_of(self.tail),
        }
    }

    /// A segment of the way to a box of the same column.
    fn segment_aside(&self, index: usize) -> Segment {
        let right = self.picture.right(self.tail.column);
        let down = self.tail.middle < self.head.middle;
        let from = TOP + u64::from(self.tail.middle) + if down { 4 } else { 0 };
        let to = TOP + u64::from(self.head.middle) + if down { 0 } else { 4 };
        let aside = right.saturating_add(50);
        let end = right.saturating_add(4);
        if index == 0 {
            Segment::Start(Point { x: right, y: from })
        } else {
            Segment::Curve(
                Point { x: aside, y: from },
                Point { x: aside, y: to },
                Point { x: end, y: to },
            )
        }
    }
}

/// From one place to another, level at both.
fn bend(from: Point, to: Point) -> Segment {
    let middle = from.x / 2 + to.x / 2;
    Segment::Curve(
        Point {
            x: middle,
            y: from.y,
        },
        Point { x: middle, y: to.y },
        to,
    )
}
