// Lines in pictures.
ghost use Rattle.std.specs.Prelude.{[]};
ghost use Rattle.tx_html.specs.Shows.{Sets, seen_by};

use crate::part::{set_number, set_own};
use tx_text::Sink;

/// A place in a picture.
#[derive(Clone, Copy)]
pub struct Point {
    pub x: u64,
    pub y: u64,
}

/// A piece of a line in a picture.
#[derive(Clone, Copy)]
pub enum Segment {
    /// The line begins here.
    Start(Point),
    /// It goes on level, as far as here.
    Level(u64),
    /// It goes on in an arc towards the first place, and ends at the other.
    Arc(Point, Point),
    /// It goes on in a curve, which leaves towards the first place, comes from the second, and ends
    /// at the third.
    Curve(Point, Point, Point),
}

/// A line in a picture.
pub trait Path {
    /// How many segments it has.
    fn segments(&self) -> usize;

    /// The segment at an index.
    fn segment(&self, index: usize) -> Segment;
}

/// Sets the attribute of a path that says where it goes.
pub(crate) fn set_data<P: Path, W: Sink>(path: &P, sink: &mut W)
    ensures { Sets (seen_by W.taken W.failed) sink.old sink.new [] }
{
    set_own(b" d=\"", sink);
    set_segments(path, sink);
    set_own(b"\"", sink);
}

fn set_segments<P: Path, W: Sink>(path: &P, sink: &mut W)
    ensures { Sets (seen_by W.taken W.failed) sink.old sink.new [] }
{
    for index in 0..path.segments() {
        set_segment(path.segment(index), sink);
    }
}

fn set_segment<W: Sink>(segment: Segment, sink: &mut W)
    ensures { Sets (seen_by W.taken W.failed) sink.old sink.new [] }
{
    match segment {
        Segment::Start(point) => set_point(b"M", point, sink),
        Segment::Level(x) => {
            set_own(b"H", sink);
            set_number(x, sink);
        }
        Segment::Arc(towards, end) => {
            set_point(b"Q", towards, sink);
            set_point(b" ", end, sink);
        }
        Segment::Curve(towards, from, end) => {
            set_point(b"C", towards, sink);
            set_point(b" ", from, sink);
            set_point(b" ", end, sink);
        }
    }
}

/// Sets a place after a byte of its own.
fn set_point<W: Sink>(before: &[u8], point: Point, sink: &mut W)
    ensures { Sets (seen_by W.taken W.failed) sink.old sink.new [] }
{
    set_own(before, sink);
    set_number(point.x, sink);
    set_own(b",", sink);
    set_number(point.y, sink);
}
