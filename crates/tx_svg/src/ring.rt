// The picture of the network: its exchanges round a rectangle, and lines between them.
ghost use Rattle.std.specs.Prelude.{[], length};
ghost use Rattle.tx_html.specs.Shows.{Sets};
ghost use Rattle.tx_svg.specs.Indexed.{texts_below};
ghost use Rattle.tx_svg.specs.RingTexts.{name_texts, ring_texts};

use crate::seats::{MOST, Seat, Size, seat_of, size_of};
use crate::spot::{BOX, TALL};
use std::alloc::Allocator;
use tx_html::{PageSink, Part, Path, Point, Segment, set};
use tx_plan::{ExchangeId, GroupId, Plan};

/// Writes the picture of a network that is not too large for one.
pub fn write_ring<A: Allocator, W: PageSink>(plan: &Plan<A>, sink: &mut W)
    ensures { Sets W.seen sink.old sink.new (ring_texts plan.now) }
{
    if plan.exchanges() <= MOST {
        write_small(plan, sink);
    }
}

fn write_small<A: Allocator, W: PageSink>(plan: &Plan<A>, sink: &mut W)
    ensures { Sets W.seen sink.old sink.new
        (texts_below (length plan.now.exchanges) (name_texts plan.now)) }
{
    write_canvas(size_of(plan.exchanges()), sink);
    write_lines(plan, sink);
    write_names(plan, sink);
    set(&[Part::Own("</svg>")], sink);
}

fn write_canvas<W: PageSink>(size: Size, sink: &mut W)
    ensures { Sets W.seen sink.old sink.new [] }
{
    set(
        &[
            Part::Own("<svg role=\"group\" aria-label=\"The network as a picture\" viewBox"),
            Part::Size(size.wide, size.high),
            Part::Own(" width"),
            Part::Value("", size.wide),
            Part::Own(" height"),
            Part::Value("", size.high),
            Part::Own(">"),
        ],
        sink,
    );
}

fn write_lines<A: Allocator, W: PageSink>(plan: &Plan<A>, sink: &mut W)
    ensures { Sets W.seen sink.old sink.new [] }
{
    for index in 0..plan.groups() {
        write_line(plan, GroupId::of(index), sink);
    }
}

/// Whether two groups are between the same exchanges.
fn are_parallel<A: Allocator>(plan: &Plan<A>, one: GroupId, other: GroupId) -> bool {
    let (a, b) = plan.ends(one);
    let (c, d) = plan.ends(other);
    a == c && b == d || a == d && b == c
}

/// How many circuits are between the ends of a group; none, if an earlier group is there.
fn circuits_beside<A: Allocator>(plan: &Plan<A>, group: GroupId) -> u64 {
    let mut count = 0u64;
    for index in 0..plan.groups() {
        let other = GroupId::of(index);
        if are_parallel(plan, group, other) {
            if index < group.index() {
                return 0;
            }
            count = count.saturating_add(u64::from(plan.group_count(other)));
        }
    }
    count
}

/// Writes a line between the ends of a group, if it is the first between them. It is the wider, the
/// more circuits are there.
fn write_line<A: Allocator, W: PageSink>(plan: &Plan<A>, group: GroupId, sink: &mut W)
    ensures { Sets W.seen sink.old sink.new [] }
{
    let circuits = circuits_beside(plan, group);
    if circuits == 0 {
        return;
    }
    let wide = 1 + (circuits / 24).min(9);
    set(
        &[
            Part::Own("<path class=\"n\" stroke-width"),
            Part::Value("", wide),
        ],
        sink,
    );
    sink.set_path(&line_of(plan, group));
    set(&[Part::Own("/>")], sink);
}

/// The line between the ends of a group.
fn line_of<A: Allocator>(plan: &Plan<A>, group: GroupId) -> RingLine {
    let (from, to) = plan.ends(group);
    RingLine {
        size: size_of(plan.exchanges()),
        from: seat_of(from.index(), plan.exchanges()),
        to: seat_of(to.index(), plan.exchanges()),
    }
}

/// A line between two exchanges, in an arc towards the middle of the picture.
#[derive(Clone, Copy)]
struct RingLine {
    size: Size,
    from: Seat,
    to: Seat,
}

impl Path for RingLine {
    fn segments(&self) -> usize {
        2
    }

    fn segment(&self, index: usize) -> Segment {
        let (size, from, to) = (self.size, self.from, self.to);
        if index == 0 {
            return Segment::Start(Point {
                x: from.end_x,
                y: from.end_y,
            });
        }
        let middle = Point {
            x: (from.end_x / 2 + to.end_x / 2) / 2 + size.wide / 4,
            y: (from.end_y / 2 + to.end_y / 2) / 2 + size.high / 4,
        };
        let end = Point {
            x: to.end_x,
            y: to.end_y,
        };
        Segment::Arc(middle, end)
    }
}

fn write_names<A: Allocator, W: PageSink>(plan: &Plan<A>, sink: &mut W)
    ensures { Sets W.seen sink.old sink.new
        (texts_below (length plan.now.exchanges) (name_texts plan.now)) }
{
    for index in 0..plan.exchanges() {
        write_name(plan, ExchangeId::of(index), sink);
    }
}

fn write_name<A: Allocator, W: PageSink>(plan: &Plan<A>, exchange: ExchangeId, sink: &mut W)
    ensures { Sets W.seen sink.old sink.new (name_texts plan.now exchange) }
{
    let seat = seat_of(exchange.index(), plan.exchanges());
    set(
        &[
            Part::Own("<g class=\"x\"><rect x"),
            Part::Value("", seat.x.saturating_sub(BOX / 2)),
            Part::Own(" y"),
            Part::Value("", seat.y.saturating_sub(TALL / 2)),
            Part::Own(" width"),
            Part::Value("", BOX),
            Part::Own(" height"),
            Part::Value("", TALL),
            Part::Own(" rx=\"4\"/><text x"),
            Part::Value("", seat.x),
            Part::Own(" y"),
            Part::Value("", seat.y.saturating_add(4)),
            Part::Own(">"),
            Part::Text(plan.exchange_name(exchange)),
            Part::Own("</text></g>"),
        ],
        sink,
    );
}
