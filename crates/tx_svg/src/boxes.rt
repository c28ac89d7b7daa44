// The boxes in the picture of a code.
ghost use Rattle.std.specs.Prelude.{[], ◌∷◌, length};
ghost use Rattle.tx_html.specs.Shows.{Sets};
ghost use Rattle.tx_svg.specs.Indexed.{texts_below};
ghost use Rattle.tx_svg.specs.ListTexts.{box_texts};

use crate::frame::{Frame, Kind, frame_of};
use crate::names::write_groups;
use crate::picture::Picture;
use crate::spot::BOX;
use std::alloc::Allocator;
use tx_html::{PageSink, Part, set};
use tx_plan::{ExchangeId, GroupId, Plan};

/// The class of a box in the style sheet.
fn class_of(kind: Kind) -> &'static str {
    match kind {
        Kind::Home => "h",
        Kind::Passed => "x",
        Kind::Aside => "o",
    }
}

/// Writes a box for each exchange. Its title has the list for the code.
pub fn write_boxes<A: Allocator, W: PageSink>(plan: &Plan<A>, picture: &Picture<A>, sink: &mut W)
    ensures { Sets W.seen sink.old sink.new
        (texts_below (length plan.now.exchanges) (box_texts plan.now picture.now.code)) }
{
    for index in 0..plan.exchanges() {
        write_box(plan, picture, ExchangeId::of(index), sink);
    }
}

fn write_box<A: Allocator, W: PageSink>(
    plan: &Plan<A>,
    picture: &Picture<A>,
    exchange: ExchangeId,
    sink: &mut W,
)
    ensures { Sets W.seen sink.old sink.new
        (box_texts plan.now picture.now.code exchange) }
{
    let frame = frame_of(plan, picture, exchange);
    let name = plan.exchange_name(exchange);
    let list = plan.list(exchange, picture.code);
    set(
        &[
            Part::Own("<g class=\""),
            Part::Own(class_of(frame.kind)),
            Part::Own("\"><title>"),
            Part::Text(name),
            Part::Own(tries(frame.kind, list)),
        ],
        sink,
    );
    write_groups(plan, list, sink);
    write_frame(frame, name, sink);
}

/// What is said between the name of an exchange and its list.
fn tries(kind: Kind, list: &[GroupId]) -> &'static str {
    match (kind, list.is_empty()) {
        (Kind::Home, _) => " is the home",
        (Kind::Aside, true) => ": no call comes here",
        (Kind::Aside, false) => ": no call comes here; the list is ",
        (Kind::Passed, true) => " has no list",
        (Kind::Passed, false) => " tries ",
    }
}

/// Writes the end of the title, and the box itself.
fn write_frame<W: PageSink>(frame: Frame, name: &[u8], sink: &mut W)
    ensures { Sets W.seen sink.old sink.new (name.now ∷ []) }
{
    set(
        &[
            Part::Own("</title><rect x"),
            Part::Value("", frame.left),
            Part::Own(" y"),
            Part::Value("", frame.top),
            Part::Own(" width"),
            Part::Value("", BOX),
            Part::Own(" height"),
            Part::Value("", frame.high),
            Part::Own(" rx=\"4\"/><text x"),
            Part::Value("", frame.left.saturating_add(BOX / 2)),
            Part::Own(" y"),
            Part::Value(
                "",
                frame.top.saturating_add(frame.high / 2).saturating_add(4),
            ),
            Part::Own(">"),
            Part::Text(name),
            Part::Own("</text></g>"),
        ],
        sink,
    );
}
