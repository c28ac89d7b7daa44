// The arrows in the picture of a code.
ghost use Rattle.std.specs.Prelude.{[]};
ghost use Rattle.tx_html.specs.Shows.{Sets};

use crate::findings::is_wrong;
use crate::picture::Picture;
use crate::ways::{Way, head_of};
use std::alloc::Allocator;
use tx_html::{PageSink, Part, set};
use tx_plan::{CodeId, ExchangeId, GroupId, Plan};
use tx_rank::Finding;

/// The ends of the arrows of all pictures. They stand on a page once.
pub const HEADS: &str = "<svg width=\"0\" height=\"0\" class=\"defs\" \
aria-hidden=\"true\"><defs><marker id=\"m0\" viewBox=\"0 0 8 8\" refX=\"6\" refY=\"4\" \
markerWidth=\"10\" markerHeight=\"10\" orient=\"auto\" markerUnits=\"userSpaceOnUse\"><path \
d=\"M0,0L8,4L0,8z\"/></marker><marker id=\"m1\" viewBox=\"0 0 8 8\" refX=\"6\" refY=\"4\" \
markerWidth=\"9\" markerHeight=\"9\" orient=\"auto\" markerUnits=\"userSpaceOnUse\"><path \
d=\"M0,0L8,4L0,8z\"/></marker><marker id=\"m2\" viewBox=\"0 0 8 8\" refX=\"6\" refY=\"4\" \
markerWidth=\"8\" markerHeight=\"8\" orient=\"auto\" markerUnits=\"userSpaceOnUse\"><path \
d=\"M0,0L8,4L0,8z\"/></marker><marker id=\"m3\" viewBox=\"0 0 8 8\" refX=\"6\" refY=\"4\" \
markerWidth=\"12\" markerHeight=\"12\" orient=\"auto\" markerUnits=\"userSpaceOnUse\"><path \
d=\"M0,0L8,4L0,8z\"/></marker></defs></svg>";

/// Which arrow it is: tried first, second or later, or in the walk of a finding.
#[derive(Clone, Copy, PartialEq, Eq)]
enum Choice {
    First,
    Second,
    Later,
    Wrong,
}

impl Choice {
    fn class(self) -> &'static str {
        match self {
            Choice::First => "a0",
            Choice::Second => "a1",
            Choice::Later => "a2",
            Choice::Wrong => "a3",
        }
    }

    /// That of the group at an index of a list.
    fn at(index: usize) -> Choice {
        match index {
            0 => Choice::First,
            1 => Choice::Second,
            _ => Choice::Later,
        }
    }
}

/// Writes an arrow from each exchange to each one where its list leads.
pub fn write_arrows<A: Allocator, W: PageSink>(
    plan: &Plan<A>,
    picture: &Picture<A>,
    findings: &[Finding<A>],
    sink: &mut W,
)
    ensures { Sets W.seen sink.old sink.new [] }
{
    write_layer(plan, picture, findings, Choice::Later, sink);
    write_layer(plan, picture, findings, Choice::Second, sink);
    write_layer(plan, picture, findings, Choice::First, sink);
    write_wrong(plan, picture, findings, sink);
}

/// Writes those in the walks of findings, if there are any findings.
fn write_wrong<A: Allocator, W: PageSink>(
    plan: &Plan<A>,
    picture: &Picture<A>,
    findings: &[Finding<A>],
    sink: &mut W,
)
    ensures { Sets W.seen sink.old sink.new [] }
{
    if findings.is_empty() {
        return;
    }
    write_layer(plan, picture, findings, Choice::Wrong, sink);
}

/// Writes the arrows of one kind. Those that are written later lie above.
fn write_layer<A: Allocator, W: PageSink>(
    plan: &Plan<A>,
    picture: &Picture<A>,
    findings: &[Finding<A>],
    layer: Choice,
    sink: &mut W,
)
    ensures { Sets W.seen sink.old sink.new [] }
{
    set(
        &[
            Part::Own("<g class=\""),
            Part::Own(layer.class()),
            Part::Own("\">"),
        ],
        sink,
    );
    write_lists(plan, picture, findings, layer, sink);
    set(&[Part::Own("</g>")], sink);
}

fn write_lists<A: Allocator, W: PageSink>(
    plan: &Plan<A>,
    picture: &Picture<A>,
    findings: &[Finding<A>],
    layer: Choice,
    sink: &mut W,
)
    ensures { Sets W.seen sink.old sink.new [] }
{
    for index in 0..plan.exchanges() {
        write_list(plan, picture, findings, layer, ExchangeId::of(index), sink);
    }
}

/// Writes the arrows of one kind that an exchange has.
fn write_list<A: Allocator, W: PageSink>(
    plan: &Plan<A>,
    picture: &Picture<A>,
    findings: &[Finding<A>],
    layer: Choice,
    exchange: ExchangeId,
    sink: &mut W,
)
    ensures { Sets W.seen sink.old sink.new [] }
{
    let list = plan.list(exchange, picture.code);
    for i in 0..list.len() {
        let to = arrow_to(plan, picture.code, findings, layer, exchange, list, i);
        write_arrow(plan, picture, exchange, to, sink);
    }
}

/// Where the arrow of the group at an index of a list leads, if it has one and that is in the layer.
fn arrow_to<A: Allocator>(
    plan: &Plan<A>,
    code: CodeId,
    findings: &[Finding<A>],
    layer: Choice,
    exchange: ExchangeId,
    list: &[GroupId],
    index: usize,
) -> Option<ExchangeId> {
    if findings.is_empty() && layer != Choice::at(index) {
        return None;
    }
    let to = first_to(plan, exchange, list, index)?;
    let choice = if is_wrong(findings, code, exchange, to) {
        Choice::Wrong
    } else {
        Choice::at(index)
    };
    if choice == layer { Some(to) } else { None }
}

/// Where the group at an index of a list leads, if none before it leads there.
fn first_to<A: Allocator>(
    plan: &Plan<A>,
    exchange: ExchangeId,
    list: &[GroupId],
    index: usize,
) -> Option<ExchangeId> {
    let to = plan.other_end(*list.get(index)?, exchange)?;
    for i in 0..index.min(list.len()) {
        if plan.other_end(list[i], exchange) == Some(to) {
            return None;
        }
    }
    Some(to)
}

/// Writes an arrow, if it leads somewhere and both exchanges have a place.
fn write_arrow<A: Allocator, W: PageSink>(
    plan: &Plan<A>,
    picture: &Picture<A>,
    from: ExchangeId,
    to: Option<ExchangeId>,
    sink: &mut W,
)
    ensures { Sets W.seen sink.old sink.new [] }
{
    match (picture.spot(from), head_of(plan, picture, from, to)) {
        (Some(tail), Some(head)) => write_way(
            &Way {
                picture,
                tail,
                head,
            },
            sink,
        ),
        _ => {}
    }
}

fn write_way<A: Allocator, W: PageSink>(way: &Way<'_, A>, sink: &mut W)
    ensures { Sets W.seen sink.old sink.new [] }
{
    set(&[Part::Own("<path")], sink);
    sink.set_path(way);
    set(&[Part::Own("/>")], sink);
}
