// The lists, code by code.
ghost use Rattle.std.specs.Prelude.{[]};
ghost use Rattle.tx_html.specs.Shows.{Sets};
ghost use Rattle.tx_svg.specs.ListTexts.{picture_texts, pictures_texts, ranks_texts};

use crate::arrows::write_arrows;
use crate::boxes::write_boxes;
use crate::findings::findings_of;
use crate::frame::picture_height;
use crate::picture::Picture;
use crate::ranks::write_ranks;
use crate::rows_printed::{is_large, write_table};
use crate::spot::{BOX, LEFT, TOP};
use std::alloc::Allocator;
use tx_html::{PageSink, Part, set};
use tx_plan::Plan;
use tx_rank::{Finding, Grade};

const KEY: &str =
    "<h2>Code by code</h2><p class=\"m key\">Each arrow is a group, or several to one \
exchange: <svg width=\"34\" height=\"10\" aria-hidden=\"true\"><path class=\"a0\" d=\"M0,5H30\"/>\
</svg> tried first, <svg width=\"34\" height=\"10\" aria-hidden=\"true\"><path class=\"a1\" \
d=\"M0,5H30\"/></svg> second, <svg width=\"34\" height=\"10\" aria-hidden=\"true\"><path \
class=\"a2\" d=\"M0,5H30\"/></svg> later, <svg width=\"34\" height=\"10\" aria-hidden=\"true\">\
<path class=\"a3\" d=\"M0,5H30\"/></svg> in a finding. Point at an exchange for its list.</p>";

/// Writes these pictures of a plan that has this grade, if there are any.
pub fn write_pictures<A: Allocator, W: PageSink>(
    plan: &Plan<A>,
    grade: &Grade<A>,
    pictures: &[Picture<A>],
    findings: &[Finding<A>],
    sink: &mut W,
)
    ensures { Sets W.seen sink.old sink.new
        (pictures_texts plan.now grade.now pictures.now) }
{
    if pictures.is_empty() {
        return;
    }
    set(&[Part::Own(KEY)], sink);
    write_all(plan, grade, pictures, findings, sink);
}

fn write_all<A: Allocator, W: PageSink>(
    plan: &Plan<A>,
    grade: &Grade<A>,
    pictures: &[Picture<A>],
    findings: &[Finding<A>],
    sink: &mut W,
)
    ensures { Sets W.seen sink.old sink.new
        (pictures_texts plan.now grade.now pictures.now) }
{
    for i in 0..pictures.len() {
        let wrong = findings_of(findings, pictures[i].code);
        let open = i == 0 || pictures.len() < 4 || !wrong.is_empty();
        write_picture(plan, grade, &pictures[i], wrong, open, sink);
    }
}

/// Writes the picture of a code, which is open or closed at first.
fn write_picture<A: Allocator, W: PageSink>(
    plan: &Plan<A>,
    grade: &Grade<A>,
    picture: &Picture<A>,
    findings: &[Finding<A>],
    open: bool,
    sink: &mut W,
)
    ensures { Sets W.seen sink.old sink.new
        (picture_texts plan.now grade.now picture.now) }
{
    set(
        &[
            Part::Own("<details class=\""),
            Part::Own(if is_large(plan, picture) { "b" } else { "p" }),
            Part::Own("\" id"),
            Part::Value("c", picture.code.index() as u64),
            Part::Own(if open { " open>" } else { ">" }),
            Part::Own("<summary><h3>"),
            Part::Text(plan.code_figures(picture.code)),
            Part::Own("</h3> at "),
            Part::Text(plan.exchange_name(plan.home(picture.code))),
            Part::Own("</summary>"),
        ],
        sink,
    );
    write_canvas(plan, picture, sink);
    write_heads(plan, grade, picture, sink);
    write_arrows(plan, picture, findings, sink);
    write_boxes(plan, picture, sink);
    set(&[Part::Own("</svg>")], sink);
    write_table(plan, grade, picture, sink);
    set(&[Part::Own("</details>")], sink);
}

fn write_canvas<A: Allocator, W: PageSink>(plan: &Plan<A>, picture: &Picture<A>, sink: &mut W)
    ensures { Sets W.seen sink.old sink.new [] }
{
    let width = picture.right(0).saturating_add(LEFT);
    let height = picture_height(plan, picture);
    set(
        &[
            Part::Own("<svg role=\"group\" aria-label=\"The lists as a picture\" viewBox"),
            Part::Size(width, height),
            Part::Own(" width"),
            Part::Value("", width),
            Part::Own(" height"),
            Part::Value("", height),
            Part::Own(">"),
        ],
        sink,
    );
}

/// Writes what stands above the columns, and above the exchanges where no calls come.
fn write_heads<A: Allocator, W: PageSink>(
    plan: &Plan<A>,
    grade: &Grade<A>,
    picture: &Picture<A>,
    sink: &mut W,
)
    ensures { Sets W.seen sink.old sink.new
        (ranks_texts plan.now grade.now picture.now.code) }
{
    let below = TOP + u64::from(picture.high) + 16;
    let has_aside = picture_height(plan, picture) > below;
    write_head(picture.left(0), sink);
    write_ranks(plan, grade, picture, sink);
    write_aside(has_aside, below, sink);
}

fn write_head<W: PageSink>(left: u64, sink: &mut W)
    ensures { Sets W.seen sink.old sink.new [] }
{
    set(
        &[
            Part::Own("<text class=\"r\" x"),
            Part::Value("", left.saturating_add(BOX / 2)),
            Part::Own(" y=\"16\">home</text>"),
        ],
        sink,
    );
}

/// Writes what stands above the exchanges where no calls come, if there are any.
fn write_aside<W: PageSink>(has_aside: bool, top: u64, sink: &mut W)
    ensures { Sets W.seen sink.old sink.new [] }
{
    if !has_aside {
        return;
    }
    set(
        &[
            Part::Own("<text class=\"l\" x=\"6\" y"),
            Part::Value("", top),
            Part::Own(">No call for this code comes to:</text>"),
        ],
        sink,
    );
}
