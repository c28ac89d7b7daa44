// The codes of a plan.
ghost use Rattle.std.specs.Prelude.{[], ◌∷◌};
ghost use Rattle.tx_plan.specs.Plan.{exchange_name, figures_of, home_of};
ghost use Rattle.tx_html.specs.Amounts.{amount};
ghost use Rattle.tx_html.specs.Shows.{Sets};
ghost use Rattle.tx_page_change.specs.Counts.{lines_of};
ghost use Rattle.tx_page.specs.CodeTexts.{bounds_texts, code_texts, codes_texts};

use std::alloc::Allocator;
use tx_html::{PageSink, Part, set};
use tx_page_change::lines_of;
use tx_plan::{CodeId, Plan};
use tx_rank::{Bounds, Grade};
use tx_svg::Picture;

const HEAD: &str = "<h2>Codes</h2><div class=\"t\"><table><thead><tr><th scope=\"col\">Code</th>\
<th scope=\"col\">Home</th><th scope=\"col\" class=\"k\">Lines</th><th scope=\"col\" \
class=\"k\">Least limit</th><th scope=\"col\" class=\"k\">Greatest spare</th><th scope=\"col\" \
class=\"k\">Groups on a way, at most</th></tr></thead><tbody>";

/// Writes the table of codes, each linked to its picture, if the page has one.
pub fn write_codes<A: Allocator, W: PageSink>(
    plan: &Plan<A>,
    grade: &Grade<A>,
    pictures: &[Picture<A>],
    sink: &mut W,
)
    ensures { Sets W.seen sink.old sink.new
        (codes_texts plan.now grade.now.codes.items) }
{
    set(&[Part::Own(HEAD)], sink);
    write_rows(plan, &grade.codes, pictures, sink);
    set(&[Part::Own("</tbody></table></div>")], sink);
}

fn write_rows<A: Allocator, W: PageSink>(
    plan: &Plan<A>,
    grades: &[(CodeId, Option<Bounds>)],
    pictures: &[Picture<A>],
    sink: &mut W,
)
    ensures { Sets W.seen sink.old sink.new (codes_texts plan.now grades.now) }
{
    for i in 0..grades.len() {
        write_row(plan, grades[i], has_picture(pictures, grades[i].0), sink);
    }
}

/// Whether one of the pictures, which are in the order of their codes, is of a code.
fn has_picture<A: Allocator>(pictures: &[Picture<A>], code: CodeId) -> bool {
    let before = pictures.partition_point(|picture| picture.code.index() < code.index());
    match pictures.get(before) {
        Some(picture) => picture.code == code,
        None => false,
    }
}

fn write_row<A: Allocator, W: PageSink>(
    plan: &Plan<A>,
    grade: (CodeId, Option<Bounds>),
    linked: bool,
    sink: &mut W,
)
    ensures { Sets W.seen sink.old sink.new (code_texts plan.now grade) }
{
    write_code(plan, grade.0, linked, sink);
    write_bounds(grade.1, sink);
}

fn write_code<A: Allocator, W: PageSink>(plan: &Plan<A>, code: CodeId, linked: bool, sink: &mut W)
    ensures { Sets W.seen sink.old sink.new
        (figures_of plan.now code ∷ exchange_name plan.now (home_of plan.now code)
        ∷ amount (lines_of plan.now code) ∷ []) }
{
    write_figures(plan, code, linked, sink);
    set(
        &[
            Part::Own("</th><td>"),
            Part::Text(plan.exchange_name(plan.home(code))),
            Part::Own("</td><td class=\"k\">"),
            Part::Amount(lines_of(plan, code)),
        ],
        sink,
    );
}

/// Writes the figures of a code, which may be a link to its picture.
fn write_figures<A: Allocator, W: PageSink>(
    plan: &Plan<A>,
    code: CodeId,
    linked: bool,
    sink: &mut W,
)
    ensures { Sets W.seen sink.old sink.new (figures_of plan.now code ∷ []) }
{
    let figures = plan.code_figures(code);
    if !linked {
        set(
            &[Part::Own("<tr><th scope=\"row\">"), Part::Text(figures)],
            sink,
        );
        return;
    }
    set(
        &[
            Part::Own("<tr><th scope=\"row\"><a href"),
            Part::Value("#c", code.index() as u64),
            Part::Own(">"),
            Part::Text(figures),
            Part::Own("</a>"),
        ],
        sink,
    );
}

fn write_bounds<W: PageSink>(bounds: Option<Bounds>, sink: &mut W)
    ensures { Sets W.seen sink.old sink.new (bounds_texts bounds) }
{
    match bounds {
        Some(bounds) => set(
            &[
                Part::Own("</td><td class=\"k\">"),
                Part::Count(u64::from(bounds.limit)),
                Part::Own("</td><td class=\"k\">"),
                Part::Count(u64::from(bounds.spare)),
                Part::Own("</td><td class=\"k\">"),
                Part::Count(u64::from(bounds.limit) + 1),
                Part::Own("</td></tr>"),
            ],
            sink,
        ),
        None => set(
            &[
                Part::Own("</td><td colspan=\"3\" class=\"warn\">"),
                Part::Text(b"no grade"),
                Part::Own("</td></tr>"),
            ],
            sink,
        ),
    }
}
