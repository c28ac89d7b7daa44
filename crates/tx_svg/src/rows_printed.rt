// The table that is printed in place of a picture.
ghost use Rattle.std.specs.Prelude.{◌≡◌, ◌∷◌, length};
ghost use Rattle.tx_plan.specs.Plan.{figures_of};
ghost use Rattle.tx_html.specs.Shows.{Sets};
ghost use Rattle.tx_svg.specs.Indexed.{texts_below};
ghost use Rattle.tx_svg.specs.ListTexts.{is_large, rank_in, rank_texts, row_texts, table_texts};

use crate::names::write_groups;
use crate::picture::Picture;
use crate::ranks::is_graded;
use std::alloc::Allocator;
use tx_html::{PageSink, Part, set};
use tx_plan::{CodeId, ExchangeId, Plan};
use tx_rank::Grade;

/// Whether a picture is too large for a sheet.
pub(crate) fn is_large<A: Allocator>(plan: &Plan<A>, picture: &Picture<A>) -> bool
    ensures { result ≡ is_large plan.now picture.now }
{
    plan.exchanges() > 36 || picture.boxes.len() > 5
}

/// Writes the ranks and the lists of a picture that is too large, in a table.
pub(crate) fn write_table<A: Allocator, W: PageSink>(
    plan: &Plan<A>,
    grade: &Grade<A>,
    picture: &Picture<A>,
    sink: &mut W,
)
    ensures { Sets W.seen sink.old sink.new (table_texts plan.now grade.now picture.now) }
{
    if is_large(plan, picture) {
        write_lists(plan, grade, picture, sink);
    }
}

fn write_lists<A: Allocator, W: PageSink>(
    plan: &Plan<A>,
    grade: &Grade<A>,
    picture: &Picture<A>,
    sink: &mut W,
)
    ensures { Sets W.seen sink.old sink.new (figures_of plan.now picture.now.code
        ∷ texts_below (length plan.now.exchanges)
        (row_texts plan.now grade.now picture.now.code)) }
{
    set(
        &[
            Part::Own(
                "<table><thead><tr><th scope=\"col\">Exchange</th><th scope=\"col\">Rank</th>\
                 <th scope=\"col\">List for ",
            ),
            Part::Text(plan.code_figures(picture.code)),
            Part::Own("</th></tr></thead><tbody>"),
        ],
        sink,
    );
    write_rows(plan, grade, picture, sink);
    set(&[Part::Own("</tbody></table>")], sink);
}

fn write_rows<A: Allocator, W: PageSink>(
    plan: &Plan<A>,
    grade: &Grade<A>,
    picture: &Picture<A>,
    sink: &mut W,
)
    ensures { Sets W.seen sink.old sink.new
        (texts_below (length plan.now.exchanges) (row_texts plan.now grade.now picture.now.code)) }
{
    for index in 0..plan.exchanges() {
        write_row(plan, grade, picture, ExchangeId::of(index), sink);
    }
}

/// Writes an exchange with its rank and its list.
fn write_row<A: Allocator, W: PageSink>(
    plan: &Plan<A>,
    grade: &Grade<A>,
    picture: &Picture<A>,
    exchange: ExchangeId,
    sink: &mut W,
)
    ensures { Sets W.seen sink.old sink.new
        (row_texts plan.now grade.now picture.now.code exchange) }
{
    set(
        &[
            Part::Own("<tr><th scope=\"row\">"),
            Part::Text(plan.exchange_name(exchange)),
            Part::Own("</th><td>"),
        ],
        sink,
    );
    write_rank(rank_in(grade, picture.code, exchange), sink);
    set(&[Part::Own("</td><td>")], sink);
    write_groups(plan, plan.list(exchange, picture.code), sink);
    set(&[Part::Own("</td></tr>")], sink);
}

/// The rank of an exchange for a code, if the code has a grade.
fn rank_in<A: Allocator>(grade: &Grade<A>, code: CodeId, exchange: ExchangeId) -> Option<u16>
    ensures { result ≡ rank_in grade.now code exchange }
{
    if is_graded(grade, code) {
        grade.ranks.rank(code, exchange)
    } else {
        None
    }
}

fn write_rank<W: PageSink>(rank: Option<u16>, sink: &mut W)
    ensures { Sets W.seen sink.old sink.new (rank_texts rank) }
{
    match rank {
        Some(rank) => set(&[Part::Count(u64::from(rank))], sink),
        None => {}
    }
}
