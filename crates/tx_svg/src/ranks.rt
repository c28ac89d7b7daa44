// The ranks above the columns of a picture.
ghost use Rattle.std.specs.Prelude.{◌≡◌, ◌+◌, ◌∷◌, [], length, decimal};
ghost use Rattle.tx_html.specs.Shows.{Sets};
ghost use Rattle.tx_cert.specs.Certificate.{ranks_of};
ghost use Rattle.tx_svg.specs.Indexed.{texts_below};
ghost use Rattle.tx_svg.specs.ListTexts.{column_texts, greatest_rank, is_graded, ranks_texts};

use crate::picture::Picture;
use crate::spot::BOX;
use std::alloc::Allocator;
use tx_cert::Cert;
use tx_html::{PageSink, Part, set};
use tx_plan::{CodeId, ExchangeId, Plan};
use tx_rank::Grade;

/// Whether a code has a grade. The columns of its picture are ranks then.
pub(crate) fn is_graded<A: Allocator>(grade: &Grade<A>, code: CodeId) -> bool
    ensures { result ≡ is_graded grade.now code }
{
    match grade.codes.get(code.index()) {
        Some(graded) => graded.1.is_some(),
        None => false,
    }
}

/// The greatest rank that an exchange has for a code.
fn greatest_rank<A: Allocator>(plan: &Plan<A>, ranks: &Cert<A>, code: CodeId) -> u16
    ensures { result ≡ greatest_rank (ranks_of ranks.now code) (length plan.now.exchanges) }
{
    let mut greatest = 0u16;
    for index in 0..plan.exchanges() {
        let rank = ranks.rank(code, ExchangeId::of(index)).unwrap_or(0);
        greatest = greatest.max(rank);
    }
    greatest
}

/// Writes the ranks above their columns, if the columns are ranks.
pub(crate) fn write_ranks<A: Allocator, W: PageSink>(
    plan: &Plan<A>,
    grade: &Grade<A>,
    picture: &Picture<A>,
    sink: &mut W,
)
    ensures { Sets W.seen sink.old sink.new
        (ranks_texts plan.now grade.now picture.now.code) }
{
    if is_graded(grade, picture.code) {
        let greatest = greatest_rank(plan, &grade.ranks, picture.code);
        write_all(picture, greatest, sink);
    }
}

/// Writes the ranks up to the greatest.
fn write_all<A: Allocator, W: PageSink>(picture: &Picture<A>, greatest: u16, sink: &mut W)
    ensures { Sets W.seen sink.old sink.new (texts_below greatest column_texts) }
{
    for below in 0..greatest {
        write_rank(picture.left(below + 1), u64::from(below) + 1, sink);
    }
}

fn write_rank<W: PageSink>(left: u64, rank: u64, sink: &mut W)
    ensures { Sets W.seen sink.old sink.new (decimal rank ∷ []) }
{
    set(
        &[
            Part::Own("<text class=\"r\" x"),
            Part::Value("", left.saturating_add(BOX / 2)),
            Part::Own(" y=\"16\">rank "),
            Part::Count(rank),
            Part::Own("</text>"),
        ],
        sink,
    );
}
