// A page.
ghost use Rattle.std.specs.Prelude.{◌≡◌};
ghost use Rattle.tx_html.specs.Shows.{Sets, Showed};
ghost use Rattle.tx_page.specs.Page.{is_safe, down_texts, first_texts, asked_change_texts, page_texts};

use crate::codes::write_codes;
use crate::decision::write_decision;
use crate::findings::write_wrong;
use crate::heading::write_heading;
use crate::network::write_network;
use crate::outages::write_outages;
use crate::subject::Subject;
use std::alloc::Allocator;
use tx_html::{PageSink, Part, set};
use tx_page_change::{Change, write_change, write_crews};
use tx_rank::{Finding, Ranking};
use tx_svg::write_pictures;
use tx_text::WriteFault;

const GROUPS_DOWN: &str = "<p class=\"warn\">All this is said of the plan while these groups are \
                           down: <b>";

const EXCHANGE_DOWN: &str = "<p class=\"warn\">All this is said of the plan while all groups of \
                             this exchange are down: <b>";

/// Whether a certificate was found.
pub fn is_safe<A: Allocator>(ranking: &Ranking<A>) -> bool
    ensures { result ≡ is_safe ranking.now }
{
    match ranking {
        Ranking::Found(_) => true,
        Ranking::Fails(_) => false,
    }
}

/// What is wrong.
fn findings_in<A: Allocator>(ranking: &Ranking<A>) -> &[Finding<A>] {
    match ranking {
        Ranking::Found(_) => &[],
        Ranking::Fails(findings) => findings.as_slice(),
    }
}

/// Writes what was judged, and the verdict: of the plan, or of the change from an old one.
fn write_first<A: Allocator, W: PageSink>(subject: &Subject<'_, A>, safe: bool, sink: &mut W)
    ensures { Sets W.seen sink.old sink.new (first_texts subject.now safe subject.now.change) }
{
    match &subject.change {
        Some(change) => write_decision(subject, change, safe, sink),
        None => write_heading(
            subject.name,
            &subject.digest,
            subject.version,
            subject.plan,
            subject.limits,
            safe,
            sink,
        ),
    }
}

/// Writes the change of an old plan, if one is asked for, and the work at each exchange.
fn write_asked_change<A: Allocator, W: PageSink>(
    change: &Option<Change<'_, A>>,
    safe: bool,
    sink: &mut W,
)
    ensures { Sets W.seen sink.old sink.new (asked_change_texts safe change.now) }
{
    match change {
        Some(change) => {
            write_change(change, safe, sink);
            write_crews(change, safe, sink);
        }
        None => {}
    }
}

/// Writes what is down, in the words that ask for it, if there are some.
fn write_down<W: PageSink>(what: &'static str, word: Option<&[u8]>, sink: &mut W)
    ensures { Sets W.seen sink.old sink.new (down_texts word.entry) }
{
    if let Some(word) = word {
        set(
            &[Part::Own(what), Part::Text(word), Part::Own("</b></p>")],
            sink,
        );
    }
}

/// Writes a page about a plan and what was found of it.
pub fn write_page<A: Allocator, W: PageSink>(
    subject: &Subject<'_, A>,
    sink: &mut W,
) -> Result<(), WriteFault>
    ensures { Showed W.seen sink.old sink.new (page_texts subject.now) result }
{
    let plan = subject.plan;
    let limits = subject.limits;
    let safe = is_safe(subject.ranking);
    let graded = subject.grade.plan.is_some();
    let findings = findings_in(subject.ranking);
    write_first(subject, safe, sink);
    write_down(GROUPS_DOWN, subject.down, sink);
    write_down(EXCHANGE_DOWN, subject.down_exchange, sink);
    write_wrong(plan, subject.ranking, limits, sink);
    write_asked_change(&subject.change, safe, sink);
    write_codes(plan, subject.grade, subject.pictures, sink);
    write_outages(plan, subject.risks, subject.outcomes, graded, sink);
    write_pictures(plan, subject.grade, subject.pictures, findings, sink);
    write_network(plan, sink);
    set(&[Part::Own("</main></body></html>\n")], sink);
    sink.finish()
}
