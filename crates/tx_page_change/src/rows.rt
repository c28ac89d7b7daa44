// The rows of a table that compares two plans.
ghost use Rattle.std.specs.Prelude.{◌≡◌, [], ◌∷◌, ◌++◌};
ghost use Rattle.tx_html.specs.Shows.{Sets};
ghost use Rattle.tx_page_change.specs.RowTexts.{pair_texts, number_texts, stand_word, measure_texts, is_any, outcomes_texts};
ghost use Rattle.tx_page_change.specs.Numbers.{is_worse_number};

use crate::numbers::is_worse_number;
use tx_html::{PageSink, Part, set};

const CELL: &str = "</th><td class=\"k\">";

/// Begins a row with what it is about.
pub fn write_label<W: PageSink>(label: &'static str, sink: &mut W)
    ensures { Sets W.seen sink.old sink.new [] }
{
    set(
        &[
            Part::Own("<tr><th scope=\"row\">"),
            Part::Own(label),
            Part::Own("</th>"),
        ],
        sink,
    );
}

/// Writes a row with a number of both plans, of which none is worse.
pub fn write_pair<W: PageSink>(label: &'static str, old: u64, new: u64, sink: &mut W)
    ensures { Sets W.seen sink.old sink.new (pair_texts old new) }
{
    set(
        &[
            Part::Own("<tr><th scope=\"row\">"),
            Part::Own(label),
            Part::Own(CELL),
            Part::Amount(old),
            Part::Own("</td><td class=\"k\">"),
            Part::Amount(new),
            Part::Own("</td><td></td></tr>"),
        ],
        sink,
    );
}

/// Writes a row with a number of both plans, and how the new one stands by it.
pub fn write_measure<W: PageSink>(
    label: &'static str,
    more: bool,
    old: Option<u64>,
    new: Option<u64>,
    sink: &mut W,
)
    ensures { Sets W.seen sink.old sink.new (measure_texts more old new) }
{
    write_label(label, sink);
    write_number(old, sink);
    write_number(new, sink);
    let worse = is_worse_number(more, old, new);
    write_stand(worse, is_worse_number(more, new, old), sink);
}

fn write_number<W: PageSink>(number: Option<u64>, sink: &mut W)
    ensures { Sets W.seen sink.old sink.new (number_texts number) }
{
    match number {
        Some(number) => set(
            &[
                Part::Own("<td class=\"k\">"),
                Part::Amount(number),
                Part::Own("</td>"),
            ],
            sink,
        ),
        None => set(
            &[
                Part::Own("<td class=\"k\">"),
                Part::Text(b"none"),
                Part::Own("</td>"),
            ],
            sink,
        ),
    }
}

/// How the new plan stands to the old one.
fn stand_word(worse: bool, better: bool) -> &'static [u8]
    ensures { result.now ≡ stand_word worse better }
{
    if worse {
        b"worse"
    } else if better {
        b"better"
    } else {
        b"same"
    }
}

/// Writes how the new plan stands to the old one, and ends the row.
fn write_stand<W: PageSink>(worse: bool, better: bool, sink: &mut W)
    ensures { Sets W.seen sink.old sink.new (stand_word worse better ∷ []) }
{
    set(
        &[
            Part::Own(if worse { "<td class=\"warn\">" } else { "<td>" }),
            Part::Text(stand_word(worse, better)),
            Part::Own("</td></tr>"),
        ],
        sink,
    );
}

/// Whether there are some.
pub fn is_any(number: Option<u64>) -> bool
    ensures { result ≡ is_any number }
{
    match number {
        Some(number) => number > 0,
        None => false,
    }
}

/// Writes after how many outages somebody is worse off than in the old plan, and after how many
/// better.
pub fn write_outcomes<W: PageSink>(worse: Option<u64>, better: Option<u64>, sink: &mut W)
    ensures { Sets W.seen sink.old sink.new (outcomes_texts worse better) }
{
    write_outcome(
        "Outages after which somebody is worse off",
        worse,
        is_any(worse),
        false,
        sink,
    );
    write_outcome(
        "Outages after which somebody is better off",
        better,
        false,
        is_any(better),
        sink,
    );
}

/// Writes a row with one number, and how the new plan stands by it.
fn write_outcome<W: PageSink>(
    label: &'static str,
    number: Option<u64>,
    worse: bool,
    better: bool,
    sink: &mut W,
)
    ensures { Sets W.seen sink.old sink.new (number_texts number ++ stand_word worse better ∷ []) }
{
    write_label(label, sink);
    set(&[Part::Own("<td></td>")], sink);
    write_number(number, sink);
    write_stand(worse, better, sink);
}
