// A row of a table of what is switched.
ghost use Rattle.std.specs.Prelude.{◌≡◌, [], ◌∷◌, not};
ghost use Rattle.std.specs.Str.{bytes_eq};
ghost use Rattle.tx_html.specs.Shows.{Sets};
ghost use Rattle.tx_page_change.specs.ChangeTexts.{bar_word, entry_texts, is_switched, switched_texts};

use std::alloc::Allocator;
use tx_html::{PageSink, Part, set};
use tx_plan::{CodeId, ExchangeId, GroupId, Plan};
use tx_svg::write_groups;

/// What an exchange has for a code before a stage and after it.
#[derive(Clone, Copy)]
pub struct Entry<'a> {
    pub exchange: ExchangeId,
    pub code: CodeId,
    pub before: &'a [GroupId],
    pub after: &'a [GroupId],
    pub was_barred: bool,
    pub is_barred: bool,
}

/// What happens to a bar.
fn bar_word(was: bool, is: bool) -> &'static [u8]
    ensures { result.now ≡ bar_word was is }
{
    match (was, is) {
        (false, true) => b"set",
        (true, false) => b"lifted",
        (false, false) | (true, true) => b"",
    }
}

/// Whether the list is another one.
pub(crate) fn is_other_list(entry: &Entry<'_>) -> bool
    ensures { result ≡ not (bytes_eq entry.now.before.now entry.now.after.now) }
{
    entry.before != entry.after
}

/// Whether the list or the bar is another one.
pub(crate) fn is_switched(entry: &Entry<'_>) -> bool
    ensures { result ≡ is_switched entry.now.before.now entry.now.after.now entry.now.was_barred
        entry.now.is_barred }
{
    entry.before != entry.after || !bar_word(entry.was_barred, entry.is_barred).is_empty()
}

/// Writes a row, if the list or the bar is another one.
pub fn write_switched<A: Allocator, W: PageSink>(plan: &Plan<A>, entry: &Entry<'_>, sink: &mut W)
    ensures { Sets W.seen sink.old sink.new
        (switched_texts plan.now entry.now.exchange entry.now.code entry.now.before.now
        entry.now.after.now entry.now.was_barred entry.now.is_barred) }
{
    if is_switched(entry) {
        write_entry(plan, entry, sink);
    }
}

fn write_entry<A: Allocator, W: PageSink>(plan: &Plan<A>, entry: &Entry<'_>, sink: &mut W)
    ensures { Sets W.seen sink.old sink.new
        (entry_texts plan.now entry.now.exchange entry.now.code entry.now.before.now
        entry.now.after.now entry.now.was_barred entry.now.is_barred) }
{
    set(
        &[
            Part::Own("<tr><th scope=\"row\">"),
            Part::Text(plan.exchange_name(entry.exchange)),
            Part::Own("</th><td>"),
            Part::Text(plan.code_figures(entry.code)),
            Part::Own("</td><td>"),
        ],
        sink,
    );
    write_groups(plan, entry.before, sink);
    set(&[Part::Own("</td><td>")], sink);
    write_groups(plan, entry.after, sink);
    write_bar(bar_word(entry.was_barred, entry.is_barred), sink);
}

/// Writes what happens to a bar, and the end of the row.
fn write_bar<W: PageSink>(bar: &[u8], sink: &mut W)
    ensures { Sets W.seen sink.old sink.new (bar.now ∷ []) }
{
    set(
        &[
            Part::Own("</td><td>"),
            Part::Text(bar),
            Part::Own("</td></tr>"),
        ],
        sink,
    );
}
