// What is put there before a change, and what goes and is opened after it, on a page.
ghost use Rattle.std.specs.Prelude.{◌<◌, [], ◌∷◌};
ghost use Rattle.std.specs.List.{flat_map};
ghost use Rattle.tx_html.specs.Shows.{Sets};
ghost use Rattle.tx_join.specs.Differences.{count_of_entries, entry_words, range_words, lines_of_circuits};
ghost use Rattle.tx_page_change.specs.StepTexts.{if_alone_texts, alone_texts, circuits_texts, group_circuits_texts, put_texts, gone_texts, opened_texts, before_texts, after_texts};

use crate::between::Between;
use crate::table::write_table;
use std::alloc::Allocator;
use tx_html::{PageSink, Part, set};
use tx_join::{Entries, count_of_entries, is_known, is_told};
use tx_plan::{CodeId, ExchangeId, GroupId, LineRange, Plan};

const BEFORE: &str = "<section class=\"stage\"><h3>Before the switching</h3><p>This is put there \
first, with these lists and bars.</p><ul>";

const AFTER: &str = "<section class=\"stage\"><h3>After the switching</h3><p>This goes then, with \
these lists and bars.</p><ul>";

const OPENED: &str = "<p>At last these codes and lines are opened.</p><ul>";

/// Writes what is put there before the first stage: entries of the network, lists and bars.
pub fn write_before<A: Allocator, W: PageSink>(old: &Plan<A>, new: &Plan<A>, sink: &mut W)
    ensures { Sets W.seen sink.old sink.new (before_texts old.now new.now) }
{
    set(&[Part::Own(BEFORE)], sink);
    write_put(old, new, sink);
    set(&[Part::Own("</ul>")], sink);
    write_table(new, &Between::New(new, old), sink);
    set(&[Part::Own("</section>")], sink);
}

/// Writes what goes after the last stage, and then the codes and lines that are opened.
pub fn write_after<A: Allocator, W: PageSink>(old: &Plan<A>, new: &Plan<A>, sink: &mut W)
    ensures { Sets W.seen sink.old sink.new (after_texts old.now new.now) }
{
    set(&[Part::Own(AFTER)], sink);
    write_gone(old, new, sink);
    set(&[Part::Own("</ul>")], sink);
    write_table(old, &Between::Gone(old, new), sink);
    set(&[Part::Own(OPENED)], sink);
    write_opened(old, new, sink);
    set(&[Part::Own("</ul></section>")], sink);
}

fn write_put<A: Allocator, W: PageSink>(old: &Plan<A>, new: &Plan<A>, sink: &mut W)
    ensures { Sets W.seen sink.old sink.new (put_texts old.now new.now) }
{
    write_alone(Entries::Exchanges, b"NEW", new, old, sink);
    write_alone(Entries::Groups, b"NEW", new, old, sink);
    write_circuits(true, old, new, sink);
}

fn write_gone<A: Allocator, W: PageSink>(old: &Plan<A>, new: &Plan<A>, sink: &mut W)
    ensures { Sets W.seen sink.old sink.new (gone_texts old.now new.now) }
{
    write_alone(Entries::Exchanges, b"GONE", old, new, sink);
    write_alone(Entries::Codes, b"GONE", old, new, sink);
    write_alone(Entries::Ranges, b"GONE", old, new, sink);
    write_alone(Entries::Groups, b"GONE", old, new, sink);
    write_circuits(false, old, new, sink);
}

fn write_opened<A: Allocator, W: PageSink>(old: &Plan<A>, new: &Plan<A>, sink: &mut W)
    ensures { Sets W.seen sink.old sink.new (opened_texts old.now new.now) }
{
    write_alone(Entries::Codes, b"NEW", new, old, sink);
    write_alone(Entries::Ranges, b"NEW", new, old, sink);
}

/// Writes each entry of a list that the other plan does not have.
fn write_alone<A: Allocator, W: PageSink>(
    entries: Entries,
    word: &[u8],
    plan: &Plan<A>,
    other: &Plan<A>,
    sink: &mut W,
)
    ensures { Sets W.seen sink.old sink.new
        (alone_texts entries word.now plan.now other.now) }
{
    for index in 0..count_of_entries(entries, plan) {
        write_if_alone(entries, word, plan, other, index, sink);
    }
}

/// Writes the entry at an index, unless the other plan has it.
fn write_if_alone<A: Allocator, W: PageSink>(
    entries: Entries,
    word: &[u8],
    plan: &Plan<A>,
    other: &Plan<A>,
    index: usize,
    sink: &mut W,
)
    requires few { index < 65536 }
    requires there { index < count_of_entries entries plan.now }
    ensures { Sets W.seen sink.old sink.new
        (if_alone_texts entries word.now plan.now other.now index) }
{
    if is_known(entries, plan, other, index) {
        return;
    }
    write_entry(entries, word, plan, index, sink);
}

/// Writes the entry at an index.
fn write_entry<A: Allocator, W: PageSink>(
    entries: Entries,
    word: &[u8],
    plan: &Plan<A>,
    index: usize,
    sink: &mut W,
)
    requires few { index < 65536 }
    requires there { index < count_of_entries entries plan.now }
    ensures { Sets W.seen sink.old sink.new (word.now ∷ entry_words entries plan.now index) }
{
    match entries {
        Entries::Exchanges => {
            let name = plan.exchange_name(ExchangeId::of(index));
            write_named(word, b"EXCHANGE", name, sink)
        }
        Entries::Codes => {
            let figures = plan.code_figures(CodeId::of(index));
            write_named(word, b"CODE", figures, sink)
        }
        Entries::Ranges => match plan.range_at(index) {
            Some(range) => write_range(word, plan, &range, sink),
            None => unreachable!(),
        },
        Entries::Groups => {
            let name = plan.group_name(GroupId::of(index));
            write_named(word, b"GROUP", name, sink)
        }
    }
}

/// Writes an entry by its name.
fn write_named<'a, W: PageSink>(word: &'a [u8], kind: &'a [u8], name: &'a [u8], sink: &mut W)
    ensures { Sets W.seen sink.old sink.new (word.now ∷ kind.now ∷ name.now ∷ []) }
{
    set(
        &[
            Part::Own("<li>"),
            Part::Text(word),
            Part::Own(" "),
            Part::Text(kind),
            Part::Own(" "),
            Part::Text(name),
            Part::Own("</li>"),
        ],
        sink,
    );
}

/// Writes a range.
fn write_range<'a, A: Allocator, W: PageSink>(
    word: &'a [u8],
    plan: &'a Plan<A>,
    range: &'a LineRange,
    sink: &mut W,
)
    ensures { Sets W.seen sink.old sink.new (word.now ∷ range_words plan.now range.now) }
{
    set(
        &[
            Part::Own("<li>"),
            Part::Text(word),
            Part::Own(" "),
            Part::Text(b"LINES"),
            Part::Own(" "),
            Part::Text(plan.code_figures(range.code)),
            Part::Own(" "),
            Part::Text(range.low.bytes()),
            Part::Own(" "),
            Part::Text(range.high.bytes()),
            Part::Own("</li>"),
        ],
        sink,
    );
}

/// Writes the groups that get more circuits, or those that lose some.
fn write_circuits<A: Allocator, W: PageSink>(
    grows: bool,
    old: &Plan<A>,
    new: &Plan<A>,
    sink: &mut W,
)
    ensures { Sets W.seen sink.old sink.new (circuits_texts grows old.now new.now) }
{
    for index in 0..old.groups() {
        write_group_circuits(grows, old, new, GroupId::of(index), sink);
    }
}

/// Writes how many circuits a group has before and after, if the new plan has it.
fn write_group_circuits<A: Allocator, W: PageSink>(
    grows: bool,
    old: &Plan<A>,
    new: &Plan<A>,
    group: GroupId,
    sink: &mut W,
)
    ensures { Sets W.seen sink.old sink.new
        (group_circuits_texts grows old.now new.now group) }
{
    let name = old.group_name(group);
    match new.group_named(name) {
        Some(known) => {
            let (before, after) = (old.group_count(group), new.group_count(known));
            write_counts(grows, name, before, after, sink)
        }
        None => {}
    }
}

/// Writes both numbers of circuits of a group, if the second is greater, or if it is less.
fn write_counts<W: PageSink>(grows: bool, name: &[u8], before: u32, after: u32, sink: &mut W)
    ensures { Sets W.seen sink.old sink.new
        (flat_map (λ l. l) (lines_of_circuits grows name.now before after)) }
{
    if !is_told(grows, before, after) {
        return;
    }
    set(
        &[
            Part::Own("<li>"),
            Part::Text(b"CIRCUITS"),
            Part::Own(" "),
            Part::Text(name),
            Part::Own(" "),
            Part::Count(u64::from(before)),
            Part::Own(" "),
            Part::Count(u64::from(after)),
            Part::Own("</li>"),
        ],
        sink,
    );
}
