// The entries of the lists of a network, and which of them another plan has.
ghost use Rattle.std.specs.Prelude.{◌≡◌, ◌<◌, ◌≤◌, ◌∷◌, false, slice_get};
ghost use Rattle.std.specs.List.{list_any};
ghost use Rattle.std.specs.Option.{option_map_or};
ghost use Rattle.tx_text.specs.Puts.{Puts};
ghost use Rattle.tx_text.specs.Written.{line_written};
ghost use Rattle.tx_join.specs.Differences.{count_of_entries, has_range, has_range_at, is_known, entry_words, range_words};
ghost use Rattle.tx_join.specs.inner.Ranges.{is_range_of};

use crate::naming::{has_code, has_exchange, has_group};
use std::alloc::Allocator;
use tx_plan::{CodeId, ExchangeId, GroupId, LineRange, Plan};
use tx_text::{Sink, put_parts};

/// The entries of one of the lists of a network.
#[derive(Clone, Copy)]
pub enum Entries {
    /// The exchanges.
    Exchanges,
    /// The codes.
    Codes,
    /// The ranges of lines.
    Ranges,
    /// The groups.
    Groups,
}

/// How many entries a plan has.
pub fn count_of_entries<A: Allocator>(entries: Entries, plan: &Plan<A>) -> usize
    ensures count { result ≡ count_of_entries entries plan.now }
    ensures few { result ≤ 4096 }
{
    match entries {
        Entries::Exchanges => plan.exchanges(),
        Entries::Codes => plan.codes(),
        Entries::Ranges => plan.ranges(),
        Entries::Groups => plan.groups(),
    }
}

/// Whether another plan has the entry at an index.
pub fn is_known<A: Allocator>(
    entries: Entries,
    plan: &Plan<A>,
    other: &Plan<A>,
    index: usize,
) -> bool
    requires { index < 65536 }
    ensures { result ≡ is_known entries plan.now other.now index }
{
    match entries {
        Entries::Exchanges => has_exchange(other, plan.exchange_name(ExchangeId::of(index))),
        Entries::Codes => has_code(other, plan.code_figures(CodeId::of(index))),
        Entries::Ranges => has_range_at(plan, other, index),
        Entries::Groups => has_group(other, plan.group_name(GroupId::of(index))),
    }
}

/// Whether another plan has the range at an index.
fn has_range_at<A: Allocator>(plan: &Plan<A>, other: &Plan<A>, index: usize) -> bool
    ensures { result ≡ has_range_at plan.now other.now index }
{
    match plan.range_at(index) {
        Some(range) => {
            let code = plan.code_figures(range.code);
            has_range(other, code, range.low.bytes(), range.high.bytes())
        }
        None => true,
    }
}

/// Whether a plan has the lines of a code from low to high, as one range.
fn has_range<A: Allocator>(plan: &Plan<A>, code: &[u8], low: &[u8], high: &[u8]) -> bool
    ensures { result ≡ has_range plan.now code.now low.now high.now }
{
    plan.rules();
    match plan.code_named(code) {
        Some(code) => has_range_of(plan, code, low, high),
        None => false,
    }
}

/// The same, by the code's id.
fn has_range_of<A: Allocator>(plan: &Plan<A>, code: CodeId, low: &[u8], high: &[u8]) -> bool
    ensures { result ≡ list_any (is_range_of code low.now high.now) plan.now.ranges }
{
    for index in 0..plan.ranges() {
        if is_range_at(plan, index, code, low, high) {
            return true;
        }
    }
    false
}

/// Whether they are the range at an index.
fn is_range_at<A: Allocator>(
    plan: &Plan<A>,
    index: usize,
    code: CodeId,
    low: &[u8],
    high: &[u8],
) -> bool
    ensures { result ≡ option_map_or (is_range_of code low.now high.now)
        (slice_get plan.now.ranges index) false }
{
    match plan.range_at(index) {
        Some(range) => {
            range.code == code && range.low.bytes() == low && range.high.bytes() == high
        }
        None => false,
    }
}

/// Writes the entry at an index after a word.
pub(crate) fn write_entry<A: Allocator, W: Sink>(
    entries: Entries,
    word: &[u8],
    plan: &Plan<A>,
    index: usize,
    sink: &mut W,
)
    requires { index < count_of_entries entries plan.now }
    ensures { Puts W.taken W.failed sink.old sink.new
        (line_written (word.now ∷ entry_words entries plan.now index)) }
{
    plan.rules();
    match entries {
        Entries::Exchanges => {
            let name = plan.exchange_name(ExchangeId::of(index));
            put_parts(&[word, b" EXCHANGE ", name, b"\n"], sink)
        }
        Entries::Codes => {
            let figures = plan.code_figures(CodeId::of(index));
            put_parts(&[word, b" CODE ", figures, b"\n"], sink)
        }
        Entries::Ranges => match plan.range_at(index) {
            Some(range) => write_range(word, plan, range, sink),
            None => unreachable!(),
        },
        Entries::Groups => {
            let name = plan.group_name(GroupId::of(index));
            put_parts(&[word, b" GROUP ", name, b"\n"], sink)
        }
    }
}

/// Writes a range after a word.
fn write_range<A: Allocator, W: Sink>(word: &[u8], plan: &Plan<A>, range: LineRange, sink: &mut W)
    ensures { Puts W.taken W.failed sink.old sink.new
        (line_written (word.now ∷ range_words plan.now range)) }
{
    let code = plan.code_figures(range.code);
    let (low, high) = (range.low.bytes(), range.high.bytes());
    put_parts(
        &[word, b" LINES ", code, b" ", low, b" ", high, b"\n"],
        sink,
    );
}
