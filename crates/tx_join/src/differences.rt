// In what two plans differ beside their lists and bars.
#![tactic(auto, using(tx_text::proofs::Putting::puts_none, tx_text::proofs::Ranges::lines_more, tx_text::proofs::Ranges::lines_done))]

ghost use Rattle.std.specs.Prelude.{◌≡◌, ◌<◌, false, length};
ghost use Rattle.std.specs.List.{flat_map, list_any, range_with_len};
ghost use Rattle.tx_text.specs.Puts.{Puts};
ghost use Rattle.tx_text.specs.Written.{line_written};
ghost use Rattle.tx_join.specs.Differences.{count_of_entries, entry_lines, alone, is_told, lines_of_circuits, circuits_lines, circuits, has_alone, differ_in, has_other_circuits, differ};

use crate::entries::{Entries, count_of_entries, is_known, write_entry};
use itoa::Buffer;
use std::alloc::Allocator;
use tx_plan::{GroupId, Plan};
use tx_text::{Sink, put_parts};

/// Writes each entry of a list that the other plan does not have, after a word.
pub(crate) fn write_alone<A: Allocator, W: Sink>(
    entries: Entries,
    word: &[u8],
    plan: &Plan<A>,
    other: &Plan<A>,
    sink: &mut W,
)
    ensures { Puts W.taken W.failed sink.old sink.new
        (alone entries word.now plan.now other.now) }
{
    for index in 0..count_of_entries(entries, plan) {
        write_if_alone(entries, word, plan, other, index, sink);
    }
}

/// Writes the entry at an index, unless the other plan has it.
fn write_if_alone<A: Allocator, W: Sink>(
    entries: Entries,
    word: &[u8],
    plan: &Plan<A>,
    other: &Plan<A>,
    index: usize,
    sink: &mut W,
)
    requires few { index < 65536 }
    requires there { index < count_of_entries entries plan.now }
    ensures { Puts W.taken W.failed sink.old sink.new (flat_map line_written
        (entry_lines entries word.now plan.now other.now index)) }
{
    if is_known(entries, plan, other, index) {
        return;
    }
    write_entry(entries, word, plan, index, sink);
}

/// Writes the groups that get more circuits, or those that lose some.
pub(crate) fn write_circuits<A: Allocator, W: Sink>(
    grows: bool,
    old: &Plan<A>,
    new: &Plan<A>,
    sink: &mut W,
)
    ensures { Puts W.taken W.failed sink.old sink.new (circuits grows old.now new.now) }
{
    for index in 0..old.groups() {
        write_group_circuits(grows, old, new, GroupId::of(index), sink);
    }
}

/// Writes how many circuits a group has before and after, if the new plan has it.
fn write_group_circuits<A: Allocator, W: Sink>(
    grows: bool,
    old: &Plan<A>,
    new: &Plan<A>,
    group: GroupId,
    sink: &mut W,
)
    ensures { Puts W.taken W.failed sink.old sink.new (flat_map line_written
        (circuits_lines grows old.now new.now group)) }
{
    let name = old.group_name(group);
    match new.group_named(name) {
        Some(known) => {
            let (before, after) = (old.group_count(group), new.group_count(known));
            write_counts(grows, name, before, after, sink)
        }
        None => {}
    }
}

/// Writes both numbers of circuits of a group, if the second is greater, or if it is less.
fn write_counts<W: Sink>(grows: bool, name: &[u8], before: u32, after: u32, sink: &mut W)
    ensures { Puts W.taken W.failed sink.old sink.new (flat_map line_written
        (lines_of_circuits grows name.now before after)) }
{
    if !is_told(grows, before, after) {
        return;
    }
    let mut first = Buffer::new();
    let mut second = Buffer::new();
    let before = first.format(before).as_bytes();
    let after = second.format(after).as_bytes();
    put_parts(
        &[b"CIRCUITS ", name, b" ", before, b" ", after, b"\n"],
        sink,
    );
}

/// Whether the second of two numbers is greater, or is less.
pub fn is_told(grows: bool, before: u32, after: u32) -> bool
    ensures { result ≡ is_told grows before after }
{
    if grows {
        before < after
    } else {
        after < before
    }
}

/// Whether two plans differ beside their lists and bars.
pub fn differ<A: Allocator>(old: &Plan<A>, new: &Plan<A>) -> bool
    ensures { result ≡ differ old.now new.now }
{
    differ_in(Entries::Exchanges, old, new)
        || differ_in(Entries::Codes, old, new)
        || differ_in(Entries::Ranges, old, new)
        || differ_in(Entries::Groups, old, new)
        || differ_in_circuits(old, new)
}

/// Whether one of two plans has an entry of a list that the other does not have.
fn differ_in<A: Allocator>(entries: Entries, old: &Plan<A>, new: &Plan<A>) -> bool
    ensures { result ≡ differ_in entries old.now new.now }
{
    has_alone(entries, new, old) || has_alone(entries, old, new)
}

/// Whether a plan has an entry that the other does not have.
fn has_alone<A: Allocator>(entries: Entries, plan: &Plan<A>, other: &Plan<A>) -> bool
    ensures { result ≡ has_alone entries plan.now other.now }
{
    for index in 0..count_of_entries(entries, plan) {
        if !is_known(entries, plan, other, index) {
            return true;
        }
    }
    false
}

/// Whether a group of both plans has another number of circuits.
fn differ_in_circuits<A: Allocator>(old: &Plan<A>, new: &Plan<A>) -> bool
    ensures { result ≡ list_any (has_other_circuits old.now new.now)
        (range_with_len 0 (length old.now.groups)) }
{
    for index in 0..old.groups() {
        if has_other_circuits(old, new, GroupId::of(index)) {
            return true;
        }
    }
    false
}

/// Whether both plans have a group, with other numbers of circuits.
fn has_other_circuits<A: Allocator>(old: &Plan<A>, new: &Plan<A>, group: GroupId) -> bool
    ensures { result ≡ has_other_circuits old.now new.now group }
{
    match new.group_named(old.group_name(group)) {
        Some(known) => old.group_count(group) != new.group_count(known),
        None => false,
    }
}
