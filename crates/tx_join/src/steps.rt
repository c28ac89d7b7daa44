// The writer of what is done before and after the lists and bars of both plans are switched.
#![tactic(auto, using(tx_text::proofs::Putting::puts_then))]

ghost use Rattle.tx_text.specs.Puts.{Puts};
ghost use Rattle.tx_join.specs.Steps.{put_text, network_gone, gone_text, opened_text, before_text, after_text};

use crate::differences::{differ, write_alone, write_circuits};
use crate::entries::Entries;
use crate::lists_alone::{write_bans, write_lists};
use std::alloc::Allocator;
use tx_plan::Plan;
use tx_text::{Sink, put_bytes};

/// Writes what is put there before the first list is switched, if the plans differ beside lists and
/// bars: new exchanges, groups and circuits, and each list and bar of a new exchange or a new code.
pub fn write_before<A: Allocator, W: Sink>(old: &Plan<A>, new: &Plan<A>, sink: &mut W)
    ensures { Puts W.taken W.failed sink.old sink.new (before_text old.now new.now) }
{
    if !differ(old, new) {
        return;
    }
    put_bytes(b"BEFORE\n", sink);
    write_put(old, new, sink);
}

/// Writes what goes after the last list is switched, and then the codes and lines that are opened.
pub fn write_after<A: Allocator, W: Sink>(old: &Plan<A>, new: &Plan<A>, sink: &mut W)
    ensures { Puts W.taken W.failed sink.old sink.new (after_text old.now new.now) }
{
    if !differ(old, new) {
        return;
    }
    put_bytes(b"AFTER\n", sink);
    write_gone(old, new, sink);
    write_opened(old, new, sink);
}

fn write_put<A: Allocator, W: Sink>(old: &Plan<A>, new: &Plan<A>, sink: &mut W)
    ensures { Puts W.taken W.failed sink.old sink.new (put_text old.now new.now) }
{
    write_alone(Entries::Exchanges, b"NEW", new, old, sink);
    write_alone(Entries::Groups, b"NEW", new, old, sink);
    write_circuits(true, old, new, sink);
    write_lists(b"NEW", new, old, sink);
    write_bans(b"NEW", new, old, sink);
}

fn write_gone<A: Allocator, W: Sink>(old: &Plan<A>, new: &Plan<A>, sink: &mut W)
    ensures { Puts W.taken W.failed sink.old sink.new (gone_text old.now new.now) }
{
    write_network_gone(old, new, sink);
    write_lists(b"GONE", old, new, sink);
    write_bans(b"GONE", old, new, sink);
}

/// Writes what goes of the network.
fn write_network_gone<A: Allocator, W: Sink>(old: &Plan<A>, new: &Plan<A>, sink: &mut W)
    ensures { Puts W.taken W.failed sink.old sink.new (network_gone old.now new.now) }
{
    write_alone(Entries::Exchanges, b"GONE", old, new, sink);
    write_alone(Entries::Codes, b"GONE", old, new, sink);
    write_alone(Entries::Ranges, b"GONE", old, new, sink);
    write_alone(Entries::Groups, b"GONE", old, new, sink);
    write_circuits(false, old, new, sink);
}

fn write_opened<A: Allocator, W: Sink>(old: &Plan<A>, new: &Plan<A>, sink: &mut W)
    ensures { Puts W.taken W.failed sink.old sink.new (opened_text old.now new.now) }
{
    write_alone(Entries::Codes, b"NEW", new, old, sink);
    write_alone(Entries::Ranges, b"NEW", new, old, sink);
}
