// Cases that have a plan, and what stands over it.
use crate::cases::{Told, tell_broken};
use crate::tests::book::{mark_many, play_book};
use crate::tests::circuits::{tell_circuits, try_sequences};
use crate::tests::trie::tell_trie;
use std::alloc::Global;
use tx_circuits::CircuitTable;
use tx_lines::LineBook;
use tx_plan::Plan;
use tx_plantext::read_plan;
use tx_trie::CodeTrie;

/// Makes a trie, and writes what it reads.
fn over_trie(alloc: Global, plan: &Plan, lines: &[u8], out: &mut Told) {
    match CodeTrie::build(alloc, plan) {
        Ok(trie) => tell_trie(plan, &trie, lines, out),
        Err(_) => tell_broken(b"no memory", 0, out),
    }
}

/// Makes a line book, and writes what is found in it, or in many of its lines.
fn over_book(alloc: Global, plan: &Plan, are_many: bool, lines: &[u8], out: &mut Told) {
    match LineBook::build(alloc, plan) {
        Ok(mut book) => {
            if are_many {
                mark_many(&mut book, lines, out);
            } else {
                play_book(&mut book, lines, out);
            }
        }
        Err(_) => tell_broken(b"no memory", 0, out),
    }
}

/// Makes a table of circuits, and writes what it gives after each call.
fn over_table(alloc: Global, plan: &Plan, calls: &[u8], out: &mut Told) {
    match CircuitTable::build(alloc, plan) {
        Ok(mut table) => tell_circuits(&mut table, calls, out),
        Err(_) => tell_broken(b"no memory", 0, out),
    }
}

/// Reads a plan, and plays a kind that has one.
pub(crate) fn with_plan(alloc: Global, kind: &[u8], plan: &[u8], calls: &[u8], out: &mut Told) {
    match read_plan(alloc, plan) {
        Ok(plan) => {
            match kind {
                b"trie" => over_trie(alloc, &plan, calls, out),
                b"book" => over_book(alloc, &plan, false, calls, out),
                b"many-lines" => over_book(alloc, &plan, true, calls, out),
                b"circuits" => over_table(alloc, &plan, calls, out),
                _ => try_sequences(alloc, &plan, out),
            }
        }
        Err(fault) => tell_broken(b"no plan, line", fault.line, out),
    }
}
