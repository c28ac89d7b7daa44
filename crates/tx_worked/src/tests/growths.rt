// What takes memory, made with each request refused in turn.
use crate::cases::{Refusing, Told, tell_broken, tell_count};
use crate::tests::circuits::calls::{ALFA, BETA, next};
use std::alloc::{Allocator, Global};
use tx_circuits::CircuitTable;
use tx_lines::{LineAnswer, LineBook};
use tx_plan::{CodeId, Line, Plan, PlanRefusal};
use tx_plantext::{PlanFault, PlanWord, read_plan};
use tx_text::{FaultKind, FrameFault, LineFeeder, MemorySink, Sink, TextFault, write_bytes};
use tx_trie::CodeTrie;

/// What came of it.
#[derive(Clone, Copy)]
enum Came {
    /// All answers are right, and memory never ran out.
    Right,
    /// Memory ran out for the plan.
    NoPlan,
    /// Memory ran out for what was made.
    Wanting,
    /// An answer is wrong.
    Wrong,
}

/// Right, or wrong.
fn judged(is_right: bool) -> Came {
    if is_right { Came::Right } else { Came::Wrong }
}

/// A feeder, which takes no memory when it is fed.
fn make_feeder<A: Allocator + Copy>(alloc: A) -> Came {
    match LineFeeder::new(alloc) {
        Ok(mut feeder) => judged(feeder.feed(&[b'#'; 513]) == Err(TextFault::LineTooLong)),
        Err(TextFault::NoMemory) => Came::Wanting,
        Err(_) => Came::Wrong,
    }
}

/// A sink, which takes no memory when it is written to.
fn make_sink<A: Allocator + Copy>(alloc: A) -> Came {
    match MemorySink::new(alloc, 8) {
        Ok(mut sink) => judged(write_bytes(b"SCRIPT 1", &mut sink).is_ok()),
        Err(_) => Came::Wanting,
    }
}

/// A trie of codes of which one begins another.
fn make_trie<A: Allocator + Copy>(alloc: A, plan: &Plan<A>) -> Came {
    match CodeTrie::build(alloc, plan) {
        Ok(trie) => judged(trie.ambiguous().is_some()),
        Err(_) => Came::Wanting,
    }
}

/// A table of circuits, of which ALFA takes the first next and BETA the third.
fn make_table<A: Allocator + Copy>(alloc: A, plan: &Plan<A>) -> Came {
    match CircuitTable::build(alloc, plan) {
        Ok(table) => judged(next(&table, ALFA) == 1 && next(&table, BETA) == 3),
        Err(_) => Came::Wanting,
    }
}

/// Engages a free line, for which room is made first. Where memory runs out it has to stay free.
fn engage<A: Allocator + Copy>(book: &mut LineBook<A>, line: &Line) -> Came {
    let mut came = Came::Wanting;
    if book.reserve_one().is_ok() {
        book.engage(line);
        came = Came::Right;
    }
    let answer = book.answer(line.code, line.national.bytes());
    match (came, answer) {
        (Came::Right, LineAnswer::Engaged) => Came::Right,
        (Came::Wanting, LineAnswer::Free(free)) if free == *line => Came::Wanting,
        _ => Came::Wrong,
    }
}

/// Engages so many lines that their room is made more than once. Where memory runs out, a line is
/// engaged at the second try.
fn engage_lines<A: Allocator + Copy>(book: &mut LineBook<A>) -> Came {
    let mut all = Came::Right;
    for count in 1..14u8 {
        let number = [b'1', b'0', b'0', b'0' + count / 10, b'0' + count % 10];
        let Some(line) = book.find(CodeId::of(0), &number) else {
            return Came::Wrong;
        };
        let mut came = engage(book, &line);
        if came == Came::Wanting {
            all = Came::Wanting;
            came = engage(book, &line);
        }
        if came != Came::Right {
            return Came::Wrong;
        }
    }
    all
}

/// A book of lines, of which some are engaged.
fn make_book<A: Allocator + Copy>(alloc: A, plan: &Plan<A>) -> Came {
    match LineBook::build(alloc, plan) {
        Ok(mut book) => engage_lines(&mut book),
        Err(_) => Came::Wanting,
    }
}

/// Makes what is to be made: where it has a plan, over this one.
fn make_over<A: Allocator + Copy>(alloc: A, made: &[u8], plan: &Plan<A>) -> Came {
    match made {
        b"feeder" => make_feeder(alloc),
        b"sink" => make_sink(alloc),
        b"trie" => make_trie(alloc, plan),
        b"book" => make_book(alloc, plan),
        b"table" => make_table(alloc, plan),
        _ => Came::Wrong,
    }
}

/// What came of a plan that could not be read.
fn came_of(fault: PlanFault) -> Came {
    match fault.kind {
        FaultKind::Frame(FrameFault::NoMemory)
        | FaultKind::Word(PlanWord::Refused(PlanRefusal::NoMemory)) => Came::NoPlan,
        _ => Came::Wrong,
    }
}

/// Reads the plan, and makes what is to be made.
fn make<A: Allocator + Copy>(alloc: A, made: &[u8], plan: &[u8]) -> Came {
    match read_plan(alloc, plan) {
        Ok(plan) => make_over(alloc, made, &plan),
        Err(fault) => came_of(fault),
    }
}

/// Refuses each request for memory in turn, until none is refused, and writes how many are not the
/// plan's.
pub(crate) fn play_growths(alloc: Global, made: &[u8], plan: &[u8], out: &mut Told) {
    let mut wanting = 0u64;
    for request in 1..1000u64 {
        let refusing = Refusing::new(alloc, request);
        let came = make(&refusing, made, plan);
        let refused = refusing.has_refused();
        if came == Came::Wanting {
            wanting = wanting.saturating_add(1);
        }
        if came == Came::Wrong || (came == Came::Right) == refused {
            tell_broken(b"refused request", request, out);
        }
        if !refused {
            break;
        }
    }
    tell_count(b"", wanting, b" requests beside the plan's\n", out);
}
