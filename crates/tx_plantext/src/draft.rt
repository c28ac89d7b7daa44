// A text that is being revised.
use crate::line_edits::cr_of;
use crate::revising::Unrevised;
use crate::text_lines::TextLines;
use std::alloc::Allocator;
use tx_plan::{Bars, ExchangeId, Plan};
use tx_text::{NoMemory, without_cr, words};

/// The lines of a text so far with the lists and bars of a plan, and what was reached in it.
#[derive(Drop)]
pub struct Draft<'p, A: Allocator> {
    pub plan: &'p Plan<A>,
    /// The CR of new lines, if they have one.
    pub cr: &'p [u8],
    pub text: &'p mut Vec<u8, A>,
    /// How many exchanges, codes and groups are declared.
    pub exchanges: usize,
    pub codes: usize,
    pub groups: usize,
    /// How many lists of each exchange are still to come.
    pub to_come: &'p mut [usize],
    /// The pairs whose lists stand, and those whose bars do.
    pub written: &'p mut Bars<A>,
    pub barred: &'p mut Bars<A>,
}

/// The text of a plan with the lists and the bars of another plan.
pub fn draft_text<A: Allocator + Copy>(
    alloc: A,
    text: &[u8],
    plan: &Plan<A>,
) -> Result<Vec<u8, A>, Unrevised> {
    let mut made = Vec::new(alloc);
    match draft_into(&mut made, alloc, text, plan) {
        Ok(()) => {
            // the LF that was put behind the last line
            let _ = made.pop();
            Ok(made)
        }
        Err(fault) => {
            drop(made);
            Err(fault)
        }
    }
}

/// Writes each line of the text that is made, with an LF behind it.
fn draft_into<A: Allocator + Copy>(
    made: &mut Vec<u8, A>,
    alloc: A,
    text: &[u8],
    plan: &Plan<A>,
) -> Result<(), Unrevised> {
    let mut to_come = lists_of(alloc, text, plan)?;
    let mut written = Bars::new(alloc);
    let mut barred = Bars::new(alloc);
    let mut draft = Draft {
        plan,
        cr: first_cr(text),
        text: made,
        exchanges: 0,
        codes: 0,
        groups: 0,
        to_come: to_come.as_mut_slice(),
        written: &mut written,
        barred: &mut barred,
    };
    draft.take_all(alloc, text)
}

impl<'p, A: Allocator + Copy> Draft<'p, A> {
    /// Takes over each line of the old text.
    fn take_all(&mut self, alloc: A, text: &[u8]) -> Result<(), Unrevised> {
        for line in TextLines::new(text) {
            self.take(alloc, line)?;
        }
        Ok(())
    }
}

/// The CR of the first line, if it has one.
fn first_cr(text: &[u8]) -> &[u8] {
    let mut lines = TextLines::new(text);
    match lines.next() {
        Some(line) => cr_of(line),
        None => b"",
    }
}

/// How many lists of each exchange of a plan a text has.
fn lists_of<A: Allocator + Copy>(
    alloc: A,
    text: &[u8],
    plan: &Plan<A>,
) -> Result<Vec<usize, A>, NoMemory> {
    let mut lists = vec![in alloc; 0usize; plan.exchanges()]?;
    for line in TextLines::new(text) {
        if let Some(exchange) = exchange_of_list(plan, line) {
            if let Some(count) = lists.get_mut(exchange.index()) {
                *count = count.saturating_add(1);
            }
        }
    }
    Ok(lists)
}

/// The exchange of the list of a line, if it is one of the plan.
fn exchange_of_list<A: Allocator>(plan: &Plan<A>, line: &[u8]) -> Option<ExchangeId> {
    let mut words = words(without_cr(line));
    if words.next()? == b"ROUTE".as_slice() {
        plan.exchange_named(words.next()?)
    } else {
        None
    }
}
