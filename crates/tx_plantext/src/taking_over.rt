// What becomes of each line of a text.
use crate::draft::Draft;
use crate::line_edits::{add_line, respell};
use crate::revising::Unrevised;
use crate::same_lines::{pair_of, says_too};
use std::alloc::Allocator;
use tx_plan::ExchangeId;
use tx_text::{NoMemory, Words, without_cr, words};

impl<'p, A: Allocator + Copy> Draft<'p, A> {
    /// Takes over a line of the old text.
    pub fn take(&mut self, alloc: A, line: &[u8]) -> Result<(), Unrevised> {
        let mut words = words(without_cr(line));
        let Some(word) = words.next() else {
            return Ok(add_line(self.text, line, b"")?);
        };
        if word == b"ROUTE".as_slice() {
            return self.take_list(alloc, line, words);
        }
        if word == b"BAR".as_slice() {
            return self.take_bar(line, words);
        }
        if word == b"PLAN".as_slice() {
            return Ok(self.take_header(line)?);
        }
        if word == b"END".as_slice() {
            self.put_lists(alloc, None)?;
            self.put_bars()?;
        }
        self.pass_declaration(word);
        Ok(add_line(self.text, line, b"")?)
    }

    /// Takes over the line of a list. Behind the last one of its exchange stand the new ones.
    fn take_list(&mut self, alloc: A, line: &[u8], words: Words<'_>) -> Result<(), Unrevised> {
        let Some(pair) = pair_of(self.plan, words) else {
            return Err(Unrevised::OtherPlan);
        };
        let exchange = pair.exchange;
        self.put_list_in_place(alloc, line, pair)?;
        if self.pass_list(exchange) {
            self.put_lists(alloc, Some(exchange))?;
        }
        Ok(())
    }
}

impl<'p, A: Allocator> Draft<'p, A> {
    /// Takes over the header, of the second version where that is needed.
    fn take_header(&mut self, line: &[u8]) -> Result<(), NoMemory> {
        if says_too(self.plan, line) {
            return add_line(self.text, line, b"");
        }
        respell(self.text, b"PLAN 2", line)
    }

    /// Takes over the line of a bar.
    fn take_bar(&mut self, line: &[u8], words: Words<'_>) -> Result<(), Unrevised> {
        let Some(pair) = pair_of(self.plan, words) else {
            return Err(Unrevised::OtherPlan);
        };
        Ok(self.put_bar_in_place(line, pair)?)
    }

    /// Passes over a list of an exchange. Whether it was the last one.
    fn pass_list(&mut self, exchange: ExchangeId) -> bool {
        match self.to_come.get_mut(exchange.index()) {
            Some(left) => {
                *left = left.saturating_sub(1);
                *left == 0
            }
            None => true,
        }
    }

    /// Passes over the line of an exchange, a code or a group, by its first word.
    fn pass_declaration(&mut self, word: &[u8]) {
        if word == b"EXCHANGE".as_slice() {
            self.exchanges = self.exchanges.saturating_add(1);
        } else if word == b"CODE".as_slice() {
            self.codes = self.codes.saturating_add(1);
        } else if word == b"GROUP".as_slice() {
            self.groups = self.groups.saturating_add(1);
        }
    }
}
