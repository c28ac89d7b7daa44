// The lists and the bars of the new plan.
use crate::draft::Draft;
use crate::line_edits::{add, add_line, add_tail, respell};
use crate::same_lines::says_too;
use std::alloc::Allocator;
use tx_plan::{ExchangeId, Pair, Plan};
use tx_text::NoMemory;

/// The words of the line of a pair's list, with a space between two.
fn list_text<A: Allocator + Copy>(
    alloc: A,
    plan: &Plan<A>,
    pair: &Pair,
) -> Result<Vec<u8, A>, NoMemory> {
    let mut text = Vec::new(alloc);
    add(&mut text, b"ROUTE ")?;
    add(&mut text, plan.exchange_name(pair.exchange))?;
    add(&mut text, b" ")?;
    add(&mut text, plan.code_figures(pair.code))?;
    for group in plan.list(pair.exchange, pair.code) {
        add(&mut text, b" ")?;
        add(&mut text, plan.group_name(*group))?;
    }
    Ok(text)
}

impl<'p, A: Allocator> Draft<'p, A> {
    /// Whether all that the list of a pair names is declared.
    fn is_declared(&self, pair: &Pair) -> bool {
        let list = self.plan.list(pair.exchange, pair.code);
        pair.exchange.index() < self.exchanges
            && pair.code.index() < self.codes
            && list.iter().all(|group| group.index() < self.groups)
    }

    /// Takes over the line of a bar if the new plan has the bar.
    pub fn put_bar_in_place(&mut self, line: &[u8], pair: Pair) -> Result<(), NoMemory> {
        if self.plan.is_barred(pair.exchange, pair.code) && !self.barred.has(&pair) {
            self.barred.add(pair)?;
            add_line(self.text, line, b"")?;
        }
        Ok(())
    }

    /// Writes a bar in a new line, if it does not stand yet.
    fn put_bar(&mut self, pair: Pair) -> Result<(), NoMemory> {
        if self.barred.has(&pair) {
            return Ok(());
        }
        self.barred.add(pair)?;
        add(self.text, b"BAR ")?;
        add(self.text, self.plan.exchange_name(pair.exchange))?;
        add(self.text, b" ")?;
        add_line(self.text, self.plan.code_figures(pair.code), self.cr)
    }

    /// Writes each bar that does not stand yet.
    pub fn put_bars(&mut self) -> Result<(), NoMemory> {
        for index in 0..self.plan.bars() {
            if let Some((exchange, code)) = self.plan.bar_at(index) {
                self.put_bar(Pair { exchange, code })?;
            }
        }
        Ok(())
    }
}

impl<'p, A: Allocator + Copy> Draft<'p, A> {
    /// Writes the list of a pair in the place of this line. If it cannot stand there yet, only what
    /// stands behind the words of the line stays; if there is none, nothing does.
    pub fn put_list_in_place(&mut self, alloc: A, line: &[u8], pair: Pair) -> Result<(), NoMemory> {
        if self.plan.list(pair.exchange, pair.code).is_empty() {
            return Ok(());
        }
        if self.written.has(&pair) || !self.is_declared(&pair) {
            return add_tail(self.text, line);
        }
        self.written.add(pair)?;
        if says_too(self.plan, line) {
            return add_line(self.text, line, b"");
        }
        let spelled = list_text(alloc, self.plan, &pair)?;
        respell(self.text, spelled.as_slice(), line)
    }

    /// Writes the list of a pair in a new line, if it can stand here.
    fn put_list(&mut self, alloc: A, pair: Pair) -> Result<(), NoMemory> {
        if self.written.has(&pair) || !self.is_declared(&pair) {
            return Ok(());
        }
        self.written.add(pair)?;
        let spelled = list_text(alloc, self.plan, &pair)?;
        add_line(self.text, spelled.as_slice(), self.cr)
    }

    /// Writes each list that can stand here, of one exchange or of all, in new lines.
    pub fn put_lists(&mut self, alloc: A, asked: Option<ExchangeId>) -> Result<(), NoMemory> {
        for index in 0..self.plan.routes() {
            if let Some((exchange, code)) = self.plan.route_at(index) {
                if asked.is_none() || asked == Some(exchange) {
                    self.put_list(alloc, Pair { exchange, code })?;
                }
            }
        }
        Ok(())
    }
}
