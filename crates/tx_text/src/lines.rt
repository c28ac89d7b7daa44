// The lines of a text that is in memory.
ghost use Rattle.std.specs.Prelude.{◌≡◌, ◌+◌, ◌-◌, ◌^◌, ◌<◌, ◌≤◌, ◌∷◌, [], length, IfSome, MatchOption};
ghost use Rattle.std.specs.Iterator.{YieldsFirstBy, item_count};
ghost use Rattle.tx_text.specs.Text.{lines_from, checked};
ghost use Rattle.tx_text.specs.inner.TextLine.{line_of, item_of};
ghost use Rattle.tx_text.specs.inner.LinesLeft.{items_of};

use crate::line::TextLine;
use crate::reader::{bytes_fault, lf_or_len, without_cr};
use crate::text_fault::TextFault;
use std::marker::Model;

/// The lines of a text that are left to give. After a fault there is none.
#[derive(Drop)]
pub struct Lines<'a> {
    rest: &'a [u8],
    number: u64,
    start: usize,
}

impl<'a> Model for Lines<'a> {
    ghost use Rattle.std.specs.Prelude.{List, Result};
    ghost use Rattle.tx_text.specs.declared.text_fault.TextFault.{TextFault};
    ghost use Rattle.tx_text.specs.Text.{Line};

    ghost Value = { List (Result Line TextFault) };

    ghost use Rattle.tx_text.specs.inner.Lines.{items_left, IsLines};

    ghost view = { items_left };

    ghost invariant = { IsLines };
}

impl<'a> Lines<'a> {
    /// The lines of a text that is in memory, from its first.
    pub fn new(text: &'a [u8]) -> Lines<'a>
        ensures { result ≡ checked (lines_from 1 0 text.now) }
    {
        Lines {
            rest: text,
            number: 0,
            start: 0,
        }
    }
}

impl<'a> Iterator for Lines<'a> {
    type Item = Result<TextLine<'a>, TextFault>;

    ghost next_gives = { YieldsFirstBy item_of (λ s. s) };

    ghost remaining = { item_count (λ s. s) };

    fn next(&mut self) -> Option<Result<TextLine<'a>, TextFault>> {
        let (item, left) = next_item(Left {
            rest: self.rest,
            number: self.number,
            start: self.start,
        })?;
        self.rest = left.rest;
        self.number = left.number;
        self.start = left.start;
        Some(item)
    }
}

/// What is left of a text: its bytes, how many lines are before them, and where they start.
#[derive(Clone, Copy)]
struct Left<'a> {
    rest: &'a [u8],
    number: u64,
    start: usize,
}

/// The next line or its fault, and what is left then.
fn next_item(left: Left<'_>) -> Option<(Result<TextLine<'_>, TextFault>, Left<'_>)>
    requires number { left.number ≤ left.start }
    requires index { left.start + length left.rest.now < 2 ^ 63 }
    ensures number { IfSome result (λ x. x.1.number ≤ x.1.start) }
    ensures index { IfSome result (λ x. x.1.start + length x.1.rest.now < 2 ^ 63) }
    ensures item { MatchOption result (items_of left.entry ≡ [])
        (λ x. items_of left.entry ≡ item_of x.0 ∷ items_of x.1) }
{
    if left.rest.is_empty() {
        return None;
    }
    let (line, rest) = first_line(left.rest, left.number + 1, left.start);
    match bytes_fault(line.text) {
        Some(fault) => {
            let (_, rest) = left.rest.split_at(left.rest.len());
            let left = Left {
                rest,
                number: left.number,
                start: left.start,
            };
            Some((Err(fault), left))
        }
        None => {
            let left = Left {
                rest,
                number: left.number + 1,
                start: left.start + (left.rest.len() - rest.len()),
            };
            Some((Ok(line), left))
        }
    }
}

/// The first line, and the text after it.
pub fn first_line(text: &[u8], number: u64, start: usize) -> (TextLine<'_>, &[u8])
    requires { 0 < length text.now }
    ensures shorter { length result.1.now < length text.now }
    ensures line { lines_from number start text.now ≡ line_of result.0 ∷ lines_from
        (number + 1) (start + (length text.now - length result.1.now)) result.1.now }
{
    let index = lf_or_len(text);
    let (front, back) = text.split_at(index);
    match back.split_first() {
        Some((_, rest)) => {
            let line = TextLine {
                number,
                start,
                text: without_cr(front),
                finished: true,
            };
            (line, rest)
        }
        None => {
            let line = TextLine {
                number,
                start,
                text: front,
                finished: false,
            };
            (line, back)
        }
    }
}
