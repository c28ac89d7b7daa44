// Lines that come in pieces.
ghost use Rattle.std.specs.Prelude.{◌≡◌, ◌+◌, ◌-◌, ◌^◌, ◌<◌, ◌≤◌, ◌++◌, true, false, IfOk, IfErr, IfNone, IfSome, IsSome, [], length, vec_len, vec_capacity};
ghost use Rattle.tx_text.specs.inner.Feed.{feed_gives, feed_leaves, begun_more, feed_with_line, feed_with_fault, line_fault, finish_gives, finish_leaves, feed_at_end};
ghost use Rattle.tx_text.specs.Text.{without_cr};
ghost use Rattle.tx_text.specs.inner.TextLine.{line_of};

use crate::line::TextLine;
use crate::reader::{bytes_fault, lf_or_len, without_cr};
use crate::text_fault::TextFault;
use std::alloc::{Allocator, Global};
use std::marker::Model;

/// What a call of `feed` did: how many bytes of the piece it took, and whether it completed a line.
#[derive(Clone, Copy, PartialEq, Eq)]
pub struct Fed {
    pub taken: usize,
    pub line: bool,
}

/// Cuts a text that comes in pieces into lines.
#[derive(Drop)]
pub struct LineFeeder<A: Allocator = Global> {
    held: Vec<u8, A>,
    number: u64,
    start: usize,
    line_start: usize,
    complete: bool,
    finished: bool,
    fault: Option<TextFault>,
}

impl<A: Allocator> Model for LineFeeder<A> {
    ghost use Rattle.tx_text.specs.inner.Feed.{Feed};

    ghost Value = { Feed };

    ghost use Rattle.tx_text.specs.inner.Feeder.{feed_of, IsFeeder};

    ghost view = { feed_of };

    ghost invariant = { IsFeeder };
}

impl<A: Allocator> LineFeeder<A> {
    /// Reserves the buffer of a line. No other call takes memory. `Err` means out of memory, and
    /// nothing else.
    pub fn new(alloc: A) -> Result<LineFeeder<A>, TextFault>
        ensures ok { IfOk result
            (λ f. f ≡ record { number = 0; start = 0; begun = []; line = None; fault = None }) }
        ensures err { IfErr result (λ e. e ≡ TextFault.NoMemory) }
    {
        let Ok(held) = Vec::with_capacity(alloc, 513) else {
            return Err(TextFault::NoMemory);
        };
        Ok(LineFeeder {
            held,
            number: 0,
            start: 0,
            line_start: 0,
            complete: false,
            finished: false,
            fault: None,
        })
    }

    /// Counts a line that is whole elsewhere, of so many bytes and an LF, and returns where it
    /// starts. Where a line has begun here, or one was faulty, it does nothing.
    pub(crate) fn pass(&mut self, len: usize) -> Option<usize>
        requires { self.old.start + len + 1 < 2 ^ 64 - 1 }
        ensures start { IfSome result (λ start. start ≡ self.old.start) }
        ensures begun { IfSome result (λ start. self.old.begun ≡ []) }
        ensures fault { IfSome result (λ start. self.old.fault ≡ None) }
        ensures leaves { IfSome result (λ start. self.new ≡ record self.old
            { number = self.old.number + 1; start = self.old.start + len + 1; line = None }) }
        ensures same { IfNone result (self.new ≡ self.old) }
    {
        if self.fault.is_some() || !(self.complete || self.held.is_empty()) {
            return None;
        }
        self.begin();
        let start = self.start;
        self.number += 1;
        self.start += len + 1;
        Some(start)
    }

    /// How many lines are complete.
    pub(crate) fn number(&self) -> u64
        ensures number { result ≡ self.now.number }
        ensures small { result < 2 ^ 64 - 1 }
    {
        self.number
    }

    /// Drops the completed line.
    fn begin(&mut self)
        ensures { self.new ≡ record self.old { line = None } }
    {
        if self.complete {
            self.held.clear();
            self.complete = false;
        }
    }

    fn fail(&mut self, fault: TextFault)
        ensures { self.new ≡ feed_with_fault self.old fault }
    {
        self.held.clear();
        self.complete = false;
        self.fault = Some(fault);
    }

    /// Takes the bytes of a piece up to and with the first LF, or all of them. `Err`: the line
    /// is too long or has a bad byte.
    pub fn feed(&mut self, piece: &[u8]) -> Result<Fed, TextFault>
        requires { self.old.start + length self.old.begun + length piece.now < 2 ^ 64 - 1 }
        ensures gives { result ≡ feed_gives self.old piece.now }
        ensures leaves { self.new ≡ feed_leaves self.old piece.now }
        ensures counted { self.new.start + length self.new.begun
            ≤ self.old.start + length self.old.begun + length piece.now }
        ensures fits { IfOk result (λ fed. (fed.taken ≤ length piece.now) × (self.new.start + length
            self.new.begun ≤ self.old.start + length self.old.begun + fed.taken)) }
    {
        if let Some(fault) = self.fault {
            return Err(fault);
        }
        self.begin();
        let index = lf_or_len(piece);
        let line = index < piece.len();
        let (front, _) = piece.split_at(index);
        if let Some(fault) = self.add(front, line) {
            self.fail(fault);
            return Err(fault);
        }
        if line {
            self.complete_line();
            return Ok(Fed {
                taken: index + 1,
                line,
            });
        }
        Ok(Fed { taken: index, line })
    }

    /// Adds bytes to the line that has begun, and returns what is wrong with it then.
    #[tactic(auto, unfolding(crate::specs::Text::begun_fault))]
    fn add(&mut self, front: &[u8], line: bool) -> Option<TextFault>
        requires begun { self.old.line ≡ None }
        requires fed { self.old.start + length self.old.begun + length front.now < 2 ^ 64 - 1 }
        ensures gives { result ≡ line_fault line (self.old.begun ++ front.now) }
        ensures held { IfNone result (self.new ≡ begun_more self.old front.now) }
        ensures others { feed_with_fault self.new TextFault.BadByte
            ≡ feed_with_fault self.old TextFault.BadByte }
    {
        if !hold(&mut self.held, front) {
            return Some(TextFault::LineTooLong);
        }
        let bytes = without_cr(&self.held);
        if line {
            return bytes_fault(bytes);
        }
        if bytes.len() > 512 {
            return Some(TextFault::LineTooLong);
        }
        None
    }

    /// The text came to its end: returns whether there is an unfinished line, and completes it.
    /// `Err`: this line is too long or has a bad byte.
    pub fn finish(&mut self) -> Result<bool, TextFault>
        ensures gives { result ≡ finish_gives self.old }
        ensures leaves { self.new ≡ finish_leaves self.old }
    {
        if let Some(fault) = self.fault {
            return Err(fault);
        }
        self.begin();
        if self.held.is_empty() {
            return Ok(false);
        }
        if let Some(fault) = bytes_fault(&self.held) {
            self.fail(fault);
            return Err(fault);
        }
        self.complete = true;
        self.finished = false;
        self.number += 1;
        self.line_start = self.start;
        self.start += self.held.len();
        Ok(true)
    }

    /// The line that the last call of `feed` or `finish` completed.
    pub fn line(&self) -> TextLine<'_>
        requires { IsSome self.now.line }
        ensures line { self.now.line ≡ Some (line_of result) }
        ensures small { result.number < 2 ^ 64 - 1 }
    {
        TextLine {
            number: self.number,
            start: self.line_start,
            text: self.held.as_slice(),
            finished: self.finished,
        }
    }

    /// Completes the line that has begun, at an LF. A CR at its end goes.
    fn complete_line(&mut self)
        requires begun { self.old.line ≡ None }
        requires fed { self.old.start + length self.old.begun + 1 < 2 ^ 64 - 1 }
        ensures { self.new ≡ feed_with_line self.old [] }
    {
        self.complete = true;
        self.finished = true;
        self.number += 1;
        self.line_start = self.start;
        self.start += self.held.len() + 1;
        drop_cr(&mut self.held);
    }
}

/// Adds bytes to a line that has begun, and returns whether there is room for them. Else it is too
/// long, whatever bytes follow.
fn hold<A: Allocator>(held: &mut Vec<u8, A>, front: &[u8]) -> bool
    requires room { 513 ≤ vec_capacity held.old }
    requires short { vec_len held.old ≤ 513 }
    ensures room { 513 ≤ vec_capacity held.new }
    ensures short { vec_len held.new ≤ 513 }
    ensures grown { vec_len held.new ≤ vec_len held.old + length front.now }
    ensures full { result ≡ false → 513 < vec_len held.old + length front.now }
    ensures held { result ≡ true → held.new.items ≡ held.old.items ++ front.now }
{
    if front.len() > 513 - held.len() {
        return false;
    }
    if held.extend_from_slice(front).is_err() {
        unreachable!();
    }
    true
}

/// Takes the one CR at the end away, if there is one.
#[tactic(auto, using(crate::proofs::LineFaults::take_without_cr))]
fn drop_cr<A: Allocator>(held: &mut Vec<u8, A>)
    ensures room { vec_capacity held.new ≡ vec_capacity held.old }
    ensures items { held.new.items ≡ without_cr held.old.items }
{
    let len = without_cr(held).len();
    held.truncate(len);
}
