// Lines of a text that comes from a source, and the bytes of a line.
ghost use Rattle.std.specs.Prelude.{◌≡◌, ◌+◌, ◌-◌, ◌^◌, ◌<◌, ◌≤◌, ◌⊎◌, [], length, take, drop, true, false, IfOk, IfErr, IfSome, OnOk, OnErr, Ok, Err, IsSome, Some, None, ◌&&◌};
ghost use Rattle.std.specs.Io.KnownBytes.{prepend_known, IsAtEnd};
ghost use Rattle.std.specs.List.{list_all, position_or_len};
ghost use Rattle.tx_text.specs.Calls.{slice_calls, Gives, CallsAtMost, Broken};
ghost use Rattle.tx_text.specs.Text.{without_cr, bytes_fault, is_text_byte, is_lf};
ghost use Rattle.tx_text.specs.inner.TextLine.{line_of};
ghost use Rattle.tx_text.specs.inner.CallsLeft.{Went, Calls};
ghost use Rattle.tx_text.specs.inner.Feed.{feed_gives, finish_gives, finish_leaves, front_of, has_lf};
ghost use Rattle.tx_text.specs.inner.Reading.{Advances, IsFeed, reading_rest, reading_of_calls, reading_size, fed_on, has_line, ended_as};

use crate::feeder::LineFeeder;
use crate::frame::FrameFault;
use crate::line::TextLine;
use crate::source::Source;
use crate::text_fault::TextFault;
use memchr::memchr;
use std::alloc::{Allocator, Global};
use std::marker::Model;

/// The line without the one CR at its end, if there is one.
#[tactic(auto, unfolding(crate::specs::Text::without_cr))]
pub fn without_cr(line: &[u8]) -> &[u8]
    ensures { result.now ≡ without_cr line.now }
{
    let len = line.len();
    if len > 0 && line[len - 1] == b'\r' {
        line.split_at(len - 1).0
    } else {
        line
    }
}

/// Whether all these bytes are text, looked at several at a time where their number is fixed.
fn are_text(bytes: &[u8]) -> bool
    ensures { result ≡ list_all is_text_byte bytes.now }
{
    let mut all = true;
    for byte in bytes {
        all = all & (*byte == b'\t' || (b' ' <= *byte && *byte <= b'~'));
    }
    all
}

/// Whether all bytes of a line are text, looked at in blocks, of which the last two may overlap.
fn is_text(line: &[u8]) -> bool
    ensures { result ≡ list_all is_text_byte line.now }
{
    // Byte by byte, `codes` of the largest plan takes twice as long.
    let len = line.len();
    if len < 8 {
        return are_text(line);
    }
    if len < 16 {
        return are_text(&line[..8]) & are_text(&line[len - 8..]);
    }
    let mut done = 0;
    while done + 16 < len {
        if !are_text(&line[done..done + 16]) {
            return false;
        }
        done += 16;
    }
    are_text(&line[len - 16..])
}

/// What is wrong with the bytes of a line, given without its LF and the CR before it.
#[tactic(auto, unfolding(crate::specs::Text::bytes_fault))]
pub fn bytes_fault(line: &[u8]) -> Option<TextFault>
    ensures { result ≡ bytes_fault line.now }
{
    if line.len() > 512 {
        return Some(TextFault::LineTooLong);
    }
    if is_text(line) {
        return None;
    }
    Some(TextFault::BadByte)
}

/// Where the first LF is, or the length.
pub fn lf_or_len(piece: &[u8]) -> usize
    ensures within { result ≤ length piece.now }
    ensures index { result ≡ position_or_len is_lf piece.now }
{
    memchr(b'\n', piece).unwrap_or(piece.len())
}

/// Reads a text from a source, line by line. A line that is whole in the bytes that were read
/// is lent from there, and the feeder holds the others.
#[derive(Drop)]
pub(crate) struct TextReader<A: Allocator = Global> {
    feeder: LineFeeder<A>,
    piece: [u8; 4096],
    from: usize,
    to: usize,
    left: u64,
    lent: bool,
    lent_start: usize,
    lent_from: usize,
    lent_to: usize,
}

impl<A: Allocator> Model for TextReader<A> {
    ghost use Rattle.tx_text.specs.inner.Reading.{Reading};

    ghost Value = { Reading };

    ghost use Rattle.tx_text.specs.inner.Reader.{reading_of, IsReader};

    ghost view = { reading_of };

    ghost invariant = { IsReader };
}

impl<A: Allocator> TextReader<A> {
    /// A reader that has read nothing yet, and may call its source so often, each time for at most
    /// 4,096 bytes. `Err` means out of memory, and nothing else.
    pub fn new(alloc: A, left: u64) -> Result<TextReader<A>, TextFault>
        requires { left ≤ slice_calls }
        ensures ok { IfOk result (λ r. r ≡ reading_of_calls left) }
        ensures err { IfErr result (λ e. e ≡ TextFault.NoMemory) }
    {
        let feeder = LineFeeder::new(alloc)?;
        Ok(TextReader {
            feeder,
            piece: [0; 4096],
            from: 0,
            to: 0,
            left,
            lent: false,
            lent_start: 0,
            lent_from: 0,
            lent_to: 0,
        })
    }

    /// Feeds the bytes that were read, and returns whether that completed a line.
    fn feed(&mut self) -> Result<bool, FrameFault>
        ensures known { IsFeed self.old.feed }
        ensures known_after { IsFeed self.new.feed }
        ensures gives { result ≡ has_line (feed_gives self.old.feed self.old.piece) }
        ensures leaves { self.new ≡ fed_on self.old }
    {
        if self.lend() {
            return Ok(true);
        }
        self.lent = false;
        let fed = self.feeder.feed(part(&self.piece, self.from, self.to))?;
        self.from += fed.taken;
        Ok(fed.line)
    }

    /// Lends the first line of the bytes that were read, and says so, where it is whole there
    /// and is right.
    fn lend(&mut self) -> bool
        ensures known { IsFeed self.old.feed }
        ensures known_after { IsFeed self.new.feed }
        ensures leaves { result ≡ true → self.new ≡ fed_on self.old }
        ensures gives { result ≡ true
            → has_line (feed_gives self.old.feed self.old.piece) ≡ Ok true }
        ensures same { result ≡ false → self.new ≡ self.old }
    {
        let Some((len, shown)) = whole_line(part(&self.piece, self.from, self.to)) else {
            return false;
        };
        match self.feeder.pass(len) {
            Some(start) => {
                self.lent_start = start;
                self.lent_from = self.from;
                self.lent_to = self.from + shown;
                self.from += len + 1;
                self.lent = true;
                true
            }
            None => false,
        }
    }

    /// Goes on to the next line of the source's text, and returns whether there is one. `Err` is a
    /// line that is too long or has a bad byte, or that the source failed or was not at its end
    /// after so many calls.
    pub fn advance<R: Source>(&mut self, source: &mut R) -> Result<bool, FrameFault>
        requires { self.old.feed.fault ≡ None }
        ensures fault { IfOk result (λ _. self.new.feed.fault ≡ None) }
        ensures gives { Advances (R.rest source.old) (R.rest source.new)
            (reading_rest self.old) (reading_rest self.new) self.new.feed.line
            (Broken R.called (R.failed source.new) self.old.left source.old source.new) result }
        ensures went { result ≡ Ok true → IfSome self.new.feed.line (λ l. l.finished ≡ true
            → Went R.called self.old.left self.new.left source.old source.new) }
        ensures calls { CallsAtMost R.called self.old.left source.old source.new }
        ensures unmarked { OnOk result (R.failed source.new ≡ R.failed source.old) }
        ensures falls { IfOk result (λ b. b ≡ true
            → reading_size self.new < reading_size self.old) }
    {
        'pieces: loop {
            if self.feed()? {
                return Ok(true);
            }
            if self.left == 0 {
                return Err(FrameFault::Read);
            }
            if !self.fill(source)? {
                return self.finish();
            }
        }
    }

    /// The text came to its end.
    fn finish(&mut self) -> Result<bool, FrameFault>
        requires { self.old.piece ≡ [] }
        ensures gives { result ≡ ended_as (finish_gives self.old.feed) }
        ensures leaves { self.new ≡ record self.old { feed = finish_leaves self.old.feed } }
    {
        self.lent = false;
        Ok(self.feeder.finish()?)
    }

    /// The line that the last call of `advance` gave.
    pub fn line(&self) -> TextLine<'_>
        requires { IsSome self.now.feed.line }
        ensures line { self.now.feed.line ≡ Some (line_of result) }
        ensures small { result.number < 2 ^ 64 - 1 }
    {
        if self.lent {
            TextLine {
                number: self.feeder.number(),
                start: self.lent_start,
                text: part(&self.piece, self.lent_from, self.lent_to),
                finished: true,
            }
        } else {
            self.feeder.line()
        }
    }

    /// Reads the next piece, and returns whether it has any byte.
    fn fill<R: Source>(&mut self, source: &mut R) -> Result<bool, FrameFault>
        requires fed { self.old.piece ≡ [] }
        requires line { self.old.feed.line ≡ None }
        requires left { 0 < self.old.left }
        ensures feed { self.new.feed ≡ self.old.feed }
        ensures left { self.new.left + 1 ≡ self.old.left }
        ensures short { length self.new.piece ≤ 4096 }
        ensures bytes { R.rest source.old ≡ prepend_known self.new.piece (R.rest source.new) }
        ensures end { result ≡ Ok false → (self.new.piece ≡ []) × IsAtEnd (R.rest source.new) }
        ensures gave { result ≡ Ok true → Gives R.called source.old source.new }
        ensures call { Calls R.called source.old source.new }
        ensures unmarked { OnOk result (R.failed source.new ≡ R.failed source.old) }
        ensures err { IfErr result (λ e. (e ≡ FrameFault.Read)
            × (self.new.piece ≡ []) × (R.failed source.new ≡ true)) }
    {
        self.left -= 1;
        self.from = 0;
        self.to = 0;
        match source.read(&mut self.piece) {
            Ok(n) => {
                self.to = n;
                Ok(n > 0)
            }
            Err(_) => Err(FrameFault::Read),
        }
    }
}

/// The bytes from one index up to another.
fn part(piece: &[u8], from: usize, to: usize) -> &[u8]
    requires order { from ≤ to }
    requires within { to ≤ length piece.now }
    ensures { result.now ≡ take (to - from) (drop from piece.now) }
{
    &piece[from..to]
}

/// How many bytes the first line of a piece has before its LF, and how many without the CR before
/// it, where the line is whole there and is right.
fn whole_line(piece: &[u8]) -> Option<(usize, usize)>
    ensures lf { IfSome result (λ line. has_lf piece.now ≡ true) }
    ensures len { IfSome result (λ line. line.0 ≡ length (front_of piece.now)) }
    ensures within { IfSome result (λ line. line.0 < length piece.now) }
    ensures shown { IfSome result (λ line. line.1 ≡ length (without_cr (front_of piece.now))) }
    ensures short { IfSome result (λ line. line.1 ≤ line.0) }
    ensures right { IfSome result (λ line. bytes_fault (without_cr (front_of piece.now)) ≡ None) }
{
    let len = lf_or_len(piece);
    if len == piece.len() {
        return None;
    }
    let line = without_cr(&piece[..len]);
    match bytes_fault(line) {
        Some(_) => None,
        None => Some((len, line.len())),
    }
}
