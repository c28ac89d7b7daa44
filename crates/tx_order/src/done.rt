// The reader of texts that say what of a stage is switched already.
ghost use Rattle.std.specs.Prelude.{◌≡◌, []};
ghost use Rattle.std.specs.Result.{result_map_both};
ghost use Rattle.tx_text.specs.Calls.{CallsAtMost, source_calls};
ghost use Rattle.tx_text.specs.Ends.{input};
ghost use Rattle.tx_text.specs.Said.{told_fault};
ghost use Rattle.tx_order.specs.DoneText.{switches, pair_if, pair_said, word_row, fault_row, ReadsDone};

use crate::orders::Order;
use std::alloc::Allocator;
use std::marker::Model;
use tx_plan::Pair;
use tx_text::{Declares, FaultAt, FaultKind, Source, Words, read_text};

/// What is wrong with the words of a line. Of several the first in this order is reported.
#[derive(Clone, Copy, Debug, PartialEq, Eq)]
pub enum DoneWord {
    /// D1: not an exchange and a code.
    WrongCount,
    /// D2: the plans have no such exchange or code.
    UnknownName,
    /// D3: neither the stage nor one before it switches the list or the bar.
    NotSwitched,
    /// D7: no memory was left.
    NoMemory,
}

/// What is wrong with such a text, and the line of it, counted from 1.
pub type DoneFault = FaultAt<DoneWord>;

/// The code and the name of a fault, as `D3` and `NotSwitched`.
pub fn code_and_name(kind: FaultKind<DoneWord>) -> (&'static [u8], &'static [u8])
    ensures { (result.0.now, result.1.now) ≡ fault_row kind }
{
    match kind {
        FaultKind::Frame(fault) => fault.code_and_name(b"D4", b"D5", b"D6", b"D8"),
        FaultKind::Word(word) => word_row(word),
    }
}

fn word_row(word: DoneWord) -> (&'static [u8], &'static [u8])
    ensures { (result.0.now, result.1.now) ≡ word_row word }
{
    match word {
        DoneWord::WrongCount => (b"D1", b"WrongCount"),
        DoneWord::UnknownName => (b"D2", b"UnknownName"),
        DoneWord::NotSwitched => (b"D3", b"NotSwitched"),
        DoneWord::NoMemory => (b"D7", b"NoMemory"),
    }
}

/// Whether the stages up to this one switch the list or the bar of an exchange for a code.
fn switches<A: Allocator>(order: &Order<A>, stage: usize, pair: &Pair) -> bool
    ensures { result ≡ switches order.now stage pair.now }
{
    let (exchange, code) = (pair.exchange, pair.code);
    let barred = order.is_barred(0, exchange, code);
    order.list(0, exchange, code) != order.list(stage, exchange, code)
        || barred != order.is_barred(stage, exchange, code)
}

/// The exchange and the code that the words of a line name.
fn pair_said<A: Allocator>(
    order: &Order<A>,
    stage: usize,
    words: Words<'_>,
) -> Result<Pair, DoneWord>
    ensures { result ≡ pair_said order.now stage words.entry }
{
    match words.two() {
        Some((exchange, code)) => {
            pair_if(order, stage, order.old_plan().pair_named(exchange, code))
        }
        None => Err(DoneWord::WrongCount),
    }
}

/// A pair that has a name, if the stages up to this one switch it.
fn pair_if<A: Allocator>(
    order: &Order<A>,
    stage: usize,
    pair: Option<Pair>,
) -> Result<Pair, DoneWord>
    ensures { result ≡ pair_if order.now stage pair }
{
    match pair {
        Some(pair) => {
            if switches(order, stage, &pair) {
                Ok(pair)
            } else {
                Err(DoneWord::NotSwitched)
            }
        }
        None => Err(DoneWord::UnknownName),
    }
}

/// A stage of an order, and the pairs that the lines of a text said so far.
#[derive(Drop)]
struct DoneLines<'o, A: Allocator> {
    order: &'o Order<A>,
    stage: usize,
    pairs: Vec<Pair, A>,
}

impl<'o, A: Allocator> Model for DoneLines<'o, A> {
    ghost use Rattle.std.specs.Coded.{codes};
    ghost use Rattle.std.specs.Prelude.{ℕ, List};
    ghost use Rattle.tx_cert.specs.inner.Table.{certificate_code};
    ghost use Rattle.tx_plan.specs.declared.ids.Pair.{Pair};
    ghost use Rattle.tx_order.specs.Ordered.{Order};

    ghost Value = { (Order × ℕ) × List Pair };

    ghost coded = { Prim.hlevel (codes, certificate_code) };

    ghost view = { λ lines. ((lines.order.now, lines.stage), lines.pairs.items) };
}

impl<'o, A: Allocator> DoneLines<'o, A> {
    /// No pairs yet.
    fn new(alloc: A, order: &'o Order<A>, stage: usize) -> DoneLines<'o, A>
        ensures { result ≡ ((order.now, stage), []) }
    {
        DoneLines {
            order,
            stage,
            pairs: Vec::new(alloc),
        }
    }

    /// The pairs.
    fn finish(self) -> Vec<Pair, A>
        ensures { result.items ≡ self.entry.1 }
    {
        self.pairs
    }
}

impl<'o, A: Allocator> Declares for DoneLines<'o, A> {
    ghost use Rattle.tx_text.specs.inner.Beside.{beside};
    ghost use Rattle.tx_order.specs.DoneText.{declare, is_memory};

    type Word = DoneWord;

    ghost declares = { beside declare };

    ghost is_memory = { is_memory };

    fn declare(&mut self, _version: u8, words: Words<'_>) -> Result<(), DoneWord> {
        let pair = pair_said(self.order, self.stage, words)?;
        match self.pairs.push(pair) {
            Ok(()) => Ok(()),
            Err(_) => Err(DoneWord::NoMemory),
        }
    }
}

/// Reads what the stages of an order up to this one have switched already from a source, to its end,
/// in pieces of any size and by at most 4,294,967,295 calls. `Err` is the first fault, with its
/// line. A fault before the end is one whatever bytes follow.
pub fn read_done<R: Source, A: Allocator + Copy>(
    alloc: A,
    source: &mut R,
    order: &Order<A>,
    stage: u8,
) -> Result<Vec<Pair, A>, DoneFault>
    ensures answer { ReadsDone order.now stage
        (input R.rest R.failed R.called source.old source.new)
        (result_map_both (λ v. v.items) (λ x. x) (told_fault result)) }
    ensures calls { CallsAtMost R.called source_calls source.old source.new }
{
    let start = DoneLines::new(alloc, order, usize::from(stage));
    let lines = read_text(alloc, b"DONE", 1, start, source)?;
    Ok(lines.finish())
}
