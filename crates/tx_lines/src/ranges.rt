// The ranges of a plan, in order.
ghost use Rattle.std.specs.Prelude.{◌≡◌, ◌≤◌, ◌<◌, ◌&&◌, ◌==◌, IfOk, IsPermutation, length, ◌^◌};
ghost use Rattle.std.specs.List.{list_any, AllWithin};
ghost use Rattle.std.specs.Ordering.{is_le};
ghost use Rattle.tx_plan.specs.Lines.{at_most, in_range};
ghost use Rattle.tx_lines.specs.inner.Ordered.{key_cmp, start_of, IsInOrder, IsStart, AreFirsts};

use std::alloc::{Allocator, Global};
use std::cmp::Ordering;
use std::marker::Model;
use tx_plan::{CodeId, LineRange, Plan};
use tx_text::NoMemory;

/// Ranges in order of code, width and low end, no two of which share a number; and for each code
/// where its own begin.
pub struct Ranges<A: Allocator = Global> {
    ranges: Vec<LineRange, A>,
    firsts: Vec<usize, A>,
}

impl<A: Allocator> Drop for Ranges<A> {
    fn drop(self) {
        let Self { ranges, firsts } = self;
        drop(ranges);
        drop(firsts);
    }
}

impl<A: Allocator> Model for Ranges<A> {
    ghost use Rattle.std.specs.Prelude.{List};
    ghost use Rattle.tx_plan.specs.declared.range.LineRange.{LineRange};
    ghost use Rattle.tx_lines.specs.inner.Ordered.{IsInOrder, AreFirsts};

    ghost Value = { List LineRange };

    ghost view = { λ t. t.ranges.items };

    ghost invariant = { λ t. IsInOrder t.ranges.items × AreFirsts t.ranges.items t.firsts.items };
}

impl<A: Allocator + Copy> Ranges<A> {
    /// The ranges of a plan.
    pub fn build(alloc: A, plan: &Plan<A>) -> Result<Self, NoMemory>
        ensures { IfOk result (λ r. IsPermutation plan.now.ranges r) }
    {
        let mut ranges = Vec::with_capacity(alloc, plan.ranges())?;
        for index in 0..plan.ranges() {
            ranges.push_reserved(plan.range_at(index).unwrap());
        }
        ranges.sort_unstable_by(|a, b| compare_starts(a, b));
        let firsts = firsts_of(alloc, &ranges, plan.codes())?;
        Ok(Ranges { ranges, firsts })
    }
}

impl<A: Allocator> Ranges<A> {
    /// Whether a number lies in a range of the code.
    pub fn has(&self, code: CodeId, number: &[u8]) -> bool
        ensures { result ≡ list_any (λ r. (r.code == code) && in_range number.now r) self.now }
    {
        let (first, end) = self.indexes(code);
        let after = starting_by(&self.ranges, code, number, first, end);
        if after == 0 {
            return false;
        }
        let range = &self.ranges[after - 1];
        reaches(range, code, number)
    }

    /// From which index and up to which the ranges of the code are; all indexes for a code that the
    /// plan does not have.
    fn indexes(&self, code: CodeId) -> (usize, usize)
        ensures order { result.0 ≤ result.1 }
        ensures within { result.1 ≤ length self.now }
        ensures before { AllWithin (λ r. r.code < code) self.now 0 result.0 }
        ensures behind { AllWithin (λ r. code < r.code) self.now result.1 (length self.now) }
    {
        let index = code.index();
        if index + 1 < self.firsts.len() {
            (self.firsts[index], self.firsts[index + 1])
        } else {
            (0, self.ranges.len())
        }
    }
}

/// For each of so many codes, and for the next number, how many ranges are of codes before it.
fn firsts_of<A: Allocator>(
    alloc: A,
    ranges: &[LineRange],
    codes: usize,
) -> Result<Vec<usize, A>, NoMemory>
    requires order { IsInOrder ranges.now }
    requires few { codes < 2 ^ 16 }
    ensures { IfOk result (λ firsts. AreFirsts ranges.now firsts.items) }
{
    let mut firsts = Vec::with_capacity(alloc, codes + 1)?;
    for code in 0..codes + 1 {
        firsts.push_reserved(ranges.partition_point(|range| range.code.index() < code));
    }
    Ok(firsts)
}

fn compare(code: CodeId, low: &[u8], other: CodeId, number: &[u8]) -> Ordering
    ensures { result ≡ key_cmp (code, low.now) (other, number.now) }
{
    code.index()
        .cmp(&other.index())
        .then(low.len().cmp(&number.len()).then(low.cmp(number)))
}

fn compare_starts(a: &LineRange, b: &LineRange) -> Ordering
    ensures { result ≡ key_cmp (start_of a.now) (start_of b.now) }
{
    compare(a.code, a.low.bytes(), b.code, b.low.bytes())
}

/// How many ranges start at the number of the code or before it, where those of the code are from
/// one index and up to another.
fn starting_by(ranges: &[LineRange], code: CodeId, number: &[u8], first: usize, end: usize) -> usize
    requires order { IsInOrder ranges.now }
    requires rising { first ≤ end }
    requires within { end ≤ length ranges.now }
    requires before { AllWithin (λ r. r.code < code) ranges.now 0 first }
    requires behind { AllWithin (λ r. code < r.code) ranges.now end (length ranges.now) }
    ensures { IsStart ranges.now code number.now result }
{
    let own = &ranges[first..end];
    let after = own.partition_point(|range| starts_by(range, code, number));
    first + after
}

/// Whether the range starts at the number of the code or before it.
fn starts_by(range: &LineRange, code: CodeId, number: &[u8]) -> bool
    ensures { result ≡ is_le (key_cmp (start_of range.now) (code, number.now)) }
{
    compare(range.code, range.low.bytes(), code, number).is_le()
}

/// Whether a number that does not lie before the range lies in it, and the range is of the code.
fn reaches(range: &LineRange, code: CodeId, number: &[u8]) -> bool
    ensures { result ≡ ((range.now.code == code)
        && ((length number.now == length range.now.low) && at_most number.now range.now.high)) }
{
    range.code == code
        && number.len() == range.low.bytes().len()
        && number.cmp(range.high.bytes()).is_le()
}
