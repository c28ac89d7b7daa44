// The ranking pass: a current walk that grows and shrinks at its end.
ghost use Rattle.std.specs.Prelude.{◌≡◌, ◌<◌, ◌+◌, ◌++◌, ◌∷◌, [], List, length, true, false, None, Some, IfOk, slice_get};
ghost use Rattle.tx_rank.specs.Walks.{end_of, IsLoop};
ghost use Rattle.tx_rank.specs.Nets.{IsNet};
ghost use Rattle.tx_rank.specs.declared.list_scan.Tried.{Tried};
ghost use Rattle.tx_rank.specs.inner.Marks.{IsMarked, IsInHand, IsTrail, IsOnward, IsTop, IsAdvanced, IsEnd, NoneOpen, IsPassing, IsPassed, rank_in};

use crate::list_scan::{Look, Tried, look_on, rank_at, untried};
use crate::mark::Mark;
use crate::routes::CodeNet;
use crate::walk::{Walk, end};
use std::alloc::Allocator;
use tx_plan::{ExchangeId, GroupId};
use tx_text::NoMemory;

/// The current walk goes on, all walks from its start are ranked, or it is a loop.
#[derive(Clone, Copy)]
pub enum Progress {
    More,
    Done,
    Closed,
}

/// The current walk, what was tried of the lists of its exchanges before the last and of the last
/// one's, and the marks of all exchanges.
pub struct Search<'a, A: Allocator> {
    pub start: ExchangeId,
    pub steps: Vec<(GroupId, ExchangeId), A>,
    pub before: Vec<Tried<'a>, A>,
    pub last: Tried<'a>,
    pub marks: Vec<Mark, A>,
}

impl<A: Allocator> Drop for Search<'_, A> {
    fn drop(self) {
        let Self {
            start: _,
            steps,
            before,
            last: _,
            marks,
        } = self;
        drop(steps);
        drop(before);
        drop(marks);
    }
}

/// The marks before a pass: the home is ranked 0.
pub fn unseen<'a, A: Allocator + Copy, N: CodeNet>(
    alloc: A,
    net: &'a N,
) -> Result<Search<'a, A>, NoMemory>
    ensures marked { IfOk result (λ s. IsMarked (N.net net.now) s.marks.items) }
    ensures none { IfOk result (λ s. NoneOpen s.marks.items) }
{
    let home = net.home();
    let mut marks = vec![in alloc; Mark::Unseen; net.exchanges()]?;
    marks[home.index()] = Mark::Ranked(0);
    Ok(Search {
        start: home,
        steps: Vec::new(alloc),
        before: Vec::new(alloc),
        last: untried(net, home),
        marks,
    })
}

impl<A: Allocator> Search<'_, A> {
    /// The current walk.
    pub fn into_walk(self) -> Walk<A>
        ensures { result ≡ record { start = self.entry.start; steps = self.entry.steps.items } }
    {
        let Self {
            start,
            steps,
            before,
            last: _,
            marks,
        } = self;
        drop(before);
        drop(marks);
        Walk { start, steps }
    }
}

/// Whether an exchange is on the current walk.
fn is_open(marks: &[Mark], exchange: ExchangeId) -> bool
    requires { exchange < length marks.now }
    ensures open { result ≡ true → slice_get marks.now exchange ≡ Some (Mark.Open) }
    ensures unseen { result ≡ false → rank_in marks.now exchange ≡ None
        → slice_get marks.now exchange ≡ Some (Mark.Unseen) }
{
    match marks[exchange.index()] {
        Mark::Open => true,
        _ => false,
    }
}

/// The current walk goes one step on.
fn go_on<'a, A: Allocator, N: CodeNet>(
    net: &'a N,
    search: &mut Search<'a, A>,
    group: GroupId,
    to: ExchangeId,
) -> Result<Progress, NoMemory>
    requires marked { IsMarked (N.net net.now) search.old.marks.items }
    requires hand { IsInHand (N.net net.now) search.old.marks.items
        search.old.start search.old.steps.items }
    requires tried { IsTrail (N.net net.now) search.old.marks.items
        search.old.start search.old.steps.items search.old.before.items search.old.last }
    requires onward { IsOnward (N.net net.now) search.old.marks.items
        (end_of search.old.start search.old.steps.items) (group, to) }
    ensures start { search.new.start ≡ search.old.start }
    ensures ok { IfOk result (λ p. IsAdvanced (N.net net.now)
        search.old.start p search.old.marks.items search.new.marks.items search.new.steps.items) }
    ensures tried { IfOk result (λ p. p ≡ Progress.More
        → IsTrail (N.net net.now) search.new.marks.items
        search.old.start search.new.steps.items search.new.before.items search.new.last) }
{
    search.steps.push((group, to))?;
    if is_open(&search.marks, to) {
        return Ok(Progress::Closed);
    }
    search.before.push(search.last)?;
    search.last = untried(net, to);
    search.marks[to.index()] = Mark::Open;
    Ok(Progress::More)
}

/// Takes the last one away, if there is one.
fn take_last<'a, A: Allocator>(before: &mut Vec<Tried<'a>, A>, none: Tried<'a>) -> Tried<'a>
    ensures others { (front : List Tried) (last : Tried)
        → before.old.items ≡ front ++ last ∷ [] → before.new.items ≡ front }
    ensures last { (front : List Tried) (last : Tried)
        → before.old.items ≡ front ++ last ∷ [] → result ≡ last }
{
    match before.pop() {
        Some(last) => last,
        None => none,
    }
}

/// The last exchange of the current walk is ranked.
fn settle<'a, A: Allocator, N: CodeNet>(
    net: &'a N,
    search: &mut Search<'a, A>,
    exchange: ExchangeId,
    top: u16,
) -> Progress
    requires net { IsNet (N.net net.now) }
    requires marked { IsMarked (N.net net.now) search.old.marks.items }
    requires hand { IsInHand (N.net net.now) search.old.marks.items
        search.old.start search.old.steps.items }
    requires tried { IsTrail (N.net net.now) search.old.marks.items
        search.old.start search.old.steps.items search.old.before.items search.old.last }
    requires end { exchange ≡ end_of search.old.start search.old.steps.items }
    requires top { IsTop (N.net net.now) search.old.marks.items exchange
        ((N.net net.now).list exchange) top }
    ensures start { search.new.start ≡ search.old.start }
    ensures ok { IsAdvanced (N.net net.now) search.old.start
        result search.old.marks.items search.new.marks.items search.new.steps.items }
    ensures tried { result ≡ Progress.More → IsTrail (N.net net.now) search.new.marks.items
        search.old.start search.new.steps.items search.new.before.items search.new.last }
{
    search.marks[exchange.index()] = Mark::Ranked(top + 1);
    search.last = take_last(&mut search.before, search.last);
    match search.steps.pop() {
        Some(_) => Progress::More,
        None => Progress::Done,
    }
}

/// A turn of the pass: it opens an exchange, or ranks one.
fn advance<'a, A: Allocator, N: CodeNet>(
    net: &'a N,
    search: &mut Search<'a, A>,
) -> Result<Progress, NoMemory>
    requires marked { IsMarked (N.net net.now) search.old.marks.items }
    requires hand { IsInHand (N.net net.now) search.old.marks.items
        search.old.start search.old.steps.items }
    requires tried { IsTrail (N.net net.now) search.old.marks.items
        search.old.start search.old.steps.items search.old.before.items search.old.last }
    ensures start { search.new.start ≡ search.old.start }
    ensures ok { IfOk result (λ p. IsAdvanced (N.net net.now)
        search.old.start p search.old.marks.items search.new.marks.items search.new.steps.items) }
    ensures tried { IfOk result (λ p. p ≡ Progress.More
        → IsTrail (N.net net.now) search.new.marks.items
        search.old.start search.new.steps.items search.new.before.items search.new.last) }
{
    let exchange = end(search.start, &search.steps);
    match look_on(net, &search.marks, exchange, &mut search.last) {
        Look::Onward(group, to) => go_on(net, search, group, to),
        Look::Settled(top) => Ok(settle(net, search, exchange, top)),
    }
}

/// Goes over all walks that go on from the current walk: true if one of them is a loop, which is
/// then in hand.
fn explore<'a, A: Allocator, N: CodeNet>(
    net: &'a N,
    search: &mut Search<'a, A>,
) -> Result<bool, NoMemory>
    requires marked { IsMarked (N.net net.now) search.old.marks.items }
    requires hand { IsInHand (N.net net.now) search.old.marks.items
        search.old.start search.old.steps.items }
    requires tried { IsTrail (N.net net.now) search.old.marks.items
        search.old.start search.old.steps.items search.old.before.items search.old.last }
    ensures start { search.new.start ≡ search.old.start }
    ensures closed { IfOk result (λ closed. closed ≡ true
        → IsLoop (N.net net.now) search.new.start search.new.steps.items) }
    ensures done { IfOk result (λ closed. closed ≡ false
        → IsEnd (N.net net.now) search.new.start search.old.marks.items search.new.marks.items) }
{
    loop {
        match advance(net, search)? {
            Progress::More => {}
            Progress::Done => return Ok(false),
            Progress::Closed => return Ok(true),
        }
    }
}

/// Goes over all walks from an origin that was not seen.
fn start_at<'a, A: Allocator, N: CodeNet>(
    net: &'a N,
    search: &mut Search<'a, A>,
    origin: ExchangeId,
) -> Result<bool, NoMemory>
    requires origin { (N.net net.now).is_origin origin ≡ true }
    requires marked { IsMarked (N.net net.now) search.old.marks.items }
    requires none { NoneOpen search.old.marks.items }
    requires unseen { rank_in search.old.marks.items origin ≡ None }
    ensures closed { IfOk result (λ closed. closed ≡ true
        → IsLoop (N.net net.now) search.new.start search.new.steps.items) }
    ensures done { IfOk result (λ closed. closed ≡ false
        → IsEnd (N.net net.now) origin search.old.marks.items search.new.marks.items) }
{
    search.start = origin;
    search.steps.clear();
    search.before.clear();
    search.last = untried(net, origin);
    search.marks[origin.index()] = Mark::Open;
    explore(net, search)
}

/// Goes over all walks from the exchange at an index.
fn start_from<'a, A: Allocator, N: CodeNet>(
    net: &'a N,
    search: &mut Search<'a, A>,
    index: usize,
) -> Result<bool, NoMemory>
    requires index { index < (N.net net.now).exchanges }
    requires passing { IsPassing (N.net net.now) search.old.marks.items index }
    ensures closed { IfOk result (λ closed. closed ≡ true
        → IsLoop (N.net net.now) search.new.start search.new.steps.items) }
    ensures done { IfOk result (λ closed. closed ≡ false
        → IsPassing (N.net net.now) search.new.marks.items (index + 1)) }
{
    let origin = net.exchange(index);
    match rank_at(&search.marks, origin) {
        Some(_) => Ok(false),
        None => {
            if net.is_origin(origin) {
                start_at(net, search, origin)
            } else {
                Ok(false)
            }
        }
    }
}

/// Goes over all walks: true if one is a loop, which is then in hand. Each exchange is opened once
/// and ranked once, however many walks pass it.
pub fn pass<'a, A: Allocator, N: CodeNet>(
    net: &'a N,
    search: &mut Search<'a, A>,
) -> Result<bool, NoMemory>
    requires marked { IsMarked (N.net net.now) search.old.marks.items }
    requires none { NoneOpen search.old.marks.items }
    ensures closed { IfOk result (λ closed. closed ≡ true
        → IsLoop (N.net net.now) search.new.start search.new.steps.items) }
    ensures done { IfOk result (λ closed. closed ≡ false
        → IsPassed (N.net net.now) search.new.marks.items) }
{
    for index in 0..net.exchanges() {
        if start_from(net, search, index)? {
            return Ok(true);
        }
    }
    Ok(false)
}
