// Walks of too many steps.
ghost use Rattle.std.specs.Prelude.{◌≡◌, ◌≢◌, ◌<◌, length, true, false, Some, IfOk};
ghost use Rattle.tx_rank.specs.Walks.{IsWalk, end_of};
ghost use Rattle.tx_rank.specs.inner.Marks.{IsPassed, IsLower, rank_in};
ghost use Rattle.tx_rank.specs.inner.Judged.{IsLongFrom, IsLongFound};

use crate::list_scan::{onward, rank_at};
use crate::mark::Mark;
use crate::routes::CodeNet;
use crate::walk::Walk;
use std::alloc::Allocator;
use tx_plan::{ExchangeId, GroupId};
use tx_text::NoMemory;

/// Whether an exchange has this rank.
fn has_rank(marks: &[Mark], exchange: ExchangeId, rank: u16) -> bool
    requires { exchange < length marks.now }
    ensures yes { result ≡ true → rank_in marks.now exchange ≡ Some rank }
    ensures not_so { result ≡ false → rank_in marks.now exchange ≡ Some rank → ⊥ }
{
    match rank_at(marks, exchange) {
        Some(other) => other == rank,
        None => false,
    }
}

/// The first group that leads to this rank.
fn lower<N: CodeNet>(
    net: &N,
    marks: &[Mark],
    exchange: ExchangeId,
    rank: u16,
) -> Option<(GroupId, ExchangeId)>
    requires { length marks.now ≡ (N.net net.now).exchanges }
    ensures { IsLower (N.net net.now) (rank_in marks.now) exchange
        ((N.net net.now).list exchange) rank result }
{
    let list = net.list(exchange);
    for i in 0..list.len() {
        let (group, to) = onward(net, exchange, list, i);
        if has_rank(marks, to, rank) {
            return Some((group, to));
        }
    }
    None
}

/// A walk of this many steps from an origin that is ranked higher.
fn walk_down<A: Allocator + Copy, N: CodeNet>(
    alloc: A,
    net: &N,
    marks: &[Mark],
    origin: ExchangeId,
    rank: u16,
    count: u16,
) -> Result<Walk<A>, NoMemory>
    requires passed { IsPassed (N.net net.now) marks.now }
    requires origin { (N.net net.now).is_origin origin ≡ true }
    requires ranked { rank_in marks.now origin ≡ Some rank }
    requires high { count < rank }
    ensures walk { IfOk result (λ w. IsWalk (N.net net.now) w.start w.steps) }
    ensures count { IfOk result (λ w. length w.steps ≡ count) }
    ensures end { IfOk result (λ w. end_of w.start w.steps ≢ (N.net net.now).home) }
{
    let mut steps = Vec::new(alloc);
    let mut at = origin;
    for i in 0..count {
        match lower(net, marks, at, rank - i - 1) {
            Some(step) => {
                steps.push((step.0, step.1))?;
                at = step.1;
            }
            None => unreachable!(),
        }
    }
    Ok(Walk {
        start: origin,
        steps,
    })
}

/// A long walk from the exchange at an index, if there is one.
fn long_from<A: Allocator + Copy, N: CodeNet>(
    alloc: A,
    net: &N,
    marks: &[Mark],
    index: usize,
    limit: u8,
) -> Result<Option<Walk<A>>, NoMemory>
    requires index { index < (N.net net.now).exchanges }
    requires passed { IsPassed (N.net net.now) marks.now }
    ensures { IfOk result (IsLongFrom (N.net net.now) (rank_in marks.now) limit index) }
{
    let exchange = net.exchange(index);
    let count = u16::from(limit) + 1;
    match rank_at(marks, exchange) {
        Some(rank) if rank > count => {
            if net.is_origin(exchange) {
                Ok(Some(walk_down(alloc, net, marks, exchange, rank, count)?))
            } else {
                Ok(None)
            }
        }
        _ => Ok(None),
    }
}

/// A long walk, if there is one.
pub fn long_walk<A: Allocator + Copy, N: CodeNet>(
    alloc: A,
    net: &N,
    marks: &[Mark],
    limit: u8,
) -> Result<Option<Walk<A>>, NoMemory>
    requires { IsPassed (N.net net.now) marks.now }
    ensures { IfOk result (IsLongFound (N.net net.now) (rank_in marks.now) limit) }
{
    for index in 0..net.exchanges() {
        let found = long_from(alloc, net, marks, index, limit)?;
        if found.is_some() {
            return Ok(found);
        }
    }
    Ok(None)
}
