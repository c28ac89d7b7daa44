// Walks to exchanges with too few groups in their lists.
ghost use Rattle.std.specs.Prelude.{◌≡◌, ◌≢◌, ◌<◌, ◌+◌, ℕ, List, length, slice_get, true, false, Some, IfOk};
ghost use Rattle.tx_rank.specs.Walks.{IsWalk, end_of};
ghost use Rattle.tx_rank.specs.inner.Marks.{IsPassed, rank_in};
ghost use Rattle.tx_rank.specs.inner.Links.{IsLinked};
ghost use Rattle.tx_rank.specs.inner.Judged.{IsShortAt, AddsBelow, AddsShorts};

use crate::back_links::{Link, link_at, links_of};
use crate::finding::Finding;
use crate::list_scan::rank_at;
use crate::mark::Mark;
use crate::routes::CodeNet;
use crate::walk::Walk;
use std::alloc::Allocator;
use tx_plan::{CodeId, ExchangeId};
use tx_text::NoMemory;

/// Whether a walk comes to the exchange, which is not the home and may try no more than this many
/// groups.
fn is_short<N: CodeNet>(net: &N, marks: &[Mark], exchange: ExchangeId, spare: u8) -> bool
    requires { exchange < length marks.now }
    ensures yes { result ≡ true → IsShortAt (N.net net.now) (rank_in marks.now) spare exchange }
    ensures not_so { result ≡ false → IsShortAt (N.net net.now) (rank_in marks.now) spare exchange
        → ⊥ }
{
    if rank_at(marks, exchange).is_none() {
        return false;
    }
    if exchange == net.home() {
        return false;
    }
    net.fewest(exchange) <= usize::from(spare)
}

/// Whether there is such an exchange.
pub fn has_short<N: CodeNet>(net: &N, marks: &[Mark], spare: u8) -> bool
    requires { length marks.now ≡ (N.net net.now).exchanges }
    ensures yes { result ≡ true
        → (x : ℕ) × IsShortAt (N.net net.now) (rank_in marks.now) spare x }
    ensures not_so { result ≡ false
        → (x : ℕ) → IsShortAt (N.net net.now) (rank_in marks.now) spare x → ⊥ }
{
    for index in 0..net.exchanges() {
        if is_short(net, marks, net.exchange(index), spare) {
            return true;
        }
    }
    false
}

/// A shortest walk to an exchange, which is found from its end.
fn walk_to<A: Allocator + Copy, N: CodeNet>(
    alloc: A,
    net: &N,
    marks: &[Mark],
    links: &[Link],
    exchange: ExchangeId,
) -> Result<Walk<A>, NoMemory>
    requires passed { IsPassed (N.net net.now) marks.now }
    requires linked { IsLinked (N.net net.now) (rank_in marks.now) links.now }
    requires ranked { (r : ℕ) × (rank_in marks.now exchange ≡ Some r) }
    requires away { exchange ≢ (N.net net.now).home }
    ensures walk { IfOk result (λ w. IsWalk (N.net net.now) w.start w.steps) }
    ensures end { IfOk result (λ w. end_of w.start w.steps ≡ exchange) }
{
    let mut steps = Vec::new(alloc);
    let mut at = exchange;
    while !net.is_origin(at) {
        match link_at(links, at) {
            Some(link) => {
                steps.push((link.0, at))?;
                at = link.1;
            }
            None => unreachable!(),
        }
    }
    steps.reverse();
    Ok(Walk { start: at, steps })
}

/// Adds a walk to the exchange at an index, if its list is too short.
fn add_short<A: Allocator + Copy, N: CodeNet>(
    alloc: A,
    net: &N,
    marks: &[Mark],
    links: &[Link],
    index: usize,
    code: CodeId,
    spare: u8,
    findings: &mut Vec<Finding<A>, A>,
) -> Result<(), NoMemory>
    requires index { index < (N.net net.now).exchanges }
    requires passed { IsPassed (N.net net.now) marks.now }
    requires linked { IsLinked (N.net net.now) (rank_in marks.now) links.now }
    ensures { IfOk result (λ _. (first : List (Finding A))
        → AddsBelow (N.net net.now) code spare index first findings.old.items
        → AddsBelow (N.net net.now) code spare (index + 1) first findings.new.items) }
{
    let exchange = net.exchange(index);
    if !is_short(net, marks, exchange, spare) {
        return Ok(());
    }
    let walk = walk_to(alloc, net, marks, links, exchange)?;
    findings.push(Finding::Short(code, walk))?;
    Ok(())
}

/// Adds a walk to each exchange whose list is too short, in order of the exchanges.
pub fn add_shorts<A: Allocator + Copy, N: CodeNet>(
    alloc: A,
    net: &N,
    marks: &[Mark],
    code: CodeId,
    spare: u8,
    findings: &mut Vec<Finding<A>, A>,
) -> Result<(), NoMemory>
    requires { IsPassed (N.net net.now) marks.now }
    ensures { IfOk result
        (λ _. AddsShorts (N.net net.now) code spare findings.old.items findings.new.items) }
{
    if !has_short(net, marks, spare) {
        return Ok(());
    }
    let links = links_of(alloc, net, marks)?;
    for index in 0..net.exchanges() {
        add_short(alloc, net, marks, &links, index, code, spare, findings)?;
    }
    Ok(())
}
