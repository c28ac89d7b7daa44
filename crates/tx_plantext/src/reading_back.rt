// Whether a text says a plan.
ghost use Rattle.std.specs.Prelude.{◌≡◌, ℕ, true, OnOk};
ghost use Rattle.std.specs.List.{AllByRecursion};
ghost use Rattle.tx_plan.specs.Mixtures.{SameNetwork};
ghost use Rattle.tx_plan.specs.Routes.{route_list, is_barred};
ghost use Rattle.tx_plantext.specs.Revised.{SaysAs};

use crate::difference::first_difference;
use crate::plan_reader::read_plan;
use crate::revising::Unrevised;
use std::alloc::Allocator;
use tx_plan::{CodeId, ExchangeId, Plan};

/// Reads a text, and compares its plan with the one that is wanted.
pub fn read_back<A: Allocator + Copy>(
    alloc: A,
    text: &[u8],
    plan: &Plan<A>,
) -> Result<(), Unrevised>
    ensures { OnOk result (SaysAs plan.now text.now) }
{
    let read = read_plan(alloc, text)?;
    read.rules();
    let is_same = is_same_plan(plan, &read);
    drop(read);
    if is_same {
        Ok(())
    } else {
        Err(Unrevised::OtherPlan)
    }
}

/// Whether two plans are of one network, and have the same lists and bars.
fn is_same_plan<A: Allocator>(plan: &Plan<A>, read: &Plan<A>) -> bool
    ensures network { result ≡ true → SameNetwork plan.now read.now }
    ensures lists { result ≡ true → (x c : ℕ)
        → route_list read.now x c ≡ route_list plan.now x c }
    ensures bars { result ≡ true → (x c : ℕ)
        → is_barred read.now x c ≡ is_barred plan.now x c }
{
    if let Some(_) = first_difference(plan, read) {
        return false;
    }
    if !have_same_lists(plan, read) {
        return false;
    }
    have_same_bars(plan, read)
}

/// Whether two plans have the same lists.
fn have_same_lists<A: Allocator>(plan: &Plan<A>, read: &Plan<A>) -> bool
    ensures { result ≡ true → (x c : ℕ) → route_list read.now x c ≡ route_list plan.now x c }
{
    if !has_lists(plan, read) {
        return false;
    }
    has_lists(read, plan)
}

/// Whether two plans have the same bars.
fn have_same_bars<A: Allocator>(plan: &Plan<A>, read: &Plan<A>) -> bool
    ensures { result ≡ true → (x c : ℕ) → is_barred read.now x c ≡ is_barred plan.now x c }
{
    if !has_bars(plan, read) {
        return false;
    }
    has_bars(read, plan)
}

/// Whether a plan has each list of another one.
fn has_lists<A: Allocator>(plan: &Plan<A>, other: &Plan<A>) -> bool
    ensures { result ≡ true → AllByRecursion (λ r. route_list plan.now r.exchange r.code
        ≡ route_list other.now r.exchange r.code) other.now.routes }
{
    for index in 0..other.routes() {
        match other.route_at(index) {
            Some((exchange, code)) => {
                if !has_list(plan, other, exchange, code) {
                    return false;
                }
            }
            None => return false,
        }
    }
    true
}

/// Whether a plan has the list of another one for a pair.
fn has_list<A: Allocator>(
    plan: &Plan<A>,
    other: &Plan<A>,
    exchange: ExchangeId,
    code: CodeId,
) -> bool
    ensures { result ≡ true
        → route_list plan.now exchange code ≡ route_list other.now exchange code }
{
    plan.list(exchange, code) == other.list(exchange, code)
}

/// Whether a plan has each bar of another one.
fn has_bars<A: Allocator>(plan: &Plan<A>, other: &Plan<A>) -> bool
    ensures { result ≡ true → AllByRecursion (λ b. is_barred plan.now b.exchange b.code ≡ true)
        other.now.bars }
{
    for index in 0..other.bars() {
        match other.bar_at(index) {
            Some((exchange, code)) => {
                if !plan.is_barred(exchange, code) {
                    return false;
                }
            }
            None => return false,
        }
    }
    true
}
