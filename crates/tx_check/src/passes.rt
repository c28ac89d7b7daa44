// The faults of single ranks, each looked for in order of declaration.
ghost use Rattle.std.specs.Prelude.{◌≡◌, ◌<◌, ℕ, length, false, slice_index_or};
ghost use Rattle.tx_plan.specs.Routes.{is_origin};
ghost use Rattle.tx_check.specs.Checks.{ranks_for, at_exchanges, foremost, home_not_zero_at, home_not_zero_faults, origin_unranked_at, origin_unranked_faults, too_high_at, too_high_faults};

use crate::fault::CheckFault;
use crate::ranks::rank_of;
use std::alloc::Allocator;
use tx_cert::Cert;
use tx_plan::{CodeId, ExchangeId, Plan};

/// The first home whose rank is not 0.
pub(crate) fn home_fault<A: Allocator>(plan: &Plan<A>, cert: &Cert<A>) -> Option<CheckFault>
    ensures { result ≡ foremost (home_not_zero_faults plan.now (ranks_for plan.now cert.now)) }
{
    for index in 0..plan.codes() {
        let found = home_fault_for(plan, cert, CodeId::of(index));
        if found.is_some() {
            return found;
        }
    }
    None
}

fn home_fault_for<A: Allocator>(plan: &Plan<A>, cert: &Cert<A>, code: CodeId) -> Option<CheckFault>
    ensures { result ≡ foremost (home_not_zero_at plan.now (ranks_for plan.now cert.now) code) }
{
    match rank_of(plan, cert, code, plan.home(code)) {
        None => Some(CheckFault::HomeNotZero(code)),
        Some(rank) => {
            if rank == 0 {
                None
            } else {
                Some(CheckFault::HomeNotZero(code))
            }
        }
    }
}

/// The first origin that has no rank.
pub(crate) fn origin_fault<A: Allocator>(plan: &Plan<A>, cert: &Cert<A>) -> Option<CheckFault>
    ensures { result ≡ foremost (origin_unranked_faults plan.now (ranks_for plan.now cert.now)) }
{
    let origins = origins(plan);
    for index in 0..plan.codes() {
        let found = origin_fault_for(plan, cert, &origins, CodeId::of(index));
        if found.is_some() {
            return found;
        }
    }
    None
}

/// Which exchanges are origins.
fn origins<A: Allocator>(plan: &Plan<A>) -> [bool; 256]
    ensures { (x : ℕ) → x < length plan.now.exchanges
        → slice_index_or result x false ≡ is_origin plan.now x }
{
    let mut marks = [false; 256];
    for index in 0..plan.exchanges() {
        marks[index] = plan.is_origin(ExchangeId::of(index));
    }
    marks
}

fn origin_fault_for<A: Allocator>(
    plan: &Plan<A>,
    cert: &Cert<A>,
    origins: &[bool; 256],
    code: CodeId,
) -> Option<CheckFault>
    requires { (x : ℕ) → x < length plan.now.exchanges
        → slice_index_or origins.now x false ≡ is_origin plan.now x }
    ensures { result ≡ foremost
        (at_exchanges plan.now (origin_unranked_at plan.now (ranks_for plan.now cert.now) code)) }
{
    for index in 0..plan.exchanges() {
        let exchange = ExchangeId::of(index);
        let found = origin_fault_at(plan, cert, origins[index], code, exchange);
        if found.is_some() {
            return found;
        }
    }
    None
}

fn origin_fault_at<A: Allocator>(
    plan: &Plan<A>,
    cert: &Cert<A>,
    origin: bool,
    code: CodeId,
    exchange: ExchangeId,
) -> Option<CheckFault>
    requires { origin ≡ is_origin plan.now exchange }
    ensures { result
        ≡ foremost (origin_unranked_at plan.now (ranks_for plan.now cert.now) code exchange) }
{
    if origin && rank_of(plan, cert, code, exchange).is_none() && !plan.is_barred(exchange, code) {
        Some(CheckFault::OriginUnranked(code, exchange))
    } else {
        None
    }
}

/// The first rank that is more than the limit and one.
pub(crate) fn height_fault<A: Allocator>(
    plan: &Plan<A>,
    cert: &Cert<A>,
    limit: u8,
) -> Option<CheckFault>
    ensures { result ≡ foremost (too_high_faults plan.now (ranks_for plan.now cert.now) limit) }
{
    for index in 0..plan.codes() {
        let found = height_fault_for(plan, cert, limit, CodeId::of(index));
        if found.is_some() {
            return found;
        }
    }
    None
}

fn height_fault_for<A: Allocator>(
    plan: &Plan<A>,
    cert: &Cert<A>,
    limit: u8,
    code: CodeId,
) -> Option<CheckFault>
    ensures { result
        ≡ foremost (at_exchanges plan.now (too_high_at (ranks_for plan.now cert.now) limit code)) }
{
    for index in 0..plan.exchanges() {
        let found = height_fault_at(plan, cert, limit, code, ExchangeId::of(index));
        if found.is_some() {
            return found;
        }
    }
    None
}

fn height_fault_at<A: Allocator>(
    plan: &Plan<A>,
    cert: &Cert<A>,
    limit: u8,
    code: CodeId,
    exchange: ExchangeId,
) -> Option<CheckFault>
    ensures { result ≡ foremost (too_high_at (ranks_for plan.now cert.now) limit code exchange) }
{
    match rank_of(plan, cert, code, exchange) {
        None => None,
        Some(rank) => {
            if rank > u16::from(limit) + 1 {
                Some(CheckFault::TooHigh(code, exchange))
            } else {
                None
            }
        }
    }
}
