// The faults of route lists.
ghost use Rattle.std.specs.Prelude.{◌≡◌, ◌||◌, is_none, find, length, nat_le, option_map};
ghost use Rattle.tx_check.specs.declared.fault.CheckFault.TheVariants.{Short, TargetUnranked, NotLower};
ghost use Rattle.tx_check.specs.inner.Firsts.{firsts_of, or_later};
ghost use Rattle.tx_check.specs.Checks.{ranks_for, foremost, fault_if, at_pairs, at_exchanges, is_at_least, rank_beyond, too_short_at, target_unranked_at, not_lower_at, too_short_faults, target_unranked_faults, not_lower_faults};

use crate::fault::CheckFault;
use crate::ranks::{rank_away, rank_beyond};
use std::alloc::Allocator;
use tx_cert::Cert;
use tx_plan::{CodeId, ExchangeId, GroupId, Plan};

/// The first fault of each kind in some route lists.
#[derive(Clone, Copy)]
pub(crate) struct Firsts {
    pub short: Option<CheckFault>,
    pub unranked: Option<CheckFault>,
    pub not_lower: Option<CheckFault>,
}

impl Firsts {
    ghost use Rattle.tx_check.specs.inner.Firsts.{firsts_or};
    ghost use Rattle.std.specs.Prelude.{[]};

    /// Nothing was found.
    fn none() -> Firsts
        ensures { result ≡ firsts_of [] [] [] }
    {
        Firsts {
            short: None,
            unranked: None,
            not_lower: None,
        }
    }

    /// What was found first, or else later.
    fn or(self, later: Firsts) -> Firsts
        ensures { result ≡ firsts_or self later }
    {
        Firsts {
            short: earlier(self.short, later.short),
            unranked: earlier(self.unranked, later.unranked),
            not_lower: earlier(self.not_lower, later.not_lower),
        }
    }
}

fn earlier(first: Option<CheckFault>, later: Option<CheckFault>) -> Option<CheckFault>
    ensures { result ≡ or_later first later }
{
    match first {
        Some(fault) => Some(fault),
        None => later,
    }
}

/// The first faults in the lists of all codes and exchanges. Looks at each list once.
pub(crate) fn list_faults<A: Allocator>(plan: &Plan<A>, cert: &Cert<A>, spare: u8) -> Firsts
    ensures { result ≡ firsts_of (too_short_faults plan.now (ranks_for plan.now cert.now) spare)
        (target_unranked_faults plan.now (ranks_for plan.now cert.now))
        (not_lower_faults plan.now (ranks_for plan.now cert.now)) }
{
    let mut firsts = Firsts::none();
    for index in 0..plan.codes() {
        firsts = firsts.or(code_faults(plan, cert, spare, CodeId::of(index)));
    }
    firsts
}

/// The first faults in the lists for a code.
fn code_faults<A: Allocator>(plan: &Plan<A>, cert: &Cert<A>, spare: u8, code: CodeId) -> Firsts
    ensures { result ≡ firsts_of
        (at_exchanges plan.now (too_short_at plan.now (ranks_for plan.now cert.now) spare code))
        (at_exchanges plan.now (target_unranked_at plan.now (ranks_for plan.now cert.now) code))
        (at_exchanges plan.now (not_lower_at plan.now (ranks_for plan.now cert.now) code)) }
{
    let mut firsts = Firsts::none();
    for index in 0..plan.exchanges() {
        firsts = firsts.or(pair_faults(plan, cert, spare, code, ExchangeId::of(index)));
    }
    firsts
}

/// The first faults in the list of an exchange for a code.
fn pair_faults<A: Allocator>(
    plan: &Plan<A>,
    cert: &Cert<A>,
    spare: u8,
    code: CodeId,
    exchange: ExchangeId,
) -> Firsts
    ensures { result ≡ firsts_of (too_short_at plan.now (ranks_for plan.now cert.now) spare
        code exchange) (target_unranked_at plan.now (ranks_for plan.now cert.now) code exchange)
        (not_lower_at plan.now (ranks_for plan.now cert.now) code exchange) }
{
    let Some(rank) = rank_away(plan, cert, code, exchange) else {
        return Firsts::none();
    };
    let list = plan.list(exchange, code);
    let (unranked, not_lower) = first_wrong(plan, cert, code, exchange, rank, list);
    Firsts {
        short: short_fault(code, exchange, list, spare),
        unranked: unranked_fault(code, exchange, unranked),
        not_lower: not_lower_fault(code, exchange, not_lower),
    }
}

/// The fault of a list with no more groups than are to spare.
fn short_fault(
    code: CodeId,
    exchange: ExchangeId,
    list: &[GroupId],
    spare: u8,
) -> Option<CheckFault>
    ensures { result ≡ foremost (fault_if (nat_le (length list.now) spare) (Short code exchange)) }
{
    if list.len() <= usize::from(spare) {
        Some(CheckFault::Short(code, exchange))
    } else {
        None
    }
}

fn unranked_fault(code: CodeId, exchange: ExchangeId, group: Option<GroupId>) -> Option<CheckFault>
    ensures { result ≡ option_map (λ g. TargetUnranked code exchange g) group }
{
    match group {
        Some(group) => Some(CheckFault::TargetUnranked(code, exchange, group)),
        None => None,
    }
}

fn not_lower_fault(code: CodeId, exchange: ExchangeId, group: Option<GroupId>) -> Option<CheckFault>
    ensures { result ≡ option_map (λ g. NotLower code exchange g) group }
{
    match group {
        Some(group) => Some(CheckFault::NotLower(code, exchange, group)),
        None => None,
    }
}

/// The first group of the list that leads to an exchange without rank, and the first that leads to
/// a rank that is not smaller.
fn first_wrong<A: Allocator>(
    plan: &Plan<A>,
    cert: &Cert<A>,
    code: CodeId,
    exchange: ExchangeId,
    rank: u16,
    list: &[GroupId],
) -> (Option<GroupId>, Option<GroupId>)
    ensures unranked { result.0 ≡ find (λ g.
        is_none (rank_beyond plan.now (ranks_for plan.now cert.now) code exchange g)) list.now }
    ensures not_lower { result.1 ≡ find (λ g. is_at_least
        (rank_beyond plan.now (ranks_for plan.now cert.now) code exchange g) rank) list.now }
{
    // Where nothing is wrong, one pass over the list shows it.
    match first_either(plan, cert, code, exchange, rank, list) {
        None => (None, None),
        Some(_) => (
            first_unranked(plan, cert, code, exchange, list),
            first_not_lower(plan, cert, code, exchange, rank, list),
        ),
    }
}

/// The first group of the list that leads to an exchange without rank, or to a rank that is not
/// smaller.
fn first_either<A: Allocator>(
    plan: &Plan<A>,
    cert: &Cert<A>,
    code: CodeId,
    exchange: ExchangeId,
    rank: u16,
    list: &[GroupId],
) -> Option<GroupId>
    ensures { result ≡ find (λ g. is_none
        (rank_beyond plan.now (ranks_for plan.now cert.now) code exchange g) || is_at_least
        (rank_beyond plan.now (ranks_for plan.now cert.now) code exchange g) rank) list.now }
{
    list.iter().copied().find(|group| is_wrong(
        rank_beyond(plan, cert, code, exchange, *group),
        rank,
    ))
}

fn is_wrong(rank: Option<u16>, least: u16) -> bool
    ensures { result ≡ (is_none rank || is_at_least rank least) }
{
    rank.is_none() || is_at_least(rank, least)
}

/// The first group of the list that leads to an exchange without rank.
fn first_unranked<A: Allocator>(
    plan: &Plan<A>,
    cert: &Cert<A>,
    code: CodeId,
    exchange: ExchangeId,
    list: &[GroupId],
) -> Option<GroupId>
    ensures { result ≡ find (λ g. is_none
        (rank_beyond plan.now (ranks_for plan.now cert.now) code exchange g)) list.now }
{
    list.iter().copied().find(|group| rank_beyond(plan, cert, code, exchange, *group).is_none())
}

/// The first group of the list that leads to a rank that is not smaller.
fn first_not_lower<A: Allocator>(
    plan: &Plan<A>,
    cert: &Cert<A>,
    code: CodeId,
    exchange: ExchangeId,
    rank: u16,
    list: &[GroupId],
) -> Option<GroupId>
    ensures { result ≡ find (λ g. is_at_least
        (rank_beyond plan.now (ranks_for plan.now cert.now) code exchange g) rank) list.now }
{
    list.iter().copied().find(|group| is_at_least(
        rank_beyond(plan, cert, code, exchange, *group),
        rank,
    ))
}

fn is_at_least(rank: Option<u16>, least: u16) -> bool
    ensures { result ≡ is_at_least rank least }
{
    match rank {
        None => false,
        Some(rank) => rank >= least,
    }
}
