// Numbers of a plan that may be worse than those of another one.
ghost use Rattle.std.specs.Prelude.{◌≡◌, count_by, option_map};
ghost use Rattle.tx_page_change.specs.Numbers.{if_graded, is_cutting, is_straying, numbers_of, is_worse_number, are_worse};

use crate::outlook::Outlook;
use crate::worst::most_cut;
use std::alloc::Allocator;
use tx_rank::Bounds;
use tx_risk::Outcome;
use tx_risk_report::{count_cut, count_stray};

/// The limit and the spare number that a plan reaches, how many outages cut somebody off and how
/// many lead somebody astray, and how many lines the worst cuts off: none without a grade.
#[derive(Clone, Copy)]
pub struct Numbers {
    pub limit: Option<u64>,
    pub spare: Option<u64>,
    pub cutting: Option<u64>,
    pub straying: Option<u64>,
    pub lines: Option<u64>,
}

/// A number, if there is a grade.
fn if_graded(grade: Option<Bounds>, number: u64) -> Option<u64>
    ensures { result ≡ if_graded grade number }
{
    match grade {
        Some(_) => Some(number),
        None => None,
    }
}

/// The limit of a grade.
fn limit_of(grade: Option<Bounds>) -> Option<u64>
    ensures { result ≡ option_map (λ b. b.limit) grade }
{
    match grade {
        Some(bounds) => Some(u64::from(bounds.limit)),
        None => None,
    }
}

/// Its spare number.
fn spare_of(grade: Option<Bounds>) -> Option<u64>
    ensures { result ≡ option_map (λ b. b.spare) grade }
{
    match grade {
        Some(bounds) => Some(u64::from(bounds.spare)),
        None => None,
    }
}

/// How many outages cut somebody off.
fn count_cutting<A: Allocator>(outcomes: &[Outcome<A>]) -> usize
    ensures { result ≡ count_by is_cutting outcomes.now }
{
    outcomes
        .iter()
        .filter(|outcome| count_cut(&outcome.cuts) > 0)
        .count()
}

/// How many lead somebody astray.
fn count_straying<A: Allocator>(outcomes: &[Outcome<A>]) -> usize
    ensures { result ≡ count_by is_straying outcomes.now }
{
    outcomes
        .iter()
        .filter(|outcome| count_stray(&outcome.cuts) > 0)
        .count()
}

/// The numbers of a plan.
pub fn numbers_of<A: Allocator>(outlook: &Outlook<'_, A>) -> Numbers
    ensures { result ≡ numbers_of outlook.now }
{
    let (grade, outcomes) = (outlook.grade.plan, outlook.outcomes);
    Numbers {
        limit: limit_of(grade),
        spare: spare_of(grade),
        cutting: if_graded(grade, count_cutting(outcomes) as u64),
        straying: if_graded(grade, count_straying(outcomes) as u64),
        lines: if_graded(grade, most_cut(outlook.plan, outcomes)),
    }
}

/// Whether a number is worse than the one before: it is greater where more is worse, and else less.
/// None is worse than any.
pub(crate) fn is_worse_number(more: bool, old: Option<u64>, new: Option<u64>) -> bool
    ensures { result ≡ is_worse_number more old new }
{
    match (old, new) {
        (old, None) => old.is_some(),
        (None, Some(_)) => false,
        (Some(old), Some(new)) => { if more { old < new } else { new < old } }
    }
}

/// Whether one of the numbers is.
pub fn are_worse(old: Numbers, new: Numbers) -> bool
    ensures { result ≡ are_worse old new }
{
    is_worse_number(true, old.limit, new.limit)
        || is_worse_number(false, old.spare, new.spare)
        || is_worse_number(true, old.cutting, new.cutting)
        || is_worse_number(true, old.straying, new.straying)
        || is_worse_number(true, old.lines, new.lines)
}
