// Ranks, round by round.
ghost use Rattle.std.specs.Prelude.{◌≡◌, ◌<◌, ℕ, Option, Some, None, ◌==◌, if◌then◌else◌, map, length, IfOk};
ghost use Rattle.tx_mend.specs.LeastRanks.{indexes, kept_or, ranked_in};

use crate::rules::Rule;
use std::alloc::Allocator;
use tx_plan::ExchangeId;
use tx_text::NoMemory;

/// The home has rank 0, and no other exchange has a rank.
fn first_rank(index: usize, home: ExchangeId) -> Option<u8>
    ensures { result ≡ (if index == home then Some 0 else None) }
{
    if index == home.index() { Some(0) } else { None }
}

/// The first ranks.
fn home_alone<A: Allocator + Copy>(
    alloc: A,
    exchanges: usize,
    home: ExchangeId,
) -> Result<Vec<Option<u8>, A>, NoMemory>
    ensures { IfOk result (λ ranks. ranks.items
        ≡ map (λ x. if x == home then Some 0 else None) (indexes exchanges)) }
{
    let mut ranks = Vec::new(alloc);
    for index in 0..exchanges {
        ranks.push(first_rank(index, home))?;
    }
    Ok(ranks)
}

/// The rank that an exchange keeps, or gets in a round.
fn rank_on<R: Rule>(rule: &R, ranks: &[Option<u8>], exchange: ExchangeId, round: u8) -> Option<u8>
    requires long { length ranks.now ≡ R.exchanges rule.now }
    requires exchange { exchange < R.exchanges rule.now }
    ensures { (of : ℕ → Option ℕ) → ranks.now ≡ map of (indexes (R.exchanges rule.now))
        → result ≡ kept_or (of exchange) (R.follows rule.now of exchange) round }
{
    match ranks[exchange.index()] {
        Some(rank) => Some(rank),
        None => {
            if rule.follows(ranks, exchange) {
                Some(round)
            } else {
                None
            }
        }
    }
}

/// The ranks after a round.
fn next_ranks<A: Allocator + Copy, R: Rule>(
    alloc: A,
    rule: &R,
    ranks: &[Option<u8>],
    round: u8,
) -> Result<Vec<Option<u8>, A>, NoMemory>
    requires { length ranks.now ≡ R.exchanges rule.now }
    ensures { IfOk result (λ next. (of : ℕ → Option ℕ) → ranks.now
        ≡ map of (indexes (R.exchanges rule.now))
        → next.items ≡ map (λ x. kept_or (of x) (R.follows rule.now of x) round)
        (indexes (R.exchanges rule.now))) }
{
    let mut next = Vec::new(alloc);
    for index in 0..rule.exchanges() {
        next.push(rank_on(rule, ranks, ExchangeId::of(index), round))?;
    }
    Ok(next)
}

/// The ranks after so many rounds. A round that ranks no exchange is the last that is gone through.
pub fn ranks_after<A: Allocator + Copy, R: Rule>(
    alloc: A,
    rule: &R,
    home: ExchangeId,
    rounds: u8,
) -> Result<Vec<Option<u8>, A>, NoMemory>
    ensures { IfOk result (λ ranks. ranks.items
        ≡ map (ranked_in home (R.follows rule.now) rounds) (indexes (R.exchanges rule.now))) }
{
    let mut ranks = home_alone(alloc, rule.exchanges(), home)?;
    for done in 0..rounds {
        let next = next_ranks(alloc, rule, &ranks, done + 1)?;
        if ranks == next {
            return Ok(next);
        }
        ranks = next;
    }
    Ok(ranks)
}
