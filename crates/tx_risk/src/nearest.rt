// Where the ways from exchanges lead: how far a dead end is, and whether a way home is left.
ghost use Rattle.std.specs.Prelude.{◌≡◌, ◌<◌, ◌≤◌, ◌+◌, ◌^◌, ℕ, length, take, IfOk};
ghost use Rattle.tx_plan.specs.Among.{Among};
ghost use Rattle.tx_risk.specs.inner.Left.{IsLeft, left_net};
ghost use Rattle.tx_risk.specs.inner.Orders.{IsOrder};
ghost use Rattle.tx_risk.specs.inner.Nearest.{AreDeadEnds, LeadsToDeadEnd, AreDeadEndsKept, AreAllWays, Grows, home_alone, ways_in, nearer, nearest_step, step_by, leads_home, has_way_home};

use crate::cut::Leg;
use crate::left::Left;
use std::alloc::Allocator;
use tx_plan::{ExchangeId, GroupId};
use tx_text::NoMemory;

/// Where the ways from an exchange lead.
#[derive(Clone, Copy)]
pub struct Ways {
    /// The steps of a shortest way to a dead end, if there is one.
    pub dead_end: Option<u8>,
    /// That dead end, and the place of the first leg of that way.
    pub end: ExchangeId,
    pub first: u32,
    /// Whether a way leads home.
    pub home: bool,
}

/// All ways lead home.
fn home_alone() -> Ways
    ensures { result ≡ home_alone }
{
    Ways {
        dead_end: None,
        end: ExchangeId::of(0),
        first: 0,
        home: true,
    }
}

/// A step by a group to an exchange, and how far a dead end is from there.
#[derive(Clone, Copy)]
pub struct Step {
    pub group: GroupId,
    pub to: ExchangeId,
    pub distance: u8,
}

/// The ways from an exchange that are kept.
pub fn ways_at(kept: &[Ways], exchange: ExchangeId) -> Ways
    ensures { result ≡ ways_in kept.now exchange }
{
    match kept.get(exchange.index()) {
        Some(ways) => *ways,
        None => home_alone(),
    }
}

/// The step by a group, if a way leads to a dead end from where it leads.
fn step_by<A: Allocator>(
    left: &Left<'_, A>,
    kept: &[Ways],
    exchange: ExchangeId,
    group: GroupId,
) -> Option<Step>
    ensures { result ≡ step_by (left_net left.now) kept.now exchange group }
{
    let to = left.far(group, exchange)?;
    let distance = ways_at(kept, to).dead_end?;
    Some(Step {
        group,
        to,
        distance,
    })
}

/// The nearer of two steps, and the first where they are as near.
fn nearer(one: Option<Step>, other: Option<Step>) -> Option<Step>
    ensures { result ≡ nearer one other }
{
    match (one, other) {
        (Some(a), Some(b)) => Some(if b.distance < a.distance { b } else { a }),
        _ => one.or(other),
    }
}

/// The step from an exchange that leads nearest to a dead end.
pub fn nearest_step<A: Allocator>(
    left: &Left<'_, A>,
    kept: &[Ways],
    exchange: ExchangeId,
) -> Option<Step>
    ensures { result ≡ nearest_step (left_net left.now) kept.now exchange }
{
    left.list(exchange)
        .iter()
        .filter(|group| !left.is_gone(**group))
        .map(|group| step_by(left, kept, exchange, *group))
        .fold(None, nearer)
}

/// Whether a group leads from an exchange to one from which a way leads home.
fn leads_home<A: Allocator>(
    left: &Left<'_, A>,
    kept: &[Ways],
    exchange: ExchangeId,
    group: GroupId,
) -> bool
    ensures { result ≡ leads_home (left_net left.now) kept.now exchange group }
{
    match left.far(group, exchange) {
        Some(to) => ways_at(kept, to).home,
        None => false,
    }
}

/// Whether a group that is left does.
fn has_way_home<A: Allocator>(left: &Left<'_, A>, kept: &[Ways], exchange: ExchangeId) -> bool
    ensures { result ≡ has_way_home (left_net left.now) kept.now exchange }
{
    left.list(exchange)
        .iter()
        .filter(|group| !left.is_gone(**group))
        .any(|group| leads_home(left, kept, exchange, *group))
}

/// From dead ends no way leads on, and from all others each way leads home, as far as is known yet.
fn dead_ends_kept<A: Allocator + Copy>(
    alloc: A,
    left: &Left<'_, A>,
    dead_ends: &[ExchangeId],
) -> Result<Vec<Ways, A>, NoMemory>
    requires { (x : ℕ) → Among x dead_ends.now → x < (left_net left.now).exchanges }
    ensures rules { IsLeft left.now }
    ensures kept { IfOk result (λ kept.
        AreDeadEndsKept (left_net left.now) dead_ends.now kept.items) }
{
    let mut kept = vec![in alloc; home_alone(); left.exchanges()]?;
    for end in dead_ends {
        kept[end.index()] = Ways {
            dead_end: Some(0),
            end: *end,
            first: 0,
            home: false,
        };
    }
    Ok(kept)
}

/// Where the ways from each exchange of a walk lead. These are the dead ends, and from the
/// exchanges before an index of the order no way leads to one, but from the dead ends themselves.
/// The legs of the ways are added to those that are there.
pub fn ways_of<A: Allocator + Copy>(
    alloc: A,
    left: &Left<'_, A>,
    dead_ends: &[ExchangeId],
    order: &[ExchangeId],
    from: usize,
    legs: &mut Vec<Leg, A>,
) -> Result<Vec<Ways, A>, NoMemory>
    requires order { IsOrder (left_net left.now) order.now }
    requires dead_ends { AreDeadEnds (left_net left.now) order.now dead_ends.now }
    requires before { (x : ℕ) → Among x (take from order.now)
        → LeadsToDeadEnd (left_net left.now) x → Among x dead_ends.now }
    requires room { length legs.old.items + 256 ≤ 2 ^ 32 }
    ensures ways { IfOk result (λ kept. AreAllWays (left_net left.now) legs.new.items kept.items) }
    ensures grown { IfOk result (λ kept. Grows legs.old.items legs.new.items) }
{
    let mut kept = dead_ends_kept(alloc, left, dead_ends)?;
    for index in from..order.len() {
        let exchange = order[index];
        if let Some(step) = nearest_step(left, &kept, exchange) {
            let home = has_way_home(left, &kept, exchange);
            let onward = ways_at(&kept, step.to);
            let first = legs.len() as u32;
            kept[exchange.index()] = Ways {
                dead_end: Some(step.distance + 1),
                end: onward.end,
                first,
                home,
            };
            legs.push(Leg {
                group: step.group,
                to: step.to,
                next: onward.first,
            })?;
        }
    }
    Ok(kept)
}
