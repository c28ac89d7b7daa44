// Levels of one code that are joined to a stage.
ghost use Rattle.std.specs.Prelude.{◌≡◌, ◌<◌, ◌≤◌, ◌↔◌, true, length, IfOk};
ghost use Rattle.tx_rank.specs.Judged.{AreOrigins};
ghost use Rattle.tx_order.specs.Levels.{levels_of};
ghost use Rattle.tx_order.specs.Joined.{IsSafeBetween, IsFurthest, AreAllStages};

use crate::between::joined_lists;
use crate::entries::is_same;
use crate::fronts::Fronts;
use crate::transition::Transition;
use std::alloc::Allocator;
use tx_change::ChangeRoutes;
use tx_plan::CodeId;
use tx_rank::can_be_certified;
use tx_text::NoMemory;

/// Whether the same ranks certify a code at two fronts.
fn joins<A: Allocator + Copy>(
    alloc: A,
    transition: &Transition<A>,
    origins: &[bool],
    code: CodeId,
    from: u16,
    to: u16,
) -> Result<bool, NoMemory>
    requires origins { AreOrigins transition.now.old origins.now }
    requires code { code < length transition.now.old.codes }
    ensures { IfOk result (λ safe. safe ≡ true ↔ IsSafeBetween transition.now code from to) }
{
    transition.rules();
    let lists = joined_lists(alloc, transition, code, from, to)?;
    let net = ChangeRoutes {
        plan: transition.old_plan(),
        origins,
        lists: &lists,
        code,
    };
    let limits = transition.limits();
    can_be_certified(alloc, &net, limits.limit, limits.spare)
}

/// The greatest front up to which all levels of a code from another front on are safe in one stage.
fn furthest<A: Allocator + Copy>(
    alloc: A,
    transition: &Transition<A>,
    origins: &[bool],
    code: CodeId,
    from: u16,
) -> Result<u16, NoMemory>
    requires origins { AreOrigins transition.now.old origins.now }
    requires code { code < length transition.now.old.codes }
    requires from { from < levels_of transition.now.limit }
    ensures up { IfOk result (λ to. from < to) }
    ensures within { IfOk result (λ to. to ≤ levels_of transition.now.limit) }
    ensures safe { IfOk result (λ to. IsSafeBetween transition.now code from to) }
    ensures furthest { IfOk result (λ to. IsFurthest transition.now code from to) }
{
    transition.rules();
    let last = transition.levels();
    if joins(alloc, transition, origins, code, from, last)? {
        return Ok(last);
    }
    let mut good = from + 1;
    let mut bad = last;
    while good + 1 < bad {
        // The step doubles while it is safe, and then halves: most stages have few levels.
        let middle = good + ((bad - good) / 2).min(good - from);
        if joins(alloc, transition, origins, code, from, middle)? {
            good = middle;
        } else {
            bad = middle;
        }
    }
    Ok(good)
}

/// The stages of a code, each as long as it is safe.
pub fn stages_of_code<A: Allocator + Copy>(
    alloc: A,
    transition: &Transition<A>,
    origins: &[bool],
    code: CodeId,
) -> Result<Fronts<A>, NoMemory>
    requires origins { AreOrigins transition.now.old origins.now }
    requires code { code < length transition.now.old.codes }
    ensures { IfOk result (λ ends. AreAllStages transition.now code ends) }
{
    transition.rules();
    let last = transition.levels();
    let mut ends = Fronts::new(alloc);
    let mut from = 0;
    while from < last && !is_same(transition, code, from, last) {
        let to = furthest(alloc, transition, origins, code, from)?;
        ends.push(to)?;
        from = to;
    }
    Ok(ends)
}
