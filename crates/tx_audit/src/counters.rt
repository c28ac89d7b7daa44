// The events of a finding.
ghost use Rattle.std.specs.Prelude.{◌≡◌, ◌<◌, ◌++◌, ℕ, List, length, is_some, IfOk};
ghost use Rattle.std.specs.List.{AllByRecursion};
ghost use Rattle.std.specs.Option.{option_map, IfSome};
ghost use Rattle.tx_machine.specs.declared.event.Event.{Event};
ghost use Rattle.tx_script.specs.Events.{IsWritable};
ghost use Rattle.tx_rank.specs.Findings.{IsTrueOf};
ghost use Rattle.tx_audit.specs.Counter.{events_along, counter_of, has_counter};
ghost use Rattle.tx_audit.specs.Breaks.{Shows};

use crate::free_line::first_line;
use crate::steps::{push_block_all, push_walk};
use crate::turns::turns_on_one;
use std::alloc::Allocator;
use tx_machine::Event;
use tx_plan::{CodeId, Plan};
use tx_rank::{Finding, Walk};
use tx_text::{Figures, NoMemory};

/// A line keys the code, and its call goes along the walk.
fn walked<A: Allocator + Copy>(
    alloc: A,
    plan: &Plan<A>,
    code: CodeId,
    walk: &Walk<A>,
) -> Result<Option<Vec<Event, A>>, NoMemory>
    requires { code < length plan.now.codes }
    ensures { IfOk result (λ o. (last : List Event)
        → option_map (λ v. v.items ++ last) o ≡ events_along plan.now code walk.now last) }
{
    let Some(line) = first_line(plan, walk.start) else {
        return Ok(None);
    };
    let Some(keyed) = Figures::read(plan.code_figures(code)) else {
        unreachable!()
    };
    let mut events = Vec::new(alloc);
    events.push(Event::Key { line, keyed })?;
    push_walk(plan, code, walk.start, &walk.steps, &mut events)?;
    Ok(Some(events))
}

/// The events of a finding that is true for some limit and spare number.
fn events_of<A: Allocator + Copy>(
    alloc: A,
    plan: &Plan<A>,
    finding: &Finding<A>,
) -> Result<Option<Vec<Event, A>>, NoMemory>
    requires { (limit : ℕ) × (spare : ℕ) × IsTrueOf plan.now limit spare finding.now }
    ensures { IfOk result (λ o. option_map (λ v. v.items) o ≡ counter_of plan.now finding.now) }
{
    match finding {
        Finding::Ambiguous(_, _) => Ok(None),
        Finding::Loop(code, walk) => {
            if turns_on_one(plan, &walk.steps) {
                return Ok(None);
            }
            walked(alloc, plan, *code, walk)
        }
        Finding::Short(code, walk) => {
            let Some(mut script) = walked(alloc, plan, *code, walk)? else {
                return Ok(None);
            };
            push_block_all(plan, *code, walk.end(), &mut script)?;
            Ok(Some(script))
        }
        Finding::Long(code, walk) => walked(alloc, plan, *code, walk),
    }
}

/// The events that show a true finding to whoever applies them from the opening state: none of them
/// is refused, and they break what a plan that is sound for the limit and the spare number keeps. A
/// loop passes an exchange twice, a short list gives an NC that is not excused, and a long walk has
/// more transits than the limit. None for an ambiguous pair, and for a loop whose last two steps go
/// by one both-way group of a single circuit.
pub fn counter<A: Allocator + Copy>(
    alloc: A,
    plan: &Plan<A>,
    finding: &Finding<A>,
    limit: u8,
    spare: u8,
) -> Result<Option<Vec<Event, A>>, NoMemory>
    requires { IsTrueOf plan.now limit spare finding.now }
    ensures events { IfOk result (λ o. option_map (λ v. v.items) o
        ≡ counter_of plan.now finding.now) }
    ensures which { IfOk result (λ o. is_some o ≡ has_counter plan.now finding.now) }
    ensures shows { IfOk result
        (λ o. IfSome o (λ v. Shows plan.now limit spare finding.now v.items)) }
    ensures writable { IfOk result
        (λ o. IfSome o (λ v. AllByRecursion (IsWritable plan.now) v.items)) }
{
    plan.rules();
    events_of(alloc, plan, finding)
}
