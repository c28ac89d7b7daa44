// The events of the first finding that has some.
ghost use Rattle.std.specs.Prelude.{◌≡◌, is_some, IfOk};
ghost use Rattle.std.specs.List.{AllByRecursion, list_any};
ghost use Rattle.std.specs.Option.{option_map, IfSome};
ghost use Rattle.tx_rank.specs.Findings.{IsTrueOf};
ghost use Rattle.tx_script.specs.Events.{IsWritable};
ghost use Rattle.tx_audit.specs.Counter.{has_counter, first_counter_of};
ghost use Rattle.tx_audit.specs.Breaks.{ShowsOne};

use crate::counters::counter;
use std::alloc::Allocator;
use tx_machine::Event;
use tx_plan::{Limits, Plan};
use tx_rank::Finding;
use tx_text::NoMemory;

/// The events that show the first of some true findings that has any, if one has. `Err` means out
/// of memory.
pub fn first_counter<A: Allocator + Copy>(
    alloc: A,
    plan: &Plan<A>,
    findings: &[Finding<A>],
    limits: Limits,
) -> Result<Option<Vec<Event, A>>, NoMemory>
    requires { AllByRecursion (IsTrueOf plan.now limits.limit limits.spare) findings.now }
    ensures events { IfOk result (λ o. option_map (λ v. v.items) o
        ≡ first_counter_of plan.now findings.now) }
    ensures which { IfOk result (λ o. is_some o ≡ list_any (has_counter plan.now) findings.now) }
    ensures shows { IfOk result
        (λ o. IfSome o (λ v. ShowsOne plan.now limits.limit limits.spare findings.now v.items)) }
    ensures writable { IfOk result
        (λ o. IfSome o (λ v. AllByRecursion (IsWritable plan.now) v.items)) }
{
    for finding in findings {
        match counter(alloc, plan, finding, limits.limit, limits.spare)? {
            Some(events) => return Ok(Some(events)),
            None => {}
        }
    }
    Ok(None)
}
