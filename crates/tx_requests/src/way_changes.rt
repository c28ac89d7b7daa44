// The command `trace PLAN --from OLD`.
ghost use Rattle.tx_files.specs.Ending.{EndsWell};
ghost use Rattle.tx_files.specs.TwoPlans.{AreSaid};
ghost use Rattle.tx_requests.specs.WayChanges.{changed_named, changes_asked, AreChanges, WaysAnswers, ways_prints};

use crate::request::Request;
use std::alloc::Allocator;
use tx_commands::WaysRequest;
use tx_files::{CommandFault, Ending, WithOld, asked_of};
use tx_plan::{Pair, Plan};
use tx_text::{Sink, WriteFault};
use tx_trace::{WayChange, change_of_calls, changes_of_ways, write_way_changes};

impl<A: Allocator + Copy> Request<A> for WaysRequest {
    type Texts = WithOld<A>;

    type Answer = (WithOld<A>, Vec<WayChange<A>, A>);

    ghost fits = { AreSaid };

    ghost answers = { WaysAnswers };

    ghost prints = { λ _. ways_prints };

    ghost ends = { λ _. EndsWell };

    fn answer(&self, alloc: A, texts: Self::Texts) -> Result<Self::Answer, CommandFault> {
        let changes = changes_asked(alloc, self, &texts.plan.plan, &texts.old.plan)?;
        Ok((texts, changes))
    }

    fn print<W: Sink>(&self, answer: &Self::Answer, out: &mut W) -> Result<(), WriteFault> {
        let plans = &answer.0;
        write_way_changes(&plans.plan.plan, &plans.old.plan, &answer.1, out)
    }

    fn end(&self, _alloc: A, _answer: Self::Answer) -> Result<Ending<A>, CommandFault> {
        Ok(Ending::of(0))
    }
}

/// The changes of the calls that are asked for, or of all.
fn changes_asked<A: Allocator + Copy>(
    alloc: A,
    request: &WaysRequest,
    plan: &Plan<A>,
    old: &Plan<A>,
) -> Result<Vec<WayChange<A>, A>, CommandFault>
    ensures { AreChanges plan.now old.now
        (changes_asked request.now.calls plan.now old.now) result }
{
    match &request.calls {
        Some((exchange, code)) => {
            changes_named(alloc, plan, old, exchange.as_bytes(), code.as_bytes())
        }
        None => Ok(changes_of_ways(alloc, plan, old)?),
    }
}

/// Those of the calls for a code from an exchange.
fn changes_named<A: Allocator + Copy>(
    alloc: A,
    plan: &Plan<A>,
    old: &Plan<A>,
    exchange: &[u8],
    code: &[u8],
) -> Result<Vec<WayChange<A>, A>, CommandFault>
    ensures { AreChanges plan.now old.now
        (changed_named plan.now old.now exchange.now code.now) result }
{
    let (from, to, _) = asked_of(alloc, plan, exchange, code, None)?;
    let Some(were) = old.pair_named(exchange, code) else {
        return Err(CommandFault::NotInOldPlan);
    };
    let pair = Pair {
        exchange: from,
        code: to,
    };
    Ok(change_of_calls(alloc, plan, old, pair, were)?)
}
