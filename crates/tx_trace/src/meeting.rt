// The exchanges that calls may come to.
ghost use Rattle.std.specs.Prelude.{◌≡◌, ◌<◌, length, IfOk};
ghost use Rattle.std.specs.List.{fold};
ghost use Rattle.tx_trace.specs.Ways.{far_ends, meet, all_met};
ghost use Rattle.tx_trace.specs.inner.Marked.{AreMarksOf};

use std::alloc::Allocator;
use tx_plan::{CodeId, ExchangeId, Plan};
use tx_rank::far;
use tx_text::NoMemory;

/// Adds an exchange, if it was not met yet.
fn meet<A: Allocator>(
    exchange: ExchangeId,
    marks: &mut [bool],
    met: &mut Vec<ExchangeId, A>,
) -> Result<(), NoMemory>
    requires within { exchange < length marks.old }
    requires marks { AreMarksOf met.old.items marks.old }
    ensures marks { IfOk result (λ _. AreMarksOf met.new.items marks.new) }
    ensures met { IfOk result (λ _. met.new.items ≡ meet met.old.items exchange) }
{
    if marks[exchange.index()] {
        return Ok(());
    }
    met.push(exchange)?;
    marks[exchange.index()] = true;
    Ok(())
}

/// Adds the exchanges to which the groups of one lead. The home leads nowhere.
fn meet_ends<A: Allocator>(
    plan: &Plan<A>,
    code: CodeId,
    exchange: ExchangeId,
    marks: &mut [bool],
    met: &mut Vec<ExchangeId, A>,
) -> Result<(), NoMemory>
    requires code { code < length plan.now.codes }
    requires long { length marks.old ≡ length plan.now.exchanges }
    requires marks { AreMarksOf met.old.items marks.old }
    ensures marks { IfOk result (λ _. AreMarksOf met.new.items marks.new) }
    ensures met { IfOk result (λ _. met.new.items
        ≡ fold meet met.old.items (far_ends plan.now code exchange)) }
{
    if exchange == plan.home(code) {
        return Ok(());
    }
    let list = plan.list(exchange, code);
    for i in 0..list.len() {
        let to = far(plan, code, exchange, list[i]);
        meet(to, marks, met)?;
    }
    Ok(())
}

/// The exchanges that calls for the code may come to from one, in the order in which they are met
/// by breadth.
pub fn all_met<A: Allocator + Copy>(
    alloc: A,
    plan: &Plan<A>,
    code: CodeId,
    start: ExchangeId,
) -> Result<Vec<ExchangeId, A>, NoMemory>
    requires code { code < length plan.now.codes }
    requires start { start < length plan.now.exchanges }
    ensures { IfOk result (λ met. met.items ≡ all_met plan.now code start) }
{
    let mut marks = vec![in alloc; false; plan.exchanges()]?;
    let mut met = Vec::new(alloc);
    meet(start, &mut marks, &mut met)?;
    for index in 0..plan.exchanges() {
        if let Some(exchange) = met.get(index).copied() {
            meet_ends(plan, code, exchange, &mut marks, &mut met)?;
        }
    }
    Ok(met)
}
