// The routes and the bars of a plan, once more.
ghost use Rattle.std.specs.Prelude.{◌≡◌, IfOk};

use crate::ids::Pair;
use crate::plan::Plan;
use crate::routes::{Bars, Routes};
use std::alloc::Allocator;
use tx_text::NoMemory;

/// The routes of a plan.
pub fn routes_of<A: Allocator + Copy>(alloc: A, plan: &Plan<A>) -> Result<Routes<A>, NoMemory>
    ensures { IfOk result (λ routes. routes ≡ plan.now.routes) }
{
    let mut routes = Routes::new(alloc);
    for index in 0..plan.routes() {
        match plan.route_at(index) {
            Some((exchange, code)) => {
                let list = plan.group_list(exchange, code);
                routes.add(Pair { exchange, code }, list)?;
            }
            None => unreachable!(),
        }
    }
    Ok(routes)
}

/// The bars of a plan.
pub fn bars_of<A: Allocator + Copy>(alloc: A, plan: &Plan<A>) -> Result<Bars<A>, NoMemory>
    ensures { IfOk result (λ bars. bars ≡ plan.now.bars) }
{
    let mut bars = Bars::new(alloc);
    for index in 0..plan.bars() {
        match plan.bar_at(index) {
            Some((exchange, code)) => bars.add(Pair { exchange, code })?,
            None => unreachable!(),
        }
    }
    Ok(bars)
}
