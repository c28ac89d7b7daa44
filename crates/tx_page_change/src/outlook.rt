// One of the two plans of a change.
use std::alloc::Allocator;
use tx_plan::Plan;
use tx_rank::Grade;
use tx_risk::Outcome;

/// A plan, its grade, and what its outages come to, if it has one.
#[derive(Drop)]
pub struct Outlook<'a, A: Allocator> {
    pub plan: &'a Plan<A>,
    pub grade: &'a Grade<A>,
    pub outcomes: &'a [Outcome<A>],
}
