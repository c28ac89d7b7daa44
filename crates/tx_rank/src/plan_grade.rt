// With which limits and spare numbers a plan is certified.
use crate::bounds::Bounds;
use crate::finding::Finding;
use std::alloc::{Allocator, Global};
use tx_cert::Cert;
use tx_plan::CodeId;

/// With which limits and spare numbers a plan is certified, and each of its codes.
pub struct Grade<A: Allocator = Global> {
    /// Exactly with a limit that is no smaller and a spare number that is no greater. None where it
    /// is certified with no numbers.
    pub plan: Option<Bounds>,
    /// The same of each code alone, in order of declaration.
    pub codes: Vec<(CodeId, Option<Bounds>), A>,
    /// What is wrong whatever the numbers, if the plan has no grade: the ambiguous pair, and for
    /// each code a loop, or a walk to each exchange without a list.
    pub findings: Vec<Finding<A>, A>,
    /// Ranks by which the plan is certified so, if it has a grade: of each code that has one, the
    /// heights of its exchanges.
    pub ranks: Cert<A>,
}

impl<A: Allocator> Drop for Grade<A> {
    fn drop(self) {
        let Self {
            plan: _,
            codes,
            findings,
            ranks,
        } = self;
        drop(codes);
        drop(findings);
        drop(ranks);
    }
}
