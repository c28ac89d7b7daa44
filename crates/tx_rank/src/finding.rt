// What may be wrong with a plan.
use crate::walk::Walk;
use std::alloc::{Allocator, Global};
use tx_plan::CodeId;

/// A reason why a plan has no certificate for a limit and a spare number.
#[derive(Drop)]
pub enum Finding<A: Allocator = Global> {
    /// A code, and a longer code that begins with it.
    Ambiguous(CodeId, CodeId),
    /// A walk for the code that comes back to an exchange which it passed.
    Loop(CodeId, Walk<A>),
    /// A walk for the code to an exchange, not its home, whose list has no more groups than are to
    /// spare.
    Short(CodeId, Walk<A>),
    /// A walk for the code of one step more than the limit, which is not at the code's home yet.
    Long(CodeId, Walk<A>),
}
