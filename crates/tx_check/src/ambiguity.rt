// The pair of codes that a check reports first.
ghost use Rattle.std.specs.Prelude.{◌≡◌};
ghost use Rattle.tx_plan.specs.Ambiguous.{ambiguous_of};

use std::alloc::Allocator;
use tx_plan::{CodeId, Plan, three_figures};

/// The least pair of a code and a longer code that begins with it, if there is one. Takes no
/// memory.
pub(crate) fn ambiguous<A: Allocator>(plan: &Plan<A>) -> Option<(CodeId, CodeId)>
    ensures { result ≡ ambiguous_of plan.now.codes }
{
    plan.rules();
    for number in 0..1000 {
        let longer = three_figures(number);
        let pair = plan.code_named(&longer[..2]).zip(plan.code_named(&longer));
        if pair.is_some() {
            return pair;
        }
    }
    None
}
