// The line that calls.
ghost use Rattle.std.specs.Prelude.{◌≡◌};
ghost use Rattle.tx_plan.specs.Rules.{IsPlan};
ghost use Rattle.tx_audit.specs.Counter.{first_range, first_line};

use std::alloc::Allocator;
use tx_plan::{CodeId, ExchangeId, Line, LineRange, Plan};

/// The first range of a code.
fn first_range<A: Allocator>(plan: &Plan<A>, code: CodeId) -> Option<LineRange>
    ensures { result ≡ first_range plan.now code }
{
    for index in 0..plan.ranges() {
        let Some(range) = plan.range_at(index) else {
            unreachable!()
        };
        if range.code == code {
            return Some(range);
        }
    }
    None
}

/// The low end of the first range of the first code that is at home at the exchange and has a
/// range.
pub(crate) fn first_line<A: Allocator>(plan: &Plan<A>, start: ExchangeId) -> Option<Line>
    ensures line { result ≡ first_line plan.now start }
    ensures rules { IsPlan plan.now }
{
    for index in 0..plan.codes() {
        let code = CodeId::of(index);
        if plan.home(code) != start {
            continue;
        }
        if let Some(range) = first_range(plan, code) {
            return Some(Line {
                code,
                national: range.low,
            });
        }
    }
    None
}
