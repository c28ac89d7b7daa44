// Which arrows the walks of findings take.
ghost use Rattle.std.specs.Prelude.{◌≡◌};
ghost use Rattle.tx_svg.specs.inner.WrongSteps.{goes, has_step, is_wrong};

use std::alloc::Allocator;
use tx_plan::{CodeId, ExchangeId};
use tx_rank::{Finding, Walk};

/// Whether a finding is of the code and has a walk.
fn is_of<A: Allocator>(finding: &Finding<A>, code: CodeId) -> bool {
    match finding {
        Finding::Ambiguous(_, _) => false,
        Finding::Loop(of, _) | Finding::Short(of, _) | Finding::Long(of, _) => *of == code,
    }
}

/// The findings from the first to the last of the code that have walks.
pub fn findings_of<A: Allocator>(findings: &[Finding<A>], code: CodeId) -> &[Finding<A>] {
    let mut start = findings.len();
    let mut end = 0;
    for i in 0..findings.len() {
        if is_of(&findings[i], code) {
            start = start.min(i);
            end = i + 1;
        }
    }
    if start < end && end <= findings.len() {
        &findings[start..end]
    } else {
        &[]
    }
}

/// Whether a walk goes from one exchange to another.
fn goes<A: Allocator>(walk: &Walk<A>, from: ExchangeId, to: ExchangeId) -> bool
    ensures { result ≡ goes walk.now.start walk.now.steps from to }
{
    let mut at = walk.start;
    for step in &walk.steps {
        if at == from && step.1 == to {
            return true;
        }
        at = step.1;
    }
    false
}

/// Whether a finding is of the code, and its walk goes from one exchange to another.
fn has_step<A: Allocator>(
    finding: &Finding<A>,
    code: CodeId,
    from: ExchangeId,
    to: ExchangeId,
) -> bool
    ensures { result ≡ has_step code from to finding.now }
{
    match finding {
        Finding::Ambiguous(_, _) => false,
        Finding::Loop(of, walk) | Finding::Short(of, walk) | Finding::Long(of, walk) => {
            *of == code && goes(walk, from, to)
        }
    }
}

/// Whether the walk of a finding of the code goes from one exchange to another.
pub fn is_wrong<A: Allocator>(
    findings: &[Finding<A>],
    code: CodeId,
    from: ExchangeId,
    to: ExchangeId,
) -> bool
    ensures { result ≡ is_wrong findings.now code from to }
{
    findings
        .iter()
        .any(|finding| has_step(finding, code, from, to))
}
