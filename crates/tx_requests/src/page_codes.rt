// Of which codes a page has pictures.
ghost use Rattle.std.specs.Prelude.{◌≡◌, ◌⊎◌, None, option_map, IfOk, IfErr};
ghost use Rattle.tx_requests.specs.PageCodes.{first_missing, missing_code, IsNoCode, is_about, has_finding, differs_at, differs, is_touched, is_shown};
ghost use Rattle.tx_files.specs.Faults.{memory_stop};

use crate::page_change::FoundChange;
use std::alloc::Allocator;
use tx_commands::PageRequest;
use tx_files::{CommandFault, Named, PageTexts, PlanText, is_named, name_at};
use tx_plan::{CodeId, ExchangeId, Plan};
use tx_rank::{Finding, Ranking};

/// The place of the first name in a word of which the plan has no code.
fn first_missing<A: Allocator>(plan: &Plan<A>, word: &str) -> Option<usize>
    ensures { result ≡ first_missing plan.now word.now }
{
    word.split(',')
        .position(|name| plan.code_named(name.as_bytes()).is_none())
}

/// Refuses a word that names a code which the plan does not have.
pub(crate) fn refuse_missing<A: Allocator + Copy>(
    alloc: A,
    plan: &Plan<A>,
    word: Option<&str>,
) -> Result<(), CommandFault>
    ensures missing { IfErr result (λ fault.
        IsNoCode plan.now (option_map (λ w. w.now) word.entry) fault ⊎ (fault ≡ memory_stop)) }
    ensures none { IfOk result (λ _.
        missing_code plan.now (option_map (λ w. w.now) word.entry) ≡ None) }
{
    match word {
        Some(word) => match first_missing(plan, word) {
            Some(place) => {
                let name = name_at(Some(word), place);
                Err(CommandFault::missing(alloc, plan, Named::Code, place, name))
            }
            None => Ok(()),
        },
        None => Ok(()),
    }
}

/// Whether a finding is about a code.
fn is_about<A: Allocator>(finding: &Finding<A>, code: CodeId) -> bool
    ensures { result ≡ is_about code finding.now }
{
    match finding {
        Finding::Ambiguous(shorter, longer) => *shorter == code || *longer == code,
        Finding::Loop(of, _) | Finding::Short(of, _) | Finding::Long(of, _) => *of == code,
    }
}

/// Whether one of the findings is about a code.
fn has_finding<A: Allocator>(ranking: &Ranking<A>, code: CodeId) -> bool
    ensures { result ≡ has_finding code ranking.now }
{
    match ranking {
        Ranking::Found(_) => false,
        Ranking::Fails(findings) => findings.iter().any(|finding| is_about(finding, code)),
    }
}

/// Whether an exchange has another list or another bar for a code in the new plan.
fn differs_at<A: Allocator>(
    old: &Plan<A>,
    new: &Plan<A>,
    code: CodeId,
    exchange: ExchangeId,
) -> bool
    ensures { result ≡ differs_at old.now new.now code exchange }
{
    let (was, is) = (old.is_barred(exchange, code), new.is_barred(exchange, code));
    old.list(exchange, code) != new.list(exchange, code) || was != is
}

/// Whether one of the exchanges has.
fn differs<A: Allocator>(old: &Plan<A>, new: &Plan<A>, code: CodeId) -> bool
    ensures { result ≡ differs old.now new.now code }
{
    let mut exchanges = 0..new.exchanges();
    exchanges.any(|index| differs_at(old, new, code, ExchangeId::of(index)))
}

/// Whether a change touches the code of these figures, if there is a change.
fn is_touched<A: Allocator>(
    old: &Option<PlanText<A>>,
    change: &Option<FoundChange<A>>,
    figures: &[u8],
) -> bool
    ensures { result ≡ is_touched old.now change.now figures.now }
{
    match (old, change) {
        (Some(old), Some(change)) => match old.plan.code_named(figures) {
            Some(code) => {
                let (old, new) = change.switching.plans();
                differs(old, new, code)
            }
            None => true,
        },
        _ => false,
    }
}

/// Whether a page has the picture of a code.
pub(crate) fn is_shown<A: Allocator>(
    request: &PageRequest,
    texts: &PageTexts<A>,
    ranking: &Ranking<A>,
    change: &Option<FoundChange<A>>,
    code: CodeId,
) -> bool
    ensures { result ≡ is_shown request.now texts.now ranking.now change.now code }
{
    let figures = texts.plan.plan.code_figures(code);
    if request.all_codes {
        return true;
    }
    match request.code.as_deref() {
        Some(word) => is_named(word, figures),
        None => has_finding(ranking, code) || is_touched(&texts.old, change, figures),
    }
}
