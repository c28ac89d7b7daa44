// The warnings of a plan.
ghost use Rattle.std.specs.Prelude.{◌≡◌, ◌∷◌, ◌++◌, map, length, slice_get, if◌then◌else◌, [], IfOk, OnOk};
ghost use Rattle.std.specs.List.{flat_map, range_with_len};
ghost use Rattle.std.specs.Option.{option_map_or, option_to_list};
ghost use Rattle.tx_plan.specs.Codes.{is_prefix};
ghost use Rattle.tx_plan.specs.Routes.{is_origin};
ghost use Rattle.tx_lint.specs.declared.warning.Warning.TheVariants.{NoLines, UnusedList, NoList, Ambiguous, SharedRisk};
ghost use Rattle.tx_lint.specs.Warnings.{Coming, TellsWhereCallsCome, has_lines, wants_list, begins, is_unlisted, lie_in, is_mute, is_idle, codes_where, warned_once, warned_if, exchange_warnings, code_warnings, list_warnings, entry_warnings, warnings};
ghost use Rattle.tx_lint.specs.inner.Marks.{coming_of, AreMarksOf};

use crate::alone::is_alone;
use crate::entry::Entry;
use crate::marks::Marks;
use crate::warning::Warning;
use std::alloc::Allocator;
use tx_plan::{CodeId, ExchangeId, GroupId, Plan};
use tx_risk::{Outage, Risks, goes_with};
use tx_text::NoMemory;

/// The warnings of a plan with these risks, in order of its entries, which are given with the
/// numbers of their lines.
pub(crate) fn warnings_of<A: Allocator + Copy>(
    alloc: A,
    plan: &Plan<A>,
    entries: &[(u64, Entry)],
    risks: &Risks<A>,
) -> Result<Vec<(u64, Warning), A>, NoMemory>
    ensures { IfOk result (λ found. (comes : Coming) × TellsWhereCallsCome plan.now comes
        × (found.items ≡ warnings plan.now risks.now comes entries.now)) }
{
    let marks = Marks::of(alloc, plan)?;
    let mut found = Vec::new(alloc);
    for i in 0..entries.len() {
        let (line, entry) = entries[i];
        add_warnings(alloc, plan, risks, &marks, line, entry, &mut found)?;
    }
    Ok(found)
}

/// Adds the warnings of an entry.
fn add_warnings<A: Allocator + Copy>(
    alloc: A,
    plan: &Plan<A>,
    risks: &Risks<A>,
    marks: &Marks<A>,
    line: u64,
    entry: Entry,
    found: &mut Vec<(u64, Warning), A>,
) -> Result<(), NoMemory>
    requires { AreMarksOf plan.now marks.now }
    ensures { OnOk result (found.new.items ≡ found.old.items
        ++ map (λ w. (line, w)) (entry_warnings plan.now risks.now (coming_of marks.now) entry)) }
{
    match entry {
        Entry::Header => add_if(plan.ranges() == 0, line, Warning::NothingToJudge, found),
        Entry::Exchange(exchange) => add_exchange(alloc, plan, marks, exchange, line, found),
        Entry::Code(code) => add_code(plan, code, line, found),
        Entry::Lines(_) => Ok(()),
        Entry::Group(group) => {
            let unused = !marks.is_listed(group);
            add_if(unused, line, Warning::UnusedGroup(group), found)
        }
        Entry::Route(index) => add_list(plan, risks, index, line, found),
        Entry::Bar(index) => match plan.bar_at(index) {
            Some((exchange, _)) => {
                let unused = !marks.is_origin(exchange);
                add_if(unused, line, Warning::UnusedBar, found)
            }
            None => Ok(()),
        },
    }
}

/// Adds the warnings of an exchange.
fn add_exchange<A: Allocator + Copy>(
    alloc: A,
    plan: &Plan<A>,
    marks: &Marks<A>,
    exchange: ExchangeId,
    line: u64,
    found: &mut Vec<(u64, Warning), A>,
) -> Result<(), NoMemory>
    requires { AreMarksOf plan.now marks.now }
    ensures { OnOk result (found.new.items ≡ found.old.items
        ++ map (λ w. (line, w)) (exchange_warnings plan.now (coming_of marks.now) exchange)) }
{
    let mute = mute_codes(alloc, plan, exchange)?;
    add_some(warn_of_mute(&mute), line, found)?;
    let idle = idle_codes(alloc, plan, marks, exchange)?;
    add_some(warn_of_idle(&idle), line, found)?;
    add_missing_lists(plan, exchange, marks.is_origin(exchange), line, found)?;
    let alone = is_alone(plan, exchange);
    add_if(alone, line, Warning::NoGroup(exchange), found)
}

/// Adds a warning, if there is one.
fn add_some<A: Allocator>(
    warning: Option<Warning>,
    line: u64,
    found: &mut Vec<(u64, Warning), A>,
) -> Result<(), NoMemory>
    ensures { OnOk result (found.new.items ≡ found.old.items
        ++ map (λ w. (line, w)) (option_to_list warning)) }
{
    if let Some(warning) = warning {
        found.push((line, warning))?;
    }
    Ok(())
}

/// The warning of codes without lines, if there are any.
fn warn_of_mute(codes: &[CodeId]) -> Option<Warning>
    ensures { option_to_list result ≡ warned_once NoLines codes.now }
{
    let (code, others) = codes.split_first()?;
    Some(Warning::NoLines(*code, others.len()))
}

/// The warning of codes whose lists no call comes to, if there are any.
fn warn_of_idle(codes: &[CodeId]) -> Option<Warning>
    ensures { option_to_list result ≡ warned_once UnusedList codes.now }
{
    let (code, others) = codes.split_first()?;
    Some(Warning::UnusedList(*code, others.len()))
}

/// The codes at home at the exchange that have no lines.
fn mute_codes<A: Allocator + Copy>(
    alloc: A,
    plan: &Plan<A>,
    exchange: ExchangeId,
) -> Result<Vec<CodeId, A>, NoMemory>
    ensures { IfOk result (λ found.
        found.items ≡ codes_where plan.now (is_mute plan.now exchange)) }
{
    let mut found = Vec::new(alloc);
    for index in 0..plan.codes() {
        let code = CodeId::of(index);
        let mute = is_mute(plan, exchange, code);
        push_if(mute, code, &mut found)?;
    }
    Ok(found)
}

/// Whether the code is at home at the exchange, and has no lines.
fn is_mute<A: Allocator>(plan: &Plan<A>, exchange: ExchangeId, code: CodeId) -> bool
    ensures { result ≡ is_mute plan.now exchange code }
{
    plan.home(code) == exchange && !has_lines(plan, code)
}

/// Adds a code, if there is reason for it.
fn push_if<A: Allocator>(
    reason: bool,
    code: CodeId,
    found: &mut Vec<CodeId, A>,
) -> Result<(), NoMemory>
    ensures { OnOk result (found.new.items
        ≡ found.old.items ++ (if reason then code ∷ [] else [])) }
{
    if reason {
        found.push(code)?;
    }
    Ok(())
}

/// The codes for which the exchange has a list, and no call comes there.
fn idle_codes<A: Allocator + Copy>(
    alloc: A,
    plan: &Plan<A>,
    marks: &Marks<A>,
    exchange: ExchangeId,
) -> Result<Vec<CodeId, A>, NoMemory>
    ensures { IfOk result (λ found. found.items
        ≡ codes_where plan.now (is_idle plan.now (coming_of marks.now) exchange)) }
{
    let mut found = Vec::new(alloc);
    for index in 0..plan.codes() {
        let code = CodeId::of(index);
        let idle = is_idle(plan, marks, exchange, code);
        push_if(idle, code, &mut found)?;
    }
    Ok(found)
}

/// Whether the exchange has a list for the code, and no call for it comes there.
fn is_idle<A: Allocator>(
    plan: &Plan<A>,
    marks: &Marks<A>,
    exchange: ExchangeId,
    code: CodeId,
) -> bool
    ensures { result ≡ is_idle plan.now (coming_of marks.now) exchange code }
{
    !plan.list(exchange, code).is_empty() && !marks.comes(code, exchange)
}

/// Adds the warnings of a code.
fn add_code<A: Allocator>(
    plan: &Plan<A>,
    code: CodeId,
    line: u64,
    found: &mut Vec<(u64, Warning), A>,
) -> Result<(), NoMemory>
    ensures { OnOk result (found.new.items
        ≡ found.old.items ++ map (λ w. (line, w)) (code_warnings plan.now code)) }
{
    add_ambiguous(plan, code, line, found)?;
    add_if(
        is_unlisted(plan, code),
        line,
        Warning::Unlisted(code),
        found,
    )
}

/// Adds the warnings of the list at an index.
fn add_list<A: Allocator>(
    plan: &Plan<A>,
    risks: &Risks<A>,
    index: usize,
    line: u64,
    found: &mut Vec<(u64, Warning), A>,
) -> Result<(), NoMemory>
    ensures { OnOk result (found.new.items ≡ found.old.items ++ map (λ w. (line, w))
        (option_map_or (list_warnings plan.now risks.now) (slice_get plan.now.routes index) [])) }
{
    let Some((exchange, code)) = plan.route_at(index) else {
        return Ok(());
    };
    add_shared_risks(plan, risks, plan.list(exchange, code), line, found)
}

/// Adds a warning, if there is reason for it.
fn add_if<A: Allocator>(
    reason: bool,
    line: u64,
    warning: Warning,
    found: &mut Vec<(u64, Warning), A>,
) -> Result<(), NoMemory>
    ensures { OnOk result (found.new.items ≡ found.old.items
        ++ map (λ w. (line, w)) (warned_if reason warning)) }
{
    if reason {
        found.push((line, warning))?;
    }
    Ok(())
}

/// Whether a range of lines is of the code.
fn has_lines<A: Allocator>(plan: &Plan<A>, code: CodeId) -> bool
    ensures { result ≡ has_lines plan.now code }
{
    for index in 0..plan.ranges() {
        match plan.range_at(index) {
            Some(range) => {
                if range.code == code {
                    return true;
                }
            }
            None => unreachable!(),
        }
    }
    false
}

/// Adds a warning for each code for which the exchange has no list, where calls for it may start.
fn add_missing_lists<A: Allocator>(
    plan: &Plan<A>,
    exchange: ExchangeId,
    origin: bool,
    line: u64,
    found: &mut Vec<(u64, Warning), A>,
) -> Result<(), NoMemory>
    requires { origin ≡ is_origin plan.now exchange }
    ensures { OnOk result (found.new.items ≡ found.old.items ++ map (λ w. (line, w))
        (flat_map (λ c. warned_if (wants_list plan.now exchange c) (NoList c))
        (range_with_len 0 (length plan.now.codes)))) }
{
    for index in 0..plan.codes() {
        let code = CodeId::of(index);
        let wanting = wants_list(plan, exchange, origin, code);
        add_if(wanting, line, Warning::NoList(code), found)?;
    }
    Ok(())
}

/// Whether calls for the code may start at an exchange that has no list for it, and is not its
/// home.
fn wants_list<A: Allocator>(
    plan: &Plan<A>,
    exchange: ExchangeId,
    origin: bool,
    code: CodeId,
) -> bool
    requires { origin ≡ is_origin plan.now exchange }
    ensures { result ≡ wants_list plan.now exchange code }
{
    origin
        && !plan.is_barred(exchange, code)
        && plan.home(code) != exchange
        && plan.list(exchange, code).is_empty()
}

/// Adds a warning for each shorter code that begins the code.
fn add_ambiguous<A: Allocator>(
    plan: &Plan<A>,
    code: CodeId,
    line: u64,
    found: &mut Vec<(u64, Warning), A>,
) -> Result<(), NoMemory>
    ensures { OnOk result (found.new.items ≡ found.old.items ++ map (λ w. (line, w))
        (flat_map (λ d. warned_if (begins plan.now d code) (Ambiguous d))
        (range_with_len 0 (length plan.now.codes)))) }
{
    for index in 0..plan.codes() {
        let shorter = CodeId::of(index);
        let begun = begins(plan, shorter, code);
        add_if(begun, line, Warning::Ambiguous(shorter), found)?;
    }
    Ok(())
}

/// Whether the first code is shorter than the second, and begins it.
fn begins<A: Allocator>(plan: &Plan<A>, shorter: CodeId, code: CodeId) -> bool
    ensures { result ≡ begins plan.now shorter code }
{
    let front = plan.code_figures(shorter);
    let figures = plan.code_figures(code);
    is_prefix(front, figures) && front.len() < figures.len()
}

/// Whether the one text begins the other.
fn is_prefix(front: &[u8], text: &[u8]) -> bool
    ensures { result ≡ is_prefix front.now text.now }
{
    text.starts_with(front)
}

/// Whether no exchange has a list for the code, and its home is not the only exchange.
fn is_unlisted<A: Allocator>(plan: &Plan<A>, code: CodeId) -> bool
    ensures { result ≡ is_unlisted plan.now code }
{
    for index in 0..plan.routes() {
        match plan.route_at(index) {
            Some(pair) => {
                if pair.1 == code {
                    return false;
                }
            }
            None => unreachable!(),
        }
    }
    plan.exchanges() > 1
}

/// Adds a warning for each risk with which all these groups go.
fn add_shared_risks<A: Allocator>(
    plan: &Plan<A>,
    risks: &Risks<A>,
    groups: &[GroupId],
    line: u64,
    found: &mut Vec<(u64, Warning), A>,
) -> Result<(), NoMemory>
    ensures { OnOk result (found.new.items ≡ found.old.items ++ map (λ w. (line, w))
        (flat_map (λ k. warned_if (lie_in plan.now risks.now k groups.now) (SharedRisk k))
        (range_with_len 0 (length risks.now)))) }
{
    for index in 0..risks.len() {
        let shared = lie_in(plan, risks, index, groups);
        add_if(shared, line, Warning::SharedRisk(index), found)?;
    }
    Ok(())
}

/// Whether all these groups go with the risk at an index.
fn lie_in<A: Allocator>(plan: &Plan<A>, risks: &Risks<A>, index: usize, groups: &[GroupId]) -> bool
    ensures { result ≡ lie_in plan.now risks.now index groups.now }
{
    let risk = Outage::Named(index);
    groups
        .iter()
        .all(|group| goes_with(plan, risks, &risk, *group))
}
