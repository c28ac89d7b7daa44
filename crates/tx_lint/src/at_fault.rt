// The word at fault in a line that is refused.
ghost use Rattle.std.specs.Prelude.{◌≡◌, ◌∷◌, [], ℕ, List, option_map};
ghost use Rattle.tx_text.specs.Words.{is_name};
ghost use Rattle.tx_plan.specs.Declaring.{pair_named};
ghost use Rattle.tx_plantext.specs.inner.LineWords.{line_words};
ghost use Rattle.tx_plantext.specs.declared.fault.PlanWord.TheVariants.{Refused};
ghost use Rattle.tx_text.specs.declared.frame.FaultKind.TheVariants.{Word};
ghost use Rattle.tx_lint.specs.AtFault.{unknown_of_pair, group_word, route_word, word_at_fault, declares_name, meant_name};

use crate::word_tests::{
    first_again, first_closed, first_no_name, first_unknown_group, is_code, is_exchange,
};
use std::alloc::Allocator;
use tx_plan::{National, Plan, PlanRefusal};
use tx_plantext::PlanLine;
use tx_text::{Words, is_name};

/// The word at fault of a line that the plan refuses, where one word is at fault by itself.
pub(crate) fn word_at_fault<'t, A: Allocator>(
    plan: &Plan<A>,
    line: &PlanLine<'t>,
    refusal: PlanRefusal,
) -> Option<&'t [u8]>
    ensures { option_map (λ w. w.now) result
        ≡ word_at_fault plan.now (line_words line.now) (Word (Refused refusal)) }
{
    match line {
        PlanLine::Exchange { name } => match refusal {
            PlanRefusal::BadName | PlanRefusal::Duplicate => Some(name),
            _ => None,
        },
        PlanLine::Code { code, home } => match refusal {
            PlanRefusal::BadName | PlanRefusal::Unknown => Some(home),
            PlanRefusal::BadCode | PlanRefusal::Duplicate => Some(code),
            _ => None,
        },
        PlanLine::Lines { code, low, high } => match refusal {
            PlanRefusal::BadCode | PlanRefusal::Unknown => Some(code),
            PlanRefusal::BadNumber if National::read(low).is_none() => Some(low),
            PlanRefusal::BadNumber if National::read(high).is_none() => Some(high),
            _ => None,
        },
        PlanLine::Group {
            name,
            a,
            b,
            count,
            ..
        } => group_word(plan, name, a, b, count, refusal),
        PlanLine::Route {
            exchange,
            code,
            groups,
        } => route_word(plan, exchange, code, groups.again(), refusal),
        PlanLine::Bar { exchange, code } => match refusal {
            PlanRefusal::BadName => Some(exchange),
            PlanRefusal::BadCode => Some(code),
            PlanRefusal::Unknown => unknown_of_pair(plan, exchange, code),
            _ => None,
        },
    }
}

/// GROUP name a b direction count.
fn group_word<'t, A: Allocator>(
    plan: &Plan<A>,
    name: &'t [u8],
    a: &'t [u8],
    b: &'t [u8],
    count: &'t [u8],
    refusal: PlanRefusal,
) -> Option<&'t [u8]>
    ensures { (d : List ℕ) → option_map (λ w. w.now) result
        ≡ group_word plan.now (name.now ∷ a.now ∷ b.now ∷ d ∷ count.now ∷ []) refusal }
{
    match refusal {
        PlanRefusal::BadName if !is_name(name) => Some(name),
        PlanRefusal::BadName if !is_name(a) => Some(a),
        PlanRefusal::BadName if !is_name(b) => Some(b),
        PlanRefusal::BadNumber => Some(count),
        PlanRefusal::Duplicate => Some(name),
        PlanRefusal::Unknown if !is_exchange(plan, a) => Some(a),
        PlanRefusal::Unknown if !is_exchange(plan, b) => Some(b),
        PlanRefusal::SameEnds => Some(b),
        _ => None,
    }
}

/// Of the words for an exchange and a code, the first that is not declared.
fn unknown_of_pair<'t, A: Allocator>(
    plan: &Plan<A>,
    exchange: &'t [u8],
    code: &'t [u8],
) -> Option<&'t [u8]>
    ensures { option_map (λ w. w.now) result ≡ unknown_of_pair plan.now exchange.now code.now }
{
    if !is_exchange(plan, exchange) {
        Some(exchange)
    } else if !is_code(plan, code) {
        Some(code)
    } else {
        None
    }
}

/// ROUTE exchange code group ..
fn route_word<'t, A: Allocator>(
    plan: &Plan<A>,
    exchange: &'t [u8],
    code: &'t [u8],
    groups: Words<'t>,
    refusal: PlanRefusal,
) -> Option<&'t [u8]>
    ensures { option_map (λ w. w.now) result
        ≡ route_word plan.now (exchange.now ∷ code.now ∷ groups.entry) refusal }
{
    match refusal {
        PlanRefusal::BadName if !is_name(exchange) => Some(exchange),
        PlanRefusal::BadName => first_no_name(groups),
        PlanRefusal::BadCode => Some(code),
        PlanRefusal::Unknown => match unknown_of_pair(plan, exchange, code) {
            Some(word) => Some(word),
            None => first_unknown_group(plan, groups),
        },
        PlanRefusal::NotOutgoing => {
            let pair = plan.pair_named(exchange, code);
            first_closed(plan, &pair, groups)
        }
        PlanRefusal::RepeatedGroup => first_again(groups),
        _ => None,
    }
}

/// The name that a line of these words declares, or is meant to declare.
pub(crate) fn meant_name<'t>(mut words: Words<'t>) -> Option<&'t [u8]>
    ensures { option_map (λ w. w.now) result ≡ meant_name words.entry }
{
    let first = words.next()?;
    let name = words.next()?;
    if declares_name(first) {
        Some(name)
    } else {
        None
    }
}

/// Whether the word begins a line that declares a name.
fn declares_name(word: &[u8]) -> bool
    ensures { result ≡ declares_name word.now }
{
    word == b"EXCHANGE".as_slice() || word == b"CODE".as_slice() || word == b"GROUP".as_slice()
}

/// The name that a line declares, or is meant to declare.
pub(crate) fn meant_by<'t>(line: &PlanLine<'t>) -> Option<&'t [u8]>
    ensures { option_map (λ w. w.now) result ≡ meant_name (line_words line.now) }
{
    match line {
        PlanLine::Exchange { name } | PlanLine::Group { name, .. } => Some(name),
        PlanLine::Code { code, .. } => Some(code),
        PlanLine::Lines { .. } | PlanLine::Route { .. } | PlanLine::Bar { .. } => None,
    }
}
